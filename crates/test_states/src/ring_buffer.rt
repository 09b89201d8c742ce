use esync_base::ring_buffer::{ByteRing, RingBuffer};
use esync_notes::{holds, same};
use std::ops::Range;
use std::process::Abort;

type Pieces = (Range<usize>, Range<usize>);

// The free places and the filled ones are these, each in one piece or in two.
fn stands(rt: &impl Abort, ring: &RingBuffer<4>, free: Pieces, filled: Pieces) {
    holds!(rt; ring.push_bufs() == free);
    holds!(rt; ring.pop_bufs() == filled);
    holds!(rt; ring.push_buf() == free.0);
    holds!(rt; ring.pop_buf() == filled.0);
}

// Fills this number of places.
fn pushes(rt: &impl Abort, ring: &mut RingBuffer<4>, places: usize) {
    holds!(rt; places <= 4 - ring.len());
    ring.push(places);
}

// Frees this number of places.
fn pops(rt: &impl Abort, ring: &mut RingBuffer<4>, places: usize) {
    holds!(rt; places <= ring.len());
    ring.pop(places);
}

#[test]
fn four_places_are_filled_and_freed(rt: HostRuntime) {
    let mut ring: RingBuffer<4> = RingBuffer::new();
    holds!(rt; ring.is_empty());
    stands(&rt, &ring, (0..4, 0..0), (0..0, 0..0));
    pushes(&rt, &mut ring, 4);
    holds!(rt; ring.is_full());
    stands(&rt, &ring, (0..0, 0..0), (0..4, 0..0));
    pops(&rt, &mut ring, 1);
    stands(&rt, &ring, (0..1, 0..0), (1..4, 0..0));
    pops(&rt, &mut ring, 1);
    stands(&rt, &ring, (0..2, 0..0), (2..4, 0..0));
    pops(&rt, &mut ring, 1);
    stands(&rt, &ring, (0..3, 0..0), (3..4, 0..0));
    pops(&rt, &mut ring, 1);
    holds!(rt; ring.is_empty());
    stands(&rt, &ring, (0..4, 0..0), (0..0, 0..0));
}

#[test]
fn places_go_on_behind_the_wrap(rt: HostRuntime) {
    let mut ring: RingBuffer<4> = RingBuffer::new();
    pushes(&rt, &mut ring, 3);
    stands(&rt, &ring, (3..4, 0..0), (0..3, 0..0));
    pops(&rt, &mut ring, 1);
    stands(&rt, &ring, (3..4, 0..1), (1..3, 0..0));
    pushes(&rt, &mut ring, 2);
    holds!(rt; ring.is_full());
    stands(&rt, &ring, (0..0, 0..0), (1..4, 0..1));
    pops(&rt, &mut ring, 3);
    same!(rt; ring.len(), 1);
    stands(&rt, &ring, (1..4, 0..0), (0..1, 0..0));
    ring.clear();
    holds!(rt; ring.is_empty());
    stands(&rt, &ring, (0..4, 0..0), (0..0, 0..0));
}

// A ring that is emptied goes on where it stands, and one that is cleared begins at the first place.
#[test]
fn an_emptied_ring_keeps_its_place(rt: HostRuntime) {
    let mut ring: RingBuffer<4> = RingBuffer::new();
    ring.push(3);
    ring.pop(3);
    holds!(rt; ring.is_empty());
    holds!(rt; ring.push_bufs() == (3..4, 0..3));
    ring.clear();
    holds!(rt; ring.push_bufs() == (0..4, 0..0));
}

// What a pipe doesn't ask.
#[test]
fn a_ring_without_bytes_gives_none(rt: HostRuntime) {
    let mut ring: ByteRing<4> = ByteRing::new();
    holds!(rt; ring.is_empty());
    same!(rt; ring.read(&mut [0; 2]), 0);
    holds!(rt; ring.filled().is_empty());
    same!(rt; ring.write(&[1, 2, 3, 4, 5]), 4);
    holds!(rt; ring.is_full());
}
