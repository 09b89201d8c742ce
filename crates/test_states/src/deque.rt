use crate::shown::shows;
use esync_base::deque::Deque;
use esync_notes::{holds, same};
use std::alloc::AllocError;
use std::process::Abort;

// The items stand in these places, oldest first.
fn stands_at<const N: usize>(rt: &impl Abort, ring: &Deque<u32, N>, places: &[usize]) {
    holds!(rt; ring.len() == places.len());
    for (i, place) in places.iter().enumerate() {
        holds!(rt; i < ring.len());
        same!(rt; ring.slot_of(i), *place);
    }
}

// There is room for these.
fn takes<const N: usize>(rt: &impl Abort, ring: &mut Deque<u32, N>, items: &[u32]) {
    for item in items {
        holds!(rt; ring.push_back(*item) == Ok(()));
    }
}

// There is no room for another one.
fn refuses<const N: usize>(rt: &impl Abort, ring: &mut Deque<u32, N>) {
    holds!(rt; ring.is_full());
    holds!(rt; ring.push_back(4) == Err(4));
}

// These leave, oldest first, of which each was at the front.
fn gives<const N: usize>(rt: &impl Abort, ring: &mut Deque<u32, N>, items: &[u32]) {
    for item in items {
        holds!(rt; ring.front() == Some(item));
        holds!(rt; ring.pop_front() == Some(*item));
    }
}

fn is_empty<const N: usize>(rt: &impl Abort, ring: &mut Deque<u32, N>) {
    same!(rt; ring.len(), 0);
    holds!(rt; ring.is_empty());
    holds!(rt; ring.front().is_none());
    holds!(rt; ring.pop_front().is_none());
}

#[test]
fn ring_goes_round(rt: HostRuntime) {
    let mut ring: Deque<u32, 3> = Deque::new();
    takes(&rt, &mut ring, &[1, 2, 3]);
    refuses(&rt, &mut ring);
    stands_at(&rt, &ring, &[0, 1, 2]);
    gives(&rt, &mut ring, &[1]);
    same!(rt; ring.slot_of_next(), 0);
    takes(&rt, &mut ring, &[4]);
    stands_at(&rt, &ring, &[1, 2, 0]);
    same!(rt; ring.slot_of_next(), 1);
    gives(&rt, &mut ring, &[2, 3, 4]);
    is_empty(&rt, &mut ring);
}

#[test]
fn ring_of_no_place_is_full_and_empty(rt: HostRuntime) {
    let mut ring: Deque<u32, 0> = Deque::new();
    refuses(&rt, &mut ring);
    is_empty(&rt, &mut ring);
    ring.clear();
    refuses(&rt, &mut ring);
    is_empty(&rt, &mut ring);
}

// It holds these, oldest first.
fn holds_items<const N: usize>(rt: &impl Abort, ring: &Deque<u32, N>, items: &[u32]) {
    holds!(rt; ring.len() == items.len());
    for (i, item) in items.iter().enumerate() {
        holds!(rt; i < ring.len());
        same!(rt; *ring.get(i), *item);
    }
}

// The second one is removed, and then the one that took its place is replaced.
fn changes_the_second(rt: &impl Abort, ring: &mut Deque<u32, 4>) {
    holds!(rt; ring.len() == 4);
    same!(rt; ring.remove(1), 4);
    stands_at(rt, ring, &[2, 3, 0]);
    holds_items(rt, ring, &[3, 5, 6]);
    holds!(rt; ring.len() == 3);
    same!(rt; ring.replace(1, 7), 5);
}

#[test]
fn items_behind_a_removed_one_move_up(rt: HostRuntime) {
    let mut ring: Deque<u32, 4> = Deque::new();
    takes(&rt, &mut ring, &[1, 2, 3, 4]);
    gives(&rt, &mut ring, &[1, 2]);
    takes(&rt, &mut ring, &[5, 6]);
    stands_at(&rt, &ring, &[2, 3, 0, 1]);
    changes_the_second(&rt, &mut ring);
    gives(&rt, &mut ring, &[3, 7, 6]);
    is_empty(&rt, &mut ring);
}

#[test]
fn cleared_ring_begins_anew(rt: HostRuntime) {
    let mut ring: Deque<u32, 2> = Deque::new();
    takes(&rt, &mut ring, &[1, 2]);
    gives(&rt, &mut ring, &[1]);
    ring.clear();
    is_empty(&rt, &mut ring);
    holds!(rt; !ring.is_full());
    takes(&rt, &mut ring, &[3]);
    stands_at(&rt, &ring, &[0]);
}

#[test]
fn ring_is_shown(rt: HostRuntime) -> Result<(), AllocError> {
    let mut ring: Deque<u32, 2> = Deque::new();
    takes(&rt, &mut ring, &[5, 6]);
    gives(&rt, &mut ring, &[5]);
    takes(&rt, &mut ring, &[7]);
    shows(&rt, rt.alloc(), &ring, "[6, 7]")
}
