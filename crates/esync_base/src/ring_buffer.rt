//! A ring of bytes of fixed capacity that takes no memory.
//!
//! [`RingBuffer`] knows which places of a ring are filled, but has no bytes. [`ByteRing`] has the bytes beside it.
ghost use Rattle.std.specs.Prelude.{◌≡◌, ◌↔◌, ◌+◌, ◌-◌, ◌<◌, ◌≤◌, ◌^◌, ◌++◌, [], min, length, take, drop, IsTrue};
ghost use Rattle.std.proofs.Math.ListN.{replicate};
ghost use Rattle.esync_base.specs.Ring.{slot};
ghost use Rattle.esync_base.specs.RingBuffer.{filled_run, free_run, begins, written};

use crate::extent::{Chosen, Extent, Fixed};
use crate::kept::Kept;
use crate::store::{ByteStore, FixedBytes};
use std::alloc::AllocError;
use std::marker::Model;
use std::ops::Range;

/// Which of the `N` places of a ring are filled.
pub type RingBuffer<const N: usize> = RingBufferOver<Fixed<N>>;

/// Which places of a ring are filled: a count of places from the first filled one on. Behind the last place of the ring
/// comes the first again. `E` says how many places the ring has.
// `start` and `len`, which a read changes, don't stand side by side. Otherwise both may be loaded as one vector right
// behind a write's store of one of them, and the processor waits for that store.
#[derive(Debug, Drop)]
pub struct RingBufferOver<E: Extent> {
    start: usize,
    end: usize,
    len: usize,
    places: E,
}

impl<E: Extent> Model for RingBufferOver<E> {
    ghost use Rattle.std.specs.Prelude.{◌≡◌, ◌-◌, ◌≤◌};
    ghost use Rattle.esync_base.specs.Ring.{slot};
    ghost use Rattle.esync_base.specs.RingBuffer.{Stretch, stretch_code};

    ghost Value = { Stretch };

    ghost coded = { stretch_code };

    ghost view = { λ a. record { front = a.start; count = a.len } };

    ghost invariant = { λ a. (a.start ≤ E.extent - 1) × (a.len ≤ E.extent) × (a.end ≡ slot E.extent a.start a.len) };
}

impl<const N: usize> RingBufferOver<Fixed<N>> {
    /// Returns a ring with no place filled.
    pub fn new() -> Self
        ensures { result ≡ record { front = 0; count = 0 } }
    {
        RingBufferOver::over(Fixed {})
    }
}

impl<E: Extent> RingBufferOver<E> {
    /// Returns a ring of this many places, none of which is filled.
    pub fn over(places: E) -> Self
        ensures { result ≡ record { front = 0; count = 0 } }
    {
        RingBufferOver {
            end: 0,
            start: 0,
            len: 0,
            places,
        }
    }

    // How many places the ring has.
    fn places(&self) -> usize
        ensures { result ≡ E.extent }
    {
        self.places.get()
    }

    // The place behind the newest byte, where the next byte goes.
    fn end(&self) -> usize
        ensures value { result ≡ slot E.extent self.now.front self.now.count }
        ensures within { result ≤ E.extent - 1 }
    {
        self.end
    }

    // The place of the oldest byte, or of the next byte if there is none.
    fn first(&self) -> usize
        ensures value { result ≡ self.now.front }
        ensures within { result ≤ E.extent - 1 }
    {
        self.start
    }

    // How many free places stand one behind the other, from the next byte's place on.
    fn free_run(&self) -> usize
        ensures value { result ≡ free_run E.extent self.now }
        ensures fits { slot E.extent self.now.front self.now.count + free_run E.extent self.now < 2 ^ 64 }
    {
        let before_end = self.places() - self.start;
        if self.len < before_end {
            before_end - self.len
        } else {
            self.places() - self.len
        }
    }

    // How many filled places stand one behind the other, from the oldest byte's place on.
    fn filled_run(&self) -> usize
        ensures value { result ≡ filled_run E.extent self.now }
        ensures fits { self.now.front + result < 2 ^ 64 }
    {
        let before_end = self.places() - self.start;
        if self.len < before_end {
            self.len
        } else {
            before_end
        }
    }

    /// Returns the range of the free places behind the filled ones, up to the wrap: where the next bytes go.
    pub fn push_buf(&self) -> Range<usize>
        ensures start { result.start ≡ begins (slot E.extent self.now.front self.now.count) (free_run E.extent self.now) }
        ensures end { result.end ≡ result.start + free_run E.extent self.now }
        ensures within { result.end ≤ E.extent }
    {
        run(self.end, self.free_run())
    }

    /// Returns the ranges of all free places: the range of `push_buf`, and the free places behind the wrap.
    pub fn push_bufs(&self) -> (Range<usize>, Range<usize>)
        ensures start { result.0.start ≡ begins (slot E.extent self.now.front self.now.count) (free_run E.extent self.now) }
        ensures end { result.0.end ≡ result.0.start + free_run E.extent self.now }
        ensures within { result.0.end ≤ E.extent }
        ensures wrapped { result.1.start ≡ 0 }
        ensures rest { result.1.end ≡ E.extent - self.now.count - free_run E.extent self.now }
    {
        let first = self.free_run();
        let rest = self.places() - self.len - first;
        (run(self.end, first), 0..rest)
    }

    /// Fills the next `n` free places, in order. At least `n` have to be free.
    pub fn push(&mut self, n: usize)
        requires { self.old.count + n ≤ E.extent }
        ensures { self.new ≡ record self.old { count = self.old.count + n } }
    {
        self.end = behind(self.places(), self.end, n);
        self.len += n;
    }

    /// Returns the range of the filled places from the oldest byte on, up to the wrap.
    pub fn pop_buf(&self) -> Range<usize>
        ensures start { result.start ≡ begins self.now.front (filled_run E.extent self.now) }
        ensures end { result.end ≡ result.start + filled_run E.extent self.now }
        ensures within { result.end ≤ E.extent }
    {
        run(self.start, self.filled_run())
    }

    /// Returns the ranges of all filled places: the range of `pop_buf`, and the filled places behind the wrap.
    pub fn pop_bufs(&self) -> (Range<usize>, Range<usize>)
        ensures start { result.0.start ≡ begins self.now.front (filled_run E.extent self.now) }
        ensures end { result.0.end ≡ result.0.start + filled_run E.extent self.now }
        ensures within { result.0.end ≤ E.extent }
        ensures wrapped { result.1.start ≡ 0 }
        ensures rest { result.1.end ≡ self.now.count - filled_run E.extent self.now }
    {
        let first = self.filled_run();
        (run(self.start, first), 0..self.len - first)
    }

    /// Frees the first `n` filled places. At least `n` have to be filled.
    pub fn pop(&mut self, n: usize)
        requires { n ≤ self.old.count }
        ensures { self.new ≡ record { front = slot E.extent self.old.front n; count = self.old.count - n } }
    {
        self.start = behind(self.places(), self.start, n);
        self.len -= n;
    }

    /// Returns whether all places are filled.
    pub fn is_full(&self) -> bool
        ensures { IsTrue result ↔ (self.now.count ≡ E.extent) }
    {
        self.len == self.places()
    }

    /// Returns whether no place is filled.
    pub fn is_empty(&self) -> bool
        ensures { IsTrue result ↔ (self.now.count ≡ 0) }
    {
        self.len == 0
    }

    /// Returns how many places are filled.
    pub fn len(&self) -> usize
        ensures value { result ≡ self.now.count }
        ensures within { result ≤ E.extent }
    {
        self.len
    }

    /// Frees all places, and begins again at the first place.
    pub fn clear(&mut self)
        ensures { self.new ≡ record { front = 0; count = 0 } }
    {
        self.end = 0;
        self.start = 0;
        self.len = 0;
    }
}

// The place `count` places behind this one, in a ring of `n` places.
fn behind(n: usize, place: usize, count: usize) -> usize
    requires place { place ≤ n - 1 }
    requires count { count ≤ n }
    ensures { result ≡ slot n place count }
{
    let before_end = n - place;
    if count < before_end {
        place + count
    } else {
        count - before_end
    }
}

// A range of `count` places. An empty one is 0..0.
fn run(start: usize, count: usize) -> Range<usize>
    requires { start + count < 2 ^ 64 }
    ensures start { result.start ≡ begins start count }
    ensures end { result.end ≡ begins start count + count }
{
    if count == 0 {
        0..0
    } else {
        start..start + count
    }
}

// N places for bytes.
#[derive(Debug, Drop)]
struct ByteRow<const N: usize> {
    bytes: [u8; N],
}

impl<const N: usize> Clone for ByteRow<N> {
    ghost use Rattle.std.specs.Prelude.{◌≡◌};

    ghost is_clone = { λ s r. r ≡ s };

    ghost is_infallible = { λ _. Unit {0} };

    fn clone(&self) -> Result<Self, AllocError> {
        Ok(*self)
    }
}

impl<const N: usize> Copy for ByteRow<N> {}

// Writes the bytes from place `at` on.
fn copy_in(places: &mut [u8], at: usize, from: &[u8])
    requires { at + length from.now ≤ length places.old }
    ensures { places.new ≡ written places.old at from.now }
{
    places[at..at + from.len()].copy_from_slice(from);
}

// Writes `run` of the bytes from place `start` on, and the rest from the first place on.
fn copy_in_runs(places: &mut [u8], start: usize, run: usize, from: &[u8])
    requires first { start + run ≤ length places.old }
    requires second { length from.now ≤ length places.old }
    ensures { places.new ≡ written (written places.old start (take run from.now)) 0 (drop run from.now) }
{
    if from.len() <= run {
        copy_in(places, start, from);
    } else {
        copy_in_two_runs(places, start, run, from);
    }
}

// Like `copy_in_runs`, for more bytes than the first run has. Out of line, so that a write that doesn't wrap is short.
#[inline(never)]
fn copy_in_two_runs(places: &mut [u8], start: usize, run: usize, from: &[u8])
    requires first { start + run ≤ length places.old }
    requires second { length from.now ≤ length places.old }
    requires wraps { run < length from.now }
    ensures { places.new ≡ written (written places.old start (take run from.now)) 0 (drop run from.now) }
{
    copy_in(places, start, &from[..run]);
    copy_in(places, 0, &from[run..]);
}

// Reads the bytes from place `at` on.
fn copy_out(places: &[u8], at: usize, to: &mut [u8])
    requires { at + length to.old ≤ length places.now }
    ensures { to.new ≡ take (length to.old) (drop at places.now) }
{
    to.copy_from_slice(&places[at..at + to.len()]);
}

// Reads `run` bytes from place `start` on, and the rest from the first place on.
fn copy_out_runs(places: &[u8], start: usize, run: usize, to: &mut [u8])
    requires first { start + run ≤ length places.now }
    requires second { length to.old ≤ length places.now }
    ensures { to.new ≡ take (length to.old) (take run (drop start places.now) ++ places.now) }
{
    if to.len() <= run {
        copy_out(places, start, to);
    } else {
        copy_out_two_runs(places, start, run, to);
    }
}

// Like `copy_out_runs`, for more bytes than the first run has. Out of line, so that a read that doesn't wrap is short.
#[inline(never)]
fn copy_out_two_runs(places: &[u8], start: usize, run: usize, to: &mut [u8])
    requires first { start + run ≤ length places.now }
    requires second { length to.old ≤ length places.now }
    requires wraps { run < length to.old }
    ensures { to.new ≡ take (length to.old) (take run (drop start places.now) ++ places.now) }
{
    copy_out(places, start, &mut to[..run]);
    copy_out(places, 0, &mut to[run..]);
}

/// At most `N` bytes, oldest first, in a ring of `N` places.
pub type ByteRing<const N: usize> = ByteRingOver<Fixed<N>, N>;

/// At most `B.limit` bytes, oldest first, in a ring of as many of `N` places.
pub type LimitedRing<B, const N: usize> = ByteRingOver<Chosen<B>, N>;

/// Bytes, oldest first, in a ring of places: the first of `N` places, as many as `E` says.
#[derive(Debug, Drop)]
pub struct ByteRingOver<E: Extent, const N: usize> {
    ring: RingBufferOver<E>,
    row: ByteRow<N>,
}

impl<E: Extent, const N: usize> Model for ByteRingOver<E, N> {
    ghost use Rattle.std.specs.Prelude.{ℕ, ◌≤◌, take};
    ghost use Rattle.std.specs.Coded.{coded_ℕ};
    ghost use Rattle.esync_base.specs.Ring.{Ringed, ringed_code};
    ghost use Rattle.esync_base.specs.RingBuffer.{IsLaid, laid};

    ghost Value = { Ringed ℕ };

    ghost coded = { ringed_code coded_ℕ };

    ghost view = { λ a. record { items = laid (take E.extent a.row.bytes) a.ring; front = a.ring.front } };

    ghost invariant = { λ a. (E.extent ≤ N) × IsLaid E.extent (take E.extent a.row.bytes) a.ring };
}

impl<const N: usize> ByteRingOver<Fixed<N>, N> {
    /// Returns an empty ring.
    pub fn new() -> Self
        ensures items { result.items ≡ [] }
        ensures front { result.front ≡ 0 }
    {
        ByteRingOver::over(Fixed {})
    }
}

impl<E: Extent, const N: usize> ByteRingOver<E, N> {
    /// Returns an empty ring of this many places, which are `N` at most.
    pub fn over(places: E) -> Self
        requires { E.extent ≤ N }
        ensures items { result.items ≡ [] }
        ensures front { result.front ≡ 0 }
    {
        ByteRingOver {
            row: ByteRow { bytes: [0; N] },
            ring: RingBufferOver::over(places),
        }
    }

    /// Returns how many bytes are in the ring.
    pub fn len(&self) -> usize
        ensures value { result ≡ length self.now.items }
        ensures within { result ≤ E.extent }
    {
        self.ring.len()
    }

    /// Returns whether the ring is empty.
    pub fn is_empty(&self) -> bool
        ensures { IsTrue result ↔ (self.now.items ≡ []) }
    {
        self.ring.is_empty()
    }

    /// Returns whether the ring is full.
    pub fn is_full(&self) -> bool
        ensures { IsTrue result ↔ (length self.now.items ≡ E.extent) }
    {
        self.ring.is_full()
    }

    /// Appends as many of the slice's bytes as there is room for, and returns how many. They are copied in at most two
    /// runs.
    pub fn write(&mut self, from: &[u8]) -> usize
        ensures count { result ≡ min (length from.now) (E.extent - length self.old.items) }
        ensures items { self.new.items ≡ self.old.items ++ take result from.now }
        ensures front { self.new.front ≡ self.old.front }
        ensures within { length self.new.items ≤ E.extent }
    {
        let held = self.ring.len();
        let places = self.ring.places();
        let free = places - held;
        let n = if from.len() < free { from.len() } else { free };
        let start = self.ring.end();
        self.ring.push(n);
        copy_in_runs(
            &mut self.row.bytes[..places],
            start,
            places - start,
            &from[..n],
        );
        n
    }

    /// Takes the oldest bytes out into the slice, as many as there are and as the slice has room for. Returns how many.
    /// They are copied in at most two runs.
    pub fn read(&mut self, to: &mut [u8]) -> usize
        ensures count { result ≡ min (length to.old) (length self.old.items) }
        ensures bytes { to.new ≡ take result self.old.items ++ drop result to.old }
        ensures items { self.new.items ≡ drop result self.old.items }
        ensures front { self.new.front ≡ slot E.extent self.old.front result }
    {
        let held = self.ring.len();
        let n = if to.len() < held { to.len() } else { held };
        let places = self.ring.places();
        let start = self.ring.first();
        self.ring.pop(n);
        copy_out_runs(
            &self.row.bytes[..places],
            start,
            places - start,
            &mut to[..n],
        );
        n
    }

    /// Returns the oldest bytes, up to the wrap of the ring. They stay in the ring. The slice is empty only if the ring
    /// is.
    pub fn filled(&self) -> &[u8]
        ensures value { result.now ≡ take (E.extent - self.now.front) self.now.items }
        ensures some { 0 < length self.now.items → 0 < length result.now }
    {
        let run = self.ring.pop_buf();
        let places = &self.row.bytes[..self.ring.places()];
        &places[run.start..run.end]
    }

    /// Drops the `n` oldest bytes. The ring has to hold at least `n`.
    pub fn consume(&mut self, n: usize)
        requires { n ≤ length self.old.items }
        ensures items { self.new.items ≡ drop n self.old.items }
        ensures front { self.new.front ≡ slot E.extent self.old.front n }
    {
        self.ring.pop(n);
    }

    /// Drops all bytes, and begins again at the first place.
    pub fn clear(&mut self)
        ensures items { self.new.items ≡ [] }
        ensures front { self.new.front ≡ 0 }
    {
        self.ring.clear();
    }
}

impl<E: Extent, const N: usize> ByteStore for ByteRingOver<E, N> {
    ghost capacity = { E.extent };

    ghost ring = { λ r. r };

    fn len(&self) -> usize {
        ByteRingOver::len(self)
    }

    fn capacity(&self) -> usize {
        self.ring.places()
    }

    fn write(&mut self, from: &[u8]) -> usize {
        ByteRingOver::write(self, from)
    }

    fn read(&mut self, to: &mut [u8]) -> usize {
        ByteRingOver::read(self, to)
    }

    fn filled(&self) -> &[u8] {
        ByteRingOver::filled(self)
    }

    fn consume(&mut self, n: usize) {
        ByteRingOver::consume(self, n)
    }

    fn clear(&mut self) {
        ByteRingOver::clear(self)
    }
}

impl<const N: usize> FixedBytes for ByteRingOver<Fixed<N>, N> {
    fn new() -> Self {
        ByteRingOver::over(Fixed {})
    }

    fn places() -> usize {
        N
    }
}

impl<E: Extent, const N: usize> Kept for ByteRingOver<E, N> {
    fn kept(&self) -> Result<Self, AllocError> {
        Ok(ByteRingOver {
            row: self.row,
            ring: RingBufferOver {
                end: self.ring.end,
                start: self.ring.start,
                len: self.ring.len,
                places: self.ring.places,
            },
        })
    }
}
