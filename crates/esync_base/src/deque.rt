//! A queue of fixed capacity that takes no memory.
ghost use Rattle.std.specs.Prelude.{◌≡◌, ℕ, suc, ◌-◌, ◌<◌, ◌≤◌, ◌++◌, [], ◌∷◌, length, get_or, slice_get, slice_set, option_copied, Some, None, ◌↔◌, IsTrue, OnOk, OnErr, OnSome, IfSome, IfErr, IfNone};
ghost use Rattle.std.specs.List.{remove};
ghost use Rattle.std.proofs.Math.ListN.{replicate};
ghost use Rattle.esync_base.specs.Ring.{next, slot};
ghost use Rattle.esync_base.specs.Places.{closed, HoldsBehind};

use crate::kept::Kept;
use crate::store::{FixedStore, Store};
use esync_rows::row::Row;
use std::alloc::AllocError;
use std::fmt;
use std::marker::Model;

// The place behind place i.
#[tactic(auto, using(std::proofs::lemmas::Bool::Decides::nat_tests))]
fn behind<const N: usize>(i: usize) -> usize
    requires { i ≤ N - 1 }
    ensures { result ≡ next N i }
{
    if i + 1 < N { i + 1 } else { 0 }
}

// Moves each of `count` items behind an empty place one place towards it, and returns the place that is empty then.
fn close<T, const N: usize>(row: &mut Row<T, N>, gap: usize, count: usize) -> usize
    requires below { gap < N }
    requires fewer { count < N }
    requires places { length row.old ≡ N }
    requires empty { get_or row.old gap None ≡ None }
    requires held { HoldsBehind N row.old gap count }
    ensures places { row.new ≡ closed N row.old gap count }
    ensures gap { result ≡ slot N gap count }
{
    let mut gap = gap;
    for _moved in 0..count {
        let next = behind::<N>(gap);
        let item = row.take(next);
        row.put(gap, item);
        gap = next;
    }
    gap
}

/// At most `N` items, oldest first, in a ring of `N` places.
///
/// The first item gives each place its bytes, which takes time in proportion to `N`. The bytes of an item that was taken stay in
/// its place until another item is written over them, as in upstream's containers.
pub struct Deque<T, const N: usize> {
    // The row is last: what lies behind a large one is out of reach of a processor's short offsets.
    start: usize,
    end: usize,
    full: bool,
    row: Row<T, N>,
}

impl<T, const N: usize> Model for Deque<T, N> {
    ghost use Rattle.esync_base.specs.Ring.{Ringed, ringed_code};
    ghost use Rattle.esync_base.specs.Places.{items_from, IsRing};

    ghost Value = { Ringed T };

    ghost coded = { ringed_code T.code };

    ghost view = { λ a. record { items = items_from a.start a.row; front = a.start } };

    ghost invariant = { λ a. IsRing N a.row a.start a.end a.full };
}

/// Shows the items as a list, oldest first.
impl<T: Drop + fmt::Debug, const N: usize> fmt::Debug for Deque<T, N> {
    fn fmt<F: fmt::Write>(&self, f: &mut fmt::Formatter<F>) -> fmt::Result {
        let mut list = f.debug_list();
        for i in 0..self.len() {
            list.entry(self.get(i));
        }
        list.finish()
    }
}

impl<T, const N: usize> Deque<T, N> {
    // The places of a ring that holds no item.
    fn into_row(self) -> Row<T, N>
        requires { self.items ≡ [] }
        ensures { result ≡ replicate N None }
    {
        let Self {
            row,
            start: _,
            end: _,
            full: _,
        } = self;
        row
    }

    // An empty ring whose next item goes to this place.
    fn new_at(start: usize) -> Self
        requires { start ≤ N - 1 }
        ensures items { result.items ≡ [] }
        ensures front { result.front ≡ start }
    {
        Deque {
            row: Row::new(),
            start,
            end: start,
            full: false,
        }
    }

    // Appends an item. There has to be room for it.
    fn append(&mut self, item: T)
        requires { length self.old.items < N }
        ensures items { self.new.items ≡ self.old.items ++ item ∷ [] }
        ensures front { self.new.front ≡ self.old.front }
    {
        // The place is read once: a write to the row might have changed it, for what the compiler knows.
        let end = self.end;
        let next = behind::<N>(end);
        self.row.put(end, item);
        self.end = next;
        self.full = next == self.start;
    }
}

impl<T: Drop, const N: usize> Drop for Deque<T, N> {
    fn drop(self) {
        let mut ring = self;
        ring.clear();
        ring.into_row().free();
    }
}

impl<T: Drop, const N: usize> Deque<T, N> {
    /// Returns an empty ring. Its places take no time: they get their bytes with the first item.
    pub fn new() -> Self
        ensures items { result.items ≡ [] }
        ensures front { result.front ≡ 0 }
    {
        Deque::new_at(0)
    }

    /// Returns how many items are in the ring.
    pub fn len(&self) -> usize
        ensures value { result ≡ length self.now.items }
        ensures within { result ≤ N }
    {
        if self.full {
            N
        } else if self.end < self.start {
            self.end + (N - self.start)
        } else {
            self.end - self.start
        }
    }

    /// Returns whether the ring is empty.
    pub fn is_empty(&self) -> bool
        ensures { IsTrue result ↔ (self.now.items ≡ []) }
    {
        self.start == self.end && !self.full
    }

    /// Returns whether the ring is full.
    pub fn is_full(&self) -> bool
        ensures answer { IsTrue result ↔ (length self.now.items ≡ N) }
        ensures within { length self.now.items ≤ N }
    {
        self.full || N == 0
    }

    /// Appends an item. If the ring is full, returns the item as the error, and the items stay as they are.
    pub fn push_back(&mut self, item: T) -> Result<(), T>
        ensures room { OnOk result (length self.old.items < N) }
        ensures ok { OnOk result (self.new.items ≡ self.old.items ++ item ∷ []) }
        ensures front { self.new.front ≡ self.old.front }
        ensures full { OnErr result (length self.old.items ≡ N) }
        ensures err { OnErr result (self.new.items ≡ self.old.items) }
        ensures returned { IfErr result (λ back. back ≡ item) }
    {
        if self.is_full() {
            return Err(item);
        }
        self.append(item);
        Ok(())
    }

    /// Takes the oldest item. Returns `None` if the ring is empty.
    pub fn pop_front(&mut self) -> Option<T>
        ensures item { IfSome result (λ item. self.old.items ≡ item ∷ self.new.items) }
        ensures front { OnSome result (self.new.front ≡ next N self.old.front) }
        ensures places { OnSome result ((i : ℕ) → slot N self.new.front i ≡ slot N self.old.front (suc i)) }
        ensures empty { IfNone result (self.old.items ≡ []) }
        ensures none { IfNone result (self.new ≡ self.old) }
    {
        if self.is_empty() {
            return None;
        }
        let start = self.start;
        let item = self.row.take(start);
        self.start = behind::<N>(start);
        self.full = false;
        Some(item)
    }

    /// Returns the oldest item, or `None` if the ring is empty.
    pub fn front(&self) -> Option<&T>
        ensures { option_copied result ≡ slice_get self.now.items 0 }
    {
        if self.is_empty() {
            None
        } else {
            Some(self.get(0))
        }
    }

    /// Returns item `i`, counted from the front.
    pub fn get(&self, i: usize) -> &T
        requires { i < length self.now.items }
        ensures { Some result.now ≡ slice_get self.now.items i }
    {
        self.row.get(self.slot_of(i))
    }

    /// Puts an item in the place of item `i`, counted from the front, and returns the item that was there.
    pub fn replace(&mut self, i: usize, item: T) -> T
        requires { i < length self.old.items }
        ensures items { self.new.items ≡ slice_set self.old.items i item }
        ensures front { self.new.front ≡ self.old.front }
        ensures replaced { Some result ≡ slice_get self.old.items i }
    {
        let place = self.slot_of(i);
        let replaced = self.row.take(place);
        self.row.put(place, item);
        replaced
    }

    /// Takes item `i` out, counted from the front, and returns it. The items behind it move one place towards the
    /// front.
    pub fn remove(&mut self, i: usize) -> T
        requires { i < length self.old.items }
        ensures items { self.new.items ≡ remove self.old.items i }
        ensures front { self.new.front ≡ self.old.front }
        ensures removed { Some result ≡ slice_get self.old.items i }
    {
        let gap = self.slot_of(i);
        let count = self.len() - 1 - i;
        let removed = self.row.take(gap);
        self.end = close(&mut self.row, gap, count);
        self.full = false;
        removed
    }

    /// Returns the place of item `i`, counted from the front.
    pub fn slot_of(&self, i: usize) -> usize
        requires { i < length self.now.items }
        ensures place { result ≡ slot N self.now.front i }
        ensures below { result < N }
    {
        let before_end = N - self.start;
        if i < before_end {
            self.start + i
        } else {
            i - before_end
        }
    }

    /// Returns the place where the next item goes. In a full ring it is the place of the oldest item.
    pub fn slot_of_next(&self) -> usize
        ensures place { result ≡ slot N self.now.front (length self.now.items) }
        ensures within { result ≤ N - 1 }
    {
        self.end
    }

    /// Drops all items.
    pub fn clear(&mut self)
        ensures items { self.new.items ≡ [] }
        ensures front { self.new.front ≡ 0 }
    {
        for _item in 0..self.len() {
            self.pop_front();
        }
        self.start = 0;
        self.end = 0;
    }
}

impl<T: Drop, const N: usize> Store for Deque<T, N> {
    type Message = T;

    ghost use Rattle.esync_base.specs.Keeping.{BoundedList};

    ghost keeping = { BoundedList T N };

    ghost held = { λ s. s.items };

    fn len(&self) -> usize {
        Deque::len(self)
    }

    fn capacity(&self) -> usize {
        N
    }

    fn put(&mut self, message: T) -> Result<(), T> {
        Deque::push_back(self, message)
    }

    fn take(&mut self) -> Option<T> {
        Deque::pop_front(self)
    }

    fn clear(&mut self) {
        Deque::clear(self)
    }
}

impl<T: Drop, const N: usize> FixedStore for Deque<T, N> {
    fn new() -> Self {
        Deque::new()
    }

    fn places() -> usize {
        N
    }
}

impl<T: Copy, const N: usize> Deque<T, N> {
    // A ring of the same items, in the same places.
    fn copied(&self) -> Self
        ensures { result ≡ self.now }
    {
        let mut copy = Deque::new_at(self.start);
        for i in 0..self.len() {
            copy.append(*self.get(i));
        }
        copy
    }
}

impl<T: Copy, const N: usize> Kept for Deque<T, N> {
    fn kept(&self) -> Result<Self, AllocError> {
        Ok(self.copied())
    }
}
