//! A queue of fixed capacity that takes no memory. The item that leaves first is one that no other item is above.
ghost use Rattle.std.specs.Prelude.{◌≡◌, ◌≢◌, ◌+◌, ◌-◌, ◌*◌, ◌<◌, ◌≤◌, ◌↔◌, [], ◌∷◌, Bool, true, false, Some, None, length, get_or, slice_get, slice_set, IsPermutation, IsSome, IsTrue, OnOk, OnErr, OnSome, IfSome, IfErr, IfNone};
ghost use Rattle.std.proofs.Math.ListN.{replicate};
ghost use Rattle.esync_base.specs.Rows.{IsRow, items_of};
ghost use Rattle.esync_priority.specs.Heap.{above_in_place, child_at, IsChild, IsHeap, IsHeapBut, IsHeapRow, IsHole, NoneAbove, MovesPlace, CostsWithin};
ghost use Rattle.esync_priority.specs.Prio.{IsTop, bits};

mod counting;

pub use counting::Comparisons;
use esync_base::kept::Kept;
use esync_base::store::{FixedStore, Store};
use esync_rows::place::Place;
use esync_rows::row::Row;
use std::alloc::AllocError;
use std::cmp::Ordering;
use std::fmt;
use std::marker::{Model, PhantomData};

/// An order of items, which says which of two leaves first.
pub trait Kind<T> {
    ghost above: { T → T → Bool };

    /// Returns whether `a` is to leave before `b`. Counts one comparison.
    fn above(a: &T, b: &T, comparisons: &mut Comparisons) -> bool
        ensures value { result ≡ above a.now b.now }
        ensures once { comparisons.new ≡ comparisons.old + 1 };

    ghost irreflexive: { (a : T) → above a a ≡ false };

    ghost transitive: { (a b c : T) → above a b ≡ true → above b c ≡ true → above a c ≡ true };

    ghost ties: { (a b c : T) → above a b ≡ false → above b c ≡ false → above a c ≡ false };
}

/// The order in which the greatest item leaves first.
#[derive(Clone, Copy, Debug, PartialEq, Eq)]
pub struct Max {}

/// The order in which the least item leaves first.
#[derive(Clone, Copy, Debug, PartialEq, Eq)]
pub struct Min {}

impl<T: Ord> Kind<T> for Max {
    ghost use Rattle.esync_priority.specs.Prio.{greater};
    ghost use Rattle.esync_priority.specs.PrioLaws.{greater-irreflexive, greater-transitive, greater-ties};

    ghost above = { greater T.cmp };

    fn above(a: &T, b: &T, comparisons: &mut Comparisons) -> bool {
        comparisons.tick();
        a.cmp(b) == Ordering::Greater
    }

    ghost irreflexive = { greater-irreflexive T.cmp T.Ord.total };

    ghost transitive = { greater-transitive T.cmp T.Ord.total };

    ghost ties = { greater-ties T.cmp T.Ord.total };
}

impl<T: Ord> Kind<T> for Min {
    ghost use Rattle.esync_priority.specs.Prio.{less};
    ghost use Rattle.esync_priority.specs.PrioLaws.{less-irreflexive, less-transitive, less-ties};

    ghost above = { less T.cmp };

    fn above(a: &T, b: &T, comparisons: &mut Comparisons) -> bool {
        comparisons.tick();
        a.cmp(b) == Ordering::Less
    }

    ghost irreflexive = { less-irreflexive T.cmp T.Ord.total };

    ghost transitive = { less-transitive T.cmp T.Ord.total };

    ghost ties = { less-ties T.cmp T.Ord.total };
}

/// A queue of at most `N` items, in places of its own. It allocates nothing.
///
/// The items are a heap: the children of place p are the places 2p + 1 and 2p + 2, and none is above its parent. The
/// first item gives each place its bytes, which takes time in proportion to `N`. The bytes of an item that was taken
/// stay in its place until another item is written over them, as in upstream's containers.
pub struct PrioQueue<T, K: Kind<T>, const N: usize> {
    len: usize,
    row: Row<T, N>,
    kind: PhantomData<K>,
}

impl<T, K: Kind<T>, const N: usize> Model for PrioQueue<T, K, N> {
    ghost use Rattle.std.specs.Prelude.{List};
    ghost use Rattle.std.specs.Coded.{coded_list};
    ghost use Rattle.esync_base.specs.Rows.{items_of};
    ghost use Rattle.esync_priority.specs.Heap.{IsHeapRow};

    ghost Value = { List T };

    ghost coded = { coded_list T.code };

    ghost view = { λ a. items_of a.row };

    ghost invariant = { λ a. IsHeapRow K.above N a.row a.len };
}

/// Shows the items in the order of their places, as a list.
impl<T: fmt::Debug + Drop, K: Kind<T>, const N: usize> fmt::Debug for PrioQueue<T, K, N> {
    fn fmt<F: fmt::Write>(&self, f: &mut fmt::Formatter<F>) -> fmt::Result {
        let mut list = f.debug_list();
        for i in 0..self.len {
            list.entry(self.row.get(i));
        }
        list.finish()
    }
}

// Returns whether an item is above the item of a place.
fn is_above<T, K: Kind<T>>(
    item: &T,
    row: &[Place<T>],
    place: usize,
    comparisons: &mut Comparisons,
) -> bool
    requires inside { place < length row.now }
    requires held { IsSome (get_or row.now place None) }
    ensures value { result ≡ above_in_place K.above (Some item.now) (get_or row.now place None) }
    ensures counted { comparisons.new ≡ comparisons.old + 1 }
{
    K::above(item, row[place].get(), comparisons)
}

// Returns whether a free place has a second child that is above the first.
fn right_is_upper<T, K: Kind<T>>(
    row: &[Place<T>],
    place: usize,
    comparisons: &mut Comparisons,
) -> bool
    requires inside { 2 * place + 1 < length row.now }
    requires hole { IsHole row.now place }
    ensures child { IsChild row.now place (child_at place result) }
    ensures upper { NoneAbove (above_in_place K.above) None row.now place (get_or row.now (child_at place result) None) }
    ensures more { comparisons.old ≤ comparisons.new }
    ensures once { comparisons.new ≤ comparisons.old + 1 }
{
    let left = 2 * place + 1;
    let right = left + 1;
    right < row.len() && is_above::<T, K>(row[right].get(), row, left, comparisons)
}

// Moves the item of one place to a free place.
fn shift<T>(row: &mut [Place<T>], to: usize, from: usize)
    requires to { to < length row.old }
    requires from { from < length row.old }
    requires apart { to ≢ from }
    requires free { get_or row.old to None ≡ None }
    requires held { IsSome (get_or row.old from None) }
    ensures { row.new ≡ slice_set (slice_set row.old from None) to (get_or row.old from None) }
{
    let item = row[from].take();
    row[to].put(item);
}

// Brings the free first place down to a place without children, and returns that place.
fn sink<T, K: Kind<T>>(row: &mut [Place<T>], comparisons: &mut Comparisons) -> usize
    requires some { 0 < length row.old }
    requires hole { IsHole row.old 0 }
    requires heap { IsHeapBut (above_in_place K.above) None row.old 0 }
    ensures inside { result < length row.new }
    ensures bottom { length row.new ≤ 2 * result + 1 }
    ensures hole { IsHole row.new result }
    ensures heap { IsHeapBut (above_in_place K.above) None row.new result }
    ensures moved { MovesPlace row.old row.new 0 result }
    ensures cost { CostsWithin comparisons.old comparisons.new (result + 1) }
{
    let mut place = 0;
    while place < row.len() / 2 {
        let left = 2 * place + 1;
        // Each arm has its own shift, so that the compiler keeps the branch: without it a steady heap is slower.
        if right_is_upper::<T, K>(row, place, comparisons) {
            shift(row, place, left + 1);
            place = left + 1;
        } else {
            shift(row, place, left);
            place = left;
        }
    }
    place
}

// Brings a free place up until its parent isn't below the item, and returns the place.
fn climb<T, K: Kind<T>>(
    row: &mut [Place<T>],
    start: usize,
    item: &T,
    comparisons: &mut Comparisons,
) -> usize
    requires inside { start < length row.old }
    requires hole { IsHole row.old start }
    requires heap { IsHeapBut (above_in_place K.above) None row.old start }
    requires below { NoneAbove (above_in_place K.above) None row.old start (Some item.now) }
    ensures inside { result < length row.new }
    ensures hole { IsHole row.new result }
    ensures heap { IsHeap (above_in_place K.above) None (slice_set row.new result (Some item.now)) }
    ensures moved { MovesPlace row.old row.new start result }
    ensures cost { CostsWithin comparisons.old comparisons.new (start + 1) }
{
    let mut place = start;
    while place > 0 {
        let parent = (place - 1) / 2;
        if !is_above::<T, K>(item, row, parent, comparisons) {
            return place;
        }
        shift(row, place, parent);
        place = parent;
    }
    place
}

// Puts an item into the free place, or further up where it belongs.
fn rise<T, K: Kind<T>>(row: &mut [Place<T>], start: usize, item: T, comparisons: &mut Comparisons)
    requires inside { start < length row.old }
    requires hole { IsHole row.old start }
    requires heap { IsHeapBut (above_in_place K.above) None row.old start }
    requires below { NoneAbove (above_in_place K.above) None row.old start (Some item) }
    ensures heap { IsHeap (above_in_place K.above) None row.new }
    ensures permutation { IsPermutation (slice_set row.old start (Some item)) row.new }
    ensures cost { CostsWithin comparisons.old comparisons.new (start + 1) }
{
    let place = climb::<T, K>(row, start, &item, comparisons);
    row[place].put(item);
}

// Puts an item into a row whose first place is free, where it belongs.
fn settle<T, K: Kind<T>>(row: &mut [Place<T>], item: T, comparisons: &mut Comparisons)
    requires some { 0 < length row.old }
    requires hole { IsHole row.old 0 }
    requires heap { IsHeapBut (above_in_place K.above) None row.old 0 }
    ensures heap { IsHeap (above_in_place K.above) None row.new }
    ensures permutation { IsPermutation (slice_set row.old 0 (Some item)) row.new }
    ensures more { comparisons.old ≤ comparisons.new }
    ensures few { comparisons.new ≤ comparisons.old + 2 * (bits (length row.old) - 1) }
{
    let place = sink::<T, K>(row, comparisons);
    rise::<T, K>(row, place, item, comparisons);
}

// Puts an item into a heap of the first `last` places.
fn push_into<T, K: Kind<T>>(
    row: &mut [Place<T>],
    last: usize,
    item: T,
    comparisons: &mut Comparisons,
)
    requires inside { last < length row.old }
    requires heap { IsHeapRow K.above (length row.old) row.old last }
    ensures heap { IsHeapRow K.above (length row.old) row.new (last + 1) }
    ensures items { IsPermutation (item ∷ items_of row.old) (items_of row.new) }
    ensures cost { CostsWithin comparisons.old comparisons.new (last + 1) }
{
    rise::<T, K>(&mut row[..last + 1], last, item, comparisons);
}

// Takes the first item out of a heap of the first `last + 1` places.
fn pop_from<T, K: Kind<T>>(row: &mut [Place<T>], last: usize, comparisons: &mut Comparisons) -> T
    requires heap { IsHeapRow K.above (length row.old) row.old (last + 1) }
    ensures heap { IsHeapRow K.above (length row.old) row.new last }
    ensures items { IsPermutation (items_of row.old) (result ∷ items_of row.new) }
    ensures first { slice_get (items_of row.old) 0 ≡ Some result }
    ensures more { comparisons.old ≤ comparisons.new }
    ensures few { comparisons.new ≤ comparisons.old + 2 * (bits last - 1) }
{
    let item = row[last].take();
    if last == 0 {
        return item;
    }
    let row = &mut row[..last];
    let top = row[0].take();
    settle::<T, K>(row, item, comparisons);
    top
}

// Puts an item into a row that holds a heap of `last` items.
fn push_row<T, K: Kind<T>, const N: usize>(
    row: &mut Row<T, N>,
    last: usize,
    item: T,
    comparisons: &mut Comparisons,
)
    requires inside { last < N }
    requires heap { IsHeapRow K.above N row.old last }
    ensures heap { IsHeapRow K.above N row.new (last + 1) }
    ensures items { IsPermutation (item ∷ items_of row.old) (items_of row.new) }
    ensures cost { CostsWithin comparisons.old comparisons.new (last + 1) }
{
    match &mut row.cells {
        Some(cells) => push_into::<T, K>(&mut cells[..], last, item, comparisons),
        None => row.put(last, item),
    }
}

// Takes the first item out of a row that holds a heap of `last + 1` items.
fn pop_row<T, K: Kind<T>, const N: usize>(
    row: &mut Row<T, N>,
    last: usize,
    comparisons: &mut Comparisons,
) -> T
    requires heap { IsHeapRow K.above N row.old (last + 1) }
    ensures heap { IsHeapRow K.above N row.new last }
    ensures items { IsPermutation (items_of row.old) (result ∷ items_of row.new) }
    ensures first { slice_get (items_of row.old) 0 ≡ Some result }
    ensures more { comparisons.old ≤ comparisons.new }
    ensures few { comparisons.new ≤ comparisons.old + 2 * (bits last - 1) }
{
    let Some(cells) = &mut row.cells else {
        unreachable!()
    };
    pop_from::<T, K>(&mut cells[..], last, comparisons)
}

// Drops the items of the first `len` places, which are all that the row holds.
fn empty<T: Drop, const N: usize>(row: &mut Row<T, N>, len: usize)
    requires { IsRow N row.old len }
    ensures { row.new ≡ replicate N None }
{
    for i in 0..len {
        row.take(i);
    }
}

// Returns a row with the same items in the same places.
fn copied<T: Copy, const N: usize>(row: &Row<T, N>, len: usize) -> Row<T, N>
    requires { IsRow N row.now len }
    ensures { result ≡ row.now }
{
    let mut copy = Row::new();
    for i in 0..len {
        copy.put(i, *row.get(i));
    }
    copy
}

impl<T, K: Kind<T>, const N: usize> PrioQueue<T, K, N> {
    // Returns the places of a queue that holds no item.
    fn into_row(self) -> Row<T, N>
        requires { self ≡ [] }
        ensures { result ≡ replicate N None }
    {
        let Self {
            row,
            len: _,
            kind: _,
        } = self;
        row
    }
}

impl<T: Drop, K: Kind<T>, const N: usize> Drop for PrioQueue<T, K, N> {
    fn drop(self) {
        let mut queue = self;
        queue.clear();
        queue.into_row().free();
    }
}

impl<T: Drop, K: Kind<T>, const N: usize> PrioQueue<T, K, N> {
    /// Returns an empty queue. It takes no time for its places: they get their bytes with the first item.
    pub fn new() -> Self
        ensures { result ≡ [] }
    {
        PrioQueue {
            row: Row::new(),
            len: 0,
            kind: PhantomData,
        }
    }

    /// Puts an item in. If the queue is full, returns the item as the error, and nothing was compared.
    ///
    /// If the queue holds n items afterwards, fewer comparisons are made than n has binary digits. The first item of a
    /// queue gives each place its bytes, which takes time in proportion to `N`.
    pub fn push(&mut self, item: T, comparisons: &mut Comparisons) -> Result<(), T>
        ensures room { OnOk result (length self.old < N) }
        ensures ok { OnOk result (IsPermutation (item ∷ self.old) self.new) }
        ensures more { comparisons.old ≤ comparisons.new }
        ensures few { OnOk result (comparisons.new ≤ comparisons.old + (bits (length self.new) - 1)) }
        ensures full { OnErr result (length self.old ≡ N) }
        ensures err { OnErr result (self.new ≡ self.old) }
        ensures never { OnErr result (comparisons.new ≡ comparisons.old) }
        ensures returned { IfErr result (λ back. back ≡ item) }
    {
        let last = self.len;
        if last == N {
            return Err(item);
        }
        push_row::<T, K, N>(&mut self.row, last, item, comparisons);
        self.len = last + 1;
        Ok(())
    }

    /// Takes the item that `peek` returns, above which there is no other item. Returns `None` if the queue is empty.
    ///
    /// If n items are left, at most two comparisons are made for each binary digit of n but the first. If none is left,
    /// none is made. The bytes of the item stay in a place of the queue until another item is written over them.
    pub fn pop(&mut self, comparisons: &mut Comparisons) -> Option<T>
        ensures item { IfSome result (λ item. IsPermutation self.old (item ∷ self.new)) }
        ensures first { IfSome result (λ item. slice_get self.old 0 ≡ Some item) }
        ensures top { IfSome result (λ item. IsTop K.above item self.old) }
        ensures more { comparisons.old ≤ comparisons.new }
        ensures few { OnSome result (comparisons.new ≤ comparisons.old + 2 * (bits (length self.new) - 1)) }
        ensures last { OnSome result (length self.new ≡ 0 → comparisons.new ≡ comparisons.old) }
        ensures empty { IfNone result (self.old ≡ []) }
        ensures none { IfNone result (self.new ≡ []) }
        ensures never { IfNone result (comparisons.new ≡ comparisons.old) }
    {
        if self.len == 0 {
            return None;
        }
        let last = self.len - 1;
        let item = pop_row::<T, K, N>(&mut self.row, last, comparisons);
        self.len = last;
        Some(item)
    }

    /// Returns an item that no other item is above, or `None` if the queue is empty. The item stays in the queue.
    pub fn peek(&self) -> Option<&T>
        ensures first { IfSome result (λ item. slice_get self.now 0 ≡ Some item.now) }
        ensures top { IfSome result (λ item. IsTop K.above item.now self.now) }
        ensures empty { IfNone result (self.now ≡ []) }
    {
        if self.len == 0 {
            None
        } else {
            Some(self.row.get(0))
        }
    }

    /// Returns the item at place `i` of the heap. The item at place 0 is the one that `peek` returns.
    pub fn get(&self, i: usize) -> &T
        requires { i < length self.now }
        ensures { Some result.now ≡ slice_get self.now i }
    {
        self.row.get(i)
    }

    /// Drops all items. Their bytes stay in the places until other items are written over them.
    pub fn clear(&mut self)
        ensures { self.new ≡ [] }
    {
        empty(&mut self.row, self.len);
        self.len = 0;
    }

    /// Returns how many items are in the queue.
    pub fn len(&self) -> usize
        ensures value { result ≡ length self.now }
        ensures within { result ≤ N }
    {
        self.len
    }

    /// Returns whether the queue is empty.
    pub fn is_empty(&self) -> bool
        ensures { IsTrue result ↔ (self.now ≡ []) }
    {
        self.len == 0
    }

    /// Returns whether the queue is full.
    pub fn is_full(&self) -> bool
        ensures { IsTrue result ↔ (length self.now ≡ N) }
    {
        self.len == N
    }
}

impl<T: Copy, K: Kind<T>, const N: usize> Kept for PrioQueue<T, K, N> {
    fn kept(&self) -> Result<Self, AllocError> {
        Ok(PrioQueue {
            row: copied(&self.row, self.len),
            len: self.len,
            kind: PhantomData,
        })
    }
}

impl<T: Drop, K: Kind<T>, const N: usize> Store for PrioQueue<T, K, N> {
    type Message = T;

    ghost use Rattle.esync_priority.specs.Prio.{Bag};

    ghost keeping = { Bag T K.above N };

    ghost held = { λ s. s };

    fn len(&self) -> usize {
        PrioQueue::len(self)
    }

    fn capacity(&self) -> usize {
        N
    }

    fn put(&mut self, message: T) -> Result<(), T> {
        self.push(message, &mut Comparisons::new())
    }

    fn take(&mut self) -> Option<T> {
        self.pop(&mut Comparisons::new())
    }

    fn clear(&mut self) {
        PrioQueue::clear(self)
    }
}

impl<T: Drop, K: Kind<T>, const N: usize> FixedStore for PrioQueue<T, K, N> {
    fn new() -> Self {
        PrioQueue::new()
    }

    fn places() -> usize {
        N
    }
}
