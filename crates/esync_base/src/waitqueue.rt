//! Wakers, the places where they wait, and the lists in which a step hands them out.
ghost use Rattle.std.specs.Prelude.{◌≡◌, ℕ, ◌+◌, ◌<◌, ◌≤◌, ◌++◌, [], ◌∷◌, length, slice_get, slice_index_or, slice_set, Some, map, ◌↔◌, IsTrue};
ghost use Rattle.esync_base.specs.Rows.{items_of};
ghost use Rattle.esync_base.specs.Registration.{registered, displaced};

use crate::kept::Kept;
pub use atomic_waker::{AtomicWaker, AtomicWakerState, GenericAtomicWaker};
pub use multi_waker::{MultiWakerRegistration, WakerRegistrations};
use std::alloc::AllocError;
use std::fmt;
use std::iter::FusedIterator;
use std::marker::Model;
use std::sync::Wait;

mod atomic_waker;
mod multi_waker;

/// The answer of a poll.
#[derive(Clone, Copy, Debug, PartialEq, Eq)]
pub enum Poll<T> {
    Ready(T),
    Pending,
}

/// The context of a poll: the waker of the task that polls.
#[derive(Clone, Copy, Debug)]
pub struct Context<W> {
    waker: W,
}

impl<W> Model for Context<W> {
    ghost Value = { W };

    ghost view = { λ a. a.waker };

    ghost inverse = { λ w. record { waker = w } };
}

impl<W: Copy> Context<W> {
    /// Returns a context with the waker.
    pub fn from_waker(waker: W) -> Self
        ensures { result ≡ waker }
    {
        Context { waker }
    }

    /// Returns the waker of the task that polls.
    pub fn waker(&self) -> W
        ensures { result ≡ self.now }
    {
        self.waker
    }
}

/// The waker of a task that an executor knows by its number.
#[derive(Clone, Copy, Debug, PartialEq, Eq, PartialOrd, Ord, Hash)]
pub struct TaskId(pub u64);

// The number of one of K places. If K is 1 it is a constant: a list of one waker then needs no memory.
fn place<const K: usize>(i: usize) -> usize
    requires { i < K }
    ensures { result ≡ i }
{
    if K == 1 { 0 } else { i }
}

// K places for wakers.
struct Row<W, const K: usize> {
    places: [Option<W>; K],
}

impl<W: Copy, const K: usize> Clone for Row<W, K> {
    ghost use Rattle.std.specs.Prelude.{◌≡◌};

    ghost is_clone = { λ s r. r ≡ s };

    ghost is_infallible = { λ _. Unit {0} };

    fn clone(&self) -> Result<Self, AllocError> {
        Ok(*self)
    }
}

impl<W: Copy, const K: usize> Copy for Row<W, K> {}

impl<W: Copy, const K: usize> Row<W, K> {
    fn get(&self, i: usize) -> Option<W>
        requires { i < K }
        ensures { result ≡ slice_index_or self.now.places i result }
    {
        self.places[place::<K>(i)]
    }

    fn put(&mut self, i: usize, waker: W)
        requires { i < K }
        ensures { self.new.places ≡ slice_set self.old.places i (Some waker) }
    {
        self.places[place::<K>(i)] = Some(waker);
    }
}

/// The wakers that a step hands out, in order: at most `K`, in a row of their own.
///
/// A step appends to the list that it is given. So a step that is made of several can give the same list to each.
pub struct Wakes<W, const K: usize> {
    row: Row<W, K>,
    len: usize,
}

impl<W: Copy, const K: usize> Clone for Wakes<W, K> {
    ghost use Rattle.std.specs.Prelude.{◌≡◌};

    ghost is_clone = { λ s r. r ≡ s };

    ghost is_infallible = { λ _. Unit {0} };

    fn clone(&self) -> Result<Self, AllocError> {
        Ok(*self)
    }
}

impl<W: Copy, const K: usize> Copy for Wakes<W, K> {}

impl<W, const K: usize> Model for Wakes<W, K> {
    ghost use Rattle.std.specs.Prelude.{List, length, ◌≤◌};
    ghost use Rattle.esync_base.specs.Rows.{items_of, row_of, IsRow};

    ghost Value = { List W };

    ghost view = { λ a. items_of a.row.places };

    ghost invariant = { λ a. IsRow K a.row.places a.len };

    ghost inverse = { λ xs. record { row = record { places = row_of K xs }; len = length xs } };
}

/// Two lists are equal if they have the same number of wakers and the wakers at each place are equal.
impl<W: PartialEq, const K: usize> PartialEq for Wakes<W, K> {
    ghost use Rattle.std.specs.Cmp.Lexicographic.{pointwise, lists_per};

    ghost eq = { pointwise W.eq };

    ghost laws = { lists_per W.laws };

    fn eq(&self, other: &Self) -> bool {
        self.filled() == other.filled()
    }
}

impl<W: Eq, const K: usize> Eq for Wakes<W, K> {
    ghost use Rattle.std.specs.Cmp.Lexicographic.{lists_equiv};

    ghost laws = { lists_equiv W.Eq.laws };
}

/// Shows the wakers as a list, in order.
impl<W: fmt::Debug, const K: usize> fmt::Debug for Wakes<W, K> {
    fn fmt<F: fmt::Write>(&self, f: &mut fmt::Formatter<F>) -> fmt::Result {
        f.debug_list()
            .entries(self.filled().iter().flatten())
            .finish()
    }
}

/// An iterator over the wakers of a list, in order.
#[derive(Drop)]
pub struct Iter<'a, W> {
    rest: &'a [Option<W>],
}

impl<'a, W> Model for Iter<'a, W> {
    ghost use Rattle.std.specs.Prelude.{◌≡◌, List, Some, map};
    ghost use Rattle.esync_base.specs.Rows.{items_of};

    ghost Value = { List W };

    ghost view = { λ a. items_of a.rest.now };

    ghost invariant = { λ a. a.rest.now ≡ map Some (items_of a.rest.now) };
}

impl<'a, W: Copy> Iterator for Iter<'a, W> {
    ghost use Rattle.std.specs.Iterator.{YieldsFirst, item_count};

    type Item = W;

    ghost next_gives = { YieldsFirst (λ s. s) };

    ghost remaining = { item_count (λ s. s) };

    fn next(&mut self) -> Option<W> {
        let (first, rest) = self.rest.split_first()?;
        self.rest = rest;
        *first
    }
}

impl<'a, W: Copy> FusedIterator for Iter<'a, W> {}

impl<'a, W: Copy, const K: usize> IntoIterator for &'a Wakes<W, K> {
    type Item = W;

    type IntoIter = Iter<'a, W>;

    fn into_iter(self) -> Iter<'a, W> {
        self.iter()
    }
}

impl<W, const K: usize> Wakes<W, K> {
    // The places that have a waker.
    fn filled(&self) -> &[Option<W>]
        ensures { result.now ≡ map Some self.now }
    {
        let Wakes { row, len } = self;
        &row.places[..*len]
    }

    /// Returns an iterator over the wakers, in order.
    pub fn iter(&self) -> Iter<'_, W>
        ensures { result ≡ self.now }
    {
        Iter {
            rest: self.filled(),
        }
    }
}

impl<W: Copy, const K: usize> Wakes<W, K> {
    /// Returns an empty list.
    pub fn new() -> Self
        ensures { result ≡ [] }
    {
        Wakes {
            row: Row { places: [None; K] },
            len: 0,
        }
    }

    /// Empties the list, which then has room for `K` wakers again.
    pub fn clear(&mut self)
        ensures { self.new ≡ [] }
    {
        *self = Wakes::new();
    }

    /// Returns how many wakers are in the list.
    pub fn len(&self) -> usize
        ensures value { result ≡ length self.now }
        ensures within { result ≤ K }
    {
        self.len
    }

    /// Returns whether the list is empty.
    pub fn is_empty(&self) -> bool
        ensures { IsTrue result ↔ (self.now ≡ []) }
    {
        self.len == 0
    }

    /// Returns all `K` places: the wakers in order, and then `None`.
    pub fn as_slice(&self) -> &[Option<W>]
        ensures { items_of result.now ≡ self.now }
    {
        &self.row.places
    }

    /// Returns waker `i`, counted from 0, or `None` if there is no such waker.
    pub fn get(&self, i: usize) -> Option<W>
        ensures { result ≡ slice_get self.now i }
    {
        if i < self.len { self.row.get(i) } else { None }
    }

    /// Appends a waker. There has to be room for it.
    pub fn push(&mut self, waker: W)
        requires { length self.old < K }
        ensures { self.new ≡ self.old ++ waker ∷ [] }
    {
        let has_room = self.len < K;
        prove!(has_room);
        self.row.put(self.len, waker);
        self.len += 1;
    }
}

/// A list of wakers with fixed room, in which several tasks can be registered.
pub trait WakerList: Copy {
    type Waker: Copy + Eq;

    ghost use Rattle.std.specs.Prelude.{ℕ, List};

    /// How many wakers the list has room for.
    ghost room: { ℕ };

    /// The wakers in the list, in order.
    ghost wakers: { Self → List Self.Waker };

    /// Returns how many wakers the list has room for.
    fn room(&self) -> usize
        ensures { result ≡ room };

    /// Returns how many wakers are in the list.
    fn len(&self) -> usize
        ensures value { result ≡ length (wakers self.now) }
        ensures within { result ≤ room };

    /// Returns waker `i`, counted from 0, or `None` if there is no such waker.
    fn get(&self, i: usize) -> Option<Self::Waker>
        ensures { result ≡ slice_get (wakers self.now) i };

    /// Appends a waker. There has to be room for it.
    fn push(&mut self, waker: Self::Waker)
        requires { length (wakers self.old) < room }
        ensures { wakers self.new ≡ wakers self.old ++ waker ∷ [] };

    /// Empties the list.
    fn clear(&mut self)
        ensures { wakers self.new ≡ [] };
}

/// A list of wakers whose room stands in its type.
pub trait FixedList: WakerList {
    /// Returns an empty list.
    fn new() -> Self
        ensures { Self.wakers result ≡ [] };
}

impl<W: Copy + Eq, const N: usize> WakerList for Wakes<W, N> {
    type Waker = W;

    ghost room = { N };

    ghost wakers = { λ list. list };

    fn room(&self) -> usize {
        N
    }

    fn len(&self) -> usize {
        Wakes::len(self)
    }

    fn get(&self, i: usize) -> Option<W> {
        Wakes::get(self, i)
    }

    fn push(&mut self, waker: W) {
        Wakes::push(self, waker)
    }

    fn clear(&mut self) {
        Wakes::clear(self)
    }
}

impl<W: Copy + Eq, const N: usize> FixedList for Wakes<W, N> {
    fn new() -> Self {
        Wakes::new()
    }
}

/// A slot for the waker of one task.
#[derive(Drop)]
pub struct WakerRegistration<W> {
    waker: Option<W>,
}

impl<W> Model for WakerRegistration<W> {
    ghost use Rattle.std.specs.Prelude.{List};
    ghost use Rattle.esync_base.specs.Registration.{slot_wakers};

    ghost Value = { List W };

    ghost view = { λ a. slot_wakers a.waker };
}

impl<W> Default for WakerRegistration<W> {
    fn default() -> Self
        ensures { result ≡ [] }
    {
        WakerRegistration { waker: None }
    }
}

impl<W: Copy> Kept for WakerRegistration<W> {
    fn kept(&self) -> Result<Self, AllocError> {
        Ok(WakerRegistration { waker: self.waker })
    }
}

impl<W: fmt::Debug> fmt::Debug for WakerRegistration<W> {
    fn fmt<F: fmt::Write>(&self, f: &mut fmt::Formatter<F>) -> fmt::Result {
        f.debug_struct("WakerRegistration")
            .field("waker", &self.waker)
            .finish()
    }
}

impl<W: Copy + Eq> WakerRegistration<W> {
    /// Returns an empty slot.
    pub fn new() -> Self
        ensures { result ≡ [] }
    {
        WakerRegistration { waker: None }
    }

    /// Registers a waker. If an equal waker is registered, nothing changes. If a different waker is registered, it is
    /// handed out and replaced: its task is woken, and can register again if it still waits.
    pub fn register<const K: usize>(&mut self, waker: W, wakes: &mut Wakes<W, K>)
        requires { length wakes.old < K }
        ensures registered { self.new ≡ registered W.eq 1 self.old waker }
        ensures displaced { wakes.new ≡ wakes.old ++ displaced W.eq 1 self.old waker }
    {
        if let Some(old) = self.waker {
            if old == waker {
                return;
            }
            wakes.push(old);
        }
        self.waker = Some(waker);
    }

    /// Hands out the registered waker, if there is one, and empties the slot.
    pub fn wake<const K: usize>(&mut self, wakes: &mut Wakes<W, K>)
        requires { length wakes.old < K }
        ensures emptied { self.new ≡ [] }
        ensures handed_out { wakes.new ≡ wakes.old ++ self.old }
        ensures one { length wakes.new ≤ length wakes.old + 1 }
    {
        if let Some(waker) = self.waker {
            wakes.push(waker);
            self.waker = None;
        }
    }

    /// Returns whether a waker is registered.
    pub fn occupied(&self) -> bool
        ensures { IsTrue result ↔ (length self.now ≡ 1) }
    {
        self.waker.is_some()
    }

    /// Returns the registered waker if `i` is 0, or `None` if the slot is empty. For any greater `i` returns `None`.
    pub fn get(&self, i: usize) -> Option<W>
        ensures { result ≡ slice_get self.now i }
    {
        if i == 0 { self.waker } else { None }
    }
}

/// A state that tells which wakers are registered in it, for diagnosis, as by `esync explain`.
///
/// Its places have numbers. Place 0 is for receivers, readers or subscribers, or for all tasks if there is one place.
/// Place 1 is for senders, writers or publishers.
pub trait Registered {
    type Waker;

    ghost use Rattle.std.specs.Prelude.{ℕ, List};

    /// The wakers that are registered at the place with this number.
    ghost at: { Self → ℕ → List Self.Waker };

    /// Returns waker `i`, counted from 0, of those registered at the place, or `None` if there is no such waker.
    fn registered(&self, place: usize, i: usize) -> Option<Self::Waker>
        ensures { result ≡ slice_get (at self.now place) i };
}

/// The hand that wakes tasks for a shared form, and lends it the handle `Rt` by which a thread may wait for a lock.
///
/// A shared call takes its lock, takes its step and releases the lock. Then it gives each waker that the step handed
/// out to `wake`, in order. A drop of a guard or a future does so too.
pub trait Hand<W> {
    type Rt: Wait;

    ghost use Rattle.esync_base.specs.Room.{WakesFitInMemory};

    /// Returns the handle by which a thread may wait for a lock.
    fn rt(&self) -> &Self::Rt
        ensures { WakesFitInMemory W.row };

    /// Wakes the task of the waker.
    fn wake(&self, waker: W);
}
