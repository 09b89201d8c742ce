//! The latest value, for several receivers. A new value overwrites the one before, and each receiver knows which
//! version it has seen.
//!
//! Each call appends the wakers that it hands out to the list of wakes that it is given, and the caller wakes their
//! tasks. A registration in a full list hands out the wakers that it displaces.
ghost use Rattle.std.specs.Prelude.{◌≡◌, ℕ, Bool, Option, ◌+◌, ◌-◌, ◌<◌, ◌≤◌, ◌++◌, ◌&&◌, [], None, Some, true, false, length, is_some, nat_lt, OnOk, OnErr, IfErr};
ghost use Rattle.std.specs.Fn.{FnReturnsAt};
ghost use Rattle.esync_base.specs.Registration.{registered_if, displaced_if};
ghost use Rattle.esync_cells.specs.Watch.{fresh, judged, found, Answers, seen_after, polled, waiter_where_pending, last_version, sent, woken_by, sent_if, woken_if};
ghost use Rattle.esync_machine.specs.Names.{counted};
ghost use Rattle.esync_cells.specs.Watched.{Tells, TellsIf};

use esync_base::kept::Kept;
use esync_base::waitqueue::{
    Context, FixedList, Poll, Registered, WakerList, WakerRegistrations, Wakes,
};
pub use handles::{
    AnonRcv, AnonReceiver, Anything, Changed, ChangedAnd, DynAnonReceiver, DynReceiver, DynSender,
    Get, GetAnd, News, Passing, PassingNews, Rcv, Receiver, Sender, Snd, Sought, Waiting,
};
pub use shared::{SharedWatch, Watch, WatchBehavior};
use std::alloc::AllocError;
use std::fmt::Debug;
use std::marker::Model;
use thiserror::Error;

mod handles;
pub mod machine;
mod shared;

/// Versions have run out: nothing was sent. What was to be sent is in the error; for a change that is `()`.
#[derive(Clone, Copy, Debug, PartialEq, Eq, Drop, Error)]
#[error_bound(T: Debug)]
#[error("the versions have run out")]
pub struct Exhausted<T>(pub T);

/// A change of a watch's value, with a stated meaning.
pub trait Change<T> {
    /// What the change makes of a value.
    ghost changed: { Self → Option T → Option T };

    /// Whether the change answers true of a value.
    ghost tells: { Self → Option T → Bool };

    /// Changes the value, and returns whether it is another value then.
    fn apply(&self, value: &mut Option<T>) -> bool
        ensures value { value.new ≡ changed self.now value.old }
        ensures answer { result ≡ tells self.now value.old };

    /// A law: if the change answers false, the value is as it was.
    ghost a_change_tells: { (c : Self) (v : Option T) → tells c v ≡ false → changed c v ≡ v };
}

/// A test of values, which judges by the value alone.
pub trait Judge<T> {
    /// Whether a value passes the test.
    ghost passes: { Self → T → Bool };

    /// Returns whether the value passes the test.
    fn holds(&self, value: &T) -> bool
        ensures { result ≡ passes self.now value.now };
}

/// The state of a watch with room for `N` counted receivers, and for the wakers of as many tasks.
pub type WatchState<T, W, const N: usize> = WatchOver<T, Wakes<W, N>>;

/// The state of a watch: the latest value, if there is one, its version, how many receivers are counted, and the wakers
/// of the tasks that wait for news. As many receivers can be counted as the list of wakers has room for.
///
/// The version that a receiver has seen stands with the receiver, and is lent to each read. A caller that keeps no
/// version lends one that it drops.
#[derive(Debug, Drop)]
pub struct WatchOver<T, L: WakerList> {
    value: Option<T>,
    version: u64,
    waiters: WakerRegistrations<L>,
    receivers: usize,
}

impl<T, L: WakerList> Model for WatchOver<T, L> {
    ghost use Rattle.std.specs.Prelude.{◌≤◌};
    ghost use Rattle.esync_cells.specs.Watch.{Watching, watching_code};

    ghost Value = { Watching T L.Waker };

    ghost coded = { watching_code T.code L.Waker.code };

    ghost view = { λ a. record { value = a.value; version = a.version; receivers = a.receivers; waiters = a.waiters } };

    ghost invariant = { λ a. a.receivers ≤ L.room };
}

impl<T: Copy, L: WakerList> Kept for WatchOver<T, L> {
    fn kept(&self) -> Result<Self, AllocError> {
        Ok(WatchOver {
            value: self.value,
            version: self.version,
            waiters: self.waiters.kept()?,
            receivers: self.receivers,
        })
    }
}

/// Place 0 is the list of the tasks that wait for a newer value.
impl<T, L: WakerList> Registered for WatchOver<T, L> {
    type Waker = L::Waker;

    ghost use Rattle.esync_base.specs.Standing.{at_one};

    ghost at = { λ m. at_one m.waiters };

    fn registered(&self, place: usize, i: usize) -> Option<L::Waker> {
        match place {
            0 => self.waiters.get(i),
            _ => None,
        }
    }
}

impl<T: Drop, L: FixedList> WatchOver<T, L> {
    /// Returns a watch without a value, at version 0.
    pub fn new() -> Self
        ensures { result ≡ fresh None 0 }
    {
        WatchOver::new_at(0)
    }

    /// Returns a watch with the value at version 0, which is news to no receiver.
    pub fn new_with(value: T) -> Self
        ensures { result ≡ fresh (Some value) 0 }
    {
        WatchOver::over(L::new(), Some(value), 0)
    }

    /// Returns a watch without a value, at the version.
    pub fn new_at(version: u64) -> Self
        ensures { result ≡ fresh None version }
    {
        WatchOver::over(L::new(), None, version)
    }
}

impl<T: Drop, L: WakerList> WatchOver<T, L> {
    /// Returns a watch with this list, in which no waker may be, and with the value at the version, if one is given.
    pub fn over(list: L, value: Option<T>, version: u64) -> Self
        requires { L.wakers list ≡ [] }
        ensures { result ≡ fresh value version }
    {
        WatchOver {
            value,
            version,
            waiters: WakerRegistrations::over(list),
            receivers: 0,
        }
    }

    /// Drops the value. The version and the registered wakers stay.
    pub fn clear(&mut self)
        ensures { self.new ≡ record self.old { value = None } }
    {
        self.value = None;
    }

    /// Puts a value under the next version, whatever is there, and hands out the registered wakers.
    ///
    /// # Errors
    ///
    /// If the version is `u64::MAX`, nothing changes, and the value is in the error.
    pub fn send<const K: usize>(
        &mut self,
        value: T,
        wakes: &mut Wakes<L::Waker, K>,
    ) -> Result<(), Exhausted<T>>
        requires { length wakes.old + L.room ≤ K }
        ensures room { OnOk result (self.old.version < last_version) }
        ensures exhausted { OnErr result (self.old.version ≡ last_version) }
        ensures returned { IfErr result (λ back. back.0 ≡ value) }
        ensures state { self.new ≡ sent self.old (Some value) result }
        ensures wakes { wakes.new ≡ wakes.old ++ woken_by result self.old.waiters }
        ensures at_most { length wakes.new ≤ length wakes.old + L.room }
    {
        if self.version == u64::MAX {
            return Err(Exhausted(value));
        }
        self.value = Some(value);
        self.tell(wakes);
        Ok(())
    }

    /// Changes the value, puts it under the next version, and hands out the registered wakers, whatever the change
    /// answers.
    ///
    /// # Errors
    ///
    /// If the version is `u64::MAX`, the change isn't called, and nothing changes.
    pub fn send_modify<C: Change<T>, const K: usize>(
        &mut self,
        change: &C,
        wakes: &mut Wakes<L::Waker, K>,
    ) -> Result<(), Exhausted<()>>
        requires { length wakes.old + L.room ≤ K }
        ensures room { OnOk result (self.old.version < last_version) }
        ensures exhausted { OnErr result (self.old.version ≡ last_version) }
        ensures state { self.new ≡ sent self.old (C.changed change.now self.old.value) result }
        ensures wakes { wakes.new ≡ wakes.old ++ woken_by result self.old.waiters }
        ensures at_most { length wakes.new ≤ length wakes.old + L.room }
    {
        if self.version == u64::MAX {
            return Err(Exhausted(()));
        }
        change.apply(&mut self.value);
        self.tell(wakes);
        Ok(())
    }

    /// Changes the value. If the change answers true, puts it under the next version, and hands out the registered
    /// wakers.
    ///
    /// # Errors
    ///
    /// If the version is `u64::MAX`, the change isn't called, and nothing changes.
    pub fn send_if_modified<C: Change<T>, const K: usize>(
        &mut self,
        change: &C,
        wakes: &mut Wakes<L::Waker, K>,
    ) -> Result<(), Exhausted<()>>
        requires { length wakes.old + L.room ≤ K }
        ensures room { OnOk result (self.old.version < last_version) }
        ensures exhausted { OnErr result (self.old.version ≡ last_version) }
        ensures state { self.new ≡ sent_if self.old (C.changed change.now self.old.value) (C.tells change.now self.old.value) result }
        ensures wakes { wakes.new ≡ wakes.old ++ woken_if (C.tells change.now self.old.value) result self.old.waiters }
        ensures at_most { length wakes.new ≤ length wakes.old + L.room }
    {
        if self.version == u64::MAX {
            return Err(Exhausted(()));
        }
        if change.apply(&mut self.value) {
            self.tell(wakes);
        }
        Ok(())
    }

    // Hands out the wakers of the tasks that wait for news, which stand under the next version.
    fn tell<const K: usize>(&mut self, wakes: &mut Wakes<L::Waker, K>)
        requires more { self.old.version < last_version }
        requires room { length wakes.old + L.room ≤ K }
        ensures state { self.new ≡ record self.old { version = self.old.version + 1; waiters = [] } }
        ensures wakes { wakes.new ≡ wakes.old ++ self.old.waiters }
        ensures at_most { length wakes.new ≤ length wakes.old + L.room }
    {
        self.version += 1;
        self.waiters.wake(wakes);
    }

    /// Returns whether there is a value.
    pub fn contains_value(&self) -> bool
        ensures { result ≡ is_some self.now.value }
    {
        self.value.is_some()
    }

    /// Returns the version of the latest value: the first version, and one more for each value that was sent.
    pub fn get_msg_id(&self) -> u64
        ensures { result ≡ self.now.version }
    {
        self.version
    }

    /// Returns how many receivers are counted.
    pub fn receivers(&self) -> usize
        ensures value { result ≡ self.now.receivers }
        ensures within { result ≤ L.room }
    {
        self.receivers
    }

    /// Counts one more receiver, which has seen version 0, and returns true. Returns false if as many are counted as
    /// there is room for.
    pub fn add_receiver(&mut self) -> bool
        ensures answer { result ≡ nat_lt self.old.receivers L.room }
        ensures state { self.new ≡ record self.old { receivers = counted result self.old.receivers } }
    {
        let has_room = self.receivers < self.waiters.room();
        if has_room {
            self.receivers += 1;
        }
        has_room
    }

    /// Counts one receiver less. At least one has to be counted, as `receivers` tells.
    pub fn drop_receiver(&mut self)
        requires { 1 ≤ self.old.receivers }
        ensures { self.new ≡ record self.old { receivers = self.old.receivers - 1 } }
    {
        self.receivers -= 1;
    }

    // Counts one receiver less, if one is counted.
    fn drop_receiver_if_any(&mut self)
        ensures { self.new ≡ record self.old { receivers = self.old.receivers - 1 } }
    {
        if self.receivers > 0 {
            self.drop_receiver();
        }
    }
}

impl<T: Clone, L: WakerList> WatchOver<T, L> {
    /// Reads the value and returns a clone of it, or `None` if there is none. Marks the version as seen in both cases.
    ///
    /// # Errors
    ///
    /// If a clone has no memory, the seen version stays.
    pub fn try_get(&self, seen: &mut u64) -> Result<Option<T>, AllocError>
        ensures answer { Answers T.is_clone T.is_infallible self.now.value result }
        ensures seen { seen.new ≡ seen_after true self.now.version seen.old result }
    {
        self.read(true, true, seen)
    }

    /// Reads the value and returns a clone of it if it passes the test. Marks its version as seen. Returns `None` if
    /// there is no such value, and the seen version stays.
    ///
    /// # Errors
    ///
    /// If a clone has no memory, the seen version stays.
    pub fn try_get_and<J: Judge<T>>(
        &self,
        judge: &J,
        seen: &mut u64,
    ) -> Result<Option<T>, AllocError>
        ensures answer { Answers T.is_clone T.is_infallible (found (judged (J.passes judge.now) self.now.value) self.now.value) result }
        ensures seen { seen.new ≡ seen_after false self.now.version seen.old result }
    {
        self.read(self.judged(judge), false, seen)
    }

    /// Reads the value if its version is newer than the seen one, and returns a clone of it. Marks a newer version as
    /// seen, even if there is no value. Returns `None` if there is no newer value.
    ///
    /// # Errors
    ///
    /// If a clone has no memory, the seen version stays.
    pub fn try_changed(&self, seen: &mut u64) -> Result<Option<T>, AllocError>
        ensures answer { Answers T.is_clone T.is_infallible (found (nat_lt seen.old self.now.version) self.now.value) result }
        ensures seen { seen.new ≡ seen_after (nat_lt seen.old self.now.version) self.now.version seen.old result }
    {
        let is_newer = self.is_newer(*seen);
        self.read(is_newer, is_newer, seen)
    }

    /// Reads the value if its version is newer than the seen one, and returns a clone of it if it passes the test.
    /// Marks its version as seen. Returns `None` if there is no such value, and the seen version stays.
    ///
    /// # Errors
    ///
    /// If a clone has no memory, the seen version stays.
    pub fn try_changed_and<J: Judge<T>>(
        &self,
        judge: &J,
        seen: &mut u64,
    ) -> Result<Option<T>, AllocError>
        ensures answer { Answers T.is_clone T.is_infallible (found (nat_lt seen.old self.now.version && judged (J.passes judge.now) self.now.value) self.now.value) result }
        ensures seen { seen.new ≡ seen_after false self.now.version seen.old result }
    {
        self.read(self.judged_newer(judge, *seen), false, seen)
    }

    /// Polls for the value: returns a clone of it, and marks its version as seen. If there is none, registers the
    /// context's waker and returns Pending.
    ///
    /// # Errors
    ///
    /// If a clone has no memory, the seen version stays, and no waker is registered.
    pub fn poll_get<const K: usize>(
        &mut self,
        seen: &mut u64,
        cx: &Context<L::Waker>,
        wakes: &mut Wakes<L::Waker, K>,
    ) -> Result<Poll<T>, AllocError>
        requires place { 1 ≤ L.room }
        requires room { length wakes.old + L.room ≤ K }
        ensures answer { Answers T.is_clone T.is_infallible self.old.value (polled result) }
        ensures seen { seen.new ≡ seen_after false self.old.version seen.old (polled result) }
        ensures state { self.new ≡ record self.old { waiters = registered_if L.Waker.eq L.room self.old.waiters (waiter_where_pending result cx.now) } }
        ensures wakes { wakes.new ≡ wakes.old ++ displaced_if L.Waker.eq L.room self.old.waiters (waiter_where_pending result cx.now) }
        ensures at_most { length wakes.new ≤ length wakes.old + L.room }
    {
        self.poll(true, seen, cx, wakes)
    }

    /// Polls for a value that passes the test: returns a clone of it, and marks its version as seen. If there is none,
    /// registers the context's waker and returns Pending.
    ///
    /// # Errors
    ///
    /// If a clone has no memory, the seen version stays, and no waker is registered.
    pub fn poll_get_and<J: Judge<T>, const K: usize>(
        &mut self,
        judge: &J,
        seen: &mut u64,
        cx: &Context<L::Waker>,
        wakes: &mut Wakes<L::Waker, K>,
    ) -> Result<Poll<T>, AllocError>
        requires place { 1 ≤ L.room }
        requires room { length wakes.old + L.room ≤ K }
        ensures answer { Answers T.is_clone T.is_infallible (found (judged (J.passes judge.now) self.old.value) self.old.value) (polled result) }
        ensures seen { seen.new ≡ seen_after false self.old.version seen.old (polled result) }
        ensures state { self.new ≡ record self.old { waiters = registered_if L.Waker.eq L.room self.old.waiters (waiter_where_pending result cx.now) } }
        ensures wakes { wakes.new ≡ wakes.old ++ displaced_if L.Waker.eq L.room self.old.waiters (waiter_where_pending result cx.now) }
        ensures at_most { length wakes.new ≤ length wakes.old + L.room }
    {
        self.poll(self.judged(judge), seen, cx, wakes)
    }

    /// Polls for a value whose version is newer than the seen one: returns a clone of it, and marks its version as
    /// seen. If there is none, registers the context's waker and returns Pending.
    ///
    /// # Errors
    ///
    /// If a clone has no memory, the seen version stays, and no waker is registered.
    pub fn poll_changed<const K: usize>(
        &mut self,
        seen: &mut u64,
        cx: &Context<L::Waker>,
        wakes: &mut Wakes<L::Waker, K>,
    ) -> Result<Poll<T>, AllocError>
        requires place { 1 ≤ L.room }
        requires room { length wakes.old + L.room ≤ K }
        ensures answer { Answers T.is_clone T.is_infallible (found (nat_lt seen.old self.old.version) self.old.value) (polled result) }
        ensures seen { seen.new ≡ seen_after false self.old.version seen.old (polled result) }
        ensures state { self.new ≡ record self.old { waiters = registered_if L.Waker.eq L.room self.old.waiters (waiter_where_pending result cx.now) } }
        ensures wakes { wakes.new ≡ wakes.old ++ displaced_if L.Waker.eq L.room self.old.waiters (waiter_where_pending result cx.now) }
        ensures at_most { length wakes.new ≤ length wakes.old + L.room }
    {
        self.poll(self.is_newer(*seen), seen, cx, wakes)
    }

    /// Polls for a value that passes the test and whose version is newer than the seen one: returns a clone of it, and
    /// marks its version as seen. If there is none, registers the context's waker and returns Pending.
    ///
    /// # Errors
    ///
    /// If a clone has no memory, the seen version stays, and no waker is registered.
    pub fn poll_changed_and<J: Judge<T>, const K: usize>(
        &mut self,
        judge: &J,
        seen: &mut u64,
        cx: &Context<L::Waker>,
        wakes: &mut Wakes<L::Waker, K>,
    ) -> Result<Poll<T>, AllocError>
        requires place { 1 ≤ L.room }
        requires room { length wakes.old + L.room ≤ K }
        ensures answer { Answers T.is_clone T.is_infallible (found (nat_lt seen.old self.old.version && judged (J.passes judge.now) self.old.value) self.old.value) (polled result) }
        ensures seen { seen.new ≡ seen_after false self.old.version seen.old (polled result) }
        ensures state { self.new ≡ record self.old { waiters = registered_if L.Waker.eq L.room self.old.waiters (waiter_where_pending result cx.now) } }
        ensures wakes { wakes.new ≡ wakes.old ++ displaced_if L.Waker.eq L.room self.old.waiters (waiter_where_pending result cx.now) }
        ensures at_most { length wakes.new ≤ length wakes.old + L.room }
    {
        self.poll(self.judged_newer(judge, *seen), seen, cx, wakes)
    }

    // A poll of the value, if it is to be shown.
    fn poll<const K: usize>(
        &mut self,
        shows: bool,
        seen: &mut u64,
        cx: &Context<L::Waker>,
        wakes: &mut Wakes<L::Waker, K>,
    ) -> Result<Poll<T>, AllocError>
        requires place { 1 ≤ L.room }
        requires room { length wakes.old + L.room ≤ K }
        ensures answer { Answers T.is_clone T.is_infallible (found shows self.old.value) (polled result) }
        ensures seen { seen.new ≡ seen_after false self.old.version seen.old (polled result) }
        ensures state { self.new ≡ record self.old { waiters = registered_if L.Waker.eq L.room self.old.waiters (waiter_where_pending result cx.now) } }
        ensures wakes { wakes.new ≡ wakes.old ++ displaced_if L.Waker.eq L.room self.old.waiters (waiter_where_pending result cx.now) }
        ensures at_most { length wakes.new ≤ length wakes.old + L.room }
    {
        match self.read(shows, false, seen)? {
            Some(value) => Ok(Poll::Ready(value)),
            None => {
                self.waiters.register(cx.waker(), wakes);
                Ok(Poll::Pending)
            }
        }
    }

    // A read of the value, if it is to be shown. It may mark the version as seen even if it finds nothing.
    fn read(&self, shows: bool, marks: bool, seen: &mut u64) -> Result<Option<T>, AllocError>
        ensures answer { Answers T.is_clone T.is_infallible (found shows self.now.value) result }
        ensures seen { seen.new ≡ seen_after marks self.now.version seen.old result }
    {
        match self.show(shows)? {
            Some(value) => {
                *seen = self.version;
                Ok(Some(value))
            }
            None if marks => {
                *seen = self.version;
                Ok(None)
            }
            None => Ok(None),
        }
    }

    // A clone of the value, if it is to be shown.
    fn show(&self, shows: bool) -> Result<Option<T>, AllocError>
        ensures { Answers T.is_clone T.is_infallible (found shows self.now.value) result }
    {
        match &self.value {
            Some(value) if shows => Ok(Some(value.clone()?)),
            _ => Ok(None),
        }
    }

    // Whether the version is newer than the seen one.
    fn is_newer(&self, seen: u64) -> bool
        ensures { result ≡ nat_lt seen self.now.version }
    {
        seen < self.version
    }

    // Whether there is a value that passes the test.
    fn judged<J: Judge<T>>(&self, judge: &J) -> bool
        ensures { result ≡ judged (J.passes judge.now) self.now.value }
    {
        match &self.value {
            Some(value) => judge.holds(value),
            None => false,
        }
    }

    // Whether there is a value that passes the test and whose version is newer than the seen one.
    fn judged_newer<J: Judge<T>>(&self, judge: &J, seen: u64) -> bool
        ensures { result ≡ (nat_lt seen self.now.version && judged (J.passes judge.now) self.now.value) }
    {
        self.is_newer(seen) && self.judged(judge)
    }

    // Whether there is a value that passes the closure.
    fn passes<F: Fn(&T) -> bool>(&self, test: &F) -> bool
        requires { F.IsAlwaysCallable test.now }
        ensures { Tells (FnReturnsAt F.Fn test.now) self.now.value result }
    {
        match &self.value {
            Some(value) => test(value),
            None => false,
        }
    }

    // Whether there is a value that passes the closure and whose version is newer than the seen one.
    fn passes_newer<F: Fn(&T) -> bool>(&self, test: &F, seen: u64) -> bool
        requires { F.IsAlwaysCallable test.now }
        ensures { TellsIf (nat_lt seen self.now.version) (FnReturnsAt F.Fn test.now) self.now.value result }
    {
        self.is_newer(seen) && self.passes(test)
    }
}
