//! A watch that tasks on several threads share by reference.
ghost use Rattle.std.specs.Prelude.{◌≡◌, ℕ, ◌<◌, ◌≤◌, nat_lt, true, false, IfErr, IfSome};
ghost use Rattle.std.specs.Fn.{FnReturnsAt};
ghost use Rattle.esync_cells.specs.Watch.{polled};
ghost use Rattle.esync_cells.specs.Watched.{Always, WhereNewer, WherePassing, WhereNewPassing, ReadsSome};

use super::{
    AnonRcv, Change, DynAnonReceiver, DynReceiver, DynSender, Exhausted, Rcv, Snd, WatchOver,
};
use esync_base::shared::Shared;
use esync_base::step;
use esync_base::waitqueue::{Context, FixedList, Hand, Poll, WakerList, Wakes};
use std::alloc::AllocError;
use std::sync::Wait;

/// The calls of a watch that its senders and receivers need, however many receivers it has room for.
///
/// A read is of the value and the version that the watch has when the lock is taken. A caller that keeps no version
/// lends one that it drops.
pub trait WatchBehavior {
    type Value: Clone;

    type Waker: Copy + Eq;

    /// The handle by which a thread may wait for the watch's lock.
    type Rt: Wait;

    ghost use Rattle.std.specs.Prelude.{ℕ};

    /// How many receivers can be counted.
    ghost places: { ℕ };

    /// Reads the value and returns a clone of it, or `None` if there is none. Marks the version as seen in both cases.
    fn try_get(&self, seen: &mut u64) -> Result<Option<Self::Value>, AllocError>
        ensures { ReadsSome Self.Value.is_clone Self.Value.is_infallible Always (λ v. true) seen.old result seen.new };

    /// Reads the value and returns a clone of it if it passes the test. Marks its version as seen. Returns `None` if
    /// there is no such value, and the seen version stays.
    fn try_get_and<F: Fn(&Self::Value) -> bool>(
        &self,
        test: &F,
        seen: &mut u64,
    ) -> Result<Option<Self::Value>, AllocError>
        requires { F.IsAlwaysCallable test.now }
        ensures { ReadsSome Self.Value.is_clone Self.Value.is_infallible (WherePassing (FnReturnsAt F.Fn test.now)) (λ v. false) seen.old result seen.new };

    /// Reads the value if its version is newer than the seen one, and returns a clone of it. Marks a newer version as
    /// seen, even if there is no value. Returns `None` if there is no newer value.
    fn try_changed(&self, seen: &mut u64) -> Result<Option<Self::Value>, AllocError>
        ensures { ReadsSome Self.Value.is_clone Self.Value.is_infallible (WhereNewer seen.old) (nat_lt seen.old) seen.old result seen.new };

    /// Reads the value if its version is newer than the seen one, and returns a clone of it if it passes the test.
    /// Marks its version as seen. Returns `None` if there is no such value, and the seen version stays.
    fn try_changed_and<F: Fn(&Self::Value) -> bool>(
        &self,
        test: &F,
        seen: &mut u64,
    ) -> Result<Option<Self::Value>, AllocError>
        requires { F.IsAlwaysCallable test.now }
        ensures { ReadsSome Self.Value.is_clone Self.Value.is_infallible (WhereNewPassing (FnReturnsAt F.Fn test.now) seen.old) (λ v. false) seen.old result seen.new };

    /// Polls for the value: returns a clone of it, and marks its version as seen. If there is none, registers the
    /// context's waker and returns Pending.
    fn poll_get(
        &self,
        seen: &mut u64,
        cx: &Context<Self::Waker>,
    ) -> Result<Poll<Self::Value>, AllocError>
        requires { 1 ≤ places }
        ensures { ReadsSome Self.Value.is_clone Self.Value.is_infallible Always (λ v. false) seen.old (polled result) seen.new };

    /// Polls for a value that passes the test: returns a clone of it, and marks its version as seen. If there is none,
    /// registers the context's waker and returns Pending.
    fn poll_get_and<F: Fn(&Self::Value) -> bool>(
        &self,
        test: &F,
        seen: &mut u64,
        cx: &Context<Self::Waker>,
    ) -> Result<Poll<Self::Value>, AllocError>
        requires place { 1 ≤ places }
        requires test { F.IsAlwaysCallable test.now }
        ensures { ReadsSome Self.Value.is_clone Self.Value.is_infallible (WherePassing (FnReturnsAt F.Fn test.now)) (λ v. false) seen.old (polled result) seen.new };

    /// Polls for a value whose version is newer than the seen one: returns a clone of it, and marks its version as
    /// seen. If there is none, registers the context's waker and returns Pending.
    fn poll_changed(
        &self,
        seen: &mut u64,
        cx: &Context<Self::Waker>,
    ) -> Result<Poll<Self::Value>, AllocError>
        requires { 1 ≤ places }
        ensures { ReadsSome Self.Value.is_clone Self.Value.is_infallible (WhereNewer seen.old) (λ v. false) seen.old (polled result) seen.new };

    /// Polls for a value that passes the test and whose version is newer than the seen one: returns a clone of it, and
    /// marks its version as seen. If there is none, registers the context's waker and returns Pending.
    fn poll_changed_and<F: Fn(&Self::Value) -> bool>(
        &self,
        test: &F,
        seen: &mut u64,
        cx: &Context<Self::Waker>,
    ) -> Result<Poll<Self::Value>, AllocError>
        requires place { 1 ≤ places }
        requires test { F.IsAlwaysCallable test.now }
        ensures { ReadsSome Self.Value.is_clone Self.Value.is_infallible (WhereNewPassing (FnReturnsAt F.Fn test.now) seen.old) (λ v. false) seen.old (polled result) seen.new };

    /// Returns whether there is a value now.
    fn contains_value(&self) -> bool;

    /// Puts a value under the next version, whatever is there, and wakes the tasks that wait for news.
    ///
    /// # Errors
    ///
    /// If versions have run out, nothing changes, and the value is in the error.
    fn send(&self, value: Self::Value) -> Result<(), Exhausted<Self::Value>>
        ensures { IfErr result (λ back. back.0 ≡ value) };

    /// Changes the value, puts it under the next version, and wakes the tasks that wait for news, whatever the change
    /// answers.
    ///
    /// # Errors
    ///
    /// If versions have run out, the change isn't called, and nothing changes.
    fn send_modify<C: Change<Self::Value>>(&self, change: &C) -> Result<(), Exhausted<()>>;

    /// Changes the value. If the change answers true, puts it under the next version, and wakes the tasks that wait for
    /// news.
    ///
    /// # Errors
    ///
    /// If versions have run out, the change isn't called, and nothing changes.
    fn send_if_modified<C: Change<Self::Value>>(&self, change: &C) -> Result<(), Exhausted<()>>;

    /// Drops the value. The version stays, and tasks that wait for news go on waiting.
    fn clear(&self);

    /// Counts one receiver less.
    fn drop_receiver(&self);
}

/// A watch with at most `N` counted receivers, where `N` is below 65536.
pub type Watch<T, W, H, const N: usize> = SharedWatch<T, Wakes<W, N>, H, N>;

/// The latest value, for several receivers, that tasks on several threads share by reference.
///
/// Each call takes the lock, makes the call of its name on the state, and releases the lock. Then it gives each waker
/// that the step handed out to the hand, in order. `K` is the room for the wakers of a step.
#[derive(Drop)]
pub struct SharedWatch<T, L: WakerList, H, const K: usize> {
    inner: Shared<WatchOver<T, L>, L::Waker, H>,
    ghost room: { L.room ≤ K },
    ghost small: { K < 65536 },
}

impl<T: Clone + Drop, L: FixedList, H: Hand<L::Waker>, const K: usize> SharedWatch<T, L, H, K> {
    /// Returns a watch without a value, at version 0.
    ///
    /// A call hands out at most `K` wakers. So the list of wakers has to fit in `K`, and `K` has to be below 65536. A
    /// caller that takes the `N` of a `Watch` as a number of its own compares it, as by `N < 65536`.
    pub fn new(hand: H) -> Self
        requires room { L.room ≤ K }
        requires small { K < 65536 }
    {
        SharedWatch {
            inner: Shared::new(WatchOver::new(), hand),
        }
    }

    /// Returns a watch with the value at version 0, which is news to no receiver. `K` has to be as for `new`.
    pub fn new_with(value: T, hand: H) -> Self
        requires room { L.room ≤ K }
        requires small { K < 65536 }
    {
        SharedWatch {
            inner: Shared::new(WatchOver::new_with(value), hand),
        }
    }
}

impl<T: Clone + Drop, L: WakerList, H: Hand<L::Waker>, const K: usize> SharedWatch<T, L, H, K> {
    /// Returns a sender.
    pub fn sender(&self) -> Snd<'_, Self> {
        Snd::new(self)
    }

    /// Returns a sender whose type doesn't say how many receivers the watch has room for.
    pub fn dyn_sender(&self) -> DynSender<'_, Self> {
        self.sender()
    }

    /// Returns a receiver that is counted and has seen version 0, or `None` if as many are counted as there is room
    /// for.
    pub fn receiver(&self) -> Option<Rcv<'_, Self>>
        ensures { IfSome result (λ receiver. receiver.seen ≡ 0) }
    {
        if self.inner.guard().add_receiver() {
            Some(Rcv::new(self))
        } else {
            None
        }
    }

    /// Returns what `receiver` returns, in a type that doesn't say how many receivers the watch has room for.
    pub fn dyn_receiver(&self) -> Option<DynReceiver<'_, Self>>
        ensures { IfSome result (λ receiver. receiver.seen ≡ 0) }
    {
        self.receiver()
    }

    /// Returns a receiver that never waits, and has seen version 0. It isn't counted.
    pub fn anon_receiver(&self) -> AnonRcv<'_, Self>
        ensures { result.seen ≡ 0 }
    {
        AnonRcv::new(self)
    }

    /// Returns what `anon_receiver` returns, in a type that doesn't say how many receivers the watch has room for.
    pub fn dyn_anon_receiver(&self) -> DynAnonReceiver<'_, Self>
        ensures { result.seen ≡ 0 }
    {
        self.anon_receiver()
    }

    /// Returns the version of the latest value: the first version, and one more for each value that was sent.
    pub fn get_msg_id(&self) -> u64 {
        self.inner.guard().get_msg_id()
    }

    /// Reads the value and returns a clone of it, or `None` if there is none.
    ///
    /// # Errors
    ///
    /// A clone has no memory.
    pub fn try_get(&self) -> Result<Option<T>, AllocError>
        ensures { (after : ℕ) × ReadsSome T.is_clone T.is_infallible Always (λ v. true) 0 result after }
    {
        self.sender().try_get()
    }

    /// Reads the value and returns a clone of it if it passes the test. Returns `None` if there is no such value.
    ///
    /// # Errors
    ///
    /// A clone has no memory.
    pub fn try_get_and<F: Fn(&T) -> bool + Drop>(&self, test: F) -> Result<Option<T>, AllocError>
        requires { F.IsAlwaysCallable test }
        ensures { (after : ℕ) × ReadsSome T.is_clone T.is_infallible (WherePassing (FnReturnsAt F.Fn test)) (λ v. false) 0 result after }
    {
        self.sender().try_get_and(test)
    }
}

impl<T: Clone + Drop, L: WakerList, H: Hand<L::Waker>, const K: usize> WatchBehavior
    for SharedWatch<T, L, H, K> {
    type Value = T;

    type Waker = L::Waker;

    type Rt = H::Rt;

    ghost places = { L.room };

    fn try_get(&self, seen: &mut u64) -> Result<Option<T>, AllocError> {
        self.inner.guard().read(true, true, seen)
    }

    fn try_get_and<F: Fn(&T) -> bool>(
        &self,
        test: &F,
        seen: &mut u64,
    ) -> Result<Option<T>, AllocError> {
        let state = self.inner.guard();
        state.read(state.passes(test), false, seen)
    }

    fn try_changed(&self, seen: &mut u64) -> Result<Option<T>, AllocError> {
        let state = self.inner.guard();
        let is_newer = state.is_newer(*seen);
        state.read(is_newer, is_newer, seen)
    }

    fn try_changed_and<F: Fn(&T) -> bool>(
        &self,
        test: &F,
        seen: &mut u64,
    ) -> Result<Option<T>, AllocError> {
        let state = self.inner.guard();
        state.read(state.passes_newer(test, *seen), false, seen)
    }

    fn poll_get(&self, seen: &mut u64, cx: &Context<L::Waker>) -> Result<Poll<T>, AllocError> {
        step!(
            self.inner,
            K,
            |state, wakes| state.poll(true, seen, cx, &mut wakes)
        )
    }

    fn poll_get_and<F: Fn(&T) -> bool>(
        &self,
        test: &F,
        seen: &mut u64,
        cx: &Context<L::Waker>,
    ) -> Result<Poll<T>, AllocError> {
        step!(self.inner, K, |state, wakes| {
            let shows = state.passes(test);
            state.poll(shows, seen, cx, &mut wakes)
        })
    }

    fn poll_changed(&self, seen: &mut u64, cx: &Context<L::Waker>) -> Result<Poll<T>, AllocError> {
        step!(self.inner, K, |state, wakes| {
            let is_newer = state.is_newer(*seen);
            state.poll(is_newer, seen, cx, &mut wakes)
        })
    }

    fn poll_changed_and<F: Fn(&T) -> bool>(
        &self,
        test: &F,
        seen: &mut u64,
        cx: &Context<L::Waker>,
    ) -> Result<Poll<T>, AllocError> {
        step!(self.inner, K, |state, wakes| {
            let shows = state.passes_newer(test, *seen);
            state.poll(shows, seen, cx, &mut wakes)
        })
    }

    fn contains_value(&self) -> bool {
        self.inner.guard().contains_value()
    }

    fn send(&self, value: T) -> Result<(), Exhausted<T>> {
        step!(self.inner, K, |state, wakes| state.send(value, &mut wakes))
    }

    fn send_modify<C: Change<T>>(&self, change: &C) -> Result<(), Exhausted<()>> {
        step!(
            self.inner,
            K,
            |state, wakes| state.send_modify(change, &mut wakes)
        )
    }

    fn send_if_modified<C: Change<T>>(&self, change: &C) -> Result<(), Exhausted<()>> {
        step!(
            self.inner,
            K,
            |state, wakes| state.send_if_modified(change, &mut wakes)
        )
    }

    fn clear(&self) {
        self.inner.guard().clear()
    }

    fn drop_receiver(&self) {
        self.inner.guard().drop_receiver_if_any()
    }
}
