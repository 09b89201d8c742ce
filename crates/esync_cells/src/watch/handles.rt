//! Senders and receivers of a shared watch, and their futures.
ghost use Rattle.std.specs.Prelude.{◌≡◌, ℕ, ◌≤◌, nat_lt, true, false, IfErr};
ghost use Rattle.std.specs.Fn.{FnReturnsAt};
ghost use Rattle.esync_cells.specs.Watch.{polled};
ghost use Rattle.esync_cells.specs.Watched.{Always, WhereNewer, WherePassing, WhereNewPassing, ReadsSome};

use super::{Change, Exhausted, Watch, WatchBehavior};
use esync_base::waitqueue::{Context, Poll};
use std::alloc::AllocError;
use std::marker::Model;

/// A sender of a watch with at most `N` receivers.
pub type Sender<'a, T, W, H, const N: usize> = Snd<'a, Watch<T, W, H, N>>;

/// A sender whose type doesn't say how many receivers the watch has room for.
pub type DynSender<'a, B> = Snd<'a, B>;

/// A sender of a watch.
#[derive(Drop)]
pub struct Snd<'a, B> {
    watch: &'a B,
}

impl<'a, B> Clone for Snd<'a, B> {
    ghost use Rattle.std.specs.Prelude.{◌≡◌};

    ghost is_clone = { λ s r. r ≡ s };

    ghost is_infallible = { λ _. Unit {0} };

    fn clone(&self) -> Result<Self, AllocError> {
        Ok(*self)
    }
}

impl<'a, B> Copy for Snd<'a, B> {}

impl<'a, B: WatchBehavior> Snd<'a, B> {
    pub(crate) fn new(watch: &'a B) -> Self {
        Snd { watch }
    }

    /// Returns this sender, in a type that doesn't say how many receivers the watch has room for.
    pub fn as_dyn(self) -> DynSender<'a, B> {
        self
    }

    /// Puts a value under the next version, whatever is there, and wakes the tasks that wait for news.
    ///
    /// # Errors
    ///
    /// If versions have run out, nothing changes, and the value is in the error.
    pub fn send(&self, value: B::Value) -> Result<(), Exhausted<B::Value>>
        ensures { IfErr result (λ back. back.0 ≡ value) }
    {
        self.watch.send(value)
    }

    /// Changes the value, puts it under the next version, and wakes the tasks that wait for news, whatever the change
    /// answers.
    ///
    /// # Errors
    ///
    /// If versions have run out, the change isn't called, and nothing changes.
    pub fn send_modify<C: Change<B::Value>>(&self, change: &C) -> Result<(), Exhausted<()>> {
        self.watch.send_modify(change)
    }

    /// Changes the value. If the change answers true, puts it under the next version, and wakes the tasks that wait for
    /// news.
    ///
    /// # Errors
    ///
    /// If versions have run out, the change isn't called, and nothing changes.
    pub fn send_if_modified<C: Change<B::Value>>(&self, change: &C) -> Result<(), Exhausted<()>> {
        self.watch.send_if_modified(change)
    }

    /// Drops the value. The version stays, and tasks that wait for news go on waiting.
    pub fn clear(&self) {
        self.watch.clear()
    }

    /// Reads the value and returns a clone of it, or `None` if there is none.
    ///
    /// # Errors
    ///
    /// A clone has no memory.
    pub fn try_get(&self) -> Result<Option<B::Value>, AllocError>
        ensures { (after : ℕ) × ReadsSome B.Value.is_clone B.Value.is_infallible Always (λ v. true) 0 result after }
    {
        let mut seen = 0;
        self.watch.try_get(&mut seen)
    }

    /// Reads the value and returns a clone of it if it passes the test. Returns `None` if there is no such value.
    ///
    /// # Errors
    ///
    /// A clone has no memory.
    pub fn try_get_and<F: Fn(&B::Value) -> bool + Drop>(
        &self,
        test: F,
    ) -> Result<Option<B::Value>, AllocError>
        requires { F.IsAlwaysCallable test }
        ensures { (after : ℕ) × ReadsSome B.Value.is_clone B.Value.is_infallible (WherePassing (FnReturnsAt F.Fn test)) (λ v. false) 0 result after }
    {
        let mut seen = 0;
        self.watch.try_get_and(&test, &mut seen)
    }

    /// Returns whether there is a value now.
    pub fn contains_value(&self) -> bool {
        self.watch.contains_value()
    }
}

/// A receiver of a watch with at most `N` receivers.
pub type Receiver<'a, T, W, H, const N: usize> = Rcv<'a, Watch<T, W, H, N>>;

/// A receiver whose type doesn't say how many receivers the watch has room for.
pub type DynReceiver<'a, B> = Rcv<'a, B>;

/// A receiver of a watch, which knows the version that it has seen. It is counted until it is dropped.
pub struct Rcv<'a, B: WatchBehavior> {
    watch: &'a B,
    seen: u64,
}

impl<'a, B: WatchBehavior> Model for Rcv<'a, B> {
    ghost use Rattle.std.specs.Prelude.{◌≤◌};
    ghost use Rattle.esync_cells.specs.Watched.{Reader};

    ghost Value = { Reader };

    ghost view = { λ a. record { seen = a.seen } };

    ghost invariant = { λ a. 1 ≤ B.places };
}

impl<'a, B: WatchBehavior> Drop for Rcv<'a, B> {
    fn drop(self) {
        let Rcv { watch, seen: _ } = self;
        watch.drop_receiver();
    }
}

impl<'a, B: WatchBehavior> Rcv<'a, B> {
    // A receiver that this watch has counted, and that has seen version 0.
    pub(crate) fn new(watch: &'a B) -> Self
        requires { 1 ≤ B.places }
        ensures { result.seen ≡ 0 }
    {
        Rcv { watch, seen: 0 }
    }

    /// Returns this receiver with the version that it has seen, in a type that doesn't say how many receivers the watch
    /// has room for.
    pub fn as_dyn(self) -> DynReceiver<'a, B>
        ensures { result.seen ≡ self.entry.seen }
    {
        self
    }

    /// Returns a future that gives a clone of the value when there is one.
    pub fn get<'s>(&'s mut self) -> Get<'s, 'a, B>
        ensures { result.seen ≡ self.old.seen }
    {
        self.waits_for(Anything {})
    }

    /// Returns a future that gives a clone of the value when there is one that passes the test.
    pub fn get_and<'s, F: Fn(&B::Value) -> bool>(&'s mut self, test: F) -> GetAnd<'s, 'a, B, F>
        ensures test { result.sought.test ≡ test }
        ensures seen { result.seen ≡ self.old.seen }
    {
        self.waits_for(Passing { test })
    }

    /// Returns a future that gives a clone of the value when its version is newer than the seen one.
    pub fn changed<'s>(&'s mut self) -> Changed<'s, 'a, B>
        ensures { result.seen ≡ self.old.seen }
    {
        self.waits_for(News {})
    }

    /// Returns a future that gives a clone of the value when it passes the test and its version is newer than the seen
    /// one.
    pub fn changed_and<'s, F: Fn(&B::Value) -> bool>(
        &'s mut self,
        test: F,
    ) -> ChangedAnd<'s, 'a, B, F>
        ensures test { result.sought.test ≡ test }
        ensures seen { result.seen ≡ self.old.seen }
    {
        self.waits_for(PassingNews { test })
    }

    // A future that waits for what is sought.
    fn waits_for<'s, S>(&'s mut self, sought: S) -> Waiting<'s, 'a, B, S>
        ensures sought { result.sought ≡ sought }
        ensures seen { result.seen ≡ self.old.seen }
    {
        Waiting {
            receiver: self,
            sought,
        }
    }

    /// Reads the value and returns a clone of it, or `None` if there is none. Marks the version as seen in both cases.
    ///
    /// # Errors
    ///
    /// If a clone has no memory, the seen version stays.
    pub fn try_get(&mut self) -> Result<Option<B::Value>, AllocError>
        ensures { ReadsSome B.Value.is_clone B.Value.is_infallible Always (λ v. true) self.old.seen result self.new.seen }
    {
        self.watch.try_get(&mut self.seen)
    }

    /// Reads the value and returns a clone of it if it passes the test. Marks its version as seen. Returns `None` if
    /// there is no such value, and the seen version stays.
    ///
    /// # Errors
    ///
    /// If a clone has no memory, the seen version stays.
    pub fn try_get_and<F: Fn(&B::Value) -> bool + Drop>(
        &mut self,
        test: F,
    ) -> Result<Option<B::Value>, AllocError>
        requires { F.IsAlwaysCallable test }
        ensures { ReadsSome B.Value.is_clone B.Value.is_infallible (WherePassing (FnReturnsAt F.Fn test)) (λ v. false) self.old.seen result self.new.seen }
    {
        self.watch.try_get_and(&test, &mut self.seen)
    }

    /// Reads the value if its version is newer than the seen one, and returns a clone of it. Marks a newer version as
    /// seen, even if there is no value. Returns `None` if there is no newer value.
    ///
    /// # Errors
    ///
    /// If a clone has no memory, the seen version stays.
    pub fn try_changed(&mut self) -> Result<Option<B::Value>, AllocError>
        ensures { ReadsSome B.Value.is_clone B.Value.is_infallible (WhereNewer self.old.seen) (nat_lt self.old.seen) self.old.seen result self.new.seen }
    {
        self.watch.try_changed(&mut self.seen)
    }

    /// Reads the value if its version is newer than the seen one, and returns a clone of it if it passes the test.
    /// Marks its version as seen. Returns `None` if there is no such value, and the seen version stays.
    ///
    /// # Errors
    ///
    /// If a clone has no memory, the seen version stays.
    pub fn try_changed_and<F: Fn(&B::Value) -> bool + Drop>(
        &mut self,
        test: F,
    ) -> Result<Option<B::Value>, AllocError>
        requires { F.IsAlwaysCallable test }
        ensures { ReadsSome B.Value.is_clone B.Value.is_infallible (WhereNewPassing (FnReturnsAt F.Fn test) self.old.seen) (λ v. false) self.old.seen result self.new.seen }
    {
        self.watch.try_changed_and(&test, &mut self.seen)
    }

    /// Returns whether there is a value now.
    pub fn contains_value(&self) -> bool {
        self.watch.contains_value()
    }
}

/// A receiver that never waits, of a watch with at most `N` counted receivers.
pub type AnonReceiver<'a, T, W, H, const N: usize> = AnonRcv<'a, Watch<T, W, H, N>>;

/// A receiver that never waits, whose type doesn't say how many receivers the watch has room for.
pub type DynAnonReceiver<'a, B> = AnonRcv<'a, B>;

/// A receiver that never waits, and knows the version that it has seen. It isn't counted, so there may be any number of
/// them.
#[derive(Drop)]
pub struct AnonRcv<'a, B> {
    watch: &'a B,
    seen: u64,
}

impl<'a, B> Model for AnonRcv<'a, B> {
    ghost use Rattle.esync_cells.specs.Watched.{Reader};

    ghost Value = { Reader };

    ghost view = { λ a. record { seen = a.seen } };
}

impl<'a, B: WatchBehavior> AnonRcv<'a, B> {
    pub(crate) fn new(watch: &'a B) -> Self
        ensures { result.seen ≡ 0 }
    {
        AnonRcv { watch, seen: 0 }
    }

    /// Returns this receiver with the version that it has seen, in a type that doesn't say how many receivers the watch
    /// has room for.
    pub fn as_dyn(self) -> DynAnonReceiver<'a, B>
        ensures { result.seen ≡ self.entry.seen }
    {
        self
    }

    /// Reads the value and returns a clone of it, or `None` if there is none. Marks the version as seen in both cases.
    ///
    /// # Errors
    ///
    /// If a clone has no memory, the seen version stays.
    pub fn try_get(&mut self) -> Result<Option<B::Value>, AllocError>
        ensures { ReadsSome B.Value.is_clone B.Value.is_infallible Always (λ v. true) self.old.seen result self.new.seen }
    {
        let AnonRcv { watch, seen } = self;
        watch.try_get(seen)
    }

    /// Reads the value and returns a clone of it if it passes the test. Marks its version as seen. Returns `None` if
    /// there is no such value, and the seen version stays.
    ///
    /// # Errors
    ///
    /// If a clone has no memory, the seen version stays.
    pub fn try_get_and<F: Fn(&B::Value) -> bool + Drop>(
        &mut self,
        test: F,
    ) -> Result<Option<B::Value>, AllocError>
        requires { F.IsAlwaysCallable test }
        ensures { ReadsSome B.Value.is_clone B.Value.is_infallible (WherePassing (FnReturnsAt F.Fn test)) (λ v. false) self.old.seen result self.new.seen }
    {
        let AnonRcv { watch, seen } = self;
        watch.try_get_and(&test, seen)
    }

    /// Reads the value if its version is newer than the seen one, and returns a clone of it. Marks a newer version as
    /// seen, even if there is no value. Returns `None` if there is no newer value.
    ///
    /// # Errors
    ///
    /// If a clone has no memory, the seen version stays.
    pub fn try_changed(&mut self) -> Result<Option<B::Value>, AllocError>
        ensures { ReadsSome B.Value.is_clone B.Value.is_infallible (WhereNewer self.old.seen) (nat_lt self.old.seen) self.old.seen result self.new.seen }
    {
        let AnonRcv { watch, seen } = self;
        watch.try_changed(seen)
    }

    /// Reads the value if its version is newer than the seen one, and returns a clone of it if it passes the test.
    /// Marks its version as seen. Returns `None` if there is no such value, and the seen version stays.
    ///
    /// # Errors
    ///
    /// If a clone has no memory, the seen version stays.
    pub fn try_changed_and<F: Fn(&B::Value) -> bool + Drop>(
        &mut self,
        test: F,
    ) -> Result<Option<B::Value>, AllocError>
        requires { F.IsAlwaysCallable test }
        ensures { ReadsSome B.Value.is_clone B.Value.is_infallible (WhereNewPassing (FnReturnsAt F.Fn test) self.old.seen) (λ v. false) self.old.seen result self.new.seen }
    {
        let AnonRcv { watch, seen } = self;
        watch.try_changed_and(&test, seen)
    }

    /// Returns whether there is a value now.
    pub fn contains_value(&self) -> bool {
        self.watch.contains_value()
    }
}

/// The answer of a poll of a watch.
type Polled<B> = Result<Poll<<B as WatchBehavior>::Value>, AllocError>;

/// What a receiver of a watch seeks.
pub trait Sought<B: WatchBehavior> {
    ghost use Rattle.std.specs.Prelude.{ℕ, Bool, Option, ⊤};

    /// What has to hold for a poll to be made. It holds always, unless a type says otherwise.
    ghost can_look: { Self → Type 0 } = { λ _. ⊤ };

    /// Whether a value of one version is shown to a receiver that has seen another version.
    ghost shows: { Self → ℕ → Option B.Value → ℕ → Bool → Type 0 };

    /// Polls for the value, if it is shown: returns a clone of it, and marks its version as seen. If it isn't shown,
    /// registers the context's waker and returns Pending.
    ///
    /// # Errors
    ///
    /// If a clone has no memory, the seen version stays, and no waker is registered.
    fn poll(&self, watch: &B, seen: &mut u64, cx: &Context<B::Waker>) -> Polled<B>
        requires place { 1 ≤ B.places }
        requires can { can_look self.now }
        ensures { ReadsSome B.Value.is_clone B.Value.is_infallible (shows self.now seen.old) (λ v. false) seen.old (polled result) seen.new };
}

/// What `get` seeks: the value.
#[derive(Drop)]
pub struct Anything {}

impl<B: WatchBehavior> Sought<B> for Anything {
    ghost use Rattle.esync_cells.specs.Watched.{Always};

    ghost shows = { λ s seen. Always };

    fn poll(&self, watch: &B, seen: &mut u64, cx: &Context<B::Waker>) -> Polled<B> {
        watch.poll_get(seen, cx)
    }
}

/// What `changed` seeks: the value, if its version is newer than the seen one.
#[derive(Drop)]
pub struct News {}

impl<B: WatchBehavior> Sought<B> for News {
    ghost use Rattle.esync_cells.specs.Watched.{WhereNewer};

    ghost shows = { λ s seen. WhereNewer seen };

    fn poll(&self, watch: &B, seen: &mut u64, cx: &Context<B::Waker>) -> Polled<B> {
        watch.poll_changed(seen, cx)
    }
}

/// What `get_and` seeks: the value, if it passes the test.
#[derive(Drop)]
pub struct Passing<F> {
    pub test: F,
}

impl<B: WatchBehavior, F: Fn(&B::Value) -> bool> Sought<B> for Passing<F> {
    ghost use Rattle.std.specs.Fn.{FnReturnsAt};
    ghost use Rattle.esync_cells.specs.Watched.{WherePassing};

    ghost can_look = { λ s. F.IsAlwaysCallable s.test };

    ghost shows = { λ s seen. WherePassing (FnReturnsAt F.Fn s.test) };

    fn poll(&self, watch: &B, seen: &mut u64, cx: &Context<B::Waker>) -> Polled<B> {
        watch.poll_get_and(&self.test, seen, cx)
    }
}

/// What `changed_and` seeks: the value, if it passes the test and its version is newer than the seen one.
#[derive(Drop)]
pub struct PassingNews<F> {
    pub test: F,
}

impl<B: WatchBehavior, F: Fn(&B::Value) -> bool> Sought<B> for PassingNews<F> {
    ghost use Rattle.std.specs.Fn.{FnReturnsAt};
    ghost use Rattle.esync_cells.specs.Watched.{WhereNewPassing};

    ghost can_look = { λ s. F.IsAlwaysCallable s.test };

    ghost shows = { λ s seen. WhereNewPassing (FnReturnsAt F.Fn s.test) seen };

    fn poll(&self, watch: &B, seen: &mut u64, cx: &Context<B::Waker>) -> Polled<B> {
        watch.poll_changed_and(&self.test, seen, cx)
    }
}

/// A future that gives the value. `get` returns it.
pub type Get<'s, 'a, B> = Waiting<'s, 'a, B, Anything>;

/// A future that gives news. `changed` returns it.
pub type Changed<'s, 'a, B> = Waiting<'s, 'a, B, News>;

/// A future that gives a value which passes a test. `get_and` returns it.
pub type GetAnd<'s, 'a, B, F> = Waiting<'s, 'a, B, Passing<F>>;

/// A future that gives news which pass a test. `changed_and` returns it.
pub type ChangedAnd<'s, 'a, B, F> = Waiting<'s, 'a, B, PassingNews<F>>;

/// A future that gives a receiver what it seeks. After it was ready, a poll seeks again.
#[must_use]
#[derive(Drop)]
pub struct Waiting<'s, 'a, B: WatchBehavior, S> {
    receiver: &'s mut Rcv<'a, B>,
    sought: S,
}

impl<'s, 'a, B: WatchBehavior, S> Model for Waiting<'s, 'a, B, S> {
    ghost use Rattle.esync_cells.specs.Watched.{Seeking, seeking_code};

    ghost Value = { Seeking S };

    ghost coded = { seeking_code S.code };

    ghost view = { λ a. record { sought = a.sought; seen = a.receiver.now.seen } };
}

impl<'s, 'a, B: WatchBehavior, S: Sought<B>> Waiting<'s, 'a, B, S> {
    /// Polls for what is sought: returns a clone of it, and marks its version as seen. If there is none, registers the
    /// context's waker and returns Pending.
    ///
    /// # Errors
    ///
    /// If a clone has no memory, the seen version stays, and no waker is registered.
    pub fn poll(&mut self, cx: &Context<B::Waker>) -> Polled<B>
        requires { S.can_look self.old.sought }
        ensures same { self.new.sought ≡ self.old.sought }
        ensures read { ReadsSome B.Value.is_clone B.Value.is_infallible (S.shows self.old.sought self.old.seen) (λ v. false) self.old.seen (polled result) self.new.seen }
    {
        let sought = &self.sought;
        let receiver = &mut *self.receiver;
        sought.poll(receiver.watch, &mut receiver.seen, cx)
    }
}
