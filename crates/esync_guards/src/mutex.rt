//! A value that one task at a time may use. A task that locks it gets a guard, whose end unlocks it.
ghost use Rattle.std.specs.Prelude.{◌≡◌, ◌<◌, ◌++◌, [], length, true, false};
ghost use Rattle.esync_base.specs.Registration.{registered_if, displaced_if};
ghost use Rattle.esync_guards.specs.Mutex.{tried, polled, waiter_where_held};

use esync_base::kept::Kept;
use esync_base::waitqueue::{Context, Poll, Registered, WakerRegistration, Wakes};
pub use projection::{Projection, Second, Then, put_part};
pub use shared::{Guard, LockFuture, MappedGuard, MappedMutexGuard, Mutex, MutexGuard};
use std::alloc::AllocError;
use std::marker::Model;
use thiserror::Error;

pub mod machine;
mod projection;
mod shared;

/// The error of a try: the mutex is locked.
#[derive(Clone, Copy, Debug, PartialEq, Eq, Error)]
#[error("the mutex is locked")]
pub struct TryLockError;

/// The state of a mutex: whether it is locked, and the waker of a task that waits for it.
#[derive(Debug, Drop)]
pub struct MutexState<W> {
    locked: bool,
    waker: WakerRegistration<W>,
}

impl<W> Model for MutexState<W> {
    ghost use Rattle.esync_guards.specs.Mutex.{Locking, locking_code};

    ghost Value = { Locking W };

    ghost coded = { locking_code W.code };

    ghost view = { λ a. record { held = a.locked; waiter = a.waker } };
}

impl<W: Copy> Kept for MutexState<W> {
    fn kept(&self) -> Result<Self, AllocError> {
        Ok(MutexState {
            locked: self.locked,
            waker: self.waker.kept()?,
        })
    }
}

impl<W: Copy + Eq> Default for MutexState<W> {
    fn default() -> Self
        ensures held { result.held ≡ false }
        ensures waiter { result.waiter ≡ [] }
    {
        MutexState::new()
    }
}

/// The waker of the task that waits for the lock.
impl<W: Copy + Eq> Registered for MutexState<W> {
    type Waker = W;

    ghost use Rattle.esync_base.specs.Standing.{at_one};

    ghost at = { λ m. at_one m.waiter };

    fn registered(&self, place: usize, i: usize) -> Option<W> {
        match place {
            0 => self.waker.get(i),
            _ => None,
        }
    }
}

impl<W: Copy + Eq> MutexState<W> {
    /// Returns the state of an unlocked mutex, without a waker.
    pub fn new() -> Self
        ensures held { result.held ≡ false }
        ensures waiter { result.waiter ≡ [] }
    {
        MutexState {
            locked: false,
            waker: WakerRegistration::new(),
        }
    }

    /// Locks the mutex if it is free.
    ///
    /// # Errors
    ///
    /// Returns `TryLockError` if the mutex is locked. Nothing is changed.
    pub fn try_lock(&mut self) -> Result<(), TryLockError>
        ensures answer { result ≡ tried self.old.held }
        ensures state { self.new ≡ record self.old { held = true } }
    {
        if self.locked {
            return Err(TryLockError);
        }
        self.locked = true;
        Ok(())
    }

    /// Locks the mutex if it is free. Otherwise registers the context's waker and returns Pending. A waker that it
    /// displaces is handed out.
    pub fn poll_lock<const K: usize>(
        &mut self,
        cx: &Context<W>,
        wakes: &mut Wakes<W, K>,
    ) -> Poll<()>
        requires { length wakes.old < K }
        ensures answer { result ≡ polled self.old.held }
        ensures state { self.new ≡ record { held = true; waiter = registered_if W.eq 1 self.old.waiter (waiter_where_held self.old.held cx.now) } }
        ensures wakes { wakes.new ≡ wakes.old ++ displaced_if W.eq 1 self.old.waiter (waiter_where_held self.old.held cx.now) }
    {
        match self.try_lock() {
            Ok(()) => Poll::Ready(()),
            Err(TryLockError) => {
                self.waker.register(cx.waker(), wakes);
                Poll::Pending
            }
        }
    }

    /// Unlocks the mutex and hands out the waker that is registered.
    pub fn unlock<const K: usize>(&mut self, wakes: &mut Wakes<W, K>)
        requires { length wakes.old < K }
        ensures state { self.new ≡ record { held = false; waiter = [] } }
        ensures wakes { wakes.new ≡ wakes.old ++ self.old.waiter }
    {
        self.locked = false;
        self.waker.wake(wakes);
    }

    /// Returns whether the mutex is locked.
    pub fn is_locked(&self) -> bool
        ensures { result ≡ self.now.held }
    {
        let MutexState { locked, waker: _ } = self;
        *locked
    }
}
