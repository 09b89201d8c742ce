//! A value for one task that waits for it: a new value overwrites one that was not taken.
ghost use Rattle.std.specs.Prelude.{◌≡◌, ℕ, ◌<◌, ◌++◌, [], None, Some, length, is_some};
ghost use Rattle.esync_base.specs.Registration.{registered_if, displaced_if};
ghost use Rattle.esync_cells.specs.Signal.{waited, waiter_where_empty};

use esync_base::kept::Kept;
use esync_base::waitqueue::{Context, Poll, Registered, WakerRegistration, Wakes};
pub use shared::{Signal, SignalWait};
use std::alloc::AllocError;
use std::marker::Model;

pub mod machine;
mod shared;

/// The state of a signal: the value, if there is one, and a slot for the waker of the task that waits for it.
#[derive(Debug, Drop)]
pub struct SignalState<T, W> {
    value: Option<T>,
    waiter: WakerRegistration<W>,
}

impl<T, W> Model for SignalState<T, W> {
    ghost use Rattle.esync_cells.specs.Signal.{Signaling, signaling_code};

    ghost Value = { Signaling T W };

    ghost coded = { signaling_code T.code W.code };

    ghost view = { λ a. record { value = a.value; waiter = a.waiter } };
}

impl<T: Copy, W: Copy> Kept for SignalState<T, W> {
    fn kept(&self) -> Result<Self, AllocError> {
        Ok(SignalState {
            value: self.value,
            waiter: self.waiter.kept()?,
        })
    }
}

impl<T: Drop, W: Copy + Eq> Default for SignalState<T, W> {
    fn default() -> Self
        ensures value { result.value ≡ None }
        ensures waiter { result.waiter ≡ [] }
    {
        SignalState::new()
    }
}

/// Place 0 is the slot of the task that waits for a value.
impl<T, W: Copy + Eq> Registered for SignalState<T, W> {
    type Waker = W;

    ghost use Rattle.esync_base.specs.Standing.{at_one};

    ghost at = { λ m. at_one m.waiter };

    fn registered(&self, place: usize, i: usize) -> Option<W> {
        match place {
            0 => self.waiter.get(i),
            _ => None,
        }
    }
}

impl<T: Drop, W: Copy + Eq> SignalState<T, W> {
    /// Returns a signal without a value and without a registered waker.
    pub fn new() -> Self
        ensures value { result.value ≡ None }
        ensures waiter { result.waiter ≡ [] }
    {
        SignalState {
            value: None,
            waiter: WakerRegistration::new(),
        }
    }

    /// Puts a value, whatever is there, and hands out the registered waker.
    pub fn signal<const K: usize>(&mut self, value: T, wakes: &mut Wakes<W, K>)
        requires { length wakes.old < K }
        ensures state { self.new ≡ record { value = Some value; waiter = [] } }
        ensures wakes { wakes.new ≡ wakes.old ++ self.old.waiter }
    {
        self.value = Some(value);
        self.waiter.wake(wakes);
    }

    /// Drops the value. The registered waker stays.
    pub fn reset(&mut self)
        ensures { self.new ≡ record self.old { value = None } }
    {
        self.value = None;
    }

    /// Takes the value and returns it. If there is none, registers the context's waker and returns Pending.
    pub fn poll_wait<const K: usize>(&mut self, cx: &Context<W>, wakes: &mut Wakes<W, K>) -> Poll<T>
        requires { length wakes.old < K }
        ensures answer { result ≡ waited self.old.value }
        ensures state { self.new ≡ record { value = None; waiter = registered_if W.eq 1 self.old.waiter (waiter_where_empty self.old.value cx.now) } }
        ensures wakes { wakes.new ≡ wakes.old ++ displaced_if W.eq 1 self.old.waiter (waiter_where_empty self.old.value cx.now) }
    {
        match self.value.take() {
            Some(value) => Poll::Ready(value),
            None => {
                self.waiter.register(cx.waker(), wakes);
                Poll::Pending
            }
        }
    }

    /// Takes the value and returns it, or `None` if there is none. The registered waker stays.
    pub fn try_take(&mut self) -> Option<T>
        ensures answer { result ≡ self.old.value }
        ensures state { self.new ≡ record self.old { value = None } }
    {
        self.value.take()
    }

    /// Returns whether there is a value.
    pub fn signaled(&self) -> bool
        ensures { result ≡ is_some self.now.value }
    {
        self.value.is_some()
    }
}
