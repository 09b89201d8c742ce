//! A signal that tasks on several threads share by reference, and its future.
use super::SignalState;
use esync_base::shared::Shared;
use esync_base::step;
use esync_base::waitqueue::{Context, Hand, Poll};

/// A signal that tasks on several threads share by reference. Each call makes the call of its name on the state.
#[derive(Drop)]
pub struct Signal<T, W, H> {
    inner: Shared<SignalState<T, W>, W, H>,
}

impl<T: Drop, W: Copy + Eq, H: Hand<W> + Default> Default for Signal<T, W, H> {
    fn default() -> Self {
        Signal::new(H::default())
    }
}

impl<T: Drop, W: Copy + Eq, H: Hand<W>> Signal<T, W, H> {
    /// Returns a signal without a value and without a registered waker.
    pub fn new(hand: H) -> Self {
        Signal {
            inner: Shared::new(SignalState::new(), hand),
        }
    }

    /// Puts a value, whatever is there, and wakes the registered task.
    pub fn signal(&self, value: T) {
        step!(self.inner, |state, wakes| state.signal(value, &mut wakes))
    }

    /// Drops the value. The registered waker stays.
    pub fn reset(&self) {
        self.inner.guard().reset()
    }

    /// Takes the value and returns it. If there is none, registers the context's waker and returns Pending.
    pub fn poll_wait(&self, cx: &Context<W>) -> Poll<T> {
        step!(self.inner, |state, wakes| state.poll_wait(cx, &mut wakes))
    }

    /// Returns a future that takes the value when there is one.
    pub fn wait(&self) -> SignalWait<'_, T, W, H> {
        SignalWait { signal: self }
    }

    /// Takes the value and returns it, or `None` if there is none.
    pub fn try_take(&self) -> Option<T> {
        self.inner.guard().try_take()
    }

    /// Returns whether there is a value now.
    pub fn signaled(&self) -> bool {
        self.inner.guard().signaled()
    }
}

/// A future that takes the value. `wait` returns it. After it was ready, a poll waits for the next value.
#[must_use]
#[derive(Drop)]
pub struct SignalWait<'a, T, W, H> {
    signal: &'a Signal<T, W, H>,
}

impl<T: Drop, W: Copy + Eq, H: Hand<W>> SignalWait<'_, T, W, H> {
    /// Takes the value and returns it. If there is none, registers the context's waker and returns Pending.
    pub fn poll(&mut self, cx: &Context<W>) -> Poll<T> {
        self.signal.poll_wait(cx)
    }
}
