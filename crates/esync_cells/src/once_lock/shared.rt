//! A value that is set once and shared by reference with tasks on several threads, and its future.
ghost use Rattle.std.specs.Prelude.{◌≡◌, IfErr};

use super::InitError;
use esync_base::waitqueue::{Context, Hand, Poll};
use std::marker::PhantomData;
use std::sync;

/// A value that is set once and shared by reference with tasks on several threads. It has no lock: only a thread that
/// sets the value waits, while another one is setting it.
#[derive(Drop)]
pub struct OnceLock<T, W, H> {
    data: sync::OnceLock<T>,
    hand: H,
    wakers: PhantomData<W>,
}

impl<T: Drop, W, H> OnceLock<T, W, H> {
    /// Returns a lock without a value.
    pub fn new(hand: H) -> Self {
        OnceLock {
            data: sync::OnceLock::new(),
            hand,
            wakers: PhantomData,
        }
    }

    /// Returns a future that gives the value by reference when it was set.
    pub fn get(&self) -> OnceGet<'_, T, W, H> {
        OnceGet { lock: self }
    }

    /// Returns the value by reference. If there is none, gives the context's waker to the hand at once and returns
    /// Pending, so that the task polls again.
    pub fn poll_get(&self, cx: &Context<W>) -> Poll<&T>
    where
        W: Copy,
        H: Hand<W>,
    {
        match self.data.get() {
            Some(value) => Poll::Ready(value),
            None => {
                self.hand.wake(cx.waker());
                Poll::Pending
            }
        }
    }

    /// Returns the value by reference, or `None` if there is none.
    pub fn try_get(&self) -> Option<&T> {
        self.data.get()
    }

    /// Sets the value. If there is one already, it stays, and the new one is in the error.
    pub fn init(&self, value: T) -> Result<(), InitError<T>>
    where
        H: Hand<W>,
        ensures { IfErr result (λ error. error ≡ InitError.Set value) }
    {
        match self.data.set(self.hand.rt(), value) {
            Ok(_) => Ok(()),
            Err(value) => Err(InitError::Set(value)),
        }
    }

    /// Returns the value by reference. If there is none, first sets it to what the closure returns. The closure must
    /// not use this lock.
    pub fn get_or_init<F: FnOnce() -> T + Drop>(&self, f: F) -> &T
    where
        H: Hand<W>,
        requires { F.pre f }
    {
        self.data.get_or_init(self.hand.rt(), f)
    }

    /// Returns the value, or `None` if it was not set.
    pub fn into_inner(self) -> Option<T>
    where
        H: Drop,
    {
        let OnceLock {
            data,
            hand: _,
            wakers: _,
        } = self;
        data.into_inner()
    }

    /// Takes the value and returns it, or `None` if it was not set. A value can then be set again.
    pub fn take(&mut self) -> Option<T> {
        self.data.take()
    }

    /// Returns whether the value was set.
    pub fn is_set(&self) -> bool {
        self.data.get().is_some()
    }
}

/// A future that gives the value by reference. `get` returns it. After it was ready, a poll gives the value again.
#[must_use]
#[derive(Drop)]
pub struct OnceGet<'a, T, W, H> {
    lock: &'a OnceLock<T, W, H>,
}

impl<'a, T: Drop, W: Copy, H: Hand<W>> OnceGet<'a, T, W, H> {
    /// Returns the value by reference. If there is none, gives the context's waker to the hand at once and returns
    /// Pending.
    pub fn poll(&mut self, cx: &Context<W>) -> Poll<&'a T> {
        self.lock.poll_get(cx)
    }
}
