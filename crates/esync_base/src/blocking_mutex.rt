//! A mutex that is held for the length of one call, and one without a lock.
ghost use Rattle.std.specs.Prelude.{◌≡◌};

use std::marker::Model;
use std::sync::{Mutex, MutexGuard, Wait};

/// A value that threads share: each has it only while it has the lock.
///
/// The lock keeps what the value's type keeps: its invariant holds each time the lock is taken. Nothing else is known
/// of the value then. Nothing is said of when a thread gets the lock.
#[derive(Drop)]
pub struct CriticalSectionMutex<T> {
    value: Mutex<T>,
}

impl<T> CriticalSectionMutex<T> {
    /// Returns the value under a lock that no thread has.
    pub fn new(value: T) -> Self {
        CriticalSectionMutex {
            value: Mutex::new(value),
        }
    }

    /// Takes the lock, lends the value to the closure, releases the lock, and returns what the closure returned.
    pub fn lock<U, F: FnOnce(&T) -> U>(&self, rt: &impl Wait, f: F) -> U
        requires { F.IsAlwaysCallable f }
        ensures { (value : _) × F.post f value result }
    {
        let guard = self.value.lock(rt);
        f(&*guard)
    }

    /// Takes the lock and lends the value to the closure, which may change it. Then releases the lock, and returns what
    /// the closure returned.
    pub fn lock_mut<U, F: FnOnce(&mut T) -> U>(&self, rt: &impl Wait, f: F) -> U
        requires { F.IsAlwaysCallable f }
        ensures { (before : _) × (after : _) × F.post f before result after }
    {
        let mut guard = self.value.lock(rt);
        f(&mut *guard)
    }

    /// Takes the lock and returns a guard. The lock is released when the guard is dropped. The shared forms take their
    /// steps so.
    #[inline]
    pub fn guard(&self, rt: &impl Wait) -> MutexGuard<'_, T> {
        match self.value.try_lock() {
            Some(guard) => guard,
            None => self.wait(rt),
        }
    }

    // Waits for a lock that another thread has. Out of line, so that a free lock is taken without a call.
    #[cold]
    #[inline(never)]
    fn wait(&self, rt: &impl Wait) -> MutexGuard<'_, T> {
        self.value.lock(rt)
    }

    /// Returns the value.
    pub fn into_inner(self) -> T {
        let CriticalSectionMutex { value } = self;
        value.into_inner()
    }

    /// Returns the value by reference, without the lock: the mutex is borrowed mutably, so that no thread can have it.
    pub fn get_mut(&mut self) -> &mut T {
        self.value.get_mut()
    }
}

/// A value with the calls of a mutex and no lock. No call waits.
#[derive(Drop)]
pub struct NoopMutex<T> {
    value: T,
}

impl<T> Model for NoopMutex<T> {
    ghost Value = { T };

    ghost coded = { T.code };

    ghost view = { λ a. a.value };
}

impl<T> NoopMutex<T> {
    ghost use Rattle.std.specs.Borrow.{sem, Lends};
    ghost use Rattle.std.specs.Fn.{FnOnceReturnsAt};
    ghost use Rattle.esync_base.specs.contracts.blocking_mutex.NoopMutex.{the_row};

    /// Returns a mutex with the value.
    pub fn new(value: T) -> Self
        ensures { result ≡ value }
    {
        NoopMutex { value }
    }

    /// Returns the value by reference.
    pub fn borrow(&self) -> &T
        ensures { result.now ≡ self.now }
    {
        &self.value
    }

    /// Lends the value to the closure, and returns what the closure returned.
    pub fn lock<U, F: FnOnce(&T) -> U>(&self, f: F) -> U
        requires { F.IsAlwaysCallable f }
        ensures { FnOnceReturnsAt F.FnOnce f self.now result }
    {
        f(self.borrow())
    }

    /// Returns the value.
    pub fn into_inner(self) -> T
        ensures { result ≡ self }
    {
        let NoopMutex { value } = self;
        value
    }

    /// Returns the value by reference, to be changed.
    pub fn get_mut(&mut self) -> &mut T
        ensures* lends { sem 𝓛 (Lends (the_row T.row) T.row self.entry result (λ value. value)) }
        ensures value { result.now ≡ self.old }
    {
        &mut self.value
    }
}
