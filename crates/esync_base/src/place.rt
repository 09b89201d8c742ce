//! A value that one thread at a time takes. No thread waits for it.
ghost use Rattle.std.specs.Prelude.{◌≡◌};
ghost use Rattle.std.specs.Borrow.{Lends, sem};

use std::ops::{Deref, DerefMut};
use std::sync::{Mutex, MutexGuard};

/// A value that threads share: each has it only while it has taken it. No thread waits for it: a thread that finds the
/// value taken gets `None`.
///
/// Nothing is known of the value when a thread takes it. From then on that thread knows what it wrote.
#[derive(Drop)]
pub struct Place<T> {
    value: Mutex<T>,
}

impl<T> Place<T> {
    /// Returns a place with the value, which no thread has taken.
    pub fn new(value: T) -> Self {
        Place {
            value: Mutex::new(value),
        }
    }

    /// Takes the value and returns a guard, or `None` if the value is taken. The value is free again when the guard is
    /// dropped.
    pub fn turn(&self) -> Option<MutexGuard<'_, T>> {
        self.value.try_lock()
    }

    /// Returns the value.
    pub fn into_inner(self) -> T {
        let Place { value } = self;
        value.into_inner()
    }

    /// Returns the value by reference: the place is borrowed mutably, so that no thread can have taken it.
    pub fn get_mut(&mut self) -> &mut T {
        self.value.get_mut()
    }
}

/// A holder that has a value to itself, and lends it.
pub trait Holds {
    type Value;

    /// The value in the holder now.
    ghost value: { Self → Self.Value };

    /// The holder with another value in it.
    ghost with_value: { Self → Self.Value → Self };

    /// Returns the value by reference.
    fn read(&self) -> &Self::Value
        ensures { result.now ≡ value self.now };

    /// Returns the value by reference, to be written.
    fn write(&mut self) -> &mut Self::Value
        ensures* lends { sem 𝓛 (Lends Self.row Self.Value.row self.entry result (with_value self.old)) }
        ensures value { result.now ≡ value self.old };

    /// A law: the value is the one that was written last.
    ghost written: { (holder : Self) (v : Self.Value) → value (with_value holder v) ≡ v };
}

impl<T> Holds for MutexGuard<'_, T> {
    ghost use Rattle.std.specs.Prelude.{[], refl};
    ghost use Rattle.std.specs.Sync.Mutex.{mutex_guard_value, mutex_guard_with_value};
    ghost use Rattle.std.specs.contracts.sync.MutexGuard.{the_row};
    ghost use mir.Syntax.{named};

    type Value = T;

    ghost value = { mutex_guard_value };

    ghost with_value = { mutex_guard_with_value };

    fn read(&self) -> &T {
        self.deref()
    }

    // The row names the guard's lifetime by its number in this signature.
    fn write(&mut self) -> &mut T
        ensures* lends { sem 𝓛 (Lends (the_row (record { mir = named 1; lft = [] }) T.row) T.row self.entry result (mutex_guard_with_value self.old)) }
        ensures value { result.now ≡ mutex_guard_value self.old }
    {
        self.deref_mut()
    }

    ghost written = { λ holder v. refl };
}
