//! A value that is made when it is first asked for, and shared by reference with tasks on several threads.
ghost use Rattle.std.specs.Prelude.{◌≡◌};

use std::marker::Model;
use std::sync::{OnceLock, Wait};

/// A value that a closure makes when it is first asked for, shared by reference with tasks on several threads. It has
/// no lock: only a thread that asks while the closure runs waits for it. The closure must not use this lock.
#[derive(Drop)]
pub struct LazyLock<T, F> {
    data: OnceLock<T>,
    init_fn: F,
}

impl<T, F> Model for LazyLock<T, F> {
    ghost Value = { F };

    ghost coded = { F.code };

    ghost view = { λ a. a.init_fn };
}

impl<T: Drop, F: Fn() -> T + Drop> LazyLock<T, F> {
    /// Returns a lock whose value isn't made yet. The closure isn't called before the value is asked for.
    pub fn new(init_fn: F) -> Self
        ensures { result ≡ init_fn }
    {
        LazyLock {
            data: OnceLock::new(),
            init_fn,
        }
    }

    /// Returns the value by reference. The first call makes it by the closure.
    pub fn get(&self, rt: &impl Wait) -> &T
        requires { F.pre self.now }
    {
        self.data.get_or_init(rt, &self.init_fn)
    }

    /// Returns the value. Makes it by the closure if it was not asked for before.
    pub fn into_inner(self) -> T
        requires { F.pre self }
    {
        let LazyLock { data, init_fn } = self;
        match data.into_inner() {
            Some(value) => value,
            None => init_fn(),
        }
    }
}
