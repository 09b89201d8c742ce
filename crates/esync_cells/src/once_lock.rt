//! A value that is set once, and then shown to every task that asks for it.
ghost use Rattle.std.specs.Prelude.{◌≡◌, ◌<◌, ◌++◌, None, Some, length, is_some, IfSome, IfNone, unwrap_or, ⊤};
ghost use Rattle.std.specs.Borrow.{sem, follows_so};
ghost use Rattle.std.specs.Option.{option_copied};
ghost use mathlib.Core.Option.{none};
ghost use Rattle.esync_cells.specs.Signal.{waited};
ghost use Rattle.esync_cells.specs.OnceLock.{poll_copied, wakes_of_get, set_answer};
ghost use Rattle.esync_cells.specs.contracts.once_lock.OnceState.{the_row};

use esync_base::kept::Kept;
use esync_base::waitqueue::{Context, Poll, Registered, Wakes};
pub use shared::{OnceGet, OnceLock};
use std::alloc::AllocError;
use std::fmt::Debug;
use std::marker::{Model, PhantomData};
use thiserror::Error;

pub mod machine;
mod shared;

/// Why a value was not set. The value is in the error.
#[derive(Clone, Copy, Debug, PartialEq, Eq, Error)]
#[error_bound(T: Debug)]
pub enum InitError<T> {
    /// There is a value already.
    #[error("there is a value")]
    Set(T),
}

impl<T> InitError<T> {
    /// Returns the value that was not set.
    pub fn into_value(self) -> T
        ensures { InitError.Set result ≡ self }
    {
        match self {
            InitError::Set(value) => value,
        }
    }
}

/// The state of a value that is set once: the value, if it was set. No waker is registered: a poll that finds no value
/// hands out its own waker.
#[derive(Debug, Drop)]
pub struct OnceState<T, W> {
    data: Option<T>,
    wakers: PhantomData<W>,
}

impl<T, W> Model for OnceState<T, W> {
    ghost use Rattle.std.specs.Prelude.{Option};
    ghost use Rattle.std.specs.Coded.{coded_option};

    ghost Value = { Option T };

    ghost coded = { coded_option T.code };

    ghost view = { λ a. a.data };
}

impl<T: Copy, W> Kept for OnceState<T, W> {
    fn kept(&self) -> Result<Self, AllocError> {
        Ok(OnceState {
            data: self.data,
            wakers: PhantomData,
        })
    }
}

/// No waker is registered: a task that waits for the value polls again and again.
impl<T, W> Registered for OnceState<T, W> {
    type Waker = W;

    ghost use Rattle.std.specs.Prelude.{[]};

    ghost at = { λ m place. [] };

    fn registered(&self, _place: usize, _i: usize) -> Option<W> {
        None
    }
}

impl<T: Drop, W: Copy + Eq> OnceState<T, W> {
    /// Returns a lock without a value.
    pub fn new() -> Self
        ensures { result ≡ None }
    {
        OnceState {
            data: None,
            wakers: PhantomData,
        }
    }

    /// Returns the value by reference. If there is none, hands out the context's waker at once and returns Pending, so
    /// that the task polls again.
    pub fn poll_get<const K: usize>(&self, cx: &Context<W>, wakes: &mut Wakes<W, K>) -> Poll<&T>
        requires { length wakes.old < K }
        ensures answer { poll_copied result ≡ waited self.now }
        ensures wakes { wakes.new ≡ wakes.old ++ wakes_of_get self.now cx.now }
    {
        match self.try_get() {
            Some(value) => Poll::Ready(value),
            None => {
                wakes.push(cx.waker());
                Poll::Pending
            }
        }
    }

    /// Returns the value by reference, or `None` if there is none.
    pub fn try_get(&self) -> Option<&T>
        ensures { option_copied result ≡ self.now }
    {
        self.data.as_ref()
    }

    /// Sets the value. If there is one already, it stays, and the new one is in the error.
    pub fn init(&mut self, value: T) -> Result<(), InitError<T>>
        ensures answer { result ≡ set_answer self.old value }
        ensures state { self.new ≡ Some (unwrap_or self.old value) }
    {
        if self.is_set() {
            return Err(InitError::Set(value));
        }
        self.data = Some(value);
        Ok(())
    }

    /// Returns the value by reference. If there is none, first sets it to what the closure returns.
    pub fn get_or_init<F: FnOnce() -> T + Drop>(&mut self, f: F) -> &T
        requires { IfNone self.old (F.pre f) }
        ensures* leaves { sem 𝓛 (follows_so (the_row T.row W.row) (the_row T.row W.row) self.entry.ghost_name none (λ _ _. ⊤) (λ v. v ≡ Some result.now)) }
        ensures there { IfSome self.old (λ value. result.now ≡ value) }
        ensures made { IfNone self.old (F.post f result.now) }
    {
        if self.data.is_none() {
            self.data = Some(f());
        }
        let Some(value) = &self.data else {
            unreachable!()
        };
        value
    }

    /// Returns the value, or `None` if it was not set.
    pub fn into_inner(self) -> Option<T>
        ensures { result ≡ self }
    {
        let OnceState { data, wakers: _ } = self;
        data
    }

    /// Takes the value and returns it, or `None` if it was not set. A value can then be set again.
    pub fn take(&mut self) -> Option<T>
        ensures answer { result ≡ self.old }
        ensures state { self.new ≡ None }
    {
        self.data.take()
    }

    /// Returns whether the value was set.
    pub fn is_set(&self) -> bool
        ensures { result ≡ is_some self.now }
    {
        self.data.is_some()
    }
}
