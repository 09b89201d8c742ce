//! For tests: a hand that notes the wakers that it is given and a hand that doesn't, and assertions that are quick to
//! prove.
//!
//! `assert!` and `assert_eq!` write a branch into the test, and what lives across branches is most of what a test's
//! proof costs. [`holds!`](holds!) and [`same!`](same!) make calls in their place, so a test is proved in half of the
//! time.
//! They stop a test through `expect`, since `rt ci` refuses `Abort` in a function outside of tests.
#![tactic(auto)]

use esync_base::waitqueue::{Hand, TaskId, Wakes};
use std::cell::Cell;
use std::fmt::{self, Debug, Formatter, InlineText, Write};
use std::marker::PhantomData;
use std::sync::Wait;

/// A hand that notes the wakers that it is given, in order. It has room for 8.
#[derive(Drop)]
pub struct Notes<'a, R> {
    rt: &'a R,
    given: Cell<Wakes<u64, 8>>,
    has_lost: Cell<bool>,
}

impl<'a, R: Wait> Notes<'a, R> {
    pub fn new(rt: &'a R) -> Self {
        Notes {
            rt,
            given: Cell::new(Wakes::new()),
            has_lost: Cell::new(false),
        }
    }

    /// Returns the wakers that the hand was given since the last call of `given` or `are`, in order: the first 8 of
    /// them.
    pub fn given(&self) -> Wakes<u64, 8> {
        self.given.replace(Wakes::new())
    }

    /// Returns whether the hand was given exactly these wakers, in this order, since the last call of `given` or `are`.
    /// Returns `false` if it was given more than it has room for.
    pub fn are(&self, wakers: &[u64]) -> bool {
        let given = self.given();
        if self.has_lost.replace(false) || given.len() != wakers.len() {
            return false;
        }
        for (noted, waker) in given.as_slice().iter().zip(wakers) {
            if *noted != Some(*waker) {
                return false;
            }
        }
        true
    }
}

impl<R: Wait> Hand<u64> for &Notes<'_, R> {
    type Rt = R;

    fn rt(&self) -> &R {
        self.rt
    }

    fn wake(&self, waker: u64) {
        let mut given = self.given.get();
        if given.len() == 8 {
            self.has_lost.set(true);
            return;
        }
        given.push(waker);
        self.given.set(given);
    }
}

/// A hand without a value, which wakes no task. It may wait, as the runtime that it names.
#[derive(Drop)]
pub struct Deaf<R> {
    runtime: PhantomData<R>,
}

impl<R> Default for Deaf<R> {
    fn default() -> Self {
        Deaf {
            runtime: PhantomData,
        }
    }
}

impl<R: Wait> Wait for Deaf<R> {}

impl<R: Wait> Hand<u64> for Deaf<R> {
    type Rt = Self;

    fn rt(&self) -> &Self {
        self
    }

    fn wake(&self, _waker: u64) {}
}

impl<R: Wait> Hand<TaskId> for Deaf<R> {
    type Rt = Self;

    fn rt(&self) -> &Self {
        self
    }

    fn wake(&self, _waker: TaskId) {}
}

/// Two values that should be equal and aren't, as `Debug` shows them. A result that borrowed both would tie their
/// lifetimes.
pub struct Differ {
    said: InlineText<512>,
}

impl Debug for Differ {
    fn fmt<W: Write>(&self, f: &mut Formatter<W>) -> fmt::Result {
        f.write_str(self.said.as_str())
    }
}

/// Compares two values, for [`same!`](same!).
///
/// # Errors
///
/// Returns both values as text if they differ.
pub fn same<T: PartialEq + Debug>(left: &T, right: &T) -> Result<(), Differ> {
    if *left == *right {
        return Ok(());
    }
    let said = InlineText::of(format_args!("left: {left:?}, right: {right:?}"));
    Err(Differ { said })
}

/// Asserts that the condition holds: `assert!` by calls.
#[macro_export]
macro_rules! holds {
    ($rt:expr; $cond:expr $(,)?) => {
        std::panic::Expect::expect(
            bool::then_some($cond, ()),
            &$rt,
            concat!("assertion failed: ", stringify!($cond)),
        )
    };
}

/// Asserts that two values are equal: `assert_eq!` by calls.
#[macro_export]
macro_rules! same {
    ($rt:expr; $left:expr, $right:expr $(,)?) => {
        std::panic::Expect::expect(
            $crate::same(&$left, &$right),
            &$rt,
            "assertion `left == right` failed",
        )
    };
}

/// Asserts that the hand was given these wakers in this order since it was last asked.
#[macro_export]
macro_rules! woken {
    ($rt:expr, $notes:expr, $wakers:expr) => {
        $crate::holds!(*$rt; $notes.are($wakers))
    };
}

/// Drops a future, if this is the point where it is to be dropped.
pub fn drop_at<F: Drop>(future: &mut Option<F>, is_here: bool) {
    if is_here {
        *future = None;
    }
}
