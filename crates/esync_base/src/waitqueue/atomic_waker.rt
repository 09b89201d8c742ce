//! A place for the waker of one task. The waker stays there when it is handed out.
ghost use Rattle.std.specs.Prelude.{◌≡◌, ◌+◌, ◌<◌, ◌≤◌, ◌++◌, None, Some, length};
ghost use Rattle.esync_base.specs.Registration.{slot_wakers};

use super::{Hand, Wakes};
use crate::shared::Shared;
use crate::step;
use std::marker::Model;

/// A waker, if one was registered. Each wake hands it out, until another waker replaces it.
#[derive(Drop)]
pub struct AtomicWakerState<W> {
    waker: Option<W>,
}

impl<W> Model for AtomicWakerState<W> {
    ghost use Rattle.std.specs.Prelude.{Option};

    ghost Value = { Option W };

    ghost view = { λ a. a.waker };

    ghost inverse = { λ w. record { waker = w } };
}

impl<W: Copy + Eq> AtomicWakerState<W> {
    /// Returns a place without a waker.
    pub fn new() -> Self
        ensures { result ≡ None }
    {
        AtomicWakerState { waker: None }
    }

    /// Registers a waker. The waker that was registered before is forgotten, and isn't handed out.
    pub fn register(&mut self, waker: W)
        ensures { self.new ≡ Some waker }
    {
        self.waker = Some(waker);
    }

    /// Hands out the registered waker, if there is one. The waker stays registered.
    pub fn wake<const K: usize>(&self, wakes: &mut Wakes<W, K>)
        requires { length wakes.old < K }
        ensures handed_out { wakes.new ≡ wakes.old ++ slot_wakers self.now }
        ensures one { length wakes.new ≤ length wakes.old + 1 }
    {
        if let Some(waker) = self.waker {
            wakes.push(waker);
        }
    }
}

/// A place for the waker of one task, which other tasks wake through a shared reference. Each call makes the call of
/// its name on [`AtomicWakerState`].
#[derive(Drop)]
pub struct GenericAtomicWaker<W, H> {
    inner: Shared<AtomicWakerState<W>, W, H>,
}

/// `GenericAtomicWaker` under upstream's other name: there is one kind of mutex.
pub type AtomicWaker<W, H> = GenericAtomicWaker<W, H>;

impl<W: Copy + Eq, H: Hand<W>> GenericAtomicWaker<W, H> {
    /// Returns a place without a waker.
    pub fn new(hand: H) -> Self {
        GenericAtomicWaker {
            inner: Shared::new(AtomicWakerState::new(), hand),
        }
    }

    /// Registers a waker. The waker that was registered before is forgotten, and isn't woken.
    pub fn register(&self, waker: W) {
        self.inner.guard().register(waker)
    }

    /// Wakes the task of the registered waker, if there is one. The waker stays registered.
    pub fn wake(&self) {
        step!(self.inner, |state, wakes| state.wake(&mut wakes))
    }
}
