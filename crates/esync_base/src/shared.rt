//! A state that tasks on several threads share, and the hand that wakes these tasks. Every shared form stands on the
//! two.
ghost use Rattle.esync_base.specs.Room.{WakesFitInMemory};

use crate::blocking_mutex::CriticalSectionMutex;
use crate::waitqueue::{Hand, Wakes};
use std::marker::PhantomData;
use std::sync::MutexGuard;

/// A state under a lock, and the hand that gets the wakers which the steps of the state hand out.
#[derive(Drop)]
pub struct Shared<V, W, H> {
    state: CriticalSectionMutex<V>,
    hand: H,
    wakers: PhantomData<W>,
}

impl<V, W: Copy, H: Hand<W>> Shared<V, W, H> {
    /// Returns the state under a lock that no thread has, with the hand.
    pub fn new(state: V, hand: H) -> Self {
        Shared {
            state: CriticalSectionMutex::new(state),
            hand,
            wakers: PhantomData,
        }
    }

    /// Takes the lock and returns a guard. The lock is released when the guard is dropped.
    #[inline]
    pub fn guard(&self) -> MutexGuard<'_, V>
        ensures { WakesFitInMemory W.row }
    {
        self.state.guard(self.hand.rt())
    }

    /// Gives the wakers to the hand, in order.
    pub fn wake<const K: usize>(&self, wakes: &Wakes<W, K>) {
        for waker in wakes {
            self.hand.wake(waker);
        }
    }

    /// Returns the state by reference, without the lock: it is borrowed mutably, so that no thread can have the lock.
    pub fn get_mut(&mut self) -> &mut V {
        self.state.get_mut()
    }
}

/// Takes a step of a shared state, and returns what the call answers.
///
/// It takes the lock, makes the call, releases the lock, and then gives the wakers that the call handed out to the
/// hand. The list of wakes has room for one waker. A number below 65536 behind the shared state gives it room for as
/// many.
#[macro_export]
macro_rules! step {
    ($shared:expr, |$state:ident, $wakes:ident| $call:expr) => {
        $crate::step!($shared, 1, |$state, $wakes| $call)
    };
    ($shared:expr, $room:tt, |$state:ident, $wakes:ident| $call:expr) => {{
        let mut $state = $shared.guard();
        let mut $wakes = $crate::waitqueue::Wakes::<_, $room>::new();
        let answer = $call;
        drop($state);
        $shared.wake(&$wakes);
        answer
    }};
}
