//! Passes over a greedy semaphore.
ghost use Rattle.std.specs.Prelude.{◌≡◌, ◌<◌, ◌^◌, sum};

use crate::pool::{Pool, acquire_and_release, take_and_release, wait_and_wake};
use crate::tasks::{Turn, hand_out};
use esync_base::waitqueue::{Context, Poll, TaskId, Wakes};
use esync_permits::semaphore::GreedyState;

type State = GreedyState<TaskId>;

// A request has no ticket, and the waker of only one is kept.
impl Pool for State {
    ghost use Rattle.std.specs.Prelude.{[]};

    type Ticket = ();

    ghost available = { λ state. state.permits };

    ghost waiting = { λ _. [] };

    ghost numbered = { λ _. [] };

    fn no_ticket() {}

    fn poll(
        &mut self,
        permits: u32,
        _ticket: (),
        cx: &Context<TaskId>,
        woken: &mut [u64],
        turn: &Turn,
    ) -> (u64, ()) {
        let mut wakes: Wakes<TaskId, 1> = Wakes::new();
        let taken = match self.poll_acquire(permits as usize, cx, &mut wakes) {
            Poll::Ready(taken) => taken,
            Poll::Pending => 0,
        };
        hand_out(&wakes, woken);
        turn.next();
        (taken as u64, ())
    }

    fn take(&mut self, permits: u32, turn: &Turn) -> u64 {
        let taken = self.try_acquire(permits as usize).unwrap_or(0);
        turn.next();
        taken as u64
    }

    fn release(&mut self, permits: u32, woken: &mut [u64], turn: &Turn) {
        let mut wakes: Wakes<TaskId, 1> = Wakes::new();
        GreedyState::release(self, permits as usize, &mut wakes);
        hand_out(&wakes, woken);
        turn.next();
    }
}

#[unsafe(no_mangle)]
pub extern "C" fn esync_bench_greedy_acquire(messages: &[u32], woken: &mut [u64]) -> u64
    requires { sum messages.now < 2 ^ 64 }
    ensures { result ≡ sum messages.now }
{
    acquire_and_release(
        &mut State::new(u32::MAX as usize),
        messages,
        woken,
        &Turn::new(),
    )
}

#[unsafe(no_mangle)]
pub extern "C" fn esync_bench_greedy_try_acquire(messages: &[u32], woken: &mut [u64]) -> u64
    requires { sum messages.now < 2 ^ 64 }
    ensures { result ≡ sum messages.now }
{
    take_and_release(
        &mut State::new(u32::MAX as usize),
        messages,
        woken,
        &Turn::new(),
    )
}

#[unsafe(no_mangle)]
pub extern "C" fn esync_bench_greedy_wait_and_wake(messages: &[u32], woken: &mut [u64]) -> u64
    requires { sum messages.now < 2 ^ 64 }
    ensures { result ≡ sum messages.now }
{
    wait_and_wake(&mut State::new(0), messages, woken, &Turn::new())
}
