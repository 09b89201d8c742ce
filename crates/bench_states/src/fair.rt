//! Passes over a fair semaphore.
ghost use Rattle.std.specs.Prelude.{◌≡◌, ◌<◌, ◌^◌, sum};

use crate::pool::{Pool, acquire_and_release, take_and_release, wait_and_wake};
use crate::tasks::{Turn, hand_out};
use esync_base::waitqueue::{Context, TaskId, Wakes};
use esync_permits::semaphore::{FairPoll, FairState, Ticket};

impl<const N: usize> Pool for FairState<TaskId, N> {
    ghost use Rattle.std.specs.Option.{option_to_list};
    ghost use Rattle.esync_permits.specs.Queue.{numbers};

    type Ticket = Option<Ticket>;

    ghost available = { λ state. state.permits };

    ghost waiting = { λ state. numbers state.entries };

    ghost numbered = { option_to_list };

    fn no_ticket() -> Option<Ticket> {
        None
    }

    fn poll(
        &mut self,
        permits: u32,
        ticket: Option<Ticket>,
        cx: &Context<TaskId>,
        woken: &mut [u64],
        turn: &Turn,
    ) -> (u64, Option<Ticket>) {
        let mut wakes: Wakes<TaskId, 1> = Wakes::new();
        let (taken, ticket) = match self.poll_acquire(permits as usize, ticket, cx, &mut wakes) {
            FairPoll::Ready(answer) => (answer.unwrap_or(0), None),
            FairPoll::Pending(ticket) => (0, Some(ticket)),
        };
        hand_out(&wakes, woken);
        turn.next();
        (taken as u64, ticket)
    }

    fn take(&mut self, permits: u32, turn: &Turn) -> u64 {
        let taken = self.try_acquire(permits as usize).unwrap_or(0);
        turn.next();
        taken as u64
    }

    fn release(&mut self, permits: u32, woken: &mut [u64], turn: &Turn) {
        let mut wakes: Wakes<TaskId, 1> = Wakes::new();
        FairState::release(self, permits as usize, &mut wakes);
        hand_out(&wakes, woken);
        turn.next();
    }
}

type State = FairState<TaskId, 4>;

#[unsafe(no_mangle)]
pub extern "C" fn esync_bench_fair_acquire(messages: &[u32], woken: &mut [u64]) -> u64
    requires { sum messages.now < 2 ^ 64 }
    ensures { result ≡ sum messages.now }
{
    acquire_and_release(
        &mut State::new(u32::MAX as usize),
        messages,
        woken,
        &Turn::new(),
    )
}

#[unsafe(no_mangle)]
pub extern "C" fn esync_bench_fair_try_acquire(messages: &[u32], woken: &mut [u64]) -> u64
    requires { sum messages.now < 2 ^ 64 }
    ensures { result ≡ sum messages.now }
{
    take_and_release(
        &mut State::new(u32::MAX as usize),
        messages,
        woken,
        &Turn::new(),
    )
}

#[unsafe(no_mangle)]
pub extern "C" fn esync_bench_fair_wait_and_wake(messages: &[u32], woken: &mut [u64]) -> u64
    requires { sum messages.now < 2 ^ 64 }
    ensures { result ≡ sum messages.now }
{
    wait_and_wake(&mut State::new(0), messages, woken, &Turn::new())
}
