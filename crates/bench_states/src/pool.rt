//! Passes over a pool of permits: each message is a number of them, and each loop is written once, for all that keep some.
ghost use Rattle.std.specs.Prelude.{◌≡◌, ℕ, ◌+◌, ◌-◌, ◌<◌, ◌≤◌, ◌^◌, [], List, sum};

use crate::tasks::Turn;
use esync_base::waitqueue::{Context, TaskId};

/// What keeps permits. Each call hands out its wakes, and then it is the next one's turn.
pub trait Pool {
    /// What a request keeps between two polls.
    type Ticket: Copy;

    /// How many permits are there.
    ghost available: { Self → ℕ };

    /// The numbers of the requests that wait, where they have some.
    ghost waiting: { Self → List ℕ };

    /// The number of the request, if it waits and has one.
    ghost numbered: { Self.Ticket → List ℕ };

    /// What a request has that wasn't polled yet.
    fn no_ticket() -> Self::Ticket
        ensures { numbered result ≡ [] };

    /// Takes a message's permits, if they are there, for who waits alone or where nobody does. If not, a task waits for them. Says how
    /// many were taken, and what the request keeps.
    fn poll(
        &mut self,
        permits: u32,
        ticket: Self::Ticket,
        cx: &Context<TaskId>,
        woken: &mut [u64],
        turn: &Turn,
    ) -> (u64, Self::Ticket)
        requires { waiting self.old ≡ numbered ticket }
        ensures taken { available self.old ≡ result.0 + available self.new }
        ensures waiting { waiting self.new ≡ numbered result.1 }
        ensures enough { permits ≤ available self.old → result.0 ≡ permits }
        ensures granted { permits ≤ available self.old → waiting self.new ≡ [] };

    /// Takes a message's permits, if they are there, where nobody waits. Says how many were taken.
    fn take(&mut self, permits: u32, turn: &Turn) -> u64
        requires { waiting self.old ≡ [] }
        ensures taken { available self.old ≡ result + available self.new }
        ensures waiting { waiting self.new ≡ [] }
        ensures enough { permits ≤ available self.old → result ≡ permits };

    /// Gives a message's permits back.
    fn release(&mut self, permits: u32, woken: &mut [u64], turn: &Turn)
        requires { available self.old + permits < 2 ^ 64 }
        ensures available { available self.new ≡ available self.old + permits }
        ensures waiting { waiting self.new ≡ waiting self.old };
}

/// Task 0 polls for each message's permits, which are there, and gives them back.
#[inline(never)]
pub fn acquire_and_release<P: Pool>(
    pool: &mut P,
    messages: &[u32],
    woken: &mut [u64],
    turn: &Turn,
) -> u64
    requires available { P.available pool.old ≡ 2 ^ 32 - 1 }
    requires nobody { P.waiting pool.old ≡ [] }
    requires fits { sum messages.now < 2 ^ 64 }
    ensures { result ≡ sum messages.now }
{
    let cx = Context::from_waker(TaskId(0));
    let mut total = 0;
    for message in messages {
        total += pool.poll(*message, P::no_ticket(), &cx, woken, turn).0;
        pool.release(*message, woken, turn);
    }
    total
}

/// Each message's permits, which are there, are taken and given back.
#[inline(never)]
pub fn take_and_release<P: Pool>(
    pool: &mut P,
    messages: &[u32],
    woken: &mut [u64],
    turn: &Turn,
) -> u64
    requires available { P.available pool.old ≡ 2 ^ 32 - 1 }
    requires nobody { P.waiting pool.old ≡ [] }
    requires fits { sum messages.now < 2 ^ 64 }
    ensures { result ≡ sum messages.now }
{
    let mut total = 0;
    for message in messages {
        total += pool.take(*message, turn);
        pool.release(*message, woken, turn);
    }
    total
}

/// Task 0 polls and waits, a message's permits are given back, which wakes it, and it polls again and has them.
#[inline(never)]
pub fn wait_and_wake<P: Pool>(pool: &mut P, messages: &[u32], woken: &mut [u64], turn: &Turn) -> u64
    requires available { P.available pool.old ≡ 0 }
    requires nobody { P.waiting pool.old ≡ [] }
    requires fits { sum messages.now < 2 ^ 64 }
    ensures { result ≡ sum messages.now }
{
    let cx = Context::from_waker(TaskId(0));
    let mut total = 0;
    for message in messages {
        let (early, ticket) = pool.poll(*message, P::no_ticket(), &cx, woken, turn);
        total += early;
        pool.release(*message, woken, turn);
        total += pool.poll(*message, ticket, &cx, woken, turn).0;
    }
    total
}
