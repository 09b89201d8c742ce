//! Passes over what carries messages: each loop is written once, for all that do.
ghost use Rattle.std.specs.Prelude.{◌≡◌, ℕ, ◌+◌, ◌-◌, ◌<◌, ◌≤◌, ◌^◌, List, length, sum};

use crate::tasks::Turn;
use esync_base::waitqueue::{Context, TaskId};

/// What carries messages from who sends to who receives. Each call hands out its wakes, and then it is the next one's turn.
pub trait Carrier {
    /// The messages that it holds, in any order.
    ghost held: { Self → List ℕ };

    /// How many it can hold.
    ghost room: { ℕ };

    /// How many messages it can hold.
    fn capacity() -> usize
        ensures { result ≡ room };

    /// How many messages it holds.
    fn len(&self) -> usize
        ensures { result ≡ length (held self.now) };

    /// Puts a message in, for which there is room.
    fn send(&mut self, message: u32, woken: &mut [u64], turn: &Turn)
        requires { length (held self.old) < room }
        ensures held { length (held self.new) ≡ length (held self.old) + 1 }
        ensures total { sum (held self.new) ≡ sum (held self.old) + message };

    /// The message that is first, or 0 where there is none.
    fn receive(&mut self, woken: &mut [u64], turn: &Turn) -> u32
        ensures held { length (held self.new) ≡ length (held self.old) - 1 }
        ensures total { sum (held self.old) ≡ result + sum (held self.new) };

    /// The message that is first, for a task that waits for one, or 0 where there is none.
    fn poll(&mut self, cx: &Context<TaskId>, woken: &mut [u64], turn: &Turn) -> u32
        ensures held { length (held self.new) ≡ length (held self.old) - 1 }
        ensures total { sum (held self.old) ≡ result + sum (held self.new) };
}

// Each message is sent and then one is received.
fn send_and_receive<C: Carrier>(
    carrier: &mut C,
    messages: &[u32],
    woken: &mut [u64],
    turn: &Turn,
) -> u64
    requires room { length (C.held carrier.old) < C.room }
    requires fits { sum (C.held carrier.old) + sum messages.now < 2 ^ 64 }
    ensures held { length (C.held carrier.new) ≡ length (C.held carrier.old) }
    ensures total { result + sum (C.held carrier.new) ≡ sum (C.held carrier.old) + sum messages.now }
{
    let mut total = 0;
    for message in messages {
        carrier.send(*message, woken, turn);
        total += u64::from(carrier.receive(woken, turn));
    }
    total
}

/// Each message is sent and then received.
#[inline(never)]
pub fn ping_pong<C: Carrier>(
    carrier: &mut C,
    messages: &[u32],
    woken: &mut [u64],
    turn: &Turn,
) -> u64
    requires room { 0 < C.room }
    requires empty { length (C.held carrier.old) ≡ 0 }
    requires fits { sum messages.now < 2 ^ 64 }
    ensures { result ≡ sum messages.now }
{
    send_and_receive(carrier, messages, woken, turn)
}

// All messages are sent.
fn fill<C: Carrier>(carrier: &mut C, messages: &[u32], woken: &mut [u64], turn: &Turn)
    requires { length (C.held carrier.old) + length messages.now ≤ C.room }
    ensures held { length (C.held carrier.new) ≡ length (C.held carrier.old) + length messages.now }
    ensures total { sum (C.held carrier.new) ≡ sum (C.held carrier.old) + sum messages.now }
{
    for message in messages {
        carrier.send(*message, woken, turn);
    }
}

// All messages are received.
fn drain<C: Carrier>(carrier: &mut C, woken: &mut [u64], turn: &Turn) -> u64
    requires { sum (C.held carrier.old) < 2 ^ 64 }
    ensures empty { length (C.held carrier.new) ≡ 0 }
    ensures total { result ≡ sum (C.held carrier.old) }
{
    let mut total = 0;
    for _ in 0..carrier.len() {
        total += u64::from(carrier.receive(woken, turn));
    }
    total
}

/// As many messages are sent as there is room for, and then all are received.
#[inline(never)]
pub fn fill_and_drain<C: Carrier>(
    carrier: &mut C,
    messages: &[u32],
    woken: &mut [u64],
    turn: &Turn,
) -> u64
    requires room { 0 < C.room }
    requires empty { length (C.held carrier.old) ≡ 0 }
    requires fits { sum messages.now < 2 ^ 64 }
    ensures { result ≡ sum messages.now }
{
    let mut total = 0;
    let mut rest = messages;
    while !rest.is_empty() {
        let (chunk, behind) = rest.split_at(rest.len().min(C::capacity()));
        fill(carrier, chunk, woken, turn);
        total += drain(carrier, woken, turn);
        rest = behind;
    }
    total
}

/// Half of what there is room for is sent. Each further message is sent and then one is received, and the last are received at the
/// end.
#[inline(never)]
pub fn steady<C: Carrier>(carrier: &mut C, messages: &[u32], woken: &mut [u64], turn: &Turn) -> u64
    requires some { 1 < C.room }
    requires empty { length (C.held carrier.old) ≡ 0 }
    requires fits { sum messages.now < 2 ^ 64 }
    ensures { result ≡ sum messages.now }
{
    let (first, rest) = messages.split_at(messages.len().min(C::capacity() / 2));
    fill(carrier, first, woken, turn);
    send_and_receive(carrier, rest, woken, turn) + drain(carrier, woken, turn)
}

/// Task 0 polls and waits, a message is sent, which wakes it, and it polls again.
#[inline(never)]
pub fn wait_and_wake<C: Carrier>(
    carrier: &mut C,
    messages: &[u32],
    woken: &mut [u64],
    turn: &Turn,
) -> u64
    requires room { 0 < C.room }
    requires empty { length (C.held carrier.old) ≡ 0 }
    requires fits { sum messages.now < 2 ^ 64 }
    ensures { result ≡ sum messages.now }
{
    let cx = Context::from_waker(TaskId(0));
    let mut total = 0;
    for message in messages {
        total += u64::from(carrier.poll(&cx, woken, turn));
        carrier.send(*message, woken, turn);
        total += u64::from(carrier.poll(&cx, woken, turn));
    }
    total
}
