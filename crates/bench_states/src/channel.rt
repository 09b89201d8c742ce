//! Passes over a channel, and what both kinds of channels do in a pass.
ghost use Rattle.std.specs.Prelude.{◌≡◌, ℕ, ◌+◌, ◌<◌, ◌^◌, List, sum};

use crate::carrier::{Carrier, fill_and_drain, ping_pong, wait_and_wake};
use crate::tasks::{Turn, hand_out};
use esync_base::deque::Deque;
use esync_base::store::FixedStore;
use esync_base::waitqueue::{Context, Poll, TaskId, Wakes};
use esync_channel::channel::{ChannelState, Mailbox};

/// A store whose sum follows what goes in and comes out.
pub trait Summed: FixedStore<Message = u32> {
    ghost sum_put: { (old new : List ℕ) (message : ℕ) → Self.keeping.Puts old message new → sum new ≡ sum old + message };

    ghost sum_taken: { (old new : List ℕ) (message : ℕ) → Self.keeping.Takes old message new → sum old ≡ message + sum new };
}

impl<const N: usize> Summed for Deque<u32, N> {
    ghost use Rattle.bench_states.specs.Sums.{sum-at-back, sum-at-front};

    ghost sum_put = { sum-at-back };

    ghost sum_taken = { sum-at-front };
}

impl<S: Summed> Carrier for Mailbox<S, TaskId> {
    ghost held = { λ mailbox. S.held mailbox.store };

    ghost room = { S.keeping.capacity };

    fn capacity() -> usize {
        S::places()
    }

    fn len(&self) -> usize {
        Mailbox::len(self)
    }

    fn send(&mut self, message: u32, woken: &mut [u64], turn: &Turn) {
        let mut wakes: Wakes<TaskId, 1> = Wakes::new();
        let _ = self.try_send(message, &mut wakes);
        hand_out(&wakes, woken);
        turn.next();
    }

    fn receive(&mut self, woken: &mut [u64], turn: &Turn) -> u32 {
        let mut wakes: Wakes<TaskId, 1> = Wakes::new();
        let message = match self.try_receive(&mut wakes) {
            Ok(message) => message,
            Err(_) => 0,
        };
        hand_out(&wakes, woken);
        turn.next();
        message
    }

    fn poll(&mut self, cx: &Context<TaskId>, woken: &mut [u64], turn: &Turn) -> u32 {
        let mut wakes: Wakes<TaskId, 1> = Wakes::new();
        let message = match self.poll_receive(cx, &mut wakes) {
            Poll::Ready(message) => message,
            Poll::Pending => 0,
        };
        hand_out(&wakes, woken);
        turn.next();
        message
    }
}

// Each message is the first of a channel that is made for it, and is received.
#[inline(never)]
fn first_messages<S: Summed>(messages: &[u32], woken: &mut [u64], turn: &Turn) -> u64
    requires room { 0 < S.keeping.capacity }
    requires fits { sum messages.now < 2 ^ 64 }
    ensures { result ≡ sum messages.now }
{
    let mut total = 0;
    for message in messages {
        let mut channel: Mailbox<S, TaskId> = Mailbox::new();
        channel.send(*message, woken, turn);
        total += u64::from(channel.receive(woken, turn));
    }
    total
}

type State<const N: usize> = ChannelState<u32, TaskId, N>;

#[unsafe(no_mangle)]
pub extern "C" fn esync_bench_channel_ping_pong_4(messages: &[u32], woken: &mut [u64]) -> u64
    requires { sum messages.now < 2 ^ 64 }
    ensures { result ≡ sum messages.now }
{
    ping_pong(&mut State::<4>::new(), messages, woken, &Turn::new())
}

#[unsafe(no_mangle)]
pub extern "C" fn esync_bench_channel_ping_pong_64(messages: &[u32], woken: &mut [u64]) -> u64
    requires { sum messages.now < 2 ^ 64 }
    ensures { result ≡ sum messages.now }
{
    ping_pong(&mut State::<64>::new(), messages, woken, &Turn::new())
}

#[unsafe(no_mangle)]
pub extern "C" fn esync_bench_channel_ping_pong_1024(messages: &[u32], woken: &mut [u64]) -> u64
    requires { sum messages.now < 2 ^ 64 }
    ensures { result ≡ sum messages.now }
{
    ping_pong(&mut State::<1024>::new(), messages, woken, &Turn::new())
}

#[unsafe(no_mangle)]
pub extern "C" fn esync_bench_channel_ping_pong_4096(messages: &[u32], woken: &mut [u64]) -> u64
    requires { sum messages.now < 2 ^ 64 }
    ensures { result ≡ sum messages.now }
{
    ping_pong(&mut State::<4096>::new(), messages, woken, &Turn::new())
}

#[unsafe(no_mangle)]
pub extern "C" fn esync_bench_channel_fill_drain_4(messages: &[u32], woken: &mut [u64]) -> u64
    requires { sum messages.now < 2 ^ 64 }
    ensures { result ≡ sum messages.now }
{
    fill_and_drain(&mut State::<4>::new(), messages, woken, &Turn::new())
}

#[unsafe(no_mangle)]
pub extern "C" fn esync_bench_channel_fill_drain_64(messages: &[u32], woken: &mut [u64]) -> u64
    requires { sum messages.now < 2 ^ 64 }
    ensures { result ≡ sum messages.now }
{
    fill_and_drain(&mut State::<64>::new(), messages, woken, &Turn::new())
}

#[unsafe(no_mangle)]
pub extern "C" fn esync_bench_channel_fill_drain_1024(messages: &[u32], woken: &mut [u64]) -> u64
    requires { sum messages.now < 2 ^ 64 }
    ensures { result ≡ sum messages.now }
{
    fill_and_drain(&mut State::<1024>::new(), messages, woken, &Turn::new())
}

#[unsafe(no_mangle)]
pub extern "C" fn esync_bench_channel_fill_drain_4096(messages: &[u32], woken: &mut [u64]) -> u64
    requires { sum messages.now < 2 ^ 64 }
    ensures { result ≡ sum messages.now }
{
    fill_and_drain(&mut State::<4096>::new(), messages, woken, &Turn::new())
}

#[unsafe(no_mangle)]
pub extern "C" fn esync_bench_channel_first_message_4(messages: &[u32], woken: &mut [u64]) -> u64
    requires { sum messages.now < 2 ^ 64 }
    ensures { result ≡ sum messages.now }
{
    first_messages::<Deque<u32, 4>>(messages, woken, &Turn::new())
}

#[unsafe(no_mangle)]
pub extern "C" fn esync_bench_channel_first_message_64(messages: &[u32], woken: &mut [u64]) -> u64
    requires { sum messages.now < 2 ^ 64 }
    ensures { result ≡ sum messages.now }
{
    first_messages::<Deque<u32, 64>>(messages, woken, &Turn::new())
}

#[unsafe(no_mangle)]
pub extern "C" fn esync_bench_channel_first_message_1024(messages: &[u32], woken: &mut [u64]) -> u64
    requires { sum messages.now < 2 ^ 64 }
    ensures { result ≡ sum messages.now }
{
    first_messages::<Deque<u32, 1024>>(messages, woken, &Turn::new())
}

#[unsafe(no_mangle)]
pub extern "C" fn esync_bench_channel_wait_and_wake(messages: &[u32], woken: &mut [u64]) -> u64
    requires { sum messages.now < 2 ^ 64 }
    ensures { result ≡ sum messages.now }
{
    wait_and_wake(&mut State::<4>::new(), messages, woken, &Turn::new())
}
