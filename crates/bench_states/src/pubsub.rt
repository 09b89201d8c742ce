//! Passes over a pub-sub channel, with one subscriber or four.
ghost use Rattle.std.specs.Prelude.{◌≤◌};

use crate::tasks::{Turn, hand_out};
use esync_base::waitqueue::{Context, Poll, TaskId, Wakes};
use esync_pubsub::pubsub::{PubSubState, SubId, WaitResult};

type State<const SUBS: usize> = PubSubState<u32, TaskId, 4, SUBS, 1>;

// The message is published, if there is room.
fn publish<const SUBS: usize>(
    state: &mut State<SUBS>,
    message: u32,
    woken: &mut [u64],
    turn: &Turn,
) {
    let mut wakes: Wakes<TaskId, SUBS> = Wakes::new();
    let _ = state.try_publish(message, &mut wakes);
    hand_out(&wakes, woken);
    turn.next();
}

// The message is published, and the oldest one makes room.
fn publish_at_once(state: &mut State<1>, message: u32, woken: &mut [u64], turn: &Turn) {
    let mut wakes: Wakes<TaskId, 1> = Wakes::new();
    let _ = state.publish_immediate(message, &mut wakes);
    hand_out(&wakes, woken);
    turn.next();
}

// What the subscriber reads next: a message, how many it missed, or 0 where it has read all.
fn read<const SUBS: usize>(
    state: &mut State<SUBS>,
    id: &SubId,
    woken: &mut [u64],
    turn: &Turn,
) -> u64
    requires { 1 ≤ SUBS }
{
    let mut wakes: Wakes<TaskId, SUBS> = Wakes::new();
    let mut heard = 0;
    if state.is_subscriber(id) {
        heard = match state.try_next_message(id, &mut wakes) {
            Ok(Some(WaitResult::Message(message))) => u64::from(message),
            Ok(Some(WaitResult::Lagged(missed))) => missed,
            _ => 0,
        };
    }
    hand_out(&wakes, woken);
    turn.next();
    heard
}

// A poll of the task for the subscriber's next message, or 0 where it waits.
fn poll(state: &mut State<4>, id: &SubId, task: u64, woken: &mut [u64], turn: &Turn) -> u64 {
    let cx = Context::from_waker(TaskId(task));
    let mut wakes: Wakes<TaskId, 4> = Wakes::new();
    let mut heard = 0;
    if state.is_subscriber(id) {
        heard = match state.get_message_pure_with_context(id, &cx, &mut wakes) {
            Ok(Poll::Ready(message)) => u64::from(message),
            _ => 0,
        };
    }
    hand_out(&wakes, woken);
    turn.next();
    heard
}

// Each message is published, and read by the one subscriber.
#[inline(never)]
fn publish_and_read(
    state: &mut State<1>,
    id: &SubId,
    messages: &[u32],
    woken: &mut [u64],
    turn: &Turn,
) -> u64 {
    let mut total = 0u64;
    for message in messages {
        publish(state, *message, woken, turn);
        total = total.wrapping_add(read(state, id, woken, turn));
    }
    total
}

// Each message is published, and read by all four.
#[inline(never)]
fn publish_and_read_by_four(
    state: &mut State<4>,
    ids: &[SubId],
    messages: &[u32],
    woken: &mut [u64],
    turn: &Turn,
) -> u64 {
    let mut total = 0u64;
    for message in messages {
        publish(state, *message, woken, turn);
        for id in ids {
            total = total.wrapping_add(read(state, id, woken, turn));
        }
    }
    total
}

// Eight messages at a time are published at once, of which four are held. The subscriber hears how many it missed, and reads the
// others.
#[inline(never)]
fn lag(state: &mut State<1>, id: &SubId, messages: &[u32], woken: &mut [u64], turn: &Turn) -> u64 {
    let mut total = 0u64;
    for chunk in messages.chunks(8) {
        for message in chunk {
            publish_at_once(state, *message, woken, turn);
        }
        for _ in 0..5 {
            total = total.wrapping_add(read(state, id, woken, turn));
        }
    }
    total
}

// All four poll for a message and wait, one is published, which wakes them, and they poll again.
#[inline(never)]
fn wait_and_wake(
    state: &mut State<4>,
    ids: &[SubId],
    messages: &[u32],
    woken: &mut [u64],
    turn: &Turn,
) -> u64 {
    let mut total = 0u64;
    for message in messages {
        for (task, id) in (0..).zip(ids) {
            total = total.wrapping_add(poll(state, id, task, woken, turn));
        }
        publish(state, *message, woken, turn);
        for (task, id) in (0..).zip(ids) {
            total = total.wrapping_add(poll(state, id, task, woken, turn));
        }
    }
    total
}

// One subscriber comes.
fn one(state: &mut State<1>) -> Option<SubId> {
    state.subscribe().ok()
}

// Four subscribers come.
fn four(state: &mut State<4>) -> Option<[SubId; 4]> {
    let first = state.subscribe().ok()?;
    let second = state.subscribe().ok()?;
    let third = state.subscribe().ok()?;
    let fourth = state.subscribe().ok()?;
    Some([first, second, third, fourth])
}

#[unsafe(no_mangle)]
pub extern "C" fn esync_bench_pubsub_one(messages: &[u32], woken: &mut [u64]) -> u64 {
    let mut state = State::new();
    match one(&mut state) {
        Some(id) => publish_and_read(&mut state, &id, messages, woken, &Turn::new()),
        None => 0,
    }
}

#[unsafe(no_mangle)]
pub extern "C" fn esync_bench_pubsub_four(messages: &[u32], woken: &mut [u64]) -> u64 {
    let mut state = State::new();
    match four(&mut state) {
        Some(ids) => publish_and_read_by_four(&mut state, &ids, messages, woken, &Turn::new()),
        None => 0,
    }
}

#[unsafe(no_mangle)]
pub extern "C" fn esync_bench_pubsub_lag(messages: &[u32], woken: &mut [u64]) -> u64 {
    let mut state = State::new();
    match one(&mut state) {
        Some(id) => lag(&mut state, &id, messages, woken, &Turn::new()),
        None => 0,
    }
}

#[unsafe(no_mangle)]
pub extern "C" fn esync_bench_pubsub_wait_and_wake(messages: &[u32], woken: &mut [u64]) -> u64 {
    let mut state = State::new();
    match four(&mut state) {
        Some(ids) => wait_and_wake(&mut state, &ids, messages, woken, &Turn::new()),
        None => 0,
    }
}
