//! Passes over a watch with one receiver.
use crate::tasks::{Turn, hand_out};
use esync_base::waitqueue::{Context, Poll, TaskId, Wakes};
use esync_cells::watch::WatchState;

type State = WatchState<u32, TaskId, 4>;

// The message is put under the next version.
fn send(state: &mut State, message: u32, woken: &mut [u64], turn: &Turn) {
    let mut wakes: Wakes<TaskId, 4> = Wakes::new();
    let _ = state.send(message, &mut wakes);
    hand_out(&wakes, woken);
    turn.next();
}

// A poll for a version that is newer than the one that was seen: the message, or 0 where the task waits.
fn poll(
    state: &mut State,
    seen: &mut u64,
    cx: &Context<TaskId>,
    woken: &mut [u64],
    turn: &Turn,
) -> u32 {
    let mut wakes: Wakes<TaskId, 4> = Wakes::new();
    let message = match state.poll_changed(seen, cx, &mut wakes) {
        Ok(Poll::Ready(message)) => message,
        _ => 0,
    };
    hand_out(&wakes, woken);
    turn.next();
    message
}

// Each message is sent, and then read as news.
#[inline(never)]
fn send_and_read(state: &mut State, messages: &[u32], woken: &mut [u64], turn: &Turn) -> u64 {
    let mut total = 0u64;
    let mut seen = 0;
    for message in messages {
        send(state, *message, woken, turn);
        let news = match state.try_changed(&mut seen) {
            Ok(Some(message)) => message,
            _ => 0,
        };
        total = total.wrapping_add(u64::from(news));
        turn.next();
    }
    total
}

// Task 0 polls for news and waits, a message is sent, which wakes it, and it polls again.
#[inline(never)]
fn wait_and_wake(state: &mut State, messages: &[u32], woken: &mut [u64], turn: &Turn) -> u64 {
    let cx = Context::from_waker(TaskId(0));
    let mut total = 0u64;
    let mut seen = 0;
    for message in messages {
        total = total.wrapping_add(u64::from(poll(state, &mut seen, &cx, woken, turn)));
        send(state, *message, woken, turn);
        total = total.wrapping_add(u64::from(poll(state, &mut seen, &cx, woken, turn)));
    }
    total
}

#[unsafe(no_mangle)]
pub extern "C" fn esync_bench_watch_send_and_read(messages: &[u32], woken: &mut [u64]) -> u64 {
    send_and_read(&mut State::new(), messages, woken, &Turn::new())
}

#[unsafe(no_mangle)]
pub extern "C" fn esync_bench_watch_wait_and_wake(messages: &[u32], woken: &mut [u64]) -> u64 {
    wait_and_wake(&mut State::new(), messages, woken, &Turn::new())
}
