//! What no recorded run says of semaphores: polls of a greedy state that are no requests, and a fair one at which nobody can wait.
use crate::wakers::hands_out;
use esync_base::waitqueue::{Context, Poll, Wakes};
use esync_notes::{holds, same};
use esync_permits::semaphore::{FairPoll, FairState, GreedyState, WaitQueueFull};
use std::process::Abort;

// A poll for at least 2 permits with waker 2.
fn polls_for_all(
    rt: &impl Abort,
    state: &mut GreedyState<u64>,
    answer: Poll<usize>,
    woken: Option<u64>,
) {
    let mut wakes = Wakes::new();
    holds!(rt; state.poll_acquire_all(2, &Context::from_waker(2), &mut wakes) == answer);
    hands_out(rt, &wakes, woken);
}

#[test]
fn a_greedy_poll_for_all(rt: HostRuntime) {
    let mut state: GreedyState<u64> = GreedyState::new(0);
    let mut wakes = Wakes::new();
    holds!(rt; state.poll_acquire(1, &Context::from_waker(1), &mut wakes) == Poll::Pending);
    hands_out(&rt, &wakes, None);
    polls_for_all(&rt, &mut state, Poll::Pending, Some(1));
    state.set(4, &mut wakes);
    same!(rt; state.permits(), 4);
    hands_out(&rt, &wakes, Some(2));
    polls_for_all(&rt, &mut state, Poll::Ready(4), None);
}

type NoPlaces = FairState<u64, 0>;

// A poll for this number of permits by one that has no place, and gets none.
fn polls_without_a_place(
    rt: &impl Abort,
    state: &mut NoPlaces,
    permits: usize,
    answer: Result<usize, WaitQueueFull>,
) {
    let mut wakes: Wakes<u64, 1> = Wakes::new();
    let polled = state.poll_acquire(permits, None, &Context::from_waker(1), &mut wakes);
    holds!(rt; polled == FairPoll::Ready(answer));
    hands_out(rt, &wakes, None);
}

#[test]
fn nobody_waits_where_there_are_no_places(rt: HostRuntime) {
    let mut state: NoPlaces = FairState::new(1);
    let mut wakes: Wakes<u64, 1> = Wakes::new();
    polls_without_a_place(&rt, &mut state, 2, Err(WaitQueueFull));
    let polled = state.poll_acquire_all(1, None, &Context::from_waker(1), &mut wakes);
    holds!(rt; polled == FairPoll::Ready(Ok(1)));
    polls_without_a_place(&rt, &mut state, 1, Err(WaitQueueFull));
    state.release(2, &mut wakes);
    hands_out(&rt, &wakes, None);
    polls_without_a_place(&rt, &mut state, 2, Ok(2));
}
