use super::steps::{Two, joins};
use esync_base::waitqueue::{Context, Poll, Wakes};
use esync_notes::{holds, same};
use esync_pubsub::pubsub::{PubSubState, SubId, WaitResult};
use std::alloc::AllocError;
use std::process::Abort;

#[test]
fn a_state_shows_its_messages_and_who_waits(rt: HostRuntime) -> Result<(), AllocError> {
    let mut state: Two<u32, 2> = PubSubState::new();
    let _id = joins(&rt, &mut state);
    let mut wakes: Wakes<u64, 2> = Wakes::new();
    holds!(rt; state.publish_immediate(7, &mut wakes).is_ok());
    same!(rt; state.free_capacity(), 1);
    let shown = format!(in rt.alloc(); "{state:?}")?;
    holds!(rt; shown.contains("messages: [7]"));
    Ok(())
}

// A channel at which one waker can be registered for messages.
type One = PubSubState<u32, u64, 2, 1, 1>;

// A poll for the next message of the subscriber. It hands out this waker alone, or none.
fn polls(
    rt: &impl Abort,
    state: &mut One,
    id: &SubId,
    waker: u64,
    answer: Poll<WaitResult<u32>>,
    woken: Option<u64>,
) {
    let mut wakes: Wakes<u64, 1> = Wakes::new();
    assert!(rt; state.is_subscriber(id));
    let polled = state.get_message_with_context(id, &Context::from_waker(waker), &mut wakes);
    holds!(*rt; polled == Ok(answer));
    same!(*rt; wakes.as_slice(), [woken].as_slice());
}

// Two requests wait for a message of the subscriber.
fn two_wait(rt: &impl Abort, state: &mut One, id: &SubId) {
    polls(rt, state, id, 1, Poll::Pending, None);
    polls(rt, state, id, 2, Poll::Pending, Some(1));
    let mut wakes: Wakes<u64, 1> = Wakes::new();
    holds!(*rt; state.try_publish(5, &mut wakes) == Ok(()));
    same!(*rt; wakes.as_slice(), [Some(2)].as_slice());
    polls(rt, state, id, 2, Poll::Ready(WaitResult::Message(5)), None);
    polls(rt, state, id, 1, Poll::Pending, None);
}

#[test]
fn a_request_displaces_another_where_one_may_wait(rt: HostRuntime) {
    let mut state: One = PubSubState::new();
    match state.subscribe() {
        Ok(id) => two_wait(&rt, &mut state, &id),
        Err(_full) => rt.abort(),
    }
}

#[test]
fn a_state_counts_who_has_still_to_read(rt: HostRuntime) -> Result<(), AllocError> {
    let mut state: Two<u32, 2> = PubSubState::new();
    let _first = joins(&rt, &mut state);
    let mut wakes: Wakes<u64, 2> = Wakes::new();
    holds!(rt; state.publish_immediate(7, &mut wakes).is_ok());
    let _second = joins(&rt, &mut state);
    let mut wakes: Wakes<u64, 2> = Wakes::new();
    holds!(rt; state.publish_immediate(8, &mut wakes).is_ok());
    same!(rt; state.reader_count(0), Some(1));
    same!(rt; state.reader_count(1), Some(2));
    same!(rt; state.reader_count(2), None);
    Ok(())
}

// Whether a subscriber is given this text itself.
fn is_passed_on(text: &str) -> Result<bool, AllocError> {
    let mut state: PubSubState<&str, u64, 2, 1, 1> = PubSubState::new();
    let mut wakes: Wakes<u64, 1> = Wakes::new();
    let Ok(id) = state.subscribe() else {
        return Ok(false);
    };
    let is_published = state.publish_immediate(text, &mut wakes).is_ok();
    let read = state.try_next_message(&id, &mut wakes)?;
    Ok(is_published && read == Some(WaitResult::Message(text)))
}

#[test]
fn a_message_may_borrow(rt: HostRuntime) -> Result<(), AllocError> {
    let text = format!(in rt.alloc(); "tick {}", 7)?;
    holds!(rt; is_passed_on(text.as_str())?);
    Ok(())
}
