//! Texts of which there is no memory for a clone.
use crate::again;
use crate::memory::says_refused;
use esync_base::waitqueue::Wakes;
use esync_cells::watch::WatchState;
use esync_notes::{holds, same};
use esync_pubsub::pubsub::{PubSubState, SubId, WaitResult};
use std::alloc::{AllocError, Global};
use std::process::Abort;
use std::test::Fail;

type Topic = PubSubState<String, u64, 2, 2, 1>;

// Publishes a text at once. Nobody waits for it.
fn publishes(
    rt: &(impl Abort + Print),
    alloc: Global,
    topic: &mut Topic,
    text: &str,
) -> Result<(), AllocError> {
    let mut wakes: Wakes<u64, 2> = Wakes::new();
    let message = again!(rt; String::from_str(alloc, text));
    holds!(*rt; topic.publish_immediate(message, &mut wakes).is_ok());
    Ok(())
}

// So many messages are left to the subscriber, and so many are held.
fn has(rt: &impl Abort, topic: &Topic, id: &SubId, available: u64, held: usize) {
    assert!(rt; topic.is_subscriber(id));
    same!(*rt; topic.available(id), available);
    same!(*rt; topic.len(), held);
}

// A read gives this text.
fn reads(rt: &impl Abort, topic: &mut Topic, id: &SubId, text: &str) -> Result<(), AllocError> {
    let mut wakes: Wakes<u64, 2> = Wakes::new();
    assert!(rt; topic.is_subscriber(id));
    match topic.try_next_message(id, &mut wakes)? {
        Some(WaitResult::Message(message)) => same!(*rt; message.as_str(), text),
        _ => rt.abort(),
    }
    Ok(())
}

// The first of two reads a clone, which may be refused. The second one takes the message itself, for which no memory is asked.
fn both_read<R: Abort + Print>(
    rt: &R,
    topic: &mut Topic,
    first: &SubId,
    second: &SubId,
) -> Result<(), AllocError> {
    if reads(rt, topic, first, "x").is_err() {
        says_refused(rt);
        has(rt, topic, first, 1, 1);
        reads(rt, topic, first, "x")?;
    }
    reads(rt, topic, second, "x")?;
    has(rt, topic, second, 0, 0);
    Ok(())
}

#[test]
fn a_refused_clone_of_a_text_moves_no_subscriber(rt: HostRuntime) -> Result<(), AllocError> {
    let mut topic: Topic = PubSubState::new();
    let (Ok(first), Ok(second)) = (topic.subscribe(), topic.subscribe()) else {
        rt.abort()
    };
    let mut wakes: Wakes<u64, 2> = Wakes::new();
    let message = again!(&rt; String::from_str(rt.alloc(), "x"));
    holds!(rt; topic.try_publish(message, &mut wakes).is_ok());
    both_read(&rt, &mut topic, &first, &second)
}

// A read of the subscriber hears that it missed one message, and leaves it two.
fn hears_of_one(rt: &impl Abort, topic: &mut Topic, id: &SubId) {
    let mut wakes: Wakes<u64, 2> = Wakes::new();
    assert!(rt; topic.is_subscriber(id));
    let heard = topic.try_next_message(id, &mut wakes);
    holds!(*rt; matches!(heard, Ok(Some(WaitResult::Lagged(1)))));
    has(rt, topic, id, 2, 2);
}

// A pure read passes over the lag of one message. Where its clone is refused, the lag is left.
fn lags<R: Abort + Print>(rt: &R, topic: &mut Topic, id: &SubId) {
    let mut wakes: Wakes<u64, 2> = Wakes::new();
    assert!(rt; topic.is_subscriber(id));
    match topic.try_next_message_pure(id, &mut wakes) {
        Ok(Some(message)) => {
            same!(*rt; message.as_str(), "q");
            has(rt, topic, id, 1, 2);
        }
        Err(AllocError) => {
            says_refused(rt);
            has(rt, topic, id, 3, 2);
            hears_of_one(rt, topic, id);
        }
        Ok(None) => rt.abort(),
    }
}

#[test]
fn a_refused_pure_read_of_a_text_leaves_its_lag(rt: HostRuntime) -> Result<(), AllocError> {
    let mut topic: Topic = PubSubState::new();
    let (Ok(first), Ok(_second)) = (topic.subscribe(), topic.subscribe()) else {
        rt.abort()
    };
    for text in ["p", "q", "r"] {
        publishes(&rt, rt.alloc(), &mut topic, text)?;
    }
    lags(&rt, &mut topic, &first);
    Ok(())
}

// The value that was found is this text.
fn is(rt: &impl Abort, found: Option<String>, text: Option<&str>) {
    holds!(*rt; found.as_ref().map(|found| found.as_str()) == text);
}

#[test]
fn a_refused_clone_of_a_text_is_not_seen(rt: HostRuntime) -> Result<(), Fail> {
    let mut watch: WatchState<String, u64, 1> = WatchState::new();
    let mut wakes: Wakes<u64, 1> = Wakes::new();
    let text = again!(&rt; String::from_str(rt.alloc(), "v"));
    holds!(rt; watch.send(text, &mut wakes).is_ok());
    let mut seen = 0;
    match watch.try_get(&mut seen) {
        Ok(found) => {
            is(&rt, found, Some("v"));
            is(&rt, watch.try_changed(&mut seen)?, None);
        }
        Err(AllocError) => {
            says_refused(&rt);
            is(&rt, watch.try_changed(&mut seen)?, Some("v"));
        }
    }
    Ok(())
}
