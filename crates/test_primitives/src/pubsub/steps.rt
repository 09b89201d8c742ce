//! Calls of a state that messages of any type share.
//!
//! What a call requires is asserted by a branch: the search doesn't find it behind `holds!`.
use esync_notes::same;
use esync_pubsub::pubsub::{PubSubState, SubId};
use std::process::Abort;

/// A channel with two places for subscribers and two for publishers.
pub type Two<T, const CAP: usize> = PubSubState<T, u64, CAP, 2, 2>;

/// A subscriber comes.
pub fn joins<T: Clone, const CAP: usize>(rt: &impl Abort, state: &mut Two<T, CAP>) -> SubId {
    match state.subscribe() {
        Ok(id) => id,
        Err(_full) => rt.abort(),
    }
}

/// How many messages a subscriber has not read.
pub fn has<T: Clone, const CAP: usize>(
    rt: &impl Abort,
    state: &Two<T, CAP>,
    id: &SubId,
    available: u64,
) {
    assert!(rt; state.is_subscriber(id));
    same!(rt; state.available(id), available);
}
