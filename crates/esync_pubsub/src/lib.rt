//! Pub-sub channels: each message reaches all who subscribed before it was published.
#![tactic(auto)]

pub mod pubsub;
