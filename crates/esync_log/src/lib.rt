//! The log of a pub-sub channel: messages with consecutive numbers, and how far each subscriber has read.
#![tactic(auto)]

pub mod log;
