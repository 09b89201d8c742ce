//! A queue for sending values between tasks, in which the greatest or the least leaves first.
#![tactic(auto)]

pub mod prio;
pub mod priority_channel;
