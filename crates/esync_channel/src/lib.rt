//! A queue for sending values between tasks.
#![tactic(auto)]

pub mod channel;
