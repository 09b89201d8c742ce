//! The mutex: a value that one task at a time may use, through a guard.
#![tactic(auto)]

pub mod mutex;
