//! The greedy and the fair semaphore: permits, and the requests that wait for them.
#![tactic(auto)]

pub mod queue;
pub mod semaphore;
