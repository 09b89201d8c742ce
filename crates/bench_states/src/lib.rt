//! Batches of calls on the state forms, for a program that times them beside upstream's.
//!
//! Each export takes one pass over the messages that it is given: each goes in and comes out again. It returns the sum of what
//! came out, which is the sum of what went in, and counts in `woken` how often each task was woken.
#![tactic(auto)]

mod carrier;
pub mod channel;
pub mod fair;
pub mod greedy;
pub mod mutex;
pub mod once;
pub mod pipe;
mod pool;
pub mod priority;
pub mod pubsub;
pub mod signal;
pub mod sizes;
pub mod tasks;
pub mod watch;
