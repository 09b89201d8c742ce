//! Recordings of a machine's calls, and an executor of tasks over any machine.
#![tactic(auto)]

pub mod act;
pub mod executor;
mod queue;
pub mod recorded;
mod replies;
pub mod suited;
mod task;
mod turn;
