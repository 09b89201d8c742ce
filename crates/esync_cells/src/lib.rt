//! Primitives that hold one value.
#![tactic(auto)]

pub mod lazy_lock;
pub mod once_lock;
pub mod signal;
pub mod watch;
