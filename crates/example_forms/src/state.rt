//! The state form: one owner calls it, and wakes the tasks that it lists.
pub mod channel;
pub mod config;
