//! The shared form: tasks call it through `&self`, and it gives the wakers to their hand, here a [`Bell`](bell::Bell).
//! Except for the pool, these examples show what upstream's documentation shows of each primitive, written anew.
mod bell;
pub mod channel;
pub mod lazy_lock;
pub mod mutex;
pub mod once_lock;
pub mod pipe;
pub mod pool;
pub mod priority_channel;
pub mod pubsub;
pub mod signal;
pub mod watch;
pub mod zerocopy_channel;
