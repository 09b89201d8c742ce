//! Scripts that are played over the shared forms, in place of the machines, and compared with them. A form is called by
//! its own calls and by its handles in turn, as its user would write it.
#![tactic(auto)]

mod channel;
pub mod compare;
pub mod form;
mod mutex;
mod once;
mod over;
mod pipe;
pub mod play;
mod pubsub;
mod semaphore;
mod signal;
mod watch;
mod zerocopy;
