//! Wakers, where they are registered and handed out, and the queues and rings on which channels and pipes stand.
#![tactic(auto)]

pub mod blocking_mutex;
pub mod deque;
pub mod extent;
pub mod kept;
pub mod limited;
pub mod place;
pub mod ring_buffer;
pub mod shared;
pub mod store;
pub mod waitqueue;
