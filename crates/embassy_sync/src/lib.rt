//! Synchronization primitives for polled tasks, under upstream's paths.
//!
//! Each module re-exports a module of a crate below. `run` has the primitives as machines that take commands, and
//! `executor` runs tasks over any such machine.
#![tactic(auto)]

pub use esync_base::{blocking_mutex, deque, limited, ring_buffer, shared, store, waitqueue};
pub use esync_cells::{lazy_lock, once_lock, signal, watch};
pub use esync_channel::channel;
pub use esync_guards::mutex;
pub use esync_history::{executor, recorded};
pub use esync_permits::semaphore;
pub use esync_pipe::pipe;
pub use esync_priority::{prio, priority_channel};
pub use esync_pubsub::pubsub;
pub use esync_run as run;
pub use esync_zerocopy::zerocopy_channel;
