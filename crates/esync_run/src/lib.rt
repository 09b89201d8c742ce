//! The primitives as machines that take commands, and the core of runs.
//!
//! Each module re-exports a module of a crate below, in which a primitive's machine stands beside its state.
#![tactic(auto)]

pub use esync_cells::lazy_lock::machine as lazy_lock;
pub use esync_cells::once_lock::machine as once_lock;
pub use esync_cells::signal::machine as signal;
pub use esync_cells::watch::machine as watch;
pub use esync_channel::channel::machine as channel;
pub use esync_guards::mutex::machine as mutex;
pub use esync_machine::{primitive, requests, run};
pub use esync_permits::semaphore::machine as semaphore;
pub use esync_pipe::bytes;
pub use esync_pipe::pipe::machine as pipe;
pub use esync_priority::priority_channel::machine as priority_channel;
pub use esync_pubsub::pubsub::machine as pubsub;
pub use esync_zerocopy::zerocopy_channel::machine as zerocopy_channel;
