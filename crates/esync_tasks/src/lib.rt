//! Tasks that wait: futures, threads that block on one, and a runtime that polls the tasks that were woken.
//!
//! A thread takes a seat of a `Parking` and blocks on a future. Many tasks run on a `Runtime`, on one thread or on
//! several. A `Parking` and a `Runtime` are hands of the shared forms that their threads or tasks use, and `Split`
//! makes one hand of two.
//!
//! Nothing is claimed of progress, fairness or time: that threads run, that sleeps end and that each task gets its turn
//! is only tested.
#![tactic(auto)]

pub mod forms;
pub mod future;
pub mod parking;
pub mod run_queue;
pub mod runtime;
