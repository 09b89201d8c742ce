//! Whole runs: tasks on the executor, and the journal of a channel that threads call.
#![tactic(auto)]

mod journal;
mod tasks;

use std::io;

fn main(rt: HostRuntime) -> io::Result<()> {
    tasks::example(&rt, rt.alloc())?;
    journal::example(&rt, rt.alloc())
}
