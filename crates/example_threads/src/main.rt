//! Threads, and tasks on threads, that share primitives and sleep while they wait.
#![tactic(auto)]

mod exchange;
mod service;
mod workers;

use std::io;

fn main(rt: HostRuntime) -> io::Result<()> {
    exchange::example(&rt)?;
    workers::example(&rt, rt.alloc())?;
    service::example(&rt)
}
