//! Primitives on one task, in their state form and in their shared form: a file for each example, to be copied from. It
//! prints what each call returned and which tasks are to be woken.
#![tactic(auto)]

mod shared;
mod state;

use std::io;

fn main(rt: HostRuntime) -> io::Result<()> {
    state::channel::example(&rt)?;
    state::config::example(&rt)?;
    shared::pool::example(&rt)?;
    shared::channel::example(&rt)?;
    shared::priority_channel::example(&rt)?;
    shared::pipe::example(&rt)?;
    shared::signal::example(&rt)?;
    shared::once_lock::example(&rt)?;
    shared::lazy_lock::example(&rt)?;
    shared::mutex::example(&rt)?;
    shared::watch::example(&rt)?;
    shared::pubsub::example(&rt)?;
    shared::zerocopy_channel::example(&rt, rt.alloc())
}
