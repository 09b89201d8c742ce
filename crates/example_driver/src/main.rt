//! Parts of drivers: readings of which the newest is never lost, the buffer of a UART, and an interrupt beside a driver that sleeps.
#![tactic(auto)]

mod interrupt;
mod readings;
mod uart;

use std::io;

fn main(rt: HostRuntime) -> io::Result<()> {
    readings::example(&rt)?;
    uart::example(&rt)?;
    interrupt::example(&rt)
}
