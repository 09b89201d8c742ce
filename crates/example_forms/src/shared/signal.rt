use super::bell::Bell;
use embassy_sync::signal::Signal;
use embassy_sync::waitqueue::Context;
use std::io;
use std::sync::Wait;

#[derive(Debug, Drop)]
enum SomeCommand {
    On,
    Off,
}

/// A command that a later one replaces: a task that waits reads the newest.
pub fn example<R: Print + Wait>(rt: &R) -> io::Result<()> {
    let bell = Bell::new(rt);
    let some_signal: Signal<SomeCommand, u64, _> = Signal::new(&bell);
    let task = Context::from_waker(1);
    let mut waiting = some_signal.wait();
    let waits = waiting.poll(&task);
    some_signal.signal(SomeCommand::On);
    some_signal.signal(SomeCommand::Off);
    let woken = bell.rung_for();
    let newest = waiting.poll(&task);
    println!(rt; "signal: {waits:?}, to wake {woken:?}, {newest:?}")
}
