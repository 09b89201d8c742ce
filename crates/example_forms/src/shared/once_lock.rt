use super::bell::Bell;
use embassy_sync::once_lock::OnceLock;
use embassy_sync::waitqueue::Context;
use std::io;
use std::sync::Wait;

/// A value that is made when a call first asks for it, and then stays. A task that waits for it then reads it.
pub fn example<R: Print + Wait>(rt: &R) -> io::Result<()> {
    let bell = Bell::new(rt);
    let value: OnceLock<u32, u64, _> = OnceLock::new(&bell);
    let reference = value.get_or_init(|| 20);
    let awaited = value.get().poll(&Context::from_waker(1));
    println!(rt; "once_lock: {reference}, {awaited:?}")
}
