use embassy_sync::lazy_lock::LazyLock;
use std::io;
use std::sync::Wait;

/// A value that its closure makes at the first access.
pub fn example<R: Print + Wait>(rt: &R) -> io::Result<()> {
    let value = LazyLock::new(|| 20u32);
    let reference = value.get(rt);
    println!(rt; "lazy_lock: {reference}")
}
