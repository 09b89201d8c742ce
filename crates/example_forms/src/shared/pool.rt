use super::bell::Bell;
use embassy_sync::semaphore::GreedySemaphore;
use embassy_sync::waitqueue::{Context, Poll};
use std::io;
use std::sync::Wait;

/// A pool of two connections: a semaphore with a permit for each. A task that gets none waits, and is woken when one comes back.
pub fn example<R: Print + Wait>(rt: &R) -> io::Result<()> {
    let bell = Bell::new(rt);
    let pool = GreedySemaphore::new(2, &bell);
    let first = pool.try_acquire(1);
    let second = pool.try_acquire(1);
    let (is_first, is_second) = (first.is_some(), second.is_some());
    println!(rt; "connected: {is_first} {is_second}")?;

    // Task 3 finds no connection.
    let mut third = pool.acquire(1);
    let waits = matches!(third.poll(&Context::from_waker(3)), Poll::Pending);
    println!(rt; "task 3 waits: {waits}")?;

    // A connection comes back, and the bell rings for task 3.
    if let Some(first) = first {
        first.end();
    }
    let rung_for = bell.rung_for();
    println!(rt; "rung for: {rung_for:?}")?;
    if let Some(second) = second {
        second.end();
    }
    Ok(())
}
