use super::bell::Bell;
use embassy_sync::mutex::Mutex;
use embassy_sync::waitqueue::{Context, Poll};
use std::io;
use std::sync::Wait;

/// A value that one task at a time may use, also while that task waits for another event.
pub fn example<R: Print + Wait>(rt: &R) -> io::Result<()> {
    let bell = Bell::new(rt);
    let mutex = Mutex::new(5u32, &bell);
    let (first, second) = (Context::from_waker(1), Context::from_waker(2));
    let Poll::Ready(mut guard) = mutex.lock().poll(&first) else {
        return println!(rt; "mutex: it is locked");
    };
    let waits = matches!(mutex.lock().poll(&second), Poll::Pending);
    *guard.get_mut() = 6;
    guard.end();
    let woken = bell.rung_for();
    match mutex.lock().poll(&second) {
        Poll::Ready(guard) => {
            let value = *guard.get();
            println!(rt; "mutex: waits {waits}, to wake {woken:?}, {value}")
        }
        Poll::Pending => println!(rt; "mutex: it is locked"),
    }
}
