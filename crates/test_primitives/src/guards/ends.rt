//! A guard ends in two steps: the value goes back, and then the state is told. Here another thread tries the lock and polls before
//! the second, each time and not by luck. That they come in this order `who_is_woken_can_lock_at_once` shows.
use crate::stopping::{ENDED, Marks, RUNS, STANDS, STOPS, Stopping};
use esync_base::waitqueue::{Context, Hand, Poll};
use esync_guards::mutex::Mutex;
use esync_notes::{holds, same};
use std::sync::Wait;
use std::sync::atomic::Ordering;
use std::thread;

// The waker of the poll between the two steps.
const BETWEEN: u64 = 100;

// The waker of the poll after them.
const AFTER: u64 = 10_000;

// Writes 11 under the lock, and is stopped between the two steps of the guard's end.
fn writes_first<H: Hand<u64>>(marks: &Marks, mutex: &Mutex<u32, u64, H>) {
    let guard = mutex.try_lock();
    marks.set(STOPS);
    if let Ok(mut guard) = guard {
        *guard.get_mut() = 11;
        guard.end();
    }
    marks.set(ENDED);
}

// Whether a poll of a request for the lock is answered Ready.
fn is_locked_by<H: Hand<u64>>(mutex: &Mutex<u32, u64, H>, waker: u64) -> bool {
    match mutex.lock().poll(&Context::from_waker(waker)) {
        Poll::Ready(guard) => {
            guard.end();
            true
        }
        Poll::Pending => false,
    }
}

// What is heard between the two steps: whether a try wins the lock, whether a poll does, and the wakers that were handed out.
fn tries_between<H: Hand<u64>>(
    rt: &impl Wait,
    marks: &Marks,
    mutex: &Mutex<u32, u64, H>,
) -> (bool, bool, u64) {
    marks.awaits(rt, STANDS);
    let is_tried = mutex.try_lock().is_ok();
    let is_polled = is_locked_by(mutex, BETWEEN);
    let given = marks.given.load(Ordering::SeqCst);
    marks.set(RUNS);
    marks.awaits(rt, ENDED);
    (is_tried, is_polled, given)
}

#[test]
fn a_mutex_is_locked_until_its_state_is_told(rt: HostRuntime) {
    let marks = Marks::new();
    let mutex = Mutex::new(
        0u32,
        Stopping {
            rt: &rt,
            marks: &marks,
        },
    );
    let (heard, _) = thread::join(
        &rt,
        || tries_between(&rt, &marks, &mutex),
        || writes_first(&marks, &mutex),
    );
    same!(rt; heard, (false, false, 0));
    same!(rt; marks.given.load(Ordering::SeqCst), BETWEEN);
    holds!(rt; is_locked_by(&mutex, AFTER));
    same!(rt; mutex.into_inner(), 11);
}
