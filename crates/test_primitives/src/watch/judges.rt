//! How often a poll of a shared watch asks the caller's test: once, of a value that it may show.
use super::story::Watched;
use esync_base::waitqueue::Poll;
use esync_notes::{Notes, same};
use std::sync::atomic::AtomicU64;
use std::sync::atomic::Ordering::SeqCst;

#[test]
fn a_get_asks_once_of_a_value(rt: HostRuntime) {
    let notes = Notes::new(&rt);
    let watch = Watched::new(&rt, &notes);
    let mut receiver = watch.receiver();
    let calls = AtomicU64::new(0);
    let mut get = receiver.get_and(|x| {
        calls.fetch_add(1, SeqCst);
        *x > 7
    });
    get.poll(1, Poll::Pending);
    same!(rt; calls.load(SeqCst), 0);
    watch.send(5);
    get.poll(1, Poll::Pending);
    same!(rt; calls.load(SeqCst), 1);
    watch.send(10);
    get.poll(1, Poll::Ready(10));
    same!(rt; calls.load(SeqCst), 2);
}

#[test]
fn a_change_asks_once_of_news(rt: HostRuntime) {
    let notes = Notes::new(&rt);
    let watch = Watched::new_with(&rt, 10, &notes);
    let mut receiver = watch.receiver();
    let calls = AtomicU64::new(0);
    let mut changed = receiver.changed_and(|x| {
        calls.fetch_add(1, SeqCst);
        *x > 7
    });
    changed.poll(1, Poll::Pending);
    same!(rt; calls.load(SeqCst), 0);
    watch.send(5);
    changed.poll(1, Poll::Pending);
    same!(rt; calls.load(SeqCst), 1);
    watch.send(10);
    changed.poll(1, Poll::Ready(10));
    same!(rt; calls.load(SeqCst), 2);
    changed.poll(1, Poll::Pending);
    same!(rt; calls.load(SeqCst), 2);
}
