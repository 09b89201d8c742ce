//! The shared semaphores: a fair one without places, and calls by name that a drop does as well.
use esync_base::waitqueue::{Context, Hand, Poll};
use esync_notes::{Notes, holds, same};
use esync_permits::semaphore::{Acquire, FairSemaphore, PermitState, SharedSemaphore};
use std::process::Abort;
use std::sync::Wait;

// The hand was given no waker since it was last asked.
fn told_nobody<R: Wait + Abort>(notes: &Notes<'_, R>) {
    holds!(notes.rt(); notes.are(&[]));
}

// The last poll of a request, which is granted all permits that are there, this number, and gives them back. Nobody is told.
fn has_its_turn<S: PermitState<Waker = u64>, H: Hand<u64>, R: Wait + Abort>(
    notes: &Notes<'_, R>,
    semaphore: &SharedSemaphore<S, u64, H>,
    mut request: Acquire<'_, S, u64, H>,
    permits: usize,
) {
    holds!(notes.rt(); !request.is_finished());
    let releaser = match request.poll(&Context::from_waker(1)) {
        Poll::Ready(Ok(releaser)) => releaser,
        _ => notes.rt().abort(),
    };
    holds!(notes.rt(); request.is_finished());
    same!(notes.rt(); releaser.permits(), permits);
    same!(notes.rt(); semaphore.permits(), 0);
    releaser.end();
    same!(notes.rt(); semaphore.permits(), permits);
    told_nobody(notes);
}

// The last poll of a request, which hears an error: the only one is that there is no place. It hands out nothing.
fn is_refused<S: PermitState<Waker = u64>, H: Hand<u64>, R: Wait + Abort>(
    notes: &Notes<'_, R>,
    mut request: Acquire<'_, S, u64, H>,
) {
    holds!(notes.rt(); !request.is_finished());
    match request.poll(&Context::from_waker(1)) {
        Poll::Ready(Err(_)) => told_nobody(notes),
        _ => notes.rt().abort(),
    }
    holds!(notes.rt(); request.is_finished());
}

// Of a semaphore of one permit without a place.
fn is_refused_again<S: PermitState<Waker = u64>, H: Hand<u64>, R: Wait + Abort>(
    notes: &Notes<'_, R>,
    semaphore: &SharedSemaphore<S, u64, H>,
) {
    is_refused(notes, semaphore.acquire(2));
    is_refused(notes, semaphore.acquire(2));
    semaphore.acquire(2).end();
    has_its_turn(notes, semaphore, semaphore.acquire(1), 1);
}

#[test]
fn nobody_waits_where_there_are_no_places(rt: HostRuntime) {
    let notes = Notes::new(&rt);
    is_refused_again(&notes, &FairSemaphore::<u64, _, 0>::new(1, &notes));
}
