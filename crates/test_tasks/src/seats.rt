// Seats, the sleep of a thread, and two futures as one.
use crate::acts::{SleepsOnce, yielding};
use esync_base::waitqueue::{Context, Hand, Poll, TaskId};
use esync_cells::signal::Signal;
use esync_notes::{holds, same};
use esync_permits::semaphore::FairSemaphore;
use esync_tasks::future::{Either, Future, join, select};
use esync_tasks::parking::{Parking, Seat, Split};
use std::sync::Wait;
use std::sync::atomic::{AtomicBool, Ordering};
use std::thread;
use std::time::{Clock, Duration};

#[test]
fn a_seat_is_taken_once(rt: HostRuntime) {
    let parking: Parking<'_, HostRuntime, 2> = Parking::new(&rt);
    let seat = parking.seat(1).expect(&rt, "the seat is free");
    same!(rt; seat.task(), TaskId(1));
    holds!(rt; parking.seat(1).is_none());
    holds!(rt; parking.seat(0).is_some());
    holds!(rt; parking.seat(2).is_none());
    drop(seat);
    holds!(rt; parking.seat(1).is_some());
}

// Blocks at seat 1 on a future that wakes the seat in each poll but the last, and says how often it was polled.
fn yields_at<R: Wait>(parking: &Parking<'_, R, 2>, is_over: &AtomicBool) -> u64 {
    let mut polls = 0;
    if let Some(mut seat) = parking.seat(1) {
        polls = seat.block_on(yielding(&parking, 100));
    }
    is_over.store(true, Ordering::SeqCst);
    polls
}

// Looks for five seconds whether the other thread has ended, and wakes it from then on. Says whether it had to.
fn rescues<R: Wait + Clock>(rt: &R, parking: &Parking<'_, R, 2>, is_over: &AtomicBool) -> bool {
    for look in 0..10_000u32 {
        if is_over.load(Ordering::SeqCst) {
            return look > 5_000;
        }
        thread::sleep(rt, Duration::from_millis(1));
        if look >= 5_000 {
            parking.wake(TaskId(1));
        }
    }
    true
}

// A thread that lost one of the wakes would sleep until another rescues it.
#[test]
fn a_wake_before_the_sleep_ends_it(rt: HostRuntime) {
    let parking: Parking<'_, HostRuntime, 2> = Parking::new(&rt);
    let is_over = AtomicBool::new(false);
    let (polls, was_rescued) = thread::join(
        &rt,
        || yields_at(&parking, &is_over),
        || rescues(&rt, &parking, &is_over),
    );
    same!(rt; polls, 101);
    holds!(rt; !was_rescued);
}

#[test]
fn a_waker_of_no_seat_wakes_nobody(rt: HostRuntime) {
    let parking: Parking<'_, HostRuntime, 2> = Parking::new(&rt);
    let hand = &parking;
    hand.wake(TaskId(2));
    hand.wake(TaskId(u64::MAX));
}

// What the signals give, of which the first has another value by the time that the second has one.
fn join_signals<H: Hand<TaskId>>(
    first: &Signal<u32, TaskId, H>,
    second: &Signal<u32, TaskId, H>,
) -> Poll<(u32, u32)> {
    let cx = Context::from_waker(TaskId(0));
    let mut both = join(first.wait(), second.wait());
    first.signal(1);
    let answer = both.poll(&cx);
    if matches!(answer, Poll::Ready(_)) {
        return answer;
    }
    first.signal(3);
    second.signal(2);
    both.poll(&cx)
}

#[test]
fn a_join_keeps_the_first_output(rt: HostRuntime) {
    let parking: Parking<'_, HostRuntime, 1> = Parking::new(&rt);
    let first = Signal::new(&parking);
    let second = Signal::new(&parking);
    same!(rt; join_signals(&first, &second), Poll::Ready((1, 2)));
    same!(rt; first.try_take(), Some(3));
}

// What of two signals is there first, where both have a value.
fn select_signals<H: Hand<TaskId>>(
    first: &Signal<u32, TaskId, H>,
    second: &Signal<u32, TaskId, H>,
) -> [Poll<Either<u32, u32>>; 3] {
    let cx = Context::from_waker(TaskId(0));
    first.signal(1);
    second.signal(2);
    let one = select(first.wait(), second.wait()).poll(&cx);
    let other = select(first.wait(), second.wait()).poll(&cx);
    [one, other, select(first.wait(), second.wait()).poll(&cx)]
}

#[test]
fn a_select_polls_the_first_first(rt: HostRuntime) {
    let parking: Parking<'_, HostRuntime, 1> = Parking::new(&rt);
    let first = Signal::new(&parking);
    let second = Signal::new(&parking);
    let answers = select_signals(&first, &second);
    let expected = [
        Poll::Ready(Either::First(1)),
        Poll::Ready(Either::Second(2)),
        Poll::Pending,
    ];
    same!(rt; answers, expected);
}

// Waits for a permit or the signal, and says whether the signal came.
fn is_stopped<H: Hand<TaskId>>(
    pool: &FairSemaphore<TaskId, H, 1>,
    stop: &Signal<(), TaskId, H>,
) -> bool {
    let cx = Context::from_waker(TaskId(0));
    let mut either = select(pool.acquire(1), stop.wait());
    let waits = matches!(either.poll(&cx), Poll::Pending);
    stop.signal(());
    waits && matches!(either.poll(&cx), Poll::Ready(Either::Second(())))
}

// A request that still stood in the queue would be granted the permit, and hold it back from others.
#[test]
fn a_select_ends_the_other_request(rt: HostRuntime) {
    let parking: Parking<'_, HostRuntime, 1> = Parking::new(&rt);
    let pool: FairSemaphore<TaskId, _, 1> = FairSemaphore::new(0, &parking);
    let stop = Signal::new(&parking);
    holds!(rt; is_stopped(&pool, &stop));
    pool.release(1);
    let granted = match pool.try_acquire(1) {
        Some(releaser) => releaser.disarm(),
        None => 0,
    };
    same!(rt; granted, 1);
}

fn poll_lent<F: Future<TaskId>>(mut future: F) -> Poll<F::Output>
    requires { F.can_poll future }
{
    future.poll(&Context::from_waker(TaskId(0)))
}

// A future that is lent is polled, and can be polled again.
fn lend<H: Hand<TaskId>>(signal: &Signal<u32, TaskId, H>) -> [Poll<u32>; 2] {
    let mut wait = signal.wait();
    let waits = poll_lent(&mut wait);
    signal.signal(7);
    [waits, poll_lent(&mut wait)]
}

#[test]
fn a_future_is_lent(rt: HostRuntime) {
    let parking: Parking<'_, HostRuntime, 1> = Parking::new(&rt);
    let signal = Signal::new(&parking);
    same!(rt; lend(&signal), [Poll::Pending, Poll::Ready(7)]);
}

// Whether the thread's sleep ends, that a hand woke before.
fn wakes<R: Wait>(seat: &mut Seat<'_, R>) -> bool {
    seat.block_on(SleepsOnce { has_slept: false })
}

#[test]
fn a_split_wakes_by_either_hand(rt: HostRuntime) {
    let left: Parking<'_, HostRuntime, 2> = Parking::new(&rt);
    let right: Parking<'_, HostRuntime, 2> = Parking::new(&rt);
    let hand = Split::new(&left, 2, &right);
    same!(rt; hand.side(TaskId(1)), Either::First(TaskId(1)));
    same!(rt; hand.side(TaskId(2)), Either::Second(TaskId(0)));
    hand.wake(TaskId(1));
    hand.wake(TaskId(2));
    holds!(rt; wakes(&mut left.seat(1).expect(&rt, "the seat is free")));
    holds!(rt; wakes(&mut right.seat(0).expect(&rt, "the seat is free")));
}
