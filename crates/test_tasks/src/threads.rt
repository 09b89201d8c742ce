// Threads that block, and tasks on several threads.
use crate::acts::{Line, ROUNDS, SUM, receiver_of, sender_of, yielding};
use esync_base::waitqueue::{Hand, TaskId};
use esync_channel::channel::Channel;
use esync_notes::same;
use esync_tasks::parking::Parking;
use esync_tasks::runtime::{Runtime, run_on};
use std::alloc::Global;
use std::sync::Wait;
use std::thread::{self, Threads};

// Sends the numbers from seat 0, and takes each back.
fn ask<R: Wait, H: Hand<TaskId>>(
    parking: &Parking<'_, R, 2>,
    there: &Line<H>,
    back: &Line<H>,
) -> u64 {
    let mut sum: u64 = 0;
    let Some(mut seat) = parking.seat(0) else {
        return sum;
    };
    for number in 0..ROUNDS {
        seat.block_on(there.send(number));
        sum = sum.wrapping_add(u64::from(seat.block_on(back.receive())));
    }
    sum
}

// Sends each number back from seat 1.
fn answer<R: Wait, H: Hand<TaskId>>(parking: &Parking<'_, R, 2>, there: &Line<H>, back: &Line<H>) {
    let Some(mut seat) = parking.seat(1) else {
        return;
    };
    for _round in 0..ROUNDS {
        let number = seat.block_on(there.receive());
        seat.block_on(back.send(number));
    }
}

#[test]
fn two_threads_ask_and_answer(rt: HostRuntime) {
    let parking: Parking<'_, HostRuntime, 2> = Parking::new(&rt);
    let there = Channel::new(&parking);
    let back = Channel::new(&parking);
    let (sum, ()) = thread::join(
        &rt,
        || ask(&parking, &there, &back),
        || answer(&parking, &there, &back),
    );
    same!(rt; sum, SUM);
}

// Two tasks send over one line each, and two receive, on so many threads.
fn exchange<'l, R: Wait + Threads + Sync, H: Hand<TaskId> + Send + Sync>(
    rt: &R,
    runtime: &Runtime<'_, R, 4>,
    alloc: Global,
    threads: usize,
    one: &'l Line<H>,
    other: &'l Line<H>,
) -> u64 {
    let Ok(tasks) = vec![in alloc;
        sender_of(one),
        sender_of(other),
        receiver_of(other),
        receiver_of(one),
    ] else {
        return 0;
    };
    match run_on(runtime, rt, alloc, threads, tasks) {
        Ok(outputs) => outputs[2].wrapping_add(outputs[3]),
        Err(_) => 0,
    }
}

#[test]
fn tasks_run_on_threads(rt: HostRuntime) {
    let runtime: Runtime<'_, HostRuntime, 4> = Runtime::new(&rt);
    let one = Channel::new(&runtime);
    let other = Channel::new(&runtime);
    for threads in [0, 1, 2, 4] {
        let sum = exchange(&rt, &runtime, rt.alloc(), threads, &one, &other);
        same!(rt; sum, SUM.wrapping_mul(2));
    }
}

// How often the tasks were polled in all, in so many runs on three threads.
fn run_often<R: Wait + Threads + Sync, H: Hand<TaskId> + Sync>(
    rt: &R,
    runtime: &Runtime<'_, R, 2>,
    alloc: Global,
    hand: &H,
) -> u64 {
    let mut polls: u64 = 0;
    for _run in 0..200u32 {
        let Ok(tasks) = vec![in alloc; yielding(hand, 2), yielding(hand, 0)] else {
            return 0;
        };
        if let Ok(outputs) = run_on(runtime, rt, alloc, 3, tasks) {
            polls = polls.wrapping_add(outputs[0]).wrapping_add(outputs[1]);
        }
    }
    polls
}

// The ends of runs, at which sleeping threads are called.
#[test]
fn many_runs_end(rt: HostRuntime) {
    let runtime: Runtime<'_, HostRuntime, 2> = Runtime::new(&rt);
    let hand = &runtime;
    same!(rt; run_often(&rt, &runtime, rt.alloc(), &hand), 800);
}
