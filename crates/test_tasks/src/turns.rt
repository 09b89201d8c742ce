// Turns on one thread: which task is polled, how often, and in which order.
ghost use Rattle.esync_tasks.specs.Polled.{IfReady, OnPending};

use crate::acts::{
    Line, Notes, ROUNDS, SUM, SleepsOnce, receiver_of, sender_of, writing, yielding,
};
use esync_base::waitqueue::{Context, Hand, Poll, TaskId};
use esync_channel::channel::Channel;
use esync_notes::{holds, same};
use esync_tasks::future::Future;
use esync_tasks::parking::{Parking, Split};
use esync_tasks::runtime::{RunError, Runtime};
use std::alloc::Global;
use std::sync::Wait;

// How often each of two tasks was polled, of which one wakes itself three times in the midst of its turn, and the other never.
fn run_yields<R: Wait, H: Hand<TaskId>>(
    runtime: &Runtime<'_, R, 2>,
    alloc: Global,
    hand: &H,
) -> [u64; 2] {
    let Ok(tasks) = vec![in alloc; yielding(hand, 3), yielding(hand, 0)] else {
        return [0, 0];
    };
    match runtime.run(alloc, tasks) {
        Ok(polls) => [polls[0], polls[1]],
        Err(_) => [0, 0],
    }
}

#[test]
fn a_task_that_wakes_itself_is_polled_again(rt: HostRuntime) {
    let runtime: Runtime<'_, HostRuntime, 2> = Runtime::new(&rt);
    let hand = &runtime;
    same!(rt; run_yields(&runtime, rt.alloc(), &hand), [4, 1]);
    same!(rt; run_yields(&runtime, rt.alloc(), &hand), [4, 1]);
}

// A wake outside a run, or of no task, does nothing.
#[test]
fn a_waker_of_no_task_wakes_nobody(rt: HostRuntime) {
    let runtime: Runtime<'_, HostRuntime, 2> = Runtime::new(&rt);
    let hand = &runtime;
    hand.wake(TaskId(0));
    hand.wake(TaskId(2));
    hand.wake(TaskId(u64::MAX));
    same!(rt; run_yields(&runtime, rt.alloc(), &hand), [4, 1]);
    hand.wake(TaskId(1));
    same!(rt; run_yields(&runtime, rt.alloc(), &hand), [4, 1]);
}

// The tasks of a runtime behind three seats poll with wakers from 3 on.
#[test]
fn tasks_stand_behind_seats(rt: HostRuntime) {
    let parking: Parking<'_, HostRuntime, 3> = Parking::new(&rt);
    let runtime: Runtime<'_, HostRuntime, 2> = Runtime::behind(&rt, 3);
    let hand = Split::new(&parking, 3, &runtime);
    same!(rt; run_yields(&runtime, rt.alloc(), &hand), [4, 1]);
}

// How often the task was polled that sends, and what the other received.
fn run_line<R: Wait, H: Hand<TaskId>>(
    runtime: &Runtime<'_, R, 2>,
    alloc: Global,
    line: &Line<H>,
) -> [u64; 2] {
    let Ok(tasks) = vec![in alloc; sender_of(line), receiver_of(line)] else {
        return [0, 0];
    };
    match runtime.run(alloc, tasks) {
        Ok(outputs) => [outputs[0], outputs[1]],
        Err(_) => [0, 0],
    }
}

// The line has room for one number. So the sender, which is polled only where it was woken, sends one at each poll.
#[test]
fn a_task_that_isnt_woken_isnt_polled(rt: HostRuntime) {
    let runtime: Runtime<'_, HostRuntime, 2> = Runtime::new(&rt);
    let line = Channel::new(&runtime);
    same!(rt; run_line(&runtime, rt.alloc(), &line), [u64::from(ROUNDS), SUM]);
}

// The first eight turns.
fn order<'l, R: Wait, H: Hand<TaskId>>(
    runtime: &Runtime<'_, R, 3>,
    alloc: Global,
    line: &'l Notes<H>,
    hand: &'l H,
) -> [u64; 8] {
    let mut turns = [9; 8];
    let Ok(tasks) = vec![in alloc;
        writing(line, hand, 2),
        writing(line, hand, 1),
        writing(line, hand, 2),
    ] else {
        return turns;
    };
    let _ = runtime.run(alloc, tasks);
    for turn in &mut turns {
        if let Ok(task) = line.try_receive() {
            *turn = task;
        }
    }
    turns
}

// A task that is woken goes to the end of the queue.
#[test]
fn turns_go_round(rt: HostRuntime) {
    let runtime: Runtime<'_, HostRuntime, 3> = Runtime::new(&rt);
    let line = Channel::new(&runtime);
    let hand = &runtime;
    same!(rt; order(&runtime, rt.alloc(), &line, &hand), [0, 1, 2, 0, 1, 2, 0, 2]);
}

/// Runs a task on the runtime that runs it, and gives whether that was refused and the task came back.
#[derive(Drop)]
struct Nested<'a, R> {
    runtime: &'a Runtime<'a, R, 1>,
    alloc: Global,
}

impl<R: Wait> Future<TaskId> for Nested<'_, R> {
    type Output = bool;

    fn poll(&mut self, _cx: &Context<TaskId>) -> Poll<bool> {
        let Ok(tasks) = vec![in self.alloc; SleepsOnce { has_slept: true }] else {
            return Poll::Ready(false);
        };
        let refused = self.runtime.run(self.alloc, tasks);
        Poll::Ready(matches!(refused, Err(RunError::Busy(_))))
    }
}

fn run_nested<'a, R: Wait>(runtime: &'a Runtime<'a, R, 1>, alloc: Global) -> bool {
    let Ok(tasks) = vec![in alloc; Nested { runtime, alloc }] else {
        return false;
    };
    match runtime.run(alloc, tasks) {
        Ok(refused) => refused[0],
        Err(_) => false,
    }
}

#[test]
fn a_second_run_is_refused(rt: HostRuntime) {
    let runtime: Runtime<'_, HostRuntime, 1> = Runtime::new(&rt);
    holds!(rt; run_nested(&runtime, rt.alloc()));
    holds!(rt; run_nested(&runtime, rt.alloc()));
}

// Of a runtime for two tasks: whether one task comes back.
fn run_one<R: Wait, H: Hand<TaskId>>(runtime: &Runtime<'_, R, 2>, alloc: Global, hand: &H) -> bool {
    let Ok(tasks) = vec![in alloc; yielding(hand, 0)] else {
        return false;
    };
    match runtime.run(alloc, tasks) {
        Err(RunError::Count(tasks)) => tasks.len() == 1,
        _ => false,
    }
}

#[test]
fn another_number_of_tasks_is_refused(rt: HostRuntime) {
    let runtime: Runtime<'_, HostRuntime, 2> = Runtime::new(&rt);
    let hand = &runtime;
    holds!(rt; run_one(&runtime, rt.alloc(), &hand));
    same!(rt; run_yields(&runtime, rt.alloc(), &hand), [4, 1]);
}

#[test]
fn no_tasks_are_over_at_once(rt: HostRuntime) {
    let runtime: Runtime<'_, HostRuntime, 0> = Runtime::new(&rt);
    let none: Vec<Nested<'_, HostRuntime>> = Vec::new(rt.alloc());
    holds!(rt; runtime.run(rt.alloc(), none).is_ok());
}

/// Sends its number.
#[derive(Drop)]
struct Posts<'a, H> {
    line: &'a Notes<H>,
}

impl<H: Hand<TaskId>> Future<TaskId> for Posts<'_, H> {
    type Output = ();

    fn poll(&mut self, cx: &Context<TaskId>) -> Poll<()> {
        let _ = self.line.try_send(cx.waker().0);
        Poll::Ready(())
    }
}

// What a task of the runtime sends, for which the thread at seat 0 sleeps.
fn share<R: Wait, H: Hand<TaskId>>(
    parking: &Parking<'_, R, 1>,
    runtime: &Runtime<'_, R, 1>,
    alloc: Global,
    line: &Notes<H>,
) -> Option<u64> {
    let mut seat = parking.seat(0)?;
    let _waits = line.poll_receive(&Context::from_waker(seat.task()));
    let tasks = vec![in alloc; Posts { line }].ok()?;
    let _ = runtime.run(alloc, tasks);
    seat.block_on(SleepsOnce { has_slept: false });
    line.try_receive().ok()
}

#[test]
fn a_thread_and_a_task_share_a_line(rt: HostRuntime) {
    let parking: Parking<'_, HostRuntime, 1> = Parking::new(&rt);
    let runtime: Runtime<'_, HostRuntime, 1> = Runtime::behind(&rt, 1);
    let line = Channel::new(Split::new(&parking, 1, &runtime));
    same!(rt; share(&parking, &runtime, rt.alloc(), &line), Some(1));
}
