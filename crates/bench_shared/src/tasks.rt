//! Messages between tasks of a runtime.
ghost use Rattle.std.specs.Prelude.{◌≡◌, length};
ghost use Rattle.esync_tasks.specs.Polled.{IfReady, OnPending};

use crate::threads::Line;
use embassy_sync::channel::TrySendError;
use embassy_sync::waitqueue::{Context, Hand, Poll, TaskId};
use esync_tasks::future::Future;
use esync_tasks::runtime::{Runtime, run_on};
use std::alloc::Global;
use std::sync::Wait;
use std::thread::Threads;

/// A task that sends or receives its share, and gives the sum of what it received.
#[derive(Drop)]
struct Share<'l, H: Hand<TaskId>> {
    line: &'l Line<H, 64>,
    sends: bool,
    next: u32,
    end: u32,
    total: u64,
}

impl<H: Hand<TaskId>> Share<'_, H> {
    // Sends what there is room for.
    fn send(&mut self, cx: &Context<TaskId>) -> Poll<u64> {
        for message in self.next..self.end {
            self.next = message;
            if let Err(TrySendError::Full(_)) = self.line.try_send_with_context(message, Some(cx)) {
                return Poll::Pending;
            }
        }
        Poll::Ready(0)
    }

    // Receives what is there.
    fn receive(&mut self, cx: &Context<TaskId>) -> Poll<u64> {
        for place in self.next..self.end {
            self.next = place;
            match self.line.poll_receive(cx) {
                Poll::Ready(message) => self.total = self.total.wrapping_add(u64::from(message)),
                Poll::Pending => return Poll::Pending,
            }
        }
        Poll::Ready(self.total)
    }
}

impl<H: Hand<TaskId>> Future<TaskId> for Share<'_, H> {
    type Output = u64;

    fn poll(&mut self, cx: &Context<TaskId>) -> Poll<u64> {
        if self.sends {
            self.send(cx)
        } else {
            self.receive(cx)
        }
    }
}

fn share_of<H: Hand<TaskId>>(line: &Line<H, 64>, task: usize, count: u32) -> Share<'_, H> {
    let share = count / 4;
    let next = share.wrapping_mul((task % 8) as u32 / 2);
    Share {
        line,
        sends: task % 2 == 0,
        next,
        end: next.wrapping_add(share),
        total: 0,
    }
}

// The sum of what tasks gave.
fn sum(totals: &[u64]) -> u64 {
    let mut sum: u64 = 0;
    for total in totals {
        sum = sum.wrapping_add(*total);
    }
    sum
}

/// Four tasks send, four receive, on four threads. `None` where there is no memory.
pub fn four_and_four<R: Wait + Threads + Sync, H: Hand<TaskId> + Sync + Send>(
    rt: &R,
    runtime: &Runtime<'_, R, 8>,
    alloc: Global,
    line: &Line<H, 64>,
    count: u32,
) -> Option<u64> {
    let mut tasks = Vec::with_capacity(alloc, 8).ok()?;
    for task in 0..8usize {
        let _ = tasks.push(share_of(line, task, count));
    }
    match run_on(runtime, rt, alloc, 4, tasks) {
        Ok(totals) => Some(sum(totals.as_slice())),
        Err(_) => None,
    }
}

/// A task that hands a token on, greater by one each time, and gives the sum of those that it received.
#[derive(Drop)]
struct Hop<'l, H: Hand<TaskId>> {
    from: &'l Line<H, 1>,
    to: &'l Line<H, 1>,
    left: u32,
    last: u32,
    total: u64,
}

impl<H: Hand<TaskId>> Future<TaskId> for Hop<'_, H> {
    type Output = u64;

    fn poll(&mut self, cx: &Context<TaskId>) -> Poll<u64> {
        for more in (0..self.left).rev() {
            let Poll::Ready(token) = self.from.poll_receive(cx) else {
                return Poll::Pending;
            };
            self.left = more;
            self.total = self.total.wrapping_add(u64::from(token));
            if token < self.last {
                // There is one token, so there is room.
                let _ = self.to.try_send(token.wrapping_add(1));
            }
        }
        Poll::Ready(self.total)
    }
}

fn hop_of<H: Hand<TaskId>>(lines: &[Line<H, 1>], task: usize, count: u32) -> Hop<'_, H>
    requires { length lines.now ≡ 8 }
{
    Hop {
        from: &lines[task % 8],
        to: &lines[task.wrapping_add(1) % 8],
        left: count / 8,
        last: count.wrapping_sub(1),
        total: 0,
    }
}

/// Eight tasks on two threads pass a token round. `None` where there is no memory.
pub fn ring<R: Wait + Threads + Sync, H: Hand<TaskId> + Sync + Send>(
    rt: &R,
    runtime: &Runtime<'_, R, 8>,
    alloc: Global,
    lines: &[Line<H, 1>],
    count: u32,
) -> Option<u64>
    requires { length lines.now ≡ 8 }
{
    let _ = lines[0].try_send(0);
    let mut tasks = Vec::with_capacity(alloc, 8).ok()?;
    for task in 0..8usize {
        let _ = tasks.push(hop_of(lines, task, count));
    }
    match run_on(runtime, rt, alloc, 2, tasks) {
        Ok(totals) => Some(sum(totals.as_slice())),
        Err(_) => None,
    }
}
