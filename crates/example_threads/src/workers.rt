//! Eight tasks on two threads share three permits. A task that gets none isn't polled until one comes back.
ghost use Rattle.std.specs.Prelude.{IsSome};
ghost use Rattle.esync_tasks.specs.Polled.{IfReady, OnPending};

use embassy_sync::semaphore::{Acquire, GreedySemaphore, PermitState, SharedSemaphore};
use embassy_sync::waitqueue::{Context, Hand, Poll, TaskId};
use esync_tasks::forms::Permits;
use esync_tasks::future::Future;
use esync_tasks::runtime::{Runtime, run_on};
use std::alloc::Global;
use std::io;
use std::sync::Wait;
use std::sync::atomic::{AtomicU64, Ordering};
use std::thread::Threads;

const PERMITS: usize = 3;

const JOBS: u64 = 1000;

/// The number of tasks at work, and whether there ever were too many.
#[derive(Drop)]
struct Shop {
    at_work: AtomicU64,
    too_many: AtomicU64,
}

impl Shop {
    fn enter(&self) {
        if self.at_work.fetch_add(1, Ordering::SeqCst) >= PERMITS as u64 {
            self.too_many.fetch_add(1, Ordering::SeqCst);
        }
    }

    fn leave(&self) {
        self.at_work.fetch_sub(1, Ordering::SeqCst);
    }
}

/// A worker: it does its jobs one after another, each with a permit that it keeps for a turn. It gives the number of
/// its jobs.
#[derive(Drop)]
struct Worker<'a, S: PermitState<Waker = TaskId>, H: Hand<TaskId>> {
    pool: &'a SharedSemaphore<S, TaskId, H>,
    hand: &'a H,
    shop: &'a Shop,
    request: Acquire<'a, S, TaskId, H>,
    permit: Option<Permits<'a, S, TaskId, H>>,
    done: u64,
}

impl<S: PermitState<Waker = TaskId>, H: Hand<TaskId>> Future<TaskId> for Worker<'_, S, H> {
    type Output = u64;

    ghost can_poll = { λ worker. IsSome (S.wanted worker.request) };

    fn poll(&mut self, cx: &Context<TaskId>) -> Poll<u64> {
        if let Some(permit) = self.permit.take() {
            self.shop.leave();
            permit.end();
            self.done = self.done.wrapping_add(1);
            if self.done >= JOBS {
                return Poll::Ready(self.done);
            }
        }
        match Future::poll(&mut self.request, cx) {
            Poll::Ready(Ok(permit)) => {
                self.shop.enter();
                self.permit = Some(permit);
                self.request = self.pool.acquire(1);
                self.hand.wake(cx.waker());
                Poll::Pending
            }
            Poll::Ready(Err(_)) => Poll::Ready(self.done),
            Poll::Pending => Poll::Pending,
        }
    }
}

fn new_worker<'a, S: PermitState<Waker = TaskId>, H: Hand<TaskId>>(
    pool: &'a SharedSemaphore<S, TaskId, H>,
    hand: &'a H,
    shop: &'a Shop,
) -> Worker<'a, S, H>
    ensures { IsSome (S.wanted result.request) }
{
    Worker {
        pool,
        hand,
        shop,
        request: pool.acquire(1),
        permit: None,
        done: 0,
    }
}

// Returns how many jobs eight workers did on two threads.
fn run<'a, R: Wait + Threads + Sync, H: Hand<TaskId> + Sync + Send>(
    rt: &R,
    runtime: &Runtime<'_, R, 8>,
    alloc: Global,
    pool: &'a GreedySemaphore<TaskId, H>,
    hand: &'a H,
    shop: &'a Shop,
) -> u64 {
    let mut jobs: u64 = 0;
    let Ok(workers) = vec![in alloc;
        new_worker(pool, hand, shop),
        new_worker(pool, hand, shop),
        new_worker(pool, hand, shop),
        new_worker(pool, hand, shop),
        new_worker(pool, hand, shop),
        new_worker(pool, hand, shop),
        new_worker(pool, hand, shop),
        new_worker(pool, hand, shop),
    ] else {
        return jobs;
    };
    if let Ok(done) = run_on(runtime, rt, alloc, 2, workers) {
        for count in &done {
            jobs = jobs.wrapping_add(*count);
        }
    }
    jobs
}

pub fn example<R: Print + Threads + Wait + Sync>(rt: &R, alloc: Global) -> io::Result<()> {
    let runtime: Runtime<'_, R, 8> = Runtime::new(rt);
    let hand = &runtime;
    let pool = GreedySemaphore::new(PERMITS, hand);
    let shop = Shop {
        at_work: AtomicU64::new(0),
        too_many: AtomicU64::new(0),
    };
    let jobs = run(rt, &runtime, alloc, &pool, &hand, &shop);
    let too_many = shop.too_many.load(Ordering::SeqCst);
    println!(rt; "{jobs} jobs were done, and {too_many} of them with too many at work")
}
