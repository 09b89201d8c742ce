//! A runtime that polls tasks when they were woken, on one thread or on several.
ghost use Rattle.std.specs.Prelude.{ℕ, ◌≡◌, ◌↔◌, slice_get, Some, IsTrue, true, false, ◌+◌, ◌<◌, ◌≤◌, ◌^◌, [], All, IfOk, IfErr, IfSome, vec_len, vec_capacity};
ghost use Rattle.std.specs.Bool.{OnTrue, OnFalse};
ghost use Rattle.esync_tasks.specs.Refused.{tasks_of};
ghost use Rattle.esync_tasks.specs.RunQueue.{all_queued, woken, rested, ended, IsRunning, HasEnded};
ghost use Rattle.esync_base.specs.Room.{WakesFitInMemory};

pub mod slot;

use crate::future::Future;
use crate::run_queue::{RunQueue, TaskState};
use esync_base::waitqueue::{Context, Hand, TaskId};
use slot::{Slot, slots_of};
use std::alloc::Global;
use std::fmt::Debug;
use std::marker::Model;
use std::sync::{Condvar, Mutex, Wait};
use std::thread::{self, Threads};
use thiserror::Error;

/// The reason why a run was refused. The tasks come back, and none of them was polled.
#[derive(Clone, Copy, Debug, PartialEq, Eq, Error)]
#[error_bound(T: Debug)]
pub enum RunError<T> {
    /// Another run of this runtime isn't over.
    #[error("the runtime runs other tasks")]
    Busy(T),
    /// The runtime runs another number of tasks at a time.
    #[error("the runtime runs another number of tasks")]
    Count(T),
    /// There was no memory for the outputs of the tasks.
    #[error("there was no memory for the tasks")]
    NoMemory(T),
}

impl<T> RunError<T> {
    /// Returns the tasks.
    pub fn into_tasks(self) -> T
        ensures { result ≡ tasks_of self }
    {
        match self {
            RunError::Busy(tasks) | RunError::Count(tasks) | RunError::NoMemory(tasks) => tasks,
        }
    }
}

// The states of the tasks of a run, and whether a run goes on.
#[derive(Drop)]
struct Board<const N: usize> {
    queue: RunQueue<N>,
    is_busy: bool,
    // The number of the runtime's threads that aren't asleep. No clause says that the count is right.
    awake: usize,
}

impl<const N: usize> Board<N> {
    // Begins a run, unless one goes on. Returns whether it began.
    fn begin(&mut self) -> bool
        ensures free { IsTrue result ↔ (self.old.is_busy ≡ false) }
        ensures begun { OnTrue result (self.new.queue ≡ all_queued N) }
        ensures busy { self.new.is_busy ≡ true }
        ensures refused { OnFalse result (self.new.queue ≡ self.old.queue) }
    {
        if self.is_busy {
            return false;
        }
        self.queue = RunQueue::new();
        self.is_busy = true;
        self.awake = 0;
        true
    }

    // Wakes a task. Returns whether a sleeping thread has to be woken for it: a thread that is awake takes a task that
    // is alone in the queue as soon as its present turn is over.
    fn wake(&mut self, task: usize) -> bool
        ensures woken { self.new.queue ≡ woken self.old.queue task }
        ensures busy { self.new.is_busy ≡ self.old.is_busy }
        ensures called { IsTrue result → slice_get self.old.queue.states task ≡ Some TaskState.Resting }
        ensures alone { slice_get self.old.queue.states task ≡ Some TaskState.Resting → self.old.awake ≡ 0 → IsTrue result }
    {
        let is_queued = self.queue.wake(task);
        is_queued && (self.awake == 0 || self.queue.len() > 1)
    }

    // Counts a thread that is awake now, or one that falls asleep.
    fn count(&mut self, is_awake: bool)
        ensures queue { self.new.queue ≡ self.old.queue }
        ensures busy { self.new.is_busy ≡ self.old.is_busy }
    {
        self.awake = if is_awake {
            self.awake.saturating_add(1)
        } else {
            self.awake.saturating_sub(1)
        };
    }

    // Ends the turn of a task, and the task if it is over. Returns whether it was the last.
    fn settle(&mut self, task: usize, is_over: bool) -> bool
        ensures ended { IsRunning self.old.queue task → is_over ≡ true → self.new.queue ≡ ended self.old.queue task }
        ensures rested { IsRunning self.old.queue task → is_over ≡ false → self.new.queue ≡ rested self.old.queue task }
        ensures last { IsRunning self.old.queue task → is_over ≡ true → IsTrue result ↔ All HasEnded self.new.queue.states }
        ensures busy { self.new.is_busy ≡ self.old.is_busy }
    {
        // Another thread might have had the board meanwhile, so that no clause says that the task still has its turn.
        if !self.queue.is_running(task) {
            return false;
        }
        if !is_over {
            self.queue.rest(task);
            return false;
        }
        self.queue.end(task);
        self.queue.is_over()
    }
}

/// A runtime of `N` tasks at a time. Task `k` of a run polls with the waker `TaskId(k)`, or `TaskId(at + k)` behind
/// further tasks.
///
/// A reference to the runtime is the hand of the shared forms that the tasks use. A waker that names no task wakes
/// nothing, and neither does any waker between two runs. A waker of an earlier run wakes the task of its number, which
/// is polled once more.
#[derive(Drop)]
pub struct Runtime<'a, R, const N: usize> {
    rt: &'a R,
    at: u64,
    board: Mutex<Board<N>>,
    ring: Condvar,
}

impl<'a, R, const N: usize> Model for Runtime<'a, R, N> {
    ghost use Rattle.std.specs.Prelude.{ℕ, ◌+◌, ◌<◌, ◌^◌};
    ghost use Rattle.std.specs.Coded.{coded_ℕ};

    ghost Value = { ℕ };

    ghost coded = { coded_ℕ };

    ghost view = { λ a. a.at };

    ghost invariant = { λ a. a.at + N < 2 ^ 64 };
}

impl<'a, R, const N: usize> Runtime<'a, R, N> {
    /// Returns a runtime that runs nothing yet.
    pub fn new(rt: &'a R) -> Self
        ensures { result ≡ 0 }
    {
        Runtime::behind(rt, 0)
    }

    /// Returns a runtime that is the second hand of a `Split`, behind `at` tasks: task `k` polls with the waker
    /// `TaskId(at + k)`.
    pub fn behind(rt: &'a R, at: u64) -> Self
        requires { at + N < 2 ^ 64 }
        ensures { result ≡ at }
    {
        Runtime {
            rt,
            at,
            board: Mutex::new(Board {
                queue: RunQueue::new(),
                is_busy: false,
                awake: 0,
            }),
            ring: Condvar::new(),
        }
    }

    // Returns the context with which a task of a run polls.
    fn context(&self, task: usize) -> Context<TaskId>
        requires { task < N }
        ensures { result ≡ record { 0 = self.now + task } }
    {
        Context::from_waker(TaskId(self.at + task as u64))
    }
}

/// Wakes the task of the waker's number. A task that has its turn gets another turn.
impl<R: Wait, const N: usize> Hand<TaskId> for &Runtime<'_, R, N> {
    type Rt = R;

    fn rt(&self) -> &R {
        self.rt
    }

    fn wake(&self, task: TaskId) {
        let is_called = self.board.lock(self.rt).wake(task.0 as usize);
        if is_called {
            self.ring.notify_one();
        }
    }
}

impl<R: Wait, const N: usize> Runtime<'_, R, N> {
    // Takes the task that is first in the queue, or returns `None` once all tasks are over. Sleeps while the queue is
    // empty.
    fn next(&self) -> Option<usize>
        ensures { IfSome result (λ task. task < N) }
    {
        let mut board = self.board.lock(self.rt);
        for _ in self.rt.forever() {
            if board.queue.is_over() {
                board.count(false);
                return None;
            }
            let task = board.queue.take();
            if task.is_some() {
                return task;
            }
            board.count(false);
            board = self.ring.wait(self.rt, board);
            board.count(true);
        }
        unreachable!()
    }

    // Gives this task a turn.
    fn turn<F: Future<TaskId, Output: Drop>>(&self, slot: &Mutex<Slot<F, F::Output>>, task: usize)
        requires { task < N }
    {
        let is_over = slot.lock(self.rt).poll(&self.context(task));
        let is_last = self.board.lock(self.rt).settle(task, is_over);
        if is_last {
            self.ring.notify_all();
        }
    }

    // Ends a run.
    fn end(&self) {
        self.board.lock(self.rt).is_busy = false;
    }

    /// Runs `N` tasks on this thread until all are over, and returns their outputs, in order.
    ///
    /// A task is polled once at first, and then only when it was woken. No poll runs under the board's lock.
    ///
    /// # Errors
    ///
    /// Returns the tasks, none of which was polled: `Count` if there aren't `N` of them, `Busy` if another run isn't
    /// over, and `NoMemory` if there is no memory.
    pub fn run<F: Future<TaskId, Output: Drop>>(
        &self,
        alloc: Global,
        tasks: Vec<F>,
    ) -> Result<Vec<F::Output>, RunError<Vec<F>>>
        requires { All F.can_poll tasks.items }
        ensures tasks { IfOk result (λ outputs. vec_len tasks ≡ N) }
        ensures count { IfOk result (λ outputs. vec_len outputs ≡ N) }
        ensures another { IfErr result (λ error. error ≡ RunError.Count tasks → vec_len tasks ≡ N → ⊥) }
        ensures counted { IfErr result (λ error. (vec_len tasks ≡ N → ⊥) → error ≡ RunError.Count tasks) }
        ensures returned { IfErr result (λ error. tasks_of error ≡ tasks) }
    {
        let (slots, room) = self.begin(alloc, tasks)?;
        self.work(&slots);
        Ok(self.finish(slots, room))
    }
}

/// The turns of a runtime: what a run on several threads needs of it, whatever the number of its tasks.
pub trait Turns {
    /// The number of tasks that the runtime runs at a time.
    ghost places: { ℕ };

    /// Begins a run of these tasks, and returns them with room for their outputs.
    ///
    /// # Errors
    ///
    /// Returns the tasks, none of which was polled, for the reasons that `Runtime::run` has.
    fn begin<F: Future<TaskId, Output: Drop>>(
        &self,
        alloc: Global,
        tasks: Vec<F>,
    ) -> Result<(Vec<Mutex<Slot<F, F::Output>>>, Vec<F::Output>), RunError<Vec<F>>>
        requires { All F.can_poll tasks.items }
        ensures tasks { IfOk result (λ begun. vec_len tasks ≡ places) }
        ensures count { IfOk result (λ begun. vec_len begun.0 ≡ places) }
        ensures empty { IfOk result (λ begun. begun.1.items ≡ []) }
        ensures room { IfOk result (λ begun. places ≤ vec_capacity begun.1) }
        ensures another { IfErr result (λ error. error ≡ RunError.Count tasks → vec_len tasks ≡ places → ⊥) }
        ensures counted { IfErr result (λ error. (vec_len tasks ≡ places → ⊥) → error ≡ RunError.Count tasks) }
        ensures returned { IfErr result (λ error. tasks_of error ≡ tasks) };

    /// Gives turns until all tasks are over.
    fn work<F: Future<TaskId, Output: Drop>>(&self, slots: &Vec<Mutex<Slot<F, F::Output>>>)
        requires { vec_len slots.now ≡ places };

    /// Ends the run, and returns the outputs of the tasks, in order.
    fn finish<F: Future<TaskId, Output: Drop>>(
        &self,
        slots: Vec<Mutex<Slot<F, F::Output>>>,
        room: Vec<F::Output>,
    ) -> Vec<F::Output>
        requires count { vec_len slots ≡ places }
        requires empty { room.items ≡ [] }
        requires room { places ≤ vec_capacity room }
        ensures { vec_len result ≡ places };
}

impl<R: Wait, const N: usize> Turns for Runtime<'_, R, N> {
    ghost places = { N };

    fn begin<F: Future<TaskId, Output: Drop>>(
        &self,
        alloc: Global,
        tasks: Vec<F>,
    ) -> Result<(Vec<Mutex<Slot<F, F::Output>>>, Vec<F::Output>), RunError<Vec<F>>> {
        if tasks.len() != N {
            return Err(RunError::Count(tasks));
        }
        if !self.board.lock(self.rt).begin() {
            return Err(RunError::Busy(tasks));
        }
        let Ok(room) = Vec::with_capacity(alloc, N) else {
            self.end();
            return Err(RunError::NoMemory(tasks));
        };
        match slots_of(alloc, tasks) {
            Ok(slots) => Ok((slots, room)),
            Err(tasks) => {
                self.end();
                Err(RunError::NoMemory(tasks))
            }
        }
    }

    fn work<F: Future<TaskId, Output: Drop>>(&self, slots: &Vec<Mutex<Slot<F, F::Output>>>) {
        self.board.lock(self.rt).count(true);
        for _ in self.rt.forever() {
            let Some(task) = self.next() else {
                return;
            };
            self.turn(&slots[task], task);
        }
    }

    // All tasks are over by now. No clause carries that out of the locks, so a task that isn't over is polled here.
    fn finish<F: Future<TaskId, Output: Drop>>(
        &self,
        slots: Vec<Mutex<Slot<F, F::Output>>>,
        room: Vec<F::Output>,
    ) -> Vec<F::Output> {
        let mut outputs = room;
        for slot in slots {
            let cx = self.context(outputs.len());
            let _ = outputs.push(slot.into_inner().output(self.rt, &cx));
        }
        self.end();
        outputs
    }
}

/// Runs the tasks on `threads` threads, as `Runtime::run` does on one, and returns their outputs, in order. No two
/// threads poll one task at a time.
///
/// A thread that sleeps is woken if two tasks wait for their turn, or if no thread is awake. So a poll that takes long
/// can keep one task waiting that was woken meanwhile. A poll that blocks until that task has had its turn never
/// returns: a task that has to wait must answer Pending. If a thread can't be made, fewer threads run the tasks, and at
/// least the caller's own does.
///
/// `run_on` is no method of `Runtime`: beside that type's number the checker doesn't find that the tasks may be sent.
///
/// # Errors
///
/// Returns the tasks, none of which was polled, for the reasons that `Runtime::run` has.
pub fn run_on<B: Turns + Sync, T: Threads + Sync, F: Future<TaskId, Output: Drop + Send> + Send>(
    runtime: &B,
    rt: &T,
    alloc: Global,
    threads: usize,
    tasks: Vec<F>,
) -> Result<Vec<F::Output>, RunError<Vec<F>>>
    requires { All F.can_poll tasks.items }
    ensures tasks { IfOk result (λ outputs. vec_len tasks ≡ B.places) }
    ensures count { IfOk result (λ outputs. vec_len outputs ≡ B.places) }
    ensures another { IfErr result (λ error. error ≡ RunError.Count tasks → vec_len tasks ≡ B.places → ⊥) }
    ensures counted { IfErr result (λ error. (vec_len tasks ≡ B.places → ⊥) → error ≡ RunError.Count tasks) }
    ensures returned { IfErr result (λ error. tasks_of error ≡ tasks) }
{
    let (slots, room) = runtime.begin(alloc, tasks)?;
    let work = |_thread: usize|
        requires { vec_len slots ≡ B.places }
    { runtime.work(&slots) };
    let _ = thread::map_indices(rt, alloc, threads, &work);
    runtime.work(&slots);
    Ok(runtime.finish(slots, room))
}
