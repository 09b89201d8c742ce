//! An executor of tasks over any machine.
ghost use Rattle.std.specs.Prelude.{◌≡◌, ◌≤◌, [], length, map, slice_get, ◌⊎◌, IfOk, IfNone, Err};
ghost use Rattle.std.specs.Option.{option_copied};
ghost use Rattle.std.specs.Bool.{OnTrue, OnFalse};
ghost use Rattle.esync_history.specs.Suited.{AreSuited};
ghost use Rattle.esync_history.specs.Todo.{fresh, unended, act_counts};

use crate::queue::Queue;
use crate::replies::Replies;
use crate::suited::are_suited;
use crate::task::{Task, all_ended, make_tasks, queue_all};
use crate::turn::{do_act, note, requeue};
use esync_base::waitqueue::TaskId;
use esync_machine::run::Awaits;
use std::alloc::{AllocError, Global};
use std::marker::Model;
use thiserror::Error;

/// An act of a task: a task does one act after another.
#[derive(Clone, Copy, Debug, PartialEq, Eq)]
pub enum Act<A, C> {
    /// Starts a request at the number, and polls it until the answer is neither Pending nor NoMemory. The act is over
    /// at once if the start is answered NoSuch. Later acts of the task may await at the number again; no other task may.
    Await(usize, A),
    /// Makes a call. The act is over with any answer.
    Call(C),
}

/// The reason why an executor was refused. The machine and the tasks that were handed in are dropped.
#[derive(Clone, Copy, Debug, PartialEq, Eq, Error)]
pub enum NewError {
    /// Two tasks await at one number, an Await's number isn't the machine's, or a Call starts or polls. No memory was
    /// asked for.
    #[error("two tasks use one request, or it isn't the machine's, or a call starts or polls")]
    NoSuch,
    /// There was no memory for the tasks, or for the answers of their acts.
    #[error("there was no memory for the tasks")]
    NoMemory,
}

/// The outcome of a run: of an [`Executor`], or of an executor with the same outcomes and another order of turns.
#[derive(Clone, Copy, Debug, PartialEq, Eq)]
pub enum Outcome {
    /// All tasks have ended, or are where they may stay for ever, if the executor knows such places.
    Done,
    /// Some task hasn't ended and isn't at such a place, and none has a turn: in an [`Executor`], none is in the queue.
    Stalled,
    /// The greatest number of turns was taken, and some task has a turn.
    Limit,
}

impl From<AllocError> for NewError {
    ghost use Rattle.std.specs.Prelude.{◌≡◌};
    ghost use Rattle.esync_history.specs.declared.executor.NewError.TheVariants.{NoMemory};

    ghost from_gives = { λ _ e. e ≡ NoMemory };

    fn from(_error: AllocError) -> NewError {
        NewError::NoMemory
    }
}

/// Tasks over a machine, and the queue in which they wait for their turn.
///
/// A task is known by its place in the list that was handed in, and polls with the `TaskId` of that number. A turn
/// takes the task at the front of the queue and does its current act. Then the tasks that the machine woke go to the
/// back of the queue, in order. The task itself goes there last, if its act is over or its poll had no memory. No task
/// is queued twice, and no ended task is queued. A waker that names no task is ignored.
///
/// An act's answer is kept once the act is over. For an Await it is the answer of its last poll, or of its start if
/// that was NoSuch. For a Call it is the call's answer. `new` makes room for all answers.
#[derive(Drop)]
pub struct Executor<M: Awaits<Waker = TaskId>> {
    machine: M,
    tasks: Vec<Task<M::Ask, M::Command>>,
    queue: Queue,
    replies: Replies<M::Reply>,
}

impl<M: Awaits<Waker = TaskId>> Model for Executor<M> {
    ghost use Rattle.esync_history.specs.Todo.{Executing};
    ghost use Rattle.esync_history.specs.Standing.{IsBetweenTurns};

    ghost Value = { Executing M M.Ask M.Command M.Reply };

    ghost view = { λ a. record { machine = a.machine; tasks = a.tasks.items; queue = a.queue.numbers; heard = a.replies.replies } };

    ghost invariant = { λ a. IsBetweenTurns M.semantics a.machine a.tasks.items a.queue a.replies };
}

impl<M: Awaits<Waker = TaskId> + Drop> Executor<M>
where
    M::Ask: Drop,
    M::Command: Drop,
    M::Reply: Drop,
{
    ghost use Rattle.esync_history.specs.Todo.{Executing};
    ghost use Rattle.esync_history.specs.Turns.{IsTurn, Ran, Tells};
    ghost use Rattle.esync_history.specs.Standing.{AreStanding, AreStalled};

    /// Returns an executor of these tasks over the machine. The tasks that have acts stand in the queue, in order.
    ///
    /// # Errors
    ///
    /// Returns `NoSuch` if the tasks don't suit the machine, and `NoMemory` if there is no memory. The machine and the
    /// tasks are dropped.
    pub fn new(
        alloc: Global,
        machine: M,
        tasks: Vec<Vec<Act<M::Ask, M::Command>>>,
    ) -> Result<Self, NewError>
        ensures unsuited { result ≡ Err NewError.NoSuch → AreSuited M.semantics.meaning M.REQS (map (λ acts. acts.items) tasks.items) → ⊥ }
        ensures suited { (result ≡ Err NewError.NoSuch) ⊎ AreSuited M.semantics.meaning M.REQS (map (λ acts. acts.items) tasks.items) }
        ensures machine { IfOk result (λ executor. executor.machine ≡ machine) }
        ensures tasks { IfOk result (λ executor. executor.tasks ≡ map (λ acts. fresh acts.items) tasks.items) }
        ensures queue { IfOk result (λ executor. executor.queue ≡ unended executor.tasks) }
        ensures heard { IfOk result (λ executor. executor.heard ≡ map (λ _. []) tasks.items) }
    {
        if !are_suited::<M>(&tasks) {
            return Err(NewError::NoSuch);
        }
        let replies = Replies::new(alloc, &tasks)?;
        let tasks = make_tasks(alloc, tasks)?;
        let mut queue = Queue::new(alloc, tasks.len())?;
        queue_all(&tasks, &mut queue);
        Ok(Executor {
            machine,
            tasks,
            queue,
            replies,
        })
    }

    // Takes the turn of the task at the front of the queue. Returns whether there was one.
    fn take_turn(&mut self) -> bool
        ensures turn { OnTrue result (IsTurn M.semantics M.starting self.old self.new) }
        ensures none { OnFalse result (self.old.queue ≡ []) }
        ensures unchanged { OnFalse result (self.new ≡ self.old) }
    {
        let Some(number) = self.queue.pop() else {
            return false;
        };
        let task = &mut self.tasks[number];
        let heard = do_act(&mut self.machine, task, TaskId(number as u64));
        let over = task.request().is_none();
        requeue::<M>(&self.tasks, &mut self.queue, &heard, number);
        note(&mut self.replies, heard, number, over);
        true
    }

    // Returns the outcome of a run that stops here.
    fn outcome(&self) -> Outcome
        ensures tells { Tells result self.now }
        ensures standing { AreStanding M.semantics self.now.machine self.now.tasks self.now.queue }
        ensures places { length self.now.heard ≡ length self.now.tasks }
    {
        if !self.queue.is_empty() {
            Outcome::Limit
        } else if all_ended(&self.tasks) {
            Outcome::Done
        } else {
            Outcome::Stalled
        }
    }

    /// Takes turns until all tasks have ended, no task is in the queue, or `limit` turns are taken. Returns which of
    /// these it was.
    ///
    /// A run takes no memory beyond what the machine's steps take. A later run goes on where this one stopped.
    pub fn run(&mut self, limit: usize) -> Outcome
        ensures run { Ran M.semantics M.starting limit self.old result self.new }
        ensures outcome { Tells result self.new }
        ensures places { length self.new.heard ≡ length self.new.tasks }
        ensures counts { act_counts self.new ≡ act_counts self.old }
        ensures stalled { result ≡ Outcome.Stalled → AreStalled M.semantics.meaning (M.semantics.object self.new.machine) self.new.tasks }
    {
        for _turn in 0..limit {
            if !self.take_turn() {
                return self.outcome();
            }
        }
        self.outcome()
    }

    /// Returns the answers of the task's acts that are over, in order, or `None` if there is no task of this number.
    pub fn heard(&self, task: usize) -> Option<&[M::Reply]>
        ensures heard { option_copied result ≡ slice_get self.now.heard task }
        ensures none { IfNone result (length self.now.tasks ≤ task) }
    {
        self.replies.get(task)
    }

    /// Returns the machine.
    pub fn machine(&self) -> &M
        ensures { result.now ≡ self.now.machine }
    {
        &self.machine
    }

    /// Returns the machine, without the tasks.
    pub fn into_machine(self) -> M
        ensures { result ≡ self.machine }
    {
        self.machine
    }

    /// Returns the machine, and the answers that each task heard, in the tasks' order.
    pub fn into_parts(self) -> (M, Vec<Vec<M::Reply>>)
        ensures machine { result.0 ≡ self.machine }
        ensures heard { map (λ v. v.items) result.1.items ≡ self.heard }
    {
        (self.machine, self.replies.into_vec())
    }
}
