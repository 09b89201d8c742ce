//! An executor of a plan's tasks: one of their schedules.
ghost use Rattle.std.specs.Prelude.{◌≡◌, ◌+◌, ◌^◌, ◌<◌, ◌≤◌, ◌⊎◌, ℕ, List, length, true, false, IfOk, IfSome, IfNone, Err};
ghost use Rattle.std.specs.List.{list_any};
ghost use Rattle.esync_history.specs.Suited.{AreSuited};
ghost use Rattle.esync_systems.specs.Schedules.{AreOver, ComesBefore, Follows, GoesRound, IsStall};
ghost use Rattle.esync_systems.specs.Positions.{acts_of, plan_of, running_of, unbegun, world_of, HearsIn, May};

use crate::plan::{Plan, Thinks};
use crate::state::{State, all_done, any_ready, begin};
use crate::turn::{hear_turn, may_turn};
use esync_base::waitqueue::TaskId;
use esync_history::act::Heard;
use esync_history::executor::{NewError, Outcome};
use esync_history::suited::are_suited;
use esync_machine::run::Awaits;
use std::alloc::Global;
use std::marker::Model;

/// A turn that was taken.
#[derive(Drop)]
pub struct Turned<R> {
    /// The number of the task whose turn it was.
    pub task: usize,
    /// What its act heard.
    pub heard: Heard<R>,
}

/// The tasks of a plan over a machine. A turn is that of the next task, round and round, that may take one: a schedule
/// of those that `explore` tells of, with the same executors and the same thinking. Answers are given out turn by turn,
/// and none is kept.
#[derive(Drop)]
pub struct PlanExecutor<'a, M: Awaits<Waker = TaskId>, T: Thinks<M::Reply>> {
    plan: &'a Plan<'a, M::Ask, M::Command, T>,
    state: State<M>,
    // The task from which on the next turn is looked for.
    from: usize,
}

impl<'a, M: Awaits<Waker = TaskId>, T: Thinks<M::Reply>> Model for PlanExecutor<'a, M, T> {
    ghost use Rattle.esync_systems.specs.Positions.{acts_of, plan_of, running, AreWaiting, Planning};

    ghost Value = { Planning M M.Ask M.Command T };

    ghost view = { λ a. record { from = a.from; program = acts_of a.plan.now.program.now; priorities = a.plan.now.priorities.now; thinks = a.plan.now.thinks; machine = a.state.machine; positions = a.state.positions.items; ready = a.state.ready.items } };

    ghost invariant = { λ a. AreWaiting M.semantics (running (plan_of T.next T.rests a.plan.now) a.state) };
}

impl<'a, M: Awaits<Waker = TaskId> + Drop, T: Thinks<M::Reply>> PlanExecutor<'a, M, T>
where
    M::Ask: Copy,
    M::Command: Copy,
    M::Reply: Drop,
{
    /// Returns an executor of the plan's tasks over the machine, before their first turn.
    ///
    /// # Errors
    ///
    /// Returns `NoSuch` if an `Executor` would not take the tasks, and `NoMemory` if there is no memory. The machine is
    /// dropped.
    pub fn new(
        alloc: Global,
        machine: M,
        plan: &'a Plan<'a, M::Ask, M::Command, T>,
    ) -> Result<Self, NewError>
        ensures unsuited { result ≡ Err NewError.NoSuch → AreSuited M.semantics.meaning M.REQS (acts_of plan.now.program.now) → ⊥ }
        ensures suited { (result ≡ Err NewError.NoSuch) ⊎ AreSuited M.semantics.meaning M.REQS (acts_of plan.now.program.now) }
        ensures begun { IfOk result (λ executor. running_of T.next T.rests executor ≡ unbegun (plan_of T.next T.rests plan.now) machine) }
        ensures from { IfOk result (λ executor. executor.from ≡ 0) }
    {
        if !are_suited::<M>(plan.program) {
            return Err(NewError::NoSuch);
        }
        Ok(PlanExecutor {
            plan,
            state: begin(alloc, machine, plan.program)?,
            from: 0,
        })
    }

    // Returns the first task from one number up to another that may take a turn.
    fn first_between(&self, from: usize, to: usize) -> Option<usize>
        ensures some { IfSome result (λ task. (from ≤ task) × (task < to) × May (running_of T.next T.rests self.now) task) }
        ensures first { IfSome result (λ task. (j : ℕ) → from ≤ j → j < task → May (running_of T.next T.rests self.now) j → ⊥) }
        ensures none { IfNone result ((j : ℕ) → from ≤ j → j < to → May (running_of T.next T.rests self.now) j → ⊥) }
    {
        for number in from..to {
            if may_turn(self.plan, &self.state, number) {
                return Some(number);
            }
        }
        None
    }

    // Returns the next task, round and round, that may take a turn.
    fn next(&self) -> Option<usize>
        ensures some { IfSome result (λ task. (task + 1 < 2 ^ 64) × May (running_of T.next T.rests self.now) task) }
        ensures first { IfSome result (λ task. (j : ℕ) → ComesBefore self.now.from j task → May (running_of T.next T.rests self.now) j → ⊥) }
        ensures none { IfNone result ((j : ℕ) → May (running_of T.next T.rests self.now) j → ⊥) }
    {
        match self.first_between(self.from, self.state.ready.len()) {
            Some(task) => Some(task),
            None => self.first_between(0, self.from),
        }
    }

    /// Takes the turn of the next task, round and round, that may take one, and returns what it was. Returns `None`, and
    /// changes nothing, exactly if no task has a turn: while one has, some task may take one.
    pub fn turn(&mut self) -> Option<Turned<M::Reply>>
        ensures turn { IfSome result (λ turned. HearsIn M.semantics M.starting turned.task (running_of T.next T.rests self.old) (running_of T.next T.rests self.new) turned.heard) }
        ensures first { IfSome result (λ turned. (j : ℕ) → ComesBefore self.old.from j turned.task → May (running_of T.next T.rests self.old) j → ⊥) }
        ensures from { IfSome result (λ turned. self.new.from ≡ turned.task + 1) }
        ensures none { IfNone result (list_any (λ b. b) self.old.ready ≡ false) }
        ensures kept { IfNone result (self.new ≡ self.old) }
    {
        let task = self.next()?;
        let heard = hear_turn(self.plan, &mut self.state, task)?;
        self.from = task + 1;
        Some(Turned { task, heard })
    }

    // Returns the outcome of a run that stops here.
    fn outcome(&self) -> Outcome
        ensures done { result ≡ Outcome.Done → AreOver (world_of M.semantics (running_of T.next T.rests self.now)) × (list_any (λ b. b) self.now.ready ≡ false) }
        ensures stalled { result ≡ Outcome.Stalled → IsStall M.semantics.meaning M.starting (world_of M.semantics (running_of T.next T.rests self.now)) }
        ensures limit { result ≡ Outcome.Limit → list_any (λ b. b) self.now.ready ≡ true }
    {
        if any_ready(&self.state.ready) {
            Outcome::Limit
        } else if all_done::<M, T>(self.plan, &self.state.positions) {
            Outcome::Done
        } else {
            Outcome::Stalled
        }
    }

    /// Takes turns, as `turn` does, until no task has one, or `limit` turns are taken. Returns `Limit` if a task has a
    /// turn then. Else returns `Done` if all tasks have ended or are where they may stay for ever, and `Stalled` if not.
    ///
    /// A run takes no memory beyond what the machine's steps take. A later run goes on where this one stopped.
    pub fn run(&mut self, limit: usize) -> Outcome
        ensures run { (schedule : List ℕ) × (length schedule ≤ limit) × (result ≡ Outcome.Limit → length schedule ≡ limit) × Follows M.semantics.meaning M.starting schedule (world_of M.semantics (running_of T.next T.rests self.old)) (world_of M.semantics (running_of T.next T.rests self.new)) × GoesRound M.semantics.meaning M.starting self.old.from self.new.from schedule (world_of M.semantics (running_of T.next T.rests self.old)) (world_of M.semantics (running_of T.next T.rests self.new)) }
        ensures done { result ≡ Outcome.Done → AreOver (world_of M.semantics (running_of T.next T.rests self.new)) × (list_any (λ b. b) self.new.ready ≡ false) }
        ensures stalled { result ≡ Outcome.Stalled → IsStall M.semantics.meaning M.starting (world_of M.semantics (running_of T.next T.rests self.new)) }
        ensures limit { result ≡ Outcome.Limit → list_any (λ b. b) self.new.ready ≡ true }
    {
        for _turn in 0..limit {
            if self.turn().is_none() {
                return self.outcome();
            }
        }
        self.outcome()
    }

    /// Returns the machine.
    pub fn machine(&self) -> &M
        ensures { result.now ≡ self.now.machine }
    {
        &self.state.machine
    }
}
