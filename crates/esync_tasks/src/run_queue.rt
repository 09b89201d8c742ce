//! The queue of the tasks that were woken.
ghost use Rattle.std.specs.Prelude.{◌≡◌, ◌<◌, ◌∷◌, [], length, slice_get, slice_set, Some, IfSome, IfNone, IsTrue, ◌↔◌, All};
ghost use Rattle.std.proofs.Math.ListN.{replicate};
ghost use Rattle.esync_tasks.specs.RunQueue.{all_queued, queued_last, in_state, woken, rested, ended, IsOutside, IsRunning, HasEnded, IsOrderly, StayOwed, OthersStayOwed, IsOwed, CanBeOwed};

use esync_base::deque::Deque;
use std::marker::Model;

/// The state of a task.
#[derive(Clone, Copy, Debug, PartialEq, Eq)]
pub enum TaskState {
    /// The task waits to be woken.
    Resting,
    /// The task was woken, and waits for its turn.
    Queued,
    /// The task has its turn, and wasn't woken since the turn began.
    Running,
    /// The task has its turn, and was woken since the turn began.
    Woken,
    /// The task is over.
    Ended,
}

// The state of each of N tasks.
#[derive(Drop)]
struct States<const N: usize> {
    places: [TaskState; N],
}

impl<const N: usize> States<N> {
    fn new() -> Self
        ensures { result.places ≡ replicate N TaskState.Queued }
    {
        States {
            places: [TaskState::Queued; N],
        }
    }

    fn get(&self, task: usize) -> Option<TaskState>
        ensures { result ≡ slice_get self.now.places task }
    {
        self.places.get(task).copied()
    }

    fn put(&mut self, task: usize, state: TaskState)
        requires { task < length self.old.places }
        ensures { self.new.places ≡ slice_set self.old.places task state }
    {
        self.places[task] = state;
    }
}

/// The state of each of `N` tasks, and the queue of the tasks that were woken. The first one in the queue has the next
/// turn.
///
/// A call takes no memory and looks at one task alone.
#[derive(Drop)]
pub struct RunQueue<const N: usize> {
    states: States<N>,
    queue: Deque<usize, N>,
    left: usize,
}

impl<const N: usize> Model for RunQueue<N> {
    ghost use Rattle.esync_tasks.specs.RunQueue.{Tasks};
    ghost use Rattle.esync_tasks.specs.Counted.{IsCounted};

    ghost Value = { Tasks };

    ghost view = { λ a. record { states = a.states.places; queue = a.queue.items } };

    ghost invariant = { λ a. IsCounted N a.states.places a.queue.items a.left };
}

impl<const N: usize> RunQueue<N> {
    /// Returns a queue in which all tasks stand, in order.
    pub fn new() -> Self
        ensures queued { result ≡ all_queued N }
        ensures orderly { IsOrderly N result }
    {
        let mut queue = Deque::new();
        for task in 0..N {
            let _ = queue.push_back(task);
        }
        RunQueue {
            states: States::new(),
            queue,
            left: N,
        }
    }

    // Puts a task at the end of the queue.
    fn queue_last(&mut self, task: usize)
        requires { IsOutside (slice_get self.old.states task) }
        ensures queued { self.new ≡ queued_last self.old task }
        ensures orderly { IsOrderly N self.new }
    {
        self.states.put(task, TaskState::Queued);
        let _ = self.queue.push_back(task);
    }

    // Changes the state of a task that stays outside the queue.
    fn mark(&mut self, task: usize, state: TaskState)
        requires before { IsOutside (slice_get self.old.states task) }
        requires after { IsOutside (Some state) }
        ensures marked { self.new ≡ in_state self.old task state }
        ensures orderly { IsOrderly N self.new }
    {
        self.states.put(task, state);
    }

    /// Wakes a task: a task that rests goes to the end of the queue, and a task that has its turn is marked. Any other
    /// task is owed a turn already, is over, or doesn't exist: nothing is changed then. Returns whether the task went
    /// to the queue.
    pub fn wake(&mut self, task: usize) -> bool
        ensures woken { self.new ≡ woken self.old task }
        ensures queued { IsTrue result ↔ (slice_get self.old.states task ≡ Some TaskState.Resting) }
        ensures orderly { IsOrderly N self.new }
        ensures owed { CanBeOwed self.old task → IsOwed self.new task }
        ensures others { StayOwed self.old self.new }
    {
        match self.states.get(task) {
            Some(TaskState::Resting) => {
                self.queue_last(task);
                true
            }
            Some(TaskState::Running) => {
                self.mark(task, TaskState::Woken);
                false
            }
            _ => false,
        }
    }

    /// Begins the turn of the task that is first in the queue, and returns its number. Returns `None` if the queue is
    /// empty.
    pub fn take(&mut self) -> Option<usize>
        ensures first { IfSome result (λ task. self.old.queue ≡ task ∷ self.new.queue) }
        ensures runs { IfSome result (λ task. self.new.states ≡ slice_set self.old.states task TaskState.Running) }
        ensures below { IfSome result (λ task. task < N) }
        ensures empty { IfNone result (self.old.queue ≡ []) }
        ensures none { IfNone result (self.new ≡ self.old) }
        ensures orderly { IsOrderly N self.new }
        ensures others { IfSome result (λ task. OthersStayOwed task self.old self.new) }
    {
        let task = self.queue.pop_front()?;
        self.states.put(task, TaskState::Running);
        Some(task)
    }

    /// Returns the number of tasks that wait for their turn.
    pub fn len(&self) -> usize
        ensures { result ≡ length self.now.queue }
    {
        self.queue.len()
    }

    /// Returns whether the task has its turn.
    pub fn is_running(&self, task: usize) -> bool
        ensures { IsTrue result ↔ IsRunning self.now task }
    {
        match self.states.get(task) {
            Some(TaskState::Running | TaskState::Woken) => true,
            _ => false,
        }
    }

    /// Ends the turn of a task that waits to be woken. If it was woken since its turn began, it goes to the end of the
    /// queue. Returns whether it did.
    pub fn rest(&mut self, task: usize) -> bool
        requires { IsRunning self.old task }
        ensures rested { self.new ≡ rested self.old task }
        ensures queued { IsTrue result ↔ (slice_get self.old.states task ≡ Some TaskState.Woken) }
        ensures orderly { IsOrderly N self.new }
        ensures owed { StayOwed self.old self.new }
    {
        if self.states.get(task) == Some(TaskState::Woken) {
            self.queue_last(task);
            true
        } else {
            self.mark(task, TaskState::Resting);
            false
        }
    }

    /// Ends a task, and with it the task's turn.
    pub fn end(&mut self, task: usize)
        requires { IsRunning self.old task }
        ensures ended { self.new ≡ ended self.old task }
        ensures orderly { IsOrderly N self.new }
        ensures others { OthersStayOwed task self.old self.new }
    {
        self.states.put(task, TaskState::Ended);
        self.left -= 1;
    }

    /// Returns whether all tasks are over, without looking at any task.
    pub fn is_over(&self) -> bool
        ensures { IsTrue result ↔ All HasEnded self.now.states }
    {
        self.left == 0
    }
}
