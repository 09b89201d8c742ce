//! Tasks, and the queue in which they wait for their turn.
ghost use Rattle.std.specs.Prelude.{◌≡◌, [], ◌∷◌, length, map, IfOk, IfSome, IfNone};
ghost use Rattle.std.specs.List.{list_all};
ghost use Rattle.esync_base.specs.Rows.{items_of};
ghost use Rattle.esync_history.specs.Todo.{fresh, has_ended, put_back, woken, unended, IsOrderly};

use crate::executor::Act;
use crate::queue::Queue;
use esync_base::waitqueue::TaskId;
use std::alloc::{AllocError, Global};
use std::marker::Model;
use std::vec::IntoIter;

/// What a task has still to do.
#[derive(Drop)]
pub struct Task<A, C> {
    request: Option<usize>,
    acts: IntoIter<Act<A, C>>,
}

impl<A, C> Model for Task<A, C> {
    ghost use Rattle.std.specs.Vec.Iter.{into_iter_items};
    ghost use Rattle.esync_history.specs.Todo.{Todo};

    ghost Value = { Todo A C };

    ghost view = { λ a. record { request = a.request; acts = into_iter_items a.acts } };
}

impl<A, C> Task<A, C> {
    /// Returns a task with these acts.
    pub fn new(acts: Vec<Act<A, C>>) -> Self
        ensures { result ≡ fresh acts.items }
    {
        Task {
            request: None,
            acts: acts.into_iter(),
        }
    }

    /// Returns whether the task's last act is over.
    pub fn has_ended(&self) -> bool
        ensures { result ≡ has_ended self.now }
    {
        self.request.is_none() && self.acts.len() == 0
    }

    /// Returns the number of the request at which the task stands, if any.
    pub fn request(&self) -> Option<usize>
        ensures { result ≡ self.now.request }
    {
        self.request
    }

    /// Lets the task stand at this request, or at none.
    pub fn stand_at(&mut self, request: Option<usize>)
        ensures { self.new ≡ record { request = request; acts = self.old.acts } }
    {
        self.request = request;
    }

    /// Takes the task's next act. Returns `None` if no act is left.
    pub fn next_act(&mut self) -> Option<Act<A, C>>
        ensures some { IfSome result (λ act. self.old.acts ≡ act ∷ self.new.acts) }
        ensures none { IfNone result (self.old.acts ≡ []) }
        ensures request { self.new.request ≡ self.old.request }
    {
        self.acts.next()
    }
}

/// Returns the tasks with these acts.
///
/// # Errors
///
/// Returns the error if there is no memory for them.
pub fn make_tasks<A: Drop, C: Drop>(
    alloc: Global,
    tasks: Vec<Vec<Act<A, C>>>,
) -> Result<Vec<Task<A, C>>, AllocError>
    ensures { IfOk result (λ made. made.items ≡ map (λ acts. fresh acts.items) tasks.items) }
{
    tasks.into_iter().map(Task::new).collect(alloc)
}

/// Puts a task at the back of the queue, unless it is queued or has ended, or there is no such task.
pub fn put_back<A, C>(tasks: &[Task<A, C>], queue: &mut Queue, number: usize)
    requires { queue.old.room ≡ length tasks.now }
    ensures { queue.new ≡ record { room = queue.old.room; numbers = put_back tasks.now queue.old.numbers number } }
{
    if let Some(task) = tasks.get(number)
        && !task.has_ended()
    {
        queue.push(number);
    }
}

/// Puts the tasks that the wakers name at the back of the queue, in order, as `put_back` does.
pub fn wake_all<A, C>(tasks: &[Task<A, C>], queue: &mut Queue, wakers: &[Option<TaskId>])
    requires { queue.old.room ≡ length tasks.now }
    ensures { queue.new ≡ record { room = queue.old.room; numbers = woken tasks.now queue.old.numbers (items_of wakers.now) } }
{
    for waker in wakers {
        if let Some(TaskId(number)) = waker {
            put_back(tasks, queue, *number as usize);
        }
    }
}

/// Puts all tasks that haven't ended in an empty queue, in order.
pub fn queue_all<A, C>(tasks: &[Task<A, C>], queue: &mut Queue)
    requires empty { queue.old.numbers ≡ [] }
    requires room { queue.old.room ≡ length tasks.now }
    ensures queue { queue.new ≡ record { room = queue.old.room; numbers = unended tasks.now } }
    ensures orderly { IsOrderly tasks.now queue.new }
{
    for number in 0..tasks.len() {
        put_back(tasks, queue, number);
    }
}

/// Returns whether all tasks have ended.
pub fn all_ended<A, C>(tasks: &[Task<A, C>]) -> bool
    ensures { result ≡ list_all has_ended tasks.now }
{
    tasks.iter().all(|task| task.has_ended())
}
