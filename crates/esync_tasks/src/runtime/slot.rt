//! A task of a run, and its output.
ghost use Rattle.std.specs.Prelude.{◌≡◌, ◌↔◌, IsTrue, IfOk, IfErr, All, vec_len};
ghost use Rattle.esync_tasks.specs.Joined.{IsReady, MayGive};

use crate::future::{Future, Half};
use esync_base::waitqueue::{Context, TaskId};
use std::alloc::Global;
use std::marker::Model;
use std::sync::{Mutex, Wait};

/// A task, or its output once it is over. A slot can always be polled.
#[derive(Drop)]
pub struct Slot<F: Future<TaskId>, X> {
    half: Half<F, X>,
}

impl<F: Future<TaskId>, X> Model for Slot<F, X> {
    ghost use Rattle.esync_tasks.specs.declared.future.joined.Half.{Half};
    ghost use Rattle.esync_tasks.specs.Joined.{CanAdvance};

    ghost Value = { Half F X };

    ghost view = { λ a. a.half };

    ghost invariant = { λ a. CanAdvance F.can_poll a.half };
}

impl<F: Future<TaskId, Output: Drop>> Slot<F, F::Output> {
    /// Returns a slot of a task that is still to be polled.
    pub(crate) fn new(task: F) -> Self
        requires { F.can_poll task }
        ensures { result ≡ Half.Waits task }
    {
        Slot {
            half: Half::Waits(task),
        }
    }

    /// Polls the task, unless it is over. Returns whether it is over now.
    pub(crate) fn poll(&mut self, cx: &Context<TaskId>) -> bool
        ensures ready { IsTrue result ↔ IsReady self.new }
        ensures same { (output : _) → MayGive F.gives self.new output → MayGive F.gives self.old output }
    {
        self.half.advance(cx)
    }

    /// Returns the output of the task. Polls a task that isn't over until it is.
    pub(crate) fn output<R: Wait>(self, rt: &R, cx: &Context<TaskId>) -> F::Output
        ensures { MayGive F.gives self result }
    {
        let Slot { half } = self;
        let mut half = half;
        for _ in rt.forever() {
            if half.advance(cx) {
                return half.take();
            }
        }
        unreachable!()
    }
}

/// Returns the tasks of a run, each under a lock of its own.
///
/// # Errors
///
/// Returns the tasks if there is no memory for the locks.
pub(crate) fn slots_of<F: Future<TaskId, Output: Drop>>(
    alloc: Global,
    tasks: Vec<F>,
) -> Result<Vec<Mutex<Slot<F, F::Output>>>, Vec<F>>
    requires { All F.can_poll tasks.items }
    ensures count { IfOk result (λ slots. vec_len slots ≡ vec_len tasks) }
    ensures returned { IfErr result (λ back. back ≡ tasks) }
{
    let Ok(mut slots) = Vec::with_capacity(alloc, tasks.len()) else {
        return Err(tasks);
    };
    for task in tasks {
        let _ = slots.push(Mutex::new(Slot::new(task)));
    }
    Ok(slots)
}
