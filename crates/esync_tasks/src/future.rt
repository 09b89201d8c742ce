//! The futures that a task polls until they are ready: those of the shared forms, two futures as one, and tasks written
//! by hand.
ghost use Rattle.esync_tasks.specs.Polled.{IfReady, OnPending};

mod by_reference;
mod joined;
mod make;
mod selected;

use esync_base::waitqueue::{Context, Poll};
pub use joined::{Half, Join};
pub use make::{join, select};
pub use selected::{Either, Select};

/// A value that may come later, for which a task with a waker of type `W` polls.
///
/// A poll that answers Pending must have registered the context's waker, or handed it out, so that the task is woken
/// once another poll is worth it. A future that is dropped is cancelled.
pub trait Future<W>: Drop {
    /// The value that the future gives once it is ready.
    type Output;

    ghost use Rattle.std.specs.Prelude.{⊤};

    /// The condition under which the future may be polled. By default it always holds.
    ghost can_poll: { Self → Type 0 } = { λ _. ⊤ };

    /// The outputs that the future may give. By default any.
    ghost gives: { Self → Self.Output → Type 0 } = { λ _ _. ⊤ };

    /// Polls the future and returns its output if it is there. Otherwise the answer is Pending, the context's waker
    /// waits for another poll to be worth it, and the future may be polled again.
    fn poll(&mut self, cx: &Context<W>) -> Poll<Self::Output>
        requires { can_poll self.old }
        ensures value { IfReady result (gives self.old) }
        ensures again { OnPending result (can_poll self.new) }
        ensures same { OnPending result ((output : _) → gives self.new output → gives self.old output) };
}
