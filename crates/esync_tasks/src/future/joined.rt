// A future of two futures' outputs.
ghost use Rattle.std.specs.Prelude.{◌≡◌, ◌↔◌, IsTrue};
ghost use Rattle.esync_tasks.specs.Joined.{CanAdvance, MayGive, IsReady};

use crate::future::Future;
use esync_base::waitqueue::{Context, Poll};
use std::marker::Model;
use std::mem;

/// One of the two futures of a `Join`: still polled, or ready with its output, or with its output taken.
#[derive(Drop)]
pub enum Half<A, X> {
    Waits(A),
    Ready(X),
    Taken,
}

impl<A, X> Half<A, X> {
    // Polls the half's future, unless its output is there. Returns whether the output is there now.
    pub(crate) fn advance<W>(&mut self, cx: &Context<W>) -> bool
    where
        A: Future<W, Output = X>,
        X: Drop,
        requires { CanAdvance A.can_poll self.old }
        ensures again { CanAdvance A.can_poll self.new }
        ensures same { (output : _) → MayGive A.gives self.new output → MayGive A.gives self.old output }
        ensures ready { IsTrue result ↔ IsReady self.new }
    {
        let Half::Waits(future) = self else {
            return true;
        };
        match future.poll(cx) {
            Poll::Ready(output) => {
                *self = Half::Ready(output);
                true
            }
            Poll::Pending => false,
        }
    }
}

impl<A: Drop, X: Drop> Half<A, X> {
    // Takes the output, which must be there.
    pub(crate) fn take(&mut self) -> X
        requires { IsReady self.old }
        ensures output { self.old ≡ Half.Ready result }
        ensures taken { self.new ≡ Half.Taken }
    {
        match mem::replace(self, Half::Taken) {
            Half::Ready(output) => output,
            _ => unreachable!(),
        }
    }
}

/// Two futures as one, which gives both outputs: what `join` returns.
///
/// Each future is polled until it is ready, and never again. The earlier output is kept until the later one is there.
#[must_use]
#[derive(Drop)]
pub struct Join<A, B, X, Y> {
    pub(crate) first: Half<A, X>,
    pub(crate) second: Half<B, Y>,
}

impl<A, B, X, Y> Model for Join<A, B, X, Y> {
    ghost use Rattle.esync_tasks.specs.declared.future.joined.Half.{Half};

    ghost Value = { Half A X × Half B Y };

    ghost view = { λ both. (both.first, both.second) };
}

impl<W, A, B> Future<W> for Join<A, B, A::Output, B::Output>
where
    A: Future<W, Output: Drop>,
    B: Future<W, Output: Drop>,
{
    type Output = (A::Output, B::Output);

    ghost can_poll = { λ both. CanAdvance A.can_poll both.0 × CanAdvance B.can_poll both.1 };

    ghost gives = { λ both outputs. MayGive A.gives both.0 outputs.0 × MayGive B.gives both.1 outputs.1 };

    fn poll(&mut self, cx: &Context<W>) -> Poll<Self::Output> {
        let is_first_ready = self.first.advance(cx);
        let is_second_ready = self.second.advance(cx);
        if is_first_ready && is_second_ready {
            Poll::Ready((self.first.take(), self.second.take()))
        } else {
            Poll::Pending
        }
    }
}
