// A future of the first output of two futures, and a future of one of two types.
ghost use Rattle.esync_tasks.specs.Selected.{Gives, IsEither, EitherGives};

use crate::future::Future;
use esync_base::waitqueue::{Context, Poll};
use std::marker::Model;

/// One of two values: the output of whichever future was ready, or a task of one of two types.
#[derive(Clone, Copy, Debug, PartialEq, Eq)]
pub enum Either<A, B> {
    First(A),
    Second(B),
}

/// Polls the future that the `Either` has.
impl<W, X, A: Future<W, Output = X>, B: Future<W, Output = X>> Future<W> for Either<A, B> {
    type Output = X;

    ghost can_poll = { IsEither A.can_poll B.can_poll };

    ghost gives = { EitherGives A.gives B.gives };

    fn poll(&mut self, cx: &Context<W>) -> Poll<X> {
        match self {
            Either::First(future) => future.poll(cx),
            Either::Second(future) => future.poll(cx),
        }
    }
}

/// Two futures as one, which gives the output that is there first: what `select` returns.
///
/// Each poll polls the first future, and then the second unless the first was ready. A future that isn't ready by then
/// is dropped with the `Select`, and so cancelled. Once it was ready, the `Select` isn't polled again.
#[must_use]
#[derive(Drop)]
pub struct Select<A, B> {
    pub(crate) first: A,
    pub(crate) second: B,
}

impl<A, B> Model for Select<A, B> {
    ghost Value = { A × B };

    ghost view = { λ both. (both.first, both.second) };
}

impl<W, A: Future<W>, B: Future<W>> Future<W> for Select<A, B> {
    type Output = Either<A::Output, B::Output>;

    ghost can_poll = { λ both. A.can_poll both.0 × B.can_poll both.1 };

    ghost gives = { λ both. Gives (A.gives both.0) (B.gives both.1) };

    fn poll(&mut self, cx: &Context<W>) -> Poll<Self::Output> {
        if let Poll::Ready(output) = self.first.poll(cx) {
            return Poll::Ready(Either::First(output));
        }
        if let Poll::Ready(output) = self.second.poll(cx) {
            return Poll::Ready(Either::Second(output));
        }
        Poll::Pending
    }
}
