// The futures of signals, once locks and watches.
ghost use Rattle.esync_tasks.specs.Polled.{IfReady, OnPending};

use super::ready_or_refused;
use crate::future::Future;
use esync_base::waitqueue::{Context, Hand, Poll};
use esync_cells::once_lock::OnceGet;
use esync_cells::signal::SignalWait;
use esync_cells::watch::{Sought, Waiting, WatchBehavior};
use std::alloc::AllocError;

/// Takes the value and gives it.
impl<T: Drop, W: Copy + Eq, H: Hand<W>> Future<W> for SignalWait<'_, T, W, H> {
    type Output = T;

    fn poll(&mut self, cx: &Context<W>) -> Poll<T> {
        SignalWait::poll(self, cx)
    }
}

/// Gives a loan of the value.
impl<'a, T: Drop, W: Copy, H: Hand<W>> Future<W> for OnceGet<'a, T, W, H> {
    type Output = &'a T;

    fn poll(&mut self, cx: &Context<W>) -> Poll<&'a T> {
        OnceGet::poll(self, cx)
    }
}

/// Gives a clone of the value that is awaited, or the error if there was no memory for it.
impl<B: WatchBehavior, S: Sought<B> + Drop> Future<B::Waker> for Waiting<'_, '_, B, S> {
    type Output = Result<B::Value, AllocError>;

    ghost can_poll = { λ waiting. S.can_look waiting.sought };

    fn poll(&mut self, cx: &Context<B::Waker>) -> Poll<Result<B::Value, AllocError>> {
        ready_or_refused(Waiting::poll(self, cx))
    }
}
