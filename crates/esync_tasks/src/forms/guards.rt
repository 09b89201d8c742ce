// The future of a mutex.
ghost use Rattle.esync_tasks.specs.Polled.{IfReady, OnPending};

use crate::future::Future;
use esync_base::waitqueue::{Context, Hand, Poll};
use esync_guards::mutex::{LockFuture, MutexGuard};

/// Gives the guard.
impl<'a, T, W: Copy + Eq, H: Hand<W>> Future<W> for LockFuture<'a, T, W, H> {
    type Output = MutexGuard<'a, T, W, H>;

    fn poll(&mut self, cx: &Context<W>) -> Poll<MutexGuard<'a, T, W, H>> {
        LockFuture::poll(self, cx)
    }
}
