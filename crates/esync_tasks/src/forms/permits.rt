// The future of a semaphore, and the permits that it gives.
ghost use Rattle.std.specs.Prelude.{◌≡◌, IsSome, IfSome, IfOk};
ghost use Rattle.esync_permits.specs.Shared.{Suits, granted};
ghost use Rattle.esync_tasks.specs.Polled.{IfReady, OnPending};

use crate::future::Future;
use esync_base::waitqueue::{Context, Hand, Poll};
use esync_permits::semaphore::{Acquire, PermitState, SemaphoreReleaser, SharedSemaphore};
use std::marker::Model;

/// Permits that a future was granted: the releaser that `Acquire::poll` returns, with a type that names the semaphore.
/// Dropping them releases them.
pub struct Permits<'a, S: PermitState<Waker = W>, W: Copy + Eq, H: Hand<W>> {
    releaser: SemaphoreReleaser<&'a SharedSemaphore<S, W, H>>,
}

impl<'a, S: PermitState<Waker = W>, W: Copy + Eq, H: Hand<W>> Model for Permits<'a, S, W, H> {
    ghost use Rattle.std.specs.Prelude.{ℕ};
    ghost use Rattle.std.specs.Coded.{coded_ℕ};
    ghost use Rattle.esync_permits.specs.Shared.{granted};

    ghost Value = { ℕ };

    ghost coded = { coded_ℕ };

    ghost view = { λ a. granted a.releaser };
}

impl<S: PermitState<Waker = W>, W: Copy + Eq, H: Hand<W>> Drop for Permits<'_, S, W, H> {
    fn drop(self) {
        let Permits { releaser } = self;
        releaser.end();
    }
}

impl<'a, S: PermitState<Waker = W>, W: Copy + Eq, H: Hand<W>> Permits<'a, S, W, H> {
    /// Returns how many permits were granted.
    pub fn count(&self) -> usize
        ensures { result ≡ self.now }
    {
        self.releaser.permits()
    }

    /// Keeps the permits from being released, and returns how many they are.
    pub fn disarm(self) -> usize
        ensures { result ≡ self.entry }
    {
        let Permits { releaser } = self;
        releaser.disarm()
    }

    /// Releases the permits, as a drop does.
    pub fn end(self) {
        drop(self);
    }
}

/// Gives the permits that were asked for, or the reason why none are granted. The future may be polled until then.
impl<'a, S: PermitState<Waker = W>, W: Copy + Eq, H: Hand<W>> Future<W> for Acquire<'a, S, W, H> {
    type Output = Result<Permits<'a, S, W, H>, S::Error>;

    ghost can_poll = { λ request. IsSome (S.wanted request) };

    ghost gives = { λ request heard. IfOk heard (λ permits. IfSome (S.wanted request) (λ amount. Suits amount permits)) };

    fn poll(&mut self, cx: &Context<W>) -> Poll<Result<Permits<'a, S, W, H>, S::Error>> {
        match Acquire::poll(self, cx) {
            Poll::Ready(Ok(releaser)) => Poll::Ready(Ok(Permits { releaser })),
            Poll::Ready(Err(error)) => Poll::Ready(Err(error)),
            Poll::Pending => Poll::Pending,
        }
    }
}
