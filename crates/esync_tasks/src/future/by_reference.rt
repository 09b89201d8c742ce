// A `&mut` to a future is itself a future, so that a task can poll a future and keep it.

use crate::future::Future;
use esync_base::waitqueue::{Context, Poll};

impl<W, F: Future<W>> Future<W> for &mut F {
    type Output = F::Output;

    ghost can_poll = { λ future. F.can_poll future.now };

    ghost gives = { λ future. F.gives future.now };

    fn poll(&mut self, cx: &Context<W>) -> Poll<F::Output> {
        (**self).poll(cx)
    }
}
