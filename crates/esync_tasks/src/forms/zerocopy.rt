// The future of a zero-copy channel.
ghost use Rattle.esync_tasks.specs.Polled.{IfReady, OnPending};

use crate::future::Future;
use esync_base::waitqueue::{Context, Hand, Poll};
use esync_zerocopy::zerocopy_channel::{SlotLoan, ZeroRequest};

/// Gives the loan of a slot.
impl<'a, T, W: Copy + Eq, H: Hand<W>> Future<W> for ZeroRequest<'a, T, W, H> {
    type Output = SlotLoan<'a, T, W, H>;

    fn poll(&mut self, cx: &Context<W>) -> Poll<SlotLoan<'a, T, W, H>> {
        ZeroRequest::poll(self, cx)
    }
}
