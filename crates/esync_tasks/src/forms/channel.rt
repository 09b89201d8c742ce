// The futures of channels, and of values that are used as any channel.
ghost use Rattle.std.specs.Prelude.{IsSome};
ghost use Rattle.esync_tasks.specs.Polled.{IfReady, OnPending};

use crate::future::Future;
use esync_base::waitqueue::{Context, Poll};
use esync_channel::channel::{DynamicChannel, ReceiveFuture, ReceiveReadyFuture, SendFuture};

/// Gives nothing. The future may be polled until the message is sent.
impl<C: DynamicChannel> Future<C::Waker> for SendFuture<'_, C> {
    type Output = ();

    ghost can_poll = { λ message. IsSome message };

    fn poll(&mut self, cx: &Context<C::Waker>) -> Poll<()> {
        SendFuture::poll(self, cx)
    }
}

/// Gives the message.
impl<C: DynamicChannel> Future<C::Waker> for ReceiveFuture<'_, C> {
    type Output = C::Message;

    fn poll(&mut self, cx: &Context<C::Waker>) -> Poll<C::Message> {
        ReceiveFuture::poll(self, cx)
    }
}

/// Gives nothing. The message stays in the channel.
impl<C: DynamicChannel> Future<C::Waker> for ReceiveReadyFuture<'_, C> {
    type Output = ();

    fn poll(&mut self, cx: &Context<C::Waker>) -> Poll<()> {
        ReceiveReadyFuture::poll(self, cx)
    }
}
