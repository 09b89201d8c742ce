// The futures of publishers and subscribers.
ghost use Rattle.std.specs.Prelude.{◌≡◌, IsSome, IfSome, IfErr};
ghost use Rattle.esync_tasks.specs.Polled.{IfReady, OnPending};

use super::ready_or_refused;
use crate::future::Future;
use esync_base::waitqueue::{Context, Poll};
use esync_pubsub::pubsub::{
    Exhausted, NextMessagePure, PubSubBehavior, PublisherWaitFuture, SubscriberWaitFuture,
    WaitResult,
};
use std::alloc::AllocError;

/// Gives the outcome of the publish. The future may be polled until the message is published or comes back. A message
/// that comes back is the one that the future was given.
impl<B: PubSubBehavior> Future<B::Waker> for PublisherWaitFuture<'_, B> {
    type Output = Result<(), Exhausted<B::Message>>;

    ghost can_poll = { λ message. IsSome message };

    ghost gives = { λ message output. IfSome message (λ m. IfErr output (λ back. back.0 ≡ m)) };

    fn poll(&mut self, cx: &Context<B::Waker>) -> Poll<Result<(), Exhausted<B::Message>>> {
        PublisherWaitFuture::poll(self, cx)
    }
}

/// Gives the subscriber's next message or lag, or the error if there was no memory for a clone.
impl<B: PubSubBehavior> Future<B::Waker> for SubscriberWaitFuture<'_, '_, B> {
    type Output = Result<WaitResult<B::Message>, AllocError>;

    fn poll(&mut self, cx: &Context<B::Waker>) -> Poll<Result<WaitResult<B::Message>, AllocError>> {
        ready_or_refused(SubscriberWaitFuture::poll(self, cx))
    }
}

/// Gives the subscriber's next message, or the error if there was no memory for a clone.
impl<B: PubSubBehavior> Future<B::Waker> for NextMessagePure<'_, '_, B> {
    type Output = Result<B::Message, AllocError>;

    fn poll(&mut self, cx: &Context<B::Waker>) -> Poll<Result<B::Message, AllocError>> {
        ready_or_refused(NextMessagePure::poll(self, cx))
    }
}
