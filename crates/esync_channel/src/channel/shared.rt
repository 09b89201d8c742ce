//! A channel that tasks on several threads share by reference, and its futures.
ghost use Rattle.std.specs.Prelude.{◌≡◌, ◌≤◌, Some, IsSome, IfErr, is_none};
ghost use Rattle.esync_channel.specs.Polls.{LeavesRequest};

use super::{
    DynamicReceiver, DynamicSender, Mailbox, Rcv, SendRequest, Snd, TryReceiveError, TrySendError,
};
use esync_base::deque::Deque;
use esync_base::shared::Shared;
use esync_base::step;
use esync_base::store::{FixedStore, Store};
use esync_base::waitqueue::{Context, Hand, Poll};
use std::marker::Model;
use std::sync::Wait;

/// The calls of a channel that its dynamic handles need. Its type doesn't say the capacity, or how messages are kept.
pub trait DynamicChannel {
    type Message: Drop;

    type Waker: Copy + Eq;

    /// The handle by which a thread may wait for the channel's lock.
    type Rt: Wait;

    /// Sends a message. If the channel is full, returns the message in the error.
    fn try_send(&self, message: Self::Message) -> Result<(), TrySendError<Self::Message>>
        ensures { IfErr result (λ error. error ≡ TrySendError.Full message) };

    /// Sends a message. If the channel is full, returns the message in the error, and registers the waker of the
    /// context, if there is one, for room.
    fn try_send_with_context(
        &self,
        message: Self::Message,
        cx: Option<&Context<Self::Waker>>,
    ) -> Result<(), TrySendError<Self::Message>>
        ensures { IfErr result (λ error. error ≡ TrySendError.Full message) };

    /// Sends the message of the request. If the channel is full, registers the context's waker for room and returns
    /// Pending.
    fn poll_send(
        &self,
        request: &mut SendRequest<Self::Message>,
        cx: &Context<Self::Waker>,
    ) -> Poll<()>
        requires { IsSome request.old }
        ensures { LeavesRequest result request.old request.new };

    /// Takes the first message and returns it. An error means that the channel is empty.
    fn try_receive(&self) -> Result<Self::Message, TryReceiveError>;

    /// Takes the first message and returns it. If the channel is empty, returns an error, and registers the waker of
    /// the context, if there is one, for a message.
    fn try_receive_with_context(
        &self,
        cx: Option<&Context<Self::Waker>>,
    ) -> Result<Self::Message, TryReceiveError>;

    /// Polls for room: Ready if the channel isn't full. Registers the context's waker for room, whatever the answer.
    fn poll_ready_to_send(&self, cx: &Context<Self::Waker>) -> Poll<()>;

    /// Polls for a message: Ready if the channel isn't empty. Registers the context's waker for a message, whatever the
    /// answer.
    fn poll_ready_to_receive(&self, cx: &Context<Self::Waker>) -> Poll<()>;

    /// Takes the first message and returns it. If the channel is empty, registers the context's waker for a message and
    /// returns Pending.
    fn poll_receive(&self, cx: &Context<Self::Waker>) -> Poll<Self::Message>;
}

/// A bounded channel for communicating between tasks, with backpressure: at most `N` messages, oldest first.
pub type Channel<T, W, H, const N: usize> = SharedMailbox<Deque<T, N>, W, H>;

/// A channel that tasks on several threads share by reference.
///
/// Each call takes the lock, makes the call of its name on the state, and releases the lock. Then it gives each waker
/// that the step handed out to the hand, in order.
#[derive(Drop)]
pub struct SharedMailbox<S, W, H> {
    inner: Shared<Mailbox<S, W>, W, H>,
}

impl<S: FixedStore, W: Copy + Eq, H: Hand<W>> SharedMailbox<S, W, H> {
    /// Returns an empty channel without a registered waker.
    pub fn new(hand: H) -> Self {
        SharedMailbox {
            inner: Shared::new(Mailbox::new(), hand),
        }
    }

    /// Returns how many messages the channel has room for in all. Takes no lock.
    pub fn capacity(&self) -> usize
        ensures { result ≡ S.keeping.capacity }
    {
        S::places()
    }
}

impl<S: Store, W: Copy + Eq, H: Hand<W>> SharedMailbox<S, W, H> {
    /// Returns a handle that can only send.
    pub fn sender(&self) -> Snd<'_, Self> {
        Snd::new(self)
    }

    /// Returns a handle that can only receive.
    pub fn receiver(&self) -> Rcv<'_, Self> {
        Rcv::new(self)
    }

    /// Returns a future that sends the message when there is room.
    pub fn send(&self, message: S::Message) -> SendFuture<'_, Self>
        ensures { result ≡ Some message }
    {
        SendFuture::new(self, message)
    }

    /// Sends a message, and wakes the task that is registered for a message. If the channel is full, returns the
    /// message in the error.
    #[inline]
    pub fn try_send(&self, message: S::Message) -> Result<(), TrySendError<S::Message>>
        ensures { IfErr result (λ error. error ≡ TrySendError.Full message) }
    {
        step!(
            self.inner,
            |state, wakes| state.try_send(message, &mut wakes)
        )
    }

    /// Sends a message, and wakes the task that is registered for a message. If the channel is full, returns the
    /// message in the error, and registers the waker of the context, if there is one, for room.
    pub fn try_send_with_context(
        &self,
        message: S::Message,
        cx: Option<&Context<W>>,
    ) -> Result<(), TrySendError<S::Message>>
        ensures { IfErr result (λ error. error ≡ TrySendError.Full message) }
    {
        step!(
            self.inner,
            |state, wakes| state.try_send_with_context(message, cx, &mut wakes)
        )
    }

    /// Returns a future that takes the first message when there is one.
    pub fn receive(&self) -> ReceiveFuture<'_, Self> {
        ReceiveFuture::new(self)
    }

    /// Takes the first message and returns it. If the channel was full, wakes the task that is registered for room. An
    /// error means that the channel is empty.
    #[inline]
    pub fn try_receive(&self) -> Result<S::Message, TryReceiveError> {
        step!(self.inner, |state, wakes| state.try_receive(&mut wakes))
    }

    /// Takes the first message and returns it. If the channel was full, wakes the task that is registered for room. If
    /// it is empty, returns an error, and registers the waker of the context, if there is one, for a message.
    pub fn try_receive_with_context(
        &self,
        cx: Option<&Context<W>>,
    ) -> Result<S::Message, TryReceiveError> {
        step!(
            self.inner,
            |state, wakes| state.try_receive_with_context(cx, &mut wakes)
        )
    }

    /// Takes the first message and returns it. If the channel was full, wakes the task that is registered for room. If
    /// it is empty, registers the context's waker for a message and returns Pending.
    #[inline]
    pub fn poll_receive(&self, cx: &Context<W>) -> Poll<S::Message> {
        step!(
            self.inner,
            |state, wakes| state.poll_receive(cx, &mut wakes)
        )
    }

    /// Polls for a message: Ready if the channel isn't empty. Registers the context's waker for a message, whatever the
    /// answer.
    pub fn poll_ready_to_receive(&self, cx: &Context<W>) -> Poll<()> {
        step!(
            self.inner,
            |state, wakes| state.poll_ready_to_receive(cx, &mut wakes)
        )
    }

    /// Polls for room: Ready if the channel isn't full. Registers the context's waker for room, whatever the answer.
    pub fn poll_ready_to_send(&self, cx: &Context<W>) -> Poll<()> {
        step!(
            self.inner,
            |state, wakes| state.poll_ready_to_send(cx, &mut wakes)
        )
    }

    /// Returns how many more messages the channel has room for now.
    pub fn free_capacity(&self) -> usize
        ensures { result ≤ S.keeping.capacity }
    {
        self.inner.guard().free_capacity()
    }

    /// Drops all messages, and wakes the task that is registered for room.
    pub fn clear(&self) {
        step!(self.inner, |state, wakes| state.clear(&mut wakes))
    }

    /// Returns how many messages are in the channel now.
    pub fn len(&self) -> usize
        ensures { result ≤ S.keeping.capacity }
    {
        self.inner.guard().len()
    }

    /// Returns whether the channel is empty now.
    pub fn is_empty(&self) -> bool {
        self.inner.guard().is_empty()
    }

    /// Returns whether the channel is full now.
    pub fn is_full(&self) -> bool {
        self.inner.guard().is_full()
    }
}

impl<S: Store, W: Copy + Eq, H: Hand<W>> DynamicChannel for SharedMailbox<S, W, H> {
    type Message = S::Message;

    type Waker = W;

    type Rt = H::Rt;

    fn try_send(&self, message: S::Message) -> Result<(), TrySendError<S::Message>> {
        SharedMailbox::try_send(self, message)
    }

    fn try_receive(&self) -> Result<S::Message, TryReceiveError> {
        SharedMailbox::try_receive(self)
    }

    fn try_send_with_context(
        &self,
        message: S::Message,
        cx: Option<&Context<W>>,
    ) -> Result<(), TrySendError<S::Message>> {
        SharedMailbox::try_send_with_context(self, message, cx)
    }

    fn poll_send(&self, request: &mut SendRequest<S::Message>, cx: &Context<W>) -> Poll<()> {
        step!(
            self.inner,
            |state, wakes| request.poll_state(&mut *state, cx, &mut wakes)
        )
    }

    fn try_receive_with_context(
        &self,
        cx: Option<&Context<W>>,
    ) -> Result<S::Message, TryReceiveError> {
        SharedMailbox::try_receive_with_context(self, cx)
    }

    fn poll_ready_to_send(&self, cx: &Context<W>) -> Poll<()> {
        SharedMailbox::poll_ready_to_send(self, cx)
    }

    fn poll_ready_to_receive(&self, cx: &Context<W>) -> Poll<()> {
        SharedMailbox::poll_ready_to_receive(self, cx)
    }

    fn poll_receive(&self, cx: &Context<W>) -> Poll<S::Message> {
        SharedMailbox::poll_receive(self, cx)
    }
}

impl<T: Drop, W: Copy + Eq, H: Hand<W>, const N: usize> Channel<T, W, H, N> {
    /// Returns a handle that can only send. Its type doesn't say how the channel keeps its messages.
    pub fn dyn_sender(&self) -> DynamicSender<'_, Self> {
        self.sender()
    }

    /// Returns a handle that can only receive. Its type doesn't say how the channel keeps its messages.
    pub fn dyn_receiver(&self) -> DynamicReceiver<'_, Self> {
        self.receiver()
    }

    /// Returns a future that is ready when there is a message. The message stays in the channel.
    pub fn ready_to_receive(&self) -> ReceiveReadyFuture<'_, Self> {
        ReceiveReadyFuture { channel: self }
    }
}

/// A future that sends a message into a channel. `send` returns it.
#[must_use]
#[derive(Drop)]
pub struct SendFuture<'ch, C: DynamicChannel> {
    channel: &'ch C,
    request: SendRequest<C::Message>,
}

/// A message on its way into any channel.
pub type DynamicSendFuture<'ch, C> = SendFuture<'ch, C>;

impl<'ch, C: DynamicChannel> Model for SendFuture<'ch, C> {
    ghost use Rattle.std.specs.Prelude.{Option};
    ghost use Rattle.std.specs.Coded.{coded_option};

    ghost Value = { Option C.Message };

    ghost coded = { coded_option C.Message.code };

    ghost view = { λ a. a.request };
}

impl<'ch, C: DynamicChannel> SendFuture<'ch, C> {
    /// Returns a future whose message is still to be sent.
    pub(crate) fn new(channel: &'ch C, message: C::Message) -> Self
        ensures { result ≡ Some message }
    {
        SendFuture {
            channel,
            request: SendRequest::new(message),
        }
    }

    /// Returns whether the message was sent.
    pub fn is_finished(&self) -> bool
        ensures { result ≡ is_none self.now }
    {
        self.request.is_finished()
    }

    /// Sends the message. If the channel is full, registers the context's waker for room and returns Pending. A
    /// finished future may not be polled.
    pub fn poll(&mut self, cx: &Context<C::Waker>) -> Poll<()>
        requires { IsSome self.old }
        ensures { LeavesRequest result self.old self.new }
    {
        self.channel.poll_send(&mut self.request, cx)
    }
}

/// A future that takes a message from a channel. `receive` returns it. After it was ready, a poll takes the next
/// message.
#[must_use]
#[derive(Drop)]
pub struct ReceiveFuture<'ch, C> {
    channel: &'ch C,
}

/// A message on its way out of any channel.
pub type DynamicReceiveFuture<'ch, C> = ReceiveFuture<'ch, C>;

impl<'ch, C: DynamicChannel> ReceiveFuture<'ch, C> {
    /// Returns a future that takes from the channel.
    pub(crate) fn new(channel: &'ch C) -> Self {
        ReceiveFuture { channel }
    }

    /// Takes the first message and returns it. If the channel is empty, registers the context's waker for a message and
    /// returns Pending.
    pub fn poll(&mut self, cx: &Context<C::Waker>) -> Poll<C::Message> {
        self.channel.poll_receive(cx)
    }
}

/// A future that is ready when a channel has a message, which stays there. `ready_to_receive` returns it. After it was
/// ready, a poll looks for a message again.
#[must_use]
#[derive(Drop)]
pub struct ReceiveReadyFuture<'ch, C> {
    channel: &'ch C,
}

impl<'ch, C: DynamicChannel> ReceiveReadyFuture<'ch, C> {
    /// Polls for a message: Ready if the channel isn't empty. Registers the context's waker for a message, whatever the
    /// answer.
    pub fn poll(&mut self, cx: &Context<C::Waker>) -> Poll<()> {
        self.channel.poll_ready_to_receive(cx)
    }
}
