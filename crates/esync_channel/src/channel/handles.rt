//! Handles of a channel that can only send or only receive.
ghost use Rattle.std.specs.Prelude.{◌≡◌, ◌≤◌, Some, IfErr};

use super::{
    Channel, DynamicChannel, ReceiveFuture, ReceiveReadyFuture, SendFuture, SharedMailbox,
    TryReceiveError, TrySendError,
};
use esync_base::store::{FixedStore, Store};
use esync_base::waitqueue::{Context, Hand, Poll};

/// A handle of a channel that can only send. Each method makes the call of its name on the channel.
#[derive_where(Clone, Copy)]
pub struct Snd<'ch, C> {
    channel: &'ch C,
}

/// A handle of a channel of at most `N` messages that can only send.
pub type Sender<'ch, T, W, H, const N: usize> = Snd<'ch, Channel<T, W, H, N>>;

/// A handle of any channel that can only send.
pub type DynamicSender<'ch, C> = Snd<'ch, C>;

impl<'ch, C> Snd<'ch, C> {
    /// Returns a handle of the channel.
    pub(crate) fn new(channel: &'ch C) -> Self {
        Snd { channel }
    }
}

impl<'ch, C: DynamicChannel> Snd<'ch, C> {
    /// Returns a future that sends the message when there is room.
    pub fn send(&self, message: C::Message) -> SendFuture<'ch, C>
        ensures { result ≡ Some message }
    {
        SendFuture::new(self.channel, message)
    }

    /// Sends a message. If the channel is full, returns the message in the error.
    pub fn try_send(&self, message: C::Message) -> Result<(), TrySendError<C::Message>>
        ensures { IfErr result (λ error. error ≡ TrySendError.Full message) }
    {
        self.channel.try_send(message)
    }

    /// Polls for room: Ready if the channel isn't full. Registers the context's waker for room, whatever the answer.
    pub fn poll_ready_to_send(&self, cx: &Context<C::Waker>) -> Poll<()> {
        self.channel.poll_ready_to_send(cx)
    }
}

impl<'ch, S: FixedStore, W: Copy + Eq, H: Hand<W>> Snd<'ch, SharedMailbox<S, W, H>> {
    /// Returns how many messages the channel has room for in all. Takes no lock.
    pub fn capacity(&self) -> usize
        ensures { result ≡ S.keeping.capacity }
    {
        self.channel.capacity()
    }
}

impl<'ch, S: Store, W: Copy + Eq, H: Hand<W>> Snd<'ch, SharedMailbox<S, W, H>> {
    /// Returns how many more messages the channel has room for now.
    pub fn free_capacity(&self) -> usize
        ensures { result ≤ S.keeping.capacity }
    {
        self.channel.free_capacity()
    }

    /// Drops all messages, and wakes the task that is registered for room.
    pub fn clear(&self) {
        self.channel.clear()
    }

    /// Returns how many messages are in the channel now.
    pub fn len(&self) -> usize
        ensures { result ≤ S.keeping.capacity }
    {
        self.channel.len()
    }

    /// Returns whether the channel is empty now.
    pub fn is_empty(&self) -> bool {
        self.channel.is_empty()
    }

    /// Returns whether the channel is full now.
    pub fn is_full(&self) -> bool {
        self.channel.is_full()
    }
}

/// A handle of a channel that can only receive. Each method makes the call of its name on the channel.
#[derive_where(Clone, Copy)]
pub struct Rcv<'ch, C> {
    channel: &'ch C,
}

/// A handle of a channel of at most `N` messages that can only receive.
pub type Receiver<'ch, T, W, H, const N: usize> = Rcv<'ch, Channel<T, W, H, N>>;

/// A handle of any channel that can only receive.
pub type DynamicReceiver<'ch, C> = Rcv<'ch, C>;

impl<'ch, C> Rcv<'ch, C> {
    /// Returns a handle of the channel.
    pub(crate) fn new(channel: &'ch C) -> Self {
        Rcv { channel }
    }
}

impl<'ch, C: DynamicChannel> Rcv<'ch, C> {
    /// Returns a future that takes the first message when there is one.
    pub fn receive(&self) -> ReceiveFuture<'ch, C> {
        ReceiveFuture::new(self.channel)
    }

    /// Takes the first message and returns it. An error means that the channel is empty.
    pub fn try_receive(&self) -> Result<C::Message, TryReceiveError> {
        self.channel.try_receive()
    }

    /// Polls for a message: Ready if the channel isn't empty. Registers the context's waker for a message, whatever the
    /// answer.
    pub fn poll_ready_to_receive(&self, cx: &Context<C::Waker>) -> Poll<()> {
        self.channel.poll_ready_to_receive(cx)
    }

    /// Takes the first message and returns it. If the channel is empty, registers the context's waker for a message and
    /// returns Pending.
    pub fn poll_receive(&self, cx: &Context<C::Waker>) -> Poll<C::Message> {
        self.channel.poll_receive(cx)
    }
}

impl<'ch, T: Drop, W: Copy + Eq, H: Hand<W>, const N: usize> Receiver<'ch, T, W, H, N> {
    /// Returns a future that is ready when there is a message. The message stays in the channel.
    pub fn ready_to_receive(&self) -> ReceiveReadyFuture<'ch, Channel<T, W, H, N>> {
        self.channel.ready_to_receive()
    }
}

impl<'ch, S: FixedStore, W: Copy + Eq, H: Hand<W>> Rcv<'ch, SharedMailbox<S, W, H>> {
    /// Returns how many messages the channel has room for in all. Takes no lock.
    pub fn capacity(&self) -> usize
        ensures { result ≡ S.keeping.capacity }
    {
        self.channel.capacity()
    }
}

impl<'ch, S: Store, W: Copy + Eq, H: Hand<W>> Rcv<'ch, SharedMailbox<S, W, H>> {
    /// Returns how many more messages the channel has room for now.
    pub fn free_capacity(&self) -> usize
        ensures { result ≤ S.keeping.capacity }
    {
        self.channel.free_capacity()
    }

    /// Drops all messages, and wakes the task that is registered for room.
    pub fn clear(&self) {
        self.channel.clear()
    }

    /// Returns how many messages are in the channel now.
    pub fn len(&self) -> usize
        ensures { result ≤ S.keeping.capacity }
    {
        self.channel.len()
    }

    /// Returns whether the channel is empty now.
    pub fn is_empty(&self) -> bool {
        self.channel.is_empty()
    }

    /// Returns whether the channel is full now.
    pub fn is_full(&self) -> bool {
        self.channel.is_full()
    }
}
