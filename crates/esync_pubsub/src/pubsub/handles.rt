//! Publishers and subscribers of a shared channel, and their futures.
ghost use Rattle.std.specs.Prelude.{◌≡◌, ◌≤◌, Some, None, IsSome, IfSome, IfErr, is_none};
ghost use Rattle.esync_log.specs.Log.{message_of};
ghost use Rattle.esync_pubsub.specs.PubSub.{still, GivesBack, Flushes};

use super::{
    Exhausted, PubSubBehavior, PubSubChannel, PublishRequest, SubId, TryPublishError, WaitResult,
};
use esync_base::waitqueue::{Context, Poll};
use std::alloc::AllocError;
use std::marker::Model;

/// A publisher of a channel of at most `CAP` messages.
pub type Publisher<
    'a,
    T,
    W,
    H,
    const CAP: usize,
    const SUBS: usize,
    const PUBS: usize,
    const K: usize,
> = Pub<'a, PubSubChannel<T, W, H, CAP, SUBS, PUBS, K>>;

/// A publisher whose type doesn't say what capacities the channel has.
pub type DynPublisher<'a, B> = Pub<'a, B>;

/// A publisher of a channel. It is counted until it is dropped.
pub struct Pub<'a, B: PubSubBehavior> {
    channel: &'a B,
}

impl<'a, B: PubSubBehavior> Drop for Pub<'a, B> {
    fn drop(self) {
        let Pub { channel } = self;
        channel.unregister_publisher();
    }
}

impl<'a, B: PubSubBehavior> Pub<'a, B> {
    // Returns a publisher that the channel has counted.
    pub(crate) fn new(channel: &'a B) -> Self {
        Pub { channel }
    }

    /// Publishes a message at once. A full channel drops its oldest message, and a subscriber that had not read it
    /// lags.
    ///
    /// # Errors
    ///
    /// Returns `Exhausted` with the message if the numbers of messages have run out.
    pub fn publish_immediate(&self, message: B::Message) -> Result<(), Exhausted<B::Message>>
        ensures { IfErr result (λ back. back.0 ≡ message) }
    {
        self.channel.publish_immediate(message)
    }

    /// Returns a future that publishes the message once there is room.
    pub fn publish<'s>(&'s self, message: B::Message) -> PublisherWaitFuture<'s, B>
        ensures { result ≡ Some message }
    {
        PublisherWaitFuture {
            channel: self.channel,
            request: PublishRequest::new(message),
        }
    }

    /// Publishes a message if there is room.
    ///
    /// # Errors
    ///
    /// Returns the message: `Full` if the channel is full, otherwise `Exhausted` if the numbers of messages have run
    /// out.
    pub fn try_publish(&self, message: B::Message) -> Result<(), TryPublishError<B::Message>>
        ensures { IfErr result (λ error. message_of error ≡ message) }
    {
        self.channel.try_publish(message)
    }

    /// Returns a sink that publishes messages to the channel.
    pub fn sink<'s>(&'s self) -> PubSink<'s, B>
        ensures { result ≡ None }
    {
        PubSink {
            channel: self.channel,
            request: PublishRequest::finished(),
        }
    }

    /// Returns the greatest number of messages that the channel can hold, without taking its lock.
    pub fn capacity(&self) -> usize
        ensures { result ≡ B.places }
    {
        self.channel.capacity()
    }

    /// Returns the number of messages that the channel has room for now.
    pub fn free_capacity(&self) -> usize
        ensures { result ≤ B.places }
    {
        self.channel.free_capacity()
    }

    /// Drops all messages and wakes the tasks that wait for room. A subscriber that had not read them lags.
    pub fn clear(&self) {
        self.channel.clear()
    }

    /// Returns the number of messages that the channel holds now.
    pub fn len(&self) -> usize
        ensures { result ≤ B.places }
    {
        self.channel.len()
    }

    /// Returns whether the channel holds no message now.
    pub fn is_empty(&self) -> bool {
        self.channel.is_empty()
    }

    /// Returns whether the channel is full now.
    pub fn is_full(&self) -> bool {
        self.channel.is_full()
    }
}

/// A publisher that never waits, of a channel of at most `CAP` messages.
pub type ImmediatePublisher<
    'a,
    T,
    W,
    H,
    const CAP: usize,
    const SUBS: usize,
    const PUBS: usize,
    const K: usize,
> = ImmediatePub<'a, PubSubChannel<T, W, H, CAP, SUBS, PUBS, K>>;

/// A publisher that never waits, whose type doesn't say what capacities the channel has.
pub type DynImmediatePublisher<'a, B> = ImmediatePub<'a, B>;

/// A publisher that never waits. It isn't counted, so any number of them may exist.
#[derive(Drop)]
pub struct ImmediatePub<'a, B> {
    channel: &'a B,
}

impl<'a, B: PubSubBehavior> ImmediatePub<'a, B> {
    pub(crate) fn new(channel: &'a B) -> Self {
        ImmediatePub { channel }
    }

    /// Publishes a message at once. A full channel drops its oldest message, and a subscriber that had not read it
    /// lags.
    ///
    /// # Errors
    ///
    /// Returns `Exhausted` with the message if the numbers of messages have run out.
    pub fn publish_immediate(&self, message: B::Message) -> Result<(), Exhausted<B::Message>>
        ensures { IfErr result (λ back. back.0 ≡ message) }
    {
        self.channel.publish_immediate(message)
    }

    /// Publishes a message if there is room.
    ///
    /// # Errors
    ///
    /// Returns the message: `Full` if the channel is full, otherwise `Exhausted` if the numbers of messages have run
    /// out.
    pub fn try_publish(&self, message: B::Message) -> Result<(), TryPublishError<B::Message>>
        ensures { IfErr result (λ error. message_of error ≡ message) }
    {
        self.channel.try_publish(message)
    }

    /// Returns the greatest number of messages that the channel can hold, without taking its lock.
    pub fn capacity(&self) -> usize
        ensures { result ≡ B.places }
    {
        self.channel.capacity()
    }

    /// Returns the number of messages that the channel has room for now.
    pub fn free_capacity(&self) -> usize
        ensures { result ≤ B.places }
    {
        self.channel.free_capacity()
    }

    /// Drops all messages and wakes the tasks that wait for room. A subscriber that had not read them lags.
    pub fn clear(&self) {
        self.channel.clear()
    }

    /// Returns the number of messages that the channel holds now.
    pub fn len(&self) -> usize
        ensures { result ≤ B.places }
    {
        self.channel.len()
    }

    /// Returns whether the channel holds no message now.
    pub fn is_empty(&self) -> bool {
        self.channel.is_empty()
    }

    /// Returns whether the channel is full now.
    pub fn is_full(&self) -> bool {
        self.channel.is_full()
    }
}

/// A subscriber of a channel of at most `CAP` messages.
pub type Subscriber<
    'a,
    T,
    W,
    H,
    const CAP: usize,
    const SUBS: usize,
    const PUBS: usize,
    const K: usize,
> = Sub<'a, PubSubChannel<T, W, H, CAP, SUBS, PUBS, K>>;

/// A subscriber whose type doesn't say what capacities the channel has.
pub type DynSubscriber<'a, B> = Sub<'a, B>;

/// A subscriber of a channel. It leaves the channel when it is dropped.
pub struct Sub<'a, B: PubSubBehavior> {
    channel: &'a B,
    id: SubId,
}

impl<'a, B: PubSubBehavior> Drop for Sub<'a, B> {
    fn drop(self) {
        let Sub { channel, id } = self;
        channel.unregister_subscriber(id);
    }
}

impl<'a, B: PubSubBehavior> Sub<'a, B> {
    // Returns the subscriber that the channel knows by this name.
    pub(crate) fn new(channel: &'a B, id: SubId) -> Self {
        Sub { channel, id }
    }

    /// Returns a future of the subscriber's next message, or of how many messages left before it read them.
    pub fn next_message<'s>(&'s mut self) -> SubscriberWaitFuture<'s, 'a, B> {
        SubscriberWaitFuture { subscriber: self }
    }

    /// Returns a future of the subscriber's next message, which passes over a lag.
    pub fn next_message_pure<'s>(&'s mut self) -> NextMessagePure<'s, 'a, B> {
        NextMessagePure { subscriber: self }
    }

    /// Reads the next message, or returns how many messages left before the subscriber read them. Returns `None` once
    /// it has read all.
    ///
    /// # Errors
    ///
    /// Returns the error if a clone has no memory. Nothing is changed.
    pub fn try_next_message(&mut self) -> Result<Option<WaitResult<B::Message>>, AllocError> {
        self.channel.try_next_message(&self.id)
    }

    /// Reads the next message. A subscriber that lags goes on from the oldest message. Returns `None` once it has read
    /// all.
    ///
    /// # Errors
    ///
    /// Returns the error if a clone has no memory. Nothing is changed: a subscriber that lagged still does.
    pub fn try_next_message_pure(&mut self) -> Result<Option<B::Message>, AllocError> {
        self.channel.try_next_message_pure(&self.id)
    }

    /// Polls the stream of the subscriber's messages, which has no end. At a lag the answer is Pending, and the
    /// context's waker is woken at once. If the subscriber has read all, registers the context's waker.
    ///
    /// # Errors
    ///
    /// Returns the error if a clone has no memory. Nothing is changed.
    pub fn poll_next(
        &mut self,
        cx: &Context<B::Waker>,
    ) -> Result<Poll<Option<B::Message>>, AllocError> {
        self.channel.poll_next(&self.id, cx)
    }

    /// Returns the number of messages published that the subscriber has not read, including those that left.
    pub fn available(&self) -> u64 {
        self.channel.available(&self.id)
    }

    /// Returns the greatest number of messages that the channel can hold, without taking its lock.
    pub fn capacity(&self) -> usize
        ensures { result ≡ B.places }
    {
        self.channel.capacity()
    }

    /// Returns the number of messages that the channel has room for now.
    pub fn free_capacity(&self) -> usize
        ensures { result ≤ B.places }
    {
        self.channel.free_capacity()
    }

    /// Drops all messages and wakes the tasks that wait for room. A subscriber that had not read them lags.
    pub fn clear(&self) {
        self.channel.clear()
    }

    /// Returns the number of messages that the channel holds now.
    pub fn len(&self) -> usize
        ensures { result ≤ B.places }
    {
        self.channel.len()
    }

    /// Returns whether the channel holds no message now.
    pub fn is_empty(&self) -> bool {
        self.channel.is_empty()
    }

    /// Returns whether the channel is full now.
    pub fn is_full(&self) -> bool {
        self.channel.is_full()
    }
}

/// The future of a message that is to be published: what `publish` returns.
#[must_use]
#[derive(Drop)]
pub struct PublisherWaitFuture<'s, B: PubSubBehavior> {
    channel: &'s B,
    request: PublishRequest<B::Message>,
}

impl<'s, B: PubSubBehavior> Model for PublisherWaitFuture<'s, B> {
    ghost use Rattle.std.specs.Prelude.{Option};
    ghost use Rattle.std.specs.Coded.{coded_option};

    ghost Value = { Option B.Message };

    ghost coded = { coded_option B.Message.code };

    ghost view = { λ a. a.request };
}

impl<'s, B: PubSubBehavior> PublisherWaitFuture<'s, B> {
    /// Returns whether the message was published or refused for good.
    pub fn is_finished(&self) -> bool
        ensures { result ≡ is_none self.now }
    {
        self.request.is_finished()
    }

    /// Polls the future: publishes the message if there is room, and otherwise registers the context's waker for room.
    /// The future must not be finished.
    ///
    /// # Errors
    ///
    /// Returns `Exhausted` with the message if the numbers of messages have run out. The future is finished.
    pub fn poll(&mut self, cx: &Context<B::Waker>) -> Poll<Result<(), Exhausted<B::Message>>>
        requires { IsSome self.old }
        ensures request { IfSome self.old (λ message. self.new ≡ still message result) }
        ensures returned { IfSome self.old (λ message. GivesBack message result) }
    {
        self.channel.poll_publish(&mut self.request, cx)
    }
}

/// The future of a subscriber's next message or lag: what `next_message` returns. A poll after it was ready reads anew.
#[must_use]
#[derive(Drop)]
pub struct SubscriberWaitFuture<'s, 'a, B: PubSubBehavior> {
    subscriber: &'s mut Sub<'a, B>,
}

impl<'s, 'a, B: PubSubBehavior> SubscriberWaitFuture<'s, 'a, B> {
    /// Polls for the next message, or for how many messages left before the subscriber read them. If it has read all,
    /// registers the context's waker.
    ///
    /// # Errors
    ///
    /// Returns the error if a clone has no memory. Nothing is changed.
    pub fn poll(
        &mut self,
        cx: &Context<B::Waker>,
    ) -> Result<Poll<WaitResult<B::Message>>, AllocError> {
        self.subscriber
            .channel
            .poll_message(&self.subscriber.id, cx)
    }
}

/// The future of a subscriber's next message, which passes over a lag: what `next_message_pure` returns. A poll after
/// it was ready reads anew.
#[must_use]
#[derive(Drop)]
pub struct NextMessagePure<'s, 'a, B: PubSubBehavior> {
    subscriber: &'s mut Sub<'a, B>,
}

impl<'s, 'a, B: PubSubBehavior> NextMessagePure<'s, 'a, B> {
    /// Polls for the next message. A subscriber that lags goes on from the oldest message. If it has read all,
    /// registers the context's waker.
    ///
    /// # Errors
    ///
    /// Returns the error if a clone has no memory. Nothing is changed: a subscriber that lagged still does.
    pub fn poll(&mut self, cx: &Context<B::Waker>) -> Result<Poll<B::Message>, AllocError> {
        self.subscriber
            .channel
            .poll_message_pure(&self.subscriber.id, cx)
    }
}

/// A sink for messages to be published: what `sink` returns. It stores one message, and each poll publishes the stored
/// one.
#[must_use]
#[derive(Drop)]
pub struct PubSink<'s, B: PubSubBehavior> {
    channel: &'s B,
    request: PublishRequest<B::Message>,
}

impl<'s, B: PubSubBehavior> Model for PubSink<'s, B> {
    ghost use Rattle.std.specs.Prelude.{Option};
    ghost use Rattle.std.specs.Coded.{coded_option};

    ghost Value = { Option B.Message };

    ghost coded = { coded_option B.Message.code };

    ghost view = { λ a. a.request };
}

impl<'s, B: PubSubBehavior> PubSink<'s, B> {
    /// Polls whether the sink can take a message: publishes the stored one first, if any. Pending while there is no
    /// room for it.
    ///
    /// # Errors
    ///
    /// Returns `Exhausted` with the message if the numbers of messages have run out. The sink then stores none.
    pub fn poll_ready(&mut self, cx: &Context<B::Waker>) -> Poll<Result<(), Exhausted<B::Message>>>
        ensures { Flushes self.old result self.new }
    {
        self.poll(cx)
    }

    /// Stores a message. It replaces a message that is still stored, which is lost.
    pub fn start_send(&mut self, message: B::Message)
        ensures { self.new ≡ Some message }
    {
        self.request = PublishRequest::new(message);
    }

    /// Polls whether the sink stores no message: publishes the stored one first, if any. Pending while there is no room
    /// for it.
    ///
    /// # Errors
    ///
    /// Returns `Exhausted` with the message if the numbers of messages have run out. The sink then stores none.
    pub fn poll_flush(&mut self, cx: &Context<B::Waker>) -> Poll<Result<(), Exhausted<B::Message>>>
        ensures { Flushes self.old result self.new }
    {
        self.poll(cx)
    }

    /// Polls whether the sink can end without loss: publishes the stored message first, if any. Pending while there is
    /// no room for it.
    ///
    /// # Errors
    ///
    /// Returns `Exhausted` with the message if the numbers of messages have run out. The sink then stores none.
    pub fn poll_close(&mut self, cx: &Context<B::Waker>) -> Poll<Result<(), Exhausted<B::Message>>>
        ensures { Flushes self.old result self.new }
    {
        self.poll(cx)
    }

    // Publishes the stored message, if there is one.
    fn poll(&mut self, cx: &Context<B::Waker>) -> Poll<Result<(), Exhausted<B::Message>>>
        ensures { Flushes self.old result self.new }
    {
        if self.request.is_finished() {
            return Poll::Ready(Ok(()));
        }
        self.channel.poll_publish(&mut self.request, cx)
    }
}
