//! A pub-sub channel that tasks on several threads share by reference.
ghost use Rattle.std.specs.Prelude.{◌≡◌, ℕ, ◌<◌, ◌≤◌, IsSome, IfSome, IfErr};
ghost use Rattle.esync_log.specs.Log.{message_of};
ghost use Rattle.esync_pubsub.specs.PubSub.{still, GivesBack};
ghost use Rattle.esync_pubsub.specs.Steps.{most_wakes};

use super::{
    DynImmediatePublisher, DynPublisher, DynSubscriber, Error, Exhausted, ImmediatePub, Pub,
    PubSubOver, PublishRequest, Sub, SubId, TryPublishError, WaitResult,
};
use esync_base::shared::Shared;
use esync_base::step;
use esync_base::waitqueue::{Context, FixedList, Hand, Poll, WakerList, Wakes};
use esync_log::log::{FixedLog, Log};
use std::alloc::AllocError;
use std::sync::Wait;

/// What a publisher or a subscriber needs of its channel, whatever the capacities.
pub trait PubSubBehavior {
    type Message: Clone;

    type Waker: Copy + Eq;

    /// The runtime that may wait for the channel's lock.
    type Rt: Wait;

    ghost use Rattle.std.specs.Prelude.{ℕ};

    /// The greatest number of messages that the channel can hold.
    ghost places: { ℕ };

    /// Publishes a message at once. A full channel drops its oldest message, and a subscriber that had not read it
    /// lags.
    ///
    /// # Errors
    ///
    /// Returns `Exhausted` with the message if the numbers of messages have run out.
    fn publish_immediate(&self, message: Self::Message) -> Result<(), Exhausted<Self::Message>>
        ensures { IfErr result (λ back. back.0 ≡ message) };

    /// Returns the greatest number of messages that the channel can hold, without taking its lock.
    fn capacity(&self) -> usize
        ensures { result ≡ places };

    /// Returns whether the channel is full now.
    fn is_full(&self) -> bool;

    /// Returns the number of messages that the channel holds now.
    fn len(&self) -> usize
        ensures { result ≤ places };

    /// Returns the number of messages that the channel has room for now.
    fn free_capacity(&self) -> usize
        ensures { result ≤ places };

    /// Returns whether the channel holds no message now.
    fn is_empty(&self) -> bool;

    /// Drops all messages and wakes the tasks that wait for room. A subscriber that had not read them lags.
    fn clear(&self);

    /// Publishes a message to all subscribers. Returns it as an error if there is no room or the numbers of messages
    /// have run out.
    fn try_publish(&self, message: Self::Message) -> Result<(), TryPublishError<Self::Message>>
        ensures { IfErr result (λ error. message_of error ≡ message) };

    /// Polls a request: publishes its message if there is room, and otherwise registers the context's waker for room.
    fn poll_publish(
        &self,
        request: &mut PublishRequest<Self::Message>,
        cx: &Context<Self::Waker>,
    ) -> Poll<Result<(), Exhausted<Self::Message>>>
        requires { IsSome request.old }
        ensures request { IfSome request.old (λ message. request.new ≡ still message result) }
        ensures returned { IfSome request.old (λ message. GivesBack message result) };

    /// Reads the subscriber's next message or lag. Returns `None` once it has read all.
    fn try_next_message(&self, id: &SubId) -> Result<Option<WaitResult<Self::Message>>, AllocError>;

    /// Polls for the subscriber's next message or lag. If it has read all, registers the context's waker.
    fn poll_message(
        &self,
        id: &SubId,
        cx: &Context<Self::Waker>,
    ) -> Result<Poll<WaitResult<Self::Message>>, AllocError>;

    /// Reads the subscriber's next message, past a lag. Returns `None` once it has read all.
    fn try_next_message_pure(&self, id: &SubId) -> Result<Option<Self::Message>, AllocError>;

    /// Polls for the subscriber's next message, past a lag. If it has read all, registers the context's waker.
    fn poll_message_pure(
        &self,
        id: &SubId,
        cx: &Context<Self::Waker>,
    ) -> Result<Poll<Self::Message>, AllocError>;

    /// Polls the stream of the subscriber's messages. At a lag the context's waker is woken at once.
    fn poll_next(
        &self,
        id: &SubId,
        cx: &Context<Self::Waker>,
    ) -> Result<Poll<Option<Self::Message>>, AllocError>;

    /// Returns the number of messages published that the subscriber has not read, including those that left.
    fn available(&self, id: &SubId) -> u64;

    /// Removes the subscriber. If a message leaves with it, wakes the tasks that wait for room.
    fn unregister_subscriber(&self, id: SubId);

    /// Counts one publisher less.
    fn unregister_publisher(&self);
}

/// A pub-sub channel, of at most `CAP` messages, `SUBS` subscribers and `PUBS` publishers. `K` is the room for the wakers of a step: at
/// least `SUBS`, `PUBS` and 1, and below 65536.
pub type PubSubChannel<
    T,
    W,
    H,
    const CAP: usize,
    const SUBS: usize,
    const PUBS: usize,
    const K: usize,
> = SharedPubSub<Log<T, CAP, SUBS>, Wakes<W, SUBS>, Wakes<W, PUBS>, H, K>;

/// A pub-sub channel that tasks on several threads share by reference.
///
/// Each call takes the lock, makes the call of its name on the state and releases the lock. Then it gives each waker
/// that the step handed out to the hand, in order.
#[derive(Drop)]
pub struct SharedPubSub<
    G: FixedLog,
    S: WakerList,
    P: WakerList<Waker = S::Waker>,
    H,
    const K: usize,
> {
    inner: Shared<PubSubOver<G, S, P>, S::Waker, H>,
    ghost room: { most_wakes S.room P.room ≤ K },
    ghost small: { K < 65536 },
}

impl<
    G: FixedLog,
    S: FixedList,
    P: FixedList<Waker = S::Waker>,
    H: Hand<S::Waker>,
    const K: usize,
> SharedPubSub<G, S, P, H, K> {
    /// Returns an empty channel without subscribers, publishers or wakers, whose wakers go to the hand.
    ///
    /// A call hands out at most `K` wakers. `K` has to be at least 1, at least as many as may wait for a message, at
    /// least as many as may wait for room, and below 65536. A caller who takes `K` as a number of its own compares it,
    /// as by `2 <= K && K < 65536`.
    pub fn new(hand: H) -> Self
        requires capacity { 1 ≤ G.capacity }
        requires wakers { G.places ≤ S.room }
        requires room { most_wakes S.room P.room ≤ K }
        requires small { K < 65536 }
    {
        SharedPubSub {
            inner: Shared::new(PubSubOver::new(), hand),
        }
    }
}

impl<
    G: FixedLog,
    S: WakerList,
    P: WakerList<Waker = S::Waker>,
    H: Hand<S::Waker>,
    const K: usize,
> SharedPubSub<G, S, P, H, K> {
    /// Adds a subscriber, which reads the messages that are published from now on.
    ///
    /// # Errors
    ///
    /// Returns `MaximumSubscribersReached` if all places are taken.
    pub fn subscriber(&self) -> Result<Sub<'_, Self>, Error> {
        let id = self.inner.guard().subscribe()?;
        Ok(Sub::new(self, id))
    }

    /// Adds a subscriber, as `subscriber` does. Both calls return one type.
    pub fn dyn_subscriber(&self) -> Result<DynSubscriber<'_, Self>, Error> {
        self.subscriber()
    }

    /// Adds a publisher.
    ///
    /// # Errors
    ///
    /// Returns `MaximumPublishersReached` if the greatest number is counted.
    pub fn publisher(&self) -> Result<Pub<'_, Self>, Error> {
        self.inner.guard().add_publisher()?;
        Ok(Pub::new(self))
    }

    /// Adds a publisher, as `publisher` does. Both calls return one type.
    pub fn dyn_publisher(&self) -> Result<DynPublisher<'_, Self>, Error> {
        self.publisher()
    }

    /// Returns a publisher that never waits and isn't counted.
    pub fn immediate_publisher(&self) -> ImmediatePub<'_, Self> {
        ImmediatePub::new(self)
    }

    /// Returns a publisher that never waits, as `immediate_publisher` does. Both calls return one type.
    pub fn dyn_immediate_publisher(&self) -> DynImmediatePublisher<'_, Self> {
        self.immediate_publisher()
    }

    /// Returns the greatest number of messages that the channel can hold, without taking its lock.
    pub fn capacity(&self) -> usize
        ensures { result ≡ G.capacity }
    {
        G::messages()
    }

    /// Returns the number of messages that the channel has room for now.
    pub fn free_capacity(&self) -> usize
        ensures { result ≤ G.capacity }
    {
        G::messages() - self.len()
    }

    /// Drops all messages and wakes the tasks that wait for room. A subscriber that had not read them lags.
    pub fn clear(&self) {
        step!(self.inner, K, |state, wakes| state.clear(&mut wakes))
    }

    /// Returns the number of messages that the channel holds now.
    pub fn len(&self) -> usize
        ensures { result ≤ G.capacity }
    {
        self.inner.guard().len()
    }

    /// Returns whether the channel holds no message now.
    pub fn is_empty(&self) -> bool {
        self.len() == 0
    }

    /// Returns whether the channel is full now.
    pub fn is_full(&self) -> bool {
        self.len() == G::messages()
    }
}

impl<
    G: FixedLog,
    S: WakerList,
    P: WakerList<Waker = S::Waker>,
    H: Hand<S::Waker>,
    const K: usize,
> PubSubBehavior for SharedPubSub<G, S, P, H, K> {
    type Message = G::Message;

    type Waker = S::Waker;

    type Rt = H::Rt;

    ghost places = { G.capacity };

    fn publish_immediate(&self, message: G::Message) -> Result<(), Exhausted<G::Message>> {
        step!(
            self.inner,
            K,
            |state, wakes| state.publish_immediate(message, &mut wakes)
        )
    }

    fn capacity(&self) -> usize {
        SharedPubSub::capacity(self)
    }

    fn is_full(&self) -> bool {
        SharedPubSub::is_full(self)
    }

    fn len(&self) -> usize {
        SharedPubSub::len(self)
    }

    fn free_capacity(&self) -> usize {
        SharedPubSub::free_capacity(self)
    }

    fn is_empty(&self) -> bool {
        SharedPubSub::is_empty(self)
    }

    fn clear(&self) {
        SharedPubSub::clear(self)
    }

    fn try_publish(&self, message: G::Message) -> Result<(), TryPublishError<G::Message>> {
        step!(
            self.inner,
            K,
            |state, wakes| state.try_publish(message, &mut wakes)
        )
    }

    fn poll_publish(
        &self,
        request: &mut PublishRequest<G::Message>,
        cx: &Context<S::Waker>,
    ) -> Poll<Result<(), Exhausted<G::Message>>> {
        step!(
            self.inner,
            K,
            |state, wakes| state.poll_publish(request, cx, &mut wakes)
        )
    }

    fn try_next_message(&self, id: &SubId) -> Result<Option<WaitResult<G::Message>>, AllocError> {
        step!(
            self.inner,
            K,
            |state, wakes| state.read_next(id, &mut wakes)
        )
    }

    fn poll_message(
        &self,
        id: &SubId,
        cx: &Context<S::Waker>,
    ) -> Result<Poll<WaitResult<G::Message>>, AllocError> {
        step!(
            self.inner,
            K,
            |state, wakes| state.poll_message(id, cx, &mut wakes)
        )
    }

    fn try_next_message_pure(&self, id: &SubId) -> Result<Option<G::Message>, AllocError> {
        step!(self.inner, K, |state, wakes| state.read_on(id, &mut wakes))
    }

    fn poll_message_pure(
        &self,
        id: &SubId,
        cx: &Context<S::Waker>,
    ) -> Result<Poll<G::Message>, AllocError> {
        step!(
            self.inner,
            K,
            |state, wakes| state.poll_message_pure(id, cx, &mut wakes)
        )
    }

    fn poll_next(
        &self,
        id: &SubId,
        cx: &Context<S::Waker>,
    ) -> Result<Poll<Option<G::Message>>, AllocError> {
        step!(
            self.inner,
            K,
            |state, wakes| state.poll_stream(id, cx, &mut wakes)
        )
    }

    fn available(&self, id: &SubId) -> u64 {
        self.inner.guard().to_read(id)
    }

    fn unregister_subscriber(&self, id: SubId) {
        step!(
            self.inner,
            K,
            |state, wakes| state.unregister_subscriber(id, &mut wakes)
        )
    }

    fn unregister_publisher(&self) {
        self.inner.guard().unregister_publisher();
    }
}
