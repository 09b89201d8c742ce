//! A pub-sub channel: a published message reaches all who subscribed before.
ghost use Rattle.std.specs.Prelude.{◌≡◌, ◌+◌, ◌-◌, ◌<◌, ◌≤◌, ◌++◌, ◌↔◌, IsTrue, [], None, Some, IsSome, IfSome, IfOk, OnErr, is_none, length, not, nat_lt};
ghost use Rattle.esync_log.specs.Counts.{readers_of};
ghost use Rattle.esync_log.specs.Log.{oldest, has_subscribers, is_live, position, left, cleared, Publishes, PublishesAtOnce, lags, caught, Reads, ReadsOn, Streams, IsRefused};
ghost use Rattle.esync_pubsub.specs.PubSub.{fresh, Subscribes, Adds, frees, lists_after_news, wakes_of_news, lists_after_room, wakes_of_room, lists_after_publish, wakes_of_publish, tried, still, lists_after_immediate, wakes_of_immediate, heard, lists_after_read, wakes_of_read, lists_after_stream, wakes_of_stream};

pub mod machine;

use esync_base::waitqueue::{
    Context, FixedList, Poll, Registered, WakerList, WakerRegistrations, Wakes,
};
pub use esync_log::log::{Exhausted, FixedLog, Log, LogStore, TryPublishError, WaitResult};
pub use handles::{
    DynImmediatePublisher, DynPublisher, DynSubscriber, ImmediatePub, ImmediatePublisher,
    NextMessagePure, Pub, PubSink, Publisher, PublisherWaitFuture, Sub, Subscriber,
    SubscriberWaitFuture,
};
pub use shared::{PubSubBehavior, PubSubChannel, SharedPubSub};
use std::alloc::AllocError;
use std::fmt::{self, Debug};
use std::marker::{Model, PhantomData};
use thiserror::Error;

mod handles;
mod kept;
mod shared;
mod steps;

/// The reason why a subscriber or a publisher was refused.
#[derive(Clone, Copy, Debug, PartialEq, Eq, Error)]
pub enum Error {
    /// All places for subscribers are taken.
    #[error("the maximum of subscribers is reached")]
    MaximumSubscribersReached,
    /// The greatest number of publishers is counted.
    #[error("the maximum of publishers is reached")]
    MaximumPublishersReached,
}

/// The name of a subscriber: its place.
#[derive(Debug, Drop)]
pub struct SubId {
    place: usize,
}

impl Model for SubId {
    ghost use Rattle.std.specs.Prelude.{ℕ};

    ghost Value = { ℕ };

    ghost view = { λ a. a.place };

    ghost inverse = { λ n. record { place = n } };
}

/// The state of a pub-sub channel of at most `CAP` messages, at most `SUBS` subscribers and at most `PUBS` publishers.
pub type PubSubState<T, W, const CAP: usize, const SUBS: usize, const PUBS: usize> = PubSubOver<
    Log<T, CAP, SUBS>,
    Wakes<W, SUBS>,
    Wakes<W, PUBS>,
>;

/// The state of a pub-sub channel: its messages, how far each subscriber has read, how many publishers are counted, and
/// two lists of wakers, of tasks that wait for a message and of tasks that wait for room. At most as many publishers
/// are counted as the second list has room for.
///
/// A call takes no lock and never blocks. It appends the wakers that it hands out to the list of wakes that it is
/// given.
#[derive_where(Debug; G: fmt::Debug, S: fmt::Debug, P: fmt::Debug)]
#[derive(Drop)]
pub struct PubSubOver<G: LogStore, S: WakerList, P: WakerList<Waker = S::Waker>> {
    publishers: usize,
    subscriber_wakers: WakerRegistrations<S>,
    publisher_wakers: WakerRegistrations<P>,
    // Names what a message borrows, which the checker looks for in the type of a field.
    #[derive_where(skip)]
    message: PhantomData<G::Message>,
    log: G,
}

impl<G: LogStore, S: WakerList, P: WakerList<Waker = S::Waker>> Model for PubSubOver<G, S, P> {
    ghost use Rattle.std.specs.Prelude.{◌≤◌};
    ghost use Rattle.esync_pubsub.specs.PubSub.{PubSub, pubsub_code};

    ghost Value = { PubSub G.Message S.Waker };

    ghost coded = { pubsub_code G.Message.code S.Waker.code };

    ghost view = { λ a. record { log = G.log a.log; publishers = a.publishers; lists = record { subscribers = a.subscriber_wakers; publishers = a.publisher_wakers } } };

    ghost invariant = { λ a. (a.publishers ≤ P.room) × (G.places ≤ S.room) };
}

/// The wakers of the tasks that wait for a message, and of those that wait for room.
impl<G: LogStore, S: WakerList, P: WakerList<Waker = S::Waker>> Registered for PubSubOver<G, S, P> {
    type Waker = S::Waker;

    ghost use Rattle.esync_base.specs.Standing.{at_two};

    ghost at = { λ m. at_two m.lists.subscribers m.lists.publishers };

    fn registered(&self, place: usize, i: usize) -> Option<S::Waker> {
        match place {
            0 => self.subscriber_wakers.get(i),
            1 => self.publisher_wakers.get(i),
            _ => None,
        }
    }
}

impl<G: FixedLog, S: FixedList, P: FixedList<Waker = S::Waker>> PubSubOver<G, S, P> {
    /// Returns an empty channel without subscribers, publishers or wakers. The first message gets the number 0.
    pub fn new() -> Self
        requires messages { 1 ≤ G.capacity }
        requires wakers { G.places ≤ S.room }
        ensures { result ≡ fresh G.places 0 }
    {
        PubSubOver::new_at(0)
    }

    /// Returns an empty channel without subscribers, publishers or wakers. The first message gets the number `next`.
    pub fn new_at(next: u64) -> Self
        requires messages { 1 ≤ G.capacity }
        requires wakers { G.places ≤ S.room }
        ensures { result ≡ fresh G.places next }
    {
        PubSubOver::over(G::new_at(next), S::new(), P::new())
    }
}

impl<G: LogStore, S: WakerList, P: WakerList<Waker = S::Waker>> PubSubOver<G, S, P> {
    /// Returns a channel with the messages and subscribers of the log, without publishers, and with these lists for the
    /// wakers of subscribers and of publishers. No waker may be in them.
    pub fn over(log: G, subscribers: S, publishers: P) -> Self
        requires places { G.places ≤ S.room }
        requires subscribers { S.wakers subscribers ≡ [] }
        requires publishers { P.wakers publishers ≡ [] }
        ensures { result ≡ record { log = G.log log; publishers = 0; lists = record { subscribers = []; publishers = [] } } }
    {
        PubSubOver {
            publishers: 0,
            subscriber_wakers: WakerRegistrations::over(subscribers),
            publisher_wakers: WakerRegistrations::over(publishers),
            message: PhantomData,
            log,
        }
    }

    /// Returns the log of the messages.
    pub fn log(&self) -> &G
        ensures { G.log result.now ≡ self.now.log }
    {
        &self.log
    }

    /// Adds a subscriber at the least free place and returns its name. It reads the messages that are published from
    /// now on.
    ///
    /// # Errors
    ///
    /// `MaximumSubscribersReached` if all places are taken. Nothing is changed.
    pub fn subscribe(&mut self) -> Result<SubId, Error>
        ensures log { Subscribes self.old.log result self.new.log }
        ensures rest { self.new ≡ record self.old { log = self.new.log } }
    {
        let Some(place) = self.log.join() else {
            return Err(Error::MaximumSubscribersReached);
        };
        Ok(SubId { place })
    }

    /// Returns whether the subscriber is here.
    pub fn is_subscriber(&self, id: &SubId) -> bool
        ensures { result ≡ is_live id.now self.now.log }
    {
        self.log.is_live(id.place)
    }

    /// Removes the subscriber. The messages that no subscriber has still to read leave with it. If one leaves, hands
    /// out the wakers that wait for room.
    pub fn leave<const K: usize>(&mut self, id: SubId, wakes: &mut Wakes<S::Waker, K>)
        requires live { IsTrue (is_live id self.old.log) }
        requires room { length wakes.old + P.room ≤ K }
        ensures state { self.new ≡ record self.old { log = left id self.old.log; lists = lists_after_room (frees self.old.log (left id self.old.log)) self.old.lists } }
        ensures wakes { wakes.new ≡ wakes.old ++ wakes_of_room (frees self.old.log (left id self.old.log)) self.old.lists }
    {
        let held = self.log.len();
        self.log.leave(id.place);
        self.tell_room(held, wakes);
    }

    /// Counts one more publisher.
    ///
    /// # Errors
    ///
    /// `MaximumPublishersReached` if the greatest number is counted. Nothing is changed.
    pub fn add_publisher(&mut self) -> Result<(), Error>
        ensures count { Adds P.room self.old.publishers result self.new.publishers }
        ensures rest { self.new ≡ record self.old { publishers = self.new.publishers } }
    {
        if self.publishers >= self.publisher_wakers.room() {
            return Err(Error::MaximumPublishersReached);
        }
        self.publishers += 1;
        Ok(())
    }

    /// Counts one publisher less. At least one must be counted, as `publishers` tells.
    pub fn remove_publisher(&mut self)
        requires { 1 ≤ self.old.publishers }
        ensures { self.new ≡ record self.old { publishers = self.old.publishers - 1 } }
    {
        self.publishers -= 1;
    }

    /// Returns the number of publishers that are counted.
    pub fn publishers(&self) -> usize
        ensures value { result ≡ self.now.publishers }
        ensures within { result ≤ P.room }
    {
        self.publishers
    }

    // Hands out the wakers that wait for a message, if the channel had a subscriber when it accepted one.
    fn tell_news<const K: usize>(&mut self, has_subscribers: bool, wakes: &mut Wakes<S::Waker, K>)
        requires { length wakes.old + S.room ≤ K }
        ensures state { self.new ≡ record self.old { lists = lists_after_news has_subscribers self.old.lists } }
        ensures wakes { wakes.new ≡ wakes.old ++ wakes_of_news has_subscribers self.old.lists }
    {
        if has_subscribers {
            self.subscriber_wakers.wake(wakes);
        }
    }

    // Hands out the wakers that wait for room, if the log holds fewer messages than it did.
    fn tell_room<const K: usize>(&mut self, held: usize, wakes: &mut Wakes<S::Waker, K>)
        requires { length wakes.old + P.room ≤ K }
        ensures state { self.new ≡ record self.old { lists = lists_after_room (nat_lt (length self.old.log.held) held) self.old.lists } }
        ensures wakes { wakes.new ≡ wakes.old ++ wakes_of_room (nat_lt (length self.old.log.held) held) self.old.lists }
    {
        if self.publisher_wakers.is_empty() {
            return;
        }
        if self.has_freed(held) {
            self.publisher_wakers.wake(wakes);
        }
    }

    // Returns whether the log holds fewer messages than it did.
    fn has_freed(&self, held: usize) -> bool
        ensures { result ≡ nat_lt (length self.now.log.held) held }
    {
        self.log.len() < held
    }

    /// Publishes a message to all subscribers, and hands out the wakers that wait for a message. Without subscribers
    /// the message is dropped and no waker is handed out.
    ///
    /// # Errors
    ///
    /// Returns the message and changes nothing: `Full` if the channel is full, otherwise `Exhausted` if the numbers of
    /// messages have run out.
    pub fn try_publish<const K: usize>(
        &mut self,
        message: G::Message,
        wakes: &mut Wakes<S::Waker, K>,
    ) -> Result<(), TryPublishError<G::Message>>
        requires { length wakes.old + S.room ≤ K }
        ensures log { Publishes G.capacity message self.old.log result self.new.log }
        ensures rest { self.new ≡ record self.old { log = self.new.log; lists = lists_after_publish S.Waker.eq P.room None (has_subscribers self.old.log) result self.old.lists } }
        ensures wakes { wakes.new ≡ wakes.old ++ wakes_of_publish S.Waker.eq P.room None (has_subscribers self.old.log) result self.old.lists }
    {
        let has_subscribers = self.log.has_subscribers();
        match self.log.publish(message) {
            Ok(()) => {
                self.tell_news(has_subscribers, wakes);
                Ok(())
            }
            Err(TryPublishError::Full(message)) => Err(TryPublishError::Full(message)),
            Err(TryPublishError::Exhausted(message)) => Err(TryPublishError::Exhausted(message)),
        }
    }

    // Publishes a message. If the log is full, registers the waker for room.
    fn publish_or_wait<const K: usize>(
        &mut self,
        message: G::Message,
        waker: S::Waker,
        wakes: &mut Wakes<S::Waker, K>,
    ) -> Result<(), TryPublishError<G::Message>>
        requires subscribers { length wakes.old + S.room ≤ K }
        requires place { 1 ≤ P.room }
        requires publishers { length wakes.old + P.room ≤ K }
        ensures log { Publishes G.capacity message self.old.log result self.new.log }
        ensures rest { self.new ≡ record self.old { log = self.new.log; lists = lists_after_publish S.Waker.eq P.room (Some waker) (has_subscribers self.old.log) result self.old.lists } }
        ensures wakes { wakes.new ≡ wakes.old ++ wakes_of_publish S.Waker.eq P.room (Some waker) (has_subscribers self.old.log) result self.old.lists }
    {
        match self.try_publish(message, wakes) {
            Ok(()) => Ok(()),
            Err(TryPublishError::Full(message)) => {
                self.publisher_wakers.register(waker, wakes);
                Err(TryPublishError::Full(message))
            }
            Err(TryPublishError::Exhausted(message)) => Err(TryPublishError::Exhausted(message)),
        }
    }

    /// Publishes a message to all subscribers, and hands out the wakers that wait for a message. Without subscribers
    /// the message is dropped and no waker is handed out. If the channel is full, registers the context's waker for
    /// room.
    ///
    /// # Errors
    ///
    /// Returns the message and keeps the log: `Full` if the channel is full, otherwise `Exhausted` if the numbers of
    /// messages have run out.
    pub fn publish_with_context<const K: usize>(
        &mut self,
        message: G::Message,
        cx: &Context<S::Waker>,
        wakes: &mut Wakes<S::Waker, K>,
    ) -> Result<(), TryPublishError<G::Message>>
        requires subscribers { length wakes.old + S.room ≤ K }
        requires place { 1 ≤ P.room }
        requires publishers { length wakes.old + P.room ≤ K }
        ensures log { Publishes G.capacity message self.old.log result self.new.log }
        ensures rest { self.new ≡ record self.old { log = self.new.log; lists = lists_after_publish S.Waker.eq P.room (Some cx.now) (has_subscribers self.old.log) result self.old.lists } }
        ensures wakes { wakes.new ≡ wakes.old ++ wakes_of_publish S.Waker.eq P.room (Some cx.now) (has_subscribers self.old.log) result self.old.lists }
    {
        self.publish_or_wait(message, cx.waker(), wakes)
    }

    /// Publishes a message at once, and hands out the wakers that wait for a message if there is a subscriber. A full
    /// channel drops its oldest message, and a subscriber that had not read it lags.
    ///
    /// # Errors
    ///
    /// Returns `Exhausted` with the message if the numbers of messages have run out. Nothing is changed.
    pub fn publish_immediate<const K: usize>(
        &mut self,
        message: G::Message,
        wakes: &mut Wakes<S::Waker, K>,
    ) -> Result<(), Exhausted<G::Message>>
        requires { length wakes.old + S.room ≤ K }
        ensures log { PublishesAtOnce G.capacity message self.old.log result self.new.log }
        ensures rest { self.new ≡ record self.old { log = self.new.log; lists = lists_after_immediate (has_subscribers self.old.log) result self.old.lists } }
        ensures wakes { wakes.new ≡ wakes.old ++ wakes_of_immediate (has_subscribers self.old.log) result self.old.lists }
    {
        let has_subscribers = self.log.has_subscribers();
        match self.log.publish_immediate(message) {
            Ok(()) => {
                self.tell_news(has_subscribers, wakes);
                Ok(())
            }
            Err(refused) => Err(refused),
        }
    }

    /// Returns the number of messages published that the subscriber has not read, including those that left.
    pub fn available(&self, id: &SubId) -> u64
        requires { IsTrue (is_live id.now self.now.log) }
        ensures { result ≡ self.now.log.next - position id.now self.now.log }
    {
        self.log.available(id.place)
    }

    /// Drops all messages and hands out the wakers that wait for room. A subscriber that had not read them lags.
    pub fn clear<const K: usize>(&mut self, wakes: &mut Wakes<S::Waker, K>)
        requires { length wakes.old + P.room ≤ K }
        ensures state { self.new ≡ record self.old { log = cleared self.old.log; lists = record self.old.lists { publishers = [] } } }
        ensures wakes { wakes.new ≡ wakes.old ++ self.old.lists.publishers }
        ensures at_most { length wakes.new ≤ length wakes.old + P.room }
    {
        self.log.clear();
        self.publisher_wakers.wake(wakes);
    }

    /// Returns the number of messages that the channel holds, which is at most the number ever published.
    pub fn len(&self) -> usize
        ensures value { result ≡ length self.now.log.held }
        ensures within { result ≤ G.capacity }
        ensures numbered { length self.now.log.held ≤ self.now.log.next }
    {
        self.log.len()
    }

    /// Returns how many subscribers have still to read message `index`, where message 0 is the oldest. Returns `None`
    /// if the channel holds no more than `index` messages.
    pub fn reader_count(&self, index: usize) -> Option<usize>
        ensures held { index < length self.now.log.held → result ≡ Some (readers_of (oldest self.now.log + index) self.now.log.positions) }
        ensures none { length self.now.log.held ≤ index → result ≡ None }
    {
        self.log.reader_count(index)
    }

    /// Returns whether the channel holds no message.
    pub fn is_empty(&self) -> bool
        ensures { IsTrue result ↔ (self.now.log.held ≡ []) }
    {
        self.log.is_empty()
    }

    /// Returns whether the channel is full.
    pub fn is_full(&self) -> bool
        ensures { result ≡ not (nat_lt (length self.now.log.held) G.capacity) }
    {
        self.log.is_full()
    }

    /// Returns the greatest number of messages that the channel can hold.
    pub fn capacity(&self) -> usize
        ensures { result ≡ G.capacity }
    {
        self.log.capacity()
    }

    /// Returns the number of messages that the channel has room for.
    pub fn free_capacity(&self) -> usize
        ensures { result + length self.now.log.held ≡ G.capacity }
    {
        self.log.capacity() - self.len()
    }

    /// Reads the next message, or returns how many messages left before the subscriber read them. Returns `None` once
    /// it has read all. The last reader gets the message itself, which leaves and hands out the wakers that wait for
    /// room. An earlier reader gets a clone.
    ///
    /// # Errors
    ///
    /// Returns the error if a clone has no memory. Nothing is changed.
    pub fn try_next_message<const K: usize>(
        &mut self,
        id: &SubId,
        wakes: &mut Wakes<S::Waker, K>,
    ) -> Result<Option<WaitResult<G::Message>>, AllocError>
        requires live { IsTrue (is_live id.now self.old.log) }
        requires room { length wakes.old + P.room ≤ K }
        ensures place { id.now < G.places }
        ensures ok { IfOk result (λ answer. Reads G.Message.is_clone id.now self.old.log answer self.new.log) }
        ensures rest { IfOk result (λ answer. self.new ≡ record self.old { log = self.new.log; lists = lists_after_read S.Waker.eq S.room None answer (frees self.old.log self.new.log) self.old.lists }) }
        ensures wakes { IfOk result (λ answer. wakes.new ≡ wakes.old ++ wakes_of_read S.Waker.eq S.room None answer (frees self.old.log self.new.log) self.old.lists) }
        ensures refused { OnErr result (IsRefused G.Message.is_infallible id.now (position id.now self.old.log) self.old.log) }
        ensures unchanged { OnErr result (self.new ≡ self.old) }
        ensures unwoken { OnErr result (wakes.new ≡ wakes.old) }
    {
        let held = self.log.len();
        match self.log.read(id.place) {
            Ok(Some(answer)) => {
                self.tell_room(held, wakes);
                Ok(Some(answer))
            }
            Ok(None) => Ok(None),
            Err(error) => Err(error),
        }
    }

    /// Polls for the next message, or for how many messages left before the subscriber read them. If it has read all,
    /// registers the context's waker. A message that leaves hands out the wakers that wait for room.
    ///
    /// # Errors
    ///
    /// Returns the error if a clone has no memory. Nothing is changed.
    pub fn get_message_with_context<const K: usize>(
        &mut self,
        id: &SubId,
        cx: &Context<S::Waker>,
        wakes: &mut Wakes<S::Waker, K>,
    ) -> Result<Poll<WaitResult<G::Message>>, AllocError>
        requires live { IsTrue (is_live id.now self.old.log) }
        requires subscribers { length wakes.old + S.room ≤ K }
        requires publishers { length wakes.old + P.room ≤ K }
        ensures ok { IfOk result (λ answer. Reads G.Message.is_clone id.now self.old.log (heard answer) self.new.log) }
        ensures rest { IfOk result (λ answer. self.new ≡ record self.old { log = self.new.log; lists = lists_after_read S.Waker.eq S.room (Some cx.now) (heard answer) (frees self.old.log self.new.log) self.old.lists }) }
        ensures wakes { IfOk result (λ answer. wakes.new ≡ wakes.old ++ wakes_of_read S.Waker.eq S.room (Some cx.now) (heard answer) (frees self.old.log self.new.log) self.old.lists) }
        ensures refused { OnErr result (IsRefused G.Message.is_infallible id.now (position id.now self.old.log) self.old.log) }
        ensures unchanged { OnErr result (self.new ≡ self.old) }
        ensures unwoken { OnErr result (wakes.new ≡ wakes.old) }
    {
        match self.try_next_message(id, wakes) {
            Ok(Some(answer)) => Ok(Poll::Ready(answer)),
            Ok(None) => {
                self.subscriber_wakers.register(cx.waker(), wakes);
                Ok(Poll::Pending)
            }
            Err(error) => Err(error),
        }
    }

    /// Reads the next message. A subscriber that lags goes on from the oldest message. Returns `None` once it has read
    /// all. A message that leaves hands out the wakers that wait for room.
    ///
    /// # Errors
    ///
    /// Returns the error if a clone has no memory. Nothing is changed: a subscriber that lagged still does.
    pub fn try_next_message_pure<const K: usize>(
        &mut self,
        id: &SubId,
        wakes: &mut Wakes<S::Waker, K>,
    ) -> Result<Option<G::Message>, AllocError>
        requires live { IsTrue (is_live id.now self.old.log) }
        requires room { length wakes.old + P.room ≤ K }
        ensures place { id.now < G.places }
        ensures ok { IfOk result (λ answer. ReadsOn G.Message.is_clone id.now self.old.log answer self.new.log) }
        ensures rest { IfOk result (λ answer. self.new ≡ record self.old { log = self.new.log; lists = lists_after_read S.Waker.eq S.room None answer (frees self.old.log self.new.log) self.old.lists }) }
        ensures wakes { IfOk result (λ answer. wakes.new ≡ wakes.old ++ wakes_of_read S.Waker.eq S.room None answer (frees self.old.log self.new.log) self.old.lists) }
        ensures refused { OnErr result (IsRefused G.Message.is_infallible id.now (position id.now (caught id.now self.old.log)) self.old.log) }
        ensures unchanged { OnErr result (self.new ≡ self.old) }
        ensures unwoken { OnErr result (wakes.new ≡ wakes.old) }
    {
        let held = self.log.len();
        match self.log.read_on(id.place) {
            Ok(Some(message)) => {
                self.tell_room(held, wakes);
                Ok(Some(message))
            }
            Ok(None) => Ok(None),
            Err(error) => Err(error),
        }
    }

    /// Polls for the next message. A subscriber that lags goes on from the oldest message. If it has read all,
    /// registers the context's waker. A message that leaves hands out the wakers that wait for room.
    ///
    /// # Errors
    ///
    /// Returns the error if a clone has no memory. Nothing is changed: a subscriber that lagged still does.
    pub fn get_message_pure_with_context<const K: usize>(
        &mut self,
        id: &SubId,
        cx: &Context<S::Waker>,
        wakes: &mut Wakes<S::Waker, K>,
    ) -> Result<Poll<G::Message>, AllocError>
        requires live { IsTrue (is_live id.now self.old.log) }
        requires subscribers { length wakes.old + S.room ≤ K }
        requires publishers { length wakes.old + P.room ≤ K }
        ensures ok { IfOk result (λ answer. ReadsOn G.Message.is_clone id.now self.old.log (heard answer) self.new.log) }
        ensures rest { IfOk result (λ answer. self.new ≡ record self.old { log = self.new.log; lists = lists_after_read S.Waker.eq S.room (Some cx.now) (heard answer) (frees self.old.log self.new.log) self.old.lists }) }
        ensures wakes { IfOk result (λ answer. wakes.new ≡ wakes.old ++ wakes_of_read S.Waker.eq S.room (Some cx.now) (heard answer) (frees self.old.log self.new.log) self.old.lists) }
        ensures refused { OnErr result (IsRefused G.Message.is_infallible id.now (position id.now (caught id.now self.old.log)) self.old.log) }
        ensures unchanged { OnErr result (self.new ≡ self.old) }
        ensures unwoken { OnErr result (wakes.new ≡ wakes.old) }
    {
        match self.try_next_message_pure(id, wakes) {
            Ok(Some(message)) => Ok(Poll::Ready(message)),
            Ok(None) => {
                self.subscriber_wakers.register(cx.waker(), wakes);
                Ok(Poll::Pending)
            }
            Err(error) => Err(error),
        }
    }

    /// Polls the stream of a subscriber's messages, which has no end. A subscriber that lags goes on from the oldest
    /// message: the answer is then Pending, and the context's waker is handed out at once. If the subscriber has read
    /// all, registers the context's waker. A message that leaves hands out the wakers that wait for room.
    ///
    /// # Errors
    ///
    /// Returns the error if a clone has no memory. Nothing is changed.
    pub fn poll_next<const K: usize>(
        &mut self,
        id: &SubId,
        cx: &Context<S::Waker>,
        wakes: &mut Wakes<S::Waker, K>,
    ) -> Result<Poll<Option<G::Message>>, AllocError>
        requires live { IsTrue (is_live id.now self.old.log) }
        requires subscribers { length wakes.old + S.room ≤ K }
        requires publishers { length wakes.old + P.room ≤ K }
        requires one { length wakes.old + 1 ≤ K }
        ensures ok { IfOk result (λ answer. Streams G.Message.is_clone id.now self.old.log answer self.new.log) }
        ensures rest { IfOk result (λ answer. self.new ≡ record self.old { log = self.new.log; lists = lists_after_stream S.Waker.eq S.room cx.now (lags id.now self.old.log) answer (frees self.old.log self.new.log) self.old.lists }) }
        ensures wakes { IfOk result (λ answer. wakes.new ≡ wakes.old ++ wakes_of_stream S.Waker.eq S.room cx.now (lags id.now self.old.log) answer (frees self.old.log self.new.log) self.old.lists) }
        ensures refused { OnErr result (IsRefused G.Message.is_infallible id.now (position id.now self.old.log) self.old.log) }
        ensures unchanged { OnErr result (self.new ≡ self.old) }
        ensures unwoken { OnErr result (wakes.new ≡ wakes.old) }
    {
        match self.get_message_with_context(id, cx, wakes) {
            Ok(Poll::Ready(WaitResult::Message(message))) => Ok(Poll::Ready(Some(message))),
            Ok(Poll::Ready(WaitResult::Lagged(_missed))) => {
                wakes.push(cx.waker());
                Ok(Poll::Pending)
            }
            Ok(Poll::Pending) => Ok(Poll::Pending),
            Err(error) => Err(error),
        }
    }
}

/// A request to publish a message.
#[derive(Debug, Drop)]
pub struct PublishRequest<T> {
    message: Option<T>,
}

impl<T> Model for PublishRequest<T> {
    ghost use Rattle.std.specs.Prelude.{Option};
    ghost use Rattle.std.specs.Coded.{coded_option};

    ghost Value = { Option T };

    ghost coded = { coded_option T.code };

    ghost view = { λ a. a.message };
}

impl<T: Drop> PublishRequest<T> {
    /// Returns a request to publish the message.
    pub fn new(message: T) -> Self
        ensures { result ≡ Some message }
    {
        PublishRequest {
            message: Some(message),
        }
    }

    // Returns a finished request, without a message.
    pub(crate) fn finished() -> Self
        ensures { result ≡ None }
    {
        PublishRequest { message: None }
    }

    /// Returns whether the message was published or refused for good.
    pub fn is_finished(&self) -> bool
        ensures { result ≡ is_none self.now }
    {
        self.message.is_none()
    }

    /// Polls the request: publishes the message if there is room, and hands out the wakers that wait for a message if
    /// there is a subscriber. Otherwise registers the context's waker for room. The request must not be finished.
    ///
    /// # Errors
    ///
    /// Returns `Exhausted` with the message if the numbers of messages have run out. The channel keeps its messages,
    /// and the request is finished.
    pub fn poll_state<
        G: LogStore<Message = T>,
        S: WakerList,
        P: WakerList<Waker = S::Waker>,
        const K: usize,
    >(
        &mut self,
        state: &mut PubSubOver<G, S, P>,
        cx: &Context<S::Waker>,
        wakes: &mut Wakes<S::Waker, K>,
    ) -> Poll<Result<(), Exhausted<T>>>
        requires subscribers { length wakes.old + S.room ≤ K }
        requires place { 1 ≤ P.room }
        requires publishers { length wakes.old + P.room ≤ K }
        requires unfinished { IsSome self.old }
        ensures log { IfSome self.old (λ message. Publishes G.capacity message state.old.log (tried message result) state.new.log) }
        ensures request { IfSome self.old (λ message. self.new ≡ still message result) }
        ensures rest { IfSome self.old (λ message. state.new ≡ record state.old { log = state.new.log; lists = lists_after_publish S.Waker.eq P.room (Some cx.now) (has_subscribers state.old.log) (tried message result) state.old.lists }) }
        ensures wakes { IfSome self.old (λ message. wakes.new ≡ wakes.old ++ wakes_of_publish S.Waker.eq P.room (Some cx.now) (has_subscribers state.old.log) (tried message result) state.old.lists) }
    {
        let Some(message) = self.message.take() else {
            unreachable!()
        };
        match state.publish_with_context(message, cx, wakes) {
            Ok(()) => Poll::Ready(Ok(())),
            Err(TryPublishError::Full(message)) => {
                self.message = Some(message);
                Poll::Pending
            }
            Err(TryPublishError::Exhausted(message)) => Poll::Ready(Err(Exhausted(message))),
        }
    }
}
