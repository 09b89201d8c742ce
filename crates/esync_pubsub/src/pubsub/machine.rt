//! The pub-sub channel as a machine that takes commands, in which subscribers and publishers have numbers.
ghost use Rattle.std.specs.Prelude.{◌≡◌, ℕ, ◌+◌, ◌-◌, ◌<◌, ◌≤◌, IsTrue, [], true, Some, None, is_some, length, slice_set, IfSome, IfOk, OnErr};
ghost use Rattle.std.proofs.Math.ListN.{replicate};
ghost use Rattle.esync_machine.specs.Numbers.{at_number};
ghost use Rattle.esync_machine.specs.Names.{is_free};
ghost use Rattle.esync_machine.specs.Object.{GoodRunOver};
ghost use Rattle.esync_machine.specs.Wakings.{IsHanded, unless_refused};
ghost use Rattle.esync_pubsub.specs.Events.{AreNamed};
ghost use Rattle.esync_log.specs.Log.{Log, is_live};
ghost use Rattle.esync_pubsub.specs.Order.{ReadsInOrder, CountsAreTrue, topic_in};
ghost use Rattle.esync_pubsub.specs.Sizes.{SizesAddUp};
ghost use Rattle.esync_pubsub.specs.PubSub.{fresh, frees};
ghost use Rattle.esync_pubsub.specs.Steps.{most_wakes};
ghost use Rattle.esync_pubsub.specs.PubSubRules.{topic_of, is_of_subscriber, is_of_publisher, leaves, names_it, AtOnce, Tries, TriesPure, Calls, Polls, immediate_of, immediate_hands, call_hands, reach, rest_of, publish_of, read_of, pure_of, stream_of, publish_hands, read_hands, pure_hands, stream_hands, poll_hands, pubsub_rules, pubsub_wakings, PollsPublish, PollsMessage, PollsPure, PollsStream, PollsLog};

use super::{Error, Exhausted, PubSubOver, PublishRequest, SubId, TryPublishError, WaitResult};
use esync_base::waitqueue::{Context, FixedList, Poll, Registered, WakerList, Wakes};
use esync_log::log::{FixedLog, LogStore};
use esync_machine::names::Names;
use esync_machine::primitive::{Answer, Command, Primitive, Reach, Turn};
use esync_machine::requests::Requests;
use esync_machine::run::{Reply, run};
use std::alloc::{AllocError, Global};
use std::fmt;
use std::marker::Model;

mod kept;

/// What a request waits for. Its first part is the number of its subscriber or publisher.
#[derive(Clone, Copy, Debug, PartialEq, Eq)]
pub enum PubSubAsk<T> {
    /// Room to publish a message.
    Publish(usize, T),
    /// The next message, or the number of messages that are gone.
    Message(usize),
    /// The next message that the channel holds.
    MessagePure(usize),
    /// The next message of a stream, which wakes its own task at a lag.
    Stream(usize),
}

/// The calls of a pub-sub channel beside its requests.
#[derive(Clone, Copy, Debug, PartialEq, Eq)]
pub enum PubSubCall<T> {
    /// Adds a subscriber under a free number.
    Join(usize),
    /// Removes the subscriber, whose requests end.
    Leave(usize),
    /// Adds a publisher under a free number.
    Publisher(usize),
    /// Removes the publisher, whose requests end.
    Retire(usize),
    /// Publishes a message through the publisher, if there is room.
    TryPublish(usize, T),
    /// Publishes a message at once.
    Immediate(T),
    /// Reads the subscriber's next message or lag, if there is one.
    Next(usize),
    /// Reads the next message that the channel holds, if there is one.
    NextPure(usize),
    /// Asks how many messages the subscriber has not read.
    Available(usize),
    Clear,
    Len,
    FreeCapacity,
}

/// What a pub-sub channel answers.
#[derive(Clone, Copy, Debug, PartialEq, Eq)]
pub enum PubSubHeard<T> {
    /// The outcome of a publish: the message is published, or the numbers have run out.
    Published(Result<(), Exhausted<T>>),
    /// The message or lag that the request read.
    Read(WaitResult<T>),
    /// The message that the request read.
    ReadPure(T),
    /// The next message of a stream, which has no end.
    Streamed(Option<T>),
    /// Whether the subscriber or the publisher was added.
    Came(Result<(), Error>),
    TriedPublish(Result<(), TryPublishError<T>>),
    PublishedAtOnce(Result<(), Exhausted<T>>),
    Tried(Option<WaitResult<T>>),
    TriedPure(Option<T>),
    /// The number of messages published that the subscriber has not read.
    Unread(u64),
    Number(usize),
}

impl<G: LogStore, S: WakerList, P: WakerList<Waker = S::Waker>> PubSubOver<G, S, P> {
    // Proves that the channel holds no more messages than were published, and does nothing.
    fn numbered(&self)
        ensures { length self.now.log.held ≤ self.now.log.next }
    {
        self.len();
    }

    // What a poll does, for each kind of request.
    fn turn_publish<const K: usize>(
        &mut self,
        p: usize,
        message: G::Message,
        cx: &Context<S::Waker>,
        wakes: &mut Wakes<S::Waker, K>,
    ) -> Turn<PubSubHeard<G::Message>, PubSubAsk<G::Message>>
        requires empty { wakes.old ≡ [] }
        requires room { most_wakes S.room P.room ≤ K }
        requires counted { 1 ≤ self.old.publishers }
        ensures allowed { PollsPublish G.capacity message self.old.log result.answer self.new.log }
        ensures place { result.place ≡ rest_of (PubSubAsk.Publish p message) result.answer }
        ensures exact { IsHanded (unless_refused result.answer self.old.lists (publish_hands S.Waker.eq S.room P.room self.old.log (Some cx.now) (publish_of message result.answer) self.old.lists)) wakes.new self.new.lists }
        ensures publishers { self.new.publishers ≡ self.old.publishers }
    {
        let mut request = PublishRequest::new(message);
        match self.poll_publish(&mut request, cx, wakes) {
            Poll::Ready(result) => Turn::over(PubSubHeard::Published(result)),
            Poll::Pending => {
                let Some(message) = request.message else {
                    unreachable!()
                };
                Turn::waits(PubSubAsk::Publish(p, message))
            }
        }
    }

    fn turn_message<const K: usize>(
        &mut self,
        s: usize,
        id: &SubId,
        cx: &Context<S::Waker>,
        wakes: &mut Wakes<S::Waker, K>,
    ) -> Turn<PubSubHeard<G::Message>, PubSubAsk<G::Message>>
        requires empty { wakes.old ≡ [] }
        requires room { most_wakes S.room P.room ≤ K }
        requires live { IsTrue (is_live id.now self.old.log) }
        ensures allowed { PollsMessage G.Message.is_clone G.Message.is_infallible id.now self.old.log result.answer self.new.log }
        ensures place { result.place ≡ rest_of (PubSubAsk.Message s) result.answer }
        ensures exact { IsHanded (unless_refused result.answer self.old.lists (read_hands S.Waker.eq S.room P.room id.now self.old.log (Some cx.now) (read_of result.answer) self.old.lists)) wakes.new self.new.lists }
        ensures publishers { self.new.publishers ≡ self.old.publishers }
    {
        self.numbered();
        match self.poll_message(id, cx, wakes) {
            Ok(Poll::Ready(answer)) => Turn::over(PubSubHeard::Read(answer)),
            Ok(Poll::Pending) => Turn::waits(PubSubAsk::Message(s)),
            Err(AllocError) => refused(PubSubAsk::Message(s)),
        }
    }

    fn turn_pure<const K: usize>(
        &mut self,
        s: usize,
        id: &SubId,
        cx: &Context<S::Waker>,
        wakes: &mut Wakes<S::Waker, K>,
    ) -> Turn<PubSubHeard<G::Message>, PubSubAsk<G::Message>>
        requires empty { wakes.old ≡ [] }
        requires room { most_wakes S.room P.room ≤ K }
        requires live { IsTrue (is_live id.now self.old.log) }
        ensures allowed { PollsPure G.Message.is_clone G.Message.is_infallible id.now self.old.log result.answer self.new.log }
        ensures place { result.place ≡ rest_of (PubSubAsk.MessagePure s) result.answer }
        ensures exact { IsHanded (unless_refused result.answer self.old.lists (pure_hands S.Waker.eq S.room P.room id.now self.old.log (Some cx.now) (pure_of result.answer) self.old.lists)) wakes.new self.new.lists }
        ensures publishers { self.new.publishers ≡ self.old.publishers }
    {
        self.numbered();
        match self.poll_message_pure(id, cx, wakes) {
            Ok(Poll::Ready(message)) => Turn::over(PubSubHeard::ReadPure(message)),
            Ok(Poll::Pending) => Turn::waits(PubSubAsk::MessagePure(s)),
            Err(AllocError) => refused(PubSubAsk::MessagePure(s)),
        }
    }

    fn turn_stream<const K: usize>(
        &mut self,
        s: usize,
        id: &SubId,
        cx: &Context<S::Waker>,
        wakes: &mut Wakes<S::Waker, K>,
    ) -> Turn<PubSubHeard<G::Message>, PubSubAsk<G::Message>>
        requires empty { wakes.old ≡ [] }
        requires room { most_wakes S.room P.room ≤ K }
        requires live { IsTrue (is_live id.now self.old.log) }
        ensures allowed { PollsStream G.Message.is_clone G.Message.is_infallible id.now self.old.log result.answer self.new.log }
        ensures place { result.place ≡ rest_of (PubSubAsk.Stream s) result.answer }
        ensures exact { IsHanded (unless_refused result.answer self.old.lists (stream_hands S.Waker.eq S.room P.room id.now self.old.log cx.now (stream_of result.answer) self.old.lists)) wakes.new self.new.lists }
        ensures publishers { self.new.publishers ≡ self.old.publishers }
    {
        self.numbered();
        match self.poll_stream(id, cx, wakes) {
            Ok(Poll::Ready(answer)) => Turn::over(PubSubHeard::Streamed(answer)),
            Ok(Poll::Pending) => Turn::waits(PubSubAsk::Stream(s)),
            Err(AllocError) => refused(PubSubAsk::Stream(s)),
        }
    }
}

// Keeps the request: there was no memory for a clone.
fn refused<T>(ask: PubSubAsk<T>) -> Turn<PubSubHeard<T>, PubSubAsk<T>>
    ensures answer { result.answer ≡ Answer.NoMemory }
    ensures place { result.place ≡ Some ask }
{
    Turn {
        answer: Answer::NoMemory,
        place: Some(ask),
    }
}

/// The numbers below `NAMES`: for each subscriber its place, and which ones are publishers.
#[derive(Debug, Drop)]
pub struct Tables<const NAMES: usize> {
    subscribers: Names<usize, NAMES>,
    publishers: Names<(), NAMES>,
}

impl<const NAMES: usize> Model for Tables<NAMES> {
    ghost use Rattle.esync_pubsub.specs.Events.{Tables as Tabled, tables_code};

    ghost Value = { Tabled };

    ghost coded = { tables_code };

    ghost view = { λ a. record { subscribers = a.subscribers; publishers = a.publishers } };
}

impl<const NAMES: usize> Tables<NAMES> {
    fn new() -> Self
        ensures { result ≡ record { subscribers = replicate NAMES None; publishers = replicate NAMES None } }
    {
        Tables {
            subscribers: Names::new(),
            publishers: Names::new(),
        }
    }

    // Returns the place of the subscriber that the number names.
    fn place(&self, s: usize) -> Option<usize>
        ensures { result ≡ at_number self.now.subscribers s }
    {
        self.subscribers.get(s)
    }

    // Returns whether the number names a publisher.
    fn is_publisher(&self, p: usize) -> bool
        ensures { result ≡ is_some (at_number self.now.publishers p) }
    {
        self.publishers.get(p).is_some()
    }

    // Returns whether the number is free for a subscriber.
    fn is_subscriber_free(&self, s: usize) -> bool
        ensures { result ≡ is_free s self.now.subscribers }
    {
        self.subscribers.is_free(s)
    }

    // Returns whether the number is free for a publisher.
    fn is_publisher_free(&self, p: usize) -> bool
        ensures { result ≡ is_free p self.now.publishers }
    {
        self.publishers.is_free(p)
    }

    fn put_subscriber(&mut self, s: usize, place: Option<usize>)
        requires { s < NAMES }
        ensures { self.new ≡ record self.old { subscribers = slice_set self.old.subscribers s place } }
    {
        self.subscribers.put(s, place);
    }

    fn put_publisher(&mut self, p: usize, named: Option<()>)
        requires { p < NAMES }
        ensures { self.new ≡ record self.old { publishers = slice_set self.old.publishers p named } }
    {
        self.publishers.put(p, named);
    }

    // Returns whether the request's number names a subscriber or a publisher.
    fn names<T>(&self, ask: &PubSubAsk<T>) -> bool
        ensures { (log : Log T) → result ≡ names_it ask.now (record { log = log; subscribers = self.now.subscribers; publishers = self.now.publishers }) }
    {
        match ask {
            PubSubAsk::Publish(p, _) => self.is_publisher(*p),
            PubSubAsk::Message(s) => self.place(*s).is_some(),
            PubSubAsk::MessagePure(s) => self.place(*s).is_some(),
            PubSubAsk::Stream(s) => self.place(*s).is_some(),
        }
    }

    // Returns whether the call ends the request: its subscriber leaves, or its publisher retires.
    fn leaves<T>(&self, call: &PubSubCall<T>, ask: &PubSubAsk<T>) -> bool
        ensures { (log : Log T) → result ≡ leaves (record { log = log; subscribers = self.now.subscribers; publishers = self.now.publishers }) call.now ask.now }
    {
        match call {
            PubSubCall::Leave(s) => self.place(*s).is_some() && is_of_subscriber(*s, ask),
            PubSubCall::Retire(p) => self.is_publisher(*p) && is_of_publisher(*p, ask),
            PubSubCall::Join(_)
            | PubSubCall::Publisher(_)
            | PubSubCall::TryPublish(..)
            | PubSubCall::Immediate(_)
            | PubSubCall::Next(_)
            | PubSubCall::NextPure(_)
            | PubSubCall::Available(_)
            | PubSubCall::Clear
            | PubSubCall::Len
            | PubSubCall::FreeCapacity => false,
        }
    }
}

// Returns whether the request belongs to the subscriber.
fn is_of_subscriber<T>(s: usize, ask: &PubSubAsk<T>) -> bool
    ensures { result ≡ is_of_subscriber s ask.now }
{
    match ask {
        PubSubAsk::Publish(..) => false,
        PubSubAsk::Message(t) => s == *t,
        PubSubAsk::MessagePure(t) => s == *t,
        PubSubAsk::Stream(t) => s == *t,
    }
}

// Returns whether the request belongs to the publisher.
fn is_of_publisher<T>(p: usize, ask: &PubSubAsk<T>) -> bool
    ensures { result ≡ is_of_publisher p ask.now }
{
    match ask {
        PubSubAsk::Publish(q, _) => p == *q,
        PubSubAsk::Message(_) | PubSubAsk::MessagePure(_) | PubSubAsk::Stream(_) => false,
    }
}

impl<G: LogStore, S: WakerList, P: WakerList<Waker = S::Waker>> PubSubOver<G, S, P> {
    // Polls a request, found by the numbers.
    fn turn_named<const NAMES: usize, const K: usize>(
        &mut self,
        tables: &Tables<NAMES>,
        held: PubSubAsk<G::Message>,
        cx: &Context<S::Waker>,
        wakes: &mut Wakes<S::Waker, K>,
    ) -> Turn<PubSubHeard<G::Message>, PubSubAsk<G::Message>>
        requires empty { wakes.old ≡ [] }
        requires room { most_wakes S.room P.room ≤ K }
        requires named { AreNamed G.capacity P.room NAMES self.old tables.now }
        requires fits { names_it held (topic_of self.old tables.now) ≡ true }
        ensures allowed { PollsLog G.Message.is_clone G.Message.is_infallible G.capacity (topic_of self.old tables.now) held result.answer self.new.log }
        ensures place { result.place ≡ rest_of held result.answer }
        ensures exact { IsHanded (unless_refused result.answer self.old.lists (poll_hands S.Waker.eq S.room P.room (topic_of self.old tables.now) self.old.lists held cx.now result.answer)) wakes.new self.new.lists }
        ensures publishers { self.new.publishers ≡ self.old.publishers }
    {
        match held {
            PubSubAsk::Publish(p, message) => self.turn_publish(p, message, cx, wakes),
            PubSubAsk::Message(s) => {
                let Some(id) = self.subscriber(tables, s) else {
                    unreachable!()
                };
                self.turn_message(s, &id, cx, wakes)
            }
            PubSubAsk::MessagePure(s) => {
                let Some(id) = self.subscriber(tables, s) else {
                    unreachable!()
                };
                self.turn_pure(s, &id, cx, wakes)
            }
            PubSubAsk::Stream(s) => {
                let Some(id) = self.subscriber(tables, s) else {
                    unreachable!()
                };
                self.turn_stream(s, &id, cx, wakes)
            }
        }
    }

    // Returns the subscriber that the number names.
    fn subscriber<const NAMES: usize>(&self, tables: &Tables<NAMES>, s: usize) -> Option<SubId>
        requires named { AreNamed G.capacity P.room NAMES self.now tables.now }
        ensures place { result ≡ at_number tables.now.subscribers s }
        ensures live { IfSome result (λ id. IsTrue (is_live id self.now.log)) }
    {
        match tables.place(s) {
            Some(place) => Some(SubId { place }),
            None => None,
        }
    }
}

// Returns the place of the subscriber.
fn place_of(id: &SubId) -> usize
    ensures { result ≡ id.now }
{
    id.place
}

// What a call does, with subscribers and publishers found by their numbers.

impl<G: LogStore, S: WakerList, P: WakerList<Waker = S::Waker>> PubSubOver<G, S, P> {
    // Adds a subscriber under a free number.
    fn join_named<const NAMES: usize>(
        &mut self,
        tables: &mut Tables<NAMES>,
        s: usize,
    ) -> Answer<PubSubHeard<G::Message>>
        requires named { AreNamed G.capacity P.room NAMES self.old tables.old }
        ensures allowed { Calls G.Message.is_clone G.Message.is_infallible G.capacity P.room (topic_of self.old tables.old) (PubSubCall.Join s) result (topic_of self.new tables.new) }
        ensures named { AreNamed G.capacity P.room NAMES self.new tables.new }
        ensures lists { self.new.lists ≡ self.old.lists }
    {
        if !tables.is_subscriber_free(s) {
            return Answer::NoSuch;
        }
        match self.subscribe() {
            Ok(id) => {
                tables.put_subscriber(s, Some(place_of(&id)));
                Answer::Gives(PubSubHeard::Came(Ok(())))
            }
            Err(error) => Answer::Gives(PubSubHeard::Came(Err(error))),
        }
    }

    // Removes the subscriber and frees its number.
    fn leave_named<const NAMES: usize, const K: usize>(
        &mut self,
        tables: &mut Tables<NAMES>,
        s: usize,
        wakes: &mut Wakes<S::Waker, K>,
    ) -> Answer<PubSubHeard<G::Message>>
        requires empty { wakes.old ≡ [] }
        requires room { most_wakes S.room P.room ≤ K }
        requires named { AreNamed G.capacity P.room NAMES self.old tables.old }
        ensures allowed { Calls G.Message.is_clone G.Message.is_infallible G.capacity P.room (topic_of self.old tables.old) (PubSubCall.Leave s) result (topic_of self.new tables.new) }
        ensures exact { IsHanded (unless_refused result self.old.lists (call_hands S.Waker.eq S.room P.room (topic_of self.old tables.old) self.old.lists (PubSubCall.Leave s) result)) wakes.new self.new.lists }
        ensures named { AreNamed G.capacity P.room NAMES self.new tables.new }
    {
        let Some(id) = self.subscriber(tables, s) else {
            return Answer::NoSuch;
        };
        self.unregister_subscriber(id, wakes);
        tables.put_subscriber(s, None);
        Answer::Done
    }

    // Adds a publisher under a free number.
    fn add_named<const NAMES: usize>(
        &mut self,
        tables: &mut Tables<NAMES>,
        p: usize,
    ) -> Answer<PubSubHeard<G::Message>>
        requires named { AreNamed G.capacity P.room NAMES self.old tables.old }
        ensures allowed { Calls G.Message.is_clone G.Message.is_infallible G.capacity P.room (topic_of self.old tables.old) (PubSubCall.Publisher p) result (topic_of self.new tables.new) }
        ensures named { AreNamed G.capacity P.room NAMES self.new tables.new }
        ensures lists { self.new.lists ≡ self.old.lists }
    {
        if !tables.is_publisher_free(p) {
            return Answer::NoSuch;
        }
        match self.add_publisher() {
            Ok(()) => {
                tables.put_publisher(p, Some(()));
                Answer::Gives(PubSubHeard::Came(Ok(())))
            }
            Err(error) => Answer::Gives(PubSubHeard::Came(Err(error))),
        }
    }

    // Removes the publisher and frees its number.
    fn retire_named<const NAMES: usize>(
        &mut self,
        tables: &mut Tables<NAMES>,
        p: usize,
    ) -> Answer<PubSubHeard<G::Message>>
        requires named { AreNamed G.capacity P.room NAMES self.old tables.old }
        ensures allowed { Calls G.Message.is_clone G.Message.is_infallible G.capacity P.room (topic_of self.old tables.old) (PubSubCall.Retire p) result (topic_of self.new tables.new) }
        ensures named { AreNamed G.capacity P.room NAMES self.new tables.new }
        ensures lists { self.new.lists ≡ self.old.lists }
    {
        if !tables.is_publisher(p) {
            return Answer::NoSuch;
        }
        self.unregister_publisher();
        tables.put_publisher(p, None);
        Answer::Done
    }

    fn try_publish_named<const NAMES: usize, const K: usize>(
        &mut self,
        tables: &Tables<NAMES>,
        p: usize,
        message: G::Message,
        wakes: &mut Wakes<S::Waker, K>,
    ) -> Answer<PubSubHeard<G::Message>>
        requires empty { wakes.old ≡ [] }
        requires room { most_wakes S.room P.room ≤ K }
        ensures allowed { Calls G.Message.is_clone G.Message.is_infallible G.capacity P.room (topic_of self.old tables.now) (PubSubCall.TryPublish p message) result (topic_of self.new tables.now) }
        ensures exact { IsHanded (unless_refused result self.old.lists (call_hands S.Waker.eq S.room P.room (topic_of self.old tables.now) self.old.lists (PubSubCall.TryPublish p message) result)) wakes.new self.new.lists }
        ensures publishers { self.new.publishers ≡ self.old.publishers }
    {
        if !tables.is_publisher(p) {
            return Answer::NoSuch;
        }
        Answer::Gives(PubSubHeard::TriedPublish(self.try_publish(message, wakes)))
    }

    fn publish_at_once<const K: usize>(
        &mut self,
        message: G::Message,
        wakes: &mut Wakes<S::Waker, K>,
    ) -> Answer<PubSubHeard<G::Message>>
        requires empty { wakes.old ≡ [] }
        requires room { most_wakes S.room P.room ≤ K }
        ensures allowed { AtOnce G.capacity message self.old.log result self.new.log }
        ensures exact { IsHanded (unless_refused result self.old.lists (immediate_hands S.Waker.eq S.room P.room self.old.log (immediate_of message result) self.old.lists)) wakes.new self.new.lists }
        ensures publishers { self.new.publishers ≡ self.old.publishers }
    {
        Answer::Gives(PubSubHeard::PublishedAtOnce(self.publish_immediate(message, wakes)))
    }

    fn next_named<const NAMES: usize, const K: usize>(
        &mut self,
        tables: &Tables<NAMES>,
        s: usize,
        wakes: &mut Wakes<S::Waker, K>,
    ) -> Answer<PubSubHeard<G::Message>>
        requires empty { wakes.old ≡ [] }
        requires room { most_wakes S.room P.room ≤ K }
        requires named { AreNamed G.capacity P.room NAMES self.old tables.now }
        ensures allowed { Calls G.Message.is_clone G.Message.is_infallible G.capacity P.room (topic_of self.old tables.now) (PubSubCall.Next s) result (topic_of self.new tables.now) }
        ensures exact { IsHanded (unless_refused result self.old.lists (call_hands S.Waker.eq S.room P.room (topic_of self.old tables.now) self.old.lists (PubSubCall.Next s) result)) wakes.new self.new.lists }
        ensures publishers { self.new.publishers ≡ self.old.publishers }
    {
        let Some(id) = self.subscriber(tables, s) else {
            return Answer::NoSuch;
        };
        self.try_next(&id, wakes)
    }

    fn try_next<const K: usize>(
        &mut self,
        id: &SubId,
        wakes: &mut Wakes<S::Waker, K>,
    ) -> Answer<PubSubHeard<G::Message>>
        requires empty { wakes.old ≡ [] }
        requires room { most_wakes S.room P.room ≤ K }
        requires live { IsTrue (is_live id.now self.old.log) }
        ensures allowed { Tries G.Message.is_clone G.Message.is_infallible id.now self.old.log result self.new.log }
        ensures exact { IsHanded (unless_refused result self.old.lists (read_hands S.Waker.eq S.room P.room id.now self.old.log None (read_of result) self.old.lists)) wakes.new self.new.lists }
        ensures publishers { self.new.publishers ≡ self.old.publishers }
    {
        self.numbered();
        match self.read_next(id, wakes) {
            Ok(answer) => Answer::Gives(PubSubHeard::Tried(answer)),
            Err(AllocError) => Answer::NoMemory,
        }
    }

    fn next_pure_named<const NAMES: usize, const K: usize>(
        &mut self,
        tables: &Tables<NAMES>,
        s: usize,
        wakes: &mut Wakes<S::Waker, K>,
    ) -> Answer<PubSubHeard<G::Message>>
        requires empty { wakes.old ≡ [] }
        requires room { most_wakes S.room P.room ≤ K }
        requires named { AreNamed G.capacity P.room NAMES self.old tables.now }
        ensures allowed { Calls G.Message.is_clone G.Message.is_infallible G.capacity P.room (topic_of self.old tables.now) (PubSubCall.NextPure s) result (topic_of self.new tables.now) }
        ensures exact { IsHanded (unless_refused result self.old.lists (call_hands S.Waker.eq S.room P.room (topic_of self.old tables.now) self.old.lists (PubSubCall.NextPure s) result)) wakes.new self.new.lists }
        ensures publishers { self.new.publishers ≡ self.old.publishers }
    {
        let Some(id) = self.subscriber(tables, s) else {
            return Answer::NoSuch;
        };
        self.try_next_pure(&id, wakes)
    }

    fn try_next_pure<const K: usize>(
        &mut self,
        id: &SubId,
        wakes: &mut Wakes<S::Waker, K>,
    ) -> Answer<PubSubHeard<G::Message>>
        requires empty { wakes.old ≡ [] }
        requires room { most_wakes S.room P.room ≤ K }
        requires live { IsTrue (is_live id.now self.old.log) }
        ensures allowed { TriesPure G.Message.is_clone G.Message.is_infallible id.now self.old.log result self.new.log }
        ensures exact { IsHanded (unless_refused result self.old.lists (pure_hands S.Waker.eq S.room P.room id.now self.old.log None (pure_of result) self.old.lists)) wakes.new self.new.lists }
        ensures publishers { self.new.publishers ≡ self.old.publishers }
    {
        self.numbered();
        match self.read_on(id, wakes) {
            Ok(answer) => Answer::Gives(PubSubHeard::TriedPure(answer)),
            Err(AllocError) => Answer::NoMemory,
        }
    }

    fn available_named<const NAMES: usize>(
        &self,
        tables: &Tables<NAMES>,
        s: usize,
    ) -> Answer<PubSubHeard<G::Message>>
        requires named { AreNamed G.capacity P.room NAMES self.now tables.now }
        ensures { Calls G.Message.is_clone G.Message.is_infallible G.capacity P.room (topic_of self.now tables.now) (PubSubCall.Available s) result (topic_of self.now tables.now) }
    {
        let Some(id) = self.subscriber(tables, s) else {
            return Answer::NoSuch;
        };
        Answer::Gives(PubSubHeard::Unread(self.to_read(&id)))
    }

    // Polls a request whose number names a subscriber or a publisher.
    fn turn<const NAMES: usize, const K: usize>(
        &mut self,
        tables: &Tables<NAMES>,
        held: PubSubAsk<G::Message>,
        waker: S::Waker,
        wakes: &mut Wakes<S::Waker, K>,
    ) -> Turn<PubSubHeard<G::Message>, PubSubAsk<G::Message>>
        requires empty { wakes.old ≡ [] }
        requires room { most_wakes S.room P.room ≤ K }
        requires named { AreNamed G.capacity P.room NAMES self.old tables.now }
        requires fits { names_it held (topic_of self.old tables.now) ≡ true }
        ensures allowed { Polls G.Message.is_clone G.Message.is_infallible G.capacity (topic_of self.old tables.now) held result.answer (topic_of self.new tables.now) result.place }
        ensures exact { IsHanded (unless_refused result.answer self.old.lists (poll_hands S.Waker.eq S.room P.room (topic_of self.old tables.now) self.old.lists held waker result.answer)) wakes.new self.new.lists }
        ensures named { AreNamed G.capacity P.room NAMES self.new tables.now }
    {
        self.turn_named(tables, held, &Context::from_waker(waker), wakes)
    }

    // Performs a call, which may take or free a number.
    fn perform<const NAMES: usize, const K: usize>(
        &mut self,
        tables: &mut Tables<NAMES>,
        call: PubSubCall<G::Message>,
        wakes: &mut Wakes<S::Waker, K>,
    ) -> Answer<PubSubHeard<G::Message>>
        requires empty { wakes.old ≡ [] }
        requires room { most_wakes S.room P.room ≤ K }
        requires named { AreNamed G.capacity P.room NAMES self.old tables.old }
        ensures allowed { Calls G.Message.is_clone G.Message.is_infallible G.capacity P.room (topic_of self.old tables.old) call result (topic_of self.new tables.new) }
        ensures exact { IsHanded (unless_refused result self.old.lists (call_hands S.Waker.eq S.room P.room (topic_of self.old tables.old) self.old.lists call result)) wakes.new self.new.lists }
        ensures named { AreNamed G.capacity P.room NAMES self.new tables.new }
    {
        match call {
            PubSubCall::Join(s) => self.join_named(tables, s),
            PubSubCall::Leave(s) => self.leave_named(tables, s, wakes),
            PubSubCall::Publisher(p) => self.add_named(tables, p),
            PubSubCall::Retire(p) => self.retire_named(tables, p),
            PubSubCall::TryPublish(p, message) => self.try_publish_named(tables, p, message, wakes),
            PubSubCall::Immediate(message) => self.publish_at_once(message, wakes),
            PubSubCall::Next(s) => self.next_named(tables, s, wakes),
            PubSubCall::NextPure(s) => self.next_pure_named(tables, s, wakes),
            PubSubCall::Available(s) => self.available_named(tables, s),
            PubSubCall::Clear => {
                self.clear(wakes);
                Answer::Done
            }
            PubSubCall::Len => Answer::Gives(PubSubHeard::Number(self.len())),
            PubSubCall::FreeCapacity => Answer::Gives(PubSubHeard::Number(self.free_capacity())),
        }
    }
}

/// A pub-sub channel in which subscribers and publishers have numbers below `NAMES`.
#[derive_where(Debug; G: fmt::Debug, S: fmt::Debug, P: fmt::Debug)]
#[derive(Drop)]
pub struct Events<G: LogStore, S: WakerList, P: WakerList<Waker = S::Waker>, const NAMES: usize> {
    state: PubSubOver<G, S, P>,
    tables: Tables<NAMES>,
}

impl<G: LogStore, S: WakerList, P: WakerList<Waker = S::Waker>, const NAMES: usize> Model
    for Events<G, S, P, NAMES> {
    ghost use Rattle.esync_pubsub.specs.Events.{Eventing, eventing_code, AreNamed};
    ghost use Rattle.esync_pubsub.specs.PubSub.{PubSub, pubsub_code};

    ghost Value = { Eventing (PubSub G.Message S.Waker) };

    ghost coded = { eventing_code (pubsub_code G.Message.code S.Waker.code) };

    ghost view = { λ a. record { state = a.state; tables = a.tables } };

    ghost invariant = { λ a. AreNamed G.capacity P.room NAMES a.state a.tables };
}

impl<G: LogStore, S: WakerList, P: WakerList<Waker = S::Waker>, const NAMES: usize> Registered
    for Events<G, S, P, NAMES> {
    type Waker = S::Waker;

    ghost use Rattle.esync_base.specs.Standing.{at_two};

    ghost at = { λ m. at_two m.state.lists.subscribers m.state.lists.publishers };

    fn registered(&self, place: usize, i: usize) -> Option<S::Waker> {
        self.state.registered(place, i)
    }
}

impl<G: FixedLog, S: FixedList, P: FixedList<Waker = S::Waker>, const NAMES: usize> Events<
    G,
    S,
    P,
    NAMES,
> {
    /// Returns an empty channel without subscribers or publishers, where all numbers are free. The first message gets
    /// the number `next`.
    pub fn new_at(next: u64) -> Self
        requires messages { 1 ≤ G.capacity }
        requires wakers { G.places ≤ S.room }
        ensures state { result.state ≡ fresh G.places next }
        ensures tables { result.tables ≡ record { subscribers = replicate NAMES None; publishers = replicate NAMES None } }
    {
        Events::over(G::new_at(next), S::new(), P::new())
    }
}

impl<G: LogStore, S: WakerList, P: WakerList<Waker = S::Waker>, const NAMES: usize> Events<
    G,
    S,
    P,
    NAMES,
> {
    /// Returns an empty channel over a log without messages and subscribers, with these lists for the wakers of
    /// subscribers and of publishers, in which no waker may be. All numbers are free.
    pub fn over(log: G, subscribers: S, publishers: P) -> Self
        requires messages { 1 ≤ G.capacity }
        requires wakers { G.places ≤ S.room }
        requires empty { G.log log ≡ record { held = []; next = (G.log log).next; positions = replicate G.places None } }
        requires subscribers { S.wakers subscribers ≡ [] }
        requires publishers { P.wakers publishers ≡ [] }
        ensures state { result.state ≡ fresh G.places (G.log log).next }
        ensures tables { result.tables ≡ record { subscribers = replicate NAMES None; publishers = replicate NAMES None } }
    {
        let tables = Tables::new();
        Events {
            state: PubSubOver::over(log, subscribers, publishers),
            tables,
        }
    }

    /// Returns the channel, whose subscribers have places.
    pub fn state(&self) -> &PubSubOver<G, S, P>
        ensures { result.now ≡ self.now.state }
    {
        &self.state
    }

    /// Returns the place of the subscriber that each number names, by number.
    pub fn subscribers(&self) -> &[Option<usize>]
        ensures { result.now ≡ self.now.tables.subscribers }
    {
        self.tables.subscribers.as_slice()
    }

    /// Returns which numbers name a publisher, by number.
    pub fn publishers(&self) -> &[Option<()>]
        ensures { result.now ≡ self.now.tables.publishers }
    {
        self.tables.publishers.as_slice()
    }

    // Proves that the numbers name all subscribers, and that no more messages are held than were published. Does
    // nothing.
    fn named(&self)
        ensures named { AreNamed G.capacity P.room NAMES self.now.state self.now.tables }
        ensures numbered { length self.now.state.log.held ≤ self.now.state.log.next }
    {
        self.state.numbered();
    }
}

impl<
    G: LogStore,
    S: WakerList,
    P: WakerList<Waker = S::Waker>,
    const NAMES: usize,
    const K: usize,
> Primitive<K> for Events<G, S, P, NAMES> {
    type Ask = PubSubAsk<G::Message>;

    type Held = PubSubAsk<G::Message>;

    type Call = PubSubCall<G::Message>;

    type Heard = PubSubHeard<G::Message>;

    type Waker = S::Waker;

    ghost use Rattle.esync_pubsub.specs.PubSubRules.{pubsub_rules, pubsub_wakings, OwesFor};
    ghost use Rattle.esync_pubsub.specs.PubSubLaws.{pubsub_idle, pubsub_pending};

    ghost rules = { pubsub_rules G.Message.is_clone G.Message.is_infallible G.capacity P.room };

    ghost core = { λ m. topic_of m.state m.tables };

    ghost wakings = { pubsub_wakings S.Waker.eq S.room P.room };

    ghost registrations = { λ m. m.state.lists };

    ghost most = { most_wakes S.room P.room };

    ghost Owes = { λ m ask w. OwesFor S.Waker.eq G.capacity (topic_of m.state m.tables) m.state.lists ask w };

    ghost Fits = { λ m ask. names_it ask (topic_of m.state m.tables) ≡ true };

    ghost Apart = { λ ask other. Unit };

    fn begin(&self, ask: PubSubAsk<G::Message>) -> Option<PubSubAsk<G::Message>> {
        if self.tables.names(&ask) {
            Some(ask)
        } else {
            None
        }
    }

    fn poll(
        &mut self,
        held: PubSubAsk<G::Message>,
        waker: S::Waker,
        wakes: &mut Wakes<S::Waker, K>,
    ) -> Turn<PubSubHeard<G::Message>, PubSubAsk<G::Message>> {
        self.state.turn(&self.tables, held, waker, wakes)
    }

    fn end(&mut self, _held: PubSubAsk<G::Message>, _wakes: &mut Wakes<S::Waker, K>) {}

    fn reach(call: &PubSubCall<G::Message>) -> Reach {
        reach(call)
    }

    fn leaves(&self, call: &PubSubCall<G::Message>, held: &PubSubAsk<G::Message>) -> bool {
        self.tables.leaves(call, held)
    }

    fn call(
        &mut self,
        call: PubSubCall<G::Message>,
        _place: &mut Option<PubSubAsk<G::Message>>,
        wakes: &mut Wakes<S::Waker, K>,
    ) -> Answer<PubSubHeard<G::Message>> {
        self.state.perform(&mut self.tables, call, wakes)
    }

    ghost idle = { λ m ask w f h. pubsub_idle G.Message.is_clone G.Message.is_infallible G.capacity P.room S.Waker.eq (topic_of m.state m.tables) m.state.lists ask w f h };

    ghost pending = { pubsub_pending G.Message.is_clone G.Message.is_infallible G.capacity P.room };

    ghost no_such = { λ o h a o2 p n k. absurd (n tt) };

    ghost symmetric = { λ h k a. tt };

    ghost use Rattle.esync_machine.specs.RulesLaws.{all_requests};

    ghost no_requests = { all_requests (pubsub_rules G.Message.is_clone G.Message.is_infallible G.capacity P.room) (λ h. tt) (λ o o2 call p p2 a c. c.1) };
}

// Returns which numbers a call concerns.
fn reach<T>(call: &PubSubCall<T>) -> Reach
    ensures { result ≡ reach call.now }
{
    match call {
        PubSubCall::Leave(_) | PubSubCall::Retire(_) => Reach::Leavers,
        PubSubCall::Join(_)
        | PubSubCall::Publisher(_)
        | PubSubCall::TryPublish(..)
        | PubSubCall::Immediate(_)
        | PubSubCall::Next(_)
        | PubSubCall::NextPure(_)
        | PubSubCall::Available(_)
        | PubSubCall::Clear
        | PubSubCall::Len
        | PubSubCall::FreeCapacity => Reach::Nobody,
    }
}

/// A pub-sub channel as a machine: at most `CAP` messages, at most `SUBS` subscribers and at most `PUBS` publishers, which have numbers
/// below `NAMES`, with requests at the numbers below `REQS`.
pub type PubSubRun<
    T,
    W,
    const CAP: usize,
    const SUBS: usize,
    const PUBS: usize,
    const NAMES: usize,
    const REQS: usize,
    const K: usize,
> = Requests<
    Events<esync_log::log::Log<T, CAP, SUBS>, Wakes<W, SUBS>, Wakes<W, PUBS>, NAMES>,
    REQS,
    K,
>;

/// The commands of a pub-sub channel.
pub type PubSubCommand<T, W> = Command<PubSubAsk<T>, W, PubSubCall<T>>;

/// What a pub-sub channel answers to a command, with the wakers that it hands out.
pub type PubSubReply<T, W, const K: usize> = Reply<Answer<PubSubHeard<T>>, W, K>;

/// Runs the commands on the channel, one after another, as `run` does, and returns a reply to each.
///
/// Each answer is one that a log of at most `CAP` messages allows, with the numbers of its subscribers and publishers.
/// No live request that last heard Pending would now be answered Ready, unless its waker was handed out in that poll or
/// since. No Pending poll that changes nothing hands out its own waker. A subscriber that leaves or a publisher that
/// retires ends its requests first.
///
/// The messages that a subscriber reads, and those that were gone when it read, are the messages published since it
/// came, in order, up to its position. The number that was gone follows from the channel and the requests at entry, the
/// commands and the answers. A `Lagged` tells exactly how many messages were gone. A read that tells of lags, and a
/// stream, give a message only if none was gone. A count of unread messages is right.
///
/// The channel's sizes add up: how many messages it holds at each answer follows from the channel and the requests at
/// entry, the commands and the answers. A length is that number, and a free capacity is `CAP` less that number.
///
/// # Errors
///
/// Returns the error if there is no memory for the replies. The machine is then unchanged.
pub fn run_pubsub<
    T: Clone,
    W: Copy + Eq,
    const CAP: usize,
    const SUBS: usize,
    const PUBS: usize,
    const NAMES: usize,
    const REQS: usize,
    const K: usize,
>(
    alloc: Global,
    machine: &mut PubSubRun<T, W, CAP, SUBS, PUBS, NAMES, REQS, K>,
    commands: Vec<PubSubCommand<T, W>>,
) -> Result<Vec<PubSubReply<T, W, K>>, AllocError>
    ensures run { IfOk result (λ replies. GoodRunOver (pubsub_rules T.is_clone T.is_infallible CAP PUBS) topic_in (pubsub_wakings W.eq SUBS PUBS) (λ m. m.state.lists) W.eq K machine.old commands.items replies.items machine.new) }
    ensures order { IfOk result (λ replies. (s : ℕ) → ReadsInOrder T.is_clone CAP s machine.old.requests (topic_in machine.old.state) commands.items replies.items (topic_in machine.new.state)) }
    ensures counts { IfOk result (λ replies. (s : ℕ) → CountsAreTrue T.is_clone CAP s machine.old.requests (topic_in machine.old.state) commands.items replies.items) }
    ensures sizes { IfOk result (λ replies. (s : ℕ) → SizesAddUp CAP s machine.old.requests (topic_in machine.old.state) commands.items replies.items) }
    ensures refused { OnErr result (machine.new ≡ machine.old) }
{
    machine.state().named();
    run(alloc, machine, commands)
}
