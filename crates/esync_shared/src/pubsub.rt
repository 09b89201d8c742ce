//! Publishers and subscribers: called by the channel's own calls and by those of its handles. Those that have a number
//! stand in a table.
use crate::form::{Answered, Door, Doors, Form, Places, Sizes, heard, if_memory, sizes};
use esync_base::waitqueue::{Context, Hand, Poll, WakerList};
use esync_machine::primitive::Answer;
use esync_pubsub::pubsub::machine::{PubSubAsk, PubSubCall, PubSubHeard};
use esync_pubsub::pubsub::{
    Error, Exhausted, FixedLog, ImmediatePub, Pub, PubSubBehavior, PublishRequest, SharedPubSub,
    Sub,
};
use esync_script::capacity::Capacity;
use esync_script::pubsub::PubSubWords;
use std::alloc::{AllocError, Global};

/// A pub-sub channel of any capacity: the calls that its publishers and subscribers don't have.
pub trait Topic: PubSubBehavior<Message = u64, Waker = u64> {
    /// Adds a subscriber, if there is a place for it.
    fn join(&self, door: Door) -> Result<Sub<'_, Self>, Error>;

    /// Adds a publisher, if there is a place for it.
    fn add(&self, door: Door) -> Result<Pub<'_, Self>, Error>;

    /// Returns a publisher that never waits.
    fn immediate(&self, door: Door) -> ImmediatePub<'_, Self>;
}

impl<
    G: FixedLog<Message = u64>,
    S: WakerList<Waker = u64>,
    P: WakerList<Waker = u64>,
    H: Hand<u64>,
    const K: usize,
> Topic for SharedPubSub<G, S, P, H, K> {
    fn join(&self, door: Door) -> Result<Sub<'_, Self>, Error> {
        match door {
            Door::Own | Door::Handle => self.subscriber(),
            Door::Dynamic => self.dyn_subscriber(),
        }
    }

    fn add(&self, door: Door) -> Result<Pub<'_, Self>, Error> {
        match door {
            Door::Own | Door::Handle => self.publisher(),
            Door::Dynamic => self.dyn_publisher(),
        }
    }

    fn immediate(&self, door: Door) -> ImmediatePub<'_, Self> {
        match door {
            Door::Own | Door::Handle => self.immediate_publisher(),
            Door::Dynamic => self.dyn_immediate_publisher(),
        }
    }
}

/// A pub-sub channel, with the subscribers and publishers that have numbers.
#[derive(Drop)]
pub struct PubSub<'c, B: Topic> {
    channel: &'c B,
    immediate: ImmediatePub<'c, B>,
    dyn_immediate: ImmediatePub<'c, B>,
    subscribers: Places<Sub<'c, B>>,
    publishers: Places<Pub<'c, B>>,
    doors: Doors,
}

// A number's holder is the ask of its request: the request's future borrows its subscriber or publisher, and so is made
// anew at each poll.
impl<'c, B: Topic> Form for PubSub<'c, B> {
    type Words = PubSubWords<Capacity>;

    type Held = PubSubAsk<u64>;

    fn begin(&mut self, ask: PubSubAsk<u64>) -> Option<PubSubAsk<u64>> {
        let is_there = match ask {
            PubSubAsk::Publish(p, _) => self.publishers.is_held(p),
            PubSubAsk::Message(s) | PubSubAsk::MessagePure(s) | PubSubAsk::Stream(s) => {
                self.subscribers.is_held(s)
            }
        };
        is_there.then_some(ask)
    }

    fn poll(&mut self, held: &mut PubSubAsk<u64>, cx: &Context<u64>) -> Answered<Self> {
        Some(match held {
            PubSubAsk::Publish(p, message) => {
                let polled = self.publish(*p, *message, cx)?;
                heard!(polled, result => PubSubHeard::Published(result))
            }
            PubSubAsk::Message(s) => {
                if_memory!(self.subscribers.holder(*s)?.next_message().poll(cx), polled =>
                    heard!(polled, read => PubSubHeard::Read(read)))
            }
            PubSubAsk::MessagePure(s) => {
                if_memory!(self.subscribers.holder(*s)?.next_message_pure().poll(cx), polled =>
                    heard!(polled, message => PubSubHeard::ReadPure(message)))
            }
            PubSubAsk::Stream(s) => {
                if_memory!(self.subscribers.holder(*s)?.poll_next(cx), polled =>
                    heard!(polled, message => PubSubHeard::Streamed(message)))
            }
        })
    }

    fn call(
        &mut self,
        call: PubSubCall<u64>,
        _place: &mut Option<PubSubAsk<u64>>,
    ) -> Answered<Self> {
        Some(Answer::Gives(match call {
            PubSubCall::Join(s) => {
                let door = self.doors.next();
                let place = self.subscribers.free(s)?;
                PubSubHeard::Came(comes(place, self.channel.join(door)))
            }
            PubSubCall::Leave(s) => return self.subscribers.end(s),
            PubSubCall::Publisher(p) => {
                let door = self.doors.next();
                let place = self.publishers.free(p)?;
                PubSubHeard::Came(comes(place, self.channel.add(door)))
            }
            PubSubCall::Retire(p) => return self.publishers.end(p),
            PubSubCall::TryPublish(p, message) => self.try_publish(p, message)?,
            PubSubCall::Immediate(message) => {
                PubSubHeard::PublishedAtOnce(self.publish_immediate(message))
            }
            PubSubCall::Next(s) => match self.subscribers.holder(s)?.try_next_message() {
                Ok(read) => PubSubHeard::Tried(read),
                Err(AllocError) => return Some(Answer::NoMemory),
            },
            PubSubCall::NextPure(s) => match self.subscribers.holder(s)?.try_next_message_pure() {
                Ok(message) => PubSubHeard::TriedPure(message),
                Err(AllocError) => return Some(Answer::NoMemory),
            },
            PubSubCall::Available(s) => {
                PubSubHeard::Unread(self.subscribers.holder(s)?.available())
            }
            PubSubCall::Clear => {
                self.clear();
                return Some(Answer::Done);
            }
            PubSubCall::Len => PubSubHeard::Number(self.sizes()?.len),
            PubSubCall::FreeCapacity => PubSubHeard::Number(self.sizes()?.free),
        }))
    }

    fn leaves(call: &PubSubCall<u64>, held: &PubSubAsk<u64>) -> bool {
        match (call, held) {
            (PubSubCall::Leave(left), PubSubAsk::Message(s)) => left == s,
            (PubSubCall::Leave(left), PubSubAsk::MessagePure(s)) => left == s,
            (PubSubCall::Leave(left), PubSubAsk::Stream(s)) => left == s,
            (PubSubCall::Retire(retired), PubSubAsk::Publish(p, _)) => retired == p,
            _ => false,
        }
    }
}

impl<'c, B: Topic> PubSub<'c, B> {
    /// Returns this channel as a form without subscribers and publishers, called in these ways.
    ///
    /// # Errors
    ///
    /// Returns the error if there is no memory.
    pub fn new(alloc: Global, channel: &'c B, doors: Doors) -> Result<Self, AllocError> {
        Ok(PubSub {
            channel,
            immediate: channel.immediate(Door::Handle),
            dyn_immediate: channel.immediate(Door::Dynamic),
            subscribers: Places::new(alloc)?,
            publishers: Places::new(alloc)?,
            doors,
        })
    }

    fn publish(
        &mut self,
        p: usize,
        message: u64,
        cx: &Context<u64>,
    ) -> Option<Poll<Result<(), Exhausted<u64>>>> {
        let door = self.doors.next();
        let publisher = self.publishers.holder(p)?;
        Some(match door {
            Door::Own => {
                let mut request = PublishRequest::new(message);
                self.channel.poll_publish(&mut request, cx)
            }
            Door::Handle => {
                let mut future = publisher.publish(message);
                let polled = future.poll(cx);
                // It is finished once it is ready.
                if future.is_finished() {
                    polled
                } else {
                    Poll::Pending
                }
            }
            Door::Dynamic => {
                let mut sink = publisher.sink();
                sink.start_send(message);
                sink.poll_flush(cx)
            }
        })
    }

    fn try_publish(&mut self, p: usize, message: u64) -> Option<PubSubHeard<u64>> {
        let door = self.doors.next();
        let publisher = self.publishers.holder(p)?;
        Some(PubSubHeard::TriedPublish(match door {
            Door::Own => self.channel.try_publish(message),
            Door::Handle => publisher.try_publish(message),
            Door::Dynamic => self.immediate.try_publish(message),
        }))
    }

    fn publish_immediate(&mut self, message: u64) -> Result<(), Exhausted<u64>> {
        match (self.doors.next(), self.publishers.first()) {
            (Door::Own, _) => self.channel.publish_immediate(message),
            (Door::Handle, Some(publisher)) => publisher.publish_immediate(message),
            (Door::Handle, None) => self.immediate.publish_immediate(message),
            (Door::Dynamic, _) => self.dyn_immediate.publish_immediate(message),
        }
    }

    fn clear(&mut self) {
        match self.doors.next() {
            Door::Own => self.channel.clear(),
            Door::Handle => match self.publishers.first() {
                Some(publisher) => publisher.clear(),
                None => self.immediate.clear(),
            },
            Door::Dynamic => match self.subscribers.first() {
                Some(subscriber) => subscriber.clear(),
                None => self.dyn_immediate.clear(),
            },
        }
    }

    fn sizes(&mut self) -> Option<Sizes> {
        match self.doors.next() {
            Door::Own => sizes!(self.channel),
            Door::Handle => match self.publishers.first() {
                Some(publisher) => sizes!(publisher),
                None => sizes!(self.immediate),
            },
            Door::Dynamic => match self.subscribers.first() {
                Some(subscriber) => sizes!(subscriber),
                None => sizes!(self.dyn_immediate),
            },
        }
    }
}

// Puts the subscriber or the publisher at its place, if it came.
fn comes<T: Drop>(place: &mut Option<T>, came: Result<T, Error>) -> Result<(), Error> {
    *place = Some(came?);
    Ok(())
}
