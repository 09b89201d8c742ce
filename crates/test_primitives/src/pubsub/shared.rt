use esync_base::waitqueue::{Context, Poll};
use esync_notes::{Notes, holds, woken};
use esync_pubsub::pubsub::{Error, Pub, PubSubBehavior, PubSubChannel, Sub, WaitResult};
use std::alloc::AllocError;
use std::process::Abort;
use std::sync::Wait;

// A subscriber of a channel that has room for it.
fn subscribes<'a, B: PubSubBehavior>(
    rt: &impl Abort,
    subscriber: Result<Sub<'a, B>, Error>,
) -> Sub<'a, B> {
    match subscriber {
        Ok(subscriber) => subscriber,
        Err(_full) => rt.abort(),
    }
}

// A publisher of a channel that has room for it.
fn counts<'a, B: PubSubBehavior>(
    rt: &impl Abort,
    publisher: Result<Pub<'a, B>, Error>,
) -> Pub<'a, B> {
    match publisher {
        Ok(publisher) => publisher,
        Err(_full) => rt.abort(),
    }
}

// A read of a subscriber answers this.
fn reads<B: PubSubBehavior<Message = u32>>(
    rt: &impl Abort,
    subscriber: &mut Sub<'_, B>,
    answer: Option<WaitResult<u32>>,
) {
    holds!(rt; subscriber.try_next_message() == Ok(answer));
}

// A read of a subscriber gives this message.
fn reads_message<B: PubSubBehavior<Message = u32>>(
    rt: &impl Abort,
    subscriber: &mut Sub<'_, B>,
    message: u32,
) {
    reads(rt, subscriber, Some(WaitResult::Message(message)));
}

// A sink at a channel with room for one message.
fn sinks<R: Abort + Wait, B: PubSubBehavior<Message = u32, Waker = u64>>(
    rt: &R,
    notes: &Notes<'_, R>,
    publisher: Result<Pub<'_, B>, Error>,
    subscriber: Result<Sub<'_, B>, Error>,
) {
    let mut subscriber = subscribes(rt, subscriber);
    let publisher = counts(rt, publisher);
    let cx = Context::from_waker(1);
    let mut sink = publisher.sink();
    holds!(rt; sink.poll_ready(&cx) == Poll::Ready(Ok(())));
    sink.start_send(1);
    sink.start_send(2);
    holds!(rt; sink.poll_flush(&cx) == Poll::Ready(Ok(())));
    sink.start_send(3);
    holds!(rt; sink.poll_ready(&cx) == Poll::Pending);
    woken!(rt, notes, &[]);
    reads_message(rt, &mut subscriber, 2);
    woken!(rt, notes, &[1]);
    holds!(rt; sink.poll_close(&cx) == Poll::Ready(Ok(())));
    holds!(rt; sink.poll_close(&cx) == Poll::Ready(Ok(())));
    reads_message(rt, &mut subscriber, 3);
    reads(rt, &mut subscriber, None);
}

#[test]
fn a_sink_publishes_what_it_stored_last(rt: HostRuntime) {
    let notes = Notes::new(&rt);
    let channel: PubSubChannel<u32, u64, _, 1, 1, 1, 1> = PubSubChannel::new(&notes);
    sinks(&rt, &notes, channel.publisher(), channel.subscriber());
}

// A message that counts its clones.
#[derive(Drop)]
struct Tally {
    clones: u32,
}

impl Clone for Tally {
    fn clone(&self) -> Result<Self, AllocError> {
        Ok(Tally {
            clones: self.clones.saturating_add(1),
        })
    }
}

// A read of the subscriber gives a message that was cloned so often.
fn reads_cloned<B: PubSubBehavior<Message = Tally>>(
    rt: &impl Abort,
    subscriber: &mut Sub<'_, B>,
    clones: u32,
) {
    match subscriber.try_next_message_pure() {
        Ok(Some(message)) => holds!(*rt; message.clones == clones),
        _ => rt.abort(),
    }
}

// Of two that read a message, the last one is given the message itself.
fn clones_once<B: PubSubBehavior<Message = Tally, Waker = u64>>(
    rt: &impl Abort,
    publisher: Result<Pub<'_, B>, Error>,
    subscribers: (Result<Sub<'_, B>, Error>, Result<Sub<'_, B>, Error>),
) {
    let mut first = subscribes(rt, subscribers.0);
    let mut second = subscribes(rt, subscribers.1);
    let publisher = counts(rt, publisher);
    let published = publisher
        .publish(Tally { clones: 0 })
        .poll(&Context::from_waker(1));
    holds!(*rt; matches!(published, Poll::Ready(Ok(()))));
    reads_cloned(rt, &mut first, 1);
    reads_cloned(rt, &mut second, 0);
}

#[test]
fn skip_clone_for_last_message(rt: HostRuntime) {
    let notes = Notes::new(&rt);
    let channel: PubSubChannel<Tally, u64, _, 1, 2, 1, 2> = PubSubChannel::new(&notes);
    let subscribers = (channel.subscriber(), channel.subscriber());
    clones_once(&rt, channel.publisher(), subscribers);
}

// A channel with places for two subscribers and a publisher, if there may be one whose calls hand out so many wakers.
fn with_room<'n, R: Wait, const K: usize>(
    notes: &'n Notes<'n, R>,
) -> Option<PubSubChannel<u32, u64, &'n Notes<'n, R>, 4, 2, 1, K>> {
    if 2 <= K && K < 65536 {
        return Some(PubSubChannel::new(notes));
    }
    None
}

#[test]
fn a_caller_compares_the_room_for_the_wakers_of_a_channel(rt: HostRuntime) {
    let notes = Notes::new(&rt);
    match with_room::<_, 2>(&notes) {
        Some(channel) => holds!(rt; channel.publisher().is_ok()),
        None => holds!(rt; false),
    }
}
