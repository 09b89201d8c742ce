use super::bell::Bell;
use embassy_sync::pubsub::{Error, Pub, PubSubBehavior, PubSubChannel, Sub};
use embassy_sync::waitqueue::Context;
use std::io;
use std::sync::Wait;

/// A channel of 4 messages, of which each of its subscribers hears every one. `dyn_subscriber` gives the same type as `subscriber`.
pub fn example<R: Print + Wait>(rt: &R) -> io::Result<()> {
    let bell = Bell::new(rt);
    let channel: PubSubChannel<u32, u64, _, 4, 4, 4, 4> = PubSubChannel::new(&bell);
    publish_and_hear(rt, channel.subscriber(), channel.publisher())
}

fn publish_and_hear<B: PubSubBehavior<Message = u32, Waker = u64>>(
    rt: &impl Print,
    sub0: Result<Sub<'_, B>, Error>,
    pub0: Result<Pub<'_, B>, Error>,
) -> io::Result<()> {
    let (Ok(mut sub0), Ok(pub0)) = (sub0, pub0) else {
        return println!(rt; "pubsub: no place for a subscriber or a publisher");
    };
    publish(rt, &pub0)?;
    hear(rt, &mut sub0)
}

// The first publisher waits while the channel is full. The second drops the oldest message instead, which some
// subscribers may miss.
fn publish<B: PubSubBehavior<Message = u32, Waker = u64>>(
    rt: &impl Print,
    publisher: &Pub<'_, B>,
) -> io::Result<()> {
    let waits = publisher.publish(42).poll(&Context::from_waker(1));
    let at_once = publisher.publish_immediate(43);
    println!(rt; "pubsub: {waits:?}, {at_once:?}")
}

// A subscriber that misses messages is told how many, or by the pure calls isn't told. There are also calls that don't
// wait.
fn hear<B: PubSubBehavior<Message = u32, Waker = u64>>(
    rt: &impl Print,
    subscriber: &mut Sub<'_, B>,
) -> io::Result<()> {
    let first = subscriber.next_message().poll(&Context::from_waker(1));
    let second = subscriber.next_message_pure().poll(&Context::from_waker(1));
    let none = subscriber.try_next_message();
    println!(rt; "pubsub: {first:?}, {second:?}, {none:?}")
}
