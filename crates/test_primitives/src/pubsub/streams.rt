//! Each story is a function of any channel, and has one that makes its channel: a test that spells out all of it takes long to prove.
use esync_base::waitqueue::TaskId;
use esync_notes::holds;
use esync_pubsub::pubsub::{
    Error, Exhausted, ImmediatePub, Pub, PubSubBehavior, PubSubChannel, Sub, WaitResult,
};
use esync_streams::{Registrations, SinkAdapter, SubStream};
use futures::task::Poll;
use futures::test::MockTask;
use futures::{Sink, SinkExt, Stream, StreamExt, stream};
use std::alloc::AllocError;
use std::process::Abort;
use std::sync::Wait;
use std::test::Fail;

// A subscriber of a channel that has room for it.
fn subscribes<'a, B: PubSubBehavior>(
    rt: &impl Abort,
    subscriber: Result<Sub<'a, B>, Error>,
) -> Sub<'a, B> {
    match subscriber {
        Ok(subscriber) => subscriber,
        Err(_full) => rt.abort(),
    }
}

// A publisher of a channel that has room for it.
fn counts<'a, B: PubSubBehavior>(
    rt: &impl Abort,
    publisher: Result<Pub<'a, B>, Error>,
) -> Pub<'a, B> {
    match publisher {
        Ok(publisher) => publisher,
        Err(_full) => rt.abort(),
    }
}

// A stream of task 0, for which the hand has a place.
fn stream<'h, 'a, B: PubSubBehavior<Waker = TaskId>>(
    rt: &impl Abort,
    hand: &'h Registrations<'_, impl Wait>,
    subscriber: Result<Sub<'a, B>, Error>,
) -> SubStream<'h, 'a, B> {
    match SubStream::new(subscribes(rt, subscriber), hand, TaskId(0)) {
        Some(stream) => stream,
        None => rt.abort(),
    }
}

// A sink of task 0, for which the hand has a place.
fn sink<'h, 's, B: PubSubBehavior<Waker = TaskId>>(
    rt: &impl Abort,
    hand: &'h Registrations<'_, impl Wait>,
    publisher: &'s Pub<'_, B>,
) -> SinkAdapter<'h, 's, B> {
    match SinkAdapter::new(publisher.sink(), hand, TaskId(0)) {
        Some(sink) => sink,
        None => rt.abort(),
    }
}

// A poll of a stream by the task answers this.
fn next<B: PubSubBehavior<Message = u32, Waker = TaskId>>(
    rt: &impl Abort,
    task: &MockTask,
    stream: &mut SubStream<'_, '_, B>,
    answer: Poll<Option<Result<u32, AllocError>>>,
) {
    holds!(rt; task.enter(|cx| stream.poll_next(cx)) == answer);
}

type Answer = Poll<Result<(), Exhausted<u32>>>;

// Polls of a sink by the task answer this.
fn ready<B: PubSubBehavior<Message = u32, Waker = TaskId>>(
    rt: &impl Abort,
    task: &MockTask,
    sink: &mut SinkAdapter<'_, '_, B>,
    answer: Answer,
) {
    holds!(rt; task.enter(|cx| sink.poll_ready(cx)) == answer);
}

fn flush<B: PubSubBehavior<Message = u32, Waker = TaskId>>(
    rt: &impl Abort,
    task: &MockTask,
    sink: &mut SinkAdapter<'_, '_, B>,
    answer: Answer,
) {
    holds!(rt; task.enter(|cx| sink.poll_flush(cx)) == answer);
}

fn close<B: PubSubBehavior<Message = u32, Waker = TaskId>>(
    rt: &impl Abort,
    task: &MockTask,
    sink: &mut SinkAdapter<'_, '_, B>,
    answer: Answer,
) {
    holds!(rt; task.enter(|cx| sink.poll_close(cx)) == answer);
}

// A read of a subscriber gives this message.
fn reads<B: PubSubBehavior<Message = u32>>(
    rt: &impl Abort,
    subscriber: &mut Sub<'_, B>,
    message: u32,
) {
    holds!(rt; subscriber.try_next_message() == Ok(Some(WaitResult::Message(message))));
}

// Of a channel that holds nothing.
fn waits_for_a_message<B: PubSubBehavior<Message = u32, Waker = TaskId>>(
    rt: &impl Abort,
    task: &MockTask,
    mut stream: SubStream<'_, '_, B>,
    publisher: &ImmediatePub<'_, B>,
) {
    next(rt, task, &mut stream, Poll::Pending);
    holds!(rt; !task.is_woken());
    holds!(rt; publisher.try_publish(7).is_ok());
    holds!(rt; task.is_woken());
    next(rt, task, &mut stream, Poll::Ready(Some(Ok(7))));
    next(rt, task, &mut stream, Poll::Pending);
    holds!(rt; !task.is_woken());
}

fn a_stream_waits_for_a_message<R: Abort + Wait>(
    rt: &R,
    hand: &Registrations<'_, R>,
    task: &MockTask,
) {
    let channel: PubSubChannel<u32, TaskId, _, 2, 2, 2, 2> = PubSubChannel::new(hand);
    let stream = stream(rt, hand, channel.subscriber());
    waits_for_a_message(rt, task, stream, &channel.immediate_publisher());
}

// Of a channel with room for one message.
fn lags<B: PubSubBehavior<Message = u32, Waker = TaskId>>(
    rt: &impl Abort,
    task: &MockTask,
    mut stream: SubStream<'_, '_, B>,
    publisher: &ImmediatePub<'_, B>,
) {
    holds!(rt; publisher.publish_immediate(1).is_ok());
    holds!(rt; publisher.publish_immediate(2).is_ok());
    next(rt, task, &mut stream, Poll::Pending);
    holds!(rt; task.is_woken());
    next(rt, task, &mut stream, Poll::Ready(Some(Ok(2))));
}

fn a_stream_that_lags_is_woken_at_once<R: Abort + Wait>(
    rt: &R,
    hand: &Registrations<'_, R>,
    task: &MockTask,
) {
    let channel: PubSubChannel<u32, TaskId, _, 1, 2, 2, 2> = PubSubChannel::new(hand);
    let stream = stream(rt, hand, channel.subscriber());
    lags(rt, task, stream, &channel.immediate_publisher());
}

// Of a channel with room for one message.
fn waits_for_room<B: PubSubBehavior<Message = u32, Waker = TaskId>>(
    rt: &impl Abort,
    task: &MockTask,
    sink: &mut SinkAdapter<'_, '_, B>,
    subscriber: &mut Sub<'_, B>,
) {
    ready(rt, task, sink, Poll::Ready(Ok(())));
    holds!(rt; sink.start_send(1).is_ok());
    flush(rt, task, sink, Poll::Ready(Ok(())));
    holds!(rt; sink.start_send(2).is_ok());
    ready(rt, task, sink, Poll::Pending);
    holds!(rt; !task.is_woken());
    reads(rt, subscriber, 1);
    holds!(rt; task.is_woken());
    close(rt, task, sink, Poll::Ready(Ok(())));
    reads(rt, subscriber, 2);
}

fn keeps_a_sink_waiting<B: PubSubBehavior<Message = u32, Waker = TaskId>>(
    rt: &impl Abort,
    hand: &Registrations<'_, impl Wait>,
    task: &MockTask,
    subscriber: Result<Sub<'_, B>, Error>,
    publisher: Result<Pub<'_, B>, Error>,
) {
    let mut subscriber = subscribes(rt, subscriber);
    let publisher = counts(rt, publisher);
    let mut sink = sink(rt, hand, &publisher);
    waits_for_room(rt, task, &mut sink, &mut subscriber);
}

fn a_full_channel_keeps_a_sink_waiting<R: Abort + Wait>(
    rt: &R,
    hand: &Registrations<'_, R>,
    task: &MockTask,
) {
    let channel: PubSubChannel<u32, TaskId, _, 1, 2, 2, 2> = PubSubChannel::new(hand);
    keeps_a_sink_waiting(rt, hand, task, channel.subscriber(), channel.publisher());
}

// A stream of task 1, for which the hand has no place.
fn has_no_place<B: PubSubBehavior<Waker = TaskId>>(
    rt: &impl Abort,
    hand: &Registrations<'_, impl Wait>,
    subscriber: Result<Sub<'_, B>, Error>,
) {
    let stream = SubStream::new(subscribes(rt, subscriber), hand, TaskId(1));
    holds!(rt; stream.is_none());
}

// The one subscriber of the channel has left then, so that there is room for another.
fn a_hand_has_the_places_that_it_was_made_with<R: Abort + Wait>(
    rt: &R,
    hand: &Registrations<'_, R>,
) {
    let channel: PubSubChannel<u32, TaskId, _, 1, 1, 1, 1> = PubSubChannel::new(hand);
    has_no_place(rt, hand, channel.subscriber());
    holds!(rt; channel.subscriber().is_ok());
}

// The sink takes this message, and is flushed.
fn sends<'h, 's, B: PubSubBehavior<Message = u32, Waker = TaskId>>(
    rt: &impl Abort,
    task: &MockTask,
    sink: SinkAdapter<'h, 's, B>,
    message: u32,
) -> SinkAdapter<'h, 's, B> {
    match task.poll(&mut sink.send(message)) {
        Poll::Ready(Ok(sink)) => sink,
        _ => rt.abort(),
    }
}

// The sink takes four messages as one stream, and is flushed.
fn sends_all<B: PubSubBehavior<Message = u32, Waker = TaskId>>(
    rt: &impl Abort,
    task: &MockTask,
    sink: SinkAdapter<'_, '_, B>,
) {
    let mut sent = sink.send_all(stream::iter(0..4u32).map(Ok));
    holds!(rt; matches!(task.poll(&mut sent), Poll::Ready(Ok(_))));
}

fn publishes_a_stream<B: PubSubBehavior<Message = u32, Waker = TaskId>>(
    rt: &impl Abort,
    hand: &Registrations<'_, impl Wait>,
    task: &MockTask,
    subscriber: Result<Sub<'_, B>, Error>,
    publisher: Result<Pub<'_, B>, Error>,
) {
    let mut subscriber = subscribes(rt, subscriber);
    let publisher = counts(rt, publisher);
    let sink = sends(rt, task, sink(rt, hand, &publisher), 0);
    reads(rt, &mut subscriber, 0);
    let sink = sends(rt, task, sink, 1);
    reads(rt, &mut subscriber, 1);
    sends_all(rt, task, sink);
    for message in 0..4 {
        reads(rt, &mut subscriber, message);
    }
}

#[test]
fn publisher_sink(rt: HostRuntime) -> Result<(), Fail> {
    let hand = Registrations::new(&rt, rt.alloc(), 1)?;
    let task = MockTask::new(&rt)?;
    let channel: PubSubChannel<u32, TaskId, _, 4, 4, 4, 4> = PubSubChannel::new(&hand);
    publishes_a_stream(&rt, &hand, &task, channel.subscriber(), channel.publisher());
    Ok(())
}

#[test]
fn streams_and_sinks_wait_and_are_woken(rt: HostRuntime) -> Result<(), Fail> {
    let hand = Registrations::new(&rt, rt.alloc(), 1)?;
    let task = MockTask::new(&rt)?;
    a_stream_waits_for_a_message(&rt, &hand, &task);
    a_stream_that_lags_is_woken_at_once(&rt, &hand, &task);
    a_full_channel_keeps_a_sink_waiting(&rt, &hand, &task);
    a_hand_has_the_places_that_it_was_made_with(&rt, &hand);
    Ok(())
}
