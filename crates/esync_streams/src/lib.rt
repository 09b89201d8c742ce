//! Subscribers as streams of the crate `futures`, and publishers as its sinks, for the executors of `futures`.
#![tactic(auto)]

ghost use Rattle.std.specs.Prelude.{◌≡◌, Some, None, Ok, IfSome};
ghost use Rattle.esync_pubsub.specs.PubSub.{Flushes};
ghost use Rattle.esync_streams.specs.Told.{told, as_poll};
ghost use Rattle.futures.specs.Poll.{OnPending};
ghost use Rattle.futures.specs.Task.{Covers, Keeps};

use esync_base::waitqueue::{Context, Hand, Poll, TaskId};
use esync_pubsub::pubsub::{Exhausted, PubSink, PubSubBehavior, Sub};
use futures::spin::lock;
use futures::task::{Context as TaskContext, Poll as TaskPoll, Source, Waker};
use futures::{Sink, Stream};
use std::alloc::{AllocError, Global};
use std::marker::Model;
use std::sync::{Mutex, Wait};

/// The place where a task of `futures` leaves its waker.
#[derive(Drop)]
pub struct Registration {
    source: Source,
    waker: Mutex<Option<Waker>>,
}

impl Registration {
    // Returns a place without a waker.
    fn new() -> Self {
        Registration {
            source: Source::new(),
            waker: Mutex::new(None),
        }
    }

    // Registers the waker of the task that is polled. If another thread keeps the place for ever, the task asks to be
    // polled again.
    fn register(&self, cx: &mut TaskContext<'_>)
        ensures registered { Covers cx.new (λ s. s ≡ self.now.source.id) }
        ensures kept { Keeps cx.old cx.new }
    {
        let _pending: TaskPoll<()> = match lock(&self.waker) {
            Some(mut waker) => cx.register(&self.source, &mut waker),
            None => cx.yield_now(),
        };
    }

    // Takes the waker that a task left, frees the place for the next one, and then wakes the task.
    fn wake(&self) {
        let waker = lock(&self.waker).map(|mut waker| waker.take());
        drop(waker);
    }
}

/// A hand that wakes tasks of `futures`: the waker `TaskId(k)` stands for the task that left its own waker at place k.
#[derive(Drop)]
pub struct Registrations<'a, R> {
    rt: &'a R,
    places: Vec<Registration>,
}

impl<'a, R: Wait> Registrations<'a, R> {
    /// Returns a hand with `count` places, all without a waker.
    ///
    /// # Errors
    ///
    /// Returns `AllocError` if there is no memory for the places.
    pub fn new(rt: &'a R, alloc: Global, count: usize) -> Result<Self, AllocError> {
        let mut places = Vec::new(alloc);
        for _ in 0..count {
            places.push(Registration::new())?;
        }
        Ok(Registrations { rt, places })
    }

    // Returns the place of a task, if the hand has one.
    fn place(&self, task: TaskId) -> Option<&Registration> {
        self.places.get(task.0 as usize)
    }
}

impl<R: Wait> Hand<TaskId> for &Registrations<'_, R> {
    type Rt = R;

    fn rt(&self) -> &R {
        self.rt
    }

    fn wake(&self, waker: TaskId) {
        if let Some(registration) = self.place(waker) {
            registration.wake();
        }
    }
}

/// The messages of a subscriber as a stream of `futures`, which has no end. A message whose clone had no memory is an
/// error, and comes again at the next poll.
#[derive(Drop)]
pub struct SubStream<'h, 'a, B: PubSubBehavior<Waker = TaskId>> {
    subscriber: Sub<'a, B>,
    task: TaskId,
    registration: &'h Registration,
}

impl<'h, 'a, B: PubSubBehavior<Waker = TaskId>> SubStream<'h, 'a, B> {
    /// Returns a stream of the subscriber's messages, whose channel wakes by this hand. A poll of the stream leaves its
    /// task's waker at the place of `task`. Returns `None` if the hand has no such place.
    pub fn new<R: Wait>(
        subscriber: Sub<'a, B>,
        hand: &'h Registrations<'_, R>,
        task: TaskId,
    ) -> Option<Self> {
        match hand.place(task) {
            Some(registration) => Some(SubStream {
                subscriber,
                task,
                registration,
            }),
            None => None,
        }
    }
}

impl<B: PubSubBehavior<Waker = TaskId>> Stream for SubStream<'_, '_, B> {
    type Item = Result<B::Message, AllocError>;

    ghost needs = { λ stream s. s ≡ stream.registration.now.source.id };

    fn poll_next(&mut self, cx: &mut TaskContext<'_>) -> TaskPoll<Option<Self::Item>> {
        self.registration.register(cx);
        match self.subscriber.poll_next(&Context::from_waker(self.task)) {
            Ok(Poll::Ready(Some(message))) => TaskPoll::Ready(Some(Ok(message))),
            Ok(Poll::Ready(None)) => TaskPoll::Ready(None),
            Ok(Poll::Pending) => TaskPoll::Pending,
            Err(error) => TaskPoll::Ready(Some(Err(error))),
        }
    }
}

/// A publisher's sink as a sink of `futures`. It stores one message, and each poll publishes the stored one.
#[derive(Drop)]
pub struct SinkAdapter<'h, 's, B: PubSubBehavior<Waker = TaskId>> {
    sink: PubSink<'s, B>,
    task: TaskId,
    registration: &'h Registration,
}

impl<'h, 's, B: PubSubBehavior<Waker = TaskId>> Model for SinkAdapter<'h, 's, B> {
    ghost use Rattle.esync_streams.specs.Told.{Adapter, adapter_code};

    ghost Value = { Adapter B.Message };

    ghost coded = { adapter_code B.Message.code };

    ghost view = { λ a. record { stored = a.sink; source = a.registration.now.source.id } };
}

impl<'h, 's, B: PubSubBehavior<Waker = TaskId>> SinkAdapter<'h, 's, B> {
    /// Returns the publisher's sink as a sink of `futures`, with the message that it stores. Its channel wakes by this
    /// hand. A poll of the sink leaves its task's waker at the place of `task`. Returns `None` if the hand has no such
    /// place.
    pub fn new<R: Wait>(
        sink: PubSink<'s, B>,
        hand: &'h Registrations<'_, R>,
        task: TaskId,
    ) -> Option<Self>
        ensures { IfSome result (λ adapter. adapter.stored ≡ sink.entry) }
    {
        match hand.place(task) {
            Some(registration) => Some(SinkAdapter {
                sink,
                task,
                registration,
            }),
            None => None,
        }
    }
}

// Returns the answer of a poll in the words of `futures`.
fn told<A>(poll: Poll<A>) -> TaskPoll<A>
    ensures { result ≡ told poll }
{
    match poll {
        Poll::Ready(answer) => TaskPoll::Ready(answer),
        Poll::Pending => TaskPoll::Pending,
    }
}

impl<B: PubSubBehavior<Waker = TaskId>> Sink<B::Message> for SinkAdapter<'_, '_, B> {
    type Error = Exhausted<B::Message>;

    ghost is_flushed = { λ adapter. adapter.stored ≡ None };

    ghost is_closed = { λ adapter. adapter.stored ≡ None };

    ghost needs = { λ adapter s. s ≡ adapter.source };

    /// Polls whether the sink can take a message: publishes the stored one first, if any. Pending while the channel is
    /// full.
    ///
    /// # Errors
    ///
    /// Returns `Exhausted` with the stored message if the numbers of messages have run out. The sink then stores none.
    fn poll_ready(&mut self, cx: &mut TaskContext<'_>) -> TaskPoll<Result<(), Self::Error>>
        ensures flushes { Flushes self.old.stored (as_poll result) self.new.stored }
        ensures registered { OnPending result (Covers cx.new (λ s. s ≡ self.new.source)) }
        ensures kept { Keeps cx.old cx.new }
    {
        self.registration.register(cx);
        told(self.sink.poll_ready(&Context::from_waker(self.task)))
    }

    /// Stores a message, which is never refused. It replaces a message that is still stored, which is lost.
    fn start_send(&mut self, item: B::Message) -> Result<(), Self::Error>
        ensures accepted { result ≡ Ok tt }
        ensures stored { self.new.stored ≡ Some item }
    {
        self.sink.start_send(item);
        Ok(())
    }

    /// Polls whether the sink stores no message: publishes the stored one first, if any. Pending while the channel is
    /// full.
    ///
    /// # Errors
    ///
    /// Returns `Exhausted` with the stored message if the numbers of messages have run out. The sink then stores none.
    fn poll_flush(&mut self, cx: &mut TaskContext<'_>) -> TaskPoll<Result<(), Self::Error>>
        ensures flushes { Flushes self.old.stored (as_poll result) self.new.stored }
        ensures registered { OnPending result (Covers cx.new (λ s. s ≡ self.new.source)) }
        ensures kept { Keeps cx.old cx.new }
    {
        self.registration.register(cx);
        told(self.sink.poll_flush(&Context::from_waker(self.task)))
    }

    /// Polls whether the sink can end without loss: publishes the stored message first, if any. Pending while the
    /// channel is full.
    ///
    /// # Errors
    ///
    /// Returns `Exhausted` with the stored message if the numbers of messages have run out. The sink then stores none.
    fn poll_close(&mut self, cx: &mut TaskContext<'_>) -> TaskPoll<Result<(), Self::Error>>
        ensures flushes { Flushes self.old.stored (as_poll result) self.new.stored }
        ensures registered { OnPending result (Covers cx.new (λ s. s ≡ self.new.source)) }
        ensures kept { Keeps cx.old cx.new }
    {
        self.registration.register(cx);
        told(self.sink.poll_close(&Context::from_waker(self.task)))
    }
}
