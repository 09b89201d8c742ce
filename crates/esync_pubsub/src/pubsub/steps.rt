//! The steps that a shared channel and a machine share. A caller that isn't a subscriber hears that it has read all.
ghost use Rattle.std.specs.Prelude.{◌≡◌, ◌-◌, ◌≤◌, [], Some, None, IsSome, IfSome};
ghost use Rattle.esync_pubsub.specs.PubSub.{still};
ghost use Rattle.esync_pubsub.specs.Steps.{most_wakes, answered, to_read, Leaving, PollingPublish, ReadingNext, ReadingOn, Streaming};

use super::{Exhausted, PubSubOver, PublishRequest, SubId, WaitResult};
use esync_base::waitqueue::{Context, Poll, WakerList, Wakes};
use esync_log::log::LogStore;
use std::alloc::AllocError;

impl<G: LogStore, S: WakerList, P: WakerList<Waker = S::Waker>> PubSubOver<G, S, P> {
    /// Removes the subscriber, if it is one.
    pub(crate) fn unregister_subscriber<const K: usize>(
        &mut self,
        id: SubId,
        wakes: &mut Wakes<S::Waker, K>,
    )
        requires empty { wakes.old ≡ [] }
        requires room { most_wakes S.room P.room ≤ K }
        ensures step { Leaving id self.old self.new wakes.new }
    {
        if self.is_subscriber(&id) {
            self.leave(id, wakes);
        }
    }

    /// Counts one publisher less, if one is counted.
    pub(crate) fn unregister_publisher(&mut self)
        ensures { self.new ≡ record self.old { publishers = self.old.publishers - 1 } }
    {
        if self.publishers > 0 {
            self.remove_publisher();
        }
    }

    /// Polls a request: publishes its message if there is room and a publisher is counted.
    pub(crate) fn poll_publish<const K: usize>(
        &mut self,
        request: &mut PublishRequest<G::Message>,
        cx: &Context<S::Waker>,
        wakes: &mut Wakes<S::Waker, K>,
    ) -> Poll<Result<(), Exhausted<G::Message>>>
        requires empty { wakes.old ≡ [] }
        requires room { most_wakes S.room P.room ≤ K }
        requires unfinished { IsSome request.old }
        ensures request { IfSome request.old (λ message. request.new ≡ still message result) }
        ensures step { IfSome request.old (λ message. PollingPublish S.Waker.eq G.capacity P.room message cx.now self.old result self.new wakes.new) }
    {
        if self.publishers() == 0 {
            return Poll::Pending;
        }
        request.poll_state(self, cx, wakes)
    }

    /// Reads the subscriber's next message or lag.
    pub(crate) fn read_next<const K: usize>(
        &mut self,
        id: &SubId,
        wakes: &mut Wakes<S::Waker, K>,
    ) -> Result<Option<WaitResult<G::Message>>, AllocError>
        requires empty { wakes.old ≡ [] }
        requires room { most_wakes S.room P.room ≤ K }
        ensures step { ReadingNext S.Waker.eq G.Message.is_clone G.Message.is_infallible S.room id.now None self.old result self.new wakes.new }
    {
        if !self.is_subscriber(id) {
            return Ok(None);
        }
        self.try_next_message(id, wakes)
    }

    /// Polls for the subscriber's next message or lag. If it has read all, registers the context's waker.
    pub(crate) fn poll_message<const K: usize>(
        &mut self,
        id: &SubId,
        cx: &Context<S::Waker>,
        wakes: &mut Wakes<S::Waker, K>,
    ) -> Result<Poll<WaitResult<G::Message>>, AllocError>
        requires empty { wakes.old ≡ [] }
        requires room { most_wakes S.room P.room ≤ K }
        ensures step { ReadingNext S.Waker.eq G.Message.is_clone G.Message.is_infallible S.room id.now (Some cx.now) self.old (answered result) self.new wakes.new }
    {
        if !self.is_subscriber(id) {
            return Ok(Poll::Pending);
        }
        self.get_message_with_context(id, cx, wakes)
    }

    /// Reads the subscriber's next message, past a lag.
    pub(crate) fn read_on<const K: usize>(
        &mut self,
        id: &SubId,
        wakes: &mut Wakes<S::Waker, K>,
    ) -> Result<Option<G::Message>, AllocError>
        requires empty { wakes.old ≡ [] }
        requires room { most_wakes S.room P.room ≤ K }
        ensures step { ReadingOn S.Waker.eq G.Message.is_clone G.Message.is_infallible S.room id.now None self.old result self.new wakes.new }
    {
        if !self.is_subscriber(id) {
            return Ok(None);
        }
        self.try_next_message_pure(id, wakes)
    }

    /// Polls for the subscriber's next message, past a lag. If it has read all, registers the context's waker.
    pub(crate) fn poll_message_pure<const K: usize>(
        &mut self,
        id: &SubId,
        cx: &Context<S::Waker>,
        wakes: &mut Wakes<S::Waker, K>,
    ) -> Result<Poll<G::Message>, AllocError>
        requires empty { wakes.old ≡ [] }
        requires room { most_wakes S.room P.room ≤ K }
        ensures step { ReadingOn S.Waker.eq G.Message.is_clone G.Message.is_infallible S.room id.now (Some cx.now) self.old (answered result) self.new wakes.new }
    {
        if !self.is_subscriber(id) {
            return Ok(Poll::Pending);
        }
        self.get_message_pure_with_context(id, cx, wakes)
    }

    /// Polls the stream of this subscriber's messages.
    pub(crate) fn poll_stream<const K: usize>(
        &mut self,
        id: &SubId,
        cx: &Context<S::Waker>,
        wakes: &mut Wakes<S::Waker, K>,
    ) -> Result<Poll<Option<G::Message>>, AllocError>
        requires empty { wakes.old ≡ [] }
        requires room { most_wakes S.room P.room ≤ K }
        ensures step { Streaming S.Waker.eq G.Message.is_clone G.Message.is_infallible S.room id.now cx.now self.old result self.new wakes.new }
    {
        if !self.is_subscriber(id) {
            return Ok(Poll::Pending);
        }
        self.poll_next(id, cx, wakes)
    }

    /// Returns the number of messages published that the subscriber has not read.
    pub(crate) fn to_read(&self, id: &SubId) -> u64
        ensures { result ≡ to_read id.now self.now.log }
    {
        if !self.is_subscriber(id) {
            return 0;
        }
        self.available(id)
    }
}
