//! The channel and the priority channel: called by their own calls and by their handles.
use crate::form::{Answered, Door, Doors, Form, Sizes, by, heard, sizes};
use esync_base::store::{FixedStore, Store};
use esync_base::waitqueue::{Context, Hand, Poll};
use esync_channel::channel::machine::{ChannelAsk, ChannelCall, ChannelHeard};
use esync_channel::channel::{
    Rcv, ReceiveFuture, SendFuture, SharedMailbox, Snd, TryReceiveError, TrySendError,
};
use esync_machine::primitive::Answer;
use esync_script::capacity::Capacity;
use esync_script::channel::ChannelWords;

/// A channel whose calls are made in each way in turn: by its own calls and by its handles.
#[derive(Drop)]
pub struct Channel<'c, S, H> {
    channel: &'c SharedMailbox<S, u64, H>,
    sender: Snd<'c, SharedMailbox<S, u64, H>>,
    receiver: Rcv<'c, SharedMailbox<S, u64, H>>,
    doors: Doors,
}

/// A future, or a request that is polled by calls that take a context.
#[derive(Drop)]
pub enum Held<'c, S: Store, H: Hand<u64>> {
    Send(SendFuture<'c, SharedMailbox<S, u64, H>>),
    TrySend(u64),
    Receive(ReceiveFuture<'c, SharedMailbox<S, u64, H>>),
    TryReceive,
    SendReady,
    ReceiveReady,
}

impl<'c, S: FixedStore<Message = u64>, H: Hand<u64>> Form for Channel<'c, S, H> {
    type Words = ChannelWords<Capacity>;

    type Held = Held<'c, S, H>;

    fn begin(&mut self, ask: ChannelAsk<u64>) -> Option<Self::Held> {
        Some(match ask {
            ChannelAsk::Send(message) => self.send(message),
            ChannelAsk::Receive => self.receive(),
            ChannelAsk::SendReady => Held::SendReady,
            ChannelAsk::ReceiveReady => Held::ReceiveReady,
        })
    }

    fn poll(&mut self, held: &mut Self::Held, cx: &Context<u64>) -> Answered<Self> {
        Some(match held {
            Held::Send(future) if future.is_finished() => return None,
            Held::Send(future) => heard!(future.poll(cx), () => ChannelHeard::Ready),
            Held::TrySend(message) => {
                match self.channel.try_send_with_context(*message, Some(cx)) {
                    Ok(()) => Answer::Gives(ChannelHeard::Ready),
                    Err(TrySendError::Full(_)) => Answer::Pending,
                }
            }
            Held::Receive(future) => {
                heard!(future.poll(cx), message => ChannelHeard::Received(message))
            }
            Held::TryReceive => {
                heard!(self.poll_receive(cx), message => ChannelHeard::Received(message))
            }
            Held::SendReady => {
                let polled = by!(self, channel | sender | sender, poll_ready_to_send(cx));
                heard!(polled, () => ChannelHeard::Ready)
            }
            Held::ReceiveReady => {
                let polled = by!(
                    self,
                    channel | receiver | receiver,
                    poll_ready_to_receive(cx)
                );
                heard!(polled, () => ChannelHeard::Ready)
            }
        })
    }

    fn call(&mut self, call: ChannelCall<u64>, _place: &mut Option<Self::Held>) -> Answered<Self> {
        Some(Answer::Gives(match call {
            ChannelCall::TrySend(message) => {
                ChannelHeard::TrySent(by!(self, channel | sender | sender, try_send(message)))
            }
            ChannelCall::TryReceive => {
                ChannelHeard::TryReceived(by!(self, channel | receiver | receiver, try_receive()))
            }
            ChannelCall::Clear => {
                by!(self, channel | sender | receiver, clear());
                return Some(Answer::Done);
            }
            ChannelCall::Len => ChannelHeard::Number(self.sizes()?.len),
            ChannelCall::FreeCapacity => ChannelHeard::Number(self.sizes()?.free),
        }))
    }
}

impl<'c, S: FixedStore<Message = u64>, H: Hand<u64>> Channel<'c, S, H> {
    /// Returns this channel, called in these ways.
    pub fn new(channel: &'c SharedMailbox<S, u64, H>, doors: Doors) -> Self {
        Channel {
            channel,
            sender: channel.sender(),
            receiver: channel.receiver(),
            doors,
        }
    }

    fn send(&mut self, message: u64) -> Held<'c, S, H> {
        if self.doors.is_future() {
            Held::Send(by!(self, channel | sender | sender, send(message)))
        } else {
            Held::TrySend(message)
        }
    }

    fn receive(&mut self) -> Held<'c, S, H> {
        if self.doors.is_future() {
            Held::Receive(by!(self, channel | receiver | receiver, receive()))
        } else {
            Held::TryReceive
        }
    }

    fn poll_receive(&mut self, cx: &Context<u64>) -> Poll<u64> {
        match self.doors.next() {
            Door::Own => match self.channel.try_receive_with_context(Some(cx)) {
                Ok(message) => Poll::Ready(message),
                Err(TryReceiveError::Empty) => Poll::Pending,
            },
            Door::Handle | Door::Dynamic => self.receiver.poll_receive(cx),
        }
    }

    fn sizes(&mut self) -> Option<Sizes> {
        match self.doors.next() {
            Door::Own => sizes!(self.channel),
            Door::Handle => sizes!(self.sender),
            Door::Dynamic => sizes!(self.receiver),
        }
    }
}
