//! A queue for sending values between tasks: several may send, several may receive, and each message goes to one of
//! them.
//!
//! The state form takes `&mut self`, holds no lock and never waits. Each call appends the wakers that it hands out to
//! the list of wakes that it is given, and the caller wakes their tasks. A registration hands out the waker that it
//! displaces.
ghost use Rattle.std.specs.Prelude.{◌≡◌, ℕ, ◌<◌, ◌≤◌, ◌+◌, ◌++◌, [], Some, None, length, ◌↔◌, IsTrue, IsSome, IfSome, is_ok, is_none};
ghost use Rattle.std.specs.Option.{option_copied};
ghost use Rattle.esync_base.specs.Registration.{registered, displaced};
ghost use Rattle.esync_channel.specs.Channel.{Sends, Receives, slots_after_send, wakes_of_send, slots_after_receive, wakes_of_receive, IsReadyToSend, IsReadyToReceive};
ghost use Rattle.esync_channel.specs.Polls.{ReceivesPoll, SendsPoll, is_ready};

use esync_base::deque::Deque;
use esync_base::kept::Kept;
use esync_base::store::{FixedStore, Store};
use esync_base::waitqueue::{Context, Poll, Registered, WakerRegistration, Wakes};
pub use handles::{DynamicReceiver, DynamicSender, Rcv, Receiver, Sender, Snd};
pub use shared::{
    Channel, DynamicChannel, DynamicReceiveFuture, DynamicSendFuture, ReceiveFuture,
    ReceiveReadyFuture, SendFuture, SharedMailbox,
};
use std::alloc::AllocError;
use std::fmt::Debug;
use std::marker::Model;
use thiserror::Error;

mod handles;
pub mod machine;
mod shared;

/// Why no message was received.
#[derive(Clone, Copy, Debug, PartialEq, Eq, Error)]
pub enum TryReceiveError {
    /// No message is in the channel.
    #[error("the channel is empty")]
    Empty,
}

/// Why a message was not sent. The message is in the error.
#[derive(Clone, Copy, Debug, PartialEq, Eq, Error)]
#[error_bound(T: Debug)]
pub enum TrySendError<T> {
    /// As many messages are held as there is room for.
    #[error("the channel is full")]
    Full(T),
}

impl<T> TrySendError<T> {
    /// Returns the message that was not sent.
    pub fn into_message(self) -> T
        ensures { TrySendError.Full result ≡ self }
    {
        match self {
            TrySendError::Full(message) => message,
        }
    }
}

/// The state of a channel of at most `N` messages, oldest first.
pub type ChannelState<T, W, const N: usize> = Mailbox<Deque<T, N>, W>;

/// The state of a channel: its messages, a slot for the waker of a task that waits for a message, and a slot for that
/// of a task that waits for room.
#[derive(Debug, Drop)]
pub struct Mailbox<S, W> {
    receiver_waker: WakerRegistration<W>,
    senders_waker: WakerRegistration<W>,
    queue: S,
}

impl<S: Kept, W: Copy> Kept for Mailbox<S, W> {
    fn kept(&self) -> Result<Self, AllocError> {
        Ok(Mailbox {
            queue: self.queue.kept()?,
            receiver_waker: self.receiver_waker.kept()?,
            senders_waker: self.senders_waker.kept()?,
        })
    }
}

impl<S, W> Model for Mailbox<S, W> {
    ghost use Rattle.esync_channel.specs.Mailbox.{Mailbox as Parts, mailbox_code};

    ghost Value = { Parts S W };

    ghost coded = { mailbox_code S.code W.code };

    ghost view = { λ a. record { store = a.queue; slots = record { receivers = a.receiver_waker; senders = a.senders_waker } } };
}

/// Place 0 is the receivers' slot, for a message. Place 1 is the senders' slot, for room.
impl<S, W: Copy + Eq> Registered for Mailbox<S, W> {
    type Waker = W;

    ghost use Rattle.esync_base.specs.Standing.{at_two};

    ghost at = { λ m. at_two m.slots.receivers m.slots.senders };

    fn registered(&self, place: usize, i: usize) -> Option<W> {
        match place {
            0 => self.receiver_waker.get(i),
            1 => self.senders_waker.get(i),
            _ => None,
        }
    }
}

impl<S: FixedStore, W: Copy + Eq> Mailbox<S, W> {
    /// Returns an empty channel without a registered waker.
    pub fn new() -> Self
        ensures held { S.held result.store ≡ [] }
        ensures receivers { result.slots.receivers ≡ [] }
        ensures senders { result.slots.senders ≡ [] }
    {
        Mailbox::over(S::new())
    }
}

impl<S: Store, W: Copy + Eq> Mailbox<S, W> {
    /// Returns a channel that holds the store's messages, without a registered waker.
    pub fn over(store: S) -> Self
        ensures store { result.store ≡ store }
        ensures receivers { result.slots.receivers ≡ [] }
        ensures senders { result.slots.senders ≡ [] }
    {
        Mailbox {
            queue: store,
            receiver_waker: WakerRegistration::new(),
            senders_waker: WakerRegistration::new(),
        }
    }

    fn receive<const K: usize>(
        &mut self,
        waker: Option<W>,
        wakes: &mut Wakes<W, K>,
    ) -> Result<S::Message, TryReceiveError>
        requires { length wakes.old < K }
        ensures messages { Receives S.keeping (S.held self.old.store) result (S.held self.new.store) }
        ensures slots { self.new.slots ≡ slots_after_receive W.eq S.keeping.capacity (length (S.held self.old.store)) waker (is_ok result) self.old.slots }
        ensures wakes { wakes.new ≡ wakes.old ++ wakes_of_receive W.eq S.keeping.capacity (length (S.held self.old.store)) waker (is_ok result) self.old.slots }
    {
        let was_full = self.queue.len() >= self.queue.capacity();
        match self.queue.take() {
            Some(message) => {
                if was_full {
                    self.senders_waker.wake(wakes);
                }
                Ok(message)
            }
            None => {
                if let Some(waker) = waker {
                    self.receiver_waker.register(waker, wakes);
                }
                Err(TryReceiveError::Empty)
            }
        }
    }

    /// Takes the first message and returns it. If the channel was full, hands out the senders' waker. An error means
    /// that the channel is empty.
    pub fn try_receive<const K: usize>(
        &mut self,
        wakes: &mut Wakes<W, K>,
    ) -> Result<S::Message, TryReceiveError>
        requires { length wakes.old < K }
        ensures messages { Receives S.keeping (S.held self.old.store) result (S.held self.new.store) }
        ensures slots { self.new.slots ≡ slots_after_receive W.eq S.keeping.capacity (length (S.held self.old.store)) None (is_ok result) self.old.slots }
        ensures wakes { wakes.new ≡ wakes.old ++ wakes_of_receive W.eq S.keeping.capacity (length (S.held self.old.store)) None (is_ok result) self.old.slots }
    {
        self.receive(None, wakes)
    }

    /// Takes the first message and returns it. If the channel was full, hands out the senders' waker. If it is empty,
    /// returns an error, and registers the waker of the context, if there is one, in the receivers' slot.
    pub fn try_receive_with_context<const K: usize>(
        &mut self,
        cx: Option<&Context<W>>,
        wakes: &mut Wakes<W, K>,
    ) -> Result<S::Message, TryReceiveError>
        requires { length wakes.old < K }
        ensures messages { Receives S.keeping (S.held self.old.store) result (S.held self.new.store) }
        ensures slots { self.new.slots ≡ slots_after_receive W.eq S.keeping.capacity (length (S.held self.old.store)) (option_copied cx.entry) (is_ok result) self.old.slots }
        ensures wakes { wakes.new ≡ wakes.old ++ wakes_of_receive W.eq S.keeping.capacity (length (S.held self.old.store)) (option_copied cx.entry) (is_ok result) self.old.slots }
    {
        let waker = match cx {
            Some(cx) => Some(cx.waker()),
            None => None,
        };
        self.receive(waker, wakes)
    }

    /// Takes the first message and returns it. If the channel was full, hands out the senders' waker. If it is empty,
    /// registers the context's waker in the receivers' slot and returns Pending.
    pub fn poll_receive<const K: usize>(
        &mut self,
        cx: &Context<W>,
        wakes: &mut Wakes<W, K>,
    ) -> Poll<S::Message>
        requires { length wakes.old < K }
        ensures messages { ReceivesPoll S.keeping (S.held self.old.store) result (S.held self.new.store) }
        ensures slots { self.new.slots ≡ slots_after_receive W.eq S.keeping.capacity (length (S.held self.old.store)) (Some cx.now) (is_ready result) self.old.slots }
        ensures wakes { wakes.new ≡ wakes.old ++ wakes_of_receive W.eq S.keeping.capacity (length (S.held self.old.store)) (Some cx.now) (is_ready result) self.old.slots }
    {
        match self.receive(Some(cx.waker()), wakes) {
            Ok(message) => Poll::Ready(message),
            Err(TryReceiveError::Empty) => Poll::Pending,
        }
    }

    /// Polls for a message: Ready if the channel isn't empty. Registers the context's waker in the receivers' slot,
    /// whatever the answer.
    pub fn poll_ready_to_receive<const K: usize>(
        &mut self,
        cx: &Context<W>,
        wakes: &mut Wakes<W, K>,
    ) -> Poll<()>
        requires { length wakes.old < K }
        ensures answer { IsReadyToReceive (length (S.held self.old.store)) (is_ready result) }
        ensures messages { self.new.store ≡ self.old.store }
        ensures slots { self.new.slots ≡ record self.old.slots { receivers = registered W.eq 1 self.old.slots.receivers cx.now } }
        ensures wakes { wakes.new ≡ wakes.old ++ displaced W.eq 1 self.old.slots.receivers cx.now }
    {
        self.receiver_waker.register(cx.waker(), wakes);
        if self.queue.len() > 0 {
            Poll::Ready(())
        } else {
            Poll::Pending
        }
    }

    fn send<const K: usize>(
        &mut self,
        message: S::Message,
        waker: Option<W>,
        wakes: &mut Wakes<W, K>,
    ) -> Result<(), TrySendError<S::Message>>
        requires { length wakes.old < K }
        ensures messages { Sends S.keeping (S.held self.old.store) message result (S.held self.new.store) }
        ensures slots { self.new.slots ≡ slots_after_send W.eq waker (is_ok result) self.old.slots }
        ensures wakes { wakes.new ≡ wakes.old ++ wakes_of_send W.eq waker (is_ok result) self.old.slots }
    {
        match self.queue.put(message) {
            Ok(()) => {
                self.receiver_waker.wake(wakes);
                Ok(())
            }
            Err(message) => {
                if let Some(waker) = waker {
                    self.senders_waker.register(waker, wakes);
                }
                Err(TrySendError::Full(message))
            }
        }
    }

    /// Sends a message, and hands out the receivers' waker. If the channel is full, returns the message in the error,
    /// and nothing changes.
    pub fn try_send<const K: usize>(
        &mut self,
        message: S::Message,
        wakes: &mut Wakes<W, K>,
    ) -> Result<(), TrySendError<S::Message>>
        requires { length wakes.old < K }
        ensures messages { Sends S.keeping (S.held self.old.store) message result (S.held self.new.store) }
        ensures slots { self.new.slots ≡ slots_after_send W.eq None (is_ok result) self.old.slots }
        ensures wakes { wakes.new ≡ wakes.old ++ wakes_of_send W.eq None (is_ok result) self.old.slots }
    {
        self.send(message, None, wakes)
    }

    /// Sends a message, and hands out the receivers' waker. If the channel is full, returns the message in the error,
    /// and registers the waker of the context, if there is one, in the senders' slot.
    pub fn try_send_with_context<const K: usize>(
        &mut self,
        message: S::Message,
        cx: Option<&Context<W>>,
        wakes: &mut Wakes<W, K>,
    ) -> Result<(), TrySendError<S::Message>>
        requires { length wakes.old < K }
        ensures messages { Sends S.keeping (S.held self.old.store) message result (S.held self.new.store) }
        ensures slots { self.new.slots ≡ slots_after_send W.eq (option_copied cx.entry) (is_ok result) self.old.slots }
        ensures wakes { wakes.new ≡ wakes.old ++ wakes_of_send W.eq (option_copied cx.entry) (is_ok result) self.old.slots }
    {
        let waker = match cx {
            Some(cx) => Some(cx.waker()),
            None => None,
        };
        self.send(message, waker, wakes)
    }

    /// Polls for room: Ready if the channel isn't full. Registers the context's waker in the senders' slot, whatever
    /// the answer.
    pub fn poll_ready_to_send<const K: usize>(
        &mut self,
        cx: &Context<W>,
        wakes: &mut Wakes<W, K>,
    ) -> Poll<()>
        requires { length wakes.old < K }
        ensures answer { IsReadyToSend S.keeping.capacity (length (S.held self.old.store)) (is_ready result) }
        ensures messages { self.new.store ≡ self.old.store }
        ensures slots { self.new.slots ≡ record self.old.slots { senders = registered W.eq 1 self.old.slots.senders cx.now } }
        ensures wakes { wakes.new ≡ wakes.old ++ displaced W.eq 1 self.old.slots.senders cx.now }
    {
        self.senders_waker.register(cx.waker(), wakes);
        if self.queue.len() < self.queue.capacity() {
            Poll::Ready(())
        } else {
            Poll::Pending
        }
    }

    /// Drops all messages, and hands out the senders' waker.
    pub fn clear<const K: usize>(&mut self, wakes: &mut Wakes<W, K>)
        requires { length wakes.old < K }
        ensures messages { S.held self.new.store ≡ [] }
        ensures slots { self.new.slots ≡ record self.old.slots { senders = [] } }
        ensures wakes { wakes.new ≡ wakes.old ++ self.old.slots.senders }
    {
        self.queue.clear();
        self.senders_waker.wake(wakes);
    }

    /// Returns the store of the messages.
    pub fn store(&self) -> &S
        ensures { result.now ≡ self.now.store }
    {
        &self.queue
    }

    /// Returns how many messages are in the channel.
    pub fn len(&self) -> usize
        ensures value { result ≡ length (S.held self.now.store) }
        ensures within { result ≤ S.keeping.capacity }
    {
        self.queue.len()
    }

    /// Returns whether the channel is empty.
    pub fn is_empty(&self) -> bool
        ensures { IsTrue result ↔ (length (S.held self.now.store) ≡ 0) }
    {
        self.queue.len() == 0
    }

    /// Returns whether the channel is full.
    pub fn is_full(&self) -> bool
        ensures { IsTrue result ↔ (length (S.held self.now.store) ≡ S.keeping.capacity) }
    {
        self.queue.len() == self.queue.capacity()
    }

    /// Returns how many messages the channel has room for in all.
    pub fn capacity(&self) -> usize
        ensures { result ≡ S.keeping.capacity }
    {
        self.queue.capacity()
    }

    /// Returns how many more messages the channel has room for.
    pub fn free_capacity(&self) -> usize
        ensures { result + length (S.held self.now.store) ≡ S.keeping.capacity }
    {
        self.queue.capacity() - self.queue.len()
    }
}

/// A request to send a message, which is there until it is sent.
#[derive(Debug, Drop)]
pub struct SendRequest<T> {
    message: Option<T>,
}

impl<T> Model for SendRequest<T> {
    ghost use Rattle.std.specs.Prelude.{Option};
    ghost use Rattle.std.specs.Coded.{coded_option};

    ghost Value = { Option T };

    ghost coded = { coded_option T.code };

    ghost view = { λ a. a.message };
}

impl<T: Drop> SendRequest<T> {
    /// Returns a request whose message is still to be sent.
    pub fn new(message: T) -> Self
        ensures { result ≡ Some message }
    {
        SendRequest {
            message: Some(message),
        }
    }

    /// Returns whether the message was sent.
    pub fn is_finished(&self) -> bool
        ensures { result ≡ is_none self.now }
    {
        self.message.is_none()
    }

    /// Sends the message, and hands out the receivers' waker. If the channel is full, registers the context's waker in
    /// the senders' slot and returns Pending. A finished request may not be polled.
    pub fn poll_state<S: Store<Message = T>, W: Copy + Eq, const K: usize>(
        &mut self,
        state: &mut Mailbox<S, W>,
        cx: &Context<W>,
        wakes: &mut Wakes<W, K>,
    ) -> Poll<()>
        requires room { length wakes.old < K }
        requires unfinished { IsSome self.old }
        ensures messages { IfSome self.old (λ message. SendsPoll S.keeping (S.held state.old.store) message result (S.held state.new.store) self.new) }
        ensures slots { state.new.slots ≡ slots_after_send W.eq (Some cx.now) (is_ready result) state.old.slots }
        ensures wakes { wakes.new ≡ wakes.old ++ wakes_of_send W.eq (Some cx.now) (is_ready result) state.old.slots }
    {
        let Some(message) = self.message.take() else {
            unreachable!()
        };
        match state.send(message, Some(cx.waker()), wakes) {
            Ok(()) => Poll::Ready(()),
            Err(error) => {
                self.message = Some(error.into_message());
                Poll::Pending
            }
        }
    }
}
