//! The channel, and the priority channel, as machines that take commands.
ghost use Rattle.std.specs.Prelude.{◌≡◌, ℕ, [], IfOk, OnErr};
ghost use Rattle.esync_base.specs.Keeping.{BoundedList};
ghost use Rattle.esync_machine.specs.Object.{GoodRunOver};
ghost use Rattle.esync_channel.specs.ChannelRules.{channel_rules, channel_wakings};
ghost use Rattle.esync_channel.specs.Order.{InOrder};
ghost use Rattle.esync_channel.specs.Sizes.{SizesAddUp};

use super::{Mailbox, TryReceiveError, TrySendError};
use esync_base::deque::Deque;
use esync_base::store::Store;
use esync_base::waitqueue::{Context, Poll, Wakes};
use esync_machine::primitive::{Answer, Command, Primitive, Reach, Turn};
use esync_machine::requests::Requests;
use esync_machine::run::{Reply, run};
use std::alloc::{AllocError, Global};

/// What a request on a channel waits for.
#[derive(Clone, Copy, Debug, PartialEq, Eq)]
pub enum ChannelAsk<T> {
    /// Room for this message, to put it in.
    Send(T),
    /// A message, to take it out.
    Receive,
    /// Room, without putting a message in.
    SendReady,
    /// A message, without taking it out.
    ReceiveReady,
}

/// The calls of a channel that are no start, poll or end.
#[derive(Clone, Copy, Debug, PartialEq, Eq)]
pub enum ChannelCall<T> {
    TrySend(T),
    TryReceive,
    Clear,
    Len,
    FreeCapacity,
}

/// The answers of a channel.
#[derive(Clone, Copy, Debug, PartialEq, Eq)]
pub enum ChannelHeard<T> {
    /// The message of the request was sent, or what the request waited for is there.
    Ready,
    /// The message that the request received.
    Received(T),
    TrySent(Result<(), TrySendError<T>>),
    TryReceived(Result<T, TryReceiveError>),
    Number(usize),
}

impl<S: Store, W: Copy + Eq, const K: usize> Primitive<K> for Mailbox<S, W> {
    type Ask = ChannelAsk<S::Message>;

    type Held = ChannelAsk<S::Message>;

    type Call = ChannelCall<S::Message>;

    type Heard = ChannelHeard<S::Message>;

    type Waker = W;

    ghost use Rattle.esync_channel.specs.ChannelRules.{channel_rules, channel_wakings};
    ghost use Rattle.esync_channel.specs.ChannelLaws.{OwesFor};

    ghost rules = { channel_rules S.keeping };

    ghost core = { λ m. S.held m.store };

    ghost wakings = { channel_wakings W.eq S.keeping };

    ghost registrations = { λ m. m.slots };

    ghost most = { 1 };

    ghost Owes = { λ m ask w. OwesFor W.eq S.keeping (S.held m.store) m.slots ask w };

    ghost Fits = { λ m ask. Unit };

    ghost Apart = { λ ask other. Unit };

    fn begin(&self, ask: ChannelAsk<S::Message>) -> Option<ChannelAsk<S::Message>> {
        Some(ask)
    }

    fn poll(
        &mut self,
        held: ChannelAsk<S::Message>,
        waker: W,
        wakes: &mut Wakes<W, K>,
    ) -> Turn<ChannelHeard<S::Message>, ChannelAsk<S::Message>> {
        let cx = Context::from_waker(waker);
        match held {
            ChannelAsk::Send(message) => {
                match self.try_send_with_context(message, Some(&cx), wakes) {
                    Ok(()) => Turn::over(ChannelHeard::Ready),
                    Err(error) => Turn::waits(ChannelAsk::Send(error.into_message())),
                }
            }
            ChannelAsk::Receive => match self.poll_receive(&cx, wakes) {
                Poll::Ready(message) => Turn::over(ChannelHeard::Received(message)),
                Poll::Pending => Turn::waits(ChannelAsk::Receive),
            },
            ChannelAsk::SendReady => match self.poll_ready_to_send(&cx, wakes) {
                Poll::Ready(()) => Turn::over(ChannelHeard::Ready),
                Poll::Pending => Turn::waits(ChannelAsk::SendReady),
            },
            ChannelAsk::ReceiveReady => match self.poll_ready_to_receive(&cx, wakes) {
                Poll::Ready(()) => Turn::over(ChannelHeard::Ready),
                Poll::Pending => Turn::waits(ChannelAsk::ReceiveReady),
            },
        }
    }

    fn end(&mut self, _held: ChannelAsk<S::Message>, _wakes: &mut Wakes<W, K>) {}

    fn reach(_call: &ChannelCall<S::Message>) -> Reach {
        Reach::Nobody
    }

    fn leaves(&self, _call: &ChannelCall<S::Message>, _held: &ChannelAsk<S::Message>) -> bool {
        false
    }

    fn call(
        &mut self,
        call: ChannelCall<S::Message>,
        _place: &mut Option<ChannelAsk<S::Message>>,
        wakes: &mut Wakes<W, K>,
    ) -> Answer<ChannelHeard<S::Message>> {
        match call {
            ChannelCall::TrySend(message) => {
                Answer::Gives(ChannelHeard::TrySent(self.try_send(message, wakes)))
            }
            ChannelCall::TryReceive => {
                Answer::Gives(ChannelHeard::TryReceived(self.try_receive(wakes)))
            }
            ChannelCall::Clear => {
                self.clear(wakes);
                Answer::Done
            }
            ChannelCall::Len => Answer::Gives(ChannelHeard::Number(self.len())),
            ChannelCall::FreeCapacity => {
                Answer::Gives(ChannelHeard::Number(self.free_capacity()))
            }
        }
    }

    ghost use Rattle.esync_channel.specs.ChannelLaws.{channel_idle, channel_pending};

    ghost idle = { λ m ask w f h. channel_idle W.eq S.keeping (S.held m.store) m.slots ask w h };

    ghost pending = { channel_pending S.keeping };

    ghost no_such = { λ o h a o2 p n k. absurd (n tt) };

    ghost symmetric = { λ h k a. tt };

    ghost use Rattle.esync_machine.specs.RulesLaws.{all_requests};

    ghost no_requests = { all_requests (channel_rules S.keeping) (λ h. tt) (λ o o2 call p p2 a c. c.1) };
}

/// A channel of at most `N` messages as a machine, with requests at the numbers below `REQS`.
pub type ChannelRun<T, W, const N: usize, const REQS: usize, const K: usize> = Requests<
    Mailbox<Deque<T, N>, W>,
    REQS,
    K,
>;

/// The commands of a channel.
pub type ChannelCommand<T, W> = Command<ChannelAsk<T>, W, ChannelCall<T>>;

/// The reply of a channel to a command, with the wakers that it hands out.
pub type ChannelReply<T, W, const K: usize> = Reply<Answer<ChannelHeard<T>>, W, K>;

/// Gives the commands to the channel, one after another, as `run` does, and returns the replies in order. After an
/// error no command was taken.
///
/// Each answer is one that a list of at most `N` messages, oldest first, allows. No live request that last heard
/// Pending would now be answered Ready, unless its waker was handed out in that poll or since. No Pending poll that
/// changes nothing hands out its own waker.
///
/// What is sent comes out in order. Take the messages that the run received or cleared, and behind them those that are
/// held after it: they are the messages held at first and behind them those that the run sent, in order.
///
/// The sizes add up. The length is the number of messages that were held at first or sent since, and not taken. With
/// the free capacity it makes `N`.
pub fn run_channel<T: Drop, W: Copy + Eq, const N: usize, const REQS: usize, const K: usize>(
    alloc: Global,
    machine: &mut ChannelRun<T, W, N, REQS, K>,
    commands: Vec<ChannelCommand<T, W>>,
) -> Result<Vec<ChannelReply<T, W, K>>, AllocError>
    ensures run { IfOk result (λ replies. GoodRunOver (channel_rules (BoundedList T N)) (λ m. m.store.items) (channel_wakings W.eq (BoundedList T N)) (λ m. m.slots) W.eq K machine.old commands.items replies.items machine.new) }
    ensures order { IfOk result (λ replies. InOrder machine.old.requests machine.old.state.store.items commands.items replies.items machine.new.state.store.items) }
    ensures sizes { IfOk result (λ replies. SizesAddUp N machine.old.requests machine.old.state.store.items commands.items replies.items) }
    ensures refused { OnErr result (machine.new ≡ machine.old) }
{
    run(alloc, machine, commands)
}
