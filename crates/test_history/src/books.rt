//! A book whose two seats take turns at a channel of one, and what four audits of it say.
ghost use Rattle.std.specs.Prelude.{◌≡◌, ◌<◌};

use crate::seats::settle_two;
use esync_base::waitqueue::TaskId;
use esync_channel::channel::machine::{
    ChannelCall, ChannelCommand, ChannelHeard, ChannelReply, ChannelRun,
};
use esync_channel::channel::{ChannelState, TrySendError};
use esync_history::recorded::{Receipt, Recorded, audit};
use esync_machine::primitive::{Answer, Command};
use esync_machine::requests::Requests;
use esync_machine::run::Keep;
use esync_notes::{holds, same};
use std::alloc::Global;
use std::marker::Brand;
use std::process::Abort;
use std::sync::ledger::{Blank, Ledger};
use std::test::Fail;

type Asked = ChannelCommand<u32, TaskId>;

type Replied = ChannelReply<u32, TaskId, 1>;

type ChannelReceipt = Receipt<Asked, Replied>;

type Channel = ChannelRun<u32, TaskId, 1, 1, 1>;

const SEND: Asked = Command::Call(ChannelCall::TrySend(7));

const RECEIVE: Asked = Command::Call(ChannelCall::TryReceive);

fn is(rt: &impl Abort, receipt: &ChannelReceipt, number: usize, heard: ChannelHeard<u32>) {
    same!(rt; receipt.number, number);
    same!(rt; receipt.entry.seat, number);
    holds!(rt; receipt.entry.reply.answer == Answer::Gives(heard));
}

// What a seat of another book hears, whose channel is full.
fn refused<M, L: Ledger>(alloc: Global, blank: Blank, channel: M) -> Result<ChannelReceipt, Fail>
where
    M: Keep<Waker = TaskId, Command = Asked, Reply = Replied> + Drop,
    requires ledger { blank.name ≡ L.name }
    requires parts { blank.parts ≡ L.parts }
    requires room { 1 < blank.parts }
{
    let mut channel = channel;
    channel.step(SEND);
    let (recorded, mut seats) = Recorded::<_, L>::new(alloc, blank, channel, 1)?;
    let mut seat = seats.seat();
    Ok(recorded.into_book().record(&mut seat, SEND)?)
}

fn two_seats<M, L: Ledger>(
    rt: &impl Abort,
    alloc: Global,
    blank: Blank,
    channel: M,
    other: ChannelReceipt,
) -> Result<(), Fail>
where
    M: Keep<Waker = TaskId, Command = Asked, Reply = Replied> + Drop,
    requires ledger { blank.name ≡ L.name }
    requires parts { blank.parts ≡ L.parts }
    requires room { 2 < blank.parts }
{
    let (recorded, mut seats) = Recorded::<_, L>::new(alloc, blank, channel, 2)?;
    same!(rt; seats.seats_left(), 2);
    let mut first = seats.seat();
    let mut second = seats.seat();
    same!(rt; seats.seats_left(), 0);
    let mut book = recorded.into_book();
    let sent = book.record(&mut first, SEND)?;
    let received = book.record(&mut second, RECEIVE)?;
    is(rt, &sent, 0, ChannelHeard::TrySent(Ok(())));
    is(rt, &received, 1, ChannelHeard::TryReceived(Ok(7)));
    holds!(rt; first.number() == 0 && first.calls() == 1);
    holds!(rt; second.number() == 1 && second.calls() == 1);
    holds!(rt; audit(&[received, sent], &book));
    holds!(rt; !audit(&[sent, sent], &book));
    holds!(rt; !audit(&[other], &book));
    holds!(rt; audit(&[], &book));
    let journal = book.journal();
    same!(rt; journal.len(), 2);
    holds!(rt; journal[1].seat == 1 && journal[1].command == RECEIVE);
    let handed_in = vec![in alloc; first, second]?;
    same!(rt; book.settle(seats, handed_in), Some(2));
    Ok(())
}

// Two seats take turns at the channel, and another book is that of a channel which is filled first.
fn take_turns<M>(rt: &impl Abort, alloc: Global, channel: M, filled: M) -> Result<(), Fail>
where
    M: Keep<Waker = TaskId, Command = Asked, Reply = Replied> + Drop,
{
    let other = refused::<M, Brand>(alloc, Blank::new(2), filled)?;
    let full = ChannelHeard::TrySent(Err(TrySendError::Full(7)));
    is(rt, &other, 0, full);
    two_seats::<M, Brand>(rt, alloc, Blank::new(3), channel, other)
}

fn channel() -> Channel {
    Requests::new(ChannelState::new())
}

#[test]
fn two_seats_take_turns(rt: HostRuntime) -> Result<(), Fail> {
    take_turns(&rt, rt.alloc(), channel(), channel())
}

#[test]
fn two_books_are_settled_with_their_own_seats(rt: HostRuntime) -> Result<(), Fail> {
    let settled = settle_two(rt.alloc(), channel(), channel(), SEND)?;
    holds!(rt; settled == (Some(1), Some(0)));
    Ok(())
}
