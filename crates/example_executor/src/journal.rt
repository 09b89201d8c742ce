//! Two threads call one channel, which keeps a journal of their calls. At the end each thread's receipts are checked
//! against the journal.
ghost use Rattle.std.specs.Prelude.{◌≡◌, ◌<◌};

use embassy_sync::channel::ChannelState;
use embassy_sync::recorded::{Receipt, Recorded, Seat, audit};
use embassy_sync::run::channel::{ChannelCall, ChannelCommand, ChannelReply, ChannelRun};
use embassy_sync::run::primitive::Command;
use embassy_sync::run::requests::Requests;
use std::alloc::{AllocError, Global};
use std::marker::Brand;
use std::sync::Wait;
use std::sync::ledger::{Blank, Ledger};
use std::thread::Threads;
use std::{io, thread};

type Channel = ChannelRun<u32, u64, 4, 16, 1>;

type Told = Receipt<ChannelCommand<u32, u64>, ChannelReply<u32, u64, 1>>;

// Makes this call ten times from the seat. Returns the seat, and the receipt of each call.
fn call_ten_times<L: Ledger>(
    rt: &impl Wait,
    alloc: Global,
    channel: &Recorded<Channel, L>,
    seat: Seat<L>,
    call: ChannelCall<u32>,
) -> Result<(Seat<L>, Vec<Told>), AllocError> {
    let mut seat = seat;
    let mut receipts = Vec::with_capacity(alloc, 10)?;
    for _call in 0..10 {
        receipts.push(channel.call(rt, &mut seat, Command::Call(call))?)?;
    }
    Ok((seat, receipts))
}

// One thread sends, another receives. Returns how many entries the journal has, and whether it has all of the threads'
// receipts.
fn call_by_two<L: Ledger + Send + Sync, R: Threads + Wait + Sync>(
    rt: &R,
    alloc: Global,
    blank: Blank,
) -> Result<(Option<usize>, bool), AllocError>
    requires ledger { blank.name ≡ L.name }
    requires parts { blank.parts ≡ L.parts }
    requires room { 2 < blank.parts }
{
    let machine: Channel = Requests::new(ChannelState::new());
    let (channel, mut seats) = Recorded::<_, L>::new(alloc, blank, machine, 2)?;
    let (one, two) = (seats.seat(), seats.seat());
    let shared = &channel;
    let (sent, received) = thread::join(
        rt,
        move || call_ten_times(rt, alloc, shared, one, ChannelCall::TrySend(7)),
        move || call_ten_times(rt, alloc, shared, two, ChannelCall::TryReceive),
    );
    let (one, mut receipts) = sent?;
    let (two, others) = received?;
    receipts.extend_from_slice(&others)?;
    let book = channel.into_book();
    let is_told = audit(&receipts, &book);
    let entries = book.settle(seats, vec![in alloc; one, two]?);
    Ok((entries, is_told))
}

// The ledger is that of the blank: `proofs/journal/example` says so.
pub fn example<R: Print + Threads + Wait + Sync>(rt: &R, alloc: Global) -> io::Result<()> {
    match call_by_two::<Brand, _>(rt, alloc, Blank::new(3)) {
        Ok((entries, is_told)) => println!(rt; "entries: {entries:?}, as told: {is_told}"),
        Err(error) => println!(rt; "{error}"),
    }
}
