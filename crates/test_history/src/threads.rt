//! Threads that share a recorded machine, each with a seat of its own.
ghost use Rattle.std.specs.Prelude.{◌≡◌, ◌<◌};

use esync_base::kept::Kept;
use esync_base::waitqueue::{TaskId, Wakes};
use esync_cells::signal::SignalState;
use esync_cells::signal::machine::{SignalCall, SignalCommand, SignalHeard, SignalRun};
use esync_channel::channel::ChannelState;
use esync_channel::channel::machine::{ChannelCall, ChannelCommand, ChannelHeard, ChannelRun};
use esync_history::recorded::{Book, Entry, Receipt, Recorded, Seat, Seats, audit};
use esync_machine::primitive::{Answer, Command, Primitive};
use esync_machine::requests::Requests;
use esync_machine::run::{Keep, Reply};
use esync_notes::{holds, same};
use esync_permits::semaphore::machine::fair::FairRun;
use esync_permits::semaphore::machine::greedy::GreedyRun;
use esync_permits::semaphore::machine::{PermitCall, PermitHeard};
use esync_permits::semaphore::{Amount, FairState, GreedyState};
use esync_pipe::bytes::Bytes;
use esync_pipe::pipe::machine::{PipeCall, PipeCommand, PipeHeard, PipeRows, PipeRun};
use esync_priority::priority_channel::machine::PriorityRun;
use esync_priority::priority_channel::{ChannelState as PriorityState, Max};
use std::alloc::{AllocError, Global};
use std::marker::Brand;
use std::process::Abort;
use std::sync::Wait;
use std::sync::ledger::{Blank, Ledger};
use std::test::Fail;
use std::thread;
use std::thread::Threads;

const CALLS: usize = 50;

// For each seat and each of these lists of answers, how many of the seat's calls were answered with one of the list.
type Counts = [[usize; 5]; 2];

// How many of the seat's calls were answered with one of these.
fn answered<C, H: Eq, const K: usize>(
    receipts: &[Receipt<C, Reply<Answer<H>, TaskId, K>>],
    seat: usize,
    answers: &[Answer<H>],
) -> usize {
    receipts
        .iter()
        .filter(|receipt| receipt.entry.seat == seat)
        .filter(|receipt| answers.contains(&receipt.entry.reply.answer))
        .count()
}

// How many of the seat's calls were answered with one of each of these lists.
fn counts<C, H: Eq, const K: usize>(
    receipts: &[Receipt<C, Reply<Answer<H>, TaskId, K>>],
    seat: usize,
    answers: &[&[Answer<H>]; 5],
) -> [usize; 5] {
    let [first, second, third, fourth, fifth] = answers;
    [
        answered(receipts, seat, first),
        answered(receipts, seat, second),
        answered(receipts, seat, third),
        answered(receipts, seat, fourth),
        answered(receipts, seat, fifth),
    ]
}

// Fifty calls of one seat, of these two in turn.
fn makes<M: Keep + Drop, L: Ledger, R: Wait>(
    rt: &R,
    alloc: Global,
    recorded: &Recorded<M, L>,
    seat: Seat<L>,
    calls: [M::Command; 2],
) -> Result<(Seat<L>, Vec<Receipt<M::Command, M::Reply>>), AllocError>
where
    M::Command: Copy,
    M::Reply: Copy,
{
    let mut seat = seat;
    let mut receipts = Vec::with_capacity(alloc, CALLS)?;
    for i in 0..CALLS {
        receipts.push(recorded.call(rt, &mut seat, calls[i % 2])?)?;
    }
    Ok((seat, receipts))
}

// How many of the entries are those of the seat.
fn entries_of<C, A>(journal: &[Entry<C, A>], seat: usize) -> usize {
    journal.iter().filter(|entry| entry.seat == seat).count()
}

// The book of two seats that made fifty calls each. A look at its opening sees this. Returns the receipts.
fn has_both<M: Keep + Drop, L: Ledger>(
    rt: &impl Abort,
    alloc: Global,
    book: Book<M, L>,
    seats: Seats<L>,
    one: (Seat<L>, Vec<Receipt<M::Command, M::Reply>>),
    two: (Seat<L>, Vec<Receipt<M::Command, M::Reply>>),
    look: (M::Command, M::Reply),
) -> Result<Vec<Receipt<M::Command, M::Reply>>, Fail>
where
    M::Command: Copy + Eq,
    M::Reply: Copy + Eq,
{
    let (first, mut receipts) = one;
    let (second, others) = two;
    receipts.extend_from_slice(&others)?;
    same!(rt; book.journal().len(), 2 * CALLS);
    same!(rt; entries_of(book.journal(), first.number()), CALLS);
    same!(rt; entries_of(book.journal(), second.number()), CALLS);
    holds!(rt; audit(&receipts, &book));
    holds!(rt; book.opening().keep()?.step(look.0) == look.1);
    let handed_in = vec![in alloc; first, second]?;
    same!(rt; book.settle(seats, handed_in), Some(2 * CALLS));
    Ok(receipts)
}

// Two threads make fifty calls each, of their own two in turn, under this ledger.
fn call_under<M, L, R>(
    rt: &R,
    alloc: Global,
    blank: Blank,
    machine: M,
    calls: [[M::Command; 2]; 2],
    look: (M::Command, M::Reply),
) -> Result<Vec<Receipt<M::Command, M::Reply>>, Fail>
where
    M: Keep + Drop + Send,
    M::Command: Copy + Eq + Send,
    M::Reply: Copy + Eq + Send,
    M::Waker: Send,
    L: Ledger + Send + Sync,
    R: Threads + Wait + Abort + Sync,
    requires ledger { blank.name ≡ L.name }
    requires parts { blank.parts ≡ L.parts }
    requires room { 2 < blank.parts }
{
    let (recorded, mut seats) = Recorded::<M, L>::new(alloc, blank, machine, 2)?;
    let (first, second) = (seats.seat(), seats.seat());
    let (shared, [one, two]) = (&recorded, calls);
    let (one, two) = thread::join(
        rt,
        move || makes(rt, alloc, shared, first, one),
        move || makes(rt, alloc, shared, second, two),
    );
    has_both(rt, alloc, recorded.into_book(), seats, one?, two?, look)
}

// Two threads make fifty calls each, of their own two in turn. A look at the machine as it was sees this. Tells how often each was answered
// with one of these.
fn count_calls<M, H, R, const K: usize>(
    rt: &R,
    alloc: Global,
    machine: M,
    calls: [[M::Command; 2]; 2],
    look: (M::Command, Reply<Answer<H>, TaskId, K>),
    answers: &[&[Answer<H>]; 5],
) -> Result<Counts, Fail>
where
    M: Keep<Waker = TaskId, Reply = Reply<Answer<H>, TaskId, K>> + Drop + Send,
    M::Command: Copy + Eq + Send,
    H: Copy + Eq + Send,
    R: Threads + Wait + Abort + Sync,
{
    let receipts = call_under::<M, Brand, R>(rt, alloc, Blank::new(3), machine, calls, look)?;
    Ok([counts(&receipts, 0, answers), counts(&receipts, 1, answers)])
}

// Two threads make fifty calls each, of their own two in turn. A look at the machine as it was sees this. Tells how often each was answered
// with one of these.
fn call_by_two<P, R, const REQS: usize, const K: usize>(
    rt: &R,
    alloc: Global,
    machine: Requests<P, REQS, K>,
    calls: [[Command<P::Ask, TaskId, P::Call>; 2]; 2],
    look: (P::Call, Reply<Answer<P::Heard>, TaskId, K>),
    answers: &[&[Answer<P::Heard>]; 5],
) -> Result<Counts, Fail>
where
    P: Primitive<K, Waker = TaskId> + Kept + Drop + Send,
    P::Ask: Copy + Eq + Send,
    P::Held: Copy + Send,
    P::Call: Copy + Eq + Send,
    P::Heard: Copy + Eq + Send,
    R: Threads + Wait + Abort + Sync,
{
    let look = (Command::Call(look.0), look.1);
    count_calls(rt, alloc, machine, calls, look, answers)
}

mod cells;
mod lists;

// What a machine answers that hands out nothing.
fn told<H, const K: usize>(heard: H) -> Reply<Answer<H>, TaskId, K> {
    Reply {
        answer: Answer::Gives(heard),
        wakes: Wakes::new(),
    }
}

fn sends(message: u32) -> [ChannelCommand<u32, TaskId>; 2] {
    let receive = Command::Call(ChannelCall::TryReceive);
    [Command::Call(ChannelCall::TrySend(message)), receive]
}

fn writes(byte: u8) -> [PipeCommand<TaskId, 4>; 2] {
    let write = PipeCall::TryWrite(Bytes::from_slice(&[byte]));
    [Command::Call(write), Command::Call(PipeCall::TryRead(4))]
}

fn signals(value: u32) -> [SignalCommand<u32, TaskId>; 2] {
    let take = Command::Call(SignalCall::TryTake);
    [Command::Call(SignalCall::Signal(value)), take]
}

fn takes(r: usize) -> [Command<Amount, TaskId, PermitCall>; 2] {
    let take = PermitCall::Try(r, Amount::Exactly(1));
    [Command::Call(take), Command::End(r)]
}

// Two threads send and receive.
#[test]
fn two_threads_call_a_recorded_channel(rt: HostRuntime) -> Result<(), Fail> {
    let channel: ChannelRun<u32, TaskId, 4, 1, 1> = Requests::new(ChannelState::new());
    let look = (ChannelCall::Len, told(ChannelHeard::Number(0)));
    let calls = [sends(1), sends(2)];
    call_by_two(&rt, rt.alloc(), channel, calls, look, &[&[]; 5])?;
    Ok(())
}

// Two threads send and receive by priority.
#[test]
fn two_threads_call_a_recorded_priority_channel(rt: HostRuntime) -> Result<(), Fail> {
    let channel: PriorityRun<u32, TaskId, Max, 4, 1, 1> = Requests::new(PriorityState::new());
    let look = (ChannelCall::Len, told(ChannelHeard::Number(0)));
    let calls = [sends(1), sends(2)];
    call_by_two(&rt, rt.alloc(), channel, calls, look, &[&[]; 5])?;
    Ok(())
}

// Two threads write and read.
#[test]
fn two_threads_call_a_recorded_pipe(rt: HostRuntime) -> Result<(), Fail> {
    let pipe: PipeRun<TaskId, 4, 4, 1, 2> = Requests::new(PipeRows::new());
    let look = (PipeCall::Len, told(PipeHeard::Number(0)));
    let calls = [writes(1), writes(2)];
    call_by_two(&rt, rt.alloc(), pipe, calls, look, &[&[]; 5])?;
    Ok(())
}

// Two threads signal and take.
#[test]
fn two_threads_call_a_recorded_signal(rt: HostRuntime) -> Result<(), Fail> {
    let signal: SignalRun<u32, TaskId, 1, 1> = Requests::new(SignalState::new());
    let look = (SignalCall::Signaled, told(SignalHeard::Signaled(false)));
    let calls = [signals(1), signals(2)];
    call_by_two(&rt, rt.alloc(), signal, calls, look, &[&[]; 5])?;
    Ok(())
}

// Two threads take permits and give them back.
#[test]
fn two_threads_call_a_recorded_greedy_semaphore(rt: HostRuntime) -> Result<(), Fail> {
    let semaphore: GreedyRun<TaskId, 2, 1> = Requests::new(GreedyState::new(4));
    let look = (PermitCall::Permits, told(PermitHeard::Count(4)));
    let calls = [takes(0), takes(1)];
    call_by_two(&rt, rt.alloc(), semaphore, calls, look, &[&[]; 5])?;
    Ok(())
}

// Two threads take permits and give them back.
#[test]
fn two_threads_call_a_recorded_fair_semaphore(rt: HostRuntime) -> Result<(), Fail> {
    let semaphore: FairRun<TaskId, 4, 2, 1> = Requests::new(FairState::new(4));
    let look = (PermitCall::Permits, told(PermitHeard::Count(4)));
    let calls = [takes(0), takes(1)];
    call_by_two(&rt, rt.alloc(), semaphore, calls, look, &[&[]; 5])?;
    Ok(())
}
