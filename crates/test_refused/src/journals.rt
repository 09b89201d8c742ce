//! Openings and entries of a journal for which there is no memory.
ghost use Rattle.std.specs.Prelude.{◌≡◌, ◌<◌};

use crate::again;
use crate::memory::says_refused;
use esync_base::waitqueue::{TaskId, Wakes};
use esync_channel::channel::ChannelState;
use esync_channel::channel::machine::{ChannelCall, ChannelCommand, ChannelRun};
use esync_history::recorded::{Book, Recorded, Seat};
use esync_machine::primitive::{Answer, Command};
use esync_machine::requests::Requests;
use esync_machine::run::{Keep, Reply};
use esync_notes::{holds, same};
use esync_zerocopy::zerocopy_channel::ChannelState as SlotState;
use esync_zerocopy::zerocopy_channel::machine::{ZeroCall, ZeroHeard, ZeroRun};
use std::alloc::{AllocError, Global};
use std::marker::Brand;
use std::process::Abort;
use std::sync::Wait;
use std::sync::ledger::{Blank, Ledger};
use std::test::Fail;

type Channel = ChannelRun<u32, TaskId, 4, 1, 1>;

type Slots = ZeroRun<u32, TaskId, 1, 1>;

const CALLS: usize = 50;

const LEN: ChannelCommand<u32, TaskId> = Command::Call(ChannelCall::Len);

fn three_slots(rt: &impl Print, alloc: Global) -> Result<Slots, AllocError> {
    let slots = again!(rt; vec![in alloc; 5, 6, 7]);
    Ok(Requests::new(SlotState::new(slots)))
}

// Whether the opening of a new book of this machine replies so.
fn opening_replies<R: Print, M: Keep + Drop, L: Ledger>(
    rt: &R,
    alloc: Global,
    blank: Blank,
    machine: M,
    look: (M::Command, M::Reply),
) -> Result<bool, AllocError>
where
    M::Command: Copy,
    M::Reply: Copy + Eq,
    requires ledger { blank.name ≡ L.name }
    requires parts { blank.parts ≡ L.parts }
    requires room { 1 < blank.parts }
{
    let (recorded, _) = Recorded::<M, L>::new(alloc, blank, machine, 1)?;
    let book = recorded.into_book();
    let mut opening = again!(rt; book.opening().keep());
    Ok(opening.step(look.0) == look.1)
}

// Whether the opening of a new book of three slots has three slots.
fn opening_has_three(rt: &impl Print, alloc: Global) -> Result<bool, AllocError> {
    let three = Reply {
        answer: Answer::Gives(ZeroHeard::Count(3)),
        wakes: Wakes::new(),
    };
    let look = (Command::Call(ZeroCall::FreeCapacity), three);
    let slots = three_slots(rt, alloc)?;
    opening_replies::<_, _, Brand>(rt, alloc, Blank::new(2), slots, look)
}

#[test]
fn a_refused_opening_is_made_again(rt: HostRuntime) -> Result<(), Fail> {
    let has_three = match opening_has_three(&rt, rt.alloc()) {
        Ok(has_three) => has_three,
        Err(AllocError) => {
            says_refused(&rt);
            opening_has_three(&rt, rt.alloc())?
        }
    };
    holds!(rt; has_three);
    Ok(())
}

// Fifty calls of one seat, one of which may be refused, and is made again.
fn records_again<R: Abort + Print, M: Keep + Drop, L: Ledger>(
    rt: &R,
    alloc: Global,
    blank: Blank,
    machine: M,
    call: M::Command,
) -> Result<(), Fail>
where
    M::Command: Copy,
    M::Reply: Copy,
    requires ledger { blank.name ≡ L.name }
    requires parts { blank.parts ≡ L.parts }
    requires room { 1 < blank.parts }
{
    let (mut book, mut seats) = Book::<M, L>::new(alloc, blank, machine, 1)?;
    let mut seat = seats.seat();
    for _ in 0..CALLS {
        let _ = book.record(&mut seat, call);
        same!(*rt; book.journal().len(), seat.calls());
    }
    if seat.calls() != CALLS {
        says_refused(rt);
        same!(*rt; seat.calls(), CALLS - 1);
        same!(*rt; book.record(&mut seat, call)?.number, CALLS - 1);
    }
    let mut handed_in = again!(rt; Vec::with_capacity(alloc, 1));
    holds!(*rt; handed_in.push(seat).is_ok());
    same!(*rt; book.settle(seats, handed_in), Some(CALLS));
    Ok(())
}

#[test]
fn a_refused_call_leaves_no_entry(rt: HostRuntime) -> Result<(), Fail> {
    let channel: Channel = Requests::new(ChannelState::new());
    records_again::<_, _, Brand>(&rt, rt.alloc(), Blank::new(2), channel, LEN)
}

// A call that the seat counts, unless it is refused.
fn calls<R: Abort + Wait, M: Keep + Drop, L: Ledger>(
    rt: &R,
    recorded: &Recorded<M, L>,
    seat: &mut Seat<L>,
    call: M::Command,
)
where
    M::Command: Copy,
    M::Reply: Copy,
{
    let before = seat.calls();
    let is_answered = recorded.call(rt, seat, call).is_ok();
    same!(*rt; seat.calls(), before.wrapping_add(usize::from(is_answered)));
}

// Fifty calls of each of two seats, of which one may be refused: its seat then counts 49.
fn two_call<R: Abort + Print + Wait, M: Keep + Drop, L: Ledger>(
    rt: &R,
    alloc: Global,
    blank: Blank,
    machine: M,
    call: M::Command,
) -> Result<(), Fail>
where
    M::Command: Copy,
    M::Reply: Copy,
    requires ledger { blank.name ≡ L.name }
    requires parts { blank.parts ≡ L.parts }
    requires room { 2 < blank.parts }
{
    let (recorded, mut seats) = Recorded::<M, L>::new(alloc, blank, machine, 2)?;
    let (mut first, mut second) = (seats.seat(), seats.seat());
    for _ in 0..CALLS {
        calls(rt, &recorded, &mut first, call);
        calls(rt, &recorded, &mut second, call);
    }
    let book = recorded.into_book();
    let counted = (first.calls(), second.calls(), book.journal().len());
    if counted != (CALLS, CALLS, 2 * CALLS) {
        says_refused(rt);
        let less = 2 * CALLS - 1;
        holds!(*rt; counted == (CALLS - 1, CALLS, less) || counted == (CALLS, CALLS - 1, less));
    }
    let mut handed_in = again!(rt; Vec::with_capacity(alloc, 2));
    holds!(*rt; handed_in.push(first).is_ok());
    holds!(*rt; handed_in.push(second).is_ok());
    same!(*rt; book.settle(seats, handed_in), Some(counted.2));
    Ok(())
}

#[test]
fn a_seat_whose_call_was_refused_counts_one_less(rt: HostRuntime) -> Result<(), Fail> {
    let channel: Channel = Requests::new(ChannelState::new());
    two_call::<_, _, Brand>(&rt, rt.alloc(), Blank::new(3), channel, LEN)
}
