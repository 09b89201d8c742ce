//! A sender and a receiver that share the slots of a zero-copy channel.
ghost use Rattle.std.specs.Prelude.{◌<◌, length};

use crate::schedule;
use esync_base::waitqueue::TaskId;
use esync_compared::zerocopy::ZeroStates;
use esync_history::executor::{Act, NewError};
use esync_machine::primitive::Command;
use esync_machine::requests::Requests;
use esync_systems::compare::ComparesRequests;
use esync_systems::explore::{Verdict, explore_determined};
use esync_systems::plan::Plan;
use esync_zerocopy::zerocopy_channel::machine::{ZeroCall, ZeroCommand, ZeroRun};
use esync_zerocopy::zerocopy_channel::{ChannelState, Side};
use std::alloc::{AllocError, Global};

type SlotAct = Act<Side, ZeroCommand<u64, TaskId>>;

const SLOTS: ComparesRequests<ZeroStates> = ComparesRequests {
    states: ZeroStates {},
};

// Sends a slot with 7, and one with 8.
const SENDS: &[SlotAct] = &[
    Act::Await(0, Side::Sender),
    Act::Call(Command::Call(ZeroCall::Write(7))),
    Act::Call(Command::Call(ZeroCall::Done(Side::Sender))),
    Act::Await(0, Side::Sender),
    Act::Call(Command::Call(ZeroCall::Write(8))),
    Act::Call(Command::Call(ZeroCall::Done(Side::Sender))),
];

// Receives a slot and gives it back, twice.
const RECEIVES: &[SlotAct] = &[
    Act::Await(1, Side::Receiver),
    Act::Call(Command::Call(ZeroCall::Done(Side::Receiver))),
    Act::Await(1, Side::Receiver),
    Act::Call(Command::Call(ZeroCall::Done(Side::Receiver))),
];

// A task that sends two slots, and one that does these acts.
fn two_tasks(alloc: Global, receives: &[SlotAct]) -> Result<Vec<Vec<SlotAct>>, AllocError> {
    let sender = Vec::from_slice(alloc, SENDS)?;
    let receiver = Vec::from_slice(alloc, receives)?;
    Ok(vec![in alloc; sender, receiver]?)
}

// Explores the two tasks over slots with these values.
fn explore_slots(alloc: Global, slots: &[u64], receives: &[SlotAct]) -> Result<Verdict, NewError>
    requires { 0 < length slots.now }
{
    let slots = Vec::from_slice(alloc, slots)?;
    let channel: ZeroRun<u64, TaskId, 2, 1> = Requests::new(ChannelState::new(slots));
    let tasks = two_tasks(alloc, receives)?;
    explore_determined(alloc, &SLOTS, channel, &Plan::in_order(&tasks, &[]), 1000)
}

// Each of the ten acts takes a turn, and each Await that may find no slot one more: three with one slot, two with two.
#[test]
fn slots_that_are_given_back_are_sent_again(rt: HostRuntime) -> Result<(), NewError> {
    assert!(&rt; explore_slots(rt.alloc(), &[0], RECEIVES)? == Verdict::AllEnd(13));
    assert!(&rt; explore_slots(rt.alloc(), &[0, 0], RECEIVES)? == Verdict::AllEnd(12));
    Ok(())
}

// A receiver that keeps the only slot leaves the sender without one. With two slots the sender ends.
#[test]
fn a_slot_that_is_kept_is_missed(rt: HostRuntime) -> Result<(), NewError> {
    let schedule = schedule(rt.alloc(), &[0, 0, 0, 0, 1])?;
    assert!(&rt; explore_slots(rt.alloc(), &[0], &RECEIVES[..1])? == Verdict::Stalls(schedule));
    assert!(&rt; explore_slots(rt.alloc(), &[0, 0], &RECEIVES[..1])? == Verdict::AllEnd(8));
    Ok(())
}
