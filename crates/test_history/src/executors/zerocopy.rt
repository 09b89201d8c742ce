ghost use Rattle.std.specs.Prelude.{◌<◌, IfOk, length};

use super::runs::{plays, told};
use esync_base::waitqueue::TaskId;
use esync_history::executor::{Act, NewError, Outcome};
use esync_run::primitive::{Answer, Command};
use esync_run::requests::Requests;
use esync_run::zerocopy_channel::{Lent, ZeroCall, ZeroCommand, ZeroHeard, ZeroRun};
use esync_zerocopy::zerocopy_channel::{ChannelState, Side};
use std::alloc::{AllocError, Global};
use std::process::Abort;

type SlotAct = Act<Side, ZeroCommand<u32, TaskId>>;

// Receives the only slot, gives it back and receives it again.
const RECEIVES: &[SlotAct] = &[
    Act::Await(0, Side::Receiver),
    Act::Call(Command::Call(ZeroCall::Done(Side::Receiver))),
    Act::Await(1, Side::Receiver),
];

// Sends the slot twice, with 7 and with 8.
const SENDS: &[SlotAct] = &[
    Act::Await(8, Side::Sender),
    Act::Call(Command::Call(ZeroCall::Write(7))),
    Act::Call(Command::Call(ZeroCall::Done(Side::Sender))),
    Act::Await(9, Side::Sender),
    Act::Call(Command::Call(ZeroCall::Write(8))),
    Act::Call(Command::Call(ZeroCall::Done(Side::Sender))),
];

// The only slot.
fn slot(alloc: Global) -> Result<Vec<u32>, AllocError>
    ensures { IfOk result (λ slots. 0 < length slots.items) }
{
    Ok(vec![in alloc; 0]?)
}

// A task does these acts, and another one sends: after so many turns they have still to go on, and one more ends the run so. Then the
// slot shows this value.
fn slot_shows(
    rt: &impl Abort,
    alloc: Global,
    receives: &[SlotAct],
    turns: usize,
    outcome: Outcome,
    value: u32,
) -> Result<(), NewError> {
    let channel: ZeroRun<u32, TaskId, 10, 1> = Requests::new(ChannelState::new(slot(alloc)?));
    let turns = [(turns, Outcome::Limit, None), (1, outcome, None)];
    let shown = Answer::Gives(ZeroHeard::Tried(Some(Lent::Held(0, value))));
    let look = (ZeroCall::Try(Side::Receiver), told(shown));
    plays(rt, alloc, channel, &[], &[receives, SENDS], &turns, look)
}

#[test]
fn a_slot_that_is_given_back_reaches_the_task_that_sends(rt: HostRuntime) -> Result<(), NewError> {
    slot_shows(&rt, rt.alloc(), RECEIVES, 11, Outcome::Done, 8)?;
    slot_shows(&rt, rt.alloc(), &RECEIVES[..1], 5, Outcome::Stalled, 7)
}
