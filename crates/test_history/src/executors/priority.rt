use super::runs::{Turns, plays, told};
use esync_base::waitqueue::TaskId;
use esync_history::executor::{Act, NewError, Outcome};
use esync_priority::priority_channel::{ChannelState, Max};
use esync_run::channel::{ChannelAsk, ChannelCall, ChannelCommand, ChannelHeard};
use esync_run::primitive::{Answer, Command};
use esync_run::priority_channel::PriorityRun;
use esync_run::requests::Requests;
use std::alloc::Global;
use std::process::Abort;

type ChannelAct = Act<ChannelAsk<u32>, ChannelCommand<u32, TaskId>>;

type ChannelAnswer = Answer<ChannelHeard<u32>>;

// Three tasks send 1, 3 and 2 to a channel of two places, and a further one does this. Then the channel answers the call so.
fn runs(
    rt: &impl Abort,
    alloc: Global,
    acts: &[ChannelAct],
    turns: &[Turns<'_, ChannelHeard<u32>>],
    look: (ChannelCall<u32>, ChannelAnswer),
) -> Result<(), NewError> {
    let channel: PriorityRun<u32, TaskId, Max, 2, 4, 1> = Requests::new(ChannelState::new());
    let tasks = &[
        &[Act::Await(0, ChannelAsk::Send(1))],
        &[Act::Await(1, ChannelAsk::Send(3))],
        &[Act::Await(2, ChannelAsk::Send(2))],
        acts,
    ];
    let look = (look.0, told(look.1));
    plays(rt, alloc, channel, &[], tasks, turns, look)
}

fn received(message: u32) -> (ChannelCall<u32>, ChannelAnswer) {
    let heard = ChannelHeard::TryReceived(Ok(message));
    (ChannelCall::TryReceive, Answer::Gives(heard))
}

const RECEIVES: &[ChannelAct] = &[
    Act::Await(3, ChannelAsk::Receive),
    Act::Call(Command::Call(ChannelCall::TryReceive)),
];

const SENT: &[ChannelAnswer] = &[Answer::Gives(ChannelHeard::Ready)];

const RECEIVED: &[ChannelAnswer] = &[
    Answer::Gives(ChannelHeard::Received(3)),
    Answer::Gives(ChannelHeard::TryReceived(Ok(2))),
];

#[test]
fn a_place_reaches_the_task_that_waits(rt: HostRuntime) -> Result<(), NewError> {
    let once = [(4, Outcome::Limit, None), (1, Outcome::Done, None)];
    runs(&rt, rt.alloc(), &RECEIVES[..1], &once, received(2))?;
    let heard: &[&[ChannelAnswer]] = &[SENT, SENT, SENT, RECEIVED];
    let twice = [(5, Outcome::Limit, None), (1, Outcome::Done, Some(heard))];
    runs(&rt, rt.alloc(), RECEIVES, &twice, received(1))
}

const ASKS: &[ChannelAct] = &[Act::Call(Command::Call(ChannelCall::Len))];

#[test]
fn a_send_without_room_stalls(rt: HostRuntime) -> Result<(), NewError> {
    let turns = [(3, Outcome::Limit, None), (1, Outcome::Stalled, None)];
    let full = (ChannelCall::Len, Answer::Gives(ChannelHeard::Number(2)));
    runs(&rt, rt.alloc(), ASKS, &turns, full)
}
