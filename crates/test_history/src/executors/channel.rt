use super::runs::{self, Turns, told};
use esync_base::waitqueue::TaskId;
use esync_channel::channel::{ChannelState, TrySendError};
use esync_history::executor::{Act, NewError, Outcome};
use esync_notes::same;
use esync_run::channel::{ChannelAsk, ChannelCall, ChannelCommand, ChannelHeard, ChannelRun};
use esync_run::primitive::{Answer, Command};
use esync_run::requests::Requests;
use std::alloc::Global;
use std::process::Abort;

type ChannelAct = Act<ChannelAsk<u32>, ChannelCommand<u32, TaskId>>;

type ChannelAnswer = Answer<ChannelHeard<u32>>;

type Tasks = &'static [&'static [ChannelAct]];

type Runs = &'static [Turns<'static, ChannelHeard<u32>>];

const SEND: ChannelAct = Act::Call(Command::Call(ChannelCall::TrySend(7)));

const RECEIVE: ChannelAct = Act::Await(0, ChannelAsk::Receive);

// A task that receives, and one that sends.
const RECEIVES_AND_SENDS: &[&[ChannelAct]] = &[&[RECEIVE], &[SEND]];

const RECEIVED: ChannelAnswer = Answer::Gives(ChannelHeard::Received(7));

const SENT: ChannelAnswer = Answer::Gives(ChannelHeard::TrySent(Ok(())));

// Gives these commands to a channel of one place, and runs these tasks over it: each run, of so many turns at most, ends so, and then
// the tasks have heard this. Then the channel holds so many messages.
fn plays(
    rt: &impl Abort,
    alloc: Global,
    commands: &[ChannelCommand<u32, TaskId>],
    tasks: &[&[ChannelAct]],
    turns: &[Turns<'_, ChannelHeard<u32>>],
    held: usize,
) -> Result<(), NewError> {
    let channel: ChannelRun<u32, TaskId, 1, 16, 1> = Requests::new(ChannelState::new());
    let number = Answer::Gives(ChannelHeard::Number(held));
    let look = (ChannelCall::Len, told(number));
    runs::plays(rt, alloc, channel, commands, tasks, turns, look)
}

const REACHES: Runs = &[
    (10, Outcome::Done, Some(&[&[RECEIVED], &[SENT]])),
    (0, Outcome::Done, Some(&[&[RECEIVED], &[SENT]])),
];

#[test]
fn a_message_reaches_the_task_that_waits(rt: HostRuntime) -> Result<(), NewError> {
    plays(&rt, rt.alloc(), &[], RECEIVES_AND_SENDS, REACHES, 0)
}

const GOES_ON: Runs = &[
    (0, Outcome::Limit, Some(&[&[], &[]])),
    (2, Outcome::Limit, Some(&[&[], &[SENT]])),
    (1, Outcome::Done, Some(&[&[RECEIVED], &[SENT]])),
];

#[test]
fn a_run_goes_on_after_its_limit(rt: HostRuntime) -> Result<(), NewError> {
    plays(&rt, rt.alloc(), &[], RECEIVES_AND_SENDS, GOES_ON, 0)
}

const RECEIVES: Tasks = &[&[RECEIVE]];

const STALLS: Runs = &[
    (0, Outcome::Limit, Some(&[&[]])),
    (1, Outcome::Stalled, Some(&[&[]])),
    (10, Outcome::Stalled, Some(&[&[]])),
];

#[test]
fn a_task_that_nobody_wakes_stalls(rt: HostRuntime) -> Result<(), NewError> {
    plays(&rt, rt.alloc(), &[], RECEIVES, STALLS, 0)
}

const TWO_RECEIVE: Tasks = &[&[RECEIVE], &[Act::Await(1, ChannelAsk::Receive)]];

const FOR_EVER: Runs = &[
    (50, Outcome::Limit, Some(&[&[], &[]])),
    (50, Outcome::Limit, Some(&[&[], &[]])),
];

#[test]
fn two_receivers_wake_each_other_for_ever(rt: HostRuntime) -> Result<(), NewError> {
    plays(&rt, rt.alloc(), &[], TWO_RECEIVE, FOR_EVER, 0)
}

const DONE_AT_ONCE: Runs = &[(0, Outcome::Done, Some(&[]))];

#[test]
fn an_executor_without_tasks_is_done(rt: HostRuntime) -> Result<(), NewError> {
    plays(&rt, rt.alloc(), &[], &[], DONE_AT_ONCE, 0)
}

const NO_ACTS: Tasks = &[&[]];

const HAS_ENDED: Runs = &[(0, Outcome::Done, Some(&[&[]]))];

#[test]
fn a_task_without_acts_has_ended(rt: HostRuntime) -> Result<(), NewError> {
    plays(&rt, rt.alloc(), &[], NO_ACTS, HAS_ENDED, 0)
}

const NO_ACTS_AND_SENDS: Tasks = &[&[], &[SEND]];

const PASSED_OVER: Runs = &[
    (0, Outcome::Limit, Some(&[&[], &[]])),
    (1, Outcome::Done, Some(&[&[], &[SENT]])),
];

#[test]
fn a_task_without_acts_is_passed_over(rt: HostRuntime) -> Result<(), NewError> {
    plays(&rt, rt.alloc(), &[], NO_ACTS_AND_SENDS, PASSED_OVER, 1)
}

const SENDS: Tasks = &[&[SEND]];

const IS_SENT: Runs = &[(1, Outcome::Done, Some(&[&[SENT]]))];

#[test]
fn a_waker_that_names_no_task_is_passed_over(rt: HostRuntime) -> Result<(), NewError> {
    for stranger in [1, 99, u64::MAX] {
        let receives = [
            Command::Start(15, ChannelAsk::Receive),
            Command::Poll(15, TaskId(stranger)),
        ];
        plays(&rt, rt.alloc(), &receives, SENDS, IS_SENT, 1)?;
    }
    Ok(())
}

const STARTS: &[ChannelCommand<u32, TaskId>] = &[Command::Start(3, ChannelAsk::Receive)];

const AWAITS_THE_STARTED: Tasks = &[&[Act::Await(3, ChannelAsk::Receive), SEND]];

const IS_OVER: Runs = &[(2, Outcome::Done, Some(&[&[Answer::NoSuch, SENT]]))];

#[test]
fn an_await_of_an_occupied_number_is_over(rt: HostRuntime) -> Result<(), NewError> {
    plays(&rt, rt.alloc(), STARTS, AWAITS_THE_STARTED, IS_OVER, 1)
}

const RECEIVES_AND_ENDS: Tasks = &[&[RECEIVE], &[Act::Call(Command::End(0))]];

const IS_ENDED: Runs = &[(10, Outcome::Stalled, Some(&[&[], &[Answer::Done]]))];

#[test]
fn an_await_whose_request_a_call_ends_stalls(rt: HostRuntime) -> Result<(), NewError> {
    plays(&rt, rt.alloc(), &[], RECEIVES_AND_ENDS, IS_ENDED, 0)
}

const SENDS_TWICE: Tasks = &[&[
    Act::Call(Command::Call(ChannelCall::TrySend(1))),
    Act::Call(Command::Call(ChannelCall::TrySend(2))),
    Act::Await(4, ChannelAsk::Receive),
]];

const FULL: ChannelAnswer = Answer::Gives(ChannelHeard::TrySent(Err(TrySendError::Full(2))));

const IN_ORDER: Runs = &[
    (2, Outcome::Limit, Some(&[&[SENT, FULL]])),
    (
        1,
        Outcome::Done,
        Some(&[&[SENT, FULL, Answer::Gives(ChannelHeard::Received(1))]]),
    ),
];

#[test]
fn acts_of_a_task_come_in_order(rt: HostRuntime) -> Result<(), NewError> {
    plays(&rt, rt.alloc(), &[], SENDS_TWICE, IN_ORDER, 0)
}

const RECEIVE_AT_2: ChannelAct = Act::Await(2, ChannelAsk::Receive);

const SEND_1: ChannelAct = Act::Call(Command::Call(ChannelCall::TrySend(1)));

const USES_A_NUMBER_AGAIN: Tasks = &[&[SEND_1, RECEIVE_AT_2, SEND, RECEIVE_AT_2]];

const RECEIVES_TWICE: Runs = &[(
    4,
    Outcome::Done,
    Some(&[&[
        SENT,
        Answer::Gives(ChannelHeard::Received(1)),
        SENT,
        RECEIVED,
    ]]),
)];

#[test]
fn a_task_uses_a_number_again(rt: HostRuntime) -> Result<(), NewError> {
    plays(&rt, rt.alloc(), &[], USES_A_NUMBER_AGAIN, RECEIVES_TWICE, 0)
}

const UNSUITED: &[Tasks] = &[
    &[&[RECEIVE_AT_2], &[SEND_1], &[RECEIVE_AT_2]],
    &[&[SEND_1, RECEIVE_AT_2], &[RECEIVE, RECEIVE_AT_2]],
    &[
        &[Act::Await(15, ChannelAsk::Receive)],
        &[Act::Await(16, ChannelAsk::Receive)],
    ],
    &[&[Act::Await(usize::MAX, ChannelAsk::Receive)]],
    &[
        &[SEND_1],
        &[Act::Call(Command::Start(2, ChannelAsk::Receive))],
    ],
    &[&[Act::Call(Command::Poll(2, TaskId(0)))]],
];

const SUITED: Tasks = &[
    &[Act::Await(15, ChannelAsk::Receive)],
    &[RECEIVE],
    &[Act::Call(Command::End(0))],
];

#[test]
fn unsuited_tasks_are_refused(rt: HostRuntime) -> Result<(), NewError> {
    for tasks in UNSUITED {
        let refused = plays(&rt, rt.alloc(), &[], tasks, &[], 0);
        same!(rt; refused, Err(NewError::NoSuch));
    }
    plays(&rt, rt.alloc(), &[], SUITED, &[], 0)
}
