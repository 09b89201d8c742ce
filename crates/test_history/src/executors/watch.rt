use super::runs::{plays, told};
use crate::never::Never;
use esync_base::waitqueue::TaskId;
use esync_history::executor::{Act, Executor, NewError, Outcome};
use esync_machine::run::{Awaits, Reply};
use esync_notes::same;
use esync_run::primitive::{Answer, Command};
use esync_run::requests::Requests;
use esync_run::watch::{Await, Reading, WatchCall, WatchCommand, WatchHeard, WatchRun, Watched};
use std::alloc::{AllocError, Global};
use std::cell::Cell;
use std::process::Abort;

type WatchAct = Act<Await<Never>, WatchCommand<u32, TaskId, Never, Never>>;

// Sends a value.
const SENDS: &[WatchAct] = &[
    Act::Call(Command::Call(WatchCall::Id)),
    Act::Call(Command::Call(WatchCall::Send(5))),
];

// Makes a receiver and awaits another value.
const AWAITS_A_CHANGE: &[WatchAct] = &[
    Act::Call(Command::Call(WatchCall::Receiver(0))),
    Act::Await(
        0,
        Await {
            receiver: 0,
            read: Reading::Changed,
        },
    ),
];

// Makes a receiver and awaits a value that never comes.
const AWAITS_NONE: &[WatchAct] = &[
    Act::Call(Command::Call(WatchCall::Receiver(0))),
    Act::Await(
        0,
        Await {
            receiver: 0,
            read: Reading::GetAnd(Never {}),
        },
    ),
];

// One task does these acts, and another one sends a value: five turns. Then the value is there.
fn ends(
    rt: &impl Abort,
    alloc: Global,
    awaits: &[WatchAct],
    outcome: Outcome,
) -> Result<(), NewError> {
    let watch: WatchRun<u32, TaskId, Never, Never, 1, 1, 1, 1> = Requests::new(Watched::new());
    let turns = [(4, Outcome::Limit, None), (1, outcome, None)];
    let found = Answer::Gives(WatchHeard::Found(Some(5)));
    let look = (WatchCall::TryGet, told(found));
    plays(rt, alloc, watch, &[], &[awaits, SENDS], &turns, look)
}

#[test]
fn a_new_value_reaches_the_receiver_that_waits(rt: HostRuntime) -> Result<(), NewError> {
    ends(&rt, rt.alloc(), AWAITS_A_CHANGE, Outcome::Done)?;
    ends(&rt, rt.alloc(), AWAITS_NONE, Outcome::Stalled)
}

// A value whose clone has no memory while the cell says so.
#[derive(Drop)]
struct Scarce<'a> {
    is_refused: &'a Cell<bool>,
    value: u32,
}

impl Clone for Scarce<'_> {
    fn clone(&self) -> Result<Self, AllocError> {
        if self.is_refused.get() {
            return Err(AllocError);
        }
        Ok(Scarce {
            is_refused: self.is_refused,
            value: self.value,
        })
    }
}

type ScarceReply<'a> = Reply<Answer<WatchHeard<Scarce<'a>>>, TaskId, 1>;

// How many acts of the task are over, and the value of which the last one told.
fn last_told<'a, M>(executor: &Executor<M>, task: usize) -> Option<(usize, Option<u32>)>
where
    M: Awaits<Waker = TaskId, Reply = ScarceReply<'a>> + Drop,
    M::Ask: Drop,
    M::Command: Drop,
{
    let heard = executor.heard(task)?;
    let value = match &heard.last()?.answer {
        Answer::Gives(WatchHeard::Waited(scarce)) => Some(scarce.value),
        _ => None,
    };
    Some((heard.len(), value))
}

// Runs these tasks over the watch, first without memory for the value of which they hear, and then with it.
fn hear_with_memory<'a, M>(
    rt: &impl Abort,
    alloc: Global,
    watch: M,
    tasks: Vec<Vec<Act<M::Ask, M::Command>>>,
    is_refused: &Cell<bool>,
) -> Result<(), NewError>
where
    M: Awaits<Waker = TaskId, Reply = ScarceReply<'a>> + Drop,
    M::Ask: Drop,
    M::Command: Drop,
{
    let mut executor = Executor::new(alloc, watch, tasks)?;
    same!(rt; executor.run(9), Outcome::Limit);
    same!(rt; last_told(&executor, 0), Some((1, None)));
    is_refused.set(false);
    same!(rt; executor.run(1), Outcome::Done);
    same!(rt; last_told(&executor, 0), Some((2, Some(5))));
    same!(rt; last_told(&executor, 1), Some((1, None)));
    Ok(())
}

type ScarceAct<'a> = Act<Await<Never>, WatchCommand<Scarce<'a>, TaskId, Never, Never>>;

// A task makes a receiver and awaits a change, and another one sends this value.
fn scarce_tasks<'a>(
    alloc: Global,
    scarce: Scarce<'a>,
) -> Result<Vec<Vec<ScarceAct<'a>>>, AllocError> {
    let read = Await {
        receiver: 0,
        read: Reading::Changed,
    };
    let receives = vec![in alloc;
        Act::Call(Command::Call(WatchCall::Receiver(0))),
        Act::Await(0, read),
    ]?;
    let sends = vec![in alloc; Act::Call(Command::Call(WatchCall::Send(scarce)))]?;
    Ok(vec![in alloc; receives, sends]?)
}

#[test]
fn want_of_memory_is_no_answer_that_is_kept(rt: HostRuntime) -> Result<(), NewError> {
    let is_refused = Cell::new(true);
    let scarce = Scarce {
        is_refused: &is_refused,
        value: 5,
    };
    let tasks = scarce_tasks(rt.alloc(), scarce)?;
    let watch: WatchRun<Scarce<'_>, TaskId, Never, Never, 1, 1, 1, 1> = Requests::new(
        Watched::new(),
    );
    hear_with_memory(&rt, rt.alloc(), watch, tasks, &is_refused)
}
