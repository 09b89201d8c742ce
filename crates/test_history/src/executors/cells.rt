use super::runs::{Turns, plays, told};
use esync_base::waitqueue::TaskId;
use esync_cells::lazy_lock::Given;
use esync_cells::once_lock::OnceState;
use esync_cells::signal::SignalState;
use esync_history::executor::{Act, NewError, Outcome};
use esync_run::lazy_lock::{LazyCall, LazyHolder, LazyRun, NoAsk};
use esync_run::once_lock::{Get, OnceCall, OnceCommand, OnceHeard, OnceRun};
use esync_run::primitive::{Answer, Command};
use esync_run::requests::Requests;
use esync_run::signal::{SignalCall, SignalCommand, SignalHeard, SignalRun, Wait};
use std::alloc::Global;
use std::process::Abort;

type SignalAct = Act<Wait, SignalCommand<u32, TaskId>>;

// Runs these tasks over a signal, which then has no value.
fn plays_signal(
    rt: &impl Abort,
    alloc: Global,
    tasks: &[&[SignalAct]],
    turns: &[Turns<'_, SignalHeard<u32>>],
) -> Result<(), NewError> {
    let signal: SignalRun<u32, TaskId, 2, 1> = Requests::new(SignalState::new());
    let no_value = Answer::Gives(SignalHeard::Signaled(false));
    let look = (SignalCall::Signaled, told(no_value));
    plays(rt, alloc, signal, &[], tasks, turns, look)
}

const SIGNALS: SignalAct = Act::Call(Command::Call(SignalCall::Signal(5)));

const ONE_WAITS: &[&[SignalAct]] = &[&[Act::Await(0, Wait {})], &[SIGNALS]];

#[test]
fn a_value_reaches_the_task_that_waits(rt: HostRuntime) -> Result<(), NewError> {
    let turns = [(2, Outcome::Limit, None), (1, Outcome::Done, None)];
    plays_signal(&rt, rt.alloc(), ONE_WAITS, &turns)
}

const TWO_WAIT: &[&[SignalAct]] = &[
    &[Act::Await(0, Wait {})],
    &[Act::Await(1, Wait {})],
    &[SIGNALS],
];

#[test]
fn one_value_of_two_waits_is_taken_once(rt: HostRuntime) -> Result<(), NewError> {
    let turns = [(4, Outcome::Limit, None), (1, Outcome::Stalled, None)];
    plays_signal(&rt, rt.alloc(), TWO_WAIT, &turns)
}

type OnceAct = Act<Get, OnceCommand<u32, TaskId>>;

// Runs these tasks over a value that is set once. Then it is set, or isn't.
fn plays_once(
    rt: &impl Abort,
    alloc: Global,
    tasks: &[&[OnceAct]],
    turns: &[Turns<'_, OnceHeard<u32>>],
    is_set: bool,
) -> Result<(), NewError> {
    let once: OnceRun<u32, TaskId, 1, 1> = Requests::new(OnceState::new());
    let look = (
        OnceCall::IsSet,
        told(Answer::Gives(OnceHeard::IsSet(is_set))),
    );
    plays(rt, alloc, once, &[], tasks, turns, look)
}

const GETS: &[&[OnceAct]] = &[&[Act::Await(0, Get {})]];

const GETS_AND_SETS: &[&[OnceAct]] = &[
    &[Act::Await(0, Get {})],
    &[Act::Call(Command::Call(OnceCall::Init(5)))],
];

#[test]
fn a_wait_for_a_value_that_is_set_once_wakes_itself(rt: HostRuntime) -> Result<(), NewError> {
    let for_ever = [(49, Outcome::Limit, None), (1, Outcome::Limit, None)];
    plays_once(&rt, rt.alloc(), GETS, &for_ever, false)?;
    let set = [(2, Outcome::Limit, None), (1, Outcome::Done, None)];
    plays_once(&rt, rt.alloc(), GETS_AND_SETS, &set, true)
}

type LazyAct = Act<NoAsk, Command<NoAsk, TaskId, LazyCall>>;

// A task asks for the value, and another takes it out and then asks for it.
const LAZY: &[&[LazyAct]] = &[
    &[Act::Call(Command::Call(LazyCall::Get))],
    &[
        Act::Call(Command::Call(LazyCall::Into)),
        Act::Call(Command::Call(LazyCall::Get)),
    ],
];

const TAKEN: &[&[Answer<u32>]] = &[&[Answer::Gives(5)], &[Answer::Gives(5), Answer::NoSuch]];

#[test]
fn nothing_is_there_once_a_task_took_the_value_out(rt: HostRuntime) -> Result<(), NewError> {
    let lazy: LazyRun<u32, Given<u32>, TaskId, 1, 1> = Requests::new(LazyHolder::new(Given {
        value: 5,
    }));
    let turns = [(2, Outcome::Limit, None), (1, Outcome::Done, Some(TAKEN))];
    let look = (LazyCall::Get, told(Answer::NoSuch));
    plays(&rt, rt.alloc(), lazy, &[], LAZY, &turns, look)
}
