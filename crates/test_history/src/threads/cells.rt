//! Threads that share a recorded cell: a watch, a value that is set once, one that is made when it is first asked for, or a mutex.
use super::{CALLS, call_by_two, told};
use crate::never::Never;
use esync_base::waitqueue::TaskId;
use esync_cells::lazy_lock::Given;
use esync_cells::lazy_lock::machine::{LazyCall, LazyHolder, LazyRun};
use esync_cells::once_lock::machine::{OnceCall, OnceCommand, OnceHeard, OnceRun};
use esync_cells::once_lock::{InitError, OnceState};
use esync_cells::watch::machine::{Reading, WatchCall, WatchHeard, WatchRun, Watched};
use esync_guards::mutex::machine::{Guarded, MutexCall, MutexCommand, MutexHeard, MutexRun};
use esync_guards::mutex::{Second, TryLockError};
use esync_machine::primitive::{Answer, Command};
use esync_machine::requests::Requests;
use esync_machine::run::Machine;
use esync_notes::same;
use std::test::Fail;

type WatchAnswer = Answer<WatchHeard<u32>>;

const SENT_OR_FOUND: [&[WatchAnswer]; 5] = [
    &[Answer::Gives(WatchHeard::Sent(Ok(())))],
    &[
        Answer::Gives(WatchHeard::Found(None)),
        Answer::Gives(WatchHeard::Found(Some(1))),
        Answer::Gives(WatchHeard::Found(Some(2))),
    ],
    &[],
    &[],
    &[],
];

// A watch with the receiver 0.
fn watch() -> WatchRun<u32, TaskId, Never, Never, 4, 1, 1, 4> {
    let mut watch = Requests::new(Watched::new());
    watch.step(Command::Call(WatchCall::Receiver(0)));
    watch
}

// One thread sends its numbers, which the other reads.
#[test]
fn two_threads_call_a_recorded_watch(rt: HostRuntime) -> Result<(), Fail> {
    let sends = [1, 2].map(|number| Command::Call(WatchCall::Send(number)));
    let changed = Command::Call(WatchCall::Read(0, Reading::Changed));
    let reads = [Command::Call(WatchCall::TryGet), changed];
    let look = (WatchCall::Contains, told(WatchHeard::HasValue(false)));
    let calls = [sends, reads];
    let [one, two] = call_by_two(&rt, rt.alloc(), watch(), calls, look, &SENT_OR_FOUND)?;
    same!(rt; one, [CALLS, 0, 0, 0, 0]);
    same!(rt; two, [0, CALLS, 0, 0, 0]);
    Ok(())
}

fn sets(value: u32) -> [OnceCommand<u32, TaskId>; 2] {
    let set = Command::Call(OnceCall::Init(value));
    [set, Command::Call(OnceCall::TryGet)]
}

type OnceAnswer = Answer<OnceHeard<u32>>;

const SETS: [&[OnceAnswer]; 5] = [
    &[Answer::Gives(OnceHeard::HasSet(Ok(())))],
    &[Answer::Gives(OnceHeard::HasSet(Err(InitError::Set(1))))],
    &[Answer::Gives(OnceHeard::HasSet(Err(InitError::Set(2))))],
    &[Answer::Gives(OnceHeard::Found(Some(1)))],
    &[Answer::Gives(OnceHeard::Found(Some(2)))],
];

// Two threads set a value and look. One of them sets it, once, and both see what it set.
#[test]
fn two_threads_call_a_recorded_once_lock(rt: HostRuntime) -> Result<(), Fail> {
    let once: OnceRun<u32, TaskId, 1, 1> = Requests::new(OnceState::new());
    let look = (OnceCall::IsSet, told(OnceHeard::IsSet(false)));
    let calls = [sets(1), sets(2)];
    let [one, two] = call_by_two(&rt, rt.alloc(), once, calls, look, &SETS)?;
    let half = CALLS / 2;
    let (winner, loser) = if one[0] == 1 {
        ([1, half - 1, 0, half, 0], [0, 0, half, half, 0])
    } else {
        ([0, half, 0, 0, half], [1, 0, half - 1, 0, half])
    };
    same!(rt; one, winner);
    same!(rt; two, loser);
    Ok(())
}

const SEVEN_OR_NOTHING: [&[Answer<u32>]; 5] = [
    &[Answer::Gives(7), Answer::NoSuch],
    &[Answer::Gives(7)],
    &[Answer::NoSuch],
    &[],
    &[],
];

// Two threads ask for a value. The second takes it out after its first look, and then nothing is there.
#[test]
fn two_threads_call_a_recorded_lazy_lock(rt: HostRuntime) -> Result<(), Fail> {
    let lazy: LazyRun<u32, Given<u32>, TaskId, 1, 1> = Requests::new(LazyHolder::new(Given {
        value: 7,
    }));
    let asks = [Command::Call(LazyCall::Get); 2];
    let takes = [Command::Call(LazyCall::Get), Command::Call(LazyCall::Into)];
    let look = (LazyCall::Get, told(7));
    let calls = [asks, takes];
    let [one, two] = call_by_two(&rt, rt.alloc(), lazy, calls, look, &SEVEN_OR_NOTHING)?;
    same!(rt; one[0], CALLS);
    same!(rt; two, [CALLS, 2, CALLS - 2, 0, 0]);
    Ok(())
}

fn locks(r: usize) -> [MutexCommand<(u32, u32), u32, TaskId>; 2] {
    [Command::Call(MutexCall::TryLock(r)), Command::End(r)]
}

type MutexAnswer = Answer<MutexHeard<(u32, u32), u32>>;

const LOCKED: MutexAnswer = Answer::Gives(MutexHeard::Tried(Ok(())));

const REFUSED: MutexAnswer = Answer::Gives(MutexHeard::Tried(Err(TryLockError {})));

const TRIES: [&[MutexAnswer]; 5] = [
    &[LOCKED, REFUSED],
    &[LOCKED],
    &[Answer::Done],
    &[REFUSED],
    &[Answer::NoSuch],
];

// Two threads try to lock, and end what they locked. As many ends of each find a guard as its tries have locked.
#[test]
fn two_threads_call_a_recorded_mutex(rt: HostRuntime) -> Result<(), Fail> {
    let mutex: MutexRun<(u32, u32), u32, Second, TaskId, 3, 1> = Requests::new(Guarded::new(
        (4, 6),
        Second {},
    ));
    let look = (MutexCall::TryLock(2), told(MutexHeard::Tried(Ok(()))));
    let calls = [locks(0), locks(1)];
    let counts = call_by_two(&rt, rt.alloc(), mutex, calls, look, &TRIES)?;
    for [tried, locked, ended, refused, vain] in counts {
        same!(rt; tried, CALLS / 2);
        same!(rt; locked, ended);
        same!(rt; refused, vain);
    }
    Ok(())
}
