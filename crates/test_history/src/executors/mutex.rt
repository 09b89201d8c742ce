use super::runs::{plays, told};
use esync_base::waitqueue::TaskId;
use esync_guards::mutex::{Second, TryLockError};
use esync_history::executor::{Act, NewError, Outcome};
use esync_run::mutex::{Guarded, Lock, MutexCall, MutexCommand, MutexHeard, MutexRun};
use esync_run::primitive::{Answer, Command};
use esync_run::requests::Requests;
use std::alloc::Global;
use std::process::Abort;

type Mutex = MutexRun<(u32, u32), u32, Second, TaskId, 3, 1>;

type MutexAct = Act<Lock, MutexCommand<(u32, u32), u32, TaskId>>;

fn lock(r: usize) -> MutexAct {
    Act::Await(r, Lock {})
}

// One task locks and then ends this request, and another waits for the lock: after so many turns the tasks have still to go on, and one
// more ends the run so. Then the lock is held.
fn runs(
    rt: &impl Abort,
    alloc: Global,
    end: usize,
    turns: usize,
    outcome: Outcome,
) -> Result<(), NewError> {
    let mutex: Mutex = Requests::new(Guarded::new((4, 6), Second {}));
    let tasks: &[&[MutexAct]] = &[&[lock(0), Act::Call(Command::End(end))], &[lock(1)]];
    let turns = [(turns, Outcome::Limit, None), (1, outcome, None)];
    let held = Answer::Gives(MutexHeard::Tried(Err(TryLockError {})));
    plays(
        rt,
        alloc,
        mutex,
        &[],
        tasks,
        &turns,
        (MutexCall::TryLock(2), told(held)),
    )
}

#[test]
fn the_end_of_a_guard_wakes_the_task_that_waits(rt: HostRuntime) -> Result<(), NewError> {
    runs(&rt, rt.alloc(), 0, 3, Outcome::Done)
}

#[test]
fn a_guard_that_stays_keeps_the_others_waiting(rt: HostRuntime) -> Result<(), NewError> {
    runs(&rt, rt.alloc(), 2, 2, Outcome::Stalled)
}
