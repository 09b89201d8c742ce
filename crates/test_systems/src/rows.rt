//! Numbers of a row of mutexes. `test_tool` explores philosophers, who share such a row, as text.

use esync_base::waitqueue::TaskId;
use esync_compared::mutex::MutexStates;
use esync_guards::mutex::Second;
use esync_guards::mutex::machine::{Guarded, Lock, MutexCommand, MutexRun};
use esync_history::executor::{Act, NewError};
use esync_machine::primitive::Command;
use esync_machine::requests::Requests;
use esync_systems::compare::{ComparesEach, ComparesRequests};
use esync_systems::explore::{Verdict, explore_several};
use esync_systems::plan::Plan;
use esync_systems::several::{PartCommand, Several};
use std::alloc::{AllocError, Global};

type Fork = MutexRun<(u64, u64), u64, Second, TaskId, 3, 1>;

type ForkAct = Act<Lock, PartCommand<MutexCommand<(u64, u64), u64, TaskId>>>;

fn fork() -> Fork {
    Requests::new(Guarded::new((0, 0), Second {}))
}

// The philosopher's request of each fork has the philosopher's number.
fn take(philosopher: u8, fork: u8) -> ForkAct {
    Act::Await(3 * philosopher as usize + fork as usize, Lock {})
}

fn put_down(philosopher: u8, fork: u8) -> ForkAct {
    Act::Call(PartCommand {
        part: fork as usize,
        command: Command::End(philosopher as usize),
    })
}

fn forks(alloc: Global) -> Result<Several<Fork, 3>, AllocError> {
    let others = vec![in alloc; fork(), fork()]?;
    Ok(Several {
        first: fork(),
        others,
    })
}

fn explore_table(alloc: Global, tasks: &[Vec<ForkAct>], limit: usize) -> Result<Verdict, NewError> {
    let compares = ComparesEach {
        parts: ComparesRequests {
            states: MutexStates {},
        },
    };
    let plan = Plan::in_order(tasks, &[]);
    explore_several(alloc, &compares, forks(alloc)?, &plan, limit)
}

// One task of one act.
fn alone(alloc: Global, act: ForkAct) -> Result<Vec<Vec<ForkAct>>, AllocError> {
    let task = vec![in alloc; act]?;
    Ok(vec![in alloc; task]?)
}

#[test]
fn a_number_of_no_fork_is_refused(rt: HostRuntime) -> Result<(), NewError> {
    let tasks = alone(rt.alloc(), take(0, 9))?;
    let refused = explore_table(rt.alloc(), &tasks, 10);
    assert!(&rt; matches!(refused, Err(NewError::NoSuch)));
    Ok(())
}

#[test]
fn a_call_of_no_fork_is_over_at_once(rt: HostRuntime) -> Result<(), NewError> {
    let tasks = alone(rt.alloc(), put_down(0, 9))?;
    assert!(&rt; explore_table(rt.alloc(), &tasks, 2)? == Verdict::AllEnd(1));
    Ok(())
}
