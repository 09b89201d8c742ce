//! A driver of three tasks over a channel and a mutex. A task that holds the mutex while it sends ends on the executor,
//! and stalls under another schedule.
ghost use Rattle.std.specs.Prelude.{◌≡◌, [], Ok};
ghost use Rattle.esync_systems.specs.Positions.{in_order};
ghost use Rattle.esync_systems.specs.Schedules.{opened, EveryScheduleCanEnd};

use esync_base::waitqueue::TaskId;
use esync_channel::channel::ChannelState;
use esync_channel::channel::machine::{ChannelAsk, ChannelCommand, ChannelRun};
use esync_compared::channel::ChannelStates;
use esync_compared::mutex::MutexStates;
use esync_guards::mutex::Second;
use esync_guards::mutex::machine::{Guarded, Lock, MutexCommand, MutexRun};
use esync_history::executor::{Act, Executor, NewError, Outcome};
use esync_machine::primitive::Command;
use esync_machine::requests::Requests;
use esync_machine::run::{Awaits, Machine};
use esync_systems::compare::{ComparesBoth, ComparesRequests};
use esync_systems::explore::{Verdict, explore_pair_determined};
use esync_systems::pair::{Pair, PairAsk, PairCommand};
use esync_systems::plan::{InOrder, Plan};
use std::alloc::{AllocError, Global};

type Readings = ChannelRun<u64, TaskId, 1, 8, 1>;

type Settings = MutexRun<(u64, u64), u64, Second, TaskId, 8, 1>;

type Driver = Pair<Readings, Settings>;

type DriverAct = Act<
    PairAsk<ChannelAsk<u64>, Lock>,
    PairCommand<ChannelCommand<u64, TaskId>, MutexCommand<(u64, u64), u64, TaskId>>,
>;

// The requests of the channel have the even numbers, and those of the mutex the odd ones.
fn send(r: u8, reading: u64) -> DriverAct {
    Act::Await(2 * r as usize, PairAsk::AskLeft(ChannelAsk::Send(reading)))
}

fn receive(r: u8) -> DriverAct {
    Act::Await(2 * r as usize, PairAsk::AskLeft(ChannelAsk::Receive))
}

fn lock(r: u8) -> DriverAct {
    Act::Await(2 * r as usize + 1, PairAsk::AskRight(Lock {}))
}

fn unlock(r: u8) -> DriverAct {
    Act::Call(PairCommand::ToRight(Command::End(r as usize)))
}

// Changes the settings, and sends a reading that tells of it: while it holds the mutex, or behind that.
fn tunes(alloc: Global, holds: bool) -> Result<Vec<DriverAct>, AllocError> {
    if holds {
        Ok(vec![in alloc; lock(3), send(0, 0), unlock(3)]?)
    } else {
        Ok(vec![in alloc; lock(3), unlock(3), send(0, 0)]?)
    }
}

// Sends two readings.
fn samples(alloc: Global) -> Result<Vec<DriverAct>, AllocError> {
    Ok(vec![in alloc; send(1, 1), send(2, 2)]?)
}

// Takes three readings, each of which it judges by the settings.
fn judges(alloc: Global) -> Result<Vec<DriverAct>, AllocError> {
    let mut acts = Vec::new(alloc);
    for r in 0..3 {
        acts.push(receive(r + 3))?;
        acts.push(lock(r))?;
        acts.push(unlock(r))?;
    }
    Ok(acts)
}

fn tasks(alloc: Global, holds: bool) -> Result<Vec<Vec<DriverAct>>, AllocError> {
    Ok(vec![in alloc; tunes(alloc, holds)?, samples(alloc)?, judges(alloc)?]?)
}

fn driver() -> Driver {
    Pair {
        left: Requests::new(ChannelState::new()),
        right: Requests::new(Guarded::new((0, 0), Second {})),
    }
}

// Runs tasks on the executor for up to 100 turns, and returns how they end.
fn run_tasks<M: Awaits<Waker = TaskId> + Drop>(
    alloc: Global,
    machine: M,
    tasks: Vec<Vec<Act<M::Ask, M::Command>>>,
) -> Result<Outcome, NewError>
where
    M::Ask: Drop,
    M::Command: Drop,
    M::Reply: Drop,
{
    let mut executor = Executor::new(alloc, machine, tasks)?;
    Ok(executor.run(100))
}

/// Runs the three tasks on the executor, and returns how they end.
pub fn run(alloc: Global, holds: bool) -> Result<Outcome, NewError> {
    run_tasks(alloc, driver(), tasks(alloc, holds)?)
}

// What a step of a channel or of a mutex answers and leaves is determined, so what is found holds of every schedule.
fn explore_driver(
    alloc: Global,
    driver: Driver,
    tasks: &[Vec<DriverAct>],
) -> Result<Verdict, NewError>
    ensures { result ≡ Ok Verdict.AllCanEnd → EveryScheduleCanEnd ⟦<Driver as Machine>⟧.semantics.meaning ⟦<Driver as Awaits>⟧.starting (opened ⟦<Driver as Machine>⟧.semantics driver (in_order tasks.now [])) }
{
    let compares = ComparesBoth {
        left: ComparesRequests {
            states: ChannelStates {},
        },
        right: ComparesRequests {
            states: MutexStates {},
        },
    };
    let plan = Plan {
        program: tasks,
        priorities: &[],
        thinks: InOrder,
    };
    explore_pair_determined(alloc, &compares, driver, &plan, 1000)
}

/// Tells what is true of every schedule of the three tasks.
pub fn explore(alloc: Global, holds: bool) -> Result<Verdict, NewError> {
    explore_driver(alloc, driver(), &tasks(alloc, holds)?)
}
