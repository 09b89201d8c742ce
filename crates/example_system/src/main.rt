//! Systems of two mutexes, of three, of one channel, and of a channel and a mutex: what is true of every schedule of
//! their tasks.
#![tactic(auto)]

ghost use Rattle.std.specs.Prelude.{◌≡◌, ℕ, [], Ok};
ghost use Rattle.esync_systems.specs.Positions.{in_order};
ghost use Rattle.esync_systems.specs.Schedules.{opened, EveryScheduleCanEnd, EveryScheduleEnds};

use esync_base::waitqueue::TaskId;
use esync_channel::channel::ChannelState;
use esync_channel::channel::machine::{ChannelAsk, ChannelCommand, ChannelRun};
use esync_compared::channel::ChannelStates;
use esync_compared::mutex::MutexStates;
use esync_guards::mutex::Second;
use esync_guards::mutex::machine::{Guarded, Lock, MutexCommand, MutexRun};
use esync_history::executor::{Act, NewError};
use esync_machine::primitive::Command;
use esync_machine::requests::Requests;
use esync_machine::run::{Awaits, Machine};
use esync_systems::compare::{ComparesBoth, ComparesEach, ComparesRequests};
use esync_systems::explore::{
    Verdict, explore_determined, explore_pair, explore_several_determined,
};
use esync_systems::pair::{Pair, PairAsk, PairCommand};
use esync_systems::plan::{InOrder, Plan};
use esync_systems::several::{PartCommand, Several};
use std::alloc::{AllocError, Global};
use std::io;

mod driver;
mod receiver;

type Mutex = MutexRun<(u64, u64), u64, Second, TaskId, 3, 1>;

type Forks = Several<Mutex, 3>;

type Channel = ChannelRun<u64, TaskId, 1, 8, 1>;

type LockCommand = MutexCommand<(u64, u64), u64, TaskId>;

type LockAct = Act<PairAsk<Lock, Lock>, PairCommand<LockCommand, LockCommand>>;

type ForkAct = Act<Lock, PartCommand<LockCommand>>;

type ChannelAct = Act<ChannelAsk<u64>, ChannelCommand<u64, TaskId>>;

// The requests of the left mutex have the even numbers, and those of the right one the odd ones.
fn lock_left(r: u8) -> LockAct {
    Act::Await(2 * r as usize, PairAsk::AskLeft(Lock {}))
}

fn lock_right(r: u8) -> LockAct {
    Act::Await(2 * r as usize + 1, PairAsk::AskRight(Lock {}))
}

fn unlock_left(r: u8) -> LockAct {
    Act::Call(PairCommand::ToLeft(Command::End(r as usize)))
}

fn unlock_right(r: u8) -> LockAct {
    Act::Call(PairCommand::ToRight(Command::End(r as usize)))
}

fn left_first(alloc: Global, r: u8) -> Result<Vec<LockAct>, AllocError> {
    Ok(vec![in alloc;
        lock_left(r),
        lock_right(r),
        unlock_right(r),
        unlock_left(r),
    ]?)
}

fn right_first(alloc: Global, r: u8) -> Result<Vec<LockAct>, AllocError> {
    Ok(vec![in alloc;
        lock_right(r),
        lock_left(r),
        unlock_left(r),
        unlock_right(r),
    ]?)
}

fn explore_mutexes(
    alloc: Global,
    tasks: &[Vec<LockAct>],
    priorities: &[Option<u8>],
) -> Result<Verdict, NewError> {
    let mutexes: Pair<Mutex, Mutex> = Pair {
        left: Requests::new(Guarded::new((0, 0), Second {})),
        right: Requests::new(Guarded::new((0, 0), Second {})),
    };
    let mutex = ComparesRequests {
        states: MutexStates {},
    };
    let compares = ComparesBoth {
        left: mutex,
        right: mutex,
    };
    let plan = Plan::in_order(tasks, priorities);
    explore_pair(alloc, &compares, mutexes, &plan, 1000)
}

// Two tasks, each of which takes both mutexes, in opposite orders.
fn opposite_orders(alloc: Global) -> Result<Vec<Vec<LockAct>>, AllocError> {
    Ok(vec![in alloc; left_first(alloc, 0)?, right_first(alloc, 1)?]?)
}

// So many tasks, each of which takes the left mutex and then the right one.
fn one_order(alloc: Global, count: u8) -> Result<Vec<Vec<LockAct>>, AllocError> {
    let mut tasks = Vec::new(alloc);
    for r in 0..count {
        tasks.push(left_first(alloc, r)?)?;
    }
    Ok(tasks)
}

// Philosopher r takes one fork and then the next, and puts both down. Request r of each fork is the philosopher's.
fn dines(alloc: Global, r: u8, first: u8, second: u8) -> Result<Vec<ForkAct>, AllocError> {
    let unlock = Command::End(r as usize);
    Ok(vec![in alloc;
        Act::Await(3 * r as usize + first as usize, Lock {}),
        Act::Await(3 * r as usize + second as usize, Lock {}),
        Act::Call(PartCommand {
            part: second as usize,
            command: unlock
        }),
        Act::Call(PartCommand {
            part: first as usize,
            command: unlock
        }),
    ]?)
}

// Each of three philosophers takes the fork of the same number first, and then the next one. If `one_turns_round`, the
// last philosopher takes them in the opposite order.
fn philosophers(alloc: Global, one_turns_round: bool) -> Result<Vec<Vec<ForkAct>>, AllocError> {
    let last = if one_turns_round {
        dines(alloc, 2, 0, 2)?
    } else {
        dines(alloc, 2, 2, 0)?
    };
    Ok(vec![in alloc; dines(alloc, 0, 0, 1)?, dines(alloc, 1, 1, 2)?, last]?)
}

// Explores three forks. The steps of a mutex are determined, so a verdict on them holds of every schedule.
fn explore_forks(alloc: Global, forks: Forks, tasks: &[Vec<ForkAct>]) -> Result<Verdict, NewError>
    ensures { (turns : ℕ) → result ≡ Ok (Verdict.AllEnd turns) → EveryScheduleEnds ⟦<Forks as Machine>⟧.semantics.meaning ⟦<Forks as Awaits>⟧.starting turns (opened ⟦<Forks as Machine>⟧.semantics forks (in_order tasks.now [])) }
{
    let compares = ComparesEach {
        parts: ComparesRequests {
            states: MutexStates {},
        },
    };
    let plan = Plan {
        program: tasks,
        priorities: &[],
        thinks: InOrder,
    };
    explore_several_determined(alloc, &compares, forks, &plan, 1000)
}

fn forks(alloc: Global) -> Result<Forks, AllocError> {
    let mut others = Vec::new(alloc);
    for _ in 0..2 {
        others.push(Requests::new(Guarded::new((0, 0), Second {})))?;
    }
    let first = Requests::new(Guarded::new((0, 0), Second {}));
    Ok(Several { first, others })
}

// Each consumer receives one message, and the last task sends `sent` messages.
fn consumers(alloc: Global, count: usize, sent: usize) -> Result<Vec<Vec<ChannelAct>>, AllocError> {
    let mut tasks = Vec::new(alloc);
    let mut producer = Vec::new(alloc);
    for r in 0..count {
        tasks.push(vec![in alloc; Act::Await(r, ChannelAsk::Receive)]?)?;
    }
    for r in count..count.saturating_add(sent) {
        producer.push(Act::Await(r, ChannelAsk::Send(7)))?;
    }
    tasks.push(producer)?;
    Ok(tasks)
}

// Explores one channel. The steps of a channel are determined, so a verdict on it holds of every schedule.
fn explore_channel(
    alloc: Global,
    channel: Channel,
    tasks: &[Vec<ChannelAct>],
) -> Result<Verdict, NewError>
    ensures { result ≡ Ok Verdict.AllCanEnd → EveryScheduleCanEnd ⟦<Channel as Machine>⟧.semantics.meaning ⟦<Channel as Awaits>⟧.starting (opened ⟦<Channel as Machine>⟧.semantics channel (in_order tasks.now [])) }
{
    let compares = ComparesRequests {
        states: ChannelStates {},
    };
    let plan = Plan {
        program: tasks,
        priorities: &[],
        thinks: InOrder,
    };
    explore_determined(alloc, &compares, channel, &plan, 1000)
}

fn tell(rt: &impl Print, title: &str, found: Result<Verdict, NewError>) -> io::Result<()> {
    match found {
        Ok(verdict) => println!(rt; "{title}: {verdict}"),
        Err(error) => println!(rt; "{title}: {error}"),
    }
}

fn lock(alloc: Global, count: u8) -> Result<Verdict, NewError> {
    explore_mutexes(alloc, &one_order(alloc, count)?, &[])
}

fn lock_crosswise(alloc: Global, priorities: &[Option<u8>]) -> Result<Verdict, NewError> {
    explore_mutexes(alloc, &opposite_orders(alloc)?, priorities)
}

fn dine(alloc: Global, one_turns_round: bool) -> Result<Verdict, NewError> {
    explore_forks(alloc, forks(alloc)?, &philosophers(alloc, one_turns_round)?)
}

fn consume(alloc: Global, count: usize, sent: usize) -> Result<Verdict, NewError> {
    explore_channel(
        alloc,
        Requests::new(ChannelState::new()),
        &consumers(alloc, count, sent)?,
    )
}

fn main(rt: HostRuntime) -> io::Result<()> {
    let alloc = rt.alloc();
    tell(
        &rt,
        "two mutexes in opposite orders",
        lock_crosswise(alloc, &[]),
    )?;
    tell(
        &rt,
        "two mutexes in opposite orders, on one executor",
        lock_crosswise(alloc, &[Some(0), Some(0)]),
    )?;
    tell(&rt, "two mutexes in one order", lock(alloc, 2))?;
    tell(&rt, "three tasks in one order", lock(alloc, 3))?;
    tell(&rt, "one consumer", consume(alloc, 1, 1))?;
    tell(&rt, "two consumers", consume(alloc, 2, 2))?;
    tell(&rt, "two consumers, one message", consume(alloc, 2, 1))?;
    tell(&rt, "two consumers, no message", consume(alloc, 2, 0))?;
    tell(&rt, "three philosophers", dine(alloc, false))?;
    tell(
        &rt,
        "three philosophers, one of whom turns round",
        dine(alloc, true),
    )?;
    if let Ok(outcome) = driver::run(alloc, true) {
        println!(rt; "a driver that holds a mutex while it sends, on the executor: {outcome:?}")?;
    }
    tell(&rt, "under every schedule", driver::explore(alloc, true))?;
    tell(
        &rt,
        "a driver that releases it first",
        driver::explore(alloc, false),
    )?;
    tell(
        &rt,
        "a receiver that waits for a zero",
        receiver::explore(alloc, 0),
    )?;
    tell(&rt, "no zero comes", receiver::explore(alloc, 1))?;
    if let Ok(outcome) = receiver::run(alloc, 1) {
        println!(rt; "no zero comes, on an executor: {outcome:?}")?;
    }
    Ok(())
}
