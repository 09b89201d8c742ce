//! Tasks that take one mutex, or two: their numbers, and limits. `test_tool` explores systems of mutexes as text.

use crate::schedule;
use esync_base::waitqueue::TaskId;
use esync_compared::mutex::MutexStates;
use esync_guards::mutex::Second;
use esync_guards::mutex::machine::{Guarded, Lock, MutexCommand, MutexRun};
use esync_history::executor::{Act, NewError};
use esync_machine::primitive::Command;
use esync_machine::requests::Requests;
use esync_systems::budget::Budget;
use esync_systems::compare::{ComparesBoth, ComparesRequests};
use esync_systems::explore::{Verdict, explore, explore_pair};
use esync_systems::pair::{Pair, PairAsk, PairCommand};
use esync_systems::plan::Plan;
use std::alloc::{AllocError, Global};

type Mutex = MutexRun<(u64, u64), u64, Second, TaskId, 4, 1>;

// A mutex with room for two requests.
type Narrow = MutexRun<(u64, u64), u64, Second, TaskId, 2, 1>;

type OneCommand = MutexCommand<(u64, u64), u64, TaskId>;

type OneAct = Act<Lock, OneCommand>;

type BothAct = Act<PairAsk<Lock, Lock>, PairCommand<OneCommand, OneCommand>>;

const MUTEX: ComparesRequests<MutexStates> = ComparesRequests {
    states: MutexStates {},
};

fn mutex() -> Mutex {
    Requests::new(Guarded::new((0, 0), Second {}))
}

// So many tasks, each of which locks the mutex and unlocks it.
fn lockers(alloc: Global, count: usize) -> Result<Vec<Vec<OneAct>>, AllocError> {
    let mut tasks = Vec::new(alloc);
    for r in 0..count {
        tasks.push(vec![in alloc; Act::Await(r, Lock {}), Act::Call(Command::End(r))]?)?;
    }
    Ok(tasks)
}

fn explore_one(
    alloc: Global,
    count: usize,
    priorities: &[Option<u8>],
    limit: usize,
) -> Result<Verdict, NewError> {
    let tasks = lockers(alloc, count)?;
    let plan = Plan::in_order(&tasks, priorities);
    explore(alloc, &MUTEX, mutex(), &plan, limit)
}

// A task that takes the left mutex first, or the right one.
fn takes_both(alloc: Global, r: u8, left_first: bool) -> Result<Vec<BothAct>, AllocError> {
    let r = r as usize;
    let left = Act::Await(2 * r, PairAsk::AskLeft(Lock {}));
    let right = Act::Await(2 * r + 1, PairAsk::AskRight(Lock {}));
    let end_left = Act::Call(PairCommand::ToLeft(Command::End(r)));
    let end_right = Act::Call(PairCommand::ToRight(Command::End(r)));
    if left_first {
        Ok(vec![in alloc; left, right, end_right, end_left]?)
    } else {
        Ok(vec![in alloc; right, left, end_left, end_right]?)
    }
}

fn takers(alloc: Global, orders: &[bool]) -> Result<Vec<Vec<BothAct>>, AllocError> {
    let mut tasks = Vec::new(alloc);
    for (r, left_first) in (0..u8::MAX).zip(orders) {
        tasks.push(takes_both(alloc, r, *left_first)?)?;
    }
    Ok(tasks)
}

// Each task takes both mutexes. The left one has numbers for two of them.
fn explore_both(
    alloc: Global,
    orders: &[bool],
    priorities: &[Option<u8>],
    limit: usize,
) -> Result<Verdict, NewError> {
    let both: Pair<Narrow, Mutex> = Pair {
        left: Requests::new(Guarded::new((0, 0), Second {})),
        right: mutex(),
    };
    let compares = ComparesBoth {
        left: MUTEX,
        right: MUTEX,
    };
    let tasks = takers(alloc, orders)?;
    let plan = Plan::in_order(&tasks, priorities);
    explore_pair(alloc, &compares, both, &plan, limit)
}

// A task that locks the mutex under one number, and again while its guard stays there.
fn locks_twice(alloc: Global) -> Result<Vec<Vec<OneAct>>, AllocError> {
    let locks = vec![in alloc; Act::Await(0, Lock {}), Act::Await(0, Lock {})]?;
    Ok(vec![in alloc; locks]?)
}

// Two tasks that lock the mutex under one number, the second one once it has locked it under its own.
fn lock_under_one(alloc: Global) -> Result<Vec<Vec<OneAct>>, AllocError> {
    let one = vec![in alloc; Act::Await(0, Lock {})]?;
    let other = vec![in alloc; Act::Await(1, Lock {}), Act::Await(0, Lock {})]?;
    Ok(vec![in alloc; one, other]?)
}

#[test]
fn no_task_has_ended(rt: HostRuntime) -> Result<(), NewError> {
    assert!(&rt; explore_one(rt.alloc(), 0, &[], 1)? == Verdict::AllEnd(0));
    Ok(())
}

// (a task without a priority runs on a thread of its own)
#[test]
fn two_tasks_of_one_mutex_end(rt: HostRuntime) -> Result<(), NewError> {
    let threads = [None, None];
    assert!(&rt; explore_one(rt.alloc(), 2, &[], 11)? == Verdict::TooMany(11));
    assert!(&rt; explore_one(rt.alloc(), 2, &[], 12)? == Verdict::AllEnd(5));
    assert!(&rt; explore_one(rt.alloc(), 2, &threads, 11)? == Verdict::TooMany(11));
    assert!(&rt; explore_one(rt.alloc(), 2, &threads, 12)? == Verdict::AllEnd(5));
    Ok(())
}

// A limit that hears how many states were gathered.
#[derive(Drop)]
struct Counted {
    most: usize,
    states: usize,
}

impl Budget for Counted {
    fn allows(&mut self, states: usize) -> bool {
        self.states = states;
        states < self.most
    }
}

fn explore_counted(alloc: Global, counted: &mut Counted) -> Result<Verdict, NewError> {
    let tasks = lockers(alloc, 2)?;
    explore(
        alloc,
        &MUTEX,
        mutex(),
        &Plan::in_order(&tasks, &[]),
        counted,
    )
}

// (it is asked before each state but the first, so last with one fewer than all)
#[test]
fn a_budget_hears_how_many_states_there_are(rt: HostRuntime) -> Result<(), NewError> {
    let mut all = Counted {
        most: 100,
        states: 0,
    };
    assert!(&rt; explore_counted(rt.alloc(), &mut all)? == Verdict::AllEnd(5));
    assert!(&rt; all.states == 11);
    let mut few = Counted { most: 4, states: 0 };
    assert!(&rt; explore_counted(rt.alloc(), &mut few)? == Verdict::TooMany(4));
    assert!(&rt; few.states == 4);
    Ok(())
}

// Its second start is answered NoSuch, so it ends.
#[test]
fn a_number_under_which_a_guard_stays_starts_nothing(rt: HostRuntime) -> Result<(), NewError> {
    let tasks = locks_twice(rt.alloc())?;
    let plan = Plan::in_order(&tasks, &[]);
    let ends = explore(rt.alloc(), &MUTEX, mutex(), &plan, 10)?;
    assert!(&rt; ends == Verdict::AllEnd(2));
    Ok(())
}

#[test]
fn a_number_that_two_tasks_use_is_refused(rt: HostRuntime) -> Result<(), NewError> {
    let tasks = lock_under_one(rt.alloc())?;
    let plan = Plan::in_order(&tasks, &[]);
    let refused = explore(rt.alloc(), &MUTEX, mutex(), &plan, 10);
    assert!(&rt; matches!(refused, Err(NewError::NoSuch)));
    Ok(())
}

#[test]
fn a_number_that_one_part_lacks_is_refused(rt: HostRuntime) -> Result<(), NewError> {
    let refused = explore_both(rt.alloc(), &[true, true, true], &[], 1000);
    assert!(&rt; matches!(refused, Err(NewError::NoSuch)));
    Ok(())
}

#[test]
fn one_order_of_a_pair_ends(rt: HostRuntime) -> Result<(), NewError> {
    assert!(&rt; explore_both(rt.alloc(), &[true, true], &[], 23)? == Verdict::TooMany(23));
    assert!(&rt; explore_both(rt.alloc(), &[true, true], &[], 24)? == Verdict::AllEnd(9));
    Ok(())
}

#[test]
fn opposite_orders_of_a_pair_stall(rt: HostRuntime) -> Result<(), NewError> {
    let (orders, threads) = ([true, false], [None, None]);
    let stalls = Verdict::Stalls(schedule(rt.alloc(), &[0, 1, 0, 1])?);
    assert!(&rt; explore_both(rt.alloc(), &orders, &[], 1000)? == stalls);
    assert!(&rt; explore_both(rt.alloc(), &orders, &threads, 1000)? == stalls);
    Ok(())
}

// The thread takes turns between those of the task, and the task between those of the thread.
#[test]
fn opposite_orders_on_an_executor_and_a_thread_stall(rt: HostRuntime) -> Result<(), NewError> {
    let (orders, mixed) = ([true, false], [Some(0), None]);
    let stalls = Verdict::Stalls(schedule(rt.alloc(), &[0, 1, 0, 1])?);
    assert!(&rt; explore_both(rt.alloc(), &orders, &mixed, 1000)? == stalls);
    Ok(())
}

#[test]
fn opposite_orders_on_an_executor_that_preempts_stall(rt: HostRuntime) -> Result<(), NewError> {
    let (orders, two) = ([true, false], [Some(3), Some(7)]);
    let stalls = Verdict::Stalls(schedule(rt.alloc(), &[0, 1, 1, 0])?);
    assert!(&rt; explore_both(rt.alloc(), &orders, &two, 1000)? == stalls);
    Ok(())
}
