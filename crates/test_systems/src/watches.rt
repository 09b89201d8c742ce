//! Readers behind a watch.
use crate::schedule;
use esync_base::waitqueue::TaskId;
use esync_cells::watch::machine::{Await, Reading, WatchCall, WatchCommand, WatchRun, Watched};
use esync_cells::watch::{Change, Judge};
use esync_compared::sizes::{SizedWatch, Sizes};
use esync_compared::watch::{ComparesTests, WatchStates};
use esync_history::executor::{Act, NewError};
use esync_machine::primitive::Command;
use esync_machine::requests::Requests;
use esync_systems::compare::ComparesRequests;
use esync_systems::explore::{Verdict, explore_determined};
use esync_systems::plan::Plan;
use std::alloc::{AllocError, Global};
use std::hash::FoldHasher;

/// A change that leaves the value as it is.
#[derive(Clone, Copy, Debug)]
struct Nothing {}

impl Change<u64> for Nothing {
    ghost use Rattle.std.specs.Prelude.{false, refl};

    ghost changed = { λ c v. v };

    ghost tells = { λ c v. false };

    fn apply(&self, _value: &mut Option<u64>) -> bool {
        false
    }

    ghost a_change_tells = { λ c v told. refl };
}

/// A test that each value passes.
#[derive(Clone, Copy, Debug)]
struct Any {}

impl Judge<u64> for Any {
    ghost use Rattle.std.specs.Prelude.{true};

    ghost passes = { λ c v. true };

    fn holds(&self, _value: &u64) -> bool {
        true
    }
}

/// All such tests are one.
#[derive(Clone, Copy, Debug)]
struct AnyTests {}

impl ComparesTests<Any> for AnyTests {
    fn are_same(&self, _one: &Any, _other: &Any) -> bool {
        true
    }

    fn mark(&self, _test: &Any, _hasher: &mut FoldHasher) {}
}

type Watch = WatchRun<u64, TaskId, Nothing, Any, 2, 2, 4, 2>;

type AnySize = Requests<SizedWatch<Nothing, Any>, 4, 8>;

type WatchAct = Act<Await<Any>, WatchCommand<u64, TaskId, Nothing, Any>>;

const WATCH: ComparesRequests<WatchStates<AnyTests>> = ComparesRequests {
    states: WatchStates { tests: AnyTests {} },
};

fn call(call: WatchCall<u64, Nothing, Any>) -> WatchAct {
    Act::Call(Command::Call(call))
}

fn awaits(r: usize, receiver: usize, read: Reading<Any>) -> WatchAct {
    Act::Await(r, Await { receiver, read })
}

// A receiver that waits so many times for a change, with the request of this number.
fn reader(
    alloc: Global,
    r: usize,
    receiver: usize,
    times: usize,
) -> Result<Vec<WatchAct>, AllocError> {
    let mut acts = vec![in alloc; call(WatchCall::Receiver(receiver))]?;
    for _time in 0..times {
        acts.push(awaits(r, receiver, Reading::Changed))?;
    }
    Ok(acts)
}

fn two_readers(alloc: Global) -> Result<Vec<Vec<WatchAct>>, AllocError> {
    let writer = vec![in alloc; call(WatchCall::Send(7))]?;
    Ok(vec![in alloc; reader(alloc, 0, 0, 1)?, reader(alloc, 1, 1, 1)?, writer]?)
}

fn two_values(alloc: Global) -> Result<Vec<Vec<WatchAct>>, AllocError> {
    let writer = vec![in alloc; call(WatchCall::Send(1)), call(WatchCall::Send(2))]?;
    Ok(vec![in alloc; writer, reader(alloc, 0, 0, 2)?]?)
}

// A second receiver, which waits for a value that never comes.
fn second_reader(alloc: Global) -> Result<Vec<Vec<WatchAct>>, AllocError> {
    let acts = vec![in alloc;
        call(WatchCall::Receiver(0)),
        call(WatchCall::Receiver(1)),
        awaits(0, 1, Reading::Get),
    ]?;
    Ok(vec![in alloc; acts]?)
}

fn explore_watch(alloc: Global, tasks: &[Vec<WatchAct>]) -> Result<Verdict, NewError> {
    let watch: Watch = Requests::new(Watched::new());
    explore_determined(alloc, &WATCH, watch, &Plan::in_order(tasks, &[]), 1000)
}

fn explore_sized(
    alloc: Global,
    watch: SizedWatch<Nothing, Any>,
    tasks: &[Vec<WatchAct>],
) -> Result<Verdict, NewError> {
    let watch: AnySize = Requests::new(watch);
    explore_determined(alloc, &WATCH, watch, &Plan::in_order(tasks, &[]), 1000)
}

#[test]
fn each_of_two_readers_hears_of_a_change(rt: HostRuntime) -> Result<(), NewError> {
    let tasks = two_readers(rt.alloc())?;
    assert!(&rt; explore_watch(rt.alloc(), &tasks)? == Verdict::AllEnd(7));
    Ok(())
}

// Both values are sent before the reader looks, and it hears of the latest alone.
#[test]
fn a_change_that_passes_is_missed(rt: HostRuntime) -> Result<(), NewError> {
    let tasks = two_values(rt.alloc())?;
    let schedule = schedule(rt.alloc(), &[0, 0, 1, 1, 1])?;
    assert!(&rt; explore_watch(rt.alloc(), &tasks)? == Verdict::Stalls(schedule));
    Ok(())
}

// A watch with room for one counted receiver refuses the second, so nothing waits.
#[test]
fn a_watch_has_its_capacity(rt: HostRuntime) -> Result<(), NewError> {
    let tasks = second_reader(rt.alloc())?;
    let one = Sizes::One(Watched::new());
    assert!(&rt; explore_sized(rt.alloc(), one, &tasks)? == Verdict::AllEnd(3));
    let two = Sizes::Two(Watched::new());
    let schedule = schedule(rt.alloc(), &[0, 0, 0])?;
    assert!(&rt; explore_sized(rt.alloc(), two, &tasks)? == Verdict::Stalls(schedule));
    Ok(())
}
