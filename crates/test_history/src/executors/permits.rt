use super::runs::{Turns, plays, told};
use esync_base::waitqueue::TaskId;
use esync_history::executor::{Act, NewError, Outcome};
use esync_permits::semaphore::machine::fair::{FairCommand, FairHeard, FairRun};
use esync_permits::semaphore::machine::greedy::{GreedyHeard, GreedyRun};
use esync_permits::semaphore::machine::{PermitCall, PermitHeard};
use esync_permits::semaphore::{Amount, FairState, GreedyState};
use esync_run::primitive::{Answer, Command};
use esync_run::requests::Requests;
use std::alloc::Global;
use std::process::Abort;

type PermitAct = Act<Amount, FairCommand<TaskId>>;

// Runs these tasks over a fair semaphore of two places without permits. Then so many permits are left.
fn plays_fair(
    rt: &impl Abort,
    alloc: Global,
    tasks: &[&[PermitAct]],
    turns: &[Turns<'_, FairHeard>],
    left: usize,
) -> Result<(), NewError> {
    let semaphore: FairRun<TaskId, 2, 3, 1> = Requests::new(FairState::new(0));
    let count = Answer::Gives(PermitHeard::Count(left));
    let look = (PermitCall::Permits, told(count));
    plays(rt, alloc, semaphore, &[], tasks, turns, look)
}

// Runs these tasks over a greedy semaphore without permits. Then no permit is left.
fn plays_greedy(
    rt: &impl Abort,
    alloc: Global,
    tasks: &[&[PermitAct]],
    turns: &[Turns<'_, GreedyHeard>],
) -> Result<(), NewError> {
    let semaphore: GreedyRun<TaskId, 2, 1> = Requests::new(GreedyState::new(0));
    let look = (
        PermitCall::Permits,
        told(Answer::Gives(PermitHeard::Count(0))),
    );
    plays(rt, alloc, semaphore, &[], tasks, turns, look)
}

const ENDS_THE_SECOND: &[&[PermitAct]] = &[
    &[Act::Await(0, Amount::Exactly(1))],
    &[Act::Await(1, Amount::Exactly(1))],
    &[
        Act::Call(Command::End(1)),
        Act::Await(2, Amount::Exactly(1)),
    ],
    &[Act::Call(Command::Call(PermitCall::Release(2)))],
];

// A request that ends gives its place to another, and two permits are released, which the others take.
#[test]
fn a_place_is_free_after_an_end(rt: HostRuntime) -> Result<(), NewError> {
    let turns = [(6, Outcome::Limit, None), (1, Outcome::Stalled, None)];
    plays_fair(&rt, rt.alloc(), ENDS_THE_SECOND, &turns, 0)
}

// One task waits for two permits, the next for one, and the last releases three.
const RELEASES_THREE: &[&[PermitAct]] = &[
    &[Act::Await(0, Amount::Exactly(2))],
    &[Act::Await(1, Amount::Exactly(1))],
    &[Act::Call(Command::Call(PermitCall::Release(3)))],
];

// The same, and the last releases one.
const RELEASES_ONE: &[&[PermitAct]] = &[
    &[Act::Await(0, Amount::Exactly(2))],
    &[Act::Await(1, Amount::Exactly(1))],
    &[Act::Call(Command::Call(PermitCall::Release(1)))],
];

#[test]
fn a_greedy_semaphore_grants_the_small_request(rt: HostRuntime) -> Result<(), NewError> {
    let three = [(4, Outcome::Limit, None), (1, Outcome::Done, None)];
    plays_greedy(&rt, rt.alloc(), RELEASES_THREE, &three)?;
    let one = [(4, Outcome::Limit, None), (1, Outcome::Stalled, None)];
    plays_greedy(&rt, rt.alloc(), RELEASES_ONE, &one)
}

#[test]
fn a_fair_semaphore_keeps_the_permit_for_the_large_request(
    rt: HostRuntime,
) -> Result<(), NewError> {
    let three = [(4, Outcome::Limit, None), (1, Outcome::Done, None)];
    plays_fair(&rt, rt.alloc(), RELEASES_THREE, &three, 0)?;
    let one = [(3, Outcome::Limit, None), (1, Outcome::Stalled, None)];
    plays_fair(&rt, rt.alloc(), RELEASES_ONE, &one, 1)
}
