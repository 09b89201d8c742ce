use crate::wakers::are;
use esync_machine::primitive::{Answer, Command};
use esync_machine::requests::Requests;
use esync_permits::semaphore::machine::fair::{FairRun, run_fair};
use esync_permits::semaphore::machine::greedy::{GreedyRun, run_greedy};
use esync_permits::semaphore::machine::{PermitCall, PermitHeard};
use esync_permits::semaphore::{Amount, FairState, GreedyState};
use std::alloc::AllocError;

#[test]
fn a_run_of_a_fair_semaphore(rt: HostRuntime) -> Result<(), AllocError> {
    let commands = Vec::from_array(
        rt.alloc(),
        [
            Command::Start(0, Amount::Exactly(2)),
            Command::Poll(0, 7),
            Command::Call(PermitCall::Release(2)),
            Command::Poll(0, 7),
        ],
    )?;
    let mut machine: FairRun<u64, 2, 16, 1> = Requests::new(FairState::new(0));
    let replies = run_fair(rt.alloc(), &mut machine, commands);
    let want = [
        (Answer::Done, None),
        (Answer::Pending, None),
        (Answer::Done, Some(7)),
        (Answer::Gives(PermitHeard::Granted(Ok(2))), None),
    ];
    are(&rt, replies, &want)
}

#[test]
fn a_run_of_a_greedy_semaphore(rt: HostRuntime) -> Result<(), AllocError> {
    let commands = Vec::from_array(
        rt.alloc(),
        [
            Command::Start(0, Amount::Exactly(2)),
            Command::Poll(0, 7),
            Command::Call(PermitCall::Release(2)),
            Command::Poll(0, 7),
        ],
    )?;
    let mut machine: GreedyRun<u64, 16, 1> = Requests::new(GreedyState::new(0));
    let replies = run_greedy(rt.alloc(), &mut machine, commands);
    let want = [
        (Answer::Done, None),
        (Answer::Pending, None),
        (Answer::Done, Some(7)),
        (Answer::Gives(PermitHeard::Granted(2)), None),
    ];
    are(&rt, replies, &want)
}
