//! Tasks that choose what they do next by what they hear, and tasks that go round a loop for ever.

use crate::schedule;
use esync_base::waitqueue::TaskId;
use esync_channel::channel::ChannelState;
use esync_channel::channel::machine::{
    ChannelAsk, ChannelCall, ChannelCommand, ChannelHeard, ChannelRun,
};
use esync_compared::channel::ChannelStates;
use esync_history::executor::{Act, NewError, Outcome};
use esync_machine::primitive::{Answer, Command};
use esync_machine::requests::Requests;
use esync_machine::run::Reply;
use esync_systems::compare::ComparesRequests;
use esync_systems::executor::PlanExecutor;
use esync_systems::explore::{Verdict, explore_determined};
use esync_systems::plan::{InOrder, Loop, Loops, Plan, Thinks};
use std::alloc::{AllocError, Global};

type Channel = ChannelRun<u64, TaskId, 2, 4, 1>;

type Heard = Reply<Answer<ChannelHeard<u64>>, TaskId, 1>;

type OneAct = Act<ChannelAsk<u64>, ChannelCommand<u64, TaskId>>;

const CHANNEL: ComparesRequests<ChannelStates> = ComparesRequests {
    states: ChannelStates {},
};

// A receiver that receives until it hears a zero.
#[derive(Drop)]
struct UntilZero;

impl Thinks<Heard> for UntilZero {
    ghost use Rattle.std.specs.Prelude.{false};
    ghost use Rattle.test_systems.specs.Thinking.{until_zero};

    ghost next = { λ _ task behind reply. until_zero reply.answer behind };

    ghost rests = { λ _ task place waits. false };

    fn next(&self, _task: usize, behind: usize, reply: &Heard) -> usize {
        match reply.answer {
            Answer::Gives(ChannelHeard::Received(message)) if message > 0 => 0,
            _ => behind,
        }
    }

    fn rests(&self, _task: usize, _place: usize, _waits: bool) -> bool {
        false
    }
}

// A sender that sends until the channel is full.
#[derive(Drop)]
struct UntilFull;

impl Thinks<Heard> for UntilFull {
    ghost use Rattle.std.specs.Prelude.{false};
    ghost use Rattle.test_systems.specs.Thinking.{until_full};

    ghost next = { λ _ task behind reply. until_full reply.answer behind };

    ghost rests = { λ _ task place waits. false };

    fn next(&self, _task: usize, behind: usize, reply: &Heard) -> usize {
        match reply.answer {
            Answer::Gives(ChannelHeard::TrySent(Ok(()))) => 0,
            _ => behind,
        }
    }

    fn rests(&self, _task: usize, _place: usize, _waits: bool) -> bool {
        false
    }
}

// A task that sends two messages, and one that receives one.
fn two_messages(alloc: Global, last: u64) -> Result<Vec<Vec<OneAct>>, AllocError> {
    let sends = vec![in alloc;
        Act::Await(0, ChannelAsk::Send(5)),
        Act::Await(0, ChannelAsk::Send(last)),
    ]?;
    let receives = vec![in alloc; Act::Await(1, ChannelAsk::Receive)]?;
    Ok(vec![in alloc; sends, receives]?)
}

// A task that sends three messages, and one that receives a message and sends one.
fn sends_on(alloc: Global) -> Result<Vec<Vec<OneAct>>, AllocError> {
    let sends = vec![in alloc;
        Act::Await(0, ChannelAsk::Send(5)),
        Act::Await(0, ChannelAsk::Send(5)),
        Act::Await(0, ChannelAsk::Send(5)),
    ]?;
    let serves = vec![in alloc;
        Act::Await(1, ChannelAsk::Receive),
        Act::Await(1, ChannelAsk::Send(6)),
    ]?;
    Ok(vec![in alloc; sends, serves]?)
}

// A task that tries to send, and one that tries to receive.
fn two_tries(alloc: Global) -> Result<Vec<Vec<OneAct>>, AllocError> {
    let sends = vec![in alloc; Act::Call(Command::Call(ChannelCall::TrySend(1)))]?;
    let receives = vec![in alloc; Act::Call(Command::Call(ChannelCall::TryReceive))]?;
    Ok(vec![in alloc; sends, receives]?)
}

fn explore<T: Thinks<Heard> + Drop>(
    alloc: Global,
    tasks: &[Vec<OneAct>],
    priorities: &[Option<u8>],
    thinks: T,
    limit: usize,
) -> Result<Verdict, NewError> {
    let plan = Plan {
        program: tasks,
        priorities,
        thinks,
    };
    let channel: Channel = Requests::new(ChannelState::new());
    explore_determined(alloc, &CHANNEL, channel, &plan, limit)
}

// Takes so many turns and one more, and returns how that ends, and whose turns the first ones were.
fn run<T: Thinks<Heard> + Drop>(
    alloc: Global,
    tasks: &[Vec<OneAct>],
    thinks: T,
    limit: usize,
) -> Result<(Outcome, Vec<usize>), NewError> {
    let plan = Plan {
        program: tasks,
        priorities: &[],
        thinks,
    };
    let channel: Channel = Requests::new(ChannelState::new());
    let mut executor = PlanExecutor::new(alloc, channel, &plan)?;
    let mut turns = Vec::new(alloc);
    for _turn in 0..limit {
        if let Some(turned) = executor.turn() {
            turns.push(turned.task).map_err(AllocError::from)?;
        }
    }
    Ok((executor.run(1), turns))
}

#[test]
fn a_receiver_that_waits_for_a_zero_ends(rt: HostRuntime) -> Result<(), NewError> {
    let tasks = two_messages(rt.alloc(), 0)?;
    let found = explore(rt.alloc(), &tasks, &[], UntilZero {}, 10)?;
    assert!(&rt; found == Verdict::TooMany(10));
    let found = explore(rt.alloc(), &tasks, &[], UntilZero {}, 11)?;
    assert!(&rt; found == Verdict::AllEnd(6));
    Ok(())
}

#[test]
fn tasks_take_turns_round_and_round(rt: HostRuntime) -> Result<(), NewError> {
    let tasks = two_messages(rt.alloc(), 0)?;
    let (outcome, turns) = run(rt.alloc(), &tasks, UntilZero {}, 3)?;
    assert!(&rt; outcome == Outcome::Done);
    assert!(&rt; turns == schedule(rt.alloc(), &[0, 1, 0])?);
    let (outcome, turns) = run(rt.alloc(), &tasks, UntilZero {}, 2)?;
    assert!(&rt; outcome == Outcome::Limit);
    assert!(&rt; turns == schedule(rt.alloc(), &[0, 1])?);
    Ok(())
}

#[test]
fn a_receiver_that_hears_no_zero_stalls(rt: HostRuntime) -> Result<(), NewError> {
    let tasks = two_messages(rt.alloc(), 5)?;
    let (outcome, turns) = run(rt.alloc(), &tasks, UntilZero {}, 10)?;
    assert!(&rt; outcome == Outcome::Stalled);
    assert!(&rt; turns == schedule(rt.alloc(), &[0, 1, 0, 1, 1])?);
    Ok(())
}

#[test]
fn a_receiver_that_hears_no_zero_waits(rt: HostRuntime) -> Result<(), NewError> {
    let tasks = two_messages(rt.alloc(), 5)?;
    let found = explore(rt.alloc(), &tasks, &[], UntilZero {}, 100)?;
    let stall = schedule(rt.alloc(), &[0, 0, 1, 1, 1])?;
    assert!(&rt; found == Verdict::Stalls(stall));
    let found = explore(rt.alloc(), &tasks, &[], InOrder {}, 8)?;
    assert!(&rt; found == Verdict::AllEnd(4));
    Ok(())
}

// (a task that begins its first act again is running, so the other one takes no turn in between)
#[test]
fn a_task_that_begins_again_keeps_its_executor(rt: HostRuntime) -> Result<(), NewError> {
    let tasks = two_tries(rt.alloc())?;
    let one = [Some(0), Some(0)];
    let found = explore(rt.alloc(), &tasks, &one, UntilFull {}, 8)?;
    assert!(&rt; found == Verdict::TooMany(8));
    let found = explore(rt.alloc(), &tasks, &one, UntilFull {}, 9)?;
    assert!(&rt; found == Verdict::AllEnd(4));
    let found = explore(rt.alloc(), &tasks, &[], UntilFull {}, 10)?;
    assert!(&rt; found == Verdict::AllEnd(5));
    Ok(())
}

#[test]
fn a_server_may_wait_for_ever_where_its_loop_begins(rt: HostRuntime) -> Result<(), NewError> {
    let tasks = two_messages(rt.alloc(), 5)?;
    let whole = [
        None,
        Some(Loop {
            head: 0,
            end: 1,
            waits: true,
        }),
    ];
    let serves = Loops { loops: &whole };
    let found = explore(rt.alloc(), &tasks, &[], serves, 11)?;
    assert!(&rt; found == Verdict::TooMany(11));
    let found = explore(rt.alloc(), &tasks, &[], serves, 12)?;
    assert!(&rt; found == Verdict::AllEnd(7));
    Ok(())
}

// (the server sends what nobody receives)
#[test]
fn a_server_may_not_wait_elsewhere(rt: HostRuntime) -> Result<(), NewError> {
    let tasks = sends_on(rt.alloc())?;
    let whole = [
        None,
        Some(Loop {
            head: 0,
            end: 2,
            waits: true,
        }),
    ];
    let found = explore(rt.alloc(), &tasks, &[], Loops { loops: &whole }, 100)?;
    let stall = schedule(rt.alloc(), &[0, 0, 1, 0, 1])?;
    assert!(&rt; found == Verdict::Stalls(stall));
    Ok(())
}

#[test]
fn a_server_that_may_not_wait_where_its_loop_begins_stalls(
    rt: HostRuntime,
) -> Result<(), NewError> {
    let tasks = two_messages(rt.alloc(), 5)?;
    let whole = [
        None,
        Some(Loop {
            head: 0,
            end: 1,
            waits: false,
        }),
    ];
    let found = explore(rt.alloc(), &tasks, &[], Loops { loops: &whole }, 100)?;
    let stall = schedule(rt.alloc(), &[0, 0, 1, 1, 1])?;
    assert!(&rt; found == Verdict::Stalls(stall));
    Ok(())
}

// (it is where it may stay before it waits there, but has a turn until it does)
#[test]
fn an_executor_is_done_once_the_server_waits(rt: HostRuntime) -> Result<(), NewError> {
    let tasks = two_messages(rt.alloc(), 5)?;
    let whole = [
        None,
        Some(Loop {
            head: 0,
            end: 1,
            waits: true,
        }),
    ];
    let serves = Loops { loops: &whole };
    let (outcome, turns) = run(rt.alloc(), &tasks, serves, 3)?;
    assert!(&rt; outcome == Outcome::Limit);
    assert!(&rt; turns == schedule(rt.alloc(), &[0, 1, 0])?);
    let (outcome, _) = run(rt.alloc(), &tasks, serves, 4)?;
    assert!(&rt; outcome == Outcome::Done);
    Ok(())
}
