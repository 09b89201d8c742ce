//! A receiver that ends once it receives a zero: a task that thinks, under every schedule and on an executor.
ghost use Rattle.std.specs.Prelude.{◌≡◌, ℕ, Ok};
ghost use Rattle.esync_systems.specs.Schedules.{opened, EveryScheduleEnds};
ghost use Rattle.example_system.specs.Receiver.{receiving};

use crate::{Channel, ChannelAct};
use esync_base::waitqueue::TaskId;
use esync_channel::channel::ChannelState;
use esync_channel::channel::machine::{ChannelAsk, ChannelHeard};
use esync_compared::channel::ChannelStates;
use esync_history::executor::{Act, NewError, Outcome};
use esync_machine::primitive::Answer;
use esync_machine::requests::Requests;
use esync_machine::run::{Awaits, Machine, Reply};
use esync_systems::compare::ComparesRequests;
use esync_systems::executor::PlanExecutor;
use esync_systems::explore::{Verdict, explore_determined};
use esync_systems::plan::{Plan, Thinks};
use std::alloc::{AllocError, Global};

type Heard = Reply<Answer<ChannelHeard<u64>>, TaskId, 1>;

#[derive(Drop)]
struct UntilZero;

impl Thinks<Heard> for UntilZero {
    ghost use Rattle.std.specs.Prelude.{false};
    ghost use Rattle.example_system.specs.Receiver.{until_zero};

    ghost next = { λ _ task behind reply. until_zero reply.answer behind };

    ghost rests = { λ _ task place waits. false };

    fn next(&self, _task: usize, behind: usize, reply: &Heard) -> usize {
        match reply.answer {
            Answer::Gives(ChannelHeard::Received(message)) if message > 0 => 0,
            _ => behind,
        }
    }

    fn rests(&self, _task: usize, _place: usize, _waits: bool) -> bool {
        false
    }
}

// A task that sends two messages, and one that receives.
fn tasks(alloc: Global, last: u64) -> Result<Vec<Vec<ChannelAct>>, AllocError> {
    let sends = vec![in alloc;
        Act::Await(0, ChannelAsk::Send(7)),
        Act::Await(0, ChannelAsk::Send(last)),
    ]?;
    let receives = vec![in alloc; Act::Await(1, ChannelAsk::Receive)]?;
    Ok(vec![in alloc; sends, receives]?)
}

// What a step of a channel answers and leaves is determined, so what is found holds of every schedule.
fn explore_receiver(
    alloc: Global,
    channel: Channel,
    tasks: &[Vec<ChannelAct>],
) -> Result<Verdict, NewError>
    ensures { (turns : ℕ) → result ≡ Ok (Verdict.AllEnd turns) → EveryScheduleEnds ⟦<Channel as Machine>⟧.semantics.meaning ⟦<Channel as Awaits>⟧.starting turns (opened ⟦<Channel as Machine>⟧.semantics channel (receiving tasks.now)) }
{
    let compares = ComparesRequests {
        states: ChannelStates {},
    };
    let plan = Plan {
        program: tasks,
        priorities: &[],
        thinks: UntilZero {},
    };
    explore_determined(alloc, &compares, channel, &plan, 1000)
}

/// Tells what is true of every schedule, if the last of two messages is this.
pub fn explore(alloc: Global, last: u64) -> Result<Verdict, NewError> {
    explore_receiver(
        alloc,
        Requests::new(ChannelState::new()),
        &tasks(alloc, last)?,
    )
}

/// Runs the two tasks on an executor, and returns how they end.
pub fn run(alloc: Global, last: u64) -> Result<Outcome, NewError> {
    let tasks = tasks(alloc, last)?;
    let plan = Plan {
        program: &tasks,
        priorities: &[],
        thinks: UntilZero {},
    };
    let channel: Channel = Requests::new(ChannelState::new());
    let mut executor = PlanExecutor::new(alloc, channel, &plan)?;
    Ok(executor.run(100))
}
