//! Turns of the executor, over a channel of one message. A pass is a million turns of a new executor.
ghost use Rattle.esync_history.specs.Turns.{Tells};

use anyhow::bail;
use esync_base::waitqueue::TaskId;
use esync_channel::channel::ChannelState;
use esync_channel::channel::machine::{ChannelAsk, ChannelCall, ChannelCommand, ChannelRun};
use esync_history::executor::{Act, Executor, Outcome};
use esync_machine::primitive::Command;
use esync_machine::requests::Requests;
use std::alloc::{AllocError, Global};
use std::time::{Clock, Duration, Instant};

/// How many turns a pass takes at most.
const TURNS: usize = 1_000_000;

type Channel = ChannelRun<u32, TaskId, 1, 2, 1>;

type Acts = Vec<Act<ChannelAsk<u32>, ChannelCommand<u32, TaskId>>>;

// What the two tasks do.
#[derive(Clone, Copy)]
enum Case {
    /// One sends and the other receives, a message after another. Each turn is a call, and its task goes to the back of the queue.
    Calls,
    /// Both wait for a message that never comes. Each turn is a poll that wakes the other task, whose waker it displaces.
    Waits,
}

impl Case {
    fn named(name: &str) -> Option<Case> {
        match name {
            "calls" => Some(Case::Calls),
            "waits" => Some(Case::Waits),
            _ => None,
        }
    }

    // The acts of each task.
    fn tasks(self, alloc: Global) -> Result<Vec<Acts>, AllocError> {
        match self {
            Case::Calls => {
                let half = TURNS / 2;
                let sends = vec![in alloc; Act::Call(Command::Call(ChannelCall::TrySend(
                    7
                ))); half]?;
                let receives = vec![in alloc; Act::Call(Command::Call(
                    ChannelCall::TryReceive
                )); half]?;
                Ok(vec![in alloc; sends, receives]?)
            }
            Case::Waits => {
                let one = vec![in alloc; Act::Await(0, ChannelAsk::Receive)]?;
                let other = vec![in alloc; Act::Await(1, ChannelAsk::Receive)]?;
                Ok(vec![in alloc; one, other]?)
            }
        }
    }
}

// A channel that holds nothing.
fn channel() -> Channel {
    Requests::new(ChannelState::new())
}

// Takes the turns of a pass. Says whether all tasks have ended then, or which of them still can go on.
#[inline(never)]
fn take_turns(executor: &mut Executor<Channel>) -> Outcome
    ensures { Tells result executor.new }
{
    executor.run(TURNS)
}

// How the last pass ended, and how long the fastest one took, without the time in which its executor was made.
fn fastest<R: Clock>(
    rt: &R,
    alloc: Global,
    case: Case,
    passes: u32,
) -> anyhow::Result<(Outcome, Duration)> {
    let mut outcome = Outcome::Limit;
    let mut fastest = Duration::MAX;
    for _ in 0..passes {
        let Ok(mut executor) = Executor::new(alloc, channel(), case.tasks(alloc)?) else {
            bail!("there is no memory for the tasks");
        };
        let start = Instant::now(rt)?;
        outcome = take_turns(&mut executor);
        fastest = fastest.min(start.elapsed(rt)?);
    }
    Ok((outcome, fastest))
}

/// The names of the cases.
pub const CASES: [&str; 2] = ["calls", "waits"];

/// Prints the case of this name, and how its last pass ended. Whether there is one.
pub fn print<R: Print + Clock>(
    rt: &R,
    alloc: Global,
    name: &str,
    passes: u32,
    is_timed: bool,
) -> anyhow::Result<bool> {
    let Some(case) = Case::named(name) else {
        return Ok(false);
    };
    let (outcome, fastest) = fastest(rt, alloc, case, passes)?;
    if is_timed {
        println!(rt; "{name} {outcome:?} {}", fastest.as_nanos())?;
    } else {
        println!(rt; "{name} {outcome:?}")?;
    }
    Ok(true)
}
