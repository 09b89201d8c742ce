//! Two tasks over one channel: the first awaits a message, the second sends it.
use embassy_sync::channel::ChannelState;
use embassy_sync::executor::{Act, Executor, NewError, Outcome};
use embassy_sync::run::channel::{
    ChannelAsk, ChannelCall, ChannelCommand, ChannelHeard, ChannelRun,
};
use embassy_sync::run::primitive::{Answer, Command};
use embassy_sync::run::requests::Requests;
use embassy_sync::waitqueue::TaskId;
use std::alloc::{AllocError, Global};
use std::io;

type Tasks = Executor<ChannelRun<u32, TaskId, 1, 16, 1>>;

type Task = Vec<Act<ChannelAsk<u32>, ChannelCommand<u32, TaskId>>>;

// Task 0 awaits a message under the request's number 0, and task 1 sends one.
fn tasks(alloc: Global) -> Result<Vec<Task>, AllocError> {
    let receives = vec![in alloc; Act::Await(0, ChannelAsk::Receive)]?;
    let sends = vec![in alloc; Act::Call(Command::Call(ChannelCall::TrySend(7)))]?;
    Ok(vec![in alloc; receives, sends]?)
}

// Returns how the tasks end, with the executor that ran them, or the error that refuses them.
fn run_tasks(alloc: Global, turns: usize) -> Result<(Outcome, Tasks), NewError> {
    let channel = Requests::new(ChannelState::new());
    let mut executor = Executor::new(alloc, channel, tasks(alloc)?)?;
    Ok((executor.run(turns), executor))
}

// Returns the message that the task has received, if any.
fn received(executor: &Tasks, task: usize) -> Option<u32> {
    match executor.heard(task)?.last()?.answer {
        Answer::Gives(ChannelHeard::Received(message)) => Some(message),
        _ => None,
    }
}

// Runs the tasks for so many turns, and prints how they ended and what they received.
fn print_run(rt: &impl Print, alloc: Global, turns: usize) -> io::Result<()> {
    let (ended, executor) = match run_tasks(alloc, turns) {
        Ok(ran) => ran,
        Err(error) => return println!(rt; "{turns} turns: {error}"),
    };
    println!(rt; "{turns} turns: {ended:?}")?;
    for task in 0..2 {
        let message = received(&executor, task);
        println!(rt; "task {task} has received {message:?}")?;
    }
    Ok(())
}

pub fn example(rt: &impl Print, alloc: Global) -> io::Result<()> {
    print_run(rt, alloc, 10)?;
    print_run(rt, alloc, 2)
}
