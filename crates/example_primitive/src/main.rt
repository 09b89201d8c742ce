//! A primitive of one's own. Its state and its calls stand in `post_box.rt`, its object, its rules and its table of
//! wakes in `specs/PostBox.antt`. What it gets for them: requests with numbers, whole runs with the laws of wakes, the
//! executor.
#![tactic(auto)]

use crate::post_box::{NextMessage, PostBox, PostCall, PostRun, run_post};
use embassy_sync::executor::{Act, Executor};
use embassy_sync::run::primitive::Command;
use embassy_sync::run::requests::Requests;
use embassy_sync::waitqueue::TaskId;
use std::alloc::{AllocError, Global};
use std::io;

mod post_box;

// A subscriber joins and waits twice; a message comes; the subscriber leaves, which ends the request that still waits.
fn commands(alloc: Global) -> Result<Vec<Command<NextMessage, u64, PostCall>>, AllocError> {
    Ok(vec![in alloc;
        Command::Start(0, NextMessage {}),
        Command::Call(PostCall::Join),
        Command::Start(0, NextMessage {}),
        Command::Start(1, NextMessage {}),
        Command::Poll(0, 7),
        Command::Poll(1, 8),
        Command::Call(PostCall::Post(5)),
        Command::Poll(1, 8),
        Command::Poll(0, 7),
        Command::Call(PostCall::Leave),
        Command::Poll(0, 7),
    ]?)
}

// Prints each command with its reply.
fn print_replies(rt: &impl Print, alloc: Global) -> anyhow::Result<()> {
    let mut machine: PostRun<u64> = Requests::new(PostBox::new());
    let replies = run_post(alloc, &mut machine, commands(alloc)?)?;
    for (command, reply) in commands(alloc)?.iter().zip(replies.iter()) {
        println!(rt;
            "{command:?}: {:?}, to wake {:?}",
            reply.answer, reply.wakes
        )?;
    }
    Ok(())
}

type Task = Vec<Act<NextMessage, Command<NextMessage, TaskId, PostCall>>>;

// The first task joins and awaits a message, the second task posts it.
fn tasks(alloc: Global) -> Result<Vec<Task>, AllocError> {
    let reads = vec![in alloc;
        Act::Call(Command::Call(PostCall::Join)),
        Act::Await(0, NextMessage {}),
    ]?;
    let posts = vec![in alloc; Act::Call(Command::Call(PostCall::Post(9)))]?;
    Ok(vec![in alloc; reads, posts]?)
}

fn print_tasks(rt: &impl Print, alloc: Global) -> anyhow::Result<()> {
    let post_box: PostRun<TaskId> = Requests::new(PostBox::new());
    let mut executor = Executor::new(alloc, post_box, tasks(alloc)?)?;
    println!(rt; "{:?}", executor.run(10))?;
    if let Some(heard) = executor.heard(0) {
        if let Some(last) = heard.last() {
            println!(rt; "the first task has heard {:?}", last.answer)?;
        }
    }
    Ok(())
}

fn main(rt: HostRuntime) -> anyhow::Result<()> {
    print_replies(&rt, rt.alloc())?;
    print_tasks(&rt, rt.alloc())
}
