//! Runs of an executor over any machine.
//!
//! A test makes its machine and calls [`plays`], which is generic in the primitive: so what the type of its machine says is stated once
//! in the test, and not at each call.
use esync_base::waitqueue::{TaskId, Wakes};
use esync_history::executor::{Act, Executor, NewError, Outcome};
use esync_machine::run::{Awaits, Reply};
use esync_notes::{holds, same};
use esync_run::primitive::{Answer, Command, Primitive};
use esync_run::requests::Requests;
use std::alloc::{AllocError, Global};
use std::process::Abort;

/// At most how many turns a run takes, how it ends, and what the tasks have heard then, where that is looked at.
pub type Turns<'a, H> = (usize, Outcome, Option<&'a [&'a [Answer<H>]]>);

// The replies give these answers, in order.
fn gives<H: Eq, const K: usize>(
    replies: &[Reply<Answer<H>, TaskId, K>],
    answers: &[Answer<H>],
) -> bool {
    if replies.len() != answers.len() {
        return false;
    }
    for (reply, answer) in replies.iter().zip(answers) {
        if reply.answer != *answer {
            return false;
        }
    }
    true
}

// What the tasks have heard, in their order, is this.
fn are<H: Eq, const K: usize>(
    heard: &[Vec<Reply<Answer<H>, TaskId, K>>],
    answers: &[&[Answer<H>]],
) -> bool {
    if heard.len() != answers.len() {
        return false;
    }
    for (replies, answers) in heard.iter().zip(answers) {
        if !gives(replies, answers) {
            return false;
        }
    }
    true
}

// The tasks that do these acts, as an executor takes them.
fn tasks_of<A: Copy, C: Copy>(
    alloc: Global,
    tasks: &[&[Act<A, C>]],
) -> Result<Vec<Vec<Act<A, C>>>, AllocError> {
    let mut all = Vec::with_capacity(alloc, tasks.len())?;
    for acts in tasks {
        let mut own = Vec::with_capacity(alloc, acts.len())?;
        own.extend_from_slice(acts)?;
        all.push(own)?;
    }
    Ok(all)
}

// The tasks have heard this, and there are no others.
fn have_heard<M, H: Eq, const K: usize>(
    rt: &impl Abort,
    executor: &Executor<M>,
    heard: &[&[Answer<H>]],
)
where
    M: Awaits<Waker = TaskId, Reply = Reply<Answer<H>, TaskId, K>> + Drop,
    M::Ask: Drop,
    M::Command: Drop,
    H: Drop,
{
    for (task, answers) in heard.iter().enumerate() {
        holds!(rt; executor.heard(task).is_some_and(|replies| gives(replies, answers)));
    }
    holds!(rt; executor.heard(heard.len()).is_none());
    holds!(rt; executor.heard(usize::MAX).is_none());
}

// The machine of the executor, whose tasks have heard this, where that is looked at.
fn machine_of<M, H: Eq, const K: usize>(
    rt: &impl Abort,
    executor: Executor<M>,
    answers: Option<&[&[Answer<H>]]>,
) -> M
where
    M: Awaits<Waker = TaskId, Reply = Reply<Answer<H>, TaskId, K>> + Drop,
    M::Ask: Drop,
    M::Command: Drop,
    H: Drop,
{
    let Some(answers) = answers else {
        let _machine = executor.machine();
        return executor.into_machine();
    };
    let (machine, heard) = executor.into_parts();
    holds!(rt; are(&heard, answers));
    machine
}

// Gives these commands to the machine, and runs these tasks over it: each run ends so. Then the machine replies to the command so.
fn runs<M, H: Eq, const K: usize>(
    rt: &impl Abort,
    alloc: Global,
    machine: M,
    before: &[M::Command],
    tasks: &[&[Act<M::Ask, M::Command>]],
    turns: &[Turns<'_, H>],
    look: (M::Command, Reply<Answer<H>, TaskId, K>),
) -> Result<(), NewError>
where
    M: Awaits<Waker = TaskId, Reply = Reply<Answer<H>, TaskId, K>> + Drop,
    M::Ask: Copy,
    M::Command: Copy,
    H: Drop,
{
    let mut machine = machine;
    for command in before {
        machine.step(*command);
    }
    let mut executor = Executor::new(alloc, machine, tasks_of(alloc, tasks)?)?;
    let mut last = None;
    for (limit, outcome, heard) in turns {
        same!(rt; executor.run(*limit), *outcome);
        if let Some(heard) = *heard {
            have_heard(rt, &executor, heard);
        }
        last = *heard;
    }
    let mut machine = machine_of(rt, executor, last);
    holds!(rt; machine.step(look.0) == look.1);
    Ok(())
}

/// Gives these commands to the machine, and runs these tasks over it: each run, of so many turns at most, ends so. Then the machine
/// replies to the call so.
pub fn plays<P: Primitive<K, Waker = TaskId> + Drop, const REQS: usize, const K: usize>(
    rt: &impl Abort,
    alloc: Global,
    machine: Requests<P, REQS, K>,
    before: &[Command<P::Ask, TaskId, P::Call>],
    tasks: &[&[Act<P::Ask, Command<P::Ask, TaskId, P::Call>>]],
    turns: &[Turns<'_, P::Heard>],
    look: (P::Call, Reply<Answer<P::Heard>, TaskId, K>),
) -> Result<(), NewError>
where
    P::Ask: Copy,
    P::Call: Copy,
    P::Heard: Eq + Drop,
{
    let look = (Command::Call(look.0), look.1);
    runs(rt, alloc, machine, before, tasks, turns, look)
}

/// What a machine replies that hands out nothing.
pub fn told<H, const K: usize>(answer: Answer<H>) -> Reply<Answer<H>, TaskId, K> {
    Reply {
        answer,
        wakes: Wakes::new(),
    }
}
