//! Publishers and subscribers of a pub-sub channel.

use crate::schedule;
use esync_base::kept::Kept;
use esync_base::waitqueue::TaskId;
use esync_compared::pubsub::PubSubStates;
use esync_history::executor::{Act, NewError};
use esync_machine::primitive::{Answer, Command, Primitive};
use esync_machine::requests::Requests;
use esync_machine::run::{Machine, Reply};
use esync_pubsub::pubsub::machine::{Events, PubSubAsk, PubSubCall, PubSubCommand, PubSubRun};
use esync_systems::compare::{ComparesRequests, ComparesStates};
use esync_systems::determined::ProvesFunctional;
use esync_systems::explore::{Verdict, explore_determined};
use esync_systems::plan::Plan;
use std::alloc::{AllocError, Global};

// A channel of one message, with places for two subscribers and one publisher.
type Topic = PubSubRun<u64, TaskId, 1, 2, 1, 2, 3, 2>;

type TopicCommand = PubSubCommand<u64, TaskId>;

type TopicAct = Act<PubSubAsk<u64>, TopicCommand>;

const TOPICS: ComparesRequests<PubSubStates> = ComparesRequests {
    states: PubSubStates {},
};

const JOINS: TopicCommand = Command::Call(PubSubCall::Join(0));

const ANOTHER_JOINS: TopicCommand = Command::Call(PubSubCall::Join(1));

const PUBLISHER: TopicCommand = Command::Call(PubSubCall::Publisher(0));

const LEAVES: TopicAct = Act::Call(Command::Call(PubSubCall::Leave(1)));

const READS: TopicAct = Act::Await(0, PubSubAsk::Message(0));

const ANOTHER_READS: TopicAct = Act::Await(1, PubSubAsk::Message(1));

const PUBLISHES: TopicAct = Act::Await(2, PubSubAsk::Publish(0, 7));

fn tasks_of(alloc: Global, tasks: &[&[TopicAct]]) -> Result<Vec<Vec<TopicAct>>, AllocError> {
    let mut all = Vec::with_capacity(alloc, tasks.len())?;
    for acts in tasks {
        all.push(Vec::from_slice(alloc, acts)?)?;
    }
    Ok(all)
}

fn after<M: Machine + Drop>(machine: M, commands: &[M::Command]) -> M
where
    M::Command: Copy,
    M::Reply: Drop,
{
    let mut machine = machine;
    for command in commands {
        machine.step(*command);
    }
    machine
}

// Explores these tasks after these commands. It is generic in the primitive: a proof over a pub-sub channel spelled out takes more
// steps than the checker allows. That a reply fits in memory is known since the signature names it.
fn explores<P, C, const REQS: usize, const K: usize>(
    alloc: Global,
    compares: &ComparesRequests<C>,
    machine: Requests<P, REQS, K>,
    before: &[Command<P::Ask, TaskId, P::Call>],
    tasks: &[Vec<Act<P::Ask, Command<P::Ask, TaskId, P::Call>>>],
    limit: usize,
    _reply: Option<&Reply<Answer<P::Heard>, TaskId, K>>,
) -> Result<Verdict, NewError>
where
    P: Primitive<K, Waker = TaskId> + Kept + Drop,
    P::Ask: Copy,
    P::Held: Copy,
    P::Call: Copy,
    P::Heard: Drop,
    C: ComparesStates<P, K> + ProvesFunctional<P, K>,
{
    let machine = after(machine, before);
    explore_determined(alloc, compares, machine, &Plan::in_order(tasks, &[]), limit)
}

fn explore_topic(
    alloc: Global,
    before: &[TopicCommand],
    tasks: &[&[TopicAct]],
    limit: usize,
) -> Result<Verdict, NewError> {
    let topic: Topic = Requests::new(Events::new_at(0));
    let tasks = tasks_of(alloc, tasks)?;
    explores(alloc, &TOPICS, topic, before, &tasks, limit, None)
}

#[test]
fn a_subscriber_that_joins_late_misses_the_message(rt: HostRuntime) -> Result<(), NewError> {
    let tasks: &[&[TopicAct]] = &[
        &[Act::Call(JOINS), READS],
        &[Act::Call(PUBLISHER), PUBLISHES],
    ];
    let schedule = schedule(rt.alloc(), &[1, 1, 0, 0])?;
    assert!(&rt; explore_topic(rt.alloc(), &[], tasks, 1000)? == Verdict::Stalls(schedule));
    Ok(())
}

// The second subscriber reads one message of three.
#[test]
fn a_subscriber_that_reads_no_more_holds_the_publisher_up(rt: HostRuntime) -> Result<(), NewError> {
    let before = &[JOINS, ANOTHER_JOINS, PUBLISHER];
    let tasks: &[&[TopicAct]] = &[
        &[READS, READS, READS],
        &[ANOTHER_READS],
        &[PUBLISHES, PUBLISHES, PUBLISHES],
    ];
    let schedule = schedule(rt.alloc(), &[2, 0, 1, 2, 0, 0, 2])?;
    assert!(&rt; explore_topic(rt.alloc(), before, tasks, 1000)? == Verdict::Stalls(schedule));
    Ok(())
}

#[test]
fn a_subscriber_that_leaves_makes_room(rt: HostRuntime) -> Result<(), NewError> {
    let before = &[JOINS, ANOTHER_JOINS, PUBLISHER];
    let tasks: &[&[TopicAct]] = &[
        &[READS, READS, READS],
        &[ANOTHER_READS, LEAVES],
        &[PUBLISHES, PUBLISHES, PUBLISHES],
    ];
    assert!(&rt; explore_topic(rt.alloc(), before, tasks, 55)? == Verdict::TooMany(55));
    assert!(&rt; explore_topic(rt.alloc(), before, tasks, 56)? == Verdict::AllEnd(14));
    Ok(())
}
