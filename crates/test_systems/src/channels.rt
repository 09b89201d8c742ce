//! Producers and consumers at a priority channel. `test_tool` explores systems of channels as text.

use crate::schedule;
use esync_base::waitqueue::TaskId;
use esync_channel::channel::Mailbox;
use esync_channel::channel::machine::{ChannelAsk, ChannelCommand};
use esync_compared::priority::PriorityStates;
use esync_history::executor::{Act, NewError};
use esync_machine::requests::Requests;
use esync_priority::priority_channel::Max;
use esync_priority::priority_channel::machine::PriorityRun;
use esync_systems::compare::ComparesRequests;
use esync_systems::explore::{Verdict, explore};
use esync_systems::plan::Plan;
use std::alloc::{AllocError, Global};

type Urgent = PriorityRun<u64, TaskId, Max, 1, 4, 1>;

type OneAct = Act<ChannelAsk<u64>, ChannelCommand<u64, TaskId>>;

const URGENT: ComparesRequests<PriorityStates> = ComparesRequests {
    states: PriorityStates {},
};

// Each consumer receives one message, and the last task sends one.
fn consumers(alloc: Global, count: usize) -> Result<Vec<Vec<OneAct>>, AllocError> {
    let mut tasks = Vec::new(alloc);
    for r in 0..count {
        tasks.push(vec![in alloc; Act::Await(r, ChannelAsk::Receive)]?)?;
    }
    tasks.push(vec![in alloc; Act::Await(count, ChannelAsk::Send(7))]?)?;
    Ok(tasks)
}

fn consume(alloc: Global, count: usize, limit: usize) -> Result<Verdict, NewError> {
    let tasks = consumers(alloc, count)?;
    let channel: Urgent = Requests::new(Mailbox::new());
    explore(alloc, &URGENT, channel, &Plan::in_order(&tasks, &[]), limit)
}

// With one place for equal messages a priority channel is a channel.
#[test]
fn a_priority_channel_is_explored_as_a_channel(rt: HostRuntime) -> Result<(), NewError> {
    assert!(&rt; consume(rt.alloc(), 1, 4)? == Verdict::TooMany(4));
    assert!(&rt; consume(rt.alloc(), 1, 5)? == Verdict::AllEnd(3));
    let schedule = schedule(rt.alloc(), &[2, 0, 1])?;
    assert!(&rt; consume(rt.alloc(), 2, 1000)? == Verdict::Stalls(schedule));
    Ok(())
}
