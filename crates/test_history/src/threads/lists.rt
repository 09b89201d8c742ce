//! Threads that share a recorded list of messages: that of publishers and subscribers, or the slots of a zero-copy channel.
ghost use Rattle.std.specs.Prelude.{◌<◌, IfOk, length};

use super::{CALLS, call_by_two, told};
use esync_base::waitqueue::TaskId;
use esync_machine::primitive::{Answer, Command};
use esync_machine::requests::Requests;
use esync_machine::run::Machine;
use esync_notes::{holds, same};
use esync_pubsub::pubsub::machine::{Events, PubSubCall, PubSubCommand, PubSubHeard, PubSubRun};
use esync_pubsub::pubsub::{TryPublishError, WaitResult};
use esync_zerocopy::zerocopy_channel::machine::{Lent, ZeroCall, ZeroCommand, ZeroHeard, ZeroRun};
use esync_zerocopy::zerocopy_channel::{ChannelState, Side};
use std::alloc::{AllocError, Global};
use std::test::Fail;

type Topic = PubSubRun<u32, TaskId, 4, 2, 2, 2, 1, 4>;

// A topic with the publishers and the subscribers 0 and 1.
fn topic() -> Topic {
    let mut topic: Topic = Requests::new(Events::new_at(0));
    for number in [0, 1] {
        topic.step(Command::Call(PubSubCall::Publisher(number)));
        topic.step(Command::Call(PubSubCall::Join(number)));
    }
    topic
}

// The publisher of this number publishes a message, and the subscriber of this number reads one.
fn publishes(number: usize, message: u32) -> [PubSubCommand<u32, TaskId>; 2] {
    let publish = Command::Call(PubSubCall::TryPublish(number, message));
    [publish, Command::Call(PubSubCall::Next(number))]
}

const PUBLISHED_OR_READ: [&[Answer<PubSubHeard<u32>>]; 5] = [
    &[
        Answer::Gives(PubSubHeard::TriedPublish(Ok(()))),
        Answer::Gives(PubSubHeard::TriedPublish(Err(TryPublishError::Full(5)))),
        Answer::Gives(PubSubHeard::TriedPublish(Err(TryPublishError::Full(6)))),
    ],
    &[
        Answer::Gives(PubSubHeard::Tried(None)),
        Answer::Gives(PubSubHeard::Tried(Some(WaitResult::Message(5)))),
        Answer::Gives(PubSubHeard::Tried(Some(WaitResult::Message(6)))),
    ],
    &[],
    &[],
    &[],
];

// Two threads publish to both, and read.
#[test]
fn two_threads_call_a_recorded_pubsub_channel(rt: HostRuntime) -> Result<(), Fail> {
    let calls = [publishes(0, 5), publishes(1, 6)];
    let look = (PubSubCall::Len, told(PubSubHeard::Number(0)));
    let counts = call_by_two(&rt, rt.alloc(), topic(), calls, look, &PUBLISHED_OR_READ)?;
    for seat in counts {
        same!(rt; seat, [CALLS / 2, CALLS / 2, 0, 0, 0]);
    }
    Ok(())
}

// The side tries its next slot, and is done with it.
fn turns(side: Side) -> [ZeroCommand<u32, TaskId>; 2] {
    [
        Command::Call(ZeroCall::Try(side)),
        Command::Call(ZeroCall::Done(side)),
    ]
}

const LENT_OR_DONE: [&[Answer<ZeroHeard<u32>>]; 5] = [
    &[
        Answer::Gives(ZeroHeard::Tried(None)),
        Answer::Gives(ZeroHeard::Tried(Some(Lent::Spare(0)))),
        Answer::Gives(ZeroHeard::Tried(Some(Lent::Spare(1)))),
        Answer::Gives(ZeroHeard::Tried(Some(Lent::Spare(2)))),
        Answer::Gives(ZeroHeard::Tried(Some(Lent::Spare(3)))),
    ],
    &[
        Answer::Gives(ZeroHeard::Tried(None)),
        Answer::Gives(ZeroHeard::Tried(Some(Lent::Held(0, 5)))),
        Answer::Gives(ZeroHeard::Tried(Some(Lent::Held(1, 6)))),
        Answer::Gives(ZeroHeard::Tried(Some(Lent::Held(2, 7)))),
        Answer::Gives(ZeroHeard::Tried(Some(Lent::Held(3, 8)))),
    ],
    &[Answer::Done, Answer::NoSuch],
    &[Answer::Done],
    &[],
];

// Four slots, each with its own value.
fn slots(alloc: Global) -> Result<Vec<u32>, AllocError>
    ensures { IfOk result (λ slots. 0 < length slots.items) }
{
    Ok(vec![in alloc; 5, 6, 7, 8]?)
}

// One thread sends slots, and the other gives them back.
#[test]
fn two_threads_call_a_recorded_zerocopy_channel(rt: HostRuntime) -> Result<(), Fail> {
    let slots = slots(rt.alloc())?;
    let channel: ZeroRun<u32, TaskId, 1, 1> = Requests::new(ChannelState::new(slots));
    let calls = [turns(Side::Sender), turns(Side::Receiver)];
    let look = (ZeroCall::FreeCapacity, told(ZeroHeard::Count(4)));
    let [sender, receiver] = call_by_two(&rt, rt.alloc(), channel, calls, look, &LENT_OR_DONE)?;
    same!(rt; sender[0], CALLS / 2);
    same!(rt; receiver[1], CALLS / 2);
    same!(rt; sender[2], CALLS / 2);
    same!(rt; receiver[2], CALLS / 2);
    holds!(rt; sender[3] >= 4);
    Ok(())
}
