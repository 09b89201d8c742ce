use super::runs::{plays, told};
use esync_base::waitqueue::TaskId;
use esync_history::executor::{Act, NewError, Outcome};
use esync_run::primitive::{Answer, Command};
use esync_run::pubsub::{Events, PubSubAsk, PubSubCall, PubSubCommand, PubSubHeard, PubSubRun};
use esync_run::requests::Requests;
use std::alloc::Global;
use std::process::Abort;

type TopicAct = Act<PubSubAsk<u32>, PubSubCommand<u32, TaskId>>;

// A publisher and a subscriber come.
const BEFORE: &[PubSubCommand<u32, TaskId>] = &[
    Command::Call(PubSubCall::Publisher(0)),
    Command::Call(PubSubCall::Join(0)),
];

const PUBLISHES: &[TopicAct] = &[
    Act::Await(8, PubSubAsk::Publish(0, 5)),
    Act::Await(9, PubSubAsk::Publish(0, 6)),
    Act::Await(10, PubSubAsk::Publish(0, 7)),
];

// Three calls, and then four messages are awaited.
const READS: &[TopicAct] = &[
    Act::Call(Command::Call(PubSubCall::Len)),
    Act::Call(Command::Call(PubSubCall::Len)),
    Act::Call(Command::Call(PubSubCall::Len)),
    Act::Await(0, PubSubAsk::Message(0)),
    Act::Await(1, PubSubAsk::Message(0)),
    Act::Await(2, PubSubAsk::Message(0)),
    Act::Await(3, PubSubAsk::Message(0)),
];

// A task publishes three messages to a topic of two, and another one does these acts: after so many turns they have still to go on, and
// one more ends the run so. Then so many messages are held.
fn holds_after(
    rt: &impl Abort,
    alloc: Global,
    reads: &[TopicAct],
    turns: usize,
    outcome: Outcome,
    held: usize,
) -> Result<(), NewError> {
    let topic: PubSubRun<u32, TaskId, 2, 1, 1, 1, 11, 4> = Requests::new(Events::new_at(0));
    let turns = [(turns, Outcome::Limit, None), (1, outcome, None)];
    let look = (
        PubSubCall::Len,
        told(Answer::Gives(PubSubHeard::Number(held))),
    );
    plays(rt, alloc, topic, BEFORE, &[PUBLISHES, reads], &turns, look)
}

#[test]
fn a_message_that_is_read_makes_room_for_the_task_that_publishes(
    rt: HostRuntime,
) -> Result<(), NewError> {
    holds_after(&rt, rt.alloc(), &READS[..3], 5, Outcome::Stalled, 2)?;
    holds_after(&rt, rt.alloc(), &READS[..4], 7, Outcome::Done, 2)?;
    holds_after(&rt, rt.alloc(), &READS[..6], 9, Outcome::Done, 0)?;
    holds_after(&rt, rt.alloc(), READS, 10, Outcome::Stalled, 0)
}
