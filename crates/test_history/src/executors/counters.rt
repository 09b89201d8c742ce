//! Counters that come to their end under an executor.
use super::runs::{plays, told};
use esync_base::waitqueue::TaskId;
use esync_history::executor::{Act, NewError, Outcome};
use esync_pubsub::pubsub::{Exhausted, WaitResult};
use esync_run::primitive::{Answer, Command};
use esync_run::pubsub::{Events, PubSubAsk, PubSubCall, PubSubCommand, PubSubHeard, PubSubRun};
use esync_run::requests::Requests;

type Topic = PubSubRun<u32, TaskId, 1, 1, 1, 1, 3, 4>;

type TopicAct = Act<PubSubAsk<u32>, PubSubCommand<u32, TaskId>>;

// A subscriber and a publisher come.
const BEFORE: &[PubSubCommand<u32, TaskId>] = &[
    Command::Call(PubSubCall::Join(0)),
    Command::Call(PubSubCall::Publisher(0)),
];

// One task publishes twice and then at once, and another asks how many messages there are and then awaits one.
const TASKS: &[&[TopicAct]] = &[
    &[
        Act::Await(0, PubSubAsk::Publish(0, 5)),
        Act::Await(1, PubSubAsk::Publish(0, 6)),
        Act::Call(Command::Call(PubSubCall::Immediate(7))),
    ],
    &[
        Act::Call(Command::Call(PubSubCall::Len)),
        Act::Await(2, PubSubAsk::Message(0)),
    ],
];

const HEARD: &[&[Answer<PubSubHeard<u32>>]] = &[
    &[
        Answer::Gives(PubSubHeard::Published(Ok(()))),
        Answer::Gives(PubSubHeard::Published(Err(Exhausted(6)))),
        Answer::Gives(PubSubHeard::PublishedAtOnce(Err(Exhausted(7)))),
    ],
    &[
        Answer::Gives(PubSubHeard::Number(1)),
        Answer::Gives(PubSubHeard::Read(WaitResult::Message(5))),
    ],
];

// The first message of the topic has the last number but one.
#[test]
fn a_task_that_waits_for_room_hears_that_the_numbers_ran_out(
    rt: HostRuntime,
) -> Result<(), NewError> {
    let topic: Topic = Requests::new(Events::new_at(u64::MAX - 1));
    let turns = [(5, Outcome::Limit, None), (1, Outcome::Done, Some(HEARD))];
    let look = (PubSubCall::Len, told(Answer::Gives(PubSubHeard::Number(0))));
    plays(&rt, rt.alloc(), topic, BEFORE, TASKS, &turns, look)
}
