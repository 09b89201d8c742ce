use super::steps::{Two, has, joins};
use esync_base::waitqueue::Wakes;
use esync_machine::primitive::{Answer, Command};
use esync_machine::requests::Requests;
use esync_notes::{holds, same};
use esync_pubsub::pubsub::machine::{
    Events, PubSubAsk as Ask, PubSubCall as Call, PubSubHeard as Heard, PubSubReply, PubSubRun,
    run_pubsub,
};
use esync_pubsub::pubsub::{PubSubState, SubId, WaitResult};
use std::alloc::{AllocError, Global};
use std::cell::Cell;
use std::process::Abort;

/// A message that counts its clones. Its next clone has no memory where the lowest bit of `refused` is set, the one behind it where the
/// second lowest is, and so on.
#[derive(Drop)]
pub struct Counted {
    refused: Cell<u32>,
    pub clones: u32,
    letter: char,
}

// No clone is refused; the first one is; the first and the third; the first 32 are.
const NONE: u32 = 0;

const THE_FIRST: u32 = 1;

const BUT_THE_SECOND: u32 = 5;

const MANY: u32 = u32::MAX;

impl Clone for Counted {
    fn clone(&self) -> Result<Self, AllocError> {
        let refused = self.refused.get();
        self.refused.set(refused / 2);
        if refused % 2 == 1 {
            return Err(AllocError);
        }
        Ok(Counted {
            refused: Cell::new(refused / 2),
            clones: self.clones.saturating_add(1),
            letter: self.letter,
        })
    }
}

/// A message that wasn't cloned yet.
pub fn message(refused: u32, letter: char) -> Counted {
    Counted {
        refused: Cell::new(refused),
        clones: 0,
        letter,
    }
}

fn publishes(rt: &impl Abort, state: &mut Two<Counted, 2>, refused: u32, letter: char) {
    let mut wakes: Wakes<u64, 2> = Wakes::new();
    holds!(rt;
        state
            .publish_immediate(message(refused, letter), &mut wakes)
            .is_ok()
    );
}

// A read gives a message of this letter that was cloned so often.
fn reads(rt: &impl Abort, state: &mut Two<Counted, 2>, id: &SubId, letter: char, clones: u32) {
    let mut wakes: Wakes<u64, 2> = Wakes::new();
    holds!(rt; state.is_subscriber(id));
    match state.try_next_message(id, &mut wakes) {
        Ok(Some(WaitResult::Message(message))) => {
            same!(rt; message.letter, letter);
            same!(rt; message.clones, clones);
        }
        _ => rt.abort(),
    }
}

// Two read a message: the first one a clone of it.
fn first_reads_a_clone(rt: &impl Abort, state: &mut Two<Counted, 2>) {
    let first = joins(rt, state);
    let second = joins(rt, state);
    publishes(rt, state, NONE, 'x');
    reads(rt, state, &first, 'x', 1);
    reads(rt, state, &second, 'x', 0);
}

#[test]
fn the_last_reader_is_given_the_message_itself(rt: HostRuntime) {
    let mut state: Two<Counted, 2> = PubSubState::new();
    first_reads_a_clone(&rt, &mut state);
}

// Two read a message, which the first one is refused at first. The second one is given the message itself: a clone would be refused.
fn first_is_refused(rt: &impl Abort, state: &mut Two<Counted, 2>) {
    let first = joins(rt, state);
    let second = joins(rt, state);
    publishes(rt, state, BUT_THE_SECOND, 'x');
    let mut wakes: Wakes<u64, 2> = Wakes::new();
    holds!(rt; state.is_subscriber(&first));
    holds!(rt; state.try_next_message(&first, &mut wakes).is_err());
    has(rt, state, &first, 1);
    same!(rt; state.len(), 1);
    reads(rt, state, &first, 'x', 1);
    reads(rt, state, &second, 'x', 0);
    same!(rt; state.len(), 0);
}

#[test]
fn a_refused_clone_moves_nobody(rt: HostRuntime) {
    let mut state: Two<Counted, 2> = PubSubState::new();
    first_is_refused(&rt, &mut state);
}

// One of two who lag is refused a pure read, and hears of its lag afterwards.
fn lag_is_left(rt: &impl Abort, state: &mut Two<Counted, 2>) {
    let first = joins(rt, state);
    let _second = joins(rt, state);
    publishes(rt, state, MANY, 'p');
    publishes(rt, state, MANY, 'q');
    publishes(rt, state, MANY, 'r');
    let mut wakes: Wakes<u64, 2> = Wakes::new();
    holds!(rt; state.is_subscriber(&first));
    holds!(rt; state.try_next_message_pure(&first, &mut wakes).is_err());
    has(rt, state, &first, 3);
    holds!(rt; state.is_subscriber(&first));
    holds!(rt;
        matches!(
            state.try_next_message(&first, &mut wakes),
            Ok(Some(WaitResult::Lagged(1)))
        )
    );
    has(rt, state, &first, 2);
}

#[test]
fn a_refused_pure_read_leaves_its_lag(rt: HostRuntime) {
    let mut state: Two<Counted, 2> = PubSubState::new();
    lag_is_left(&rt, &mut state);
}

type Topic = PubSubRun<Counted, u64, 2, 2, 2, 2, 1, 2>;

// The letter of the message that was read.
fn letter(reply: Option<&PubSubReply<Counted, u64, 2>>) -> Option<char> {
    match &reply?.answer {
        Answer::Gives(Heard::Read(WaitResult::Message(message))) => Some(message.letter),
        Answer::Gives(Heard::ReadPure(message)) => Some(message.letter),
        Answer::Gives(Heard::Streamed(Some(message))) => Some(message.letter),
        _ => None,
    }
}

// The reply tells of want of memory.
fn is_refusal(reply: Option<&PubSubReply<Counted, u64, 2>>) -> bool {
    reply.is_some_and(|reply| matches!(reply.answer, Answer::NoMemory))
}

// Two join, a message is published, and the first one's request of this kind is polled and refused.
fn is_refused_at_first(
    alloc: Global,
    topic: &mut Topic,
    message: Counted,
    ask: Ask<Counted>,
) -> Result<bool, AllocError> {
    let commands = vec![in alloc;
        Command::Call(Call::Join(0)),
        Command::Call(Call::Join(1)),
        Command::Call(Call::Immediate(message)),
        Command::Start(0, ask),
        Command::Poll(0, 9),
    ]?;
    let replies = run_pubsub(alloc, topic, commands)?;
    Ok(is_refusal(replies.last()))
}

// The letter of the message that one more poll of the request reads.
fn reads_at_last(alloc: Global, topic: &mut Topic) -> Result<Option<char>, AllocError> {
    let replies = run_pubsub(alloc, topic, vec![in alloc; Command::Poll(0, 9)]?)?;
    Ok(letter(replies.last()))
}

// A request of this kind whose clone is refused reads later.
fn reads_later(rt: &impl Abort, alloc: Global, ask: Ask<Counted>) {
    let mut topic: Topic = Requests::new(Events::new_at(0));
    let message = message(THE_FIRST, 'x');
    holds!(rt; is_refused_at_first(alloc, &mut topic, message, ask) == Ok(true));
    holds!(rt; reads_at_last(alloc, &mut topic) == Ok(Some('x')));
}

// As does one of each kind that reads.
fn each_reads_later(rt: &impl Abort, alloc: Global) {
    for ask in [Ask::Message(0), Ask::MessagePure(0), Ask::Stream(0)] {
        reads_later(rt, alloc, ask);
    }
}

#[test]
fn a_request_whose_clone_is_refused_reads_later(rt: HostRuntime) {
    each_reads_later(&rt, rt.alloc());
}
