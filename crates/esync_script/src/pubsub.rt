//! The words of publishers and subscribers.
ghost use Rattle.std.specs.Prelude.{◌≡◌, ◌≤◌, OnOk, ◌++◌, codes, [], None, replicate};
ghost use Rattle.std.specs.Io.KnownBytes.{Appends};
ghost use Rattle.esync_script.specs.PubSub.{a_new_topic, no_lists, read_text};
ghost use Rattle.esync_script.specs.Setting.{new_object};

use crate::capacity::Size;
use crate::numbers::{Numbered, numbered};
use esync_base::limited::{Limit, LimitedList};
use esync_base::waitqueue::Wakes;
use esync_log::log::LogStore;
use esync_machine::run::Machine;
use esync_pubsub::pubsub::machine::{Events, PubSubAsk, PubSubCall, PubSubHeard};
use esync_pubsub::pubsub::{Error, TryPublishError, WaitResult};
use esync_words::printing::print_option;
use esync_words::vocabulary::{NAMES, Place, Vocabulary};
use esync_words::words::Words;
use std::io::{self, Write};
use std::marker::PhantomData;

/// The words of a pub-sub channel.
pub struct PubSubWords<C: Size> {
    capacities: PhantomData<C>,
}

impl<C: Size> Vocabulary for PubSubWords<C> {
    type Ask = PubSubAsk<u64>;

    type Call = PubSubCall<u64>;

    type Heard = PubSubHeard<u64>;

    ghost use Rattle.esync_script.specs.PubSub.{pubsub_asks, pubsub_calls, pubsub_text};

    ghost asks = { pubsub_asks C.bits };

    ghost calls = { pubsub_calls C.bits };

    ghost text = { pubsub_text };

    fn ask(name: &str, words: Words<'_>) -> Option<PubSubAsk<u64>> {
        match name {
            "publish" => {
                let (p, value) = words.number_and_value(C::bits())?;
                Some(PubSubAsk::Publish(p as usize, value))
            }
            "message" => Some(PubSubAsk::Message(words.number()? as usize)),
            "message-pure" => Some(PubSubAsk::MessagePure(words.number()? as usize)),
            "stream" => Some(PubSubAsk::Stream(words.number()? as usize)),
            _ => None,
        }
    }

    fn call(name: &str, words: Words<'_>) -> Option<PubSubCall<u64>> {
        match name {
            "join" => Some(PubSubCall::Join(words.number()? as usize)),
            "leave" => Some(PubSubCall::Leave(words.number()? as usize)),
            "publisher" => Some(PubSubCall::Publisher(words.number()? as usize)),
            "retire" => Some(PubSubCall::Retire(words.number()? as usize)),
            "try-publish" => {
                let (p, value) = words.number_and_value(C::bits())?;
                Some(PubSubCall::TryPublish(p as usize, value))
            }
            "immediate" => Some(PubSubCall::Immediate(words.value(C::bits())?)),
            "next" => Some(PubSubCall::Next(words.number()? as usize)),
            "next-pure" => Some(PubSubCall::NextPure(words.number()? as usize)),
            "available" => Some(PubSubCall::Available(words.number()? as usize)),
            "clear" => words.nothing().map(|_| PubSubCall::Clear),
            "len" => words.nothing().map(|_| PubSubCall::Len),
            "free" => words.nothing().map(|_| PubSubCall::FreeCapacity),
            _ => None,
        }
    }

    fn print<W: Write>(heard: &PubSubHeard<u64>, output: &mut W) -> io::Result<()> {
        match heard {
            PubSubHeard::Published(Ok(())) => write!(output, "Ready"),
            PubSubHeard::Published(Err(error)) => {
                write!(output, "Ready(Err(Exhausted({})))", error.0)
            }
            PubSubHeard::Read(answer) => print_ready(answer, output),
            PubSubHeard::ReadPure(value) => write!(output, "Ready({value})"),
            PubSubHeard::Streamed(Some(value)) => write!(output, "Ready(Some({value}))"),
            PubSubHeard::Streamed(None) => write!(output, "Ready(None)"),
            PubSubHeard::Came(Ok(())) => write!(output, "Ok"),
            PubSubHeard::Came(Err(Error::MaximumSubscribersReached)) => {
                write!(output, "Err(MaximumSubscribersReached)")
            }
            PubSubHeard::Came(Err(Error::MaximumPublishersReached)) => {
                write!(output, "Err(MaximumPublishersReached)")
            }
            PubSubHeard::TriedPublish(Ok(())) => write!(output, "Ok"),
            PubSubHeard::TriedPublish(Err(TryPublishError::Full(value))) => {
                write!(output, "Err(Full({value}))")
            }
            PubSubHeard::TriedPublish(Err(TryPublishError::Exhausted(value))) => {
                write!(output, "Err(Exhausted({value}))")
            }
            PubSubHeard::PublishedAtOnce(Ok(())) => write!(output, "Ok"),
            PubSubHeard::PublishedAtOnce(Err(error)) => {
                write!(output, "Err(Exhausted({}))", error.0)
            }
            PubSubHeard::Tried(Some(answer)) => print_read(answer, output),
            PubSubHeard::Tried(None) => write!(output, "None"),
            PubSubHeard::TriedPure(found) => print_option(*found, output),
            PubSubHeard::Unread(count) => write!(output, "{count}"),
            PubSubHeard::Number(number) => write!(output, "{number}"),
        }
    }

    fn place(number: usize) -> Option<Place> {
        match number {
            0 => Some(Place::of("the subscribers", "a message came")),
            1 => Some(Place::of("the publishers", "there may be room")),
            _ => None,
        }
    }
}

// Prints the text of a read.
fn print_read<W: Write>(answer: &WaitResult<u64>, output: &mut W) -> io::Result<()>
    ensures { OnOk result (Appends (W.contents output.old) (W.contents output.new) (read_text answer.now)) }
{
    match answer {
        WaitResult::Lagged(count) => write!(output, "Lagged({count})"),
        WaitResult::Message(value) => write!(output, "Message({value})"),
    }
}

// Prints the text of a poll that read.
fn print_ready<W: Write>(answer: &WaitResult<u64>, output: &mut W) -> io::Result<()>
    ensures { OnOk result (Appends (W.contents output.old) (W.contents output.new) (codes "Ready(" ++ read_text answer.now ++ codes ")")) }
{
    write!(output, "Ready(")?;
    print_read(answer, output)?;
    write!(output, ")")
}

/// A pub-sub channel over this log, for `S.limit` subscribers and `Q.limit` publishers.
pub type Topic<C, L, S, Q> = Numbered<
    Events<L, LimitedList<Wakes<u64, NAMES>, S>, LimitedList<Wakes<u64, NAMES>, Q>, NAMES>,
    C,
    NAMES,
>;

/// Returns a pub-sub channel over this log, for so many subscribers and publishers, of which there are none yet. The log
/// holds no message, and has a place for each subscriber that may come.
///
/// A topic isn't `Scripted`: over an open log it can't be shown that the machine which `serve` makes fits in memory.
pub fn topic<C: Size, L: LogStore<Message = u64>, S: Limit, Q: Limit>(
    log: L,
    subscribers: usize,
    publishers: usize,
) -> Topic<C, L, S, Q>
    requires messages { 1 ≤ L.capacity }
    requires places { L.places ≡ S.limit }
    requires empty { L.log log ≡ record { held = []; next = (L.log log).next; positions = replicate L.places None } }
    requires subscribers { subscribers ≡ S.limit }
    requires publishers { publishers ≡ Q.limit }
    requires few_subscribers { subscribers ≤ 16 }
    requires few_publishers { publishers ≤ 16 }
    ensures object { ⟦<Topic<C, L, S, Q> as Machine>⟧.semantics.object result ≡ new_object C.requests (a_new_topic S.limit (L.log log).next) }
    ensures registrations { ⟦<Topic<C, L, S, Q> as Machine>⟧.semantics.registrations result ≡ no_lists }
{
    let waiting = LimitedList::new(subscribers);
    let publishing = LimitedList::new(publishers);
    numbered::<_, C, NAMES>(Events::over(log, waiting, publishing))
}
