//! The words of a primitive, and those that every machine has.
ghost use Rattle.std.specs.Prelude.{◌≡◌, ℕ, List, Option, OnOk};
ghost use Rattle.std.specs.Io.KnownBytes.{Appends};
ghost use Rattle.esync_words.specs.Commands.{named, start, command};
ghost use Rattle.esync_words.specs.Words.{one, two};
ghost use Rattle.std.specs.Option.{option_map};

use crate::words::Words;
use esync_machine::primitive::Command;
use std::io::{self, Write};

/// The greatest number of requests that a script of any language can have at a time.
pub const REQS: usize = 1024;

/// How many subscribers, publishers or receivers a script can have at a time: their numbers are below this.
pub const NAMES: usize = 16;

/// A place at which wakers are registered, in the words of an explanation.
#[derive(Clone, Copy, Debug, PartialEq, Eq)]
pub struct Place {
    pub name: &'static str,
    /// Why a waker that is registered there is handed out.
    pub event: &'static str,
    /// Whether a waker that is handed out stays registered there.
    pub stays: bool,
}

impl Place {
    /// Returns a place that a waker leaves when it is handed out.
    pub fn of(name: &'static str, event: &'static str) -> Self {
        Place {
            name,
            event,
            stays: false,
        }
    }
}

/// The words of a primitive: how its asks and its calls are said, and how its answers are printed.
pub trait Vocabulary {
    type Ask: Drop;

    type Call: Drop;

    type Heard: Drop;

    /// The ask that a name and the words behind it say.
    ghost asks: { List ℕ → List (List ℕ) → Option Self.Ask };

    /// The call that a name and the words behind it say.
    ghost calls: { List ℕ → List (List ℕ) → Option Self.Call };

    /// The text of an answer.
    ghost text: { Self.Heard → List ℕ };

    /// Reads an ask. Returns `None` if the words say none.
    fn ask(name: &str, words: Words<'_>) -> Option<Self::Ask>
        ensures { result ≡ asks name.now words.entry };

    /// Reads a call. Returns `None` if the words say none.
    fn call(name: &str, words: Words<'_>) -> Option<Self::Call>
        ensures { result ≡ calls name.now words.entry };

    /// Writes the text of an answer.
    ///
    /// # Errors
    ///
    /// Returns the error if the write failed.
    fn print<W: Write>(heard: &Self::Heard, output: &mut W) -> io::Result<()>
        ensures { OnOk result (Appends (W.contents output.old) (W.contents output.new) (text heard.now)) };

    /// Returns the questions, in these words, that an explanation asks a copy of the machine after each line, one after
    /// another. Only the last may change the machine.
    fn questions() -> &'static [&'static str] {
        &[]
    }

    /// Returns the call, with its name, by which an explanation asks a copy of the machine what the request of this
    /// number holds, if there is such a call. Its words are the name and the number.
    fn question_of(_request: usize) -> Option<(&'static str, Self::Call)> {
        None
    }

    /// Returns the place of this number at which wakers are registered, if there is one. The numbers have no gap.
    fn place(_number: usize) -> Option<Place> {
        None
    }
}

/// Reads the command that a line of these words says. Returns `None` if it says none.
pub fn read_command<V: Vocabulary>(mut words: Words<'_>) -> Option<Command<V::Ask, u64, V::Call>>
    ensures { result ≡ named (command V.asks V.calls) words.entry }
{
    let name = words.word()?;
    match name {
        "start" => start::<V>(words),
        "poll" => poll::<V>(words),
        "end" => end::<V>(words),
        _ => other::<V>(name, words),
    }
}

fn start<V: Vocabulary>(mut words: Words<'_>) -> Option<Command<V::Ask, u64, V::Call>>
    ensures { result ≡ start V.asks V.calls words.entry }
{
    let r = words.next_number()?;
    let name = words.word()?;
    Some(Command::Start(r as usize, V::ask(name, words)?))
}

fn poll<V: Vocabulary>(words: Words<'_>) -> Option<Command<V::Ask, u64, V::Call>>
    ensures { result ≡ option_map (λ p. Command.Poll p.0 p.1) (two 64 64 words.entry) }
{
    let (r, waker) = words.two_numbers()?;
    Some(Command::Poll(r as usize, waker))
}

fn end<V: Vocabulary>(words: Words<'_>) -> Option<Command<V::Ask, u64, V::Call>>
    ensures { result ≡ option_map (λ r. Command.End r) (one 64 words.entry) }
{
    Some(Command::End(words.number()? as usize))
}

fn other<V: Vocabulary>(name: &str, words: Words<'_>) -> Option<Command<V::Ask, u64, V::Call>>
    ensures { result ≡ option_map (λ call. Command.Call call) (V.calls name.now words.entry) }
{
    Some(Command::Call(V::call(name, words)?))
}
