//! The loop that goes through the lines of a script.
ghost use Rattle.std.specs.Prelude.{◌≡◌, ◌≤◌, ℕ, List, OnOk, IfOk, IfErr, ◌++◌, length};
ghost use Rattle.std.specs.Io.KnownBytes.{Appends};
ghost use Rattle.esync_base.specs.Rows.{items_of};
ghost use Rattle.esync_words.specs.Commands.{says, named, command};
ghost use Rattle.esync_words.specs.Played.{IsJudged, Opened, NotOpened, Played};
ghost use Rattle.esync_words.specs.Story.{Story, giver_of, transcript_of};

use crate::copied::Copied;
use crate::fault::Fault;
use crate::lines::{ByteSource, LONGEST, Lines};
use crate::printing::print_reply;
use crate::vocabulary::{Vocabulary, read_command};
use crate::words::Words;
use esync_base::waitqueue::Registered;
use esync_machine::primitive::{Answer, Command};
use esync_machine::run::{Machine, Reply};
use std::io::Write;

/// The giver of a command.
#[derive(Clone, Copy, Debug, PartialEq, Eq)]
pub enum Giver {
    /// The task that the waker wakes, which polls the request of this number.
    Task { request: usize, waker: u64 },
    /// The one who starts a request of this number.
    Starter(usize),
    /// The one who drops the request of this number.
    Dropper(usize),
    /// The one who calls the primitive.
    Caller,
}

// Returns the giver of the command.
fn given_by<Q, C>(command: &Command<Q, u64, C>) -> Giver
    ensures { result ≡ giver_of command.now }
{
    match command {
        Command::Start(r, _) => Giver::Starter(*r),
        Command::Poll(r, waker) => Giver::Task {
            request: *r,
            waker: *waker,
        },
        Command::End(r) => Giver::Dropper(*r),
        Command::Call(_) => Giver::Caller,
    }
}

/// The telling of a script: what is written while the script is played. It may note of each line what later lines need.
pub trait Telling {
    /// The text that is written of a script, and the notes of it.
    ghost story: { Story };

    /// The notes of the lines so far.
    ghost noted: { Self → story.Notes };

    /// Writes the text of line 1. Line 1 is noted even if the write fails.
    ///
    /// # Errors
    ///
    /// Returns the fault of a write, or of refused memory.
    fn open<W: Write>(&mut self, line: &str, output: &mut W) -> Result<(), Fault>
        ensures ok { OnOk result (Appends (W.contents output.old) (W.contents output.new) (story.head line.now)) }
        ensures err { IfErr result (λ fault. IsJudged (Err fault) → ⊥) }
        ensures noted { length line.now ≤ LONGEST → noted self.new ≡ story.first_notes line.now };

    /// Writes the text of a line. Its wakers stand in a row that may have empty places. The line is noted even if the
    /// write fails.
    ///
    /// # Errors
    ///
    /// Returns the fault of a write, or of refused memory.
    fn tell<V: Vocabulary, W: Write>(
        &mut self,
        number: u64,
        line: &str,
        giver: Giver,
        answer: &Answer<V::Heard>,
        wakers: &[Option<u64>],
        output: &mut W,
    ) -> Result<(), Fault>
        ensures ok { OnOk result (Appends (W.contents output.old) (W.contents output.new) (story.tells V.Heard V.text (noted self.old) number line.now giver answer.now (items_of wakers.now))) }
        ensures err { IfErr result (λ fault. IsJudged (Err fault) → ⊥) }
        ensures noted { noted self.new ≡ story.next_notes V.Heard (noted self.old) giver answer.now (items_of wakers.now) };

    /// Looks at the machine after a line that was told. It may keep what it sees, but writes nothing to the output, and
    /// notes nothing.
    fn look<V, M>(
        &mut self,
        _giver: Giver,
        _wakers: &[Option<u64>],
        _machine: &M,
    ) -> Result<(), Fault>
    where
        V: Vocabulary,
        M: Machine<Command = Command<V::Ask, u64, V::Call>>
            + Registered<Waker = u64>
            + Copied
            + Drop,
        M::Reply: Parts<V::Heard> + Drop,
        ensures err { IfErr result (λ fault. IsJudged (Err fault) → ⊥) }
        ensures noted { noted self.new ≡ noted self.old }
    {
        Ok(())
    }

    /// Writes the text behind the last line.
    ///
    /// # Errors
    ///
    /// Returns the fault of a write, or of refused memory.
    fn close<W: Write>(&self, output: &mut W) -> Result<(), Fault>
        ensures ok { OnOk result (Appends (W.contents output.old) (W.contents output.new) story.foot) }
        ensures err { IfErr result (λ fault. IsJudged (Err fault) → ⊥) };
}

/// A telling of the answers alone, a line each.
#[derive(Clone, Copy, Debug, PartialEq, Eq)]
pub struct Replies {}

impl Telling for Replies {
    ghost use Rattle.esync_words.specs.Story.{replies_story};

    ghost story = { replies_story };

    ghost noted = { λ replies. tt };

    fn open<W: Write>(&mut self, _line: &str, _output: &mut W) -> Result<(), Fault> {
        Ok(())
    }

    fn tell<V: Vocabulary, W: Write>(
        &mut self,
        _number: u64,
        _line: &str,
        _giver: Giver,
        answer: &Answer<V::Heard>,
        wakers: &[Option<u64>],
        output: &mut W,
    ) -> Result<(), Fault> {
        print_reply::<V, W>(answer, wakers, output)
    }

    fn close<W: Write>(&self, _output: &mut W) -> Result<(), Fault> {
        Ok(())
    }
}

/// The parts of a reply: its answer and its wakers.
pub trait Parts<A> {
    ghost use Rattle.std.specs.Prelude.{ℕ, List};
    ghost use Rattle.esync_machine.specs.declared.primitive.Answer.{Answer as AnswerOf};

    ghost answer: { Self → AnswerOf A };

    ghost wakes: { Self → List ℕ };

    /// Returns the answer to the command.
    fn answer(&self) -> &Answer<A>
        ensures { result.now ≡ answer self.now };

    /// Returns the wakers that are handed out, in order, in a row that may have empty places behind them.
    fn wakers(&self) -> &[Option<u64>]
        ensures { items_of result.now ≡ wakes self.now };
}

impl<A, const K: usize> Parts<A> for Reply<Answer<A>, u64, K> {
    ghost answer = { λ reply. reply.answer };

    ghost wakes = { λ reply. reply.wakes };

    fn answer(&self) -> &Answer<A> {
        &self.answer
    }

    fn wakers(&self) -> &[Option<u64>] {
        self.wakes.as_slice()
    }
}

/// The primitive that line 1 of a script names.
pub trait Opens: Sized + Drop {
    ghost use Rattle.std.specs.Prelude.{ℕ, List, Option};

    /// The primitive that a name and the words behind it say.
    ghost opens: { List ℕ → List (List ℕ) → Option Self };

    /// Returns the primitive that a name and the words behind it say, if they say one.
    fn opening(name: &str, words: Words<'_>) -> Option<Self>
        ensures { result ≡ opens name.now words.entry };
}

// Returns the primitive that a line of these words names, if it names one.
fn read_opening<O: Opens>(mut words: Words<'_>) -> Option<O>
    ensures { result ≡ named O.opens words.entry }
{
    let name = words.word()?;
    O::opening(name, words)
}

/// Reads line 1 of a script, tells of it, and returns the primitive that it names.
///
/// # Errors
///
/// Returns `NotACommand` if there is no line 1 or it names no primitive, and otherwise the fault of a read, a write or
/// refused memory.
pub fn open<O: Opens, T: Telling, R: ByteSource, W: Write>(
    telling: &mut T,
    lines: &mut Lines<R>,
    output: &mut W,
) -> Result<O, Fault>
    requires { lines.old.number ≡ 0 }
    ensures ok { IfOk result (λ opening. Opened (says R.longest O.opens) T.story opening (T.noted telling.new) lines.old.left lines.new.left (W.contents output.old) (W.contents output.new)) }
    ensures number { lines.new.number ≡ 1 }
    ensures err { IfErr result (λ fault. IsJudged (Err fault) → NotOpened (says R.longest O.opens) fault lines.old.left (W.contents output.old) (W.contents output.new)) }
{
    if !lines.read(output)? {
        return Err(lines.not_a_command());
    }
    let line = lines.line()?;
    let Some(opening) = read_opening::<O>(Words::of(line)) else {
        return Err(lines.not_a_command());
    };
    telling.open(line, output)?;
    Ok(opening)
}

/// Gives each line that is left of a script to the machine as a command, and tells of its answer, until the end.
///
/// # Errors
///
/// Returns `NotACommand` at the first line that is no command, and otherwise the fault of a read, a write or refused
/// memory.
pub fn play<V, M, T, R, W>(
    telling: &mut T,
    machine: &mut M,
    lines: &mut Lines<R>,
    output: &mut W,
) -> Result<(), Fault>
where
    V: Vocabulary,
    M: Machine<Command = Command<V::Ask, u64, V::Call>> + Registered<Waker = u64> + Copied + Drop,
    M::Reply: Parts<V::Heard> + Drop,
    T: Telling,
    R: ByteSource,
    W: Write,
    ensures played { Played M.semantics.meaning (says R.longest (command V.asks V.calls)) (transcript_of T.story V.text M.Reply.answer M.Reply.wakes) (T.noted telling.old) (T.noted telling.new) (M.semantics.object machine.old) (M.semantics.registrations machine.old) lines.old.number lines.old.left (W.contents output.old) (W.contents output.new) result }
    ensures stopped { (number : ℕ) → result ≡ Err (Fault.NotACommand number) → lines.new.number ≡ number }
{
    for _ in 0..u64::MAX {
        if !lines.read(output)? {
            return Ok(());
        }
        let number = lines.number();
        let line = lines.line()?;
        let Some(command) = read_command::<V>(Words::of(line)) else {
            return Err(lines.not_a_command());
        };
        let giver = given_by(&command);
        let reply = machine.step(command);
        telling.tell::<V, W>(number, line, giver, reply.answer(), reply.wakers(), output)?;
        telling.look::<V, M>(giver, reply.wakers(), machine)?;
    }
    // No input has so many lines.
    Err(Fault::InputOutput)
}
