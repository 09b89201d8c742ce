//! Recorded runs: whether a run that was recorded elsewhere is one of the object, with exactly the wakers that the
//! table of wakes names.
#![tactic(auto)]

ghost use Rattle.std.specs.Prelude.{◌≡◌, ◌==◌, [], Some, IfOk, OnOk, IfErr};
ghost use Rattle.std.specs.Io.KnownBytes.{Appends};
ghost use Rattle.esync_script.specs.Opening.{runs, PlaysScript};
ghost use Rattle.esync_words.specs.Lines.{first_line};
ghost use Rattle.esync_words.specs.Story.{replies_story};
ghost use Rattle.esync_check.specs.Checked.{Finds, Judges, run_text, verdict_text, difference_text, heading_text, recorded_text, given_text};
ghost use Rattle.esync_check.specs.Recorded.{line_text};

use crate::difference::{Difference, first_difference};
use crate::fault::Unchecked;
use crate::recording::{Recording, split_line};
use crate::room::Room;
use esync_script::play_bytes;
use esync_words::fault::Fault;
use esync_words::play::Replies;
use std::io::{self, Write};

pub mod difference;
pub mod fault;
pub mod recording;
pub mod room;

/// A verdict on a recorded run. It borrows the two replies from the rooms that they were written into.
#[derive(Clone, Copy)]
pub enum Verdict<'a> {
    /// The record is a run of the primitive that line 1 names, of so many commands.
    Run(u64),
    /// This recorded reply is the first that isn't the primitive's.
    Another(Difference<'a>),
}

/// Checks a recorded run: line 1 as of a script, and behind it lines `COMMAND => REPLY`.
///
/// The verdict is `Run` only if each line behind line 1 has this form, and the replies are those of one good run of the
/// primitive that line 1 names, with exactly those wakers. `Another` has the first reply that isn't the primitive's.
///
/// The script, the recorded replies and those that the primitive gives are written into the three rooms, and what these
/// had before is forgotten. No other memory is taken.
///
/// # Errors
///
/// Returns the line that is no command or has no reply, if the replies before it are the primitive's, or `OutOfMemory`
/// if a room is full. No read or write fails.
pub fn check_script<'a, R: Room>(
    text: &[u8],
    script: &mut R,
    replies: &'a mut R,
    given: &'a mut R,
) -> Result<Verdict<'a>, Unchecked>
    ensures ok { IfOk result (λ verdict. Finds text.now verdict) }
    ensures err { IfErr result (λ unchecked. unchecked ≡ Unchecked.Script Fault.InputOutput → ⊥) }
{
    let recording = Recording::read(text, script, replies)?;
    let outcome = play_into(script.written(), given);
    judge(recording, replies.written(), given.written(), outcome)
}

// Plays a script, and writes the primitive's replies into a room. A write fails only where the room is full.
fn play_into<R: Room>(script: &[u8], given: &mut R) -> Result<(), Fault>
    ensures plays { PlaysScript runs replies_story (Some script.now) (Some []) (R.contents given.new) result }
    ensures err { IfErr result (λ fault. fault ≡ Fault.InputOutput → ⊥) }
{
    given.clear();
    match play_emptied(script, given) {
        Err(Fault::InputOutput) => Err(Fault::OutOfMemory),
        outcome => outcome,
    }
}

// Plays a script, and writes the primitive's replies where nothing is written yet.
fn play_emptied<W: Write>(script: &[u8], given: &mut W) -> Result<(), Fault>
    requires { W.contents given.old ≡ Some [] }
    ensures { PlaysScript runs replies_story (Some script.now) (Some []) (W.contents given.new) result }
{
    play_bytes(&mut Replies {}, script, given)
}

// Compares the recorded replies with those that the primitive gave, up to the end of the play with this outcome.
fn judge<'a>(
    recording: Recording,
    replies: &'a [u8],
    given: &'a [u8],
    outcome: Result<(), Fault>,
) -> Result<Verdict<'a>, Unchecked>
    ensures ok { IfOk result (λ verdict. Judges recording.commands recording.is_whole replies.now given.now outcome verdict) }
    ensures err { IfErr outcome (λ fault. fault ≡ Fault.InputOutput → ⊥) → IfErr result (λ unchecked. unchecked ≡ Unchecked.Script Fault.InputOutput → ⊥) }
{
    let unchecked = match outcome {
        Ok(()) => {
            if recording.is_whole && given == replies {
                return Ok(Verdict::Run(recording.commands));
            }
            Unchecked::NoReply(recording.commands.saturating_add(2))
        }
        Err(Fault::NotACommand(number)) => Unchecked::Script(Fault::NotACommand(number)),
        Err(fault) => return Err(Unchecked::Script(fault)),
    };
    match first_difference(replies, given) {
        Some(difference) => Ok(Verdict::Another(difference)),
        None => Err(unchecked),
    }
}

/// Writes the verdict on the text.
///
/// # Errors
///
/// Returns the error if the write failed.
pub fn print_verdict<W: Write>(text: &[u8], verdict: &Verdict<'_>, output: &mut W) -> io::Result<()>
    ensures { OnOk result (Appends (W.contents output.old) (W.contents output.new) (verdict_text (first_line text.now) verdict.now)) }
{
    let (name, _) = split_line(text);
    match verdict {
        Verdict::Run(commands) => print_run(name, *commands, output),
        Verdict::Another(difference) => print_difference(name, difference, output),
    }
}

fn print_run<W: Write>(name: &[u8], commands: u64, output: &mut W) -> io::Result<()>
    ensures { OnOk result (Appends (W.contents output.old) (W.contents output.new) (run_text (commands == 1) name.now commands)) }
{
    if commands == 1 {
        write!(output, "1 command: a run of ")?;
        return print_line(name, output);
    }
    write!(output, "{commands} commands: a run of ")?;
    print_line(name, output)
}

fn print_difference<W: Write>(
    name: &[u8],
    difference: &Difference<'_>,
    output: &mut W,
) -> io::Result<()>
    ensures { OnOk result (Appends (W.contents output.old) (W.contents output.new) (difference_text name.now difference.now)) }
{
    print_heading(difference.line, name, output)?;
    print_recorded(difference.recorded, output)?;
    print_given(difference.given, output)
}

fn print_heading<W: Write>(line: u64, name: &[u8], output: &mut W) -> io::Result<()>
    ensures { OnOk result (Appends (W.contents output.old) (W.contents output.new) (heading_text line name.now)) }
{
    write!(output, "line {line}: not a run of ")?;
    print_line(name, output)
}

fn print_recorded<W: Write>(reply: &[u8], output: &mut W) -> io::Result<()>
    ensures { OnOk result (Appends (W.contents output.old) (W.contents output.new) (recorded_text reply.now)) }
{
    write!(output, "recorded: ")?;
    print_line(reply, output)
}

fn print_given<W: Write>(reply: &[u8], output: &mut W) -> io::Result<()>
    ensures { OnOk result (Appends (W.contents output.old) (W.contents output.new) (given_text reply.now)) }
{
    write!(output, "given: ")?;
    print_line(reply, output)
}

fn print_line<W: Write>(line: &[u8], output: &mut W) -> io::Result<()>
    ensures { OnOk result (Appends (W.contents output.old) (W.contents output.new) (line_text line.now)) }
{
    output.write_all(line)?;
    output.write_all(b"\n")
}
