//! A script as a sequence diagram in the language of Mermaid.
ghost use Rattle.std.specs.Prelude.{◌≡◌, OnOk, IfErr};
ghost use Rattle.std.specs.Io.KnownBytes.{Appends};
ghost use Rattle.esync_base.specs.Rows.{items_of};
ghost use Rattle.esync_words.specs.Text.{answer_text, each_text};
ghost use Rattle.esync_words.specs.Diagram.{lane_text, arrow_text, said_text, command_text, back_text, reply_text, note_text, wait_text, participant_text, wake_text, head_text, step_text};
ghost use Rattle.esync_words.specs.Played.{IsJudged};

use crate::fault::Fault;
use crate::play::{Giver, Telling};
use crate::printing::print_answer;
use crate::vocabulary::Vocabulary;
use esync_machine::primitive::Answer;
use std::io::{self, Write};

/// A telling as a diagram. It has a lane for the primitive, for each task, by its waker, and for callers. It has an
/// arrow for each command with the number of its line, for its answer, and for each waker that is handed out. A note
/// says where a task waits.
#[derive(Clone, Copy, Debug, PartialEq, Eq)]
pub struct Diagram {}

impl Telling for Diagram {
    ghost use Rattle.esync_words.specs.Diagram.{diagram_story};

    ghost story = { diagram_story };

    ghost noted = { λ diagram. tt };

    fn open<W: Write>(&mut self, line: &str, output: &mut W) -> Result<(), Fault> {
        print_head(line, output)?;
        Ok(())
    }

    fn tell<V: Vocabulary, W: Write>(
        &mut self,
        number: u64,
        line: &str,
        giver: Giver,
        answer: &Answer<V::Heard>,
        wakers: &[Option<u64>],
        output: &mut W,
    ) -> Result<(), Fault> {
        print_step::<V, W>(number, line, giver, answer, wakers, output)
    }

    fn close<W: Write>(&self, _output: &mut W) -> Result<(), Fault> {
        Ok(())
    }
}

/// Prints the head of a diagram, whose primitive line 1 names.
pub(crate) fn print_head<W: Write>(line: &str, output: &mut W) -> io::Result<()>
    ensures { OnOk result (Appends (W.contents output.old) (W.contents output.new) (head_text line.now)) }
{
    writeln!(output, "sequenceDiagram")?;
    print_participant(line, output)?;
    Ok(())
}

/// Prints a command, its answer, whether its giver waits, and the wakers that are handed out. The row of wakers may
/// have empty places.
pub(crate) fn print_step<V: Vocabulary, W: Write>(
    number: u64,
    line: &str,
    giver: Giver,
    answer: &Answer<V::Heard>,
    wakers: &[Option<u64>],
    output: &mut W,
) -> Result<(), Fault>
    ensures ok { OnOk result (Appends (W.contents output.old) (W.contents output.new) (step_text V.text number line.now giver answer.now (items_of wakers.now))) }
    ensures err { IfErr result (λ fault. IsJudged (Err fault) → ⊥) }
{
    print_command(giver, number, line, output)?;
    print_reply::<V, W>(giver, answer, output)?;
    print_wait(giver, answer, output)?;
    print_wakes(wakers, output)?;
    Ok(())
}

fn print_participant<W: Write>(line: &str, output: &mut W) -> io::Result<()>
    ensures { OnOk result (Appends (W.contents output.old) (W.contents output.new) (participant_text line.now)) }
{
    writeln!(output, "    participant object as {line}")
}

fn print_command<W: Write>(giver: Giver, number: u64, line: &str, output: &mut W) -> io::Result<()>
    ensures { OnOk result (Appends (W.contents output.old) (W.contents output.new) (command_text giver number line.now)) }
{
    write!(output, "    ")?;
    print_lane(giver, output)?;
    print_arrow(giver, output)?;
    write!(output, "{number}: ")?;
    print_said(giver, line, output)?;
    writeln!(output)
}

fn print_back<W: Write>(giver: Giver, output: &mut W) -> io::Result<()>
    ensures { OnOk result (Appends (W.contents output.old) (W.contents output.new) (back_text giver)) }
{
    write!(output, "    object-->>")?;
    print_lane(giver, output)?;
    write!(output, ": ")?;
    Ok(())
}

fn print_reply<V: Vocabulary, W: Write>(
    giver: Giver,
    answer: &Answer<V::Heard>,
    output: &mut W,
) -> Result<(), Fault>
    ensures ok { OnOk result (Appends (W.contents output.old) (W.contents output.new) (reply_text giver (answer_text V.text answer.now))) }
    ensures err { IfErr result (λ fault. IsJudged (Err fault) → ⊥) }
{
    print_back(giver, output)?;
    print_answer::<V, W>(answer, output)?;
    writeln!(output)?;
    Ok(())
}

fn print_lane<W: Write>(giver: Giver, output: &mut W) -> io::Result<()>
    ensures { OnOk result (Appends (W.contents output.old) (W.contents output.new) (lane_text giver)) }
{
    match giver {
        Giver::Task { waker, .. } => write!(output, "task_{waker}"),
        Giver::Starter(_) => write!(output, "caller"),
        Giver::Dropper(_) => write!(output, "caller"),
        Giver::Caller => write!(output, "caller"),
    }
}

fn print_arrow<W: Write>(giver: Giver, output: &mut W) -> io::Result<()>
    ensures { OnOk result (Appends (W.contents output.old) (W.contents output.new) (arrow_text giver)) }
{
    match giver {
        Giver::Dropper(_) => write!(output, "-xobject: "),
        Giver::Task { .. } => write!(output, "->>object: "),
        Giver::Starter(_) => write!(output, "->>object: "),
        Giver::Caller => write!(output, "->>object: "),
    }
}

fn print_said<W: Write>(giver: Giver, line: &str, output: &mut W) -> io::Result<()>
    ensures { OnOk result (Appends (W.contents output.old) (W.contents output.new) (said_text giver line.now)) }
{
    match giver {
        Giver::Dropper(r) => write!(output, "drop {r}"),
        Giver::Task { .. } => write!(output, "{line}"),
        Giver::Starter(_) => write!(output, "{line}"),
        Giver::Caller => write!(output, "{line}"),
    }
}

// Prints a note that a task waits, if the answer is Pending.
fn print_wait<A, W: Write>(giver: Giver, answer: &Answer<A>, output: &mut W) -> io::Result<()>
    ensures { OnOk result (Appends (W.contents output.old) (W.contents output.new) (wait_text giver answer.now)) }
{
    match answer {
        Answer::Pending => print_note(giver, output),
        _ => Ok(()),
    }
}

fn print_note<W: Write>(giver: Giver, output: &mut W) -> io::Result<()>
    ensures { OnOk result (Appends (W.contents output.old) (W.contents output.new) (note_text giver)) }
{
    write!(output, "    Note over ")?;
    print_lane(giver, output)?;
    writeln!(output, ": waits")?;
    Ok(())
}

fn print_wake<W: Write>(waker: u64, output: &mut W) -> io::Result<()>
    ensures { OnOk result (Appends (W.contents output.old) (W.contents output.new) (wake_text waker)) }
{
    writeln!(output, "    object-)task_{waker}: wake")
}

fn print_wakes<W: Write>(wakers: &[Option<u64>], output: &mut W) -> io::Result<()>
    ensures { OnOk result (Appends (W.contents output.old) (W.contents output.new) (each_text wake_text (items_of wakers.now))) }
{
    for waker in wakers {
        if let Some(waker) = waker {
            print_wake(*waker, output)?;
        }
    }
    Ok(())
}
