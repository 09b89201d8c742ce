//! Prints answers and replies.
ghost use Rattle.std.specs.Prelude.{◌≡◌, ℕ, List, [], OnOk, IfErr, IsTrue, ◌↔◌, is_none, ◌++◌, codes};
ghost use Rattle.std.specs.List.{list_all};
ghost use Rattle.std.specs.Io.KnownBytes.{Appends};
ghost use Rattle.esync_base.specs.Rows.{items_of};
ghost use Rattle.esync_words.specs.Text.{answer_text, line_text, option_text, bytes_text, each_text, spaced, listed};
ghost use Rattle.esync_words.specs.Played.{IsJudged};

use crate::fault::Fault;
use crate::vocabulary::Vocabulary;
use esync_machine::primitive::Answer;
use std::io::{self, Write};

/// Prints an answer. A refusal of memory isn't printed, but ends the script.
///
/// # Errors
///
/// Returns the fault of a write, or of refused memory.
pub fn print_answer<V: Vocabulary, W: Write>(
    answer: &Answer<V::Heard>,
    output: &mut W,
) -> Result<(), Fault>
    ensures ok { OnOk result (Appends (W.contents output.old) (W.contents output.new) (answer_text V.text answer.now)) }
    ensures err { IfErr result (λ fault. IsJudged (Err fault) → ⊥) }
{
    match answer {
        Answer::Done => write!(output, "Ok")?,
        Answer::Pending => write!(output, "Pending")?,
        Answer::NoSuch => write!(output, "Err(NoSuch)")?,
        Answer::NoMemory => return Err(Fault::OutOfMemory),
        Answer::Gives(heard) => V::print(heard, output)?,
    }
    Ok(())
}

/// Prints the line of a reply: its answer, and the wakers that it hands out. The row of wakers may have empty places.
///
/// # Errors
///
/// Returns the fault of a write, or of refused memory.
pub fn print_reply<V: Vocabulary, W: Write>(
    answer: &Answer<V::Heard>,
    wakers: &[Option<u64>],
    output: &mut W,
) -> Result<(), Fault>
    ensures ok { OnOk result (Appends (W.contents output.old) (W.contents output.new) (line_text (answer_text V.text answer.now) (items_of wakers.now))) }
    ensures err { IfErr result (λ fault. IsJudged (Err fault) → ⊥) }
{
    print_answer::<V, W>(answer, output)?;
    write!(output, " |")?;
    print_wakers(wakers, output)?;
    if is_empty(wakers) {
        write!(output, " -")?;
    }
    writeln!(output)?;
    Ok(())
}

/// Prints `None`, or `Some` and the number.
pub fn print_option<W: Write>(number: Option<u64>, output: &mut W) -> io::Result<()>
    ensures { OnOk result (Appends (W.contents output.old) (W.contents output.new) (option_text number)) }
{
    match number {
        Some(number) => write!(output, "Some({number})"),
        None => write!(output, "None"),
    }
}

/// Prints bytes with commas between them, or a dash for no bytes.
pub fn print_bytes<W: Write>(bytes: &[u8], output: &mut W) -> io::Result<()>
    ensures { OnOk result (Appends (W.contents output.old) (W.contents output.new) (bytes_text bytes.now)) }
{
    match bytes.split_first() {
        Some((first, rest)) => {
            write!(output, "{first}")?;
            print_list(rest, output)
        }
        None => write!(output, "-"),
    }
}

// Prints each byte after a comma.
fn print_list<W: Write>(bytes: &[u8], output: &mut W) -> io::Result<()>
    ensures { OnOk result (Appends (W.contents output.old) (W.contents output.new) (each_text listed bytes.now)) }
{
    for byte in bytes {
        write!(output, ",{byte}")?;
    }
    Ok(())
}

/// Returns whether the row has no waker.
pub fn is_empty(wakers: &[Option<u64>]) -> bool
    ensures { IsTrue result ↔ (items_of wakers.now ≡ []) }
{
    are_free(wakers)
}

// Returns whether all places of the row are empty.
fn are_free(wakers: &[Option<u64>]) -> bool
    ensures { result ≡ list_all is_none wakers.now }
{
    wakers.iter().all(|waker| waker.is_none())
}

// Prints each waker after a space.
fn print_wakers<W: Write>(wakers: &[Option<u64>], output: &mut W) -> io::Result<()>
    ensures { OnOk result (Appends (W.contents output.old) (W.contents output.new) (each_text spaced (items_of wakers.now))) }
{
    for waker in wakers {
        if let Some(waker) = waker {
            write!(output, " {waker}")?;
        }
    }
    Ok(())
}
