//! Scripts: commands for one primitive, a line each, and the lines that answer them.
#![tactic(auto)]

ghost use Rattle.std.specs.Prelude.{◌≡◌, ◌≤◌, ◌⊎◌, min, Some, Err, IsOk, OnOk, IfErr};
ghost use Rattle.esync_script.specs.Opening.{language, scripts, runs, PlaysScript, EndsScript, EndsWith, status_of_outcome};
ghost use Rattle.esync_words.specs.Diagram.{diagram_story};
ghost use Rattle.esync_words.specs.Explained.{explained_story};
ghost use Rattle.esync_words.specs.Story.{replies_story};

use crate::capacity::{AnyCapacity, Capacity, Size};
use esync_words::diagram::Diagram;
use esync_words::explain::Explained;
use esync_words::fault::Fault;
use esync_words::lines::{Bounded, Lines};
use esync_words::play::{Replies, Telling};
use std::alloc::Global;
use std::io::{self, BufReader, BufWriter, Read, Write};

pub mod capacity;
pub mod channel;
pub mod lazy;
pub mod mutex;
pub mod numbers;
pub mod once;
pub mod opening;
pub mod pipe;
pub mod player;
pub mod pubsub;
pub mod scripted;
pub mod semaphore;
pub mod signal;
pub mod watch;
pub mod zerocopy;

/// Reads a script, writes the answers of its commands, and returns the status that tells how it ended.
///
/// Line 1 names a primitive and its capacity, as `channel 2`. The capacity is a [`Capacity`]. A line has at most 256
/// bytes, a command of a pipe at most 16, and a value 32 bits; there are 16 requests at a time. Each further line is
/// one command. Its answer is one line, as `Ready(7) | 3 4`: the answer to the command, and the wakers that it hands
/// out, in order, or `-` for none. A line is read, judged and answered before the next line is read.
///
/// | Status | The script ended | Written to `errors` |
/// |---|---|---|
/// | 0 | with its last line | nothing |
/// | 2 | at line K, which is no command | `line K: not a command` |
/// | 3 | at a read or a write that failed | `input or output failed` |
/// | 4 | for want of memory | `out of memory` |
///
/// The lines before are answered in each case, unless the write of their answers failed. Whether `errors` can be
/// written changes no status. `play_script` says what is proved of the lines and the answers.
pub fn script<R: Read + Drop, W: Write + Drop, E: Write + Drop>(
    alloc: Global,
    input: R,
    output: W,
    errors: E,
) -> u8
    ensures { EndsWith scripts replies_story (R.remaining input) result }
{
    run::<Capacity, Replies, R, W, E>(alloc, &mut Replies {}, input, output, errors)
}

/// Reads a script, writes it as a sequence diagram in the language of Mermaid, and returns the status, as `script`
/// does.
///
/// There is a lane for the primitive, for each task, by its waker, and for callers. There is an arrow for each command,
/// with the number of its line, for its answer, and for each waker that is handed out. A note says where a task waits.
/// So the poll that a task makes stands in the lane in which it was woken.
pub fn trace<R: Read + Drop, W: Write + Drop, E: Write + Drop>(
    alloc: Global,
    input: R,
    output: W,
    errors: E,
) -> u8
    ensures { EndsWith runs diagram_story (R.remaining input) result }
{
    run::<AnyCapacity, Diagram, R, W, E>(alloc, &mut Diagram {}, input, output, errors)
}

/// Reads a script, writes the answer of each command, behind its line and its number, and returns the status, as
/// `script` does. Behind each answer it writes to `notes` where each waker that was handed out was registered, and why
/// it was handed out. Then it writes which wakers are registered where, which requests wait or are due, and what the
/// primitive would answer now to such calls as `len`.
///
/// Neither output is buffered, so `notes` may write to the place of `output`. No contract says what stands in the
/// notes.
pub fn explain<R: Read + Drop, W: Write + Drop, N: Write + Drop, E: Write + Drop>(
    alloc: Global,
    input: R,
    mut output: W,
    notes: N,
    errors: E,
) -> u8
    ensures { EndsWith runs explained_story (R.remaining input) result }
{
    let mut explained = Explained::new(notes);
    let outcome = play_script(alloc, &mut explained, input, &mut output);
    status(outcome, errors)
}

/// Plays a whole script, and writes what `telling` tells of it.
///
/// The commands are those that the lines say, the replies are a run of the primitive that line 1 names, and the output
/// is what `telling` tells of them. The capacity in line 1 is an [`AnyCapacity`]. A line has at most 16,640 bytes, a
/// command of a pipe at most 4,096, and a value 64 bits; there are 1,024 requests at a time, and 16 on a pipe.
///
/// # Errors
///
/// Returns which line is no command, or that a read, a write or memory failed. The lines before have been played.
pub fn play_script<T: Telling, R: Read + Drop, W: Write>(
    alloc: Global,
    telling: &mut T,
    input: R,
    output: &mut W,
) -> Result<(), Fault>
    ensures { PlaysScript runs T.story (R.remaining input) (W.contents output.old) (W.contents output.new) result }
{
    play_read::<AnyCapacity, T, R, W>(alloc, telling, input, output)
}

fn play_read<C: Size, T: Telling, R: Read + Drop, W: Write>(
    alloc: Global,
    telling: &mut T,
    input: R,
    output: &mut W,
) -> Result<(), Fault>
    ensures { PlaysScript (language C C.sized C.size C.handled (min C.bytes 4096) C.bits C.longest C.requests) T.story (R.remaining input) (W.contents output.old) (W.contents output.new) result }
{
    match Lines::buffered(alloc, input) {
        Ok(mut lines) => opening::play_lines::<C, T, Bounded<BufReader<R>, C>, W>(
            telling, &mut lines, output,
        ),
        Err(fault) => Err(fault),
    }
}

/// Plays a whole script that stands in memory, and writes what `telling` tells of it, as `play_script` does. It takes
/// no memory, and doesn't flush the output.
///
/// # Errors
///
/// Returns which line is no command, or that `telling` or a write of the output failed. No read of the script fails.
pub fn play_bytes<T: Telling, W: Write>(
    telling: &mut T,
    text: &[u8],
    output: &mut W,
) -> Result<(), Fault>
    ensures { PlaysScript runs T.story (Some text.now) (W.contents output.old) (W.contents output.new) result }
{
    let mut lines = Lines::new(text);
    opening::play_lines::<AnyCapacity, T, _, W>(telling, &mut lines, output)
}

/// Plays a whole script that stands in memory, and appends what `telling` tells of it, as `play_script` does.
///
/// # Errors
///
/// Returns which line is no command, or that memory was refused, be it for `output`. No read or write of the script
/// fails.
pub fn play_text<T: Telling>(telling: &mut T, text: &str, output: &mut Vec<u8>) -> Result<(), Fault>
    ensures plays { PlaysScript runs T.story (Some text.now) (Some output.old.items) (Some output.new.items) result }
    ensures err { IfErr result (λ fault. fault ≡ Fault.InputOutput → ⊥) }
{
    match play_bytes(telling, text.as_bytes(), output) {
        Err(Fault::InputOutput) => Err(Fault::OutOfMemory),
        outcome => outcome,
    }
}

fn run<C: Size, T: Telling, R: Read + Drop, W: Write + Drop, E: Write + Drop>(
    alloc: Global,
    telling: &mut T,
    input: R,
    output: W,
    errors: E,
) -> u8
    ensures { EndsWith (language C C.sized C.size C.handled (min C.bytes 4096) C.bits C.longest C.requests) T.story (R.remaining input) result }
{
    status(
        play_pieces::<C, T, R, W>(alloc, telling, input, output),
        errors,
    )
}

// Returns the status that tells how a script ended. Writes the reason to `errors` if it didn't end with its last line.
fn status<E: Write + Drop>(outcome: Result<(), Fault>, mut errors: E) -> u8
    ensures { result ≡ status_of_outcome outcome }
{
    match outcome {
        Ok(()) => 0,
        Err(fault) => {
            let _ = report(&mut errors, &fault);
            fault.status()
        }
    }
}

fn report<E: Write>(errors: &mut E, fault: &Fault) -> io::Result<()> {
    writeln!(errors, "{fault}")?;
    errors.flush()
}

/// Plays a whole script, as `play_script` does, and writes in pieces: before a read that may wait, and at the end.
///
/// # Errors
///
/// Returns which line is no command, or that a read, a write or memory failed.
pub fn play_buffered<T: Telling, R: Read + Drop, W: Write + Drop>(
    alloc: Global,
    telling: &mut T,
    input: R,
    output: W,
) -> Result<(), Fault>
    ensures { EndsScript runs T.story (R.remaining input) result }
{
    play_pieces::<AnyCapacity, T, R, W>(alloc, telling, input, output)
}

fn play_pieces<C: Size, T: Telling, R: Read + Drop, W: Write + Drop>(
    alloc: Global,
    telling: &mut T,
    input: R,
    output: W,
) -> Result<(), Fault>
    ensures { EndsScript (language C C.sized C.size C.handled (min C.bytes 4096) C.bits C.longest C.requests) T.story (R.remaining input) result }
{
    let mut output = BufWriter::new(alloc, output).map_err(|_| Fault::OutOfMemory)?;
    let outcome = play_read::<C, T, R, BufWriter<W>>(alloc, telling, input, &mut output);
    finish(output, outcome)
}

// Writes the answers that are left. After a failed write nothing more is written, and a read comes after a flush.
fn finish<W: Write + Drop>(
    mut output: BufWriter<W>,
    outcome: Result<(), Fault>,
) -> Result<(), Fault>
    ensures ok { OnOk result (IsOk outcome) }
    ensures err { IfErr result (λ fault. (outcome ≡ Err fault) ⊎ (fault ≡ Fault.InputOutput)) }
{
    let flushed = match outcome {
        Err(Fault::InputOutput) => Ok(()),
        _ => output.flush(),
    };
    let _ = output.into_parts();
    flushed?;
    outcome
}
