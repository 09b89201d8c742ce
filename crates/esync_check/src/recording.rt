//! A recorded run, taken apart into the script and the replies in it.
ghost use Rattle.std.specs.Prelude.{◌≡◌, ℕ, List, [], ◌++◌, IfOk, IfErr, IfSome, OnOk, ◌⊎◌, codes, true};
ghost use Rattle.std.specs.Io.KnownBytes.{Appends};
ghost use Rattle.esync_words.specs.Lines.{first_line, other_lines};
ghost use Rattle.esync_check.specs.Recorded.{AddsEntries, TakesApart, line_text};

use crate::print_line;
use crate::room::Room;
use esync_words::fault::Fault;
use std::io::Write;

/// What was found of a recorded run, beside its script and its replies.
#[derive(Clone, Copy)]
pub struct Recording {
    /// The number of commands.
    pub commands: u64,
    /// Whether each line has a reply. A line without one is left out, with the lines behind it.
    pub is_whole: bool,
}

impl Recording {
    /// Takes a recorded run apart. It writes line 1 and the commands into one room, and the replies into another one, a
    /// line each. What the rooms had before is forgotten.
    ///
    /// # Errors
    ///
    /// Returns `NotACommand(1)` for an empty text, which has no line 1, and otherwise `OutOfMemory` if a room is full.
    pub fn read<R: Room>(text: &[u8], script: &mut R, replies: &mut R) -> Result<Self, Fault>
        ensures ok { IfOk result (λ recording. TakesApart text.now (R.contents script.new) (R.contents replies.new) recording.commands recording.is_whole) }
        ensures err { IfErr result (λ fault. (fault ≡ Fault.OutOfMemory) ⊎ ((text.now ≡ []) × (fault ≡ Fault.NotACommand 1))) }
    {
        if text.is_empty() {
            return Err(Fault::NotACommand(1));
        }
        let (first, lines) = split_line(text);
        script.clear();
        replies.clear();
        append_line(first, script)?;
        read_entries(lines, script, replies)
    }
}

// Reads the lines behind line 1, up to the first that has no reply, and appends their commands and their replies.
fn read_entries<W: Write>(lines: &[u8], script: &mut W, replies: &mut W) -> Result<Recording, Fault>
    ensures ok { IfOk result (λ it. (rest : List ℕ) × AddsEntries lines.now (W.contents script.old) (W.contents script.new) (W.contents replies.old) (W.contents replies.new) it.commands rest × (it.is_whole ≡ true → rest ≡ [])) }
    ensures err { IfErr result (λ fault. fault ≡ Fault.OutOfMemory) }
{
    let mut commands: u64 = 0;
    let mut rest = lines;
    while !rest.is_empty() {
        let (line, behind) = split_line(rest);
        let Some((command, reply)) = split_entry(line) else {
            return Ok(Recording {
                commands,
                is_whole: false,
            });
        };
        append_line(command, script)?;
        append_line(reply, replies)?;
        commands = commands.saturating_add(1);
        rest = behind;
    }
    Ok(Recording {
        commands,
        is_whole: true,
    })
}

/// Returns the first line of the text, without its line feed, and the text behind it.
pub fn split_line(text: &[u8]) -> (&[u8], &[u8])
    ensures line { result.0.now ≡ first_line text.now }
    ensures rest { result.1.now ≡ other_lines text.now }
{
    match text.iter().position(|byte| *byte == b'\n') {
        Some(end) => (&text[..end], &text[end + 1..]),
        None => (text, &[]),
    }
}

// Returns the command and the reply of a line, if it has a reply.
fn split_entry(line: &[u8]) -> Option<(&[u8], &[u8])>
    ensures { IfSome result (λ parts. line.now ≡ parts.0.now ++ (codes " => " ++ parts.1.now)) }
{
    for end in 0..line.len() {
        if let Some(reply) = line[end..].strip_prefix(b" => ") {
            return Some((&line[..end], reply));
        }
    }
    None
}

// Appends the line and a line feed. A room refuses them only for want of memory.
fn append_line<W: Write>(line: &[u8], output: &mut W) -> Result<(), Fault>
    ensures ok { OnOk result (Appends (W.contents output.old) (W.contents output.new) (line_text line.now)) }
    ensures err { IfErr result (λ fault. fault ≡ Fault.OutOfMemory) }
{
    print_line(line, output).map_err(|_| Fault::OutOfMemory)
}
