//! The verdict on a recorded run, for people and as JSON.
use crate::inputs::first_line;
use crate::printable::Printable;
use crate::stopped::Stopped;
use esync_check::difference::Difference;
use esync_check::{Verdict, check_script, print_verdict};
use esync_script::play_bytes;
use esync_words::explain::Explained;
use serde_json::{Value, json};
use std::alloc::{AllocError, Global};
use std::io::{self, Write};

/// Whether a recorded run is one, which is written. Where it is none, and that is asked for, why its primitive hands out each waker
/// there is written too.
pub fn check<O: Write>(
    alloc: Global,
    text: &str,
    is_why_asked: bool,
    output: &mut O,
) -> Result<bool, Stopped> {
    let text = text.as_bytes();
    let mut script = Vec::new(alloc);
    let mut replies = Vec::new(alloc);
    let mut given = Vec::new(alloc);
    let verdict = check_script(text, &mut script, &mut replies, &mut given)?;
    let Verdict::Another(difference) = verdict else {
        print_verdict(text, &verdict, output)?;
        return Ok(true);
    };
    let shown = printable(alloc, shortened(alloc, &difference)?)?;
    print_verdict(text, &Verdict::Another(shown.as_difference()), output)?;
    if is_why_asked {
        for reason in &reasons(alloc, &script, shown.line) {
            writeln!(output, "why: {reason}")?;
        }
    }
    Ok(false)
}

/// Whether a recorded run is one, which is written as a line of JSON.
///
/// | `verdict` | Beside `file` it has |
/// |---|---|
/// | `run` | `primitive`, which is line 1, and how many `commands` |
/// | `another` | `primitive`; the `line` whose reply is another, its `command`, the reply that was `recorded`, the one that the primitive has `given`, and `why` it hands out each waker there |
pub fn check_as_json<O: Write>(
    alloc: Global,
    name: &str,
    text: &str,
    output: &mut O,
) -> Result<bool, Stopped> {
    let mut script = Vec::new(alloc);
    let mut replies = Vec::new(alloc);
    let mut given = Vec::new(alloc);
    match check_script(text.as_bytes(), &mut script, &mut replies, &mut given)? {
        Verdict::Run(commands) => {
            let primitive = first_line(text);
            let found = json!(in alloc; {
                "file": name, "verdict": "run", "primitive": primitive, "commands": commands
            })?;
            write_line(alloc, &found, output)?;
            Ok(true)
        }
        Verdict::Another(difference) => {
            let shown = shortened(alloc, &difference)?;
            let reasons = reasons(alloc, &script, shown.line);
            let found = another(alloc, name, text, &shown, &reasons)?;
            write_line(alloc, &found, output)?;
            Ok(false)
        }
    }
}

/// Writes as a line of JSON why an input has no verdict: `verdict` is `none`, and beside `file` it has the `status` and the `reason`.
pub fn unjudged_as_json<O: Write>(
    alloc: Global,
    name: &str,
    stopped: &Stopped,
    output: &mut O,
) -> Result<(), Stopped> {
    let reason = format!(in alloc; "{stopped}")?;
    let status = u64::from(stopped.status());
    let found = json!(in alloc; {
        "file": name, "verdict": "none", "status": status, "reason": reason.as_str()
    })?;
    write_line(alloc, &found, output)?;
    Ok(())
}

// How many characters of a reply are shown.
const SHOWN: usize = 1000;

// How many of them stand before the first one that differs, where the replies begin with as many that are alike as are shown.
const BEFORE: usize = 100;

// A reply that isn't the primitive's, as it is shown.
#[derive(Drop)]
struct Shown {
    line: u64,
    recorded: String,
    given: String,
}

impl Shown {
    fn as_difference(&self) -> Difference<'_> {
        Difference {
            line: self.line,
            recorded: self.recorded.as_bytes(),
            given: self.given.as_bytes(),
        }
    }
}

fn shortened(alloc: Global, difference: &Difference<'_>) -> Result<Shown, AllocError> {
    // (a part of a text between line feeds and arrows is a text)
    let recorded = str::from_utf8(difference.recorded).unwrap_or("");
    let given = str::from_utf8(difference.given).unwrap_or("");
    let first = first_shown(recorded, given);
    Ok(Shown {
        line: difference.line,
        recorded: part(alloc, recorded, first)?,
        given: part(alloc, given, first)?,
    })
}

// Which character of both replies is the first that is shown, so that the first one that differs is shown.
fn first_shown(recorded: &str, given: &str) -> usize {
    let pairs = recorded.chars().zip(given.chars());
    let alike = pairs.take_while(|(one, other)| one == other).count();
    if alike < SHOWN {
        0
    } else {
        alike.saturating_sub(BEFORE)
    }
}

// As people are shown it, with no control character.
fn printable(alloc: Global, shown: Shown) -> Result<Shown, AllocError> {
    let Shown {
        line,
        recorded,
        given,
    } = shown;
    let text = recorded.as_str();
    Ok(Shown {
        line,
        recorded: format!(in alloc; "{}", Printable { text })?,
        given,
    })
}

// What is shown of a reply from this character on, and how long the reply is where that isn't all.
fn part(alloc: Global, reply: &str, first: usize) -> Result<String, AllocError> {
    let mut text = String::new(alloc);
    if first > 0 {
        write!(text, ".. ")?;
    }
    for character in reply.chars().skip(first).take(SHOWN) {
        text.push(character)?;
    }
    let is_cut = reply.chars().skip(first).nth(SHOWN).is_some();
    if is_cut {
        write!(text, "..")?;
    }
    if first > 0 || is_cut {
        write!(text, " ({} bytes)", reply.len())?;
    }
    Ok(text)
}

fn another(
    alloc: Global,
    name: &str,
    text: &str,
    shown: &Shown,
    reasons: &[String],
) -> Result<Value, AllocError> {
    let primitive = first_line(text);
    let recorded = text
        .split('\n')
        .nth(shown.line.saturating_sub(1) as usize)
        .unwrap_or("");
    let (command, _) = recorded.split_once(" => ").unwrap_or((recorded, ""));
    let mut why = Vec::new(alloc);
    for reason in reasons {
        why.push(Value::try_from_str(alloc, reason.as_str())?)?;
    }
    json!(in alloc; {
        "file": name,
        "verdict": "another",
        "primitive": primitive,
        "line": shown.line,
        "command": command,
        "recorded": shown.recorded.as_str(),
        "given": shown.given.as_str(),
        "why": Value::Array(why)
    })
}

fn write_line<O: Write>(alloc: Global, value: &Value, output: &mut O) -> io::Result<()> {
    let line = value.to_string(alloc)?;
    writeln!(output, "{line}")
}

// Why each waker is handed out at the line of this number of a script. Where there is no memory to find out, nothing is said, and the
// verdict stands alone.
fn reasons(alloc: Global, script: &[u8], number: u64) -> Vec<String> {
    match explained_at(alloc, script, number) {
        Ok(reasons) => reasons,
        Err(_) => Vec::new(alloc),
    }
}

// Why each waker is handed out there, as an explanation of the script says.
fn explained_at(alloc: Global, script: &[u8], number: u64) -> Result<Vec<String>, Stopped> {
    let notes = numbered_notes(alloc, script, number)?;
    let margin = format!(in alloc; "{number}: ")?;
    let mut reasons = Vec::new(alloc);
    for note in str::from_utf8(&notes).unwrap_or("").split('\n') {
        let Some(note) = note.strip_prefix(margin.as_str()) else {
            continue;
        };
        // (the other notes, who stands where and what would be heard, begin with a word)
        if note.starts_with(|first: char| first.is_ascii_digit()) {
            reasons
                .push(String::from_str(alloc, note)?)
                .map_err(AllocError::from)?;
        }
    }
    Ok(reasons)
}

// The notes of an explanation of the first so many lines of a script, each behind the number of its line.
fn numbered_notes(alloc: Global, script: &[u8], count: u64) -> Result<Vec<u8>, Stopped> {
    let mut lines = Vec::new(alloc);
    for line in script.split(|byte| *byte == b'\n').take(count as usize) {
        lines.extend_from_slice(line)?;
        lines.extend_from_slice(b"\n")?;
    }
    let mut notes = Vec::new(alloc);
    let mut answers = Vec::new(alloc);
    let mut explained = Explained::numbered(&mut notes);
    play_bytes(&mut explained, &lines, &mut answers)?;
    drop(explained);
    Ok(notes)
}
