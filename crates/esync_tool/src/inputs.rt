//! Inputs by their names, and what is said of one that was not gone through to its end.
use crate::Streams;
use crate::bad_line::{Reason, reason_of};
use crate::language::Language;
use crate::printable::Printable;
use crate::source::Keeping;
use crate::stopped::Stopped;
use esync_words::fault::Fault;
use std::alloc::Global;
use std::fs::{File, Files};
use std::io::{Read, Write};

/// The text of an input, as far as it can be read: up to the first line that isn't UTF-8, or that a read that failed has cut.
///
/// A line stands in place of that one which is none of any script, recorded run or system. So what goes through the text stops there
/// at last, and sooner where a line before is bad.
#[derive(Drop)]
pub struct Readable {
    text: String,
    cut: Option<Cut>,
}

/// Where a text ends before its input does, and why.
#[derive(Drop)]
struct Cut {
    line: u64,
    why: Stopped,
}

// What stands in place of a line that can't be read.
const UNREAD: &str = "\u{fffd}";

impl Readable {
    /// What can be read of the input of this name: standard input is `-`.
    pub fn of<R: Files, I: Read>(
        rt: &R,
        alloc: Global,
        name: &str,
        input: &mut I,
    ) -> Result<Self, Stopped> {
        let mut bytes = Vec::new(alloc);
        let Some(why) = read_all(rt, name, input, &mut bytes)? else {
            return Readable::whole(alloc, bytes);
        };
        // (the line that is cut isn't judged)
        let begun = bytes
            .iter()
            .rev()
            .take_while(|byte| **byte != b'\n')
            .count();
        bytes.truncate(bytes.len().saturating_sub(begun));
        let readable = Readable::whole(alloc, bytes)?;
        if readable.cut.is_some() {
            return Ok(readable);
        }
        let lines = readable.text.into_bytes();
        let line = line_behind(&lines);
        Readable::cut(lines, Cut { line, why })
    }

    // The text of these bytes, up to the first line that isn't UTF-8.
    fn whole(alloc: Global, bytes: Vec<u8>) -> Result<Self, Stopped> {
        let mut bytes = match String::from_utf8(bytes) {
            Ok(text) => return Ok(Readable { text, cut: None }),
            Err(error) => error.into_bytes(),
        };
        let (before, column) = odd_line(&bytes);
        bytes.truncate(before);
        let line = line_behind(&bytes);
        let text = String::from_str(alloc, "a byte that isn't ASCII")?;
        let why = Stopped::BadLine(line, Reason { column, text });
        Readable::cut(bytes, Cut { line, why })
    }

    // The text of these whole lines, and behind them the line that stands for what can't be read.
    fn cut(lines: Vec<u8>, cut: Cut) -> Result<Self, Stopped> {
        let mut lines = lines;
        lines.extend_from_slice(UNREAD.as_bytes())?;
        match String::from_utf8(lines) {
            Ok(text) => Ok(Readable {
                text,
                cut: Some(cut),
            }),
            Err(_) => Err(cut.why),
        }
    }

    pub fn text(&self) -> &str {
        self.text.as_str()
    }

    /// How it ends for the input, where it ends so for the text.
    pub fn outcome(self, outcome: Result<bool, Stopped>) -> Result<bool, Stopped> {
        let Readable { cut, .. } = self;
        let Some(cut) = cut else {
            return outcome;
        };
        let stops_there = match &outcome {
            Ok(_) => false,
            Err(stopped) => stopped.line() == Some(cut.line),
        };
        if stops_there { Err(cut.why) } else { outcome }
    }
}

// Reads the input of this name, and says why it isn't read to its end, if it isn't. An error is one that can't be opened, or want of
// memory.
fn read_all<R: Files, I: Read>(
    rt: &R,
    name: &str,
    input: &mut I,
    bytes: &mut Vec<u8>,
) -> Result<Option<Stopped>, Stopped> {
    let read = if name == "-" {
        input.read_to_end(bytes)
    } else {
        let mut file = File::open(rt, name).map_err(Stopped::unopened)?;
        file.read_to_end(bytes)
    };
    match read.map_err(Stopped::unread) {
        Ok(_) => Ok(None),
        Err(Stopped::Fault(Fault::OutOfMemory)) => Err(Stopped::Fault(Fault::OutOfMemory)),
        Err(failed) => Ok(Some(failed)),
    }
}

// How many bytes stand before the first line that isn't UTF-8, and the column in it of the first byte that isn't ASCII.
fn odd_line(bytes: &[u8]) -> (usize, usize) {
    let mut before: usize = 0;
    for line in bytes.split(|byte| *byte == b'\n') {
        if str::from_utf8(line).is_err() {
            let column = line.iter().take_while(|byte| byte.is_ascii()).count();
            return (before, column.saturating_add(1));
        }
        before = before.saturating_add(line.len()).saturating_add(1);
    }
    (before, 1)
}

// The number of the line behind these.
fn line_behind(lines: &[u8]) -> u64 {
    let feeds = lines.iter().filter(|byte| **byte == b'\n').count() as u64;
    feeds.saturating_add(1)
}

/// The first line of a text.
pub fn first_line(text: &str) -> &str {
    text.split('\n').next().unwrap_or("")
}

/// Says that a terminal is read, where it is.
pub fn hint<I: Drop, O: Drop, N: Drop, E: Write + Drop, K: Drop>(
    name: &str,
    streams: &mut Streams<I, O, N, E, K>,
) {
    if name == "-" && streams.is_terminal {
        let _ = writeln!(
            streams.errors,
            "esync: reads from the terminal, up to Ctrl-D"
        );
        let _ = streams.errors.flush();
    }
}

/// The status of an input. Says why, where it was not gone through to its end.
pub fn status<E: Write>(name: &str, outcome: Result<bool, Stopped>, errors: &mut E) -> u8 {
    match outcome {
        Ok(holds) => u8::from(!holds),
        Err(stopped) => {
            let text = if name == "-" { "standard input" } else { name };
            let _ = match &stopped {
                Stopped::Unwritten => writeln!(errors, "esync: {stopped}"),
                _ => writeln!(errors, "esync: {}: {stopped}", Printable { text }),
            };
            let _ = errors.flush();
            stopped.status()
        }
    }
}

/// The outcome of a play, with the reason why a line is no command, as far as it is still kept.
pub fn with_reason<R: Drop>(
    alloc: Global,
    outcome: Result<(), Fault>,
    kept: &Keeping<R>,
) -> Result<(), Stopped> {
    let Err(fault) = outcome else {
        return Ok(());
    };
    if fault == Fault::InputOutput && !kept.has_failed() {
        return Err(Stopped::Unwritten);
    }
    let Fault::NotACommand(number) = fault else {
        return Err(Stopped::Fault(fault));
    };
    let Some(line) = kept.line(alloc, number)? else {
        return Err(Stopped::Fault(fault));
    };
    let primitive = if number == 1 { None } else { kept.primitive() };
    match reason_of(alloc, Language::Script, primitive, &line)? {
        Some(reason) => Err(Stopped::BadLine(number, reason)),
        None => Err(Stopped::Fault(fault)),
    }
}

/// Why a text was not gone through, with the reason why a line is no command. What stands behind a command of a recorded run isn't
/// looked at.
pub fn reasoned(alloc: Global, stopped: Stopped, text: &str, language: Language) -> Stopped {
    let Stopped::Fault(Fault::NotACommand(number)) = stopped else {
        return stopped;
    };
    match reason_in(alloc, number, text, language) {
        Ok(Some(reason)) => Stopped::BadLine(number, reason),
        Ok(None) => Stopped::Fault(Fault::NotACommand(number)),
        Err(_) => Stopped::Fault(Fault::OutOfMemory),
    }
}

fn reason_in(
    alloc: Global,
    number: u64,
    text: &str,
    language: Language,
) -> Result<Option<Reason>, std::alloc::AllocError> {
    let mut lines = text.split('\n');
    let first = lines.next().unwrap_or("");
    let (name, _) = first.split_once(' ').unwrap_or((first, ""));
    if number <= 1 {
        return reason_of(alloc, language, None, first.as_bytes());
    }
    let line = lines.nth((number - 2) as usize).unwrap_or("");
    let command = match line.split_once(" => ") {
        Some((command, _)) if matches!(language, Language::Recorded) => command,
        _ => line,
    };
    reason_of(alloc, language, Some(name), command.as_bytes())
}
