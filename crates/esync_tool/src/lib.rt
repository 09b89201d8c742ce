//! The tool `esync`: scripts, recorded runs and systems of the primitives, for people.
#![tactic(auto)]

use crate::stopped::Stopped;
use esync_words::fault::Fault;
use std::alloc::Global;
use std::fs::Files;
use std::io::{Read, Write};
use std::sync::Wait;
use std::time::Clock;

mod arguments;
mod bad_line;
mod by_line;
mod explored;
mod inputs;
mod judged;
mod language;
mod printable;
mod shared;
mod source;
mod steps;
mod stopped;
mod svg;
mod tasks;

/// What the tool reads and writes.
#[derive(Drop)]
pub struct Streams<I: Drop, O: Drop, N: Drop, E: Drop, K: Drop> {
    pub input: I,
    /// The input is a terminal, where somebody types.
    pub is_terminal: bool,
    pub output: O,
    /// Where the notes of an explanation go, as a rule to the output.
    pub notes: N,
    pub errors: E,
    /// The errors are a terminal, where somebody waits.
    pub is_watched: bool,
    /// The clock by which progress is told of what takes long.
    pub clock: K,
}

/// Does what the words of a command line ask for, of which the first is the program's name, and returns the status.
///
/// | Status | What was asked for |
/// |---|---|
/// | 0 | holds, or came to its end |
/// | 1 | doesn't hold |
/// | 2 | isn't understood, or the input is bad: `errors` says where and why |
/// | 3 | met a read or a write that failed |
/// | 4 | takes more memory than there is |
///
/// Of several files the greatest status counts. A write to `output` or `notes` that fails is the last one; whether
/// `errors` can be written changes no status.
pub fn esync<R, I, O, N, E, K>(
    rt: &R,
    alloc: Global,
    words: &[String],
    streams: Streams<I, O, N, E, K>,
) -> u8
where
    R: Files + Wait,
    I: Read + Drop,
    O: Write + Drop,
    N: Write + Drop,
    E: Write + Drop,
    K: Clock + Drop,
{
    let mut streams = streams;
    match asked(rt, alloc, words, &mut streams) {
        Ok(status) => status,
        Err(stopped) => {
            let _ = writeln!(streams.errors, "esync: {stopped}");
            let _ = streams.errors.flush();
            stopped.status()
        }
    }
}

fn asked<R, I, O, N, E, K>(
    rt: &R,
    alloc: Global,
    words: &[String],
    streams: &mut Streams<I, O, N, E, K>,
) -> Result<u8, Stopped>
where
    R: Files + Wait,
    I: Read + Drop,
    O: Write + Drop,
    N: Write + Drop,
    E: Write + Drop,
    K: Clock + Drop,
{
    let command = arguments::command(alloc)?;
    let matches = match command.try_get_matches_from(words) {
        Ok(matches) => matches,
        Err(error) => return said(&error, streams),
    };
    match matches.subcommand() {
        Some((name, matches)) => tasks::perform(rt, alloc, name, matches, streams),
        None => Ok(2),
    }
}

// Says what the command line asks to be told: a help, the version, or what isn't understood.
fn said<I: Drop, O: Write + Drop, N: Drop, E: Write + Drop, K: Drop>(
    error: &clap::Error,
    streams: &mut Streams<I, O, N, E, K>,
) -> Result<u8, Stopped> {
    if error.kind() == clap::error::ErrorKind::OutOfMemory {
        return Err(Stopped::Fault(Fault::OutOfMemory));
    }
    if error.use_stderr() {
        let _ = write!(streams.errors, "{error}");
        let _ = streams.errors.flush();
        return Ok(2);
    }
    write!(streams.output, "{error}")?;
    streams.output.flush()?;
    Ok(0)
}
