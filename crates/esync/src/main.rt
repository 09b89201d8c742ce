//! Plays, draws, explains and judges scripts of the primitives: `esync --help`.
#![tactic(auto)]

use esync_tool::{Streams, esync};
use std::env;
use std::io::{self, ErrorKind, IsTerminal, Write};
use std::process::ExitCode;

fn main(rt: HostRuntime) -> ExitCode {
    let (input, errors) = (rt.stdin(), rt.stderr());
    let streams = Streams {
        is_terminal: input.is_terminal(),
        input,
        output: rt.stdout(),
        notes: rt.stdout(),
        is_watched: errors.is_terminal(),
        errors,
        clock: &rt,
    };
    match words_of(&rt) {
        Ok(words) => ExitCode::from(esync(&rt, rt.alloc(), words.as_slice(), streams)),
        Err(error) => ExitCode::from(without_words(&error, rt.stderr())),
    }
}

// The words of the command line.
fn words_of(rt: &HostRuntime) -> io::Result<Vec<String>> {
    Ok(env::args(rt)?.collect::<Vec<String>>(rt.alloc())?)
}

// Says why the words of the command line aren't there, and returns the status.
fn without_words<E: Write + Drop>(error: &io::Error, mut errors: E) -> u8 {
    let (why, status) = if error.kind() == ErrorKind::OutOfMemory {
        ("out of memory", 4)
    } else {
        ("a word of the command line isn't UTF-8", 2)
    };
    let _ = writeln!(errors, "esync: {why}");
    let _ = errors.flush();
    status
}
