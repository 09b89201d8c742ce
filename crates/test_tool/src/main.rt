//! Plays each script of the cases that are named, by the tool `esync` or by `syncrun`, and prints what is written of it.
//!
//!     test_tool [--syncrun | --draw | --pages | --explain | --reasons | --ends | --check | --explore | --watched | --words] NAME.. [--draw NAME.. ..]
//!
//! A case is a file of scripts, with a line `=` between two. Of each script it prints the case's name, with the script's number
//! where there are several; what is written to the output, to the notes and to the errors; and the status. A word before the
//! names says what plays the scripts.
#![tactic(auto)]

use esync_script::script;
use esync_tool::{Streams, esync};
use std::alloc::{AllocError, Global};
use std::cell::Cell;
use std::fs::Files;
use std::sync::Wait;
use std::time::{Clock, Duration};
use std::{env, fs, io, mem};

/// What plays a script.
#[derive(Clone, Copy)]
enum Mode {
    /// The program `syncrun`.
    Syncrun,
    /// The tool by these words, with the script as its standard input.
    Tool(&'static str),
    /// `esync explain`, of which the notes alone are printed: no line and no answer.
    Reasons,
    /// The tool by the words of the first line, with what follows as its standard input.
    Words,
    /// The tool by the words of the first line, for somebody who waits at a terminal.
    Watched,
}

/// A clock that goes on by 300 milliseconds each time it is read.
#[derive(Drop)]
struct Ticks {
    now: Cell<u64>,
}

impl Clock for Ticks {
    fn monotonic(&self) -> io::Result<Duration> {
        self.now.set(self.now.get().saturating_add(300));
        Ok(Duration::from_millis(self.now.get()))
    }

    fn since_1970(&self) -> io::Result<Duration> {
        self.monotonic()
    }
}

impl Mode {
    fn named(word: &str) -> Option<Mode> {
        match word {
            "--syncrun" => Some(Mode::Syncrun),
            "--draw" => Some(Mode::Tool("esync draw")),
            "--pages" => Some(Mode::Tool("esync draw --format markdown")),
            "--explain" => Some(Mode::Tool("esync explain")),
            "--reasons" => Some(Mode::Reasons),
            "--ends" => Some(Mode::Tool("esync ends")),
            "--check" => Some(Mode::Tool("esync check")),
            "--explore" => Some(Mode::Tool("esync explore")),
            "--watched" => Some(Mode::Watched),
            "--words" => Some(Mode::Words),
            _ => None,
        }
    }
}

/// What is written of a script, and its status.
#[derive(Drop)]
struct Written {
    output: Vec<u8>,
    notes: Vec<u8>,
    errors: Vec<u8>,
    status: u8,
}

fn written_by_syncrun(alloc: Global, input: &[u8]) -> Written {
    let (mut output, mut errors) = (Vec::new(alloc), Vec::new(alloc));
    let status = script(alloc, input, &mut output, &mut errors);
    Written {
        output,
        notes: Vec::new(alloc),
        errors,
        status,
    }
}

// What the tool writes, by these words.
fn written_by_tool<R: Files + Wait>(
    rt: &R,
    alloc: Global,
    line: &str,
    input: &[u8],
    is_watched: bool,
) -> anyhow::Result<Written> {
    let mut words = Vec::new(alloc);
    for word in line.split(' ') {
        words.push(String::from_str(alloc, word)?)?;
    }
    let (mut output, mut notes, mut errors) = (Vec::new(alloc), Vec::new(alloc), Vec::new(alloc));
    let streams = Streams {
        input,
        is_terminal: false,
        output: &mut output,
        notes: &mut notes,
        errors: &mut errors,
        is_watched,
        clock: Ticks { now: Cell::new(0) },
    };
    let status = esync(rt, alloc, words.as_slice(), streams);
    Ok(Written {
        output,
        notes,
        errors,
        status,
    })
}

// What the tool writes, of a script whose first line has its words.
fn written_by_words<R: Files + Wait>(
    rt: &R,
    alloc: Global,
    script: &[u8],
    is_watched: bool,
) -> anyhow::Result<Written> {
    let at = script
        .iter()
        .position(|byte| *byte == b'\n')
        .unwrap_or(script.len());
    let (first, input) = script.split_at(at);
    written_by_tool(
        rt,
        alloc,
        str::from_utf8(first)?,
        input.get(1..).unwrap_or(&[]),
        is_watched,
    )
}

// What `esync explain` writes, but for the answers.
fn reasons_of<R: Files + Wait>(rt: &R, alloc: Global, script: &[u8]) -> anyhow::Result<Written> {
    let Written {
        notes,
        errors,
        status,
        ..
    } = written_by_tool(rt, alloc, "esync explain", script, false)?;
    Ok(Written {
        output: Vec::new(alloc),
        notes,
        errors,
        status,
    })
}

fn written_of<R: Files + Wait>(
    rt: &R,
    alloc: Global,
    mode: Mode,
    script: &[u8],
) -> anyhow::Result<Written> {
    match mode {
        Mode::Syncrun => Ok(written_by_syncrun(alloc, script)),
        Mode::Tool(words) => written_by_tool(rt, alloc, words, script, false),
        Mode::Reasons => reasons_of(rt, alloc, script),
        Mode::Words => written_by_words(rt, alloc, script, false),
        Mode::Watched => written_by_words(rt, alloc, script, true),
    }
}

/// The text of what is written of a script.
fn text_of<R: Files + Wait>(
    rt: &R,
    alloc: Global,
    mode: Mode,
    script: &[u8],
) -> anyhow::Result<String> {
    let written = written_of(rt, alloc, mode, script)?;
    let output = str::from_utf8(&written.output)?;
    let notes = str::from_utf8(&written.notes)?;
    let errors = str::from_utf8(&written.errors)?;
    let status = written.status;
    Ok(format!(in alloc; "{output}{notes}{errors}status {status}\n")?)
}

/// The scripts of a case.
fn scripts_of(alloc: Global, case: &[u8]) -> Result<Vec<Vec<u8>>, AllocError> {
    let (mut scripts, mut script) = (Vec::new(alloc), Vec::new(alloc));
    for line in case.split_inclusive(|byte| *byte == b'\n') {
        if line == b"=\n".as_slice() {
            scripts.push(mem::replace(&mut script, Vec::new(alloc)))?;
        } else {
            script.extend_from_slice(line)?;
        }
    }
    scripts.push(script)?;
    Ok(scripts)
}

fn text_of_case<R: Files + Wait>(
    rt: &R,
    alloc: Global,
    mode: Mode,
    name: &str,
    case: &[u8],
) -> anyhow::Result<String> {
    let scripts = scripts_of(alloc, case)?;
    let mut text = String::new(alloc);
    for (place, script) in scripts.iter().enumerate() {
        write!(text, "== {name}")?;
        if scripts.len() > 1 {
            write!(text, " {}", place + 1)?;
        }
        write!(text, "\n{}", text_of(rt, alloc, mode, script)?)?;
    }
    Ok(text)
}

fn main(rt: HostRuntime) -> anyhow::Result<()> {
    let alloc = rt.alloc();
    let mut mode = Mode::Syncrun;
    for word in env::args(&rt)?.skip(1) {
        if let Some(named) = Mode::named(&word) {
            mode = named;
        } else {
            let case = fs::read(&rt, word.as_str())?;
            print!(rt; "{}", text_of_case(&rt, alloc, mode, &word, &case)?)?;
        }
    }
    Ok(())
}
