//! What each command of the tool does.
use crate::Streams;
use crate::by_line::ByLine;
use crate::explored::{Form, explore};
use crate::inputs::{Readable, hint, reasoned, status, with_reason};
use crate::judged::{check, check_as_json, unjudged_as_json};
use crate::language::Language;
use crate::printable::Printable;
use crate::shared::{compared, played};
use crate::source::Keeping;
use crate::steps::Steps;
use crate::stopped::Stopped;
use crate::svg::draw;
use clap::ArgMatches;
use esync_ends::gauge::Gauge;
use esync_ends::{Progress, Reaches, try_ends};
use esync_script::{play_buffered, play_script, play_text};
use esync_words::beside::Beside;
use esync_words::diagram::Diagram;
use esync_words::explain::Explained;
use esync_words::fault::Fault;
use esync_words::pages::Pages;
use esync_words::play::{Replies, Telling};
use std::alloc::Global;
use std::fmt::{self, Display, Formatter};
use std::fs::{File, Files};
use std::io::{self, Read, Write};
use std::sync::Wait;
use std::time::Clock;

/// Does what the command of this name asks for.
pub fn perform<R, I, O, N, E, K>(
    rt: &R,
    alloc: Global,
    name: &str,
    matches: &ArgMatches<'_>,
    streams: &mut Streams<I, O, N, E, K>,
) -> Result<u8, Stopped>
where
    R: Files + Wait,
    I: Read + Drop,
    O: Write + Drop,
    N: Write + Drop,
    E: Write + Drop,
    K: Clock + Drop,
{
    let file = matches.get_str("FILE").unwrap_or("-");
    match name {
        "run" if matches.get_flag("beside") => tell(rt, alloc, &mut Beside {}, file, streams),
        "run" => tell(rt, alloc, &mut Replies {}, file, streams),
        "draw" if matches.get_str("format") == Some("markdown") => {
            tell(rt, alloc, &mut Pages::new(), file, streams)
        }
        "draw" if matches.get_str("format") == Some("svg") => {
            with_files(rt, alloc, Work::Draw, matches, streams)
        }
        "draw" => tell(rt, alloc, &mut Diagram {}, file, streams),
        "explain" => explain(rt, alloc, file, streams),
        "check" if matches.get_flag("json") => {
            with_files(rt, alloc, Work::CheckAsJson, matches, streams)
        }
        "check" if matches.get_flag("why") => {
            with_files(rt, alloc, Work::CheckWithReasons, matches, streams)
        }
        "check" => with_files(rt, alloc, Work::Check, matches, streams),
        "ends" => {
            let limit = matches.get_one::<u64>("limit").unwrap_or(u64::MAX);
            with_files(rt, alloc, Work::Ends(limit), matches, streams)
        }
        "explore" => {
            let limit = matches.get_one::<u64>("limit").unwrap_or(0) as usize;
            let form = if matches.get_flag("json") {
                Form::Json
            } else if matches.get_flag("draw") {
                Form::Picture
            } else {
                Form::Text
            };
            with_files(rt, alloc, Work::Explore(form, limit), matches, streams)
        }
        _ if matches.get_flag("compare") => with_files(rt, alloc, Work::Compare, matches, streams),
        _ => with_files(rt, alloc, Work::Shared, matches, streams),
    }
}

// Plays a script, and writes what is told of it.
fn tell<T, R, I, O, N, E, K>(
    rt: &R,
    alloc: Global,
    telling: &mut T,
    name: &str,
    streams: &mut Streams<I, O, N, E, K>,
) -> Result<u8, Stopped>
where
    T: Telling,
    R: Files,
    I: Read + Drop,
    O: Write + Drop,
    N: Drop,
    E: Write + Drop,
    K: Drop,
{
    hint(name, streams);
    let Streams {
        input,
        output,
        errors,
        ..
    } = streams;
    let outcome = told(rt, alloc, telling, name, input, output);
    Ok(status(name, outcome.map(|()| true), errors))
}

// Plays the script of this name.
fn told<T: Telling, R: Files, I: Read + Drop, O: Write + Drop>(
    rt: &R,
    alloc: Global,
    telling: &mut T,
    name: &str,
    input: &mut I,
    output: &mut O,
) -> Result<(), Stopped> {
    if name == "-" {
        return told_of(alloc, telling, input, output);
    }
    let file = File::open(rt, name).map_err(Stopped::unopened)?;
    told_of(alloc, telling, file, output)
}

fn told_of<T: Telling, S: Read + Drop, O: Write + Drop>(
    alloc: Global,
    telling: &mut T,
    source: S,
    output: &mut O,
) -> Result<(), Stopped> {
    let mut kept = Keeping::new(alloc, source);
    let outcome = play_buffered(alloc, telling, &mut kept, &mut *output);
    if kept.is_cut() {
        // (what was begun on line 1 ends where a read failed, too)
        telling.close(output).map_err(|_| Stopped::Unwritten)?;
        output.flush()?;
    }
    with_reason(alloc, outcome, &kept)
}

// Plays a script, and writes each answer, and behind it why each waker was handed out.
fn explain<R, I, O, N, E, K>(
    rt: &R,
    alloc: Global,
    name: &str,
    streams: &mut Streams<I, O, N, E, K>,
) -> Result<u8, Stopped>
where
    R: Files,
    I: Read + Drop,
    O: Write + Drop,
    N: Write + Drop,
    E: Write + Drop,
    K: Drop,
{
    hint(name, streams);
    let Streams {
        input,
        output,
        notes,
        errors,
        ..
    } = streams;
    let outcome = explained(rt, alloc, name, input, output, notes);
    Ok(status(name, outcome.map(|()| true), errors))
}

// Plays the script of this name.
fn explained<R: Files, I: Read + Drop, O: Write + Drop, N: Write + Drop>(
    rt: &R,
    alloc: Global,
    name: &str,
    input: &mut I,
    output: &mut O,
    notes: &mut N,
) -> Result<(), Stopped> {
    if name == "-" {
        return explained_of(alloc, input, output, notes);
    }
    let file = File::open(rt, name).map_err(Stopped::unopened)?;
    explained_of(alloc, file, output, notes)
}

fn explained_of<S: Read + Drop, O: Write + Drop, N: Write + Drop>(
    alloc: Global,
    source: S,
    output: &mut O,
    notes: &mut N,
) -> Result<(), Stopped> {
    let mut kept = Keeping::new(alloc, source);
    let mut answers = ByLine::new(alloc, output)?;
    let mut explained = Explained::new(ByLine::new(alloc, notes)?);
    let outcome = play_script(alloc, &mut explained, &mut kept, &mut answers);
    with_reason(alloc, outcome, &kept)
}

/// What is done with each of several files.
#[derive(Clone, Copy)]
enum Work {
    Check,
    CheckWithReasons,
    CheckAsJson,
    Draw,
    /// At most so many ends are tried.
    Ends(u64),
    Shared,
    Compare,
    /// At most so many states are gathered.
    Explore(Form, usize),
}

impl Work {
    // What each file is written in.
    fn language(self) -> Language {
        match self {
            Work::Check | Work::CheckWithReasons | Work::CheckAsJson => Language::Recorded,
            Work::Draw | Work::Ends(_) => Language::Script,
            Work::Shared | Work::Compare | Work::Explore(_, _) => Language::Few,
        }
    }

    // Each file has a line of JSON.
    fn is_json(self) -> bool {
        matches!(self, Work::CheckAsJson | Work::Explore(Form::Json, _))
    }
}

// Does it with each file that is named, and counts them where there are several. A write that fails ends it.
fn with_files<R, I, O, N, E, K>(
    rt: &R,
    alloc: Global,
    what: Work,
    matches: &ArgMatches<'_>,
    streams: &mut Streams<I, O, N, E, K>,
) -> Result<u8, Stopped>
where
    R: Files + Wait,
    I: Read + Drop,
    O: Write + Drop,
    N: Drop,
    E: Write + Drop,
    K: Clock + Drop,
{
    let names = matches.get_strs("FILE").unwrap_or(&["-"]);
    let are_counted = names.len() > 1 && !what.is_json();
    let mut greatest = 0;
    let mut counts = Counts::default();
    for name in names {
        hint(name, streams);
        let Streams {
            input,
            output,
            errors,
            is_watched,
            clock,
            ..
        } = streams;
        let heading = are_counted.then_some(*name);
        let mut told = Vec::new(alloc);
        let gauge = Gauge::new(&*clock, &mut *errors, *is_watched);
        let outcome = gone_through(rt, alloc, what, name, input, gauge, &mut told);
        if let Err(error) = write_told(heading, what, &told, output) {
            return Ok(status(name, Err(Stopped::from(error)), errors).max(greatest));
        }
        counts.count(&outcome);
        greatest = status(name, outcome, errors).max(greatest);
    }
    if are_counted {
        writeln!(streams.output, "{} files: {counts}", names.len())?;
        streams.output.flush()?;
    }
    Ok(greatest)
}

/// How many files hold, don't hold, and were not gone through.
#[derive(Clone, Copy, Default)]
struct Counts {
    hold: u64,
    fail: u64,
    stopped: u64,
}

impl Counts {
    fn count(&mut self, outcome: &Result<bool, Stopped>) {
        let count = match outcome {
            Ok(true) => &mut self.hold,
            Ok(false) => &mut self.fail,
            Err(_) => &mut self.stopped,
        };
        *count = count.saturating_add(1);
    }
}

impl Display for Counts {
    fn fmt<W: fmt::Write>(&self, f: &mut Formatter<W>) -> fmt::Result {
        let Counts {
            hold,
            fail,
            stopped,
        } = self;
        write!(
            f,
            "{hold} hold, {fail} don't hold, {stopped} were not gone through"
        )
    }
}

// Reads a whole file, and does it with its text: whether it holds, and what is told of it. As JSON it is also told why a file has no
// verdict.
fn gone_through<R, I, P>(
    rt: &R,
    alloc: Global,
    what: Work,
    name: &str,
    input: &mut I,
    progress: P,
    told: &mut Vec<u8>,
) -> Result<bool, Stopped>
where
    R: Files + Wait,
    I: Read + Drop,
    P: Progress,
{
    let outcome = judged(rt, alloc, what, name, input, progress, told);
    if outcome.is_err() {
        // (no line is told that was cut for want of memory)
        let cut = told.iter().rev().take_while(|byte| **byte != b'\n').count();
        told.truncate(told.len().saturating_sub(cut));
    }
    if what.is_json()
        && let Err(stopped) = &outcome
    {
        // (where there is no memory for the line, the text on standard error stands alone)
        told.clear();
        if unjudged_as_json(alloc, name, stopped, told).is_err() {
            told.clear();
        }
    }
    outcome
}

fn judged<R, I, P>(
    rt: &R,
    alloc: Global,
    what: Work,
    name: &str,
    input: &mut I,
    progress: P,
    told: &mut Vec<u8>,
) -> Result<bool, Stopped>
where
    R: Files + Wait,
    I: Read + Drop,
    P: Progress,
{
    let readable = Readable::of(rt, alloc, name, input)?;
    let text = readable.text();
    let holds = match what {
        Work::Check => check(alloc, text, false, told),
        Work::CheckWithReasons => check(alloc, text, true, told),
        Work::CheckAsJson => check_as_json(alloc, name, text, told),
        Work::Draw => drawn(alloc, text, told),
        Work::Ends(limit) => {
            try_ends(alloc, Reaches {}, progress, text, limit, told).map_err(Stopped::from)
        }
        Work::Shared => played(rt, alloc, text, told),
        Work::Compare => compared(rt, alloc, text, told),
        Work::Explore(form, limit) => explore(alloc, name, text, form, limit, progress, told),
    };
    // (what is told is kept in memory, so that a write that fails has none)
    let language = what.language();
    let holds = holds.map_err(|stopped| reasoned(alloc, stopped.of_memory(), text, language));
    readable.outcome(holds)
}

// Writes what is told of a file, behind its name where there are several.
fn write_told<O: Write>(
    heading: Option<&str>,
    what: Work,
    told: &[u8],
    output: &mut O,
) -> io::Result<()> {
    if told.is_empty() {
        return Ok(());
    }
    if let Some(text) = heading {
        let heading = Printable { text };
        let behind = match what {
            Work::Shared | Work::Explore(_, _) => "\n",
            _ => " ",
        };
        write!(output, "{heading}:{behind}")?;
    }
    output.write_all(told)?;
    output.flush()
}

// Plays a script, and draws what was played of it. Where there is no memory for all of that, nothing is drawn.
fn drawn(alloc: Global, text: &str, output: &mut Vec<u8>) -> Result<bool, Stopped> {
    let mut steps = Steps::new(alloc);
    let played = play_text(&mut steps, text, &mut Vec::new(alloc));
    if matches!(played, Err(Fault::NotACommand(1) | Fault::OutOfMemory)) {
        played?;
    }
    let outcome = draw(alloc, &steps, output);
    if outcome.is_err() {
        output.clear();
    }
    outcome?;
    played?;
    Ok(true)
}
