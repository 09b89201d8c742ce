//! Why a line is no command: where in the line, and what would be one.
use crate::language::{Language, REQUESTS, asks_of, calls_of, shape_of};
use esync_words::vocabulary::NAMES;
use std::alloc::{AllocError, Global};
use strsim::osa_distance;

/// Where in a line it stops to be a command, and why.
#[derive(Debug, Drop)]
pub struct Reason {
    /// The column, in bytes, from 1.
    pub column: usize,
    pub text: String,
}

// How many edits at most make a name the one that is suggested for it.
const NEAR: usize = 2;

/// Why this line of a script is no command. Line 1 has no primitive before it. `None` where nothing is known.
pub fn reason_of(
    alloc: Global,
    language: Language,
    primitive: Option<&str>,
    line: &[u8],
) -> Result<Option<Reason>, AllocError> {
    let longest = language.longest();
    if let Some((column, why)) = odd_byte(line)
        && column <= longest
    {
        return Ok(Some(Reason {
            column,
            text: String::from_str(alloc, why)?,
        }));
    }
    if line.len() > longest {
        return Ok(Some(Reason {
            column: longest.saturating_add(1),
            text: format!(in alloc; "a line has at most {longest} bytes")?,
        }));
    }
    let Ok(line) = str::from_utf8(line) else {
        return Ok(None);
    };
    match primitive {
        None => commanded(alloc, language, line, 1, "primitive", language.openings()),
        Some(primitive) => of_command(alloc, language, primitive, line),
    }
}

/// Why these words are no primitive of a system, or nothing that this one is asked or called.
pub fn reason_in_system(
    alloc: Global,
    primitive: Option<&str>,
    words: &str,
) -> Result<Option<Reason>, AllocError> {
    let Some(primitive) = primitive else {
        let openings = Language::Few.openings();
        return commanded(alloc, Language::Few, words, 1, "primitive", openings);
    };
    let kind = format!(in alloc; "request or call of {primitive}")?;
    let commands = format!(in alloc; "{} end:k {}", asks_of(primitive), calls_of(primitive))?;
    commanded(alloc, Language::Few, words, 1, &kind, &commands)
}

// The column of the first byte that no command has at its place, and why.
fn odd_byte(line: &[u8]) -> Option<(usize, &'static str)> {
    if line.is_empty() {
        return Some((1, "an empty line"));
    }
    for (place, byte) in line.iter().enumerate() {
        let before = if place == 0 { b' ' } else { line[place - 1] };
        let why = match byte {
            b'\r' => "a carriage return: a line ends in a line feed alone",
            b' ' if before == b' ' => "a space too many: words stand one space apart",
            0..=31 | 127 => "a control character",
            128..=255 => "a byte that isn't ASCII",
            _ => continue,
        };
        return Some((place.saturating_add(1), why));
    }
    if line.ends_with(b" ") {
        return Some((line.len(), "a space at the end of the line"));
    }
    None
}

fn of_command(
    alloc: Global,
    language: Language,
    primitive: &str,
    line: &str,
) -> Result<Option<Reason>, AllocError> {
    let (name, rest) = line.split_once(' ').unwrap_or((line, ""));
    if name != "start" {
        return of_call(alloc, language, primitive, name, line);
    }
    let asks = asks_of(primitive);
    if asks.is_empty() {
        let text = format!(in alloc; "{primitive} has no requests")?;
        return Ok(Some(Reason { column: 1, text }));
    }
    let (number, ask) = rest.split_once(' ').unwrap_or((rest, ""));
    if let Some(why) = odd_word(alloc, language, b'k', number)? {
        return told(alloc, 7, number, &why);
    }
    let kind = format!(in alloc; "request of {primitive}")?;
    let column = number.len().saturating_add(8);
    commanded(alloc, language, ask, column, &kind, asks)
}

// Why a line that doesn't begin with `start` is no command.
fn of_call(
    alloc: Global,
    language: Language,
    primitive: &str,
    name: &str,
    line: &str,
) -> Result<Option<Reason>, AllocError> {
    let calls = format!(in alloc; "start {REQUESTS} {}", calls_of(primitive))?;
    if shape_of(&calls, name).is_none()
        && let Some(shape) = shape_of(asks_of(primitive), name)
    {
        let ask = sample_of(alloc, language, name, line, shape)?;
        let text = format!(in alloc; "{name} is asked by a request, as start 0 {ask}")?;
        return Ok(Some(Reason { column: 1, text }));
    }
    let kind = format!(in alloc; "command of {primitive}")?;
    if shape_of(&calls, name).is_none() {
        let named = format!(in alloc; "{calls} {}", asks_of(primitive))?;
        return unknown(alloc, name, 1, &kind, &named);
    }
    commanded(alloc, language, line, 1, &kind, &calls)
}

// This line, where it is a name with the words that its letters ask for. Else the name, with a letter for each word but a number.
fn sample_of(
    alloc: Global,
    language: Language,
    name: &str,
    line: &str,
    shape: &str,
) -> Result<String, AllocError> {
    let (_, words) = line.split_once(' ').unwrap_or((line, ""));
    if shaped(alloc, language, name, words, 1, shape)?.is_none() {
        return String::from_str(alloc, line);
    }
    let mut sample = String::from_str(alloc, name)?;
    for letter in shape.chars() {
        sample.push(' ')?;
        sample.push(if letter == 'k' { '0' } else { letter })?;
    }
    Ok(sample)
}

// Why the text that begins at this column is none of the commands.
fn commanded(
    alloc: Global,
    language: Language,
    text: &str,
    column: usize,
    kind: &str,
    commands: &str,
) -> Result<Option<Reason>, AllocError> {
    let (name, rest) = text.split_once(' ').unwrap_or((text, ""));
    let Some(shape) = shape_of(commands, name) else {
        return unknown(alloc, name, column, kind, commands);
    };
    let behind = column.saturating_add(name.len()).saturating_add(1);
    shaped(alloc, language, name, rest, behind, shape)
}

// That no command has this name, with the one that is nearest to it.
fn unknown(
    alloc: Global,
    name: &str,
    column: usize,
    kind: &str,
    commands: &str,
) -> Result<Option<Reason>, AllocError> {
    let mut text = if name.is_empty() {
        format!(in alloc; "a {kind} is missing")?
    } else {
        format!(in alloc; "no {kind} is called {name}")?
    };
    if let Some(near) = nearest(alloc, name, commands)? {
        write!(text, "; did you mean {near}?")?;
    }
    Ok(Some(Reason { column, text }))
}

// The name that is nearest to this one, if one is near. Two letters that changed places are one edit, and a capital is none. Of names
// that are equally near one with the same first letter is taken.
fn nearest<'a>(
    alloc: Global,
    name: &str,
    commands: &'a str,
) -> Result<Option<&'a str>, AllocError> {
    let name = name.to_ascii_lowercase(alloc)?;
    let mut best = None;
    let mut least = usize::MAX;
    for command in commands.split(' ') {
        let (own, _) = command.split_once(':').unwrap_or((command, ""));
        let edits = osa_distance(alloc, name.as_str(), own)?;
        let begins_so = own.bytes().next() == name.bytes().next();
        let distance = edits
            .saturating_mul(2)
            .saturating_add(usize::from(!begins_so));
        if edits <= near(own.len().min(name.len())) && distance < least {
            least = distance;
            best = Some(own);
        }
    }
    Ok(best)
}

// How many edits may make a name of so many letters another one.
fn near(letters: usize) -> usize {
    match letters {
        0 | 1 => 0,
        2 | 3 => 1,
        _ => NEAR,
    }
}

// Why the words behind a name, from this column on, aren't those that its letters ask for.
fn shaped(
    alloc: Global,
    language: Language,
    name: &str,
    words: &str,
    column: usize,
    shape: &str,
) -> Result<Option<Reason>, AllocError> {
    let mut column = column;
    let mut left = if words.is_empty() { None } else { Some(words) };
    for letter in shape.bytes() {
        let Some(words) = left else {
            if letter.is_ascii_uppercase() {
                return Ok(None);
            }
            let why = match letter {
                b'h' => "the number of publishers is missing behind it",
                _ => "a word is missing behind it",
            };
            return told(alloc, column, name, why);
        };
        let (word, rest) = split_word(words);
        if let Some(why) = odd_word(alloc, language, letter.to_ascii_lowercase(), word)? {
            return told(alloc, column, word, &why);
        }
        column = column.saturating_add(word.len()).saturating_add(1);
        left = rest;
    }
    match left {
        Some(words) => told(alloc, column, split_word(words).0, "a word too many"),
        None => Ok(None),
    }
}

// The first word, and those behind it, if there are some.
fn split_word(words: &str) -> (&str, Option<&str>) {
    match words.split_once(' ') {
        Some((word, rest)) => (word, Some(rest)),
        None => (words, None),
    }
}

fn told(alloc: Global, column: usize, word: &str, why: &str) -> Result<Option<Reason>, AllocError> {
    let text = if word.is_empty() {
        String::from_str(alloc, why)?
    } else {
        format!(in alloc; "{word}: {why}")?
    };
    Ok(Some(Reason { column, text }))
}

// Why a word isn't what its letter asks for, if it isn't.
fn odd_word(
    alloc: Global,
    language: Language,
    letter: u8,
    word: &str,
) -> Result<Option<String>, AllocError> {
    let most = language.bytes();
    if letter == b'b' {
        if is_bytes(word, most) {
            return Ok(None);
        }
        let why = format!(in alloc;
            "bytes are numbers below 256, at most {most}, with a comma between, or - for none"
        )?;
        return Ok(Some(why));
    }
    if word.is_empty() {
        return Ok(Some(String::from_str(alloc, "a number is missing")?));
    }
    if !is_number(word) {
        return Ok(Some(String::from_str(alloc, "no number")?));
    }
    let greatest = language.greatest();
    let why = match (letter, word.parse::<u64>()) {
        (b'v', Ok(value)) if value > greatest => {
            format!(in alloc; "too large: a value is at most {greatest}")?
        }
        (b'n', Ok(count)) if count > most as u64 => {
            format!(in alloc; "too large: at most {most} bytes")?
        }
        (b'c', Ok(places)) if !language.has_capacity(places) => {
            format!(in alloc; "another capacity: it is {}", language.capacities())?
        }
        (b'h', Ok(count)) if count > NAMES as u64 => {
            format!(in alloc;
                "too large: a pubsub has at most {NAMES} subscribers and {NAMES} publishers"
            )?
        }
        (b'1', Ok(places)) if places != 1 => {
            String::from_str(alloc, "another capacity: it is 1")?
        }
        (_, Ok(_)) => return Ok(None),
        (_, Err(_)) => { format!(in alloc; "too large: a number is at most {}", u64::MAX)? }
    };
    Ok(Some(why))
}

fn is_number(word: &str) -> bool {
    !word.is_empty() && word.bytes().all(|byte| byte.is_ascii_digit())
}

// The word is a list of bytes, at most so many.
fn is_bytes(word: &str, most: usize) -> bool {
    if word == "-" {
        return true;
    }
    let mut count: usize = 0;
    for number in word.split(',') {
        let is_byte = is_number(number) && matches!(number.parse::<u64>(), Ok(0..=255));
        count = count.saturating_add(1);
        if !is_byte || count > most {
            return false;
        }
    }
    true
}
