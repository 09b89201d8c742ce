//! Whether a shared form answers and wakes as the machine does.
use crate::form::{Door, Doors};
use crate::play::play;
use esync_script::capacity::Capacity;
use esync_script::opening::play_lines;
use esync_words::fault::Fault;
use esync_words::lines::{Bounded, Lines};
use esync_words::play::Replies;
use std::alloc::Global;
use std::fmt::{self, Display, Formatter};
use std::sync::Wait;

/// The outcome of a comparison of a shared form's replies with the machine's.
#[derive(Clone, Copy)]
pub enum Found {
    /// All replies are alike. This is their number.
    Alike(usize),
    /// This many replies are alike, and the next one differs, with this way first.
    Another(usize, Door),
}

impl Found {
    pub fn is_alike(self) -> bool {
        matches!(self, Found::Alike(_))
    }
}

impl Display for Found {
    fn fmt<W: fmt::Write>(&self, f: &mut Formatter<W>) -> fmt::Result {
        match self {
            Found::Alike(1) => f.write_str("1 reply, as the machine's"),
            Found::Alike(count) => write!(f, "{count} replies, as the machine's"),
            Found::Another(count, first) => {
                write!(f, "another reply after {count}, where {first} comes first")
            }
        }
    }
}

/// Plays the script of `syncrun` over the machine, and three times over the shared form, each time with another way
/// first, and compares the replies.
///
/// # Errors
///
/// Returns the fault of the script if the machine doesn't come to its end.
pub fn compare<R: Wait>(rt: &R, alloc: Global, script: &str) -> Result<Found, Fault> {
    let machine = text(replies(alloc, script)?)?;
    for first in [Door::Own, Door::Handle, Door::Dynamic] {
        let mut shared = Vec::new(alloc);
        play(rt, alloc, Doors::from(first), script, &mut shared)?;
        let shared = text(shared)?;
        if machine != shared {
            return Ok(Found::Another(alike(&machine, &shared), first));
        }
    }
    Ok(Found::Alike(machine.lines().count()))
}

// Returns the machine's replies.
fn replies(alloc: Global, script: &str) -> Result<Vec<u8>, Fault> {
    let mut lines = Lines::new(Bounded::<&[u8], Capacity>::of(script.as_bytes()));
    let mut output = Vec::new(alloc);
    match play_lines::<Capacity, Replies, _, Vec<u8>>(&mut Replies {}, &mut lines, &mut output) {
        Ok(()) => Ok(output),
        Err(Fault::InputOutput) => Err(Fault::OutOfMemory),
        Err(fault) => Err(fault),
    }
}

// Returns how many lines are alike before the first that differs.
fn alike(one: &str, other: &str) -> usize {
    one.lines()
        .zip(other.lines())
        .take_while(|(one, other)| one == other)
        .count()
}

fn text(bytes: Vec<u8>) -> Result<String, Fault> {
    String::from_utf8(bytes).map_err(|_| Fault::InputOutput)
}
