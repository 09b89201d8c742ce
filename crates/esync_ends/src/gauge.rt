//! A gauge of what takes long, for a reader at a terminal.
use crate::Progress;
use std::fmt::Display;
use std::io::Write;
use std::time::{Clock, Duration};

// The time of the first line and the time between two lines, in milliseconds.
const FIRST: u64 = 1000;

const NEXT: u64 = 200;

/// A gauge: it tells in one line of a terminal how far a trial or an exploration has come, once it takes longer than a
/// second, and wipes the line at the end.
#[derive(Drop)]
pub struct Gauge<C: Clock + Drop, E: Write + Drop> {
    clock: C,
    errors: E,
    // The time of the next line, if the errors are a terminal.
    next: Option<Duration>,
    is_said: bool,
}

impl<C: Clock + Drop, E: Write + Drop> Gauge<C, E> {
    /// Returns a gauge. It writes nothing if the errors are no terminal, or no time can be told.
    pub fn new(clock: C, errors: E, is_terminal: bool) -> Self {
        let next = if is_terminal {
            later(&clock, FIRST)
        } else {
            None
        };
        Gauge {
            clock,
            errors,
            next,
            is_said: false,
        }
    }
}

impl<C: Clock + Drop, E: Write + Drop> Progress for Gauge<C, E> {
    fn hear<D: Display>(&mut self, done: &D) {
        let (Some(next), Ok(now)) = (self.next, self.clock.monotonic()) else {
            return;
        };
        if now < next {
            return;
        }
        self.next = later(&self.clock, NEXT);
        self.is_said = true;
        let _ = write!(self.errors, "\resync: {done}");
        let _ = self.errors.flush();
    }

    fn end(&mut self) {
        if self.is_said {
            let _ = write!(self.errors, "\r\x1b[K");
            let _ = self.errors.flush();
        }
    }
}

// Returns the time after so many milliseconds, if there is one.
fn later<C: Clock>(clock: &C, milliseconds: u64) -> Option<Duration> {
    let now = clock.monotonic().ok()?;
    now.checked_add(Duration::from_millis(milliseconds))
}
