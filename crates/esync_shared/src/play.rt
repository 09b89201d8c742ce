//! The loop over a script's lines, for the shared form of the primitive that line 1 names.
use crate::form::{Ask, Call, Doors, Form, NUMBERS, Places, turn};
use crate::over;
use esync_machine::primitive::{Answer, Command};
use esync_notes::Notes;
use esync_script::capacity::FEW;
use esync_script::opening::Opening;
use esync_words::fault::Fault;
use esync_words::lines::SHORT;
use esync_words::play::Opens;
use esync_words::printing::print_reply;
use esync_words::vocabulary::read_command;
use esync_words::words::Words;
use std::alloc::Global;
use std::io::Write;
use std::sync::Wait;

// A form has as many numbers as a script of `syncrun`.
const _: () = prove!(NUMBERS == FEW);

/// Plays the script over the shared form, called in these ways, and prints its replies as `syncrun` does.
pub fn play<R: Wait, W: Write>(
    rt: &R,
    alloc: Global,
    doors: Doors,
    script: &str,
    output: &mut W,
) -> Result<(), Fault> {
    let (line, rest) = script.split_once('\n').unwrap_or((script, ""));
    let opening = opening_of(line).ok_or(Fault::NotACommand(1))?;
    let notes = Notes::new(rt);
    let stage = Stage {
        alloc,
        notes: &notes,
        doors,
        rest,
        output,
    };
    over::named(stage, opening)
}

// Returns the words of a line, unless it has too many bytes.
fn words_of(line: &str) -> Option<Words<'_>> {
    (line.len() <= SHORT).then_some(Words::of(line))
}

// Returns the command that a line says, if it says one.
fn command_of<F: Form>(line: &str) -> Option<Command<Ask<F>, u64, Call<F>>> {
    read_command::<F::Words>(words_of(line)?)
}

/// The primitive that line 1 of a script names.
pub fn opening_of(line: &str) -> Option<Opening> {
    let mut words = words_of(line)?;
    let name = words.word()?;
    Opening::opening(name, words)
}

/// What a shared form is played with.
#[derive(Drop)]
pub struct Stage<'s, R, W> {
    pub alloc: Global,
    /// The notes of the wakers that the form's hand is given.
    pub notes: &'s Notes<'s, R>,
    /// The ways in which the form is called.
    pub doors: Doors,
    /// The script behind line 1.
    pub rest: &'s str,
    /// Where the replies go.
    pub output: &'s mut W,
}

impl<R: Wait, W: Write> Stage<'_, R, W> {
    /// Gives each line to the shared form, and prints its answer and the wakers that its hand was given.
    pub fn serve<F: Form>(self, mut form: F) -> Result<(), Fault> {
        let mut places = Places::new(self.alloc).map_err(|_| Fault::OutOfMemory)?;
        let mut number: u64 = 1;
        for line in self.rest.split_terminator('\n') {
            number = number.saturating_add(1);
            let command = command_of::<F>(line).ok_or(Fault::NotACommand(number))?;
            let answer = turn(&mut form, &mut places, command).unwrap_or(Answer::NoSuch);
            print_reply::<F::Words, W>(&answer, self.notes.given().as_slice(), self.output)?;
        }
        Ok(())
    }
}
