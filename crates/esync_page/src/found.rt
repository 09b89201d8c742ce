//! What a page is told of a recorded run.
ghost use Rattle.std.specs.Prelude.{◌≡◌, IfOk, IfErr, OnOk};
ghost use Rattle.esync_page.specs.Found.{Stores, written, status_of_unchecked, bad_line_of, unanswered_line_of};

use crate::ended;
use crate::row::Row;
use esync_check::Verdict;
use esync_check::fault::Unchecked;
use esync_check::room::Room;
use esync_words::fault::Fault;
use std::io::Write;

/// The verdict on a recorded run, or the line at which there is none, in memory that the page lends.
#[repr(C)]
#[derive(Drop)]
pub struct Found {
    /// The number of commands of a run.
    pub commands: u64,
    /// The number of the line whose reply the primitive doesn't give, or that is no command.
    pub line: u64,
    /// The number of the line that has no reply, or 0.
    pub unanswered: u64,
    /// The reply that was recorded on `line`.
    pub recorded: Row,
    /// The reply that the primitive gives there.
    pub given: Row,
}

impl Found {
    /// Stores a verdict, and returns whether it is a run.
    ///
    /// # Errors
    ///
    /// Returns `OutOfMemory` if a reply doesn't fit into its row.
    pub fn store(&mut self, verdict: &Verdict<'_>) -> Result<bool, Fault>
        ensures ok { IfOk result (λ is_run. Stores verdict.now is_run self.new) }
        ensures err { IfErr result (λ fault. fault ≡ Fault.OutOfMemory) }
    {
        match verdict {
            Verdict::Run(commands) => {
                self.commands = *commands;
                Ok(true)
            }
            Verdict::Another(difference) => {
                self.line = difference.line;
                copy(difference.recorded, &mut self.recorded)?;
                copy(difference.given, &mut self.given)?;
                Ok(false)
            }
        }
    }

    /// Stores the number of the line that is no command or has no reply, and returns the status of a check that ends
    /// without a verdict.
    pub fn store_fault(&mut self, unchecked: Unchecked) -> u8
        ensures status { result ≡ status_of_unchecked unchecked }
        ensures line { self.new.line ≡ bad_line_of unchecked }
        ensures unanswered { self.new.unanswered ≡ unanswered_line_of unchecked }
    {
        match unchecked {
            Unchecked::NoReply(number) => {
                self.line = 0;
                self.unanswered = number;
                2
            }
            Unchecked::Script(fault) => {
                self.unanswered = 0;
                ended(Err(fault), &mut self.line)
            }
        }
    }
}

// Copies a text into a row, whose old bytes are forgotten.
fn copy(text: &[u8], row: &mut Row) -> Result<(), Fault>
    ensures ok { OnOk result (written row.new ≡ text.now) }
    ensures err { IfErr result (λ fault. fault ≡ Fault.OutOfMemory) }
{
    row.clear();
    row.write_all(text).map_err(|_| Fault::OutOfMemory)
}
