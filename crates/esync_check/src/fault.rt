//! The faults that end a check before its verdict.

use esync_words::fault::Fault;
use std::error::Error;
use std::fmt;

/// The reason why a recorded run wasn't judged.
#[derive(Clone, Copy, Debug, PartialEq, Eq)]
pub enum Unchecked {
    /// The line of this number has no reply.
    NoReply(u64),
    /// A line is no command, a read or a write failed, or memory was refused.
    Script(Fault),
}

impl fmt::Display for Unchecked {
    ghost use Rattle.std.specs.Prelude.{Some};
    ghost use Rattle.esync_check.specs.Checked.{message_of};

    ghost output = { λ unchecked. Some (message_of unchecked) };

    fn fmt<W: fmt::Write>(&self, f: &mut fmt::Formatter<W>) -> fmt::Result {
        match self {
            Unchecked::NoReply(number) => write!(f, "line {number}: no reply"),
            Unchecked::Script(fault) => write!(f, "{fault}"),
        }
    }
}

impl Error for Unchecked {}

impl From<Fault> for Unchecked {
    ghost use Rattle.std.specs.Prelude.{◌≡◌};
    ghost use Rattle.esync_check.specs.declared.fault.Unchecked.TheVariants.{Script};

    ghost from_gives = { λ fault unchecked. unchecked ≡ Script fault };

    fn from(fault: Fault) -> Unchecked {
        Unchecked::Script(fault)
    }
}
