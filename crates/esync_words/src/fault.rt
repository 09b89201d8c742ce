//! The faults that end a script before its last line.
ghost use Rattle.std.specs.Prelude.{◌≡◌};

use std::error::Error;
use std::{fmt, io};

/// The fault that ended a script before its last line.
#[derive(Clone, Copy, Debug, PartialEq, Eq)]
pub enum Fault {
    /// The line of this number is no command.
    NotACommand(u64),
    /// A read or a write failed.
    InputOutput,
    /// Memory was refused.
    OutOfMemory,
}

impl Fault {
    ghost use Rattle.esync_words.specs.Fault.{status_of};

    /// Returns the status of a script that ends with this fault.
    pub fn status(self) -> u8
        ensures { result ≡ status_of self }
    {
        match self {
            Fault::NotACommand(_) => 2,
            Fault::InputOutput => 3,
            Fault::OutOfMemory => 4,
        }
    }
}

impl fmt::Display for Fault {
    ghost use Rattle.std.specs.Prelude.{Some};
    ghost use Rattle.esync_words.specs.Fault.{message_of};

    ghost output = { λ fault. Some (message_of fault) };

    fn fmt<W: fmt::Write>(&self, f: &mut fmt::Formatter<W>) -> fmt::Result {
        match self {
            Fault::NotACommand(number) => write!(f, "line {number}: not a command"),
            Fault::InputOutput => write!(f, "input or output failed"),
            Fault::OutOfMemory => write!(f, "out of memory"),
        }
    }
}

impl Error for Fault {}

impl From<io::Error> for Fault {
    ghost use Rattle.esync_words.specs.declared.fault.Fault.TheVariants.{InputOutput};

    ghost from_gives = { λ _ fault. fault ≡ InputOutput };

    fn from(_error: io::Error) -> Fault {
        Fault::InputOutput
    }
}
