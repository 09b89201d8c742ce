//! What keeps a command of the tool from its end.
use crate::bad_line::Reason;
use esync_check::fault::Unchecked;
use esync_words::fault::Fault;
use std::alloc::AllocError;
use std::fmt::{self, Display, Formatter};
use std::io;

/// Why an input was not gone through to its end.
#[derive(Drop)]
pub enum Stopped {
    /// It can't be opened.
    Unopened(io::Error),
    /// A line is no command, a read failed, or memory was refused.
    Fault(Fault),
    /// A write failed.
    Unwritten,
    /// The line of this number is no command, for this reason.
    BadLine(u64, Reason),
    /// The line of this number has no reply.
    NoReply(u64),
    /// The line of this number is none of a system's, for this reason.
    BadSystem(u64, Reason),
}

impl Stopped {
    /// Why an input can't be opened.
    pub fn unopened(error: io::Error) -> Stopped {
        if error.kind() == io::ErrorKind::OutOfMemory {
            return Stopped::Fault(Fault::OutOfMemory);
        }
        Stopped::Unopened(error)
    }

    /// Why an input that can be opened can't be read.
    pub fn unread(error: io::Error) -> Stopped {
        if error.kind() == io::ErrorKind::OutOfMemory {
            return Stopped::Fault(Fault::OutOfMemory);
        }
        Stopped::Fault(Fault::InputOutput)
    }

    /// Why an input is not gone through, where all is written to memory: a write that failed had none.
    pub fn of_memory(self) -> Stopped {
        match self {
            Stopped::Unwritten | Stopped::Fault(Fault::InputOutput) => {
                Stopped::Fault(Fault::OutOfMemory)
            }
            other => other,
        }
    }

    /// The number of the line that is bad, if one is.
    pub fn line(&self) -> Option<u64> {
        match self {
            Stopped::Fault(Fault::NotACommand(line))
            | Stopped::BadLine(line, _)
            | Stopped::NoReply(line)
            | Stopped::BadSystem(line, _) => Some(*line),
            Stopped::Unopened(_) | Stopped::Unwritten | Stopped::Fault(_) => None,
        }
    }

    /// The status of a program that ends so.
    pub fn status(&self) -> u8 {
        match self {
            Stopped::Unopened(_) | Stopped::Unwritten => 3,
            Stopped::Fault(fault) => fault.status(),
            Stopped::BadLine(_, _) | Stopped::NoReply(_) | Stopped::BadSystem(_, _) => 2,
        }
    }
}

impl Display for Stopped {
    fn fmt<W: fmt::Write>(&self, f: &mut Formatter<W>) -> fmt::Result {
        match self {
            Stopped::Unopened(error) => write!(f, "{error}"),
            Stopped::Fault(fault) => write!(f, "{fault}"),
            Stopped::Unwritten => write!(f, "standard output: {}", Fault::InputOutput),
            Stopped::BadLine(line, reason) => {
                write!(
                    f,
                    "line {line}, column {}: not a command: {}",
                    reason.column, reason.text
                )
            }
            Stopped::NoReply(line) => write!(f, "line {line}: no reply"),
            Stopped::BadSystem(line, reason) => {
                write!(f, "line {line}, column {}: {}", reason.column, reason.text)
            }
        }
    }
}

impl From<Fault> for Stopped {
    fn from(fault: Fault) -> Stopped {
        Stopped::Fault(fault)
    }
}

/// Why a write failed.
impl From<io::Error> for Stopped {
    fn from(error: io::Error) -> Stopped {
        if error.kind() == io::ErrorKind::OutOfMemory {
            return Stopped::Fault(Fault::OutOfMemory);
        }
        Stopped::Unwritten
    }
}

impl From<AllocError> for Stopped {
    fn from(_error: AllocError) -> Stopped {
        Stopped::Fault(Fault::OutOfMemory)
    }
}

impl From<Unchecked> for Stopped {
    fn from(unchecked: Unchecked) -> Stopped {
        match unchecked {
            Unchecked::NoReply(line) => Stopped::NoReply(line),
            Unchecked::Script(fault) => Stopped::Fault(fault),
        }
    }
}
