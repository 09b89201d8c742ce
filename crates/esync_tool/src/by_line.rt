//! Writes line by line, for texts that are written in many small pieces.
use std::alloc::{AllocError, Global};
use std::io::{self, Write};

// How many bytes are kept of a line.
const ROOM: usize = 1024;

/// Hands each line on when it ends, and of a longer one each piece of so many bytes. What is left of a line that doesn't end is lost.
/// `LineWriter` writes again, as it is dropped, what a write that failed has left; this writes nothing behind such a write.
#[derive(Drop)]
pub struct ByLine<W: Drop> {
    to: W,
    line: Vec<u8>,
}

impl<W: Write + Drop> ByLine<W> {
    /// All memory that is needed is taken here.
    pub fn new(alloc: Global, to: W) -> Result<Self, AllocError> {
        let line = Vec::with_capacity(alloc, ROOM)?;
        Ok(ByLine { to, line })
    }

    // After a write that fails, nothing that it was given is written.
    fn hand_on(&mut self) -> io::Result<()> {
        let outcome = self.to.write_all(&self.line);
        self.line.clear();
        outcome
    }
}

impl<W: Write + Drop> Write for ByLine<W> {
    fn write(&mut self, buf: &[u8]) -> io::Result<usize> {
        let count = buf.len().min(ROOM);
        let piece = &buf[..count];
        if self.line.len() > ROOM - count {
            self.hand_on()?;
        }
        self.line.extend_from_slice(piece)?;
        if piece.ends_with(b"\n") {
            self.hand_on()?;
        }
        Ok(count)
    }

    fn flush(&mut self) -> io::Result<()> {
        self.hand_on()?;
        self.to.flush()
    }
}
