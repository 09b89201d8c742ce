//! What is still there of a script when a line turns out to be no command.
use std::alloc::{AllocError, Global};
use std::io::{self, ErrorKind, Read};
use std::mem;

// How many bytes are kept at least: a script is read in pieces of 8 KB, and a line is judged before the next piece is read.
const ENOUGH: usize = 32_768;

// How many bytes of line 1 are kept.
const LINE: usize = 256;

/// Reads from a source, and keeps line 1 and what was read last.
#[derive(Drop)]
pub struct Keeping<R: Drop> {
    source: R,
    first: Vec<u8>,
    first_has_ended: bool,
    before: Vec<u8>,
    last: Vec<u8>,
    // How many line feeds stand before what is kept.
    lines: u64,
    // There was no memory for something, so nothing is told.
    is_lost: bool,
    has_failed: bool,
}

impl<R: Drop> Keeping<R> {
    /// Keeps what will be read from this source.
    pub fn new(alloc: Global, source: R) -> Self {
        Keeping {
            source,
            first: Vec::new(alloc),
            first_has_ended: false,
            before: Vec::new(alloc),
            last: Vec::new(alloc),
            lines: 0,
            is_lost: false,
            has_failed: false,
        }
    }

    /// A read has failed.
    pub fn has_failed(&self) -> bool {
        self.has_failed
    }

    /// A read has failed behind line 1.
    pub fn is_cut(&self) -> bool {
        self.has_failed && self.first_has_ended
    }

    /// The word that names the primitive, if line 1 was read.
    pub fn primitive(&self) -> Option<&str> {
        let line = str::from_utf8(&self.first).ok()?;
        let (name, _) = line.split_once(' ').unwrap_or((line, ""));
        Some(name)
    }

    /// The line of this number, without its line feed, if it is still kept.
    pub fn line(&self, alloc: Global, number: u64) -> Result<Option<Vec<u8>>, AllocError> {
        let before = number.saturating_sub(1);
        if self.is_lost || before < self.lines {
            return Ok(None);
        }
        let mut left = before.saturating_sub(self.lines);
        let mut line = Vec::new(alloc);
        for byte in self.before.iter().chain(self.last.iter()) {
            if left > 0 {
                left = left.saturating_sub(u64::from(*byte == b'\n'));
            } else if *byte == b'\n' {
                return Ok(Some(line));
            } else {
                line.push(*byte)?;
            }
        }
        Ok((left == 0).then_some(line))
    }

    fn keep(&mut self, piece: &[u8]) -> Result<(), AllocError> {
        for byte in piece {
            self.first_has_ended |= *byte == b'\n' || self.first.len() >= LINE;
            if self.first_has_ended {
                break;
            }
            self.first.push(*byte)?;
        }
        if self.last.len() >= ENOUGH {
            let gone = self.before.iter().filter(|byte| **byte == b'\n').count();
            self.lines = self.lines.saturating_add(gone as u64);
            mem::swap(&mut self.before, &mut self.last);
            self.last.clear();
        }
        self.last.extend_from_slice(piece)
    }
}

impl<R: Read + Drop> Read for Keeping<R> {
    fn read(&mut self, buf: &mut [u8]) -> io::Result<usize> {
        let read = self.source.read(buf);
        if let Err(error) = &read {
            // (a read that was interrupted is tried again)
            self.has_failed = error.kind() != ErrorKind::Interrupted;
        }
        let count = read?;
        if self.keep(&buf[..count]).is_err() {
            self.is_lost = true;
        }
        Ok(count)
    }
}
