//! Writes that fail in mid-stream, each in turn.
use crate::ends::{KeepsBack, SCRIPT};
use esync_ends::{Unheard, try_ends};
use esync_notes::same;
use esync_words::fault::Fault;
use std::alloc::Global;
use std::io::{self, ErrorKind, Write};
use std::process::Abort;
use std::test::Fail;

/// A writer that takes one byte at each write. The write behind so many fails, and those after it are taken again.
#[derive(Drop)]
struct Takes<'a> {
    left: usize,
    text: &'a mut Vec<u8>,
}

impl Write for Takes<'_> {
    fn write(&mut self, buf: &[u8]) -> io::Result<usize> {
        if self.left == 0 {
            self.left = usize::MAX;
            return Err(io::Error::from(ErrorKind::StorageFull));
        }
        self.left -= 1;
        let taken = buf.len().min(1);
        self.text.extend_from_slice(&buf[..taken])?;
        Ok(taken)
    }

    fn flush(&mut self) -> io::Result<()> {
        Ok(())
    }
}

/// What is written of it where the waker 1 is kept back.
const UNTOLD: &str =
    "after line 4, end 2: request 1 is Ready and was not told\nafter line 5, end 2: request 1 is Ready and was not told\n6 ends, 2 polls, 2 not told\n";

// What is written, and what comes of it, where the write behind so many fails.
fn left_by(alloc: Global, writes: usize) -> (Vec<u8>, Result<bool, Fault>) {
    let mut output = Vec::new(alloc);
    let mut takes = Takes {
        left: writes,
        text: &mut output,
    };
    let outcome = try_ends(
        alloc,
        KeepsBack {},
        Unheard {},
        SCRIPT,
        u64::MAX,
        &mut takes,
    );
    (output, outcome)
}

// The write behind these bytes fails. They stay written, and it is told.
fn leaves_what_was_written(rt: &impl Abort, alloc: Global, written: &[u8]) -> Result<(), Fail> {
    let (output, outcome) = left_by(alloc, written.len());
    same!(rt; output.as_slice(), written);
    same!(rt; (written.len(), outcome), (written.len(), Err(Fault::InputOutput)));
    Ok(())
}

#[test]
fn nothing_is_written_behind_a_write_that_fails(rt: HostRuntime) -> Result<(), Fail> {
    for count in 0..UNTOLD.len() {
        leaves_what_was_written(&rt, rt.alloc(), &UNTOLD.as_bytes()[..count])?;
    }
    Ok(())
}

#[test]
fn bytes_that_go_one_by_one_change_nothing(rt: HostRuntime) -> Result<(), Fail> {
    let (output, outcome) = left_by(rt.alloc(), usize::MAX);
    same!(&rt; str::from_utf8(&output)?, UNTOLD);
    same!(&rt; outcome, Ok(false));
    Ok(())
}
