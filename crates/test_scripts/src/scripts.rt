use esync_base::waitqueue::Wakes;
use esync_channel::channel::machine::ChannelHeard;
use esync_machine::primitive::Answer;
use esync_notes::same;
use esync_script::capacity::Capacity;
use esync_script::channel::ChannelWords;
use esync_script::script;
use esync_words::fault::Fault;
use esync_words::printing::{print_answer, print_reply};
use std::cell::Cell;
use std::io::{self, ErrorKind, Read, Write};
use std::test::Fail;

/// What one read gives. After the last one the input is at its end.
#[derive(Clone, Copy)]
pub enum Piece {
    Bytes(&'static [u8]),
    Fails(ErrorKind),
}

/// A reader that gives one piece at each read, and notes how much was written before it.
#[derive(Drop)]
pub struct Pieces<'a> {
    pub pieces: &'a [Piece],
    pub written: &'a Cell<usize>,
    pub seen: &'a Cell<usize>,
}

impl Read for Pieces<'_> {
    fn read(&mut self, buf: &mut [u8]) -> io::Result<usize> {
        self.seen.set(self.written.get());
        let Some((first, rest)) = self.pieces.split_first() else {
            return Ok(0);
        };
        self.pieces = rest;
        match first {
            Piece::Bytes(bytes) => {
                let count = bytes.len().min(buf.len());
                buf[..count].copy_from_slice(&bytes[..count]);
                Ok(count)
            }
            Piece::Fails(kind) => Err(io::Error::from(*kind)),
        }
    }
}

/// A writer with room for so many bytes, of which each write takes `most` at most. The write that finds none fails, and those
/// after it find room again.
#[derive(Drop)]
pub struct Room<'a> {
    pub left: usize,
    pub most: usize,
    pub text: &'a mut Vec<u8>,
    pub written: &'a Cell<usize>,
}

impl Write for Room<'_> {
    fn write(&mut self, buf: &[u8]) -> io::Result<usize> {
        if self.left == 0 {
            self.left = usize::MAX;
            return Err(io::Error::from(ErrorKind::StorageFull));
        }
        let count = buf.len().min(self.left).min(self.most);
        self.text.extend_from_slice(&buf[..count])?;
        self.left -= count;
        self.written.set(self.written.get().saturating_add(count));
        Ok(count)
    }

    fn flush(&mut self) -> io::Result<()> {
        Ok(())
    }
}

pub const FAILED: &str = "input or output failed\n";

#[test]
fn prints_several_wakers_in_order(rt: HostRuntime) -> Result<(), Fail> {
    let mut wakes = Wakes::<u64, 3>::new();
    wakes.push(9);
    wakes.push(0);
    wakes.push(9);
    let answer = Answer::Gives(ChannelHeard::<u64>::Ready);
    let mut text = Vec::new(rt.alloc());
    print_reply::<ChannelWords<Capacity>, _>(&answer, wakes.as_slice(), &mut text)?;
    same!(rt; str::from_utf8(&text)?, "Ready | 9 0 9\n");
    Ok(())
}

#[test]
fn want_of_memory_is_no_answer(rt: HostRuntime) {
    let mut text = Vec::new(rt.alloc());
    let printed = print_answer::<ChannelWords<Capacity>, _>(&Answer::NoMemory, &mut text);
    same!(rt; printed, Err(Fault::OutOfMemory));
    same!(rt; text.len(), 0);
}

const FAILS: Piece = Piece::Fails(ErrorKind::Other);

/// What the reads give, and what the script then writes to its output and to its errors, and its status.
const READS: [(&[Piece], &str, &str, u8); 9] = [
    (&[FAILS], "", FAILED, 3),
    (
        &[Piece::Bytes(b"channel 1\nlen\n"), FAILS],
        "0 | -\n",
        FAILED,
        3,
    ),
    // The line that is cut isn't judged.
    (
        &[Piece::Bytes(b"channel 1\nlen\npop"), FAILS],
        "0 | -\n",
        FAILED,
        3,
    ),
    // A line ends the script before the read that fails.
    (
        &[Piece::Bytes(b"channel 1\nlen\npop\n"), FAILS],
        "0 | -\n",
        "line 3: not a command\n",
        2,
    ),
    // So does one of which enough is read.
    (
        &[Piece::Bytes(&[b'a'; 257]), FAILS],
        "",
        "line 1: not a command\n",
        2,
    ),
    (&[Piece::Bytes(&[b'a'; 256]), FAILS], "", FAILED, 3),
    // After a line without a line feed nothing is read.
    (
        &[Piece::Bytes(b"channel 1\nlen"), Piece::Bytes(b""), FAILS],
        "0 | -\n",
        "",
        0,
    ),
    // A read that a signal interrupts is made again.
    (
        &[
            Piece::Fails(ErrorKind::Interrupted),
            Piece::Bytes(b"channel 1\nfr"),
            Piece::Fails(ErrorKind::Interrupted),
            Piece::Bytes(b"ee\n"),
        ],
        "1 | -\n",
        "",
        0,
    ),
    (
        &[
            Piece::Bytes(b"c"),
            Piece::Bytes(b"hannel 1"),
            Piece::Bytes(b"\n"),
            Piece::Bytes(b"fr"),
            Piece::Bytes(b"ee"),
            Piece::Bytes(b"\nle"),
            Piece::Bytes(b"n"),
        ],
        "1 | -\n0 | -\n",
        "",
        0,
    ),
];

#[test]
fn a_failed_read_ends_the_script(rt: HostRuntime) -> Result<(), Fail> {
    for (pieces, output, errors, status) in READS {
        let (written, seen) = (Cell::new(0), Cell::new(0));
        let input = Pieces {
            pieces,
            written: &written,
            seen: &seen,
        };
        let (mut printed, mut reported) = (Vec::new(rt.alloc()), Vec::new(rt.alloc()));
        let ended = script(rt.alloc(), input, &mut printed, &mut reported);
        same!(rt; str::from_utf8(&printed)?, output);
        same!(rt; str::from_utf8(&reported)?, errors);
        same!(rt; ended, status);
    }
    Ok(())
}

#[test]
fn answers_are_written_before_a_read_that_may_wait(rt: HostRuntime) -> Result<(), Fail> {
    let (written, seen) = (Cell::new(0), Cell::new(0));
    let input = Pieces {
        pieces: &[
            Piece::Bytes(b"channel 1\nlen\nfr"),
            Piece::Bytes(b"ee\ntry-send 5\n"),
        ],
        written: &written,
        seen: &seen,
    };
    let mut text = Vec::new(rt.alloc());
    let output = Room {
        left: usize::MAX,
        most: usize::MAX,
        text: &mut text,
        written: &written,
    };
    let ended = script(rt.alloc(), input, output, Vec::new(rt.alloc()));
    same!(rt; ended, 0);
    same!(rt; str::from_utf8(&text)?, "0 | -\n1 | -\nOk | -\n");
    assert_eq!(rt;
        seen.get(),
        text.len(),
        "before the read that finds the end"
    );
    Ok(())
}

#[test]
fn a_failed_write_ends_the_script(rt: HostRuntime) -> Result<(), Fail> {
    for input in [
        b"channel 1\nlen\nfree\n".as_slice(),
        b"channel 1\nlen\nfree\npop\n",
    ] {
        for left in 0..12 {
            let written = Cell::new(0);
            let (mut printed, mut reported) = (Vec::new(rt.alloc()), Vec::new(rt.alloc()));
            let output = Room {
                left,
                most: usize::MAX,
                text: &mut printed,
                written: &written,
            };
            let ended = script(rt.alloc(), input, output, &mut reported);
            assert_eq!(rt;
                printed.as_slice(),
                &b"0 | -\n1 | -\n"[..left],
                "with room for {left}"
            );
            same!(rt; str::from_utf8(&reported)?, FAILED);
            same!(rt; ended, 3);
        }
    }
    Ok(())
}

#[test]
fn errors_that_cannot_be_written_change_no_status(rt: HostRuntime) -> Result<(), Fail> {
    for left in [0, 5] {
        let written = Cell::new(0);
        let (mut printed, mut reported) = (Vec::new(rt.alloc()), Vec::new(rt.alloc()));
        let errors = Room {
            left,
            most: usize::MAX,
            text: &mut reported,
            written: &written,
        };
        let ended = script(
            rt.alloc(),
            b"channel 2\nlen\npop\n".as_slice(),
            &mut printed,
            errors,
        );
        same!(rt; ended, 2);
        same!(rt; str::from_utf8(&printed)?, "0 | -\n");
    }
    Ok(())
}
