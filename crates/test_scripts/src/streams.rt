//! Reads and writes of single bytes, of which each fails in turn: a script that is answered, and one that is drawn.
use crate::scripts::{FAILED, Piece, Pieces, Room};
use esync_notes::same;
use esync_script::{script, trace};
use std::alloc::{AllocError, Global};
use std::cell::Cell;
use std::io::ErrorKind;
use std::test::Fail;

const SCRIPT: &str = "channel 1\nstart 1 receive\npoll 1 1\ntry-send 7\n";

/// What is answered to each line.
const ANSWERED: [&str; 4] = ["", "Ok | -\n", "Pending | -\n", "Ok | 1\n"];

/// What is drawn of each line.
const DRAWN: [&str; 4] = [
    "sequenceDiagram\n    participant object as channel 1\n",
    "    caller->>object: 2: start 1 receive\n    object-->>caller: Ok\n",
    "    task_1->>object: 3: poll 1 1\n    object-->>task_1: Pending\n    Note over task_1: waits\n",
    "    caller->>object: 4: try-send 7\n    object-->>caller: Ok\n    object-)task_1: wake\n",
];

/// What is written of the lines that stand whole among the first bytes.
fn told_of(alloc: Global, parts: &[&str], bytes: usize) -> Result<Vec<u8>, AllocError> {
    let mut told = Vec::new(alloc);
    let mut parts = parts.iter();
    for byte in SCRIPT.as_bytes().iter().take(bytes) {
        if *byte == b'\n' {
            if let Some(part) = parts.next() {
                told.extend_from_slice(part.as_bytes())?;
            }
        }
    }
    Ok(told)
}

/// The script in single bytes, with a failure of this kind behind so many.
fn failing_behind(alloc: Global, count: usize, kind: ErrorKind) -> Result<Vec<Piece>, AllocError> {
    let mut pieces = Vec::new(alloc);
    for byte in SCRIPT.as_bytes().chunks(1) {
        if pieces.len() == count {
            pieces.push(Piece::Fails(kind))?;
        }
        pieces.push(Piece::Bytes(byte))?;
    }
    if pieces.len() == count {
        pieces.push(Piece::Fails(kind))?;
    }
    Ok(pieces)
}

/// What is written, byte by byte up to so many, and the status.
fn left_by(alloc: Global, is_drawn: bool, pieces: &[Piece], left: usize) -> (Vec<u8>, Vec<u8>, u8) {
    let (written, seen) = (Cell::new(0), Cell::new(0));
    let (mut output, mut errors) = (Vec::new(alloc), Vec::new(alloc));
    let input = Pieces {
        pieces,
        written: &written,
        seen: &seen,
    };
    let room = Room {
        left,
        most: 1,
        text: &mut output,
        written: &written,
    };
    let status = if is_drawn {
        trace(alloc, input, room, &mut errors)
    } else {
        script(alloc, input, room, &mut errors)
    };
    (output, errors, status)
}

#[test]
fn a_read_that_fails_leaves_what_is_told_of_the_lines_before_it(
    rt: HostRuntime,
) -> Result<(), Fail> {
    let alloc = rt.alloc();
    for (is_drawn, parts) in [(false, ANSWERED), (true, DRAWN)] {
        for count in 0..=SCRIPT.len() {
            let pieces = failing_behind(alloc, count, ErrorKind::Other)?;
            let (output, errors, status) = left_by(alloc, is_drawn, &pieces, usize::MAX);
            assert_eq!(rt;
                output,
                told_of(alloc, &parts, count)?,
                "behind {count} reads"
            );
            same!(rt; str::from_utf8(&errors)?, FAILED);
            assert_eq!(rt; status, 3, "behind {count} reads");
        }
    }
    Ok(())
}

#[test]
fn nothing_is_written_behind_a_write_that_fails(rt: HostRuntime) -> Result<(), Fail> {
    let alloc = rt.alloc();
    for (is_drawn, parts) in [(false, ANSWERED), (true, DRAWN)] {
        let told = told_of(alloc, &parts, SCRIPT.len())?;
        let pieces = [Piece::Bytes(SCRIPT.as_bytes())];
        for count in 0..told.len() {
            let (output, errors, status) = left_by(alloc, is_drawn, &pieces, count);
            same!(rt; output.as_slice(), &told[..count]);
            same!(rt; str::from_utf8(&errors)?, FAILED);
            assert_eq!(rt; status, 3, "behind {count} writes");
        }
    }
    Ok(())
}

#[test]
fn an_interrupted_read_of_single_bytes_changes_nothing(rt: HostRuntime) -> Result<(), Fail> {
    let alloc = rt.alloc();
    for (is_drawn, parts) in [(false, ANSWERED), (true, DRAWN)] {
        let told = told_of(alloc, &parts, SCRIPT.len())?;
        for count in 0..=SCRIPT.len() {
            let pieces = failing_behind(alloc, count, ErrorKind::Interrupted)?;
            let (output, errors, status) = left_by(alloc, is_drawn, &pieces, usize::MAX);
            assert_eq!(rt; output, told, "behind {count} reads");
            same!(rt; errors.len(), 0);
            assert_eq!(rt; status, 0, "behind {count} reads");
        }
    }
    Ok(())
}
