//! The buffer of a UART: an interrupt puts the bytes that came into a pipe, and a task reads lines of four. What each call answers
//! and whom it wakes is known before the program runs: each `prove!` is proved.
use embassy_sync::pipe::{PipeState, TryReadError};
use embassy_sync::waitqueue::{Context, Wakes};
use std::io;

const TASK: u64 = 1;

pub fn example(rt: &impl Print) -> io::Result<()> {
    let mut pipe: PipeState<u64, 8> = PipeState::new();
    let mut line = [0; 4];

    // Nothing has come yet: the task waits for bytes.
    let cx = Context::from_waker(TASK);
    let mut wakes: Wakes<u64, 1> = Wakes::new();
    let waits = pipe.try_read_with_context(Some(&cx), &mut line, &mut wakes);
    prove!(waits == Err(TryReadError::Empty));
    prove!(wakes.is_empty());

    // The interrupt brings six bytes, and the task is handed out.
    let came = pipe.try_write(b"abcdef", &mut wakes);
    prove!(came == Ok(6));
    prove!(wakes.get(0) == Some(TASK));
    let first = wakes.get(0);
    println!(rt; "to wake: {first:?}")?;

    // The task reads a line, and two bytes stay.
    let mut wakes: Wakes<u64, 1> = Wakes::new();
    let read = pipe.try_read(&mut line, &mut wakes);
    prove!(read == Ok(4));
    let left = pipe.len();
    prove!(left == 2);
    println!(rt; "{line:?}, and {left} bytes stay")
}
