//! An interrupt puts bytes into a pipe, and yields while it is full. A driver reads them, sleeps while there are none, and answers by a
//! signal.
use embassy_sync::pipe::Pipe;
use embassy_sync::signal::Signal;
use embassy_sync::waitqueue::{Hand, TaskId};
use esync_tasks::parking::Parking;
use std::sync::Wait;
use std::thread::Threads;
use std::{io, thread};

const LINES: u32 = 1_000;

const LINE: &[u8] = b"21 degrees\n";

type Wire<H> = Pipe<TaskId, H, 32>;

// Puts in the bytes that there is room for. The rest is offered again, as a wire with flow control does.
fn interrupt<H: Hand<TaskId>>(wire: &Wire<H>, line: &[u8]) {
    let mut rest = line;
    for _tick in 0..u64::MAX {
        if rest.is_empty() {
            return;
        }
        match wire.try_write(rest) {
            Ok(count) => rest = &rest[count..],
            Err(_full) => thread::yield_now(),
        }
    }
}

// Has an interrupt for each line, and then sleeps until the driver answers.
fn measure<R: Wait, H: Hand<TaskId>>(
    parking: &Parking<'_, R, 2>,
    wire: &Wire<H>,
    answer: &Signal<u64, TaskId, H>,
) -> u64 {
    for _line in 0..LINES {
        interrupt(wire, LINE);
    }
    match parking.seat(1) {
        Some(mut seat) => seat.block_on(answer.wait()),
        None => 0,
    }
}

fn ends(bytes: &[u8]) -> u32 {
    let mut count: u32 = 0;
    for byte in bytes {
        if *byte == b'\n' {
            count = count.wrapping_add(1);
        }
    }
    count
}

// Reads all lines, and signals how many bytes they had.
fn drive<R: Wait, H: Hand<TaskId>>(
    rt: &R,
    parking: &Parking<'_, R, 2>,
    wire: &Wire<H>,
    answer: &Signal<u64, TaskId, H>,
) {
    let Some(mut seat) = parking.seat(0) else {
        return;
    };
    let mut buffer = [0u8; 16];
    let mut lines: u32 = 0;
    let mut bytes: u64 = 0;
    for _ in rt.forever() {
        if lines >= LINES {
            break;
        }
        let count = seat.block_on(wire.read(&mut buffer));
        lines = lines.wrapping_add(ends(&buffer[..count]));
        bytes = bytes.wrapping_add(count as u64);
    }
    answer.signal(bytes);
}

pub fn example<R: Print + Threads + Wait + Sync>(rt: &R) -> io::Result<()> {
    let parking: Parking<'_, R, 2> = Parking::new(rt);
    let wire = Pipe::new(&parking);
    let answer = Signal::new(&parking);
    let (bytes, ()) = thread::join(
        rt,
        || measure(&parking, &wire, &answer),
        || drive(rt, &parking, &wire, &answer),
    );
    println!(rt; "the driver read {bytes} bytes")
}
