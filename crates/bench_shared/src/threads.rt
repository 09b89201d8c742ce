//! Messages between threads, each of which waits by its seat.
use embassy_sync::channel::Channel;
use embassy_sync::waitqueue::{Hand, TaskId};
use esync_tasks::parking::Parking;
use std::alloc::Global;
use std::sync::Wait;
use std::thread::{self, Threads};

/// A channel of at most `N` messages.
pub type Line<H, const N: usize> = Channel<u32, TaskId, H, N>;

/// Sends these messages, by the seat of this number.
pub fn send_all<R: Wait, H: Hand<TaskId>, const SEATS: usize, const N: usize>(
    parking: &Parking<'_, R, SEATS>,
    seat: usize,
    line: &Line<H, N>,
    from: u32,
    to: u32,
) {
    let Some(mut seat) = parking.seat(seat) else {
        return;
    };
    for message in from..to {
        seat.block_on(line.send(message));
    }
}

/// Receives so many messages, by the seat of this number, and adds them up.
pub fn receive_all<R: Wait, H: Hand<TaskId>, const SEATS: usize, const N: usize>(
    parking: &Parking<'_, R, SEATS>,
    seat: usize,
    line: &Line<H, N>,
    count: u32,
) -> u64 {
    let mut total: u64 = 0;
    let Some(mut seat) = parking.seat(seat) else {
        return total;
    };
    for _message in 0..count {
        total = total.wrapping_add(u64::from(seat.block_on(line.receive())));
    }
    total
}

/// The part of one of eight threads, of which four send and four receive.
pub fn one_of_eight<R: Wait, H: Hand<TaskId>>(
    parking: &Parking<'_, R, 8>,
    line: &Line<H, 64>,
    thread: usize,
    count: u32,
) -> u64 {
    let share = count / 4;
    if thread % 2 == 1 {
        return receive_all(parking, thread, line, share);
    }
    let from = share.wrapping_mul((thread % 8) as u32 / 2);
    send_all(parking, thread, line, from, from.wrapping_add(share));
    0
}

/// Receives each message and sends it back.
pub fn answer_all<R: Wait, H: Hand<TaskId>>(
    parking: &Parking<'_, R, 2>,
    asked: &Line<H, 1>,
    answers: &Line<H, 1>,
    count: u32,
) {
    let Some(mut seat) = parking.seat(1) else {
        return;
    };
    for _message in 0..count {
        let message = seat.block_on(asked.receive());
        seat.block_on(answers.send(message));
    }
}

/// Sends each message and waits until it comes back.
pub fn ask_all<R: Wait, H: Hand<TaskId>>(
    parking: &Parking<'_, R, 2>,
    asked: &Line<H, 1>,
    answers: &Line<H, 1>,
    count: u32,
) -> u64 {
    let mut total: u64 = 0;
    let Some(mut seat) = parking.seat(0) else {
        return total;
    };
    for message in 0..count {
        seat.block_on(asked.send(message));
        total = total.wrapping_add(u64::from(seat.block_on(answers.receive())));
    }
    total
}

/// One thread sends and receives each message, and never waits.
pub fn alone<R: Wait, H: Hand<TaskId>>(
    parking: &Parking<'_, R, 2>,
    line: &Line<H, 64>,
    count: u32,
) -> u64 {
    let mut total: u64 = 0;
    let Some(mut seat) = parking.seat(0) else {
        return total;
    };
    for message in 0..count {
        seat.block_on(line.send(message));
        total = total.wrapping_add(u64::from(seat.block_on(line.receive())));
    }
    total
}

/// One thread tries to send and to receive each message.
pub fn alone_by_tries<H: Hand<TaskId>>(line: &Line<H, 64>, count: u32) -> u64 {
    let mut total: u64 = 0;
    for message in 0..count {
        if line.try_send(message).is_ok() {
            if let Ok(message) = line.try_receive() {
                total = total.wrapping_add(u64::from(message));
            }
        }
    }
    total
}

/// The sum of what the threads received. `None` where there is no memory for it.
pub fn sum_of_eight<R: Threads + Sync, F: Fn(usize) -> u64 + Sync>(
    rt: &R,
    alloc: Global,
    part: &F,
) -> Option<u64>
    requires { F.IsAlwaysCallable part.now }
{
    let totals = thread::map_indices(rt, alloc, 8, part).ok()?;
    let mut sum: u64 = 0;
    for total in &totals {
        sum = sum.wrapping_add(*total);
    }
    Some(sum)
}
