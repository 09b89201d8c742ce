//! Two threads exchange a million messages through a channel, and sleep while they wait.
use embassy_sync::channel::Channel;
use embassy_sync::waitqueue::{Hand, TaskId};
use esync_tasks::parking::Parking;
use std::sync::Wait;
use std::thread::Threads;
use std::{io, thread};

const MESSAGES: u64 = 1_000_000;

type Line<H> = Channel<u64, TaskId, H, 64>;

// Sends the numbers below MESSAGES, and sleeps while there is no room.
fn send_all<R: Wait, H: Hand<TaskId>>(parking: &Parking<'_, R, 2>, line: &Line<H>) {
    let Some(mut seat) = parking.seat(0) else {
        return;
    };
    for message in 0..MESSAGES {
        seat.block_on(line.send(message));
    }
}

// Returns the sum of the messages, and how many of them came in order. Sleeps while there is no message.
fn receive_all<R: Wait, H: Hand<TaskId>>(
    parking: &Parking<'_, R, 2>,
    line: &Line<H>,
) -> (u64, u64) {
    let mut sum: u64 = 0;
    let mut in_order: u64 = 0;
    let Some(mut seat) = parking.seat(1) else {
        return (sum, in_order);
    };
    for next in 0..MESSAGES {
        let message = seat.block_on(line.receive());
        sum = sum.wrapping_add(message);
        if message == next {
            in_order = in_order.wrapping_add(1);
        }
    }
    (sum, in_order)
}

pub fn example<R: Print + Threads + Wait + Sync>(rt: &R) -> io::Result<()> {
    let parking: Parking<'_, R, 2> = Parking::new(rt);
    let line = Channel::new(&parking);
    let ((), (sum, in_order)) = thread::join(
        rt,
        || send_all(&parking, &line),
        || receive_all(&parking, &line),
    );
    println!(rt; "{in_order} messages came in order, and their sum is {sum}")
}
