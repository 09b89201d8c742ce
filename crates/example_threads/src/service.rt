//! A service answers requests until it is told to stop, and sleeps while there is neither a request nor a stop.
use embassy_sync::channel::Channel;
use embassy_sync::signal::Signal;
use embassy_sync::waitqueue::{Hand, TaskId};
use esync_tasks::future::{Either, select};
use esync_tasks::parking::Parking;
use std::sync::Wait;
use std::thread::Threads;
use std::{io, thread};

const REQUESTS: u64 = 10_000;

type Line<H> = Channel<u64, TaskId, H, 2>;

type Stop<H> = Signal<(), TaskId, H>;

// Doubles each number that is asked for, and returns how many requests there were.
fn serve<R: Wait, H: Hand<TaskId>>(
    rt: &R,
    parking: &Parking<'_, R, 2>,
    requests: &Line<H>,
    responses: &Line<H>,
    stop: &Stop<H>,
) -> u64 {
    let mut served: u64 = 0;
    let Some(mut seat) = parking.seat(0) else {
        return served;
    };
    for _ in rt.forever() {
        match seat.block_on(select(requests.receive(), stop.wait())) {
            Either::First(number) => seat.block_on(responses.send(number.wrapping_mul(2))),
            Either::Second(()) => break,
        }
        served = served.wrapping_add(1);
    }
    served
}

// Asks for all numbers, one after another, and stops the service. Returns the sum of its answers.
fn ask<R: Wait, H: Hand<TaskId>>(
    parking: &Parking<'_, R, 2>,
    requests: &Line<H>,
    responses: &Line<H>,
    stop: &Stop<H>,
) -> u64 {
    let mut sum: u64 = 0;
    let Some(mut seat) = parking.seat(1) else {
        return sum;
    };
    for number in 0..REQUESTS {
        seat.block_on(requests.send(number));
        sum = sum.wrapping_add(seat.block_on(responses.receive()));
    }
    stop.signal(());
    sum
}

pub fn example<R: Print + Threads + Wait + Sync>(rt: &R) -> io::Result<()> {
    let parking: Parking<'_, R, 2> = Parking::new(rt);
    let requests = Channel::new(&parking);
    let responses = Channel::new(&parking);
    let stop = Signal::new(&parking);
    let (served, sum) = thread::join(
        rt,
        || serve(rt, &parking, &requests, &responses, &stop),
        || ask(&parking, &requests, &responses, &stop),
    );
    println!(rt; "{served} requests were answered, and the answers' sum is {sum}")
}
