//! Times what locks, takes memory or starts threads, which no static library may: the shared forms and slots, turns of the executor,
//! and messages between threads and tasks that wait.
//!
//!     bench_shared CASE COUNT [answers]
//!
//! Prints the case, what it answered, and nanoseconds, which `answers` leaves out. COUNT passes of a case of `passes` or `turns` are
//! taken, and the time is that of the fastest. Of the others COUNT messages are, and the time is that of one: `bench/threads/run.sh`
//! times other libraries beside them. `all` is each case, with two passes.
#![tactic(auto)]

mod messages;
mod passes;
mod tasks;
mod threads;
mod turns;

use anyhow::{Context, bail, ensure};
use embassy_sync::channel::Channel;
use esync_tasks::parking::Parking;
use esync_tasks::runtime::Runtime;
use std::alloc::Global;
use std::sync::Wait;
use std::time::{Clock, Instant};
use std::{array, env, thread};
use threads::{
    Line, alone, alone_by_tries, answer_all, ask_all, one_of_eight, receive_all, send_all,
    sum_of_eight,
};

const CASES: [&str; 8] = [
    "spsc_4",
    "spsc_64",
    "mpmc_threads",
    "mpmc_tasks",
    "round_trip",
    "uncontended_try",
    "uncontended_wait",
    "token_ring",
];

// One thread sends, another receives, through a channel of so many messages.
macro_rules! one_and_one {
    ($rt:expr, $parking:expr, $places:literal, $count:expr) => {{
        let line: Line<_, $places> = Channel::new($parking);
        let ((), total) = thread::join(
            $rt,
            || send_all($parking, 0, &line, 0, $count),
            || receive_all($parking, 1, &line, $count),
        );
        Some(total)
    }};
}

// What a case cost, or the sum of its messages, as a line.
fn told(
    rt: &impl Clock,
    case: &str,
    start: Instant,
    total: u64,
    count: u32,
) -> anyhow::Result<u128> {
    let tenths = start.elapsed(rt)?.as_nanos().saturating_mul(10) / u128::from(count.max(1));
    let messages = u64::from(count);
    ensure!(
        total == messages.saturating_mul(messages.saturating_sub(1)) / 2,
        "the messages of {case} add up to {total}"
    );
    Ok(tenths)
}

// Two passes of each case that is taken in passes.
fn print_passes<R: Print + Clock + Wait>(
    rt: &R,
    alloc: Global,
    is_timed: bool,
) -> anyhow::Result<()> {
    for case in passes::CASES {
        passes::print(rt, alloc, case, 2, is_timed)?;
    }
    for case in turns::CASES {
        turns::print(rt, alloc, case, 2, is_timed)?;
    }
    Ok(())
}

fn main(rt: HostRuntime) -> anyhow::Result<()> {
    let mut words = env::args(&rt)?.skip(1);
    let asked = words.next().context("which case?")?;
    let count: u32 = words.next().context("how often?")?.parse()?;
    let is_timed = match words.next() {
        None => true,
        Some(word) if word.as_str() == "answers" => false,
        Some(_) => bail!("`answers` or nothing comes last"),
    };
    let alloc = rt.alloc();
    if passes::print(&rt, alloc, asked.as_str(), count, is_timed)? {
        return Ok(());
    }
    if turns::print(&rt, alloc, asked.as_str(), count, is_timed)? {
        return Ok(());
    }
    ensure!(count > 0 && count % 8 == 0, "a count is a multiple of 8");
    let is_all = asked.as_str() == "all";
    if is_all {
        print_passes(&rt, alloc, is_timed)?;
    }
    ensure!(
        is_all || CASES.contains(&asked.as_str()),
        "no case has this name"
    );
    for case in CASES {
        if !is_all && asked.as_str() != case {
            continue;
        }
        let start = Instant::now(&rt)?;
        let parking: Parking<'_, HostRuntime, 2> = Parking::new(&rt);
        let total = match case {
            "spsc_4" => one_and_one!(&rt, &parking, 4, count),
            "spsc_64" => one_and_one!(&rt, &parking, 64, count),
            "mpmc_threads" => {
                let parking: Parking<'_, HostRuntime, 8> = Parking::new(&rt);
                let line = Channel::new(&parking);
                sum_of_eight(
                    &rt,
                    alloc,
                    &|thread| one_of_eight(&parking, &line, thread, count),
                )
            }
            "round_trip" => {
                let asked = Channel::new(&parking);
                let answers = Channel::new(&parking);
                let (total, ()) = thread::join(
                    &rt,
                    || ask_all(&parking, &asked, &answers, count),
                    || answer_all(&parking, &asked, &answers, count),
                );
                Some(total)
            }
            "uncontended_try" => Some(alone_by_tries(&Channel::new(&parking), count)),
            "uncontended_wait" => Some(alone(&parking, &Channel::new(&parking), count)),
            "mpmc_tasks" => {
                let runtime: Runtime<'_, HostRuntime, 8> = Runtime::new(&rt);
                tasks::four_and_four(&rt, &runtime, alloc, &Channel::new(&runtime), count)
            }
            _ => {
                let runtime: Runtime<'_, HostRuntime, 8> = Runtime::new(&rt);
                let lines: [Line<&Runtime<'_, HostRuntime, 8>, 1>; 8] = array::from_fn(
                    |_| Channel::new(&runtime),
                );
                tasks::ring(&rt, &runtime, alloc, &lines[..], count)
            }
        };
        let total = total.context("out of memory")?;
        let tenths = told(&rt, case, start, total, count)?;
        if is_timed {
            println!(rt; "{case} {total} {}.{}", tenths / 10, tenths % 10)?;
        } else {
            println!(rt; "{case} {total}")?;
        }
    }
    Ok(())
}
