use esync_ends::gauge::Gauge;
use esync_ends::{Delivery, Reaches, Unheard, try_ends};
use esync_notes::same;
use std::alloc::Global;
use std::cell::Cell;
use std::io;
use std::process::Abort;
use std::test::Fail;
use std::time::{Clock, Duration};

/// Keeps back each list of wakes that is the waker 1 alone.
#[derive(Drop)]
pub struct KeepsBack {}

impl Delivery for KeepsBack {
    fn arrives(&self, waker: u64, wakers: &[Option<u64>]) -> bool {
        let is_alone = wakers.iter().flatten().count() == 1;
        !(waker == 1 && is_alone) && Reaches {}.arrives(waker, wakers)
    }
}

/// A channel for whose message two requests wait.
pub const SCRIPT: &str = "channel 1\nstart 1 receive\npoll 1 1\nstart 2 receive\ntry-send 7\n";

#[test]
fn a_waker_that_is_kept_back_is_found(rt: HostRuntime) -> Result<(), Fail> {
    let alloc = rt.alloc();
    let mut output = Vec::new(alloc);
    let is_told = try_ends(
        alloc,
        KeepsBack {},
        Unheard {},
        SCRIPT,
        u64::MAX,
        &mut output,
    )?;
    let untold =
        "after line 4, end 2: request 1 is Ready and was not told\nafter line 5, end 2: request 1 is Ready and was not told\n6 ends, 2 polls, 2 not told\n";
    same!(&rt; str::from_utf8(&output)?, untold);
    same!(&rt; is_told, false);
    Ok(())
}

/// A clock that goes on by so many milliseconds each time it is looked at.
#[derive(Drop)]
struct Ticks {
    now: Cell<u64>,
    by: u64,
}

impl Clock for Ticks {
    fn monotonic(&self) -> io::Result<Duration> {
        self.now.set(self.now.get().saturating_add(self.by));
        Ok(Duration::from_millis(self.now.get()))
    }

    fn since_1970(&self) -> io::Result<Duration> {
        self.monotonic()
    }
}

// What is said of a trial while it goes on, where the clock goes on so.
fn is_said(
    rt: &impl Abort,
    alloc: Global,
    by: u64,
    is_terminal: bool,
    said: &str,
) -> Result<(), Fail> {
    let (mut output, mut errors) = (Vec::new(alloc), Vec::new(alloc));
    let clock = Ticks {
        now: Cell::new(0),
        by,
    };
    let gauge = Gauge::new(clock, &mut errors, is_terminal);
    try_ends(alloc, Reaches {}, gauge, SCRIPT, u64::MAX, &mut output)?;
    same!(rt; str::from_utf8(&output)?, "6 ends, 2 polls, 0 not told\n");
    same!(rt; str::from_utf8(&errors)?, said);
    Ok(())
}

#[test]
fn a_trial_that_takes_longer_than_a_second_says_how_far_it_is(rt: HostRuntime) -> Result<(), Fail> {
    let last = "\resync: line 5 of 5, 6 ends tried\r\x1b[K";
    is_said(&rt, rt.alloc(), 300, true, last)?;
    is_said(&rt, rt.alloc(), 200, true, "")?;
    is_said(&rt, rt.alloc(), 300, false, "")
}
