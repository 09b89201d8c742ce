//! Threads that run beside each other.
ghost use Rattle.std.specs.Prelude.{◌≡◌, ◌<◌};

use esync_base::waitqueue::TaskId;
use esync_channel::channel::ChannelState;
use esync_channel::channel::machine::{ChannelCall, ChannelRun};
use esync_history::recorded::{Recorded, Seat};
use esync_machine::primitive::Command;
use esync_machine::requests::Requests;
use esync_machine::run::Keep;
use esync_notes::holds;
use std::alloc::Global;
use std::marker::Brand;
use std::process::Abort;
use std::sync::Wait;
use std::sync::atomic::{AtomicBool, Ordering};
use std::sync::ledger::{Blank, Ledger};
use std::test::Fail;
use std::thread;
use std::thread::Threads;

// How often a thread looks for the other's flag.
const LOOKS: usize = 50_000_000;

// The flag is up at one of the looks. Between two of them other threads may run.
fn sees(flag: &AtomicBool) -> bool {
    for _ in 0..LOOKS {
        if flag.load(Ordering::SeqCst) {
            return true;
        }
        thread::yield_now();
    }
    false
}

// Makes the call, puts its own flag up, and looks for the other's.
fn meets<M: Keep + Drop, L: Ledger, R: Wait>(
    rt: &R,
    recorded: &Recorded<M, L>,
    seat: Seat<L>,
    call: M::Command,
    own: &AtomicBool,
    other: &AtomicBool,
) -> bool
where
    M::Command: Copy,
    M::Reply: Copy,
{
    let mut seat = seat;
    let called = recorded.call(rt, &mut seat, call).is_ok();
    own.store(true, Ordering::SeqCst);
    called && sees(other)
}

// Two threads make the call of one machine, and each waits for the other.
fn both_meet<M, L, R>(
    rt: &R,
    alloc: Global,
    blank: Blank,
    machine: M,
    call: M::Command,
) -> Result<(), Fail>
where
    M: Keep + Drop + Send,
    M::Command: Copy + Send,
    M::Reply: Copy + Send,
    M::Waker: Send,
    L: Ledger + Send + Sync,
    R: Threads + Wait + Abort + Sync,
    requires ledger { blank.name ≡ L.name }
    requires parts { blank.parts ≡ L.parts }
    requires room { 2 < blank.parts }
{
    let (recorded, mut seats) = Recorded::<M, L>::new(alloc, blank, machine, 2)?;
    let (first, second) = (seats.seat(), seats.seat());
    let (one, two) = (AtomicBool::new(false), AtomicBool::new(false));
    let (shared, left, right) = (&recorded, &one, &two);
    let both = thread::join(
        rt,
        move || meets(rt, shared, first, call, left, right),
        move || meets(rt, shared, second, call, right, left),
    );
    holds!(rt; both == (true, true));
    Ok(())
}

#[test]
fn two_threads_that_share_a_channel_meet(rt: HostRuntime) -> Result<(), Fail> {
    let channel: ChannelRun<u32, TaskId, 4, 1, 1> = Requests::new(ChannelState::new());
    let send = Command::Call(ChannelCall::TrySend(7));
    both_meet::<_, Brand, _>(&rt, rt.alloc(), Blank::new(3), channel, send)
}
