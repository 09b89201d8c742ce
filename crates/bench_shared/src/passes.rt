//! Passes over the shared forms, in the shapes of the static library's, for `bench/run.sh`, which times upstream beside them.
ghost use Rattle.std.specs.Prelude.{◌<◌, length};

use crate::messages::messages;
use esync_base::waitqueue::{Context, Hand, Poll, TaskId, Wakes};
use esync_cells::signal::Signal;
use esync_channel::channel::{Channel, ChannelState};
use esync_zerocopy::zerocopy_channel::ChannelState as SlotsState;
use std::alloc::{AllocError, Global};
use std::cell::Cell;
use std::sync::Wait;
use std::time::{Clock, Duration, Instant};

/// What a pass answers.
#[derive(Clone, Copy, Default)]
pub struct Answer {
    /// The sum of the messages that came out.
    pub total: u64,
    /// How often the task was woken.
    pub woken: u64,
}

/// What a pass does with each message.
#[derive(Clone, Copy)]
pub enum Case {
    /// It is sent and then received.
    PingPong,
    /// The task polls and waits, the message is sent, which wakes it, and it polls again.
    WaitAndWake,
    /// It is signaled and then taken.
    SignalTake,
    /// A block of 1024 of its last byte is written into one of two slots and read there.
    Slots,
    /// The same block is sent through a channel of two, and received.
    Blocks,
}

impl Case {
    pub fn named(name: &str) -> Option<Case> {
        match name {
            "ping_pong" => Some(Case::PingPong),
            "wait_and_wake" => Some(Case::WaitAndWake),
            "signal_take" => Some(Case::SignalTake),
            "slots" => Some(Case::Slots),
            "blocks" => Some(Case::Blocks),
            _ => None,
        }
    }

    /// One pass.
    ///
    /// # Errors
    ///
    /// `AllocError` where there is no memory for the two slots.
    pub fn pass<R: Wait>(
        self,
        rt: &R,
        alloc: Global,
        messages: &[u32],
    ) -> Result<Answer, AllocError> {
        let hand = Counting {
            rt,
            woken: Cell::new(0),
        };
        let total = match self {
            Case::PingPong => ping_pong(&Channel::new(&hand), messages),
            Case::WaitAndWake => wait_and_wake(&Channel::new(&hand), messages),
            Case::SignalTake => signal_take(&Signal::new(&hand), messages),
            Case::Slots => {
                let slots = vec![in alloc; [0; 1024], [0; 1024]]?;
                slots_one_by_one(&mut SlotsState::new(slots), messages)
            }
            Case::Blocks => blocks(&mut ChannelState::new(), messages),
        };
        Ok(Answer {
            total,
            woken: hand.woken.get(),
        })
    }
}

// The answer of the last pass, and how long the fastest one took.
fn fastest<R: Wait + Clock>(
    rt: &R,
    alloc: Global,
    case: Case,
    passes: u32,
    messages: &[u32],
) -> anyhow::Result<(Answer, Duration)> {
    let mut answer = Answer::default();
    let mut fastest = Duration::MAX;
    for _ in 0..passes {
        let start = Instant::now(rt)?;
        answer = case.pass(rt, alloc, messages)?;
        fastest = fastest.min(start.elapsed(rt)?);
    }
    Ok((answer, fastest))
}

/// The names of the cases.
pub const CASES: [&str; 5] = [
    "ping_pong",
    "wait_and_wake",
    "signal_take",
    "slots",
    "blocks",
];

/// Prints the case of this name, with the sum of the messages that came out of its last pass, and how often the task was woken.
/// Whether there is one.
pub fn print<R: Print + Wait + Clock>(
    rt: &R,
    alloc: Global,
    name: &str,
    passes: u32,
    is_timed: bool,
) -> anyhow::Result<bool> {
    let Some(case) = Case::named(name) else {
        return Ok(false);
    };
    let messages = messages(alloc)?;
    let (answer, fastest) = fastest(rt, alloc, case, passes, &messages)?;
    if is_timed {
        println!(rt;
            "{name} {} {} {}",
            answer.total,
            answer.woken,
            fastest.as_nanos()
        )?;
    } else {
        println!(rt; "{name} {} {}", answer.total, answer.woken)?;
    }
    Ok(true)
}

// A hand that counts the wakes of the one task.
#[derive(Drop)]
struct Counting<'a, R> {
    rt: &'a R,
    woken: Cell<u64>,
}

impl<R: Wait> Hand<TaskId> for &Counting<'_, R> {
    type Rt = R;

    fn rt(&self) -> &R {
        self.rt
    }

    fn wake(&self, _waker: TaskId) {
        self.woken.set(self.woken.get().wrapping_add(1));
    }
}

type Pipe<'a, R> = Channel<u32, TaskId, &'a Counting<'a, R>, 4>;

#[inline(never)]
fn ping_pong<R: Wait>(channel: &Pipe<'_, R>, messages: &[u32]) -> u64 {
    let mut total = 0u64;
    for message in messages {
        let _ = channel.try_send(*message);
        total = total.wrapping_add(u64::from(channel.try_receive().unwrap_or(0)));
    }
    total
}

#[inline(never)]
fn wait_and_wake<R: Wait>(channel: &Pipe<'_, R>, messages: &[u32]) -> u64 {
    let cx = Context::from_waker(TaskId(0));
    let mut total = 0u64;
    for message in messages {
        let mut receiving = channel.receive();
        if let Poll::Ready(message) = receiving.poll(&cx) {
            total = total.wrapping_add(u64::from(message));
        }
        let _ = channel.try_send(*message);
        if let Poll::Ready(message) = receiving.poll(&cx) {
            total = total.wrapping_add(u64::from(message));
        }
    }
    total
}

#[inline(never)]
fn signal_take<'a, R: Wait>(
    signal: &Signal<u32, TaskId, &'a Counting<'a, R>>,
    messages: &[u32],
) -> u64 {
    let mut total = 0u64;
    for message in messages {
        signal.signal(*message);
        total = total.wrapping_add(u64::from(signal.try_take().unwrap_or(0)));
    }
    total
}

// The last byte of a message, as a block of 1024.
fn block(message: u32) -> [u8; 1024] {
    [(message & 0xFF) as u8; 1024]
}

#[inline(never)]
fn slots_one_by_one(channel: &mut SlotsState<[u8; 1024], TaskId>, messages: &[u32]) -> u64 {
    let mut total = 0u64;
    for message in messages {
        if let Some(slot) = channel.try_send() {
            *slot = block(*message);
        }
        if !channel.is_full() {
            let mut wakes: Wakes<TaskId, 1> = Wakes::new();
            channel.send_done(&mut wakes);
        }
        if let Some(slot) = channel.try_receive() {
            total = total.wrapping_add(u64::from(slot[1023]));
        }
        if !channel.is_empty() {
            let mut wakes: Wakes<TaskId, 1> = Wakes::new();
            channel.receive_done(&mut wakes);
        }
    }
    total
}

#[inline(never)]
fn blocks(channel: &mut ChannelState<[u8; 1024], TaskId, 2>, messages: &[u32]) -> u64 {
    let mut total = 0u64;
    for message in messages {
        let mut wakes: Wakes<TaskId, 1> = Wakes::new();
        let _ = channel.try_send(block(*message), &mut wakes);
        let mut wakes: Wakes<TaskId, 1> = Wakes::new();
        if let Ok(block) = channel.try_receive(&mut wakes) {
            total = total.wrapping_add(u64::from(block[1023]));
        }
    }
    total
}
