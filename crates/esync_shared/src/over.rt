//! The shared form of each primitive that a script is played over.
ghost use Rattle.std.specs.Prelude.{◌≤◌};

use crate::channel::Channel;
use crate::form::Door;
use crate::mutex::Guarded;
use crate::once::Once;
use crate::pipe::{Lasting, Lent, Split, Tasks};
use crate::play::Stage;
use crate::pubsub::{PubSub, Topic};
use crate::semaphore::{Granted, Permits};
use crate::signal::Signaling;
use crate::watch::{Watches, Watching};
use crate::zerocopy::{Numbered, Zerocopy};
use bumpalo::Bump;
use esync_base::deque::Deque;
use esync_base::store::{FixedBytes, FixedStore};
use esync_base::waitqueue::{Hand, TaskId};
use esync_cells::signal::Signal;
use esync_cells::watch::Watch;
use esync_channel::channel::SharedMailbox;
use esync_guards::mutex::Mutex;
use esync_notes::Notes;
use esync_permits::semaphore::machine::{PermitCall, PermitHeard};
use esync_permits::semaphore::{Amount, FairState, GreedyState, PermitState, SharedSemaphore};
use esync_pipe::pipe::{DynamicReader, DynamicWriter, SharedPipe};
use esync_pipe::ring::Ring;
use esync_priority::prio::{Max, Min, PrioQueue};
use esync_pubsub::pubsub::PubSubChannel;
use esync_script::capacity::{Capacity, Size};
use esync_script::opening::Opening;
use esync_script::semaphore::{FairWords, GreedyWords};
use esync_words::fault::Fault;
use esync_words::vocabulary::Vocabulary;
use esync_zerocopy::zerocopy_channel::{Channel as SlotChannel, Slot};
use std::alloc::{AllocError, Global};
use std::io::Write;
use std::sync::Wait;

// An expression over a capacity, written out for each capacity: a number of places is part of a type. The number stands
// in place of `N`, or first among a macro's arguments.
macro_rules! at_capacity {
    ($capacity:ident, [$($before:tt)*] N [$($after:tt)*]) => {
        match $capacity {
            Capacity::One => $($before)* 1 $($after)*,
            Capacity::Two => $($before)* 2 $($after)*,
            Capacity::Three => $($before)* 3 $($after)*,
            Capacity::Four => $($before)* 4 $($after)*,
            Capacity::Eight => $($before)* 8 $($after)*,
        }
    };
    ($capacity:ident, $play:ident!($($argument:tt)*)) => {
        match $capacity {
            Capacity::One => $play!(1, $($argument)*),
            Capacity::Two => $play!(2, $($argument)*),
            Capacity::Three => $play!(3, $($argument)*),
            Capacity::Four => $play!(4, $($argument)*),
            Capacity::Eight => $play!(8, $($argument)*),
        }
    };
}

/// Plays the script over the shared form of the primitive that line 1 names.
pub fn named<R: Wait, W: Write>(stage: Stage<'_, R, W>, opening: Opening) -> Result<(), Fault> {
    match opening {
        Opening::Channel(n) => at_capacity!(n, [channel::<Deque<u64,] N [>, R, W>(stage)]),
        Opening::Max(n) => at_capacity!(n, [channel::<PrioQueue<u64, Max,] N [>, R, W>(stage)]),
        Opening::Min(n) => at_capacity!(n, [channel::<PrioQueue<u64, Min,] N [>, R, W>(stage)]),
        Opening::Signal => signal(stage),
        Opening::Greedy(permits) => {
            semaphore::<GreedyState<u64>, GreedyWords, _, R, W>(stage, permits)
        }
        Opening::Fair(n, permits) => at_capacity!(n, [fair::<] N [, R, W>(stage, permits)]),
        Opening::Pipe(n) => at_capacity!(n, [pipe::<Ring<] N [>, R, W>(stage)]),
        // A shared channel begins at no other number. (A script of `syncrun` says no numbers of subscribers and
        // publishers: there are four of each.)
        Opening::PubSub(n, 0, _) => pubsub(stage, n),
        Opening::PubSub(..) => Err(Fault::NotACommand(1)),
        Opening::Once => once(stage),
        // The calls of a lazy value ask that its closure can be called, which can't be said of a value that a form
        // keeps. Tests show what it does.
        Opening::Lazy(_) => Err(Fault::NotACommand(1)),
        Opening::Mutex(value, part) => mutex(stage, value, part),
        Opening::Watch(n, value) => at_capacity!(n, [watch::<] N [, R, W>(stage, value)]),
        Opening::Zerocopy(n) => zerocopy(stage, n),
    }
}

// Plays the script over a channel that keeps its messages in this way.
fn channel<S: FixedStore<Message = u64>, R: Wait, W: Write>(
    stage: Stage<'_, R, W>,
) -> Result<(), Fault> {
    let channel: SharedMailbox<S, u64, &Notes<'_, R>> = SharedMailbox::new(stage.notes);
    let form = Channel::new(&channel, stage.doors);
    stage.serve(form)
}

// Plays the script over a signal.
fn signal<R: Wait, W: Write>(stage: Stage<'_, R, W>) -> Result<(), Fault> {
    let signal: Signal<u64, u64, &Notes<'_, R>> = Signal::new(stage.notes);
    let form = Signaling::new(&signal, stage.doors);
    stage.serve(form)
}

// Plays the script over a semaphore with this state, in these words.
fn semaphore<S, V, G, R, W>(stage: Stage<'_, R, W>, permits: usize) -> Result<(), Fault>
where
    S: PermitState<Waker = u64>,
    V: Vocabulary<Ask = Amount, Call = PermitCall, Heard = PermitHeard<G>>,
    G: Granted<Error = S::Error>,
    R: Wait,
    W: Write,
{
    let hand = stage.notes;
    let semaphore: SharedSemaphore<S, u64, &Notes<'_, R>> = SharedSemaphore::new(permits, hand);
    let form: Permits<'_, S, &Notes<'_, R>, V, G> = Permits::new(&semaphore, stage.doors);
    stage.serve(form)
}

// Plays the script over a fair semaphore with a queue of `N` places.
fn fair<const N: usize, R: Wait, W: Write>(
    stage: Stage<'_, R, W>,
    permits: usize,
) -> Result<(), Fault>
    requires { N ≤ 8 }
{
    semaphore::<FairState<u64, N>, FairWords, _, R, W>(stage, permits)
}

// Plays the script over a pipe with this buffer: the first way says whether it is split anew or its futures last.
fn pipe<B: FixedBytes, R: Wait, W: Write>(stage: Stage<'_, R, W>) -> Result<(), Fault> {
    let mut doors = stage.doors;
    match doors.next() {
        Door::Handle => split::<B, R, W>(stage),
        Door::Own | Door::Dynamic => lasting::<B, R, W>(stage),
    }
}

// Plays the script over a pipe that is split anew for each call.
fn split<B: FixedBytes, R: Wait, W: Write>(stage: Stage<'_, R, W>) -> Result<(), Fault> {
    let pipe: SharedPipe<B, u64, &Notes<'_, R>> = SharedPipe::new(stage.notes);
    let form = Split {
        pipe,
        doors: stage.doors,
    };
    stage.serve(form)
}

// Plays the script over a pipe whose futures last.
fn lasting<B: FixedBytes, R: Wait, W: Write>(stage: Stage<'_, R, W>) -> Result<(), Fault> {
    let hand = Tasks::new(stage.notes);
    let pipe: SharedPipe<B, TaskId, Tasks<&Notes<'_, R>>> = SharedPipe::new(hand);
    let written = Bump::new(stage.alloc);
    let lent = Lent::new(&pipe);
    let writer = DynamicWriter::new(lent);
    let reader = DynamicReader::new(stage.alloc, lent).map_err(|_| Fault::OutOfMemory)?;
    let form = Lasting {
        pipe: &pipe,
        written: &written,
        writer: &writer,
        reader,
        doors: stage.doors,
    };
    stage.serve(form)
}

// A pub-sub channel of so many messages. It is spelled out, so that its size in bytes is known.
macro_rules! topic {
    ($n:literal, $stage:ident, $of:ident) => {{
        let channel: PubSubChannel<u64, u64, &Notes<'_, $of>, $n, 4, 4, 4> =
            PubSubChannel::new($stage.notes);
        log($stage, &channel)
    }};
}

// Plays the script over a pub-sub channel.
fn pubsub<R: Wait, W: Write>(stage: Stage<'_, R, W>, capacity: Capacity) -> Result<(), Fault> {
    at_capacity!(capacity, topic!(stage, R))
}

// Plays the script over this pub-sub channel, which has no subscribers and publishers.
fn log<B: Topic, R: Wait, W: Write>(stage: Stage<'_, R, W>, channel: &B) -> Result<(), Fault> {
    let form = PubSub::new(stage.alloc, channel, stage.doors).map_err(|_| Fault::OutOfMemory)?;
    stage.serve(form)
}

// Plays the script over a value that is set once.
fn once<R: Wait, W: Write>(stage: Stage<'_, R, W>) -> Result<(), Fault> {
    let form: Once<&Notes<'_, R>> = Once::new(stage.notes, stage.doors);
    stage.serve(form)
}

// Plays the script over a mutex.
fn mutex<R: Wait, W: Write>(stage: Stage<'_, R, W>, value: u64, part: u64) -> Result<(), Fault> {
    let mutex: Mutex<_, u64, &Notes<'_, R>> = Mutex::new((value, part), stage.notes);
    let form = Guarded { mutex: &mutex };
    stage.serve(form)
}

// Plays the script over a watch with places for `N` receivers.
fn watch<const N: usize, R: Wait, W: Write>(
    stage: Stage<'_, R, W>,
    value: Option<u64>,
) -> Result<(), Fault>
    requires { N ≤ 8 }
{
    let watch: Watch<u64, u64, &Notes<'_, R>, N> = match value {
        Some(value) => Watch::new_with(value, stage.notes),
        None => Watch::new(stage.notes),
    };
    latest(stage, &watch)
}

// Plays the script over this watch, which has no receivers.
fn latest<B: Watches, R: Wait, W: Write>(stage: Stage<'_, R, W>, watch: &B) -> Result<(), Fault> {
    let form = Watching::new(stage.alloc, watch, stage.doors).map_err(|_| Fault::OutOfMemory)?;
    stage.serve(form)
}

// Returns as many slots of value 0 as the capacity says.
fn slots(alloc: Global, capacity: Capacity) -> Result<Vec<Slot<Numbered>>, AllocError> {
    let mut slots = Vec::new(alloc);
    for number in 0..capacity.places() {
        slots.push(Slot::new(Numbered { number, value: 0 }))?;
    }
    Ok(slots)
}

// Plays the script over a zero-copy channel.
fn zerocopy<R: Wait, W: Write>(stage: Stage<'_, R, W>, capacity: Capacity) -> Result<(), Fault> {
    let slots = slots(stage.alloc, capacity).map_err(|_| Fault::OutOfMemory)?;
    // (each capacity has a slot)
    if slots.is_empty() {
        return Err(Fault::NotACommand(1));
    }
    let mut channel: SlotChannel<Numbered, u64, &Notes<'_, R>> = SlotChannel::new(
        slots,
        stage.notes,
    );
    sides(stage, &mut channel)
}

// Plays the script over the sides of this zero-copy channel, of which no slot is held or lent.
fn sides<H: Hand<u64>, R: Wait, W: Write>(
    stage: Stage<'_, R, W>,
    channel: &mut SlotChannel<Numbered, u64, H>,
) -> Result<(), Fault> {
    let (sender, receiver) = channel.split();
    let form = Zerocopy::new(sender, receiver, stage.doors);
    stage.serve(form)
}
