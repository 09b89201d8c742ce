//! Line 1 of a script, which names the primitive, and the machine that is played behind it.
ghost use Rattle.std.specs.Prelude.{◌≡◌, ◌<◌, ◌≤◌, ℕ, [], None, min, replicate};
ghost use Rattle.esync_base.specs.Keeping.{BoundedList};
ghost use Rattle.esync_priority.specs.Prio.{Bag};
ghost use Rattle.esync_script.specs.Channel.{channel_setting};
ghost use Rattle.esync_script.specs.Opening.{opening, language, first_and_handles, Closes, Plays, PlaysBehind, PlaysScript};
ghost use Rattle.esync_script.specs.Pipe.{pipe_setting};
ghost use Rattle.esync_script.specs.PubSub.{a_new_topic, no_lists, pubsub_setting};
ghost use Rattle.esync_script.specs.Semaphore.{fair_setting};
ghost use Rattle.esync_script.specs.Setting.{new_object, PlaysFrom};
ghost use Rattle.esync_script.specs.Watch.{watch_setting};
ghost use Rattle.esync_script.specs.Zerocopy.{zero_setting};
ghost use Rattle.esync_words.specs.Story.{replies_story};
ghost use Rattle.esync_words.specs.Words.{one, and_then};

use crate::capacity::{Capacity, Handles, MOST, Size};
use crate::channel::{ChannelWords, Listed, Prioritized};
use crate::lazy::{LazyWords, Made};
use crate::mutex::{MutexWords, Paired};
use crate::once::{Once, OnceWords};
use crate::pipe::{PipeWords, Ring};
use crate::player::Player;
use crate::pubsub::{PubSubWords, Topic, topic};
use crate::scripted::serve;
use crate::semaphore::{FairWords, Greedy, GreedyWords, Queued};
use crate::signal::{SignalWords, Signalled};
use crate::watch::{Counted, WatchWords};
use crate::zerocopy::{Slotted, ZeroWords};
use esync_base::kept::Kept;
use esync_base::limited::Limit;
use esync_log::log::{LimitedLog, LogStore};
use esync_machine::run::Machine;
use esync_priority::prio::{Kind, Max, Min};
use esync_words::fault::Fault;
use esync_words::lines::{ByteSource, Lines};
use esync_words::play::{Opens, Replies, Telling, open};
use esync_words::vocabulary::NAMES;
use esync_words::words::Words;
use std::io::Write;
use std::marker::Brand;

fn read_capacity<C: Size>(words: Words<'_>) -> Option<C>
    ensures { result ≡ and_then (one 64 words.entry) C.sized }
{
    C::of(words.number()?)
}

// The number of a pub-sub channel's first message, and how many subscribers and publishers it may have, by the numbers
// behind its capacity.
fn read_topic<C: Size>(said: Option<(u64, Option<(u64, u64)>)>) -> Option<(u64, Handles)>
    ensures { result ≡ first_and_handles C.handled said }
{
    match said {
        None => Some((0, Handles::four())),
        Some((first, None)) => Some((first, Handles::four())),
        Some((first, Some((subscribers, publishers)))) => {
            let handles = C::handles(subscribers, publishers)?;
            Some((first, handles))
        }
    }
}

/// The primitive that line 1 names, with its capacity.
#[derive(Debug, Drop)]
pub enum OpeningOf<C> {
    Channel(C),
    Max(C),
    Min(C),
    Signal,
    Greedy(usize),
    Fair(C, usize),
    Pipe(C),
    PubSub(C, u64, Handles),
    Once,
    Lazy(u64),
    Mutex(u64, u64),
    Watch(C, Option<u64>),
    Zerocopy(C),
}

/// The primitive that a script of `syncrun` is about.
pub type Opening = OpeningOf<Capacity>;

impl<C: Size> Opens for OpeningOf<C> {
    ghost use Rattle.esync_script.specs.Opening.{opening};

    ghost opens = { opening C.sized C.handled C.bits };

    fn opening(name: &str, words: Words<'_>) -> Option<Self> {
        match name {
            "channel" => Some(OpeningOf::Channel(read_capacity(words)?)),
            "max" => Some(OpeningOf::Max(read_capacity(words)?)),
            "min" => Some(OpeningOf::Min(read_capacity(words)?)),
            "signal" => (words.number()? == 1).then_some(OpeningOf::Signal),
            "greedy" => {
                let (places, permits) = words.two_numbers()?;
                (places == 1).then_some(OpeningOf::Greedy(permits as usize))
            }
            "fair" => {
                let (places, permits) = words.two_numbers()?;
                Some(OpeningOf::Fair(C::of(places)?, permits as usize))
            }
            "pipe" => Some(OpeningOf::Pipe(read_capacity(words)?)),
            "pubsub" => {
                let (places, said) = words.one_two_or_four_numbers()?;
                let (first, handles) = read_topic::<C>(said)?;
                Some(OpeningOf::PubSub(C::of(places)?, first, handles))
            }
            "once" => (words.number()? == 1).then_some(OpeningOf::Once),
            "lazy" => {
                let (places, value) = words.number_and_value(C::bits())?;
                (places == 1).then_some(OpeningOf::Lazy(value))
            }
            "zerocopy" => Some(OpeningOf::Zerocopy(read_capacity(words)?)),
            "mutex" => {
                let (places, value, part) = words.number_and_two_values(C::bits())?;
                (places == 1).then_some(OpeningOf::Mutex(value, part))
            }
            "watch" => {
                let (places, value) = words.number_and_value_if_any(C::bits())?;
                Some(OpeningOf::Watch(C::of(places)?, value))
            }
            _ => None,
        }
    }
}

// A script over a channel of at most `B.limit` messages.
fn serve_list<B: Limit, C: Size, P: Player<R, W>, R: ByteSource, W: Write>(
    player: &mut P,
    capacity: usize,
    lines: &mut Lines<R>,
    output: &mut W,
) -> Result<(), Fault>
    requires chosen { capacity ≡ B.limit }
    requires few { capacity ≤ 4096 }
    ensures { PlaysFrom (P.plays player.old player.new) R.longest C.requests (channel_setting C.bits (BoundedList ℕ B.limit)) lines.old.number lines.old.left (W.contents output.old) (W.contents output.new) result }
{
    serve::<ChannelWords<C>, Listed<C, B>, P, R, W>(player, capacity, lines, output)
}

fn serve_channel<C: Size, P: Player<R, W>, R: ByteSource, W: Write>(
    player: &mut P,
    capacity: C,
    lines: &mut Lines<R>,
    output: &mut W,
) -> Result<(), Fault>
    ensures { PlaysFrom (P.plays player.old player.new) R.longest C.requests (channel_setting C.bits (BoundedList ℕ (C.size capacity))) lines.old.number lines.old.left (W.contents output.old) (W.contents output.new) result }
{
    serve_list::<Brand, C, P, R, W>(player, capacity.places(), lines, output)
}

// A script over a priority channel of at most `B.limit` messages.
fn serve_bag<B: Limit, C: Size, Q: Kind<u64>, P: Player<R, W>, R: ByteSource, W: Write>(
    player: &mut P,
    capacity: usize,
    lines: &mut Lines<R>,
    output: &mut W,
) -> Result<(), Fault>
    requires chosen { capacity ≡ B.limit }
    requires few { capacity ≤ 4096 }
    ensures { PlaysFrom (P.plays player.old player.new) R.longest C.requests (channel_setting C.bits (Bag ℕ Q.above B.limit)) lines.old.number lines.old.left (W.contents output.old) (W.contents output.new) result }
{
    serve::<ChannelWords<C>, Prioritized<C, Q, B>, P, R, W>(player, capacity, lines, output)
}

fn serve_priority<C: Size, Q: Kind<u64>, P: Player<R, W>, R: ByteSource, W: Write>(
    player: &mut P,
    capacity: C,
    lines: &mut Lines<R>,
    output: &mut W,
) -> Result<(), Fault>
    ensures { PlaysFrom (P.plays player.old player.new) R.longest C.requests (channel_setting C.bits (Bag ℕ Q.above (C.size capacity))) lines.old.number lines.old.left (W.contents output.old) (W.contents output.new) result }
{
    serve_bag::<Brand, C, Q, P, R, W>(player, capacity.places(), lines, output)
}

// A script over a fair semaphore with a queue of `B.limit` places.
fn serve_queue<B: Limit, C: Size, P: Player<R, W>, R: ByteSource, W: Write>(
    player: &mut P,
    places: usize,
    permits: usize,
    lines: &mut Lines<R>,
    output: &mut W,
) -> Result<(), Fault>
    requires chosen { places ≡ B.limit }
    requires few { places ≤ 4096 }
    ensures { PlaysFrom (P.plays player.old player.new) R.longest C.requests (fair_setting B.limit permits) lines.old.number lines.old.left (W.contents output.old) (W.contents output.new) result }
{
    serve::<FairWords, Queued<C, B>, P, R, W>(player, (places, permits), lines, output)
}

fn serve_fair<C: Size, P: Player<R, W>, R: ByteSource, W: Write>(
    player: &mut P,
    capacity: C,
    permits: usize,
    lines: &mut Lines<R>,
    output: &mut W,
) -> Result<(), Fault>
    ensures { PlaysFrom (P.plays player.old player.new) R.longest C.requests (fair_setting (C.size capacity) permits) lines.old.number lines.old.left (W.contents output.old) (W.contents output.new) result }
{
    serve_queue::<Brand, C, P, R, W>(player, capacity.places(), permits, lines, output)
}

// A script over a pipe of at most `B.limit` bytes.
fn serve_bytes<B: Limit, C: Size, P: Player<R, W>, R: ByteSource, W: Write>(
    player: &mut P,
    places: usize,
    lines: &mut Lines<R>,
    output: &mut W,
) -> Result<(), Fault>
    requires chosen { places ≡ B.limit }
    requires few { places ≤ 4096 }
    ensures { PlaysFrom (P.plays player.old player.new) R.longest 16 (pipe_setting (min C.bytes 4096) B.limit) lines.old.number lines.old.left (W.contents output.old) (W.contents output.new) result }
{
    serve::<PipeWords<C, MOST>, Ring<B>, P, R, W>(player, places, lines, output)
}

fn serve_pipe<C: Size, P: Player<R, W>, R: ByteSource, W: Write>(
    player: &mut P,
    capacity: C,
    lines: &mut Lines<R>,
    output: &mut W,
) -> Result<(), Fault>
    ensures { PlaysFrom (P.plays player.old player.new) R.longest 16 (pipe_setting (min C.bytes 4096) (C.size capacity)) lines.old.number lines.old.left (W.contents output.old) (W.contents output.new) result }
{
    serve_bytes::<Brand, C, P, R, W>(player, capacity.places(), lines, output)
}

// A script over a watch of at most `B.limit` counted receivers.
fn serve_value<B: Limit, C: Size, P: Player<R, W>, R: ByteSource, W: Write>(
    player: &mut P,
    receivers: usize,
    value: Option<u64>,
    lines: &mut Lines<R>,
    output: &mut W,
) -> Result<(), Fault>
    requires chosen { receivers ≡ B.limit }
    requires some { 1 ≤ receivers }
    requires few { receivers ≤ 4096 }
    ensures { PlaysFrom (P.plays player.old player.new) R.longest C.requests (watch_setting C.bits B.limit value) lines.old.number lines.old.left (W.contents output.old) (W.contents output.new) result }
{
    serve::<WatchWords<C>, Counted<C, B>, P, R, W>(player, (receivers, value), lines, output)
}

fn serve_watch<C: Size, P: Player<R, W>, R: ByteSource, W: Write>(
    player: &mut P,
    capacity: C,
    value: Option<u64>,
    lines: &mut Lines<R>,
    output: &mut W,
) -> Result<(), Fault>
    ensures { PlaysFrom (P.plays player.old player.new) R.longest C.requests (watch_setting C.bits (C.size capacity) value) lines.old.number lines.old.left (W.contents output.old) (W.contents output.new) result }
{
    serve_value::<Brand, C, P, R, W>(player, capacity.places(), value, lines, output)
}

// A script over this pub-sub channel, whose first message has this number. The log is a type parameter, and the machine
// is handed in: with a log of a number of messages the checker meets its limit of steps at the call.
fn serve_topic<
    L: LogStore<Message = u64> + Kept,
    S: Limit,
    Q: Limit,
    C: Size,
    P: Player<R, W>,
    R: ByteSource,
    W: Write,
>(
    player: &mut P,
    machine: Topic<C, L, S, Q>,
    first: u64,
    lines: &mut Lines<R>,
    output: &mut W,
) -> Result<(), Fault>
    requires object { ⟦<Topic<C, L, S, Q> as Machine>⟧.semantics.object machine ≡ new_object C.requests (a_new_topic S.limit first) }
    requires registrations { ⟦<Topic<C, L, S, Q> as Machine>⟧.semantics.registrations machine ≡ no_lists }
    ensures { PlaysFrom (P.plays player.old player.new) R.longest C.requests (pubsub_setting C.bits L.capacity (record { subscribers = S.limit; publishers = Q.limit }) first) lines.old.number lines.old.left (W.contents output.old) (W.contents output.new) result }
{
    let _ = first;
    player.play::<PubSubWords<C>, Topic<C, L, S, Q>>(machine, lines, output)
}

// A script over a pub-sub channel of at most `B.limit` messages, the first of which has this number, for `S.limit`
// subscribers and `Q.limit` publishers.
fn serve_log<B: Limit, S: Limit, Q: Limit, C: Size, P: Player<R, W>, R: ByteSource, W: Write>(
    player: &mut P,
    capacity: usize,
    subscribers: usize,
    publishers: usize,
    first: u64,
    lines: &mut Lines<R>,
    output: &mut W,
) -> Result<(), Fault>
    requires chosen { capacity ≡ B.limit }
    requires some { 1 ≤ capacity }
    requires few { capacity ≤ 4096 }
    requires subscribers { subscribers ≡ S.limit }
    requires publishers { publishers ≡ Q.limit }
    requires few_subscribers { subscribers ≤ 16 }
    requires few_publishers { publishers ≤ 16 }
    ensures { PlaysFrom (P.plays player.old player.new) R.longest C.requests (pubsub_setting C.bits B.limit (record { subscribers = S.limit; publishers = Q.limit }) first) lines.old.number lines.old.left (W.contents output.old) (W.contents output.new) result }
{
    let log: LimitedLog<u64, B, S, MOST, NAMES> = LimitedLog::new_at(capacity, subscribers, first);
    serve_topic::<LimitedLog<u64, B, S, MOST, NAMES>, S, Q, C, P, R, W>(
        player,
        topic::<C, _, S, Q>(log, subscribers, publishers),
        first,
        lines,
        output,
    )
}

fn serve_pubsub<C: Size, P: Player<R, W>, R: ByteSource, W: Write>(
    player: &mut P,
    capacity: C,
    first: u64,
    handles: Handles,
    lines: &mut Lines<R>,
    output: &mut W,
) -> Result<(), Fault>
    ensures { PlaysFrom (P.plays player.old player.new) R.longest C.requests (pubsub_setting C.bits (C.size capacity) handles first) lines.old.number lines.old.left (W.contents output.old) (W.contents output.new) result }
{
    serve_log::<Brand, Brand, Brand, C, P, R, W>(
        player,
        capacity.places(),
        handles.subscribers(),
        handles.publishers(),
        first,
        lines,
        output,
    )
}

fn serve_zerocopy<C: Size, P: Player<R, W>, R: ByteSource, W: Write>(
    player: &mut P,
    capacity: C,
    lines: &mut Lines<R>,
    output: &mut W,
) -> Result<(), Fault>
    ensures { PlaysFrom (P.plays player.old player.new) R.longest C.requests (zero_setting C.bits (C.size capacity)) lines.old.number lines.old.left (W.contents output.old) (W.contents output.new) result }
{
    serve::<ZeroWords<C>, Slotted<C>, P, R, W>(player, capacity.places(), lines, output)
}

// Makes the primitive that line 1 names, and plays the lines behind it.
fn serve_opening<C: Size, P: Player<R, W>, R: ByteSource, W: Write>(
    player: &mut P,
    opening: OpeningOf<C>,
    lines: &mut Lines<R>,
    output: &mut W,
) -> Result<(), Fault>
    ensures { Plays (language C C.sized C.size C.handled (min C.bytes 4096) C.bits R.longest C.requests) (P.plays player.old player.new) opening lines.old.number lines.old.left (W.contents output.old) (W.contents output.new) result }
{
    match opening {
        OpeningOf::Channel(capacity) => serve_channel(player, capacity, lines, output),
        OpeningOf::Max(capacity) => serve_priority::<C, Max, P, R, W>(
            player, capacity, lines, output,
        ),
        OpeningOf::Min(capacity) => serve_priority::<C, Min, P, R, W>(
            player, capacity, lines, output,
        ),
        OpeningOf::Signal => {
            serve::<SignalWords<C>, Signalled<C>, P, R, W>(player, (), lines, output)
        }
        OpeningOf::Greedy(permits) => {
            serve::<GreedyWords, Greedy<C>, P, R, W>(player, permits, lines, output)
        }
        OpeningOf::Fair(capacity, permits) => serve_fair(player, capacity, permits, lines, output),
        OpeningOf::Pipe(capacity) => serve_pipe(player, capacity, lines, output),
        OpeningOf::PubSub(capacity, first, handles) => {
            serve_pubsub(player, capacity, first, handles, lines, output)
        }
        OpeningOf::Once => { serve::<OnceWords<C>, Once<C>, P, R, W>(player, (), lines, output) }
        OpeningOf::Lazy(value) => {
            serve::<LazyWords, Made<C>, P, R, W>(player, value, lines, output)
        }
        OpeningOf::Mutex(value, part) => {
            serve::<MutexWords<C>, Paired<C>, P, R, W>(player, (value, part), lines, output)
        }
        OpeningOf::Watch(capacity, value) => serve_watch(player, capacity, value, lines, output),
        OpeningOf::Zerocopy(capacity) => serve_zerocopy(player, capacity, lines, output),
    }
}

// Writes the text behind lines with this outcome, unless a write has failed.
fn close<T: Telling, W: Write>(
    telling: &mut T,
    played: Result<(), Fault>,
    output: &mut W,
) -> Result<(), Fault>
    ensures { Closes T.story.foot (W.contents output.old) (W.contents output.new) played result }
{
    if let Err(Fault::InputOutput) = played {
        return Err(Fault::InputOutput);
    }
    telling.close(output)?;
    played
}

/// Tells of a whole script, none of whose lines has been read: of line 1, of each line that is played behind it, and of
/// the end.
///
/// # Errors
///
/// Returns which line is no command, or that a read, a write or memory failed.
pub fn play_lines<C: Size, T: Telling, R: ByteSource, W: Write>(
    telling: &mut T,
    lines: &mut Lines<R>,
    output: &mut W,
) -> Result<(), Fault>
    requires { lines.old.number ≡ 0 }
    ensures { PlaysScript (language C C.sized C.size C.handled (min C.bytes 4096) C.bits R.longest C.requests) T.story lines.old.left (W.contents output.old) (W.contents output.new) result }
{
    match open::<OpeningOf<C>, T, R, W>(telling, lines, output) {
        Ok(opening) => {
            let played = serve_opening(telling, opening, lines, output);
            close(telling, played, output)
        }
        Err(fault) => Err(fault),
    }
}

/// Gives the player the machine that line 1 names, and the lines behind line 1. No line has been read before, and
/// nothing is written of line 1.
///
/// # Errors
///
/// Returns `NotACommand` if line 1 names no primitive, and otherwise the player's fault or that of a read.
pub fn play_with<C: Size, P: Player<R, W>, R: ByteSource, W: Write>(
    player: &mut P,
    lines: &mut Lines<R>,
    output: &mut W,
) -> Result<(), Fault>
    requires { lines.old.number ≡ 0 }
    ensures { PlaysBehind (language C C.sized C.size C.handled (min C.bytes 4096) C.bits R.longest C.requests) replies_story (λ was now. P.plays player.old player.new) lines.old.left (W.contents output.old) (W.contents output.new) result }
{
    match open::<OpeningOf<C>, Replies, R, W>(&mut Replies {}, lines, output) {
        Ok(opening) => {
            let played = serve_opening(player, opening, lines, output);
            close(&mut Replies {}, played, output)
        }
        Err(fault) => Err(fault),
    }
}
