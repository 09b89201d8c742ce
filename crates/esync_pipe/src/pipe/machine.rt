//! The pipe as a machine that takes commands.
ghost use Rattle.std.specs.Prelude.{◌≡◌, ◌<◌, ◌≤◌, ◌++◌, [], None, is_ok, length, IfOk, OnErr};
ghost use Rattle.esync_machine.specs.Object.{GoodRunOver};
ghost use Rattle.esync_machine.specs.Wakings.{IsHanded, called};
ghost use Rattle.esync_pipe.specs.PipeRules.{pipe_rules, pipe_wakings, poll_hands, Polls, Calls, TakesOut, Fills};
ghost use Rattle.esync_pipe.specs.PipeOrder.{InOrder, SizesAddUp};
ghost use Rattle.esync_pipe.specs.Pipe.{slots_after_read, wakes_of_read};

use super::{PipeOver, TryReadError, TryWriteError, WriteAllRequest};
use crate::bytes::Bytes;
use crate::ring::Ring;
use esync_base::kept::Kept;
use esync_base::store::{ByteStore, FixedBytes};
use esync_base::waitqueue::{Context, Poll, Registered, Wakes};
use esync_machine::primitive::{Answer, Command, Primitive, Reach, Turn};
use esync_machine::requests::Requests;
use esync_machine::run::{Reply, run};
use std::alloc::{AllocError, Global};
use std::marker::Model;

/// What a request on a pipe waits for. `B` is the type of the rows of bytes that commands and answers carry.
#[derive(Clone, Copy, Debug, PartialEq, Eq)]
pub enum PipeAsk<B> {
    /// Room for some of these bytes, to put them in.
    Write(B),
    /// Room for all of these bytes, to put them in, in as many polls as it takes.
    WriteAll(B),
    /// Bytes, to take at most this many out.
    Read(usize),
    /// Bytes, without taking them out.
    Fill,
}

/// The calls of a pipe that are no start, poll or end.
#[derive(Clone, Copy, Debug, PartialEq, Eq)]
pub enum PipeCall<B> {
    TryWrite(B),
    TryRead(usize),
    TryFill,
    Consume(usize),
    Clear,
    Len,
    FreeCapacity,
}

/// The answers of a pipe.
#[derive(Clone, Copy, Debug, PartialEq, Eq)]
pub enum PipeHeard<B> {
    /// How many bytes of the request were written.
    Wrote(usize),
    /// All bytes of the request were written.
    WroteAll,
    /// The bytes that the request took out.
    HasRead(B),
    /// The bytes that the request waited for. They stay in the pipe.
    Filled(B),
    TryWrote(Result<usize, TryWriteError>),
    HasTriedRead(Result<B, TryReadError>),
    TryFilled(Result<B, TryReadError>),
    Number(usize),
}

// What a poll of each request does.
impl<R: ByteStore, W: Copy + Eq> PipeOver<R, W> {
    fn turn_write<const L: usize, const K: usize>(
        &mut self,
        bytes: Bytes<L>,
        cx: &Context<W>,
        wakes: &mut Wakes<W, K>,
    ) -> Turn<PipeHeard<Bytes<L>>, PipeAsk<Bytes<L>>>
        requires empty { wakes.old ≡ [] }
        requires room { 1 < K }
        ensures allowed { Polls R.capacity self.old.ring (PipeAsk.Write bytes.entry) result.answer self.new.ring result.place }
        ensures exact { IsHanded (poll_hands W.eq R.capacity self.old.ring self.old.slots (PipeAsk.Write bytes.entry) cx.now) wakes.new self.new.slots }
    {
        match self.try_write_with_context(Some(cx), bytes.as_slice(), wakes) {
            Ok(n) => Turn::over(PipeHeard::Wrote(n)),
            Err(TryWriteError::Full) => Turn::waits(PipeAsk::Write(bytes)),
        }
    }

    fn turn_write_all<const L: usize, const K: usize>(
        &mut self,
        bytes: Bytes<L>,
        cx: &Context<W>,
        wakes: &mut Wakes<W, K>,
    ) -> Turn<PipeHeard<Bytes<L>>, PipeAsk<Bytes<L>>>
        requires empty { wakes.old ≡ [] }
        requires room { 1 < K }
        ensures allowed { Polls R.capacity self.old.ring (PipeAsk.WriteAll bytes.entry) result.answer self.new.ring result.place }
        ensures exact { IsHanded (poll_hands W.eq R.capacity self.old.ring self.old.slots (PipeAsk.WriteAll bytes.entry) cx.now) wakes.new self.new.slots }
    {
        let mut request = WriteAllRequest::new(bytes.as_slice());
        match request.poll_state(self, cx, wakes) {
            Poll::Ready(()) => Turn::over(PipeHeard::WroteAll),
            Poll::Pending => Turn::waits(PipeAsk::WriteAll(Bytes::from_slice(request.rest()))),
        }
    }

    fn turn_read<const L: usize, const K: usize>(
        &mut self,
        count: usize,
        cx: &Context<W>,
        wakes: &mut Wakes<W, K>,
    ) -> Turn<PipeHeard<Bytes<L>>, PipeAsk<Bytes<L>>>
        requires empty { wakes.old ≡ [] }
        requires row { R.capacity ≤ L }
        requires room { 1 < K }
        ensures allowed { Polls R.capacity self.old.ring (PipeAsk.Read count) result.answer self.new.ring result.place }
        ensures exact { IsHanded (poll_hands W.eq R.capacity self.old.ring self.old.slots (PipeAsk.Read count) cx.now) wakes.new self.new.slots }
    {
        match self.read_row(count, Some(cx.waker()), wakes) {
            Ok(bytes) => Turn::over(PipeHeard::HasRead(bytes)),
            Err(TryReadError::Empty) => Turn::waits(PipeAsk::Read(count)),
        }
    }

    fn turn_fill<const L: usize, const K: usize>(
        &mut self,
        cx: &Context<W>,
        wakes: &mut Wakes<W, K>,
    ) -> Turn<PipeHeard<Bytes<L>>, PipeAsk<Bytes<L>>>
        requires empty { wakes.old ≡ [] }
        requires row { R.capacity ≤ L }
        requires room { 1 < K }
        ensures allowed { Polls R.capacity self.old.ring PipeAsk.Fill result.answer self.new.ring result.place }
        ensures exact { IsHanded (poll_hands W.eq R.capacity self.old.ring self.old.slots PipeAsk.Fill cx.now) wakes.new self.new.slots }
    {
        match self.try_fill_buf_with_context(Some(cx), wakes) {
            Ok(bytes) => Turn::over(PipeHeard::Filled(Bytes::from_slice(bytes))),
            Err(TryReadError::Empty) => Turn::waits(PipeAsk::Fill),
        }
    }

    // Takes `count` bytes out, or all bytes if there are fewer.
    fn read_row<const L: usize, const K: usize>(
        &mut self,
        count: usize,
        waker: Option<W>,
        wakes: &mut Wakes<W, K>,
    ) -> Result<Bytes<L>, TryReadError>
        requires row { R.capacity ≤ L }
        requires room { length wakes.old < K }
        ensures bytes { TakesOut R.capacity self.old.ring count result self.new.ring }
        ensures slots { self.new.slots ≡ slots_after_read W.eq R.capacity self.old.ring waker (is_ok result) self.old.slots }
        ensures wakes { wakes.new ≡ wakes.old ++ wakes_of_read W.eq R.capacity self.old.ring waker (is_ok result) self.old.slots }
    {
        let mut row = [0; L];
        let held = self.len();
        let places = if count < held { count } else { held };
        match self.read(&mut row[..places], waker, wakes) {
            Ok(n) => Ok(Bytes::from_slice(&row[..n])),
            Err(error) => Err(error),
        }
    }

    // What a call does.
    fn perform<const L: usize, const K: usize>(
        &mut self,
        call: PipeCall<Bytes<L>>,
        wakes: &mut Wakes<W, K>,
    ) -> Answer<PipeHeard<Bytes<L>>>
        requires empty { wakes.old ≡ [] }
        requires row { R.capacity ≤ L }
        requires room { 1 < K }
        ensures allowed { Calls R.capacity self.old.ring call.entry result self.new.ring }
        ensures exact { IsHanded (called (pipe_wakings W.eq R.capacity) self.old.ring self.old.slots call.entry None result) wakes.new self.new.slots }
    {
        match call {
            PipeCall::TryWrite(bytes) => {
                Answer::Gives(PipeHeard::TryWrote(self.try_write(bytes.as_slice(), wakes)))
            }
            PipeCall::TryRead(count) => {
                Answer::Gives(PipeHeard::HasTriedRead(self.read_row(count, None, wakes)))
            }
            PipeCall::TryFill => Answer::Gives(PipeHeard::TryFilled(self.shown_row())),
            PipeCall::Consume(count) => self.consume_row(count, wakes),
            PipeCall::Clear => {
                self.clear(wakes);
                Answer::Done
            }
            PipeCall::Len => Answer::Gives(PipeHeard::Number(self.len())),
            PipeCall::FreeCapacity => Answer::Gives(PipeHeard::Number(self.free_capacity())),
        }
    }

    // The bytes that `try_fill_buf` returns, as a row.
    fn shown_row<const L: usize>(&self) -> Result<Bytes<L>, TryReadError>
        requires { R.capacity ≤ L }
        ensures { Fills R.capacity self.now.ring result self.now.ring }
    {
        match self.try_fill_buf() {
            Ok(bytes) => Ok(Bytes::from_slice(bytes)),
            Err(error) => Err(error),
        }
    }

    // Drops `count` of the bytes that `try_fill_buf` returns, if it returns as many.
    fn consume_row<const L: usize, const K: usize>(
        &mut self,
        count: usize,
        wakes: &mut Wakes<W, K>,
    ) -> Answer<PipeHeard<Bytes<L>>>
        requires empty { wakes.old ≡ [] }
        requires room { 1 < K }
        ensures allowed { Calls R.capacity self.old.ring (PipeCall.Consume count) result self.new.ring }
        ensures exact { IsHanded (called (pipe_wakings W.eq R.capacity) self.old.ring self.old.slots (PipeCall.Consume count) None result) wakes.new self.new.slots }
    {
        if count > self.shown().len() {
            return Answer::NoSuch;
        }
        self.consume(count, wakes);
        Answer::Done
    }
}

// What a poll does.
fn turn<R: ByteStore, W: Copy + Eq, const L: usize, const K: usize>(
    state: &mut PipeOver<R, W>,
    held: PipeAsk<Bytes<L>>,
    cx: &Context<W>,
    wakes: &mut Wakes<W, K>,
) -> Turn<PipeHeard<Bytes<L>>, PipeAsk<Bytes<L>>>
    requires empty { wakes.old ≡ [] }
    requires row { R.capacity ≤ L }
    requires room { 1 < K }
    ensures allowed { Polls R.capacity state.old.ring held.entry result.answer state.new.ring result.place }
    ensures exact { IsHanded (poll_hands W.eq R.capacity state.old.ring state.old.slots held.entry cx.now) wakes.new state.new.slots }
{
    match held {
        PipeAsk::Write(bytes) => state.turn_write(bytes, cx, wakes),
        PipeAsk::WriteAll(bytes) => state.turn_write_all(bytes, cx, wakes),
        PipeAsk::Read(count) => state.turn_read(count, cx, wakes),
        PipeAsk::Fill => state.turn_fill(cx, wakes),
    }
}

/// The state of a pipe of at most `N` bytes as its machine has it.
pub type PipeRows<W, const N: usize, const L: usize> = PipeRowsOver<Ring<N>, W, L>;

/// The state of a pipe as its machine has it. Commands and answers carry rows of at most `L` bytes. `L` is at least the
/// pipe's capacity, so that an answer has room for all bytes in the pipe.
#[derive(Debug, Drop)]
pub struct PipeRowsOver<R: ByteStore, W, const L: usize> {
    state: PipeOver<R, W>,
    ghost room: { R.capacity ≤ L },
}

impl<R: ByteStore, W, const L: usize> Model for PipeRowsOver<R, W, L> {
    ghost use Rattle.esync_pipe.specs.Piped.{Piped, piped_code};

    ghost Value = { Piped W };

    ghost coded = { piped_code W.code };

    ghost view = { λ a. a.state };
}

impl<R: ByteStore + Kept, W: Copy, const L: usize> Kept for PipeRowsOver<R, W, L> {
    fn kept(&self) -> Result<Self, AllocError> {
        Ok(PipeRowsOver {
            state: self.state.kept()?,
        })
    }
}

/// Place 0 is the readers' slot, for bytes. Place 1 is the writers' slot, for room.
impl<R: ByteStore, W: Copy + Eq, const L: usize> Registered for PipeRowsOver<R, W, L> {
    type Waker = W;

    ghost use Rattle.esync_base.specs.Standing.{at_two};

    ghost at = { λ m. at_two m.slots.readers m.slots.writers };

    fn registered(&self, place: usize, i: usize) -> Option<W> {
        self.state.registered(place, i)
    }
}

impl<R: FixedBytes, W: Copy + Eq, const L: usize> PipeRowsOver<R, W, L> {
    /// Returns an empty pipe without a registered waker, with rows of at most `L` bytes.
    ///
    /// `L` has to be at least the pipe's capacity. A caller compares the two numbers of the type, as by `N <= L`.
    pub fn new() -> Self
        requires { R.capacity ≤ L }
        ensures items { result.ring.items ≡ [] }
        ensures front { result.ring.front ≡ 0 }
        ensures readers { result.slots.readers ≡ [] }
        ensures writers { result.slots.writers ≡ [] }
    {
        PipeRowsOver::from_state(PipeOver::new())
    }
}

impl<R: ByteStore, W: Copy + Eq, const L: usize> PipeRowsOver<R, W, L> {
    /// Returns a pipe with this state, its bytes and its wakers, and with rows of at most `L` bytes. So a run can begin
    /// at any state.
    ///
    /// `L` has to be at least the pipe's capacity. A caller compares the two numbers of the type, as by `N <= L`.
    pub fn from_state(state: PipeOver<R, W>) -> Self
        requires { R.capacity ≤ L }
        ensures { result ≡ state }
    {
        PipeRowsOver { state }
    }

    /// Returns the state by reference.
    pub fn state(&self) -> &PipeOver<R, W>
        ensures { result.now ≡ self.now }
    {
        &self.state
    }
}

impl<R: ByteStore, W: Copy + Eq, const L: usize, const K: usize> Primitive<K>
    for PipeRowsOver<R, W, L> {
    type Ask = PipeAsk<Bytes<L>>;

    type Held = PipeAsk<Bytes<L>>;

    type Call = PipeCall<Bytes<L>>;

    type Heard = PipeHeard<Bytes<L>>;

    type Waker = W;

    ghost use Rattle.esync_pipe.specs.PipeRules.{pipe_rules, pipe_wakings};
    ghost use Rattle.esync_pipe.specs.PipeLaws.{OwesFor};

    ghost rules = { pipe_rules R.capacity };

    ghost core = { λ m. m.ring };

    ghost wakings = { pipe_wakings W.eq R.capacity };

    ghost registrations = { λ m. m.slots };

    ghost most = { 2 };

    ghost Owes = { λ m ask w. OwesFor W.eq R.capacity m.ring m.slots ask w };

    ghost Fits = { λ m ask. Unit };

    ghost Apart = { λ ask other. Unit };

    fn begin(&self, ask: PipeAsk<Bytes<L>>) -> Option<PipeAsk<Bytes<L>>> {
        Some(ask)
    }

    fn poll(
        &mut self,
        held: PipeAsk<Bytes<L>>,
        waker: W,
        wakes: &mut Wakes<W, K>,
    ) -> Turn<PipeHeard<Bytes<L>>, PipeAsk<Bytes<L>>> {
        turn(&mut self.state, held, &Context::from_waker(waker), wakes)
    }

    fn end(&mut self, _held: PipeAsk<Bytes<L>>, _wakes: &mut Wakes<W, K>) {}

    fn reach(_call: &PipeCall<Bytes<L>>) -> Reach {
        Reach::Nobody
    }

    fn leaves(&self, _call: &PipeCall<Bytes<L>>, _held: &PipeAsk<Bytes<L>>) -> bool {
        false
    }

    fn call(
        &mut self,
        call: PipeCall<Bytes<L>>,
        _place: &mut Option<PipeAsk<Bytes<L>>>,
        wakes: &mut Wakes<W, K>,
    ) -> Answer<PipeHeard<Bytes<L>>> {
        self.state.perform(call, wakes)
    }

    ghost use Rattle.esync_pipe.specs.PipeLaws.{pipe_idle, pipe_pending};

    ghost idle = { λ m ask w f h. pipe_idle W.eq R.capacity m.ring m.slots ask w h };

    ghost pending = { pipe_pending R.capacity };

    ghost no_such = { λ o h a o2 p n k. absurd (n tt) };

    ghost symmetric = { λ h k a. tt };

    ghost use Rattle.esync_machine.specs.RulesLaws.{all_requests};

    ghost no_requests = { all_requests (pipe_rules R.capacity) (λ h. tt) (λ o o2 call p p2 a c. c.1) };
}

/// A pipe of at most `N` bytes as a machine, with requests at the numbers below `REQS`. Its rows have at most `L`
/// bytes, and `L` is at least `N`.
pub type PipeRun<W, const N: usize, const L: usize, const REQS: usize, const K: usize> = Requests<
    PipeRows<W, N, L>,
    REQS,
    K,
>;

/// The commands of a pipe.
pub type PipeCommand<W, const L: usize> = Command<PipeAsk<Bytes<L>>, W, PipeCall<Bytes<L>>>;

/// The reply of a pipe to a command, with the wakers that it hands out.
pub type PipeReply<W, const L: usize, const K: usize> = Reply<Answer<PipeHeard<Bytes<L>>>, W, K>;

/// Gives the commands to the pipe, one after another, as `run` does, and returns the replies in order. After an error
/// no command was taken.
///
/// Each answer is one that a list of at most `N` bytes with a place allows. No live request that last heard Pending
/// would now be answered Ready, or write any byte, unless its waker was handed out in that poll or since. No Pending
/// poll that changes nothing hands out its own waker.
///
/// What is written comes out in order. Take the bytes that the run read, consumed or cleared, and behind them those
/// that are held after it: they are the bytes held at first and behind them those that the run wrote, in order.
///
/// The sizes add up. The length is the number of bytes that were held at first or written since, and not taken. With
/// the free capacity it makes `N`.
pub fn run_pipe<W: Copy + Eq, const N: usize, const L: usize, const REQS: usize, const K: usize>(
    alloc: Global,
    machine: &mut PipeRun<W, N, L, REQS, K>,
    commands: Vec<PipeCommand<W, L>>,
) -> Result<Vec<PipeReply<W, L, K>>, AllocError>
    ensures run { IfOk result (λ replies. GoodRunOver (pipe_rules N) (λ m. m.ring) (pipe_wakings W.eq N) (λ m. m.slots) W.eq K machine.old commands.items replies.items machine.new) }
    ensures order { IfOk result (λ replies. InOrder N machine.old.requests machine.old.state.ring.items commands.items replies.items machine.new.state.ring.items) }
    ensures sizes { IfOk result (λ replies. SizesAddUp N machine.old.requests machine.old.state.ring.items commands.items replies.items) }
    ensures refused { OnErr result (machine.new ≡ machine.old) }
{
    run(alloc, machine, commands)
}
