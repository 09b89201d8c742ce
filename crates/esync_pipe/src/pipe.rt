//! A pipe: bytes on their way from tasks that write to tasks that read, with backpressure.
//!
//! The state form takes `&mut self`, holds no lock and never waits. Each call appends the wakers that it hands out to
//! the list of wakes that it is given, and the caller wakes their tasks. A registration hands out the waker that it
//! displaces.
ghost use Rattle.std.specs.Prelude.{◌≡◌, ◌<◌, ◌≤◌, ◌+◌, ◌++◌, Some, length, is_none, IsSome, IfSome};
ghost use Rattle.std.specs.Option.{option_copied};
ghost use Rattle.esync_base.specs.Registration.{registered_if, displaced_if};
ghost use Rattle.esync_pipe.specs.Pipe.{waker_if, out_if, left_if, puts, rest_of, WritesAll, slots_after_write_all, wakes_of_write_all};

use crate::ring::Ring;
pub use dynamic::{
    DynamicFillBufFuture, DynamicPipe, DynamicReadFuture, DynamicReader, DynamicWriteFuture,
    DynamicWriter,
};
use esync_base::kept::Kept;
use esync_base::store::{ByteStore, FixedBytes};
use esync_base::waitqueue::{Context, Poll, Registered, WakerRegistration, Wakes};
pub use shared::{
    CopiedIn, FillBufFuture, Pipe, PipeReader, PipeWriter, ReadFuture, Reader, SharedPipe,
    WriteAllFuture, WriteFuture, Writer,
};
use std::alloc::AllocError;
use std::marker::Model;
use thiserror::Error;

mod dynamic;
pub mod machine;
mod shared;

/// Why no byte was read.
#[derive(Clone, Copy, Debug, PartialEq, Eq, Error)]
pub enum TryReadError {
    /// No byte is in the pipe.
    #[error("the pipe is empty")]
    Empty,
}

/// Why no byte was written.
#[derive(Clone, Copy, Debug, PartialEq, Eq, Error)]
pub enum TryWriteError {
    /// As many bytes are held as there is room for.
    #[error("the pipe is full")]
    Full,
}

/// The state of a pipe of at most `N` bytes.
pub type PipeState<W, const N: usize> = PipeOver<Ring<N>, W>;

/// The state of a pipe: its bytes, oldest first, a slot for the waker of a task that waits for bytes, and a slot for
/// that of a task that waits for room.
#[derive(Debug, Drop)]
pub struct PipeOver<R: ByteStore, W> {
    buffer: R,
    read_waker: WakerRegistration<W>,
    write_waker: WakerRegistration<W>,
}

impl<R: ByteStore, W> Model for PipeOver<R, W> {
    ghost use Rattle.esync_pipe.specs.Piped.{Piped, piped_code};

    ghost Value = { Piped W };

    ghost coded = { piped_code W.code };

    ghost view = { λ a. record { ring = R.ring a.buffer; slots = record { readers = a.read_waker; writers = a.write_waker } } };
}

impl<R: ByteStore + Kept, W: Copy> Kept for PipeOver<R, W> {
    fn kept(&self) -> Result<Self, AllocError> {
        Ok(PipeOver {
            buffer: self.buffer.kept()?,
            read_waker: self.read_waker.kept()?,
            write_waker: self.write_waker.kept()?,
        })
    }
}

// Hands out a slot if `is` holds.
fn wake_if<W: Copy + Eq, const K: usize>(
    is: bool,
    slot: &mut WakerRegistration<W>,
    wakes: &mut Wakes<W, K>,
)
    requires { length wakes.old < K }
    ensures slot { slot.new ≡ left_if is slot.old }
    ensures wakes { wakes.new ≡ wakes.old ++ out_if is slot.old }
    ensures one { length wakes.new ≤ length wakes.old + 1 }
{
    if is {
        slot.wake(wakes);
    }
}

// Registers a waker in a slot if `is` holds.
fn register_if<W: Copy + Eq, const K: usize>(
    is: bool,
    waker: W,
    slot: &mut WakerRegistration<W>,
    wakes: &mut Wakes<W, K>,
)
    requires { length wakes.old < K }
    ensures slot { slot.new ≡ registered_if W.eq 1 slot.old (waker_if is waker) }
    ensures wakes { wakes.new ≡ wakes.old ++ displaced_if W.eq 1 slot.old (waker_if is waker) }
{
    if is {
        slot.register(waker, wakes);
    }
}

// The waker of a context, if one is given.
pub(crate) fn waker_of<W: Copy>(cx: Option<&Context<W>>) -> Option<W>
    ensures { result ≡ option_copied cx.entry }
{
    match cx {
        Some(cx) => Some(cx.waker()),
        None => None,
    }
}

/// Place 0 is the readers' slot, for bytes. Place 1 is the writers' slot, for room.
impl<R: ByteStore, W: Copy + Eq> Registered for PipeOver<R, W> {
    type Waker = W;

    ghost use Rattle.esync_base.specs.Standing.{at_two};

    ghost at = { λ m. at_two m.slots.readers m.slots.writers };

    fn registered(&self, place: usize, i: usize) -> Option<W> {
        match place {
            0 => self.read_waker.get(i),
            1 => self.write_waker.get(i),
            _ => None,
        }
    }
}

impl<R: FixedBytes, W> PipeOver<R, W> {
    ghost use Rattle.std.specs.Prelude.{◌≡◌, []};

    /// Returns an empty pipe without a registered waker.
    pub fn new() -> Self
        ensures items { result.ring.items ≡ [] }
        ensures front { result.ring.front ≡ 0 }
        ensures readers { result.slots.readers ≡ [] }
        ensures writers { result.slots.writers ≡ [] }
    {
        PipeOver::over(R::new())
    }
}

impl<R: ByteStore, W> PipeOver<R, W> {
    ghost use Rattle.std.specs.Prelude.{◌≡◌, []};

    /// Returns a pipe with these bytes, without a registered waker.
    pub fn over(buffer: R) -> Self
        ensures ring { result.ring ≡ R.ring buffer }
        ensures readers { result.slots.readers ≡ [] }
        ensures writers { result.slots.writers ≡ [] }
    {
        PipeOver {
            buffer,
            read_waker: WakerRegistration::default(),
            write_waker: WakerRegistration::default(),
        }
    }
}

impl<R: ByteStore, W: Copy + Eq> PipeOver<R, W> {
    ghost use Rattle.std.specs.Prelude.{◌≡◌, ◌<◌, ◌≤◌, ◌+◌, ◌++◌, [], Some, None, length, is_ok, IfOk, OnErr, ◌&&◌, nat_lt, take, ⊤, false};
    ghost use mathlib.Core.Option.{none};
    ghost use Rattle.std.specs.Borrow.{sem, follows_so};
    ghost use Rattle.esync_pipe.specs.Pipe.{Writes, Reads, shown, without, out_if, left_if, is_empty, is_full, slots_after_write, wakes_of_write, slots_after_read, wakes_of_read, slots_after_fill, wakes_of_fill, behind, puts, slots_after_write_all, wakes_of_write_all};
    ghost use Rattle.esync_pipe.specs.contracts.pipe.PipeOver.{the_row};

    fn read<const K: usize>(
        &mut self,
        to: &mut [u8],
        waker: Option<W>,
        wakes: &mut Wakes<W, K>,
    ) -> Result<usize, TryReadError>
        requires { length wakes.old < K }
        ensures bytes { Reads R.capacity self.old.ring to.old result to.new self.new.ring }
        ensures slots { self.new.slots ≡ slots_after_read W.eq R.capacity self.old.ring waker (is_ok result) self.old.slots }
        ensures wakes { wakes.new ≡ wakes.old ++ wakes_of_read W.eq R.capacity self.old.ring waker (is_ok result) self.old.slots }
    {
        if self.is_empty() {
            self.wait_for_bytes(waker, wakes);
            return Err(TryReadError::Empty);
        }
        let was_full = self.is_full();
        let taken = self.buffer.read(to);
        wake_if(was_full, &mut self.write_waker, wakes);
        Ok(taken)
    }

    /// Takes the oldest bytes out into the front of the slice, as many as there are and as it has room for, and returns
    /// how many. If the pipe was full, hands out the writers' waker, even if the slice is empty. An error means that
    /// the pipe is empty.
    pub fn try_read<const K: usize>(
        &mut self,
        to: &mut [u8],
        wakes: &mut Wakes<W, K>,
    ) -> Result<usize, TryReadError>
        requires { length wakes.old < K }
        ensures bytes { Reads R.capacity self.old.ring to.old result to.new self.new.ring }
        ensures slots { self.new.slots ≡ slots_after_read W.eq R.capacity self.old.ring None (is_ok result) self.old.slots }
        ensures wakes { wakes.new ≡ wakes.old ++ wakes_of_read W.eq R.capacity self.old.ring None (is_ok result) self.old.slots }
    {
        self.read(to, None, wakes)
    }

    /// Like `try_read`, but if the pipe is empty, registers the waker of the context, if there is one, in the readers'
    /// slot.
    pub fn try_read_with_context<const K: usize>(
        &mut self,
        cx: Option<&Context<W>>,
        to: &mut [u8],
        wakes: &mut Wakes<W, K>,
    ) -> Result<usize, TryReadError>
        requires { length wakes.old < K }
        ensures bytes { Reads R.capacity self.old.ring to.old result to.new self.new.ring }
        ensures slots { self.new.slots ≡ slots_after_read W.eq R.capacity self.old.ring (option_copied cx.entry) (is_ok result) self.old.slots }
        ensures wakes { wakes.new ≡ wakes.old ++ wakes_of_read W.eq R.capacity self.old.ring (option_copied cx.entry) (is_ok result) self.old.slots }
    {
        self.read(to, waker_of(cx), wakes)
    }

    /// Returns the oldest bytes, up to the wrap of the ring. They stay until `consume` drops them. An error means that
    /// the pipe is empty.
    pub fn try_fill_buf(&self) -> Result<&[u8], TryReadError>
        ensures ok { IfOk result (λ bytes. (0 < length self.now.ring.items) × (bytes.now ≡ shown R.capacity self.now.ring)) }
        ensures some { IfOk result (λ bytes. 0 < length bytes.now) }
        ensures err { OnErr result (length self.now.ring.items ≡ 0) }
    {
        if self.is_empty() {
            return Err(TryReadError::Empty);
        }
        Ok(self.buffer.filled())
    }

    /// Like `try_fill_buf`, but if the pipe is empty, registers the waker of the context, if there is one, in the
    /// readers' slot.
    pub fn try_fill_buf_with_context<const K: usize>(
        &mut self,
        cx: Option<&Context<W>>,
        wakes: &mut Wakes<W, K>,
    ) -> Result<&[u8], TryReadError>
        requires { length wakes.old < K }
        ensures* leaves { sem 𝓛 (follows_so (the_row R.row W.row R.ByteStore) (the_row R.row W.row R.ByteStore) self.entry.ghost_name none (λ _ _. ⊤) (λ v. v ≡ record { ring = self.old.ring; slots = slots_after_fill W.eq (option_copied cx.entry) (is_ok result) self.old.slots })) }
        ensures ok { IfOk result (λ bytes. (0 < length self.old.ring.items) × (bytes.now ≡ shown R.capacity self.old.ring)) }
        ensures some { IfOk result (λ bytes. 0 < length bytes.now) }
        ensures err { OnErr result (length self.old.ring.items ≡ 0) }
        ensures wakes { wakes.new ≡ wakes.old ++ wakes_of_fill W.eq (option_copied cx.entry) (is_ok result) self.old.slots }
    {
        if self.is_empty() {
            self.wait_for_bytes(waker_of(cx), wakes);
            return Err(TryReadError::Empty);
        }
        Ok(self.shown())
    }

    // Registers the waker, if one is given, in the readers' slot.
    pub(crate) fn wait_for_bytes<const K: usize>(
        &mut self,
        waker: Option<W>,
        wakes: &mut Wakes<W, K>,
    )
        requires { length wakes.old < K }
        ensures state { self.new ≡ record { ring = self.old.ring; slots = slots_after_fill W.eq waker false self.old.slots } }
        ensures wakes { wakes.new ≡ wakes.old ++ wakes_of_fill W.eq waker false self.old.slots }
    {
        if let Some(waker) = waker {
            self.read_waker.register(waker, wakes);
        }
    }

    // The oldest bytes, up to the wrap of the ring.
    pub(crate) fn shown(&self) -> &[u8]
        ensures value { result.now ≡ shown R.capacity self.now.ring }
        ensures some { 0 < length self.now.ring.items → 0 < length result.now }
    {
        self.buffer.filled()
    }

    /// Drops the first `amt` of the bytes that `try_fill_buf` returns, which have to be as many. If the pipe was full
    /// and at least one byte is dropped, hands out the writers' waker.
    pub fn consume<const K: usize>(&mut self, amt: usize, wakes: &mut Wakes<W, K>)
        requires room { length wakes.old < K }
        requires shown { amt ≤ length (shown R.capacity self.old.ring) }
        ensures bytes { self.new.ring ≡ without R.capacity self.old.ring amt }
        ensures slots { self.new.slots ≡ record self.old.slots { writers = left_if (nat_lt 0 amt && is_full R.capacity self.old.ring) self.old.slots.writers } }
        ensures wakes { wakes.new ≡ wakes.old ++ out_if (nat_lt 0 amt && is_full R.capacity self.old.ring) self.old.slots.writers }
    {
        let makes_room = amt > 0 && self.is_full();
        wake_if(makes_room, &mut self.write_waker, wakes);
        self.buffer.consume(amt);
    }

    fn write<const K: usize>(
        &mut self,
        from: &[u8],
        waker: Option<W>,
        wakes: &mut Wakes<W, K>,
    ) -> Result<usize, TryWriteError>
        requires { length wakes.old < K }
        ensures bytes { Writes R.capacity self.old.ring from.now result self.new.ring }
        ensures slots { self.new.slots ≡ slots_after_write W.eq self.old.ring waker (is_ok result) self.old.slots }
        ensures wakes { wakes.new ≡ wakes.old ++ wakes_of_write W.eq self.old.ring waker (is_ok result) self.old.slots }
    {
        if self.len() == self.buffer.capacity() {
            if let Some(waker) = waker {
                self.write_waker.register(waker, wakes);
            }
            return Err(TryWriteError::Full);
        }
        let was_empty = self.is_empty();
        let written = self.buffer.write(from);
        wake_if(was_empty, &mut self.read_waker, wakes);
        Ok(written)
    }

    /// Writes as many of the bytes as there is room for, behind those in the pipe, and returns how many. If the pipe
    /// was empty, hands out the readers' waker, even if the slice is empty. An error means that the pipe is full.
    pub fn try_write<const K: usize>(
        &mut self,
        from: &[u8],
        wakes: &mut Wakes<W, K>,
    ) -> Result<usize, TryWriteError>
        requires { length wakes.old < K }
        ensures bytes { Writes R.capacity self.old.ring from.now result self.new.ring }
        ensures slots { self.new.slots ≡ slots_after_write W.eq self.old.ring None (is_ok result) self.old.slots }
        ensures wakes { wakes.new ≡ wakes.old ++ wakes_of_write W.eq self.old.ring None (is_ok result) self.old.slots }
    {
        self.write(from, None, wakes)
    }

    /// Like `try_write`, but if the pipe is full, registers the waker of the context, if there is one, in the writers'
    /// slot.
    pub fn try_write_with_context<const K: usize>(
        &mut self,
        cx: Option<&Context<W>>,
        from: &[u8],
        wakes: &mut Wakes<W, K>,
    ) -> Result<usize, TryWriteError>
        requires { length wakes.old < K }
        ensures bytes { Writes R.capacity self.old.ring from.now result self.new.ring }
        ensures slots { self.new.slots ≡ slots_after_write W.eq self.old.ring (option_copied cx.entry) (is_ok result) self.old.slots }
        ensures wakes { wakes.new ≡ wakes.old ++ wakes_of_write W.eq self.old.ring (option_copied cx.entry) (is_ok result) self.old.slots }
    {
        self.write(from, waker_of(cx), wakes)
    }

    // Writes as many of the bytes as there is room for, and returns how many. If some are left, registers the waker in
    // the writers' slot.
    fn write_all<const K: usize>(&mut self, from: &[u8], waker: W, wakes: &mut Wakes<W, K>) -> usize
        requires { length wakes.old + 1 < K }
        ensures count { result ≡ puts R.capacity self.old.ring from.now }
        ensures bytes { self.new.ring ≡ behind self.old.ring (take result from.now) }
        ensures full { result < length from.now → length self.new.ring.items ≡ R.capacity }
        ensures slots { self.new.slots ≡ slots_after_write_all W.eq self.old.ring result (length from.now) waker self.old.slots }
        ensures wakes { wakes.new ≡ wakes.old ++ wakes_of_write_all W.eq self.old.ring result (length from.now) waker self.old.slots }
    {
        let was_empty = self.is_empty();
        let written = self.buffer.write(from);
        let fills = written > 0 && was_empty;
        wake_if(fills, &mut self.read_waker, wakes);
        let is_left = written < from.len();
        register_if(is_left, waker, &mut self.write_waker, wakes);
        written
    }

    /// Drops all bytes, and hands out the writers' waker.
    pub fn clear<const K: usize>(&mut self, wakes: &mut Wakes<W, K>)
        requires { length wakes.old < K }
        ensures bytes { self.new.ring ≡ record { items = []; front = 0 } }
        ensures slots { self.new.slots ≡ record self.old.slots { writers = [] } }
        ensures wakes { wakes.new ≡ wakes.old ++ self.old.slots.writers }
    {
        self.buffer.clear();
        self.write_waker.wake(wakes);
    }

    /// Returns whether the pipe is full.
    pub fn is_full(&self) -> bool
        ensures { result ≡ is_full R.capacity self.now.ring }
    {
        self.buffer.len() == self.buffer.capacity()
    }

    /// Returns whether the pipe is empty.
    pub fn is_empty(&self) -> bool
        ensures { result ≡ is_empty self.now.ring }
    {
        self.buffer.len() == 0
    }

    /// Returns how many bytes the pipe has room for in all.
    pub fn capacity(&self) -> usize
        ensures { result ≡ R.capacity }
    {
        self.buffer.capacity()
    }

    /// Returns how many bytes are in the pipe.
    pub fn len(&self) -> usize
        ensures value { result ≡ length self.now.ring.items }
        ensures within { result ≤ R.capacity }
    {
        self.buffer.len()
    }

    /// Returns how many more bytes the pipe has room for.
    pub fn free_capacity(&self) -> usize
        ensures { result + length self.now.ring.items ≡ R.capacity }
    {
        self.buffer.capacity() - self.buffer.len()
    }
}

/// A request to write all of its bytes, with those that are still to be written.
#[derive(Debug, Drop)]
pub struct WriteAllRequest<'a> {
    rest: Option<&'a [u8]>,
}

impl<'a> Model for WriteAllRequest<'a> {
    ghost use Rattle.std.specs.Prelude.{ℕ, List, Option};
    ghost use Rattle.std.specs.Option.{option_copied};
    ghost use Rattle.std.specs.Coded.{coded_option, coded_list, coded_ℕ};

    ghost Value = { Option (List ℕ) };

    ghost coded = { coded_option (coded_list coded_ℕ) };

    ghost view = { λ a. option_copied a.rest };
}

impl<'a> WriteAllRequest<'a> {
    /// Returns a request whose bytes are all still to be written.
    pub fn new(bytes: &'a [u8]) -> Self
        ensures { result ≡ Some bytes.now }
    {
        WriteAllRequest { rest: Some(bytes) }
    }

    /// Returns whether all bytes were written.
    pub fn is_finished(&self) -> bool
        ensures { result ≡ is_none self.now }
    {
        self.rest.is_none()
    }

    /// Returns the bytes that are still to be written.
    pub fn rest(&self) -> &'a [u8]
        ensures { result.now ≡ rest_of self.now }
    {
        match self.rest {
            Some(rest) => rest,
            None => &[],
        }
    }

    /// Writes as many of the bytes as there is room for. If the first byte goes into an empty pipe, hands out the
    /// readers' waker. If some bytes are left, registers the context's waker in the writers' slot and returns Pending.
    /// Without bytes it is ready at once.
    ///
    /// A finished request may not be polled.
    pub fn poll_state<R: ByteStore, W: Copy + Eq, const K: usize>(
        &mut self,
        state: &mut PipeOver<R, W>,
        cx: &Context<W>,
        wakes: &mut Wakes<W, K>,
    ) -> Poll<()>
        requires room { length wakes.old + 1 < K }
        requires unfinished { IsSome self.old }
        ensures bytes { IfSome self.old (λ rest. WritesAll R.capacity state.old.ring rest result state.new.ring self.new) }
        ensures slots { IfSome self.old (λ rest. state.new.slots ≡ slots_after_write_all W.eq state.old.ring (puts R.capacity state.old.ring rest) (length rest) cx.now state.old.slots) }
        ensures wakes { IfSome self.old (λ rest. wakes.new ≡ wakes.old ++ wakes_of_write_all W.eq state.old.ring (puts R.capacity state.old.ring rest) (length rest) cx.now state.old.slots) }
    {
        let Some(rest) = self.rest else {
            unreachable!()
        };
        let written = state.write_all(rest, cx.waker(), wakes);
        if written < rest.len() {
            self.rest = Some(&rest[written..]);
            return Poll::Pending;
        }
        self.rest = None;
        Poll::Ready(())
    }
}
