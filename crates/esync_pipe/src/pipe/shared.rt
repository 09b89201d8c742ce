//! A pipe that tasks on several threads share by reference, its two ends, and its futures.
ghost use Rattle.std.specs.Prelude.{◌≡◌, [], ◌++◌, ◌≤◌, Some, IsSome, IfOk, OnErr, is_ok, length, min, take, drop, is_none};
ghost use Rattle.esync_pipe.specs.Pipe.{Copies, Shows, Filling, Dropping, shows};
ghost use Rattle.esync_pipe.specs.Polls.{IfReady, KeepsCopy, LeavesBytes};
ghost use Rattle.esync_pipe.specs.Room.{WakesFit};

use super::{PipeOver, TryReadError, TryWriteError, WriteAllRequest, waker_of};
use crate::ring::Ring;
use esync_base::shared::Shared;
use esync_base::step;
use esync_base::store::{ByteStore, FixedBytes};
use esync_base::waitqueue::{Context, Hand, Poll, Wakes};
use std::marker::Model;
use std::sync::MutexGuard;

/// A reader's copy of bytes of the pipe, without those that were consumed since. It stands in a ring of its own.
#[derive(Drop)]
pub struct CopiedIn<R: ByteStore> {
    bytes: R,
}

impl<R: ByteStore> Model for CopiedIn<R> {
    ghost use Rattle.std.specs.Prelude.{ℕ, List, length, ◌-◌, ◌≤◌};
    ghost use Rattle.std.specs.Coded.{coded_list, coded_ℕ};

    ghost Value = { List ℕ };

    ghost coded = { coded_list coded_ℕ };

    ghost view = { λ a. (R.ring a.bytes).items };

    ghost invariant = { λ a. length (R.ring a.bytes).items ≤ R.capacity - (R.ring a.bytes).front };
}

impl<R: FixedBytes> CopiedIn<R> {
    fn new() -> Self
        ensures { length result ≡ 0 }
    {
        CopiedIn { bytes: R::new() }
    }
}

impl<R: ByteStore> CopiedIn<R> {
    // The bytes of the copy that weren't consumed.
    fn filled(&self) -> &[u8]
        ensures { result.now ≡ self.now }
    {
        self.bytes.filled()
    }

    // Copies as many of the bytes as the ring has places.
    fn fill(&mut self, from: &[u8])
        ensures { self.new ≡ take R.capacity from.now }
    {
        self.bytes.clear();
        let _count = self.bytes.write(from);
    }

    fn consume(&mut self, amt: usize)
        requires { amt ≤ length self.old }
        ensures { self.new ≡ drop amt self.old }
    {
        self.bytes.consume(amt);
    }

    fn clear(&mut self)
        ensures { length self.new ≡ 0 }
    {
        self.bytes.clear();
    }
}

// Copies as many bytes as both slices have, and returns how many.
fn copy_front(from: &[u8], to: &mut [u8]) -> usize
    ensures within { result ≤ length to.old }
    ensures count { result ≡ min (length to.old) (length from.now) }
    ensures bytes { to.new ≡ take result from.now ++ drop result to.old }
{
    let n = if from.len() < to.len() {
        from.len()
    } else {
        to.len()
    };
    to[..n].copy_from_slice(&from[..n]);
    n
}

/// The steps of a shared pipe beside the state's own calls: they copy the bytes that `try_fill_buf` returns.
impl<R: ByteStore, W: Copy + Eq> PipeOver<R, W> {
    // Copies the oldest bytes, up to the wrap of the ring. If the pipe is empty, registers the waker, if there is one,
    // for bytes.
    fn fill(
        &mut self,
        waker: Option<W>,
        row: &mut CopiedIn<R>,
        wakes: &mut Wakes<W, 1>,
    ) -> Result<(), TryReadError>
        requires { wakes.old ≡ [] }
        ensures kept { OnErr result (row.new ≡ row.old) }
        ensures bytes { Copies R.capacity self.old.ring row.old result row.new }
        ensures step { Filling W.eq self.old waker (is_ok result) self.new wakes.new }
    {
        if self.is_empty() {
            self.wait_for_bytes(waker, wakes);
            return Err(TryReadError::Empty);
        }
        row.fill(self.shown());
        Ok(())
    }

    // Copies the oldest bytes, up to the wrap of the ring and as many as the slice has room for, and returns how many.
    // They stay. If the pipe is empty, writes nothing, and registers the waker, if there is one, for bytes.
    fn show(
        &mut self,
        waker: Option<W>,
        to: &mut [u8],
        wakes: &mut Wakes<W, 1>,
    ) -> Result<usize, TryReadError>
        requires { wakes.old ≡ [] }
        ensures count { IfOk result (λ n. n ≤ length to.old) }
        ensures kept { OnErr result (to.new ≡ to.old) }
        ensures bytes { Shows R.capacity self.old.ring to.old result to.new }
        ensures step { Filling W.eq self.old waker (is_ok result) self.new wakes.new }
    {
        if self.is_empty() {
            self.wait_for_bytes(waker, wakes);
            return Err(TryReadError::Empty);
        }
        Ok(copy_front(self.shown(), to))
    }

    // Drops the `amt` oldest bytes, if as many stand before the wrap of the ring.
    fn drop_shown(&mut self, amt: usize, wakes: &mut Wakes<W, 1>)
        requires { wakes.old ≡ [] }
        ensures { Dropping R.capacity self.old amt (shows R.capacity self.old.ring amt) self.new wakes.new }
    {
        if amt <= self.shown().len() {
            self.consume(amt, wakes);
        }
    }
}

/// A pipe of at most `N` bytes.
pub type Pipe<W, H, const N: usize> = SharedPipe<Ring<N>, W, H>;

/// A pipe that tasks on several threads share by reference, with backpressure.
///
/// Each call takes the lock, makes the call of its name on the state, and releases the lock. Then it gives each waker
/// that the step handed out to the hand, in order.
#[derive(Drop)]
pub struct SharedPipe<R: ByteStore, W, H> {
    inner: Shared<PipeOver<R, W>, W, H>,
}

impl<R: FixedBytes, W: Copy + Eq, H: Hand<W>> SharedPipe<R, W, H> {
    /// Returns an empty pipe without a registered waker.
    pub fn new(hand: H) -> Self {
        SharedPipe {
            inner: Shared::new(PipeOver::new(), hand),
        }
    }

    /// Returns the two ends of the pipe. There is one reader, which keeps a copy of the oldest bytes when it fills.
    pub fn split(&mut self) -> (PipeReader<'_, R, W, H>, PipeWriter<'_, R, W, H>)
        ensures { length result.0 ≡ 0 }
    {
        let pipe = &*self;
        (PipeReader::new(pipe), PipeWriter { pipe })
    }

    /// Returns how many bytes the pipe has room for in all. Takes no lock.
    pub fn capacity(&self) -> usize
        ensures { result ≡ R.capacity }
    {
        R::places()
    }
}

impl<R: ByteStore, W: Copy + Eq, H: Hand<W>> SharedPipe<R, W, H> {
    /// Returns a future that writes some of the bytes when there is room.
    pub fn write<'a>(&'a self, from: &'a [u8]) -> WriteFuture<'a, R, W, H>
        ensures { result ≡ from.now }
    {
        WriteFuture { pipe: self, from }
    }

    /// Returns a future that writes all of the bytes as there is room.
    pub fn write_all<'a>(&'a self, from: &'a [u8]) -> WriteAllFuture<'a, R, W, H>
        ensures { result ≡ Some from.now }
    {
        WriteAllFuture::new(self, from)
    }

    /// Returns a future that takes some bytes out when there are any.
    pub fn read<'a, 'b>(&'a self, to: &'b mut [u8]) -> ReadFuture<'a, 'b, R, W, H>
        ensures { length result ≡ length to.old }
    {
        ReadFuture { pipe: self, to }
    }

    // Takes the lock, until the guard is dropped. Its contract says once, for all steps, that their lists of wakers fit
    // in memory.
    #[inline]
    fn guard(&self) -> MutexGuard<'_, PipeOver<R, W>>
        ensures one { WakesFit W.row 1 }
        ensures two { WakesFit W.row 2 }
    {
        self.inner.guard()
    }

    // Gives the wakers to the hand, in order.
    fn wake<const K: usize>(&self, wakes: &Wakes<W, K>) {
        self.inner.wake(wakes);
    }

    pub(crate) fn step_write(&self, waker: Option<W>, from: &[u8]) -> Result<usize, TryWriteError>
        ensures { IfOk result (λ n. n ≤ length from.now) }
    {
        step!(self, |state, wakes| state.write(from, waker, &mut wakes))
    }

    pub(crate) fn step_read(&self, waker: Option<W>, to: &mut [u8]) -> Result<usize, TryReadError>
        ensures { IfOk result (λ n. n ≤ length to.old) }
    {
        step!(self, |state, wakes| state.read(to, waker, &mut wakes))
    }

    fn step_fill(&self, waker: Option<W>, row: &mut CopiedIn<R>) -> Result<(), TryReadError>
        ensures kept { OnErr result (row.new ≡ row.old) }
    {
        step!(self, |state, wakes| state.fill(waker, row, &mut wakes))
    }

    pub(crate) fn step_show(&self, waker: Option<W>, to: &mut [u8]) -> Result<usize, TryReadError>
        ensures count { IfOk result (λ n. n ≤ length to.old) }
        ensures kept { OnErr result (to.new ≡ to.old) }
    {
        step!(self, |state, wakes| state.show(waker, to, &mut wakes))
    }

    pub(crate) fn step_drop(&self, amt: usize) {
        step!(self, |state, wakes| state.drop_shown(amt, &mut wakes))
    }

    fn step_write_all(&self, request: &mut WriteAllRequest<'_>, cx: &Context<W>) -> Poll<()>
        requires { IsSome request.old }
        ensures { LeavesBytes result request.old request.new }
    {
        step!(
            self,
            2,
            |state, wakes| request.poll_state(&mut *state, cx, &mut wakes)
        )
    }

    /// Writes as many of the bytes as there is room for, and returns how many. If the pipe was empty, wakes the task
    /// that is registered for bytes. An error means that the pipe is full.
    pub fn try_write(&self, from: &[u8]) -> Result<usize, TryWriteError>
        ensures { IfOk result (λ n. n ≤ length from.now) }
    {
        self.step_write(None, from)
    }

    /// Like `try_write`, but if the pipe is full, registers the waker of the context, if there is one, for room.
    pub fn try_write_with_context(
        &self,
        cx: Option<&Context<W>>,
        from: &[u8],
    ) -> Result<usize, TryWriteError>
        ensures { IfOk result (λ n. n ≤ length from.now) }
    {
        self.step_write(waker_of(cx), from)
    }

    /// Takes the oldest bytes out into the slice, as many as there are and as it has room for, and returns how many. If
    /// the pipe was full, wakes the task that is registered for room. An error means that the pipe is empty.
    pub fn try_read(&self, to: &mut [u8]) -> Result<usize, TryReadError>
        ensures { IfOk result (λ n. n ≤ length to.old) }
    {
        self.step_read(None, to)
    }

    /// Like `try_read`, but if the pipe is empty, registers the waker of the context, if there is one, for bytes.
    pub fn try_read_with_context(
        &self,
        cx: Option<&Context<W>>,
        to: &mut [u8],
    ) -> Result<usize, TryReadError>
        ensures { IfOk result (λ n. n ≤ length to.old) }
    {
        self.step_read(waker_of(cx), to)
    }

    /// Drops all bytes, and wakes the task that is registered for room.
    pub fn clear(&self) {
        step!(self, |state, wakes| state.clear(&mut wakes))
    }

    /// Returns how many bytes are in the pipe now.
    pub fn len(&self) -> usize
        ensures { result ≤ R.capacity }
    {
        self.guard().len()
    }

    /// Returns how many more bytes the pipe has room for now.
    pub fn free_capacity(&self) -> usize
        ensures { result ≤ R.capacity }
    {
        self.guard().free_capacity()
    }

    /// Returns whether the pipe is empty now.
    pub fn is_empty(&self) -> bool {
        self.guard().is_empty()
    }

    /// Returns whether the pipe is full now.
    pub fn is_full(&self) -> bool {
        self.guard().is_full()
    }
}

/// The end of a pipe of at most `N` bytes that writes.
pub type Writer<'p, W, H, const N: usize> = PipeWriter<'p, Ring<N>, W, H>;

/// The end of a pipe that writes.
#[derive_where(Clone, Copy)]
pub struct PipeWriter<'p, R: ByteStore, W, H> {
    pipe: &'p SharedPipe<R, W, H>,
}

impl<'p, R: ByteStore, W: Copy + Eq, H: Hand<W>> PipeWriter<'p, R, W, H> {
    /// Returns a future that writes some of the bytes when there is room.
    pub fn write<'a>(&'a self, from: &'a [u8]) -> WriteFuture<'a, R, W, H>
        ensures { result ≡ from.now }
    {
        self.pipe.write(from)
    }

    /// Writes as many of the bytes as there is room for, and returns how many. If the pipe was empty, wakes the task
    /// that is registered for bytes. An error means that the pipe is full.
    pub fn try_write(&self, from: &[u8]) -> Result<usize, TryWriteError>
        ensures { IfOk result (λ n. n ≤ length from.now) }
    {
        self.pipe.try_write(from)
    }
}

/// The end of a pipe of at most `N` bytes that reads.
pub type Reader<'p, W, H, const N: usize> = PipeReader<'p, Ring<N>, W, H>;

/// The end of a pipe that reads. It keeps a copy of the bytes that it filled until they are consumed.
#[derive(Drop)]
pub struct PipeReader<'p, R: ByteStore, W, H> {
    pipe: &'p SharedPipe<R, W, H>,
    row: CopiedIn<R>,
}

impl<'p, R: ByteStore, W, H> Model for PipeReader<'p, R, W, H> {
    ghost use Rattle.std.specs.Prelude.{ℕ, List};
    ghost use Rattle.std.specs.Coded.{coded_list, coded_ℕ};

    ghost Value = { List ℕ };

    ghost coded = { coded_list coded_ℕ };

    ghost view = { λ a. a.row };
}

impl<'p, R: FixedBytes, W: Copy + Eq, H: Hand<W>> PipeReader<'p, R, W, H> {
    fn new(pipe: &'p SharedPipe<R, W, H>) -> Self
        ensures { length result ≡ 0 }
    {
        PipeReader {
            pipe,
            row: CopiedIn::new(),
        }
    }
}

impl<'p, R: ByteStore, W: Copy + Eq, H: Hand<W>> PipeReader<'p, R, W, H> {
    /// Takes the oldest bytes out into the slice, as many as there are and as it has room for, and returns how many. If
    /// the pipe was full, wakes the task that is registered for room. An error means that the pipe is empty. The
    /// reader's copy is empty afterwards.
    pub fn try_read(&mut self, to: &mut [u8]) -> Result<usize, TryReadError>
        ensures count { IfOk result (λ n. n ≤ length to.old) }
        ensures filled { length self.new ≡ 0 }
    {
        self.row.clear();
        self.pipe.try_read(to)
    }

    /// Returns a future that takes some bytes out when there are any. The reader's copy is empty afterwards.
    pub fn read<'a, 'b>(&'a mut self, to: &'b mut [u8]) -> ReadFuture<'a, 'b, R, W, H>
        ensures { length result ≡ length to.old }
    {
        self.row.clear();
        self.pipe.read(to)
    }

    /// Copies the oldest bytes, up to the wrap of the ring. They stay in the pipe until `consume` drops them. An error
    /// means that the pipe is empty, and the reader's copy stays as it was.
    pub fn try_fill_buf(&mut self) -> Result<(), TryReadError>
        ensures kept { OnErr result (self.new ≡ self.old) }
    {
        self.pipe.step_fill(None, &mut self.row)
    }

    /// Returns a future that copies the oldest bytes, up to the wrap of the ring, when there are any. They stay in the
    /// pipe until `consume` drops them.
    pub fn fill_buf<'r>(&'r mut self) -> FillBufFuture<'r, 'p, R, W, H> {
        FillBufFuture { reader: self }
    }

    /// Copies the oldest bytes, up to the wrap of the ring. If the pipe is empty, registers the context's waker for
    /// bytes and returns Pending. The reader's copy then stays as it was.
    pub fn poll_fill_buf(&mut self, cx: &Context<W>) -> Poll<()>
        ensures kept { KeepsCopy result self.old self.new }
    {
        match self.pipe.step_fill(Some(cx.waker()), &mut self.row) {
            Ok(()) => Poll::Ready(()),
            Err(TryReadError::Empty) => Poll::Pending,
        }
    }

    /// Returns the bytes that were filled and not consumed since.
    pub fn filled(&self) -> &[u8]
        ensures { result.now ≡ self.now }
    {
        self.row.filled()
    }

    /// Drops the first `amt` bytes of the reader's copy, and as many bytes of the pipe. The copy has to have as many.
    pub fn consume(&mut self, amt: usize)
        requires { amt ≤ length self.old }
        ensures { self.new ≡ drop amt self.old }
    {
        self.row.consume(amt);
        self.pipe.step_drop(amt);
    }
}

/// A future that writes some bytes into a pipe. `write` returns it. After it was ready, a poll writes again.
#[must_use]
#[derive(Drop)]
pub struct WriteFuture<'p, R: ByteStore, W, H> {
    pipe: &'p SharedPipe<R, W, H>,
    from: &'p [u8],
}

impl<'p, R: ByteStore, W, H> Model for WriteFuture<'p, R, W, H> {
    ghost use Rattle.std.specs.Prelude.{ℕ, List};
    ghost use Rattle.std.specs.Coded.{coded_list, coded_ℕ};

    ghost Value = { List ℕ };

    ghost coded = { coded_list coded_ℕ };

    ghost view = { λ a. a.from.now };
}

impl<'p, R: ByteStore, W: Copy + Eq, H: Hand<W>> WriteFuture<'p, R, W, H> {
    /// Writes as many of the bytes as there is room for, and returns how many. If the pipe was empty, wakes the task
    /// that is registered for bytes. If the pipe is full, registers the context's waker for room and returns Pending.
    pub fn poll(&mut self, cx: &Context<W>) -> Poll<usize>
        ensures count { IfReady result (λ n. n ≤ length self.old) }
        ensures from { self.new ≡ self.old }
    {
        match self.pipe.step_write(Some(cx.waker()), self.from) {
            Ok(n) => Poll::Ready(n),
            Err(TryWriteError::Full) => Poll::Pending,
        }
    }
}

/// A future that writes all of its bytes into a pipe. `write_all` returns it.
#[must_use]
#[derive(Drop)]
pub struct WriteAllFuture<'p, R: ByteStore, W, H> {
    pipe: &'p SharedPipe<R, W, H>,
    request: WriteAllRequest<'p>,
}

impl<'p, R: ByteStore, W, H> Model for WriteAllFuture<'p, R, W, H> {
    ghost use Rattle.std.specs.Prelude.{ℕ, List, Option};
    ghost use Rattle.std.specs.Coded.{coded_option, coded_list, coded_ℕ};

    ghost Value = { Option (List ℕ) };

    ghost coded = { coded_option (coded_list coded_ℕ) };

    ghost view = { λ a. a.request };
}

impl<'p, R: ByteStore, W: Copy + Eq, H: Hand<W>> WriteAllFuture<'p, R, W, H> {
    /// Returns a future whose bytes are still to be written.
    pub(crate) fn new(pipe: &'p SharedPipe<R, W, H>, from: &'p [u8]) -> Self
        ensures { result ≡ Some from.now }
    {
        WriteAllFuture {
            pipe,
            request: WriteAllRequest::new(from),
        }
    }

    /// Returns whether all bytes were written.
    pub fn is_finished(&self) -> bool
        ensures { result ≡ is_none self.now }
    {
        self.request.is_finished()
    }

    /// Writes as many of the bytes as there is room for. If some are left, registers the context's waker for room and
    /// returns Pending. A finished future may not be polled.
    pub fn poll(&mut self, cx: &Context<W>) -> Poll<()>
        requires { IsSome self.old }
        ensures { LeavesBytes result self.old self.new }
    {
        self.pipe.step_write_all(&mut self.request, cx)
    }
}

/// A future that takes bytes from a pipe. `read` returns it. After it was ready, a poll takes the next bytes.
#[must_use]
#[derive(Drop)]
pub struct ReadFuture<'p, 'b, R: ByteStore, W, H> {
    pipe: &'p SharedPipe<R, W, H>,
    to: &'b mut [u8],
}

impl<'p, 'b, R: ByteStore, W, H> Model for ReadFuture<'p, 'b, R, W, H> {
    ghost use Rattle.std.specs.Prelude.{ℕ, List};
    ghost use Rattle.std.specs.Coded.{coded_list, coded_ℕ};

    ghost Value = { List ℕ };

    ghost coded = { coded_list coded_ℕ };

    ghost view = { λ a. a.to.now };
}

impl<'p, 'b, R: ByteStore, W: Copy + Eq, H: Hand<W>> ReadFuture<'p, 'b, R, W, H> {
    /// Takes the oldest bytes out into the slice, as many as there are and as it has room for, and returns how many. If
    /// the pipe was full, wakes the task that is registered for room. If it is empty, registers the context's waker for
    /// bytes and returns Pending.
    pub fn poll(&mut self, cx: &Context<W>) -> Poll<usize>
        ensures count { IfReady result (λ n. n ≤ length self.old) }
        ensures slice { length self.new ≡ length self.old }
    {
        let pipe = self.pipe;
        let to = &mut *self.to;
        match pipe.step_read(Some(cx.waker()), to) {
            Ok(n) => Poll::Ready(n),
            Err(TryReadError::Empty) => Poll::Pending,
        }
    }
}

/// A future that copies bytes of a pipe for its reader. `fill_buf` returns it. After it was ready, a poll copies again,
/// and the reader returns the copy by `filled`.
#[must_use]
#[derive(Drop)]
pub struct FillBufFuture<'r, 'p, R: ByteStore, W, H> {
    reader: &'r mut PipeReader<'p, R, W, H>,
}

impl<'r, 'p, R: ByteStore, W, H> Model for FillBufFuture<'r, 'p, R, W, H> {
    ghost use Rattle.std.specs.Prelude.{ℕ, List};
    ghost use Rattle.std.specs.Coded.{coded_list, coded_ℕ};

    ghost Value = { List ℕ };

    ghost coded = { coded_list coded_ℕ };

    ghost view = { λ a. a.reader.now };
}

impl<'r, 'p, R: ByteStore, W: Copy + Eq, H: Hand<W>> FillBufFuture<'r, 'p, R, W, H> {
    /// Copies the oldest bytes, up to the wrap of the ring. If the pipe is empty, registers the context's waker for
    /// bytes and returns Pending. The reader's copy then stays as it was.
    pub fn poll(&mut self, cx: &Context<W>) -> Poll<()>
        ensures kept { KeepsCopy result self.old self.new }
    {
        self.reader.poll_fill_buf(cx)
    }
}
