//! The ends of a pipe whose type doesn't say its capacity, and their futures.
ghost use Rattle.std.specs.Prelude.{ℕ, ◌≡◌, ◌≤◌, IfOk, OnErr, length, drop};
ghost use Rattle.esync_pipe.specs.Polls.{IfReady, KeepsCopy};

use super::{SharedPipe, TryReadError, TryWriteError};
use esync_base::store::FixedBytes;
use esync_base::waitqueue::{Context, Hand, Poll, TaskId};
use std::alloc::{AllocError, Global};
use std::marker::Model;

/// The calls of a pipe that its ends need, whatever its capacity. The owner of a pipe makes the reference to its `dyn`.
pub trait DynamicPipe {
    /// How many bytes the pipe has room for in all.
    ghost places: { Self → ℕ };

    /// Returns how many bytes the pipe has room for in all.
    fn capacity(&self) -> usize
        ensures { result ≡ places self.now };

    /// Writes as many of the bytes as there is room for, and returns how many. If the pipe is full, returns an error,
    /// and registers the waker, if there is one, for room.
    fn try_write(&self, waker: Option<TaskId>, from: &[u8]) -> Result<usize, TryWriteError>
        ensures { IfOk result (λ n. n ≤ length from.now) };

    /// Takes the oldest bytes out into the slice, as many as there are and as it has room for, and returns how many. If
    /// the pipe is empty, returns an error, and registers the waker, if there is one, for bytes.
    fn try_read(&self, waker: Option<TaskId>, to: &mut [u8]) -> Result<usize, TryReadError>
        ensures { IfOk result (λ n. n ≤ length to.old) };

    /// Copies the oldest bytes, up to the wrap of the ring and as many as the slice has room for, and returns how many.
    /// They stay. If the pipe is empty, returns an error, writes nothing, and registers the waker, if there is one, for
    /// bytes.
    fn fill(&self, waker: Option<TaskId>, to: &mut [u8]) -> Result<usize, TryReadError>
        ensures count { IfOk result (λ n. n ≤ length to.old) }
        ensures kept { OnErr result (to.new ≡ to.old) };

    /// Drops the `amt` oldest bytes, if as many stand before the wrap of the ring.
    fn consume(&self, amt: usize);
}

impl<R: FixedBytes, H: Hand<TaskId>> DynamicPipe for SharedPipe<R, TaskId, H> {
    ghost places = { λ _. R.capacity };

    fn capacity(&self) -> usize {
        SharedPipe::capacity(self)
    }

    fn try_write(&self, waker: Option<TaskId>, from: &[u8]) -> Result<usize, TryWriteError>
        ensures { IfOk result (λ n. n ≤ length from.now) }
    {
        self.step_write(waker, from)
    }

    fn try_read(&self, waker: Option<TaskId>, to: &mut [u8]) -> Result<usize, TryReadError>
        ensures { IfOk result (λ n. n ≤ length to.old) }
    {
        self.step_read(waker, to)
    }

    fn fill(&self, waker: Option<TaskId>, to: &mut [u8]) -> Result<usize, TryReadError>
        ensures count { IfOk result (λ n. n ≤ length to.old) }
        ensures kept { OnErr result (to.new ≡ to.old) }
    {
        self.step_show(waker, to)
    }

    fn consume(&self, amt: usize) {
        self.step_drop(amt)
    }
}

impl DynamicPipe for &dyn DynamicPipe {
    ghost places = { λ pipe. (DynamicPipe-dyn pipe.now).places pipe.now.1 };

    fn capacity(&self) -> usize {
        (**self).capacity()
    }

    fn try_write(&self, waker: Option<TaskId>, from: &[u8]) -> Result<usize, TryWriteError>
        ensures { IfOk result (λ n. n ≤ length from.now) }
    {
        (**self).try_write(waker, from)
    }

    fn try_read(&self, waker: Option<TaskId>, to: &mut [u8]) -> Result<usize, TryReadError>
        ensures { IfOk result (λ n. n ≤ length to.old) }
    {
        (**self).try_read(waker, to)
    }

    fn fill(&self, waker: Option<TaskId>, to: &mut [u8]) -> Result<usize, TryReadError>
        ensures count { IfOk result (λ n. n ≤ length to.old) }
        ensures kept { OnErr result (to.new ≡ to.old) }
    {
        (**self).fill(waker, to)
    }

    fn consume(&self, amt: usize) {
        (**self).consume(amt)
    }
}

/// The end of any pipe that writes.
#[derive(Clone, Copy, Drop)]
pub struct DynamicWriter<P> {
    pipe: P,
}

impl<P: DynamicPipe> DynamicWriter<P> {
    /// Returns an end of the pipe that writes.
    pub fn new(pipe: P) -> Self {
        DynamicWriter { pipe }
    }

    /// Returns a future that writes some of the bytes when there is room.
    pub fn write<'a>(&'a self, from: &'a [u8]) -> DynamicWriteFuture<'a, P>
        ensures { result ≡ from.now }
    {
        DynamicWriteFuture {
            pipe: &self.pipe,
            from,
        }
    }

    /// Writes as many of the bytes as there is room for, and returns how many. An error means that the pipe is full.
    pub fn try_write(&self, from: &[u8]) -> Result<usize, TryWriteError>
        ensures { IfOk result (λ n. n ≤ length from.now) }
    {
        self.pipe.try_write(None, from)
    }
}

// A row of bytes that were filled, without those that were consumed since.
#[derive(Drop)]
struct CopiedBytes {
    bytes: Vec<u8>,
    start: usize,
    end: usize,
}

impl Model for CopiedBytes {
    ghost use Rattle.std.specs.Prelude.{ℕ, List, take, drop, length, ◌≤◌};
    ghost use Rattle.std.specs.Coded.{coded_list, coded_ℕ};

    ghost Value = { List ℕ };

    ghost coded = { coded_list coded_ℕ };

    ghost view = { λ a. drop a.start (take a.end a.bytes.items) };

    ghost invariant = { λ a. (a.start ≤ a.end) × (a.end ≤ length a.bytes.items) };
}

impl CopiedBytes {
    // A row of `places` places, of which none is filled.
    fn new(alloc: Global, places: usize) -> Result<Self, AllocError>
        ensures { IfOk result (λ row. length row ≡ 0) }
    {
        Ok(CopiedBytes {
            bytes: vec![in alloc; 0; places]?,
            start: 0,
            end: 0,
        })
    }

    fn clear(&mut self)
        ensures { length self.new ≡ 0 }
    {
        self.start = 0;
        self.end = 0;
    }

    // Copies the oldest bytes of a pipe.
    fn fill<P: DynamicPipe>(&mut self, pipe: &P, waker: Option<TaskId>) -> Result<(), TryReadError>
        ensures kept { OnErr result (self.new ≡ self.old) }
    {
        let n = pipe.fill(waker, &mut self.bytes[..])?;
        self.start = 0;
        self.end = n;
        Ok(())
    }

    fn filled(&self) -> &[u8]
        ensures { result.now ≡ self.now }
    {
        &self.bytes[self.start..self.end]
    }

    fn consume(&mut self, amt: usize)
        requires { amt ≤ length self.old }
        ensures { self.new ≡ drop amt self.old }
    {
        self.start += amt;
    }
}

/// The end of any pipe that reads. It keeps a copy of the bytes that it filled until they are consumed.
#[derive(Drop)]
pub struct DynamicReader<P> {
    pipe: P,
    row: CopiedBytes,
}

impl<P> Model for DynamicReader<P> {
    ghost use Rattle.std.specs.Prelude.{ℕ, List};
    ghost use Rattle.std.specs.Coded.{coded_list, coded_ℕ};

    ghost Value = { List ℕ };

    ghost coded = { coded_list coded_ℕ };

    ghost view = { λ a. a.row };
}

impl<P: DynamicPipe + Drop> DynamicReader<P> {
    /// Returns an end of the pipe that reads, with places for as many bytes as the pipe has room for. An error means
    /// that there was no memory for them. No other call takes memory.
    ///
    /// A pipe should have one such end, since `consume` takes as many bytes out of the pipe as it is told. If another
    /// end reads, or the pipe is cleared, between a fill and its `consume`, that takes bytes which no task has read. If
    /// fewer bytes stand before the wrap by then, it takes none, and the next fill copies the same bytes again.
    pub fn new(alloc: Global, pipe: P) -> Result<Self, AllocError>
        ensures { IfOk result (λ reader. length reader ≡ 0) }
    {
        let row = CopiedBytes::new(alloc, pipe.capacity())?;
        Ok(DynamicReader { pipe, row })
    }

    /// Takes the oldest bytes out into the slice, as many as there are and as it has room for, and returns how many. An
    /// error means that the pipe is empty. The reader's copy is empty afterwards.
    pub fn try_read(&mut self, to: &mut [u8]) -> Result<usize, TryReadError>
        ensures count { IfOk result (λ n. n ≤ length to.old) }
        ensures filled { length self.new ≡ 0 }
    {
        self.row.clear();
        self.pipe.try_read(None, to)
    }

    /// Returns a future that takes some bytes out when there are any. The reader's copy is empty afterwards.
    pub fn read<'a, 'b>(&'a mut self, to: &'b mut [u8]) -> DynamicReadFuture<'a, 'b, P>
        ensures { length result ≡ length to.old }
    {
        self.row.clear();
        DynamicReadFuture {
            pipe: &self.pipe,
            to,
        }
    }

    /// Copies the oldest bytes, up to the wrap of the ring. They stay in the pipe until `consume` drops them. An error
    /// means that the pipe is empty, and the reader's copy stays as it was.
    pub fn try_fill_buf(&mut self) -> Result<(), TryReadError>
        ensures kept { OnErr result (self.new ≡ self.old) }
    {
        self.row.fill(&self.pipe, None)
    }

    /// Returns a future that copies the oldest bytes, up to the wrap of the ring, when there are any. They stay in the
    /// pipe until `consume` drops them.
    pub fn fill_buf<'r>(&'r mut self) -> DynamicFillBufFuture<'r, P> {
        DynamicFillBufFuture { reader: self }
    }

    /// Returns the bytes that were filled and not consumed since.
    pub fn filled(&self) -> &[u8]
        ensures { result.now ≡ self.now }
    {
        self.row.filled()
    }

    /// Drops the first `amt` bytes of the reader's copy, which has to have as many. Drops as many of the pipe's oldest
    /// bytes, if as many stand before the wrap of the ring.
    pub fn consume(&mut self, amt: usize)
        requires { amt ≤ length self.old }
        ensures { self.new ≡ drop amt self.old }
    {
        self.row.consume(amt);
        self.pipe.consume(amt);
    }
}

/// A future that writes some bytes into any pipe. After it was ready, a poll writes again.
#[must_use]
#[derive(Drop)]
pub struct DynamicWriteFuture<'a, P> {
    pipe: &'a P,
    from: &'a [u8],
}

impl<'a, P> Model for DynamicWriteFuture<'a, P> {
    ghost use Rattle.std.specs.Prelude.{ℕ, List};
    ghost use Rattle.std.specs.Coded.{coded_list, coded_ℕ};

    ghost Value = { List ℕ };

    ghost coded = { coded_list coded_ℕ };

    ghost view = { λ a. a.from.now };
}

impl<'a, P: DynamicPipe> DynamicWriteFuture<'a, P> {
    /// Writes as many of the bytes as there is room for, and returns how many. If the pipe is full, registers the
    /// context's waker for room and returns Pending.
    pub fn poll(&mut self, cx: &Context<TaskId>) -> Poll<usize>
        ensures count { IfReady result (λ n. n ≤ length self.old) }
        ensures from { self.new ≡ self.old }
    {
        match self.pipe.try_write(Some(cx.waker()), self.from) {
            Ok(n) => Poll::Ready(n),
            Err(TryWriteError::Full) => Poll::Pending,
        }
    }
}

/// A future that takes bytes from any pipe. After it was ready, a poll takes the next bytes.
#[must_use]
#[derive(Drop)]
pub struct DynamicReadFuture<'a, 'b, P> {
    pipe: &'a P,
    to: &'b mut [u8],
}

impl<'a, 'b, P> Model for DynamicReadFuture<'a, 'b, P> {
    ghost use Rattle.std.specs.Prelude.{ℕ, List};
    ghost use Rattle.std.specs.Coded.{coded_list, coded_ℕ};

    ghost Value = { List ℕ };

    ghost coded = { coded_list coded_ℕ };

    ghost view = { λ a. a.to.now };
}

impl<'a, 'b, P: DynamicPipe> DynamicReadFuture<'a, 'b, P> {
    /// Takes the oldest bytes out into the slice, as many as there are and as it has room for, and returns how many. If
    /// the pipe is empty, registers the context's waker for bytes and returns Pending.
    pub fn poll(&mut self, cx: &Context<TaskId>) -> Poll<usize>
        ensures count { IfReady result (λ n. n ≤ length self.old) }
        ensures slice { length self.new ≡ length self.old }
    {
        let pipe = self.pipe;
        let to = &mut *self.to;
        match pipe.try_read(Some(cx.waker()), to) {
            Ok(n) => Poll::Ready(n),
            Err(TryReadError::Empty) => Poll::Pending,
        }
    }
}

/// A future that copies bytes of any pipe for its reader. After it was ready, a poll copies again, and the reader
/// returns the copy by `filled`.
#[must_use]
#[derive(Drop)]
pub struct DynamicFillBufFuture<'r, P> {
    reader: &'r mut DynamicReader<P>,
}

impl<'r, P> Model for DynamicFillBufFuture<'r, P> {
    ghost use Rattle.std.specs.Prelude.{ℕ, List};
    ghost use Rattle.std.specs.Coded.{coded_list, coded_ℕ};

    ghost Value = { List ℕ };

    ghost coded = { coded_list coded_ℕ };

    ghost view = { λ a. a.reader.now };
}

impl<'r, P: DynamicPipe> DynamicFillBufFuture<'r, P> {
    /// Copies the oldest bytes, up to the wrap of the ring. If the pipe is empty, registers the context's waker for
    /// bytes and returns Pending. The reader's copy then stays as it was.
    pub fn poll(&mut self, cx: &Context<TaskId>) -> Poll<()>
        ensures kept { KeepsCopy result self.old self.new }
    {
        let reader = &mut *self.reader;
        match reader.row.fill(&reader.pipe, Some(cx.waker())) {
            Ok(()) => Poll::Ready(()),
            Err(TryReadError::Empty) => Poll::Pending,
        }
    }
}
