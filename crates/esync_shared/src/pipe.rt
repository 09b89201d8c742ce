//! The pipe: called by its own calls and by ends that are made anew for each call, or by futures that last and the ends
//! of any pipe.
ghost use Rattle.std.specs.Prelude.{◌≡◌, ◌≤◌, IfOk, OnErr, length};

use crate::form::{Answered, Door, Doors, Form, by, heard, sizes};
use bumpalo::Bump;
use esync_base::store::FixedBytes;
use esync_base::waitqueue::{Context, Hand, Poll, TaskId};
use esync_machine::primitive::Answer;
use esync_pipe::bytes::Bytes;
use esync_pipe::pipe::machine::{PipeAsk, PipeCall, PipeHeard};
use esync_pipe::pipe::{
    DynamicPipe, DynamicReader, DynamicWriteFuture, DynamicWriter, SharedPipe, TryReadError,
    TryWriteError, WriteAllFuture, WriteFuture,
};
use esync_script::capacity::Capacity;
use esync_script::pipe::PipeWords;

// The row for the bytes of an answer.
type Row = [u8; 16];

// The bytes of a command or of an answer.
type Few = Bytes<16>;

// The answer of a form to a call.
macro_rules! answer {
    ($form:ident, $call:ident) => {
        Some(match $call {
            PipeCall::TryWrite(bytes) => {
                Answer::Gives(PipeHeard::TryWrote($form.try_write(bytes.as_slice())))
            }
            PipeCall::TryRead(count) => {
                let mut row = [0; 16];
                let tried = $form.try_read(places(&mut row, count));
                Answer::Gives(PipeHeard::HasTriedRead(tried_front(&row, tried)))
            }
            PipeCall::TryFill => Answer::Gives(PipeHeard::TryFilled($form.try_fill())),
            PipeCall::Consume(count) => $form.consume(count)?,
            PipeCall::Clear => {
                $form.pipe.clear();
                Answer::Done
            }
            PipeCall::Len => Answer::Gives(PipeHeard::Number(sizes!($form.pipe)?.len)),
            PipeCall::FreeCapacity => Answer::Gives(PipeHeard::Number($form.pipe.free_capacity())),
        })
    };
}

/// A pipe that is split anew wherever one of its ends is called, and whose futures are made anew for each poll.
#[derive(Drop)]
pub struct Split<R: FixedBytes, H> {
    pub pipe: SharedPipe<R, u64, H>,
    pub doors: Doors,
}

impl<R: FixedBytes, H: Hand<u64> + Drop> Form for Split<R, H> {
    type Words = PipeWords<Capacity, 16>;

    type Held = PipeAsk<Few>;

    fn begin(&mut self, ask: PipeAsk<Few>) -> Option<PipeAsk<Few>> {
        Some(ask)
    }

    fn poll(&mut self, held: &mut PipeAsk<Few>, cx: &Context<u64>) -> Answered<Self> {
        Some(match held {
            PipeAsk::Write(bytes) => {
                heard!(self.write(bytes.as_slice(), cx), count => PipeHeard::Wrote(count))
            }
            PipeAsk::WriteAll(bytes) => {
                heard!(self.write_all(bytes, cx), () => PipeHeard::WroteAll)
            }
            PipeAsk::Read(count) => {
                let mut row = [0; 16];
                let polled = self.read(places(&mut row, *count), cx);
                heard!(polled, count => PipeHeard::HasRead(front(&row, count)))
            }
            PipeAsk::Fill => heard!(self.fill(cx), bytes => PipeHeard::Filled(bytes)),
        })
    }

    fn call(&mut self, call: PipeCall<Few>, _place: &mut Option<PipeAsk<Few>>) -> Answered<Self> {
        answer!(self, call)
    }
}

impl<R: FixedBytes, H: Hand<u64> + Drop> Split<R, H> {
    fn write(&mut self, from: &[u8], cx: &Context<u64>) -> Poll<usize> {
        match self.doors.next() {
            Door::Own => self.pipe.write(from).poll(cx),
            Door::Handle => self.pipe.split().1.write(from).poll(cx),
            Door::Dynamic => match self.pipe.try_write_with_context(Some(cx), from) {
                Ok(count) => Poll::Ready(count),
                Err(TryWriteError::Full) => Poll::Pending,
            },
        }
    }

    // Writes some bytes after others, until all are written or a write must wait.
    fn write_all(&mut self, bytes: &mut Few, cx: &Context<u64>) -> Poll<()> {
        for _ in 0..Few::CAPACITY {
            if bytes.as_slice().is_empty() {
                return Poll::Ready(());
            }
            match self.write(bytes.as_slice(), cx) {
                Poll::Ready(count) => *bytes = behind(bytes, count),
                Poll::Pending => return Poll::Pending,
            }
        }
        Poll::Ready(())
    }

    fn read(&mut self, to: &mut [u8], cx: &Context<u64>) -> Poll<usize> {
        match self.doors.next() {
            Door::Own => self.pipe.read(to).poll(cx),
            Door::Handle => {
                let (mut reader, _writer) = self.pipe.split();
                reader.read(to).poll(cx)
            }
            Door::Dynamic => match self.pipe.try_read_with_context(Some(cx), to) {
                Ok(count) => Poll::Ready(count),
                Err(TryReadError::Empty) => Poll::Pending,
            },
        }
    }

    fn fill(&mut self, cx: &Context<u64>) -> Poll<Few> {
        let door = self.doors.next();
        let (mut reader, _writer) = self.pipe.split();
        let polled = match door {
            Door::Own => reader.poll_fill_buf(cx),
            Door::Handle | Door::Dynamic => reader.fill_buf().poll(cx),
        };
        match polled {
            Poll::Ready(()) => Poll::Ready(Bytes::from_slice(reader.filled())),
            Poll::Pending => Poll::Pending,
        }
    }

    fn try_write(&mut self, from: &[u8]) -> Result<usize, TryWriteError> {
        match self.doors.next() {
            Door::Own => self.pipe.try_write(from),
            Door::Handle | Door::Dynamic => self.pipe.split().1.try_write(from),
        }
    }

    fn try_read(&mut self, to: &mut [u8]) -> Result<usize, TryReadError> {
        match self.doors.next() {
            Door::Own => self.pipe.try_read(to),
            Door::Handle | Door::Dynamic => self.pipe.split().0.try_read(to),
        }
    }

    fn try_fill(&mut self) -> Result<Few, TryReadError> {
        let (mut reader, _writer) = self.pipe.split();
        reader.try_fill_buf()?;
        Ok(Bytes::from_slice(reader.filled()))
    }

    fn consume(&mut self, count: usize) -> Option<Answer<PipeHeard<Few>>> {
        let (mut reader, _writer) = self.pipe.split();
        let _ = reader.try_fill_buf();
        if count > reader.filled().len() {
            return None;
        }
        reader.consume(count);
        Some(Answer::Done)
    }
}

/// A pipe of tasks, in the form that the ends of any pipe take.
#[derive_where(Clone, Copy)]
pub struct Lent<'c, R: FixedBytes, H> {
    pipe: &'c SharedPipe<R, TaskId, H>,
}

impl<'c, R: FixedBytes, H: Hand<TaskId>> Lent<'c, R, H> {
    /// Returns this pipe in that form.
    pub fn new(pipe: &'c SharedPipe<R, TaskId, H>) -> Self {
        Lent { pipe }
    }
}

impl<R: FixedBytes, H: Hand<TaskId>> DynamicPipe for Lent<'_, R, H> {
    ghost places = { λ _. R.capacity };

    fn capacity(&self) -> usize {
        DynamicPipe::capacity(self.pipe)
    }

    fn try_write(&self, waker: Option<TaskId>, from: &[u8]) -> Result<usize, TryWriteError>
        ensures { IfOk result (λ n. n ≤ length from.now) }
    {
        DynamicPipe::try_write(self.pipe, waker, from)
    }

    fn try_read(&self, waker: Option<TaskId>, to: &mut [u8]) -> Result<usize, TryReadError>
        ensures { IfOk result (λ n. n ≤ length to.old) }
    {
        DynamicPipe::try_read(self.pipe, waker, to)
    }

    fn fill(&self, waker: Option<TaskId>, to: &mut [u8]) -> Result<usize, TryReadError>
        ensures count { IfOk result (λ n. n ≤ length to.old) }
        ensures kept { OnErr result (to.new ≡ to.old) }
    {
        DynamicPipe::fill(self.pipe, waker, to)
    }

    fn consume(&self, amt: usize) {
        DynamicPipe::consume(self.pipe, amt)
    }
}

/// A pipe whose writing futures stay at their numbers from poll to poll, and whose bytes are read by an end of any
/// pipe.
#[derive(Drop)]
pub struct Lasting<'c, R: FixedBytes, H> {
    pub pipe: &'c SharedPipe<R, TaskId, H>,
    /// The memory for the bytes that are to be written.
    pub written: &'c Bump,
    pub writer: &'c DynamicWriter<Lent<'c, R, H>>,
    pub reader: DynamicReader<Lent<'c, R, H>>,
    pub doors: Doors,
}

/// A future that writes, or the ask of a read, whose future is made anew for each poll.
#[derive(Drop)]
pub enum Held<'c, R: FixedBytes, H> {
    Write(WriteFuture<'c, R, TaskId, H>),
    DynWrite(DynamicWriteFuture<'c, Lent<'c, R, H>>),
    WriteAll(WriteAllFuture<'c, R, TaskId, H>),
    Read(usize),
    Fill,
}

impl<'c, R: FixedBytes, H: Hand<TaskId>> Form for Lasting<'c, R, H> {
    type Words = PipeWords<Capacity, 16>;

    type Held = Held<'c, R, H>;

    fn begin(&mut self, ask: PipeAsk<Few>) -> Option<Self::Held> {
        Some(match ask {
            PipeAsk::Write(bytes) => self.write(kept(self.written, bytes)?),
            PipeAsk::WriteAll(bytes) => {
                Held::WriteAll(self.pipe.write_all(kept(self.written, bytes)?))
            }
            PipeAsk::Read(count) => Held::Read(count),
            PipeAsk::Fill => Held::Fill,
        })
    }

    fn poll(&mut self, held: &mut Self::Held, cx: &Context<u64>) -> Answered<Self> {
        let cx = &Context::from_waker(TaskId(cx.waker()));
        Some(match held {
            Held::Write(future) => heard!(future.poll(cx), count => PipeHeard::Wrote(count)),
            Held::DynWrite(future) => heard!(future.poll(cx), count => PipeHeard::Wrote(count)),
            Held::WriteAll(future) if future.is_finished() => return None,
            Held::WriteAll(future) => heard!(future.poll(cx), () => PipeHeard::WroteAll),
            Held::Read(count) => {
                let mut row = [0; 16];
                let polled = self.read(places(&mut row, *count), cx);
                heard!(polled, count => PipeHeard::HasRead(front(&row, count)))
            }
            Held::Fill => heard!(self.fill(cx), bytes => PipeHeard::Filled(bytes)),
        })
    }

    fn call(&mut self, call: PipeCall<Few>, _place: &mut Option<Self::Held>) -> Answered<Self> {
        answer!(self, call)
    }
}

impl<'c, R: FixedBytes, H: Hand<TaskId>> Lasting<'c, R, H> {
    fn write(&mut self, from: &'c [u8]) -> Held<'c, R, H> {
        match self.doors.next() {
            Door::Own => Held::Write(self.pipe.write(from)),
            Door::Handle | Door::Dynamic => Held::DynWrite(self.writer.write(from)),
        }
    }

    fn read(&mut self, to: &mut [u8], cx: &Context<TaskId>) -> Poll<usize> {
        by!(self, pipe | reader | reader, read(to).poll(cx))
    }

    fn fill(&mut self, cx: &Context<TaskId>) -> Poll<Few> {
        match self.reader.fill_buf().poll(cx) {
            Poll::Ready(()) => Poll::Ready(Bytes::from_slice(self.reader.filled())),
            Poll::Pending => Poll::Pending,
        }
    }

    fn try_write(&mut self, from: &[u8]) -> Result<usize, TryWriteError> {
        by!(self, pipe | writer | writer, try_write(from))
    }

    fn try_read(&mut self, to: &mut [u8]) -> Result<usize, TryReadError> {
        by!(self, pipe | reader | reader, try_read(to))
    }

    fn try_fill(&mut self) -> Result<Few, TryReadError> {
        self.reader.try_fill_buf()?;
        Ok(Bytes::from_slice(self.reader.filled()))
    }

    // Fills the buffer again, and consumes. The bytes that a fill showed earlier may be gone since, by a call of the
    // pipe's own; a fill that finds no byte leaves the pipe as it is.
    fn consume(&mut self, count: usize) -> Option<Answer<PipeHeard<Few>>> {
        let is_empty = self.reader.try_fill_buf().is_err();
        if is_empty && count > 0 || count > self.reader.filled().len() {
            return None;
        }
        self.reader.consume(count);
        Some(Answer::Done)
    }
}

// Lends the first `count` places of a row, or all of them.
fn places(row: &mut Row, count: usize) -> &mut [u8] {
    &mut row[..count.min(16)]
}

// Returns the bytes in the first `count` places of a row.
fn front(row: &Row, count: usize) -> Few {
    Bytes::from_slice(&row[..count.min(16)])
}

// Returns the bytes that were read to the front of a row.
fn tried_front(row: &Row, tried: Result<usize, TryReadError>) -> Result<Few, TryReadError> {
    Ok(front(row, tried?))
}

// Returns the bytes behind the first `count` ones.
fn behind(bytes: &Few, count: usize) -> Few {
    let from = bytes.as_slice();
    Bytes::from_slice(&from[count.min(from.len())..])
}

// Returns a copy of the bytes that outlives the future that writes them.
fn kept(written: &Bump, bytes: Few) -> Option<&[u8]> {
    match written.try_alloc_slice_copy(bytes.as_slice()) {
        Ok(kept) => Some(kept),
        Err(_) => None,
    }
}

/// A hand that gives the wakers of tasks to the hand of all shared forms.
#[derive(Drop)]
pub struct Tasks<H> {
    hand: H,
}

impl<H: Hand<u64>> Tasks<H> {
    /// Returns a hand over this one.
    pub fn new(hand: H) -> Self {
        Tasks { hand }
    }
}

impl<H: Hand<u64>> Hand<TaskId> for Tasks<H> {
    type Rt = H::Rt;

    fn rt(&self) -> &H::Rt {
        self.hand.rt()
    }

    fn wake(&self, waker: TaskId) {
        self.hand.wake(waker.0);
    }
}
