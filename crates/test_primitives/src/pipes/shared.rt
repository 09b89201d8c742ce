//! Futures of a shared pipe that are polled once more, a copied end, what a read forgets, and threads.
use esync_base::store::ByteStore;
use esync_base::waitqueue::{Context, Hand, Poll};
use esync_notes::{Notes, holds, same};
use esync_pipe::pipe::{FillBufFuture, Pipe, Reader, SharedPipe, Writer};
use esync_pipe::ring::Ring;
use std::process::Abort;
use std::sync::Wait;
use std::thread;

type Hears<'n, R> = &'n Notes<'n, R>;

type Noted<'n, R, const N: usize> = Pipe<u64, Hears<'n, R>, N>;

type NotedReader<'p, 'n, R> = Reader<'p, u64, Hears<'n, R>, 3>;

type NotedWriter<'p, 'n, R> = Writer<'p, u64, Hears<'n, R>, 3>;

// No byte, and nobody who waits.
fn pipe<'n, R: Wait, const N: usize>(notes: &'n Notes<'n, R>) -> Noted<'n, R, N> {
    Pipe::new(notes)
}

// A write of as many bytes as there is room for.
fn puts<R: Wait + Abort>(rt: &R, writer: &NotedWriter<'_, '_, R>, bytes: &[u8]) {
    holds!(*rt; writer.try_write(bytes) == Ok(bytes.len()));
}

// The bytes that the reader filled and didn't consume since.
fn shows<R: Wait + Abort>(rt: &R, reader: &NotedReader<'_, '_, R>, bytes: &[u8]) {
    same!(*rt; reader.filled(), bytes);
}

// A fill that shows these bytes.
fn fills<R: Wait + Abort>(rt: &R, reader: &mut NotedReader<'_, '_, R>, bytes: &[u8]) {
    holds!(*rt; reader.try_fill_buf().is_ok());
    shows(rt, reader, bytes);
}

#[test]
fn writer_is_cloneable(rt: HostRuntime) {
    let notes = Notes::new(&rt);
    let mut pipe: Noted<_, 3> = pipe(&notes);
    let (mut reader, writer) = pipe.split();
    let copied = writer;
    match writer.clone() {
        Ok(cloned) => puts(&rt, &cloned, &[1]),
        Err(_) => rt.abort(),
    }
    puts(&rt, &copied, &[2]);
    puts(&rt, &writer, &[3]);
    fills(&rt, &mut reader, &[1, 2, 3]);
}

// A read of one byte by a future.
fn reads_one<R: Wait + Abort>(rt: &R, reader: &mut NotedReader<'_, '_, R>, byte: u8) {
    let mut to = [0; 1];
    let mut read = reader.read(&mut to);
    holds!(*rt; read.poll(&Context::from_waker(1)) == Poll::Ready(1));
    drop(read);
    same!(*rt; to, [byte]);
}

#[test]
fn a_read_forgets_what_was_filled(rt: HostRuntime) {
    let notes = Notes::new(&rt);
    let mut pipe: Noted<_, 3> = pipe(&notes);
    let (mut reader, writer) = pipe.split();
    puts(&rt, &writer, &[1, 2]);
    fills(&rt, &mut reader, &[1, 2]);
    reads_one(&rt, &mut reader, 1);
    shows(&rt, &reader, &[]);
    fills(&rt, &mut reader, &[2]);
}

// A poll of a future that fills.
fn fill_polls<R: Wait + Abort>(
    rt: &R,
    fill: &mut FillBufFuture<'_, '_, Ring<3>, u64, Hears<'_, R>>,
    answer: Poll<()>,
) {
    holds!(*rt; fill.poll(&Context::from_waker(1)) == answer);
}

#[test]
fn a_fill_acts_anew(rt: HostRuntime) {
    let notes = Notes::new(&rt);
    let mut pipe: Noted<_, 3> = pipe(&notes);
    let (mut reader, writer) = pipe.split();
    let mut fill = reader.fill_buf();
    fill_polls(&rt, &mut fill, Poll::Pending);
    puts(&rt, &writer, &[1, 2]);
    holds!(rt; notes.are(&[1]));
    fill_polls(&rt, &mut fill, Poll::Ready(()));
    puts(&rt, &writer, &[3]);
    fill_polls(&rt, &mut fill, Poll::Ready(()));
    drop(fill);
    shows(&rt, &reader, &[1, 2, 3]);
}

// Polls of a future that reads: there is one byte for the first poll, and none for the second.
fn reads_once<B: ByteStore, H: Hand<u64>>(rt: &impl Abort, pipe: &SharedPipe<B, u64, H>, byte: u8) {
    let mut to = [0; 16];
    let mut read = pipe.read(&mut to);
    holds!(rt; read.poll(&Context::from_waker(2)) == Poll::Ready(1));
    holds!(rt; read.poll(&Context::from_waker(2)) == Poll::Pending);
    drop(read);
    same!(rt; to[0], byte);
}

#[test]
fn a_write_and_a_read_act_anew(rt: HostRuntime) {
    let notes = Notes::new(&rt);
    let pipe: Noted<_, 1> = pipe(&notes);
    let one = Context::from_waker(1);
    let mut write = pipe.write(&[42]);
    holds!(rt; write.poll(&one) == Poll::Ready(1));
    holds!(rt; write.poll(&one) == Poll::Pending);
    reads_once(&rt, &pipe, 42);
    holds!(rt; notes.are(&[1]));
    holds!(rt; write.poll(&one) == Poll::Ready(1));
    holds!(rt; notes.are(&[2]));
}

// A hand for threads, which wakes nobody.
#[derive(Drop)]
struct Nobody<'a, R> {
    rt: &'a R,
}

impl<R: Wait> Hand<u64> for Nobody<'_, R> {
    type Rt = R;

    fn rt(&self) -> &R {
        self.rt
    }

    fn wake(&self, _waker: u64) {}
}

// How many of three bytes there was room for.
fn writes<B: ByteStore, H: Hand<u64>>(pipe: &SharedPipe<B, u64, H>) -> usize {
    pipe.try_write(&[1, 2, 3]).unwrap_or(0)
}

// How many bytes there were.
fn reads<B: ByteStore, H: Hand<u64>>(pipe: &SharedPipe<B, u64, H>) -> usize {
    let mut to = [0; 4];
    pipe.try_read(&mut to[..]).unwrap_or(0)
}

#[test]
fn two_threads_share_a_pipe(rt: HostRuntime) {
    let pipe: Pipe<u64, _, 3> = Pipe::new(Nobody { rt: &rt });
    let (written, read) = thread::join(&rt, || writes(&pipe), || reads(&pipe));
    same!(rt; written, 3);
    let left = pipe.len();
    holds!(rt; (read == 3 && left == 0) || (read == 0 && left == 3));
}
