//! The ends of any pipe, by a reference to its `dyn` that the test makes.
use esync_base::waitqueue::{Context, Hand, Poll, TaskId};
use esync_notes::{holds, same};
use esync_pipe::pipe::{
    DynamicPipe, DynamicReader, DynamicWriter, Pipe, TryReadError, TryWriteError,
};
use std::alloc::AllocError;
use std::cell::Cell;
use std::process::Abort;
use std::sync::Wait;

// Aborts where a task is woken out of turn: task 1 comes first, and then each comes after the other. A `dyn` of a pipe whose hand
// borrows gets no proof.
#[derive(Drop)]
struct Turns<R> {
    rt: R,
    next: Cell<u64>,
}

impl<R: Wait + Abort> Hand<TaskId> for Turns<R> {
    type Rt = R;

    fn rt(&self) -> &R {
        &self.rt
    }

    fn wake(&self, waker: TaskId) {
        if waker.0 != self.next.get() {
            self.rt.abort();
        }
        self.next.set(if waker.0 == 1 { 2 } else { 1 });
    }
}

// No byte, and nobody who waits.
fn pipe<R: Wait + Abort, const N: usize>(rt: R) -> Pipe<TaskId, Turns<R>, N> {
    let next = Cell::new(1);
    Pipe::new(Turns { rt, next })
}

// A fill that shows these bytes, or finds none.
fn fills<P: DynamicPipe + Drop>(rt: &impl Abort, reader: &mut DynamicReader<P>, bytes: &[u8]) {
    match reader.try_fill_buf() {
        Ok(()) => {
            holds!(*rt; !bytes.is_empty());
            same!(rt; reader.filled(), bytes);
        }
        Err(TryReadError::Empty) => same!(rt; bytes.len(), 0),
    }
}

// So many bytes that a fill showed are consumed.
fn consumes<P: DynamicPipe + Drop>(rt: &impl Abort, reader: &mut DynamicReader<P>, count: usize) {
    assert!(rt; count <= reader.filled().len());
    reader.consume(count);
}

// What fits is written.
fn writes<P: DynamicPipe>(
    rt: &impl Abort,
    writer: &DynamicWriter<P>,
    bytes: &[u8],
    answer: Result<usize, TryWriteError>,
) {
    holds!(*rt; writer.try_write(bytes) == answer);
}

// Up to the wrap of a pipe of three bytes, and across it.
fn goes_round<P: DynamicPipe + Drop>(
    rt: &impl Abort,
    reader: &mut DynamicReader<P>,
    writer: &DynamicWriter<P>,
) {
    writes(rt, writer, &[42, 43], Ok(2));
    fills(rt, reader, &[42, 43]);
    fills(rt, reader, &[42, 43]);
    consumes(rt, reader, 1);
    fills(rt, reader, &[43]);
    consumes(rt, reader, 1);
    fills(rt, reader, &[]);
    writes(rt, writer, &[44, 45, 46], Ok(3));
    writes(rt, writer, &[45, 46], Err(TryWriteError::Full));
    fills(rt, reader, &[44]);
    consumes(rt, reader, 1);
    fills(rt, reader, &[45, 46]);
    writes(rt, writer, &[47], Ok(1));
    fills(rt, reader, &[45, 46, 47]);
    consumes(rt, reader, 3);
}

#[test]
fn dynamic_dispatch_pipe(rt: HostRuntime) -> Result<(), AllocError> {
    let shared: Pipe<TaskId, _, 3> = pipe(rt);
    let pipe: &dyn DynamicPipe = &shared;
    let mut reader: DynamicReader<&dyn DynamicPipe> = DynamicReader::new(rt.alloc(), pipe)?;
    let writer: DynamicWriter<&dyn DynamicPipe> = DynamicWriter::new(pipe);
    goes_round(&rt, &mut reader, &writer);
    same!(rt; shared.len(), 0);
    Ok(())
}

// A future that writes acts anew, and finds no room any more.
fn writes_anew<P: DynamicPipe>(rt: &impl Abort, writer: &DynamicWriter<P>) {
    let two = Context::from_waker(TaskId(2));
    let mut write = writer.write(&[1, 2, 3]);
    holds!(*rt; write.poll(&two) == Poll::Ready(2));
    holds!(*rt; write.poll(&two) == Poll::Pending);
    holds!(*rt; writer.try_write(&[3]) == Err(TryWriteError::Full));
}

// A future that reads waits for bytes, unless there are these two, and acts anew.
fn reads_anew<P: DynamicPipe + Drop>(rt: &impl Abort, reader: &mut DynamicReader<P>) {
    let one = Context::from_waker(TaskId(1));
    let mut to = [0; 4];
    let mut read = reader.read(&mut to);
    holds!(*rt; read.poll(&one) == Poll::Ready(2));
    holds!(*rt; read.poll(&one) == Poll::Pending);
    drop(read);
    same!(*rt; to, [1, 2, 0, 0]);
}

// A future that fills waits for a byte and acts anew, and a read forgets the byte.
fn fills_anew<P: DynamicPipe + Drop>(
    rt: &impl Abort,
    reader: &mut DynamicReader<P>,
    writer: &DynamicWriter<P>,
) {
    let one = Context::from_waker(TaskId(1));
    let mut fill = reader.fill_buf();
    holds!(*rt; fill.poll(&one) == Poll::Pending);
    holds!(*rt; writer.try_write(&[4]) == Ok(1));
    holds!(*rt; fill.poll(&one) == Poll::Ready(()));
    holds!(*rt; fill.poll(&one) == Poll::Ready(()));
    drop(fill);
    same!(*rt; reader.filled(), [4].as_slice());
    drop(reader.read(&mut [0; 1]));
    same!(*rt; reader.filled().len(), 0);
}

#[test]
fn the_futures_of_any_pipe_act_anew(rt: HostRuntime) -> Result<(), AllocError> {
    let shared: Pipe<TaskId, _, 2> = pipe(rt);
    let pipe: &dyn DynamicPipe = &shared;
    let mut reader: DynamicReader<&dyn DynamicPipe> = DynamicReader::new(rt.alloc(), pipe)?;
    let writer: DynamicWriter<&dyn DynamicPipe> = DynamicWriter::new(pipe);
    fills_anew(&rt, &mut reader, &writer);
    shared.clear();
    writes_anew(&rt, &writer);
    reads_anew(&rt, &mut reader);
    Ok(())
}
