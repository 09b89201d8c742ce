// Each future of the shared forms, blocked on by a thread.
use esync_base::waitqueue::{Hand, TaskId};
use esync_cells::once_lock::OnceLock;
use esync_cells::signal::Signal;
use esync_cells::watch::{Rcv, Snd, Watch, WatchBehavior};
use esync_channel::channel::Channel;
use esync_guards::mutex::Mutex;
use esync_notes::{Deaf, holds, same};
use esync_permits::semaphore::{FairSemaphore, GreedySemaphore, PermitState, SharedSemaphore};
use esync_pipe::pipe::{DynamicPipe, DynamicReader, DynamicWriter, Pipe};
use esync_pubsub::pubsub::{PubSubChannel, WaitResult};
use esync_tasks::parking::{Parking, Seat};
use esync_zerocopy::zerocopy_channel::{self, Slot};
use std::alloc::AllocError;
use std::sync::Wait;
use std::test::Fail;

#[test]
fn a_signal(rt: HostRuntime) {
    let parking: Parking<'_, HostRuntime, 1> = Parking::new(&rt);
    let mut seat = parking.seat(0).expect(&rt, "the seat is free");
    let signal = Signal::new(&parking);
    signal.signal(7);
    let wait = signal.wait();
    same!(rt; seat.block_on(wait), 7);
}

#[test]
fn a_once_lock(rt: HostRuntime) {
    let parking: Parking<'_, HostRuntime, 1> = Parking::new(&rt);
    let mut seat = parking.seat(0).expect(&rt, "the seat is free");
    let lock: OnceLock<u32, TaskId, _> = OnceLock::new(&parking);
    let _ = lock.init(7);
    let value = seat.block_on(lock.get());
    same!(rt; *value, 7);
}

#[test]
fn a_message(rt: HostRuntime) {
    let parking: Parking<'_, HostRuntime, 1> = Parking::new(&rt);
    let mut seat = parking.seat(0).expect(&rt, "the seat is free");
    let channel: Channel<u32, TaskId, _, 1> = Channel::new(&parking);
    seat.block_on(channel.send(1));
    seat.block_on(channel.ready_to_receive());
    same!(rt; seat.block_on(channel.receive()), 1);
    seat.block_on(channel.dyn_sender().send(2));
    same!(rt; seat.block_on(channel.dyn_receiver().receive()), 2);
}

fn read_watch<R: Wait, B: WatchBehavior<Value = u32, Waker = TaskId>>(
    seat: &mut Seat<'_, R>,
    sender: &Snd<'_, B>,
    receiver: &mut Rcv<'_, B>,
) -> Result<[u32; 4], AllocError> {
    let _ = sender.send(1);
    let got = seat.block_on(receiver.get())?;
    let got_and = seat.block_on(receiver.get_and(|value: &u32| *value > 0))?;
    let _ = sender.send(2);
    let changed = seat.block_on(receiver.changed())?;
    let _ = sender.send(3);
    let changed_and = seat.block_on(receiver.changed_and(|value: &u32| *value > 1))?;
    Ok([got, got_and, changed, changed_and])
}

#[test]
fn a_watch(rt: HostRuntime) -> Result<(), Fail> {
    let parking: Parking<'_, HostRuntime, 1> = Parking::new(&rt);
    let mut seat = parking.seat(0).expect(&rt, "the seat is free");
    let watch: Watch<u32, TaskId, _, 1> = Watch::new(&parking);
    let mut receiver = watch.receiver().expect(&rt, "a receiver has room");
    let values = read_watch(&mut seat, &watch.sender(), &mut receiver)?;
    same!(rt; values, [1, 1, 2, 3]);
    Ok(())
}

#[test]
fn a_mutex(rt: HostRuntime) {
    let parking: Parking<'_, HostRuntime, 1> = Parking::new(&rt);
    let mut seat = parking.seat(0).expect(&rt, "the seat is free");
    let mutex: Mutex<u32, TaskId, _> = Mutex::new(7, &parking);
    let guard = seat.block_on(mutex.lock());
    same!(rt; *guard.get(), 7);
    guard.end();
}

fn take_permits<R: Wait, S: PermitState<Waker = TaskId>, H: Hand<TaskId>>(
    seat: &mut Seat<'_, R>,
    pool: &SharedSemaphore<S, TaskId, H>,
) -> Option<usize> {
    match seat.block_on(pool.acquire(1)) {
        Ok(releaser) => Some(releaser.disarm()),
        Err(_) => None,
    }
}

#[test]
fn permits(rt: HostRuntime) {
    let parking: Parking<'_, HostRuntime, 1> = Parking::new(&rt);
    let mut seat = parking.seat(0).expect(&rt, "the seat is free");
    let greedy: GreedySemaphore<TaskId, _> = GreedySemaphore::new(1, &parking);
    same!(rt; take_permits(&mut seat, &greedy), Some(1));
    let fair: FairSemaphore<TaskId, _, 1> = FairSemaphore::new(1, &parking);
    same!(rt; take_permits(&mut seat, &fair), Some(1));
}

#[test]
fn bytes_of_a_pipe(rt: HostRuntime) {
    let parking: Parking<'_, HostRuntime, 1> = Parking::new(&rt);
    let mut seat = parking.seat(0).expect(&rt, "the seat is free");
    let mut pipe: Pipe<TaskId, _, 2> = Pipe::new(&parking);
    let mut bytes = [0u8; 1];
    same!(rt; seat.block_on(pipe.write(b"a")), 1);
    seat.block_on(pipe.write_all(b"b"));
    same!(rt; seat.block_on(pipe.read(&mut bytes)), 1);
    same!(rt; bytes, *b"a");
    let (mut reader, _writer) = pipe.split();
    seat.block_on(reader.fill_buf());
    same!(rt; reader.filled().len(), 1);
}

fn pipe<R: Wait + Drop>(_rt: R) -> Pipe<TaskId, Deaf<R>, 2> {
    Pipe::new(Deaf::default())
}

// The futures are ready at once, so that nobody is woken.
#[test]
fn bytes_of_any_pipe(rt: HostRuntime) -> Result<(), Fail> {
    let parking: Parking<'_, HostRuntime, 1> = Parking::new(&rt);
    let mut seat = parking.seat(0).expect(&rt, "the seat is free");
    let pipe: Pipe<TaskId, _, 2> = pipe(rt);
    let any: &dyn DynamicPipe = &pipe;
    let writer = DynamicWriter::new(any);
    let mut reader = DynamicReader::new(rt.alloc(), any)?;
    let mut bytes = [0u8; 1];
    same!(rt; seat.block_on(writer.write(b"ab")), 2);
    same!(rt; seat.block_on(reader.read(&mut bytes)), 1);
    seat.block_on(reader.fill_buf());
    same!(rt; reader.filled().len(), 1);
    Ok(())
}

#[test]
fn messages_for_subscribers(rt: HostRuntime) -> Result<(), Fail> {
    let parking: Parking<'_, HostRuntime, 1> = Parking::new(&rt);
    let mut seat = parking.seat(0).expect(&rt, "the seat is free");
    let channel: PubSubChannel<u32, TaskId, _, 2, 1, 1, 1> = PubSubChannel::new(&parking);
    let publisher = channel.publisher().expect(&rt, "a publisher has room");
    let mut subscriber = channel.subscriber().expect(&rt, "a subscriber has room");
    holds!(rt; seat.block_on(publisher.publish(8)).is_ok());
    holds!(rt; seat.block_on(publisher.publish(9)).is_ok());
    same!(rt; seat.block_on(subscriber.next_message())?, WaitResult::Message(8));
    same!(rt; seat.block_on(subscriber.next_message_pure())?, 9);
    Ok(())
}

#[test]
fn a_slot(rt: HostRuntime) -> Result<(), Fail> {
    let parking: Parking<'_, HostRuntime, 1> = Parking::new(&rt);
    let mut seat = parking.seat(0).expect(&rt, "the seat is free");
    let slots = vec![in rt.alloc(); Slot::new(0u32)]?;
    let mut channel = zerocopy_channel::Channel::new(slots, &parking);
    let (mut sender, mut receiver) = channel.split();
    let mut slot = seat.block_on(sender.send());
    *slot.get_mut() = 7;
    slot.done();
    let slot = seat.block_on(receiver.receive());
    same!(rt; *slot.get(), 7);
    slot.done();
    Ok(())
}
