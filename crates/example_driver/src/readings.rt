//! A driver puts the readings of a sensor into a channel. If it is full, the oldest reading leaves, so the newest one
//! is never lost. That is the driver's contract, and it is proved from the channel's.

ghost use Rattle.std.specs.Prelude.{◌≡◌, ◌<◌, [], ◌∷◌, ◌++◌, length};
ghost use Rattle.example_driver.specs.Readings.{with_room};

use embassy_sync::channel::ChannelState;
use embassy_sync::waitqueue::{Context, Poll, Wakes};
use std::io;

type Readings = ChannelState<u16, u64, 2>;

// If two readings are there, the oldest leaves. Only the driver sends, so no task waits for room, and none is woken.
fn make_room(readings: &mut Readings, wakes: &mut Wakes<u64, 1>)
    requires empty { wakes.old ≡ [] }
    requires alone { readings.old.slots.senders ≡ [] }
    ensures items { readings.new.store.items ≡ with_room 2 readings.old.store.items }
    ensures room { length readings.new.store.items < 2 }
    ensures slots { readings.new.slots ≡ readings.old.slots }
    ensures wakes { wakes.new ≡ [] }
{
    if readings.free_capacity() == 0 {
        let _oldest = readings.try_receive(wakes);
    }
}

/// Puts the reading in, behind those that are there. In a full channel the oldest reading leaves first. Hands out the
/// waker that waits for a reading.
fn deliver(readings: &mut Readings, reading: u16, wakes: &mut Wakes<u64, 1>)
    requires empty { wakes.old ≡ [] }
    requires alone { readings.old.slots.senders ≡ [] }
    ensures newest { readings.new.store.items ≡ with_room 2 readings.old.store.items ++ reading ∷ [] }
    ensures alone { readings.new.slots.senders ≡ [] }
    ensures woken { wakes.new ≡ readings.old.slots.receivers }
{
    make_room(readings, wakes);
    let _sent = readings.try_send(reading, wakes);
}

pub fn example(rt: &impl Print) -> io::Result<()> {
    let mut readings = Readings::new();
    deliver(&mut readings, 20, &mut Wakes::new());
    deliver(&mut readings, 21, &mut Wakes::new());
    deliver(&mut readings, 22, &mut Wakes::new());
    let mut wakes: Wakes<u64, 1> = Wakes::new();
    let first = readings.poll_receive(&Context::from_waker(1), &mut wakes);
    prove!(first == Poll::Ready(21));
    let second = readings.poll_receive(&Context::from_waker(1), &mut wakes);
    prove!(second == Poll::Ready(22));
    println!(rt; "{first:?} {second:?}")
}
