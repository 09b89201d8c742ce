use embassy_sync::channel::ChannelState;
use embassy_sync::waitqueue::{Context, Poll, Wakes};
use std::io;

/// A channel without a lock. What each call returns and which tasks it wakes is known before the program runs: each
/// `prove!` is proved.
pub fn example(rt: &impl Print) -> io::Result<()> {
    let mut channel: ChannelState<u32, u64, 1> = ChannelState::new();

    // A receiver finds nothing, and its waker 1 is registered.
    let mut wakes: Wakes<u64, 1> = Wakes::new();
    let waits = channel.poll_receive(&Context::from_waker(1), &mut wakes);
    prove!(waits == Poll::Pending);
    prove!(wakes.is_empty());

    // A message goes in, and waker 1 is handed out.
    let sent = channel.try_send(7, &mut wakes);
    prove!(sent == Ok(()));
    prove!(wakes.len() == 1);
    let first = wakes.get(0);
    prove!(first == Some(1));
    println!(rt; "to wake: {first:?}")?;

    // Polled again, the receiver reads the message.
    let mut wakes: Wakes<u64, 1> = Wakes::new();
    let comes = channel.poll_receive(&Context::from_waker(1), &mut wakes);
    prove!(comes == Poll::Ready(7));
    println!(rt; "received: {comes:?}")
}
