use super::bell::Bell;
use embassy_sync::channel::Channel;
use embassy_sync::waitqueue::Context;
use std::io;
use std::sync::Wait;

/// A bounded channel of 3 u32s. A task waits for a message, and is woken when one comes.
pub fn example<R: Print + Wait>(rt: &R) -> io::Result<()> {
    let bell = Bell::new(rt);
    let channel: Channel<u32, u64, _, 3> = Channel::new(&bell);
    let (sender, receiver) = (channel.sender(), channel.receiver());
    let task = Context::from_waker(1);
    let mut receiving = receiver.receive();
    let first = receiving.poll(&task);
    let sent = sender.send(7).poll(&Context::from_waker(2));
    let woken = bell.rung_for();
    let second = receiving.poll(&task);
    println!(rt; "channel: {first:?}, {sent:?}, to wake {woken:?}, {second:?}")
}
