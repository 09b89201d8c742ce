use super::bell::Bell;
use embassy_sync::priority_channel::{Max, PriorityChannel};
use std::io;
use std::sync::Wait;

/// A bounded channel of 3 u32s, of which the greatest leaves first.
pub fn example<R: Print + Wait>(rt: &R) -> io::Result<()> {
    let bell = Bell::new(rt);
    let channel: PriorityChannel<u32, u64, Max, _, 3> = PriorityChannel::new(&bell);
    let sent = (
        channel.try_send(2),
        channel.try_send(9),
        channel.try_send(4),
    );
    let full = channel.try_send(1);
    let first = channel.try_receive();
    println!(rt; "priority_channel: {sent:?}, {full:?}, {first:?}")
}
