use super::bell::Bell;
use embassy_sync::waitqueue::{Context, Poll};
use embassy_sync::zerocopy_channel::{Channel, Slot};
use std::alloc::Global;
use std::io;
use std::sync::Wait;

/// A channel of 2 buffers, which are written and read where they stand.
pub fn example<R: Print + Wait>(rt: &R, alloc: Global) -> io::Result<()> {
    let bell = Bell::new(rt);
    let Ok(slots) = vec![in alloc; Slot::new([0u8; 4]), Slot::new([0u8; 4])] else {
        return println!(rt; "zerocopy_channel: no memory");
    };
    let mut channel = Channel::new(slots, &bell);
    let (mut sender, mut receiver) = channel.split();
    let task = Context::from_waker(1);
    let waits = matches!(receiver.receive().poll(&task), Poll::Pending);
    if let Poll::Ready(mut slot) = sender.send().poll(&Context::from_waker(2)) {
        *slot.get_mut() = [1, 2, 3, 4];
        slot.done();
    }
    let woken = bell.rung_for();
    match receiver.receive().poll(&task) {
        Poll::Ready(slot) => {
            let bytes = *slot.get();
            slot.done();
            println!(rt; "zerocopy_channel: waits {waits}, to wake {woken:?}, {bytes:?}")
        }
        Poll::Pending => println!(rt; "zerocopy_channel: no buffer"),
    }
}
