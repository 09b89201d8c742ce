use esync_base::waitqueue::{Context, Hand, Poll};
use esync_notes::{Notes, holds, same, woken};
use esync_zerocopy::zerocopy_channel::{Channel, Slot, SlotLoan};
use std::process::Abort;
use std::test::Fail;

fn lent<'a, H: Hand<u64>>(
    rt: &impl Abort,
    tried: Option<SlotLoan<'a, u32, u64, H>>,
) -> SlotLoan<'a, u32, u64, H> {
    match tried {
        Some(slot) => slot,
        None => rt.abort(),
    }
}

// A script doesn't show the sender what is in its slot.
#[test]
fn what_was_written_stays_when_a_slot_is_lent_again(rt: HostRuntime) -> Result<(), Fail> {
    let notes = Notes::new(&rt);
    let mut channel = Channel::new(
        vec![in rt.alloc(); Slot::new(8u32), Slot::new(9u32)]?,
        &notes,
    );
    let (mut sender, mut receiver) = channel.split();
    let mut slot = lent(&rt, sender.try_send());
    same!(rt; *slot.get(), 8);
    *slot.get_mut() = 5;
    slot.end();
    let slot = lent(&rt, sender.try_send());
    same!(rt; *slot.get(), 5);
    slot.done();
    let slot = lent(&rt, sender.try_send());
    same!(rt; *slot.get(), 9);
    drop(slot);
    same!(rt; *lent(&rt, receiver.try_receive()).get(), 5);
    Ok(())
}

// A script has the two sides alone.
#[test]
fn a_channel_that_is_cleared_whole_wakes_the_sender(rt: HostRuntime) -> Result<(), Fail> {
    let notes = Notes::new(&rt);
    let mut channel = Channel::new(vec![in rt.alloc(); Slot::new(4u32)]?, &notes);
    same!(rt;
        (channel.len(), channel.free_capacity(), channel.capacity()),
        (0, 1, 1)
    );
    holds!(rt; channel.is_empty() && !channel.is_full());
    let (mut sender, _receiver) = channel.split();
    sender.send_done();
    holds!(rt; matches!(sender.poll_send(&Context::from_waker(7)), Poll::Pending));
    woken!(&rt, &notes, &[]);
    channel.clear();
    woken!(&rt, &notes, &[7]);
    same!(rt; (channel.len(), channel.free_capacity()), (0, 1));
    Ok(())
}
