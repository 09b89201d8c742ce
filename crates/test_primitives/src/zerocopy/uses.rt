//! What a program can prove of a shared channel: what was last written through a loan is what is read, and how many slots there are.
ghost use Rattle.std.specs.Prelude.{◌≡◌, [], ◌∷◌, IfSome, IfOk};

use esync_base::waitqueue::Hand;
use esync_zerocopy::zerocopy_channel::{Channel, Receiver, Sender, Slot};
use std::alloc::{AllocError, Global};

/// Writes the next spare slot, reads it, and sends it.
pub fn sends_seven<H: Hand<u64>>(sender: &mut Sender<'_, u32, u64, H>) -> Option<u32>
    ensures { IfSome result (λ read. read ≡ 7) }
{
    let mut slot = sender.try_send()?;
    *slot.get_mut() = 7;
    let read = *slot.get();
    slot.done();
    Some(read)
}

/// Reads the oldest held slot twice. Nobody else writes it in between.
pub fn reads_twice<H: Hand<u64>>(receiver: &mut Receiver<'_, u32, u64, H>) -> Option<(u32, u32)>
    ensures { IfSome result (λ reads. reads.1 ≡ reads.0) }
{
    let slot = receiver.try_receive()?;
    let first = *slot.get();
    let second = *slot.get();
    slot.end();
    Some((first, second))
}

/// Makes a channel of two slots. It tells a capacity of 2: before it is split, by its two sides, also where these are lent,
/// and after they have ended.
pub fn tells_two<H: Hand<u64> + Drop>(alloc: Global, hand: H) -> Result<[usize; 4], AllocError>
    ensures { IfOk result (λ told. told ≡ 2 ∷ 2 ∷ 2 ∷ 2 ∷ []) }
{
    let slots = vec![in alloc; Slot::new(8u32), Slot::new(9u32)]?;
    let mut channel = Channel::new(slots, hand);
    let before = channel.capacity();
    let (mut sender, mut receiver) = channel.split();
    let (sending, receiving) = (sender.borrow().capacity(), receiver.borrow().capacity());
    Ok([before, sending, receiving, channel.capacity()])
}

/// Makes a channel of two slots, whose sides send, receive, clear and are lent. Each tells a capacity of 2 afterwards.
pub fn still_tells_two<H: Hand<u64> + Drop>(
    alloc: Global,
    hand: H,
) -> Result<[usize; 4], AllocError>
    ensures { IfOk result (λ told. told ≡ 2 ∷ 2 ∷ 2 ∷ 2 ∷ []) }
{
    let slots = vec![in alloc; Slot::new(8u32), Slot::new(9u32)]?;
    let mut channel = Channel::new(slots, hand);
    let (mut sender, mut receiver) = channel.split();
    sender.send_done();
    let sending = sender.borrow().capacity();
    let _ = sender.clear();
    receiver.receive_done();
    let receiving = receiver.borrow().capacity();
    let _ = receiver.clear();
    Ok([sending, receiving, sender.capacity(), receiver.capacity()])
}
