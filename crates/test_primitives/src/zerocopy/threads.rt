use esync_base::waitqueue::Hand;
use esync_notes::{holds, same};
use esync_zerocopy::zerocopy_channel::{Channel, Receiver, Sender, Slot};
use std::sync::Wait;
use std::sync::atomic::{AtomicU32, Ordering};
use std::test::Fail;
use std::thread;

// A hand for threads, which wakes nobody.
#[derive(Drop)]
struct Nobody<'a, R> {
    rt: &'a R,
}

impl<R: Wait> Hand<u64> for Nobody<'_, R> {
    type Rt = R;

    fn rt(&self) -> &R {
        self.rt
    }

    fn wake(&self, _waker: u64) {}
}

fn send_one<H: Hand<u64>>(rt: &impl Wait, sender: &mut Sender<'_, u32, u64, H>, message: u32) {
    for _ in rt.forever() {
        if let Some(mut slot) = sender.try_send() {
            *slot.get_mut() = message;
            slot.done();
            return;
        }
    }
}

fn receive_one<H: Hand<u64>>(rt: &impl Wait, receiver: &mut Receiver<'_, u32, u64, H>) -> u32 {
    let mut message = 0;
    for _ in rt.forever() {
        if let Some(slot) = receiver.try_receive() {
            message = *slot.get();
            slot.done();
            break;
        }
    }
    message
}

const MESSAGES: u32 = 10_000;

fn sends<H: Hand<u64>>(rt: &impl Wait, sender: Sender<'_, u32, u64, H>) {
    let mut sender = sender;
    for message in 0..MESSAGES {
        send_one(rt, &mut sender, message);
    }
}

// Whether the messages come in order.
fn receives<H: Hand<u64>>(rt: &impl Wait, receiver: Receiver<'_, u32, u64, H>) -> bool {
    let mut receiver = receiver;
    for message in 0..MESSAGES {
        if receive_one(rt, &mut receiver) != message {
            return false;
        }
    }
    true
}

#[test]
fn messages_come_in_order_between_threads(rt: HostRuntime) -> Result<(), Fail> {
    let mut channel = Channel::new(
        vec![in rt.alloc(); Slot::new(0u32), Slot::new(0u32)]?,
        Nobody { rt: &rt },
    );
    let (sender, receiver) = channel.split();
    let (_, in_order) = thread::join(&rt, || sends(&rt, sender), || receives(&rt, receiver));
    holds!(rt; in_order);
    holds!(rt; channel.is_empty());
    Ok(())
}

// Waits until a slot is spare. Whether it is then lent at once.
fn is_lent_where_spare<H: Hand<u64>>(rt: &impl Wait, sender: &mut Sender<'_, u32, u64, H>) -> bool {
    for _ in rt.forever() {
        if sender.free_capacity() > 0 {
            break;
        }
    }
    sender.try_send().is_some()
}

// The same of a slot that is held.
fn is_lent_where_held<H: Hand<u64>>(
    rt: &impl Wait,
    receiver: &mut Receiver<'_, u32, u64, H>,
) -> bool {
    for _ in rt.forever() {
        if receiver.len() > 0 {
            break;
        }
    }
    receiver.try_receive().is_some()
}

// Sends each message once a slot is spare. Whether each such slot was lent at once.
fn sends_where_spare<H: Hand<u64>>(rt: &impl Wait, sender: Sender<'_, u32, u64, H>) -> bool {
    let mut sender = sender;
    let mut are_lent = true;
    for message in 0..MESSAGES {
        if !is_lent_where_spare(rt, &mut sender) {
            are_lent = false;
        }
        send_one(rt, &mut sender, message);
    }
    are_lent
}

// Receives as many. Whether each held slot was lent at once.
fn receives_where_held<H: Hand<u64>>(rt: &impl Wait, receiver: Receiver<'_, u32, u64, H>) -> bool {
    let mut receiver = receiver;
    let mut are_lent = true;
    for _message in 0..MESSAGES {
        if !is_lent_where_held(rt, &mut receiver) {
            are_lent = false;
        }
        let _ = receive_one(rt, &mut receiver);
    }
    are_lent
}

#[test]
fn a_slot_that_is_shown_is_lent_at_once(rt: HostRuntime) -> Result<(), Fail> {
    let mut channel = Channel::new(vec![in rt.alloc(); Slot::new(0u32)]?, Nobody { rt: &rt });
    let (sender, receiver) = channel.split();
    let lent = thread::join(
        &rt,
        || sends_where_spare(&rt, sender),
        || receives_where_held(&rt, receiver),
    );
    same!(rt; lent, (true, true));
    Ok(())
}

const SENT: u32 = 1;

const LENT: u32 = 2;

fn awaits(rt: &impl Wait, step: &AtomicU32, wanted: u32) {
    for _ in rt.forever() {
        if step.load(Ordering::SeqCst) == wanted {
            break;
        }
    }
}

// Sends, waits until the slot is lent, and clears until that is done. Whether each time a slot was then lent at once.
fn clears<H: Hand<u64>>(rt: &impl Wait, sender: Sender<'_, u32, u64, H>, step: &AtomicU32) -> bool {
    let mut sender = sender;
    let mut are_lent = true;
    for _round in 0..MESSAGES {
        sender.send_done();
        step.store(SENT, Ordering::SeqCst);
        awaits(rt, step, LENT);
        for _ in rt.forever() {
            if sender.clear().is_ok() {
                break;
            }
        }
        if sender.try_send().is_none() {
            are_lent = false;
        }
    }
    are_lent
}

// Is lent what was sent, says so, and ends the loan.
fn ends_loans<H: Hand<u64>>(rt: &impl Wait, receiver: Receiver<'_, u32, u64, H>, step: &AtomicU32) {
    let mut receiver = receiver;
    for _round in 0..MESSAGES {
        awaits(rt, step, SENT);
        let slot = receiver.try_receive();
        step.store(LENT, Ordering::SeqCst);
        if let Some(slot) = slot {
            slot.end();
        }
    }
}

#[test]
fn a_slot_whose_loan_has_ended_is_lent_after_a_clear(rt: HostRuntime) -> Result<(), Fail> {
    let step = AtomicU32::new(0);
    let mut channel = Channel::new(vec![in rt.alloc(); Slot::new(0u32)]?, Nobody { rt: &rt });
    let (sender, receiver) = channel.split();
    let (are_lent, _) = thread::join(
        &rt,
        || clears(&rt, sender, &step),
        || ends_loans(&rt, receiver, &step),
    );
    holds!(rt; are_lent);
    Ok(())
}
