//! A loan ends in two steps: its value goes back into the slot, and then the state is told. Here another thread polls the
//! same request in between, each time and not by luck: the hand stops the end of the loan before the state's lock, until
//! the other thread has polled.
use crate::stopping::{ENDED, Marks, RUNS, STANDS, STOPS, Stopping};
use esync_base::waitqueue::{Context, Hand, Poll};
use esync_notes::{holds, same};
use esync_zerocopy::zerocopy_channel::{
    Channel, Receiver, Sender, Slot, SlotLent, SlotLoan, ZeroRequest,
};
use std::alloc::{AllocError, Global};
use std::sync::atomic::Ordering;
use std::sync::{Mutex, Wait};
use std::test::Fail;
use std::thread;

// The waker of the first poll, which is lent a slot.
const FIRST: u64 = 1;

// The waker of the poll between the two steps.
const BETWEEN: u64 = 100;

// The waker of the poll after them.
const AFTER: u64 = 10_000;

// A channel of two slots, whose hand stops calls.
fn of_two<'h, R: Wait>(
    alloc: Global,
    rt: &'h R,
    marks: &'h Marks,
) -> Result<Channel<u32, u64, Stopping<'h, R>>, AllocError> {
    let slots = vec![in alloc; Slot::new(0u32), Slot::new(0u32)]?;
    Ok(Channel::new(slots, Stopping { rt, marks }))
}

// A request that two threads poll in turns.
type Request<'a, H> = Mutex<ZeroRequest<'a, u32, u64, H>>;

type Lent<'a, H> = SlotLoan<'a, u32, u64, H>;

// Polls the request. Returns its loan, if it is lent a slot.
fn lent<'a, H: Hand<u64>>(
    rt: &impl Wait,
    request: &Request<'a, H>,
    waker: u64,
) -> Option<Lent<'a, H>> {
    match request.lock(rt).poll(&Context::from_waker(waker)) {
        Poll::Ready(loan) => Some(loan),
        Poll::Pending => None,
    }
}

// Writes a message into the slot, if it is lent.
fn writes<H: Hand<u64>>(loan: &mut Option<Lent<'_, H>>, message: u32) {
    if let Some(loan) = loan {
        *loan.get_mut() = message;
    }
}

// Reads the message of the slot, if it is lent.
fn reads<H: Hand<u64>>(loan: &Option<Lent<'_, H>>) -> Option<u32> {
    match loan {
        Some(loan) => Some(*loan.get()),
        None => None,
    }
}

// Is done with the slot, if it is lent.
fn done<H: Hand<u64>>(loan: Option<Lent<'_, H>>) {
    if let Some(loan) = loan {
        loan.done();
    }
}

// Sends 11, and is stopped between the two steps of the loan's end.
fn sends_first<H: Hand<u64>>(rt: &impl Wait, marks: &Marks, request: &Request<'_, H>) {
    let mut loan = lent(rt, request, FIRST);
    writes(&mut loan, 11);
    marks.set(STOPS);
    done(loan);
    marks.set(ENDED);
}

// Reads a message and gives its slot back, and is stopped between the two steps of the loan's end.
fn reads_first<H: Hand<u64>>(
    rt: &impl Wait,
    marks: &Marks,
    request: &Request<'_, H>,
) -> Option<u32> {
    let loan = lent(rt, request, FIRST);
    let message = reads(&loan);
    marks.set(STOPS);
    done(loan);
    marks.set(ENDED);
    message
}

// Is lent a slot, and is stopped between the two steps of the loan's end.
fn ends_first<H: Hand<u64>>(rt: &impl Wait, marks: &Marks, request: &Request<'_, H>) {
    let loan = lent(rt, request, FIRST);
    marks.set(STOPS);
    drop(loan);
    marks.set(ENDED);
}

// Polls between the two steps, and once they are over if no slot was lent before. Returns the loan, if there is one, and
// whether it was lent between the two steps.
fn lent_later<'a, H: Hand<u64>>(
    rt: &impl Wait,
    marks: &Marks,
    request: &Request<'a, H>,
) -> (Option<Lent<'a, H>>, bool) {
    marks.awaits(rt, STANDS);
    let between = lent(rt, request, BETWEEN);
    let is_lent = between.is_some();
    marks.set(RUNS);
    marks.awaits(rt, ENDED);
    match between {
        Some(loan) => (Some(loan), is_lent),
        None => (lent(rt, request, AFTER), is_lent),
    }
}

// Sends 12 by the later loan. Returns whether it was lent between the two steps.
fn sends_later<H: Hand<u64>>(rt: &impl Wait, marks: &Marks, request: &Request<'_, H>) -> bool {
    let (mut loan, is_lent) = lent_later(rt, marks, request);
    writes(&mut loan, 12);
    done(loan);
    is_lent
}

// Reads a message by the later loan.
fn reads_later<H: Hand<u64>>(
    rt: &impl Wait,
    marks: &Marks,
    request: &Request<'_, H>,
) -> Option<u32> {
    let (loan, _) = lent_later(rt, marks, request);
    let message = reads(&loan);
    done(loan);
    message
}

// Clears from the receiver's side, between the two steps and under the later loan. Returns both answers.
fn clears_later<H: Hand<u64>>(
    rt: &impl Wait,
    marks: &Marks,
    request: &Request<'_, H>,
    receiver: Receiver<'_, u32, u64, H>,
) -> (Result<(), SlotLent>, Result<(), SlotLent>) {
    let mut receiver = receiver;
    marks.awaits(rt, STANDS);
    let between = receiver.clear();
    let (loan, _) = lent_later(rt, marks, request);
    let under = receiver.clear();
    drop(loan);
    (between, under)
}

// Receives a message, if there is one now.
fn received<H: Hand<u64>>(receiver: &mut Receiver<'_, u32, u64, H>) -> Option<u32> {
    let slot = receiver.try_receive()?;
    let message = *slot.get();
    slot.done();
    Some(message)
}

// Sends a message, if there is a slot for it now.
fn sends<H: Hand<u64>>(sender: &mut Sender<'_, u32, u64, H>, message: u32) {
    if let Some(mut slot) = sender.try_send() {
        *slot.get_mut() = message;
        slot.done();
    }
}

#[test]
fn a_poll_between_the_two_steps_waits_and_is_told_to_poll_again(
    rt: HostRuntime,
) -> Result<(), Fail> {
    let marks = Marks::new();
    let mut channel = of_two(rt.alloc(), &rt, &marks)?;
    let (mut sender, _receiver) = channel.split();
    let request = Mutex::new(sender.send());
    let (is_lent, _) = thread::join(
        &rt,
        || sends_later(&rt, &marks, &request),
        || sends_first(&rt, &marks, &request),
    );
    holds!(rt; !is_lent);
    same!(rt; marks.given.load(Ordering::SeqCst), BETWEEN);
    Ok(())
}

#[test]
fn both_messages_arrive_where_a_request_is_polled_while_its_loan_ends(
    rt: HostRuntime,
) -> Result<(), Fail> {
    let marks = Marks::new();
    let mut channel = of_two(rt.alloc(), &rt, &marks)?;
    let (mut sender, mut receiver) = channel.split();
    let request = Mutex::new(sender.send());
    thread::join(
        &rt,
        || sends_later(&rt, &marks, &request),
        || sends_first(&rt, &marks, &request),
    );
    same!(rt; (received(&mut receiver), received(&mut receiver)), (Some(11), Some(12)));
    Ok(())
}

#[test]
fn no_message_is_read_twice_where_a_request_is_polled_while_its_loan_ends(
    rt: HostRuntime,
) -> Result<(), Fail> {
    let marks = Marks::new();
    let mut channel = of_two(rt.alloc(), &rt, &marks)?;
    let (mut sender, mut receiver) = channel.split();
    sends(&mut sender, 11);
    sends(&mut sender, 12);
    let request = Mutex::new(receiver.receive());
    let (second, first) = thread::join(
        &rt,
        || reads_later(&rt, &marks, &request),
        || reads_first(&rt, &marks, &request),
    );
    same!(rt; (first, second), (Some(11), Some(12)));
    Ok(())
}

#[test]
fn no_channel_is_cleared_under_a_loan_that_follows_one_that_ends(
    rt: HostRuntime,
) -> Result<(), Fail> {
    let marks = Marks::new();
    let mut channel = of_two(rt.alloc(), &rt, &marks)?;
    let (mut sender, receiver) = channel.split();
    let request = Mutex::new(sender.send());
    let (cleared, _) = thread::join(
        &rt,
        || clears_later(&rt, &marks, &request, receiver),
        || ends_first(&rt, &marks, &request),
    );
    same!(rt; cleared, (Err(SlotLent), Err(SlotLent)));
    Ok(())
}
