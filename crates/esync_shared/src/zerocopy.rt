//! The zero-copy channel, called by its two sides.
//!
//! A loan borrows its side, so no loan can be kept while the script makes further calls of that side. Each line ends
//! its loan, which leaves the slot the side's next one. The loan is made anew where it matters: while the opposite side
//! makes a call, and when the slot is written or done with.
use crate::form::{Answered, Door, Doors, Form, Sizes, sizes};
use esync_base::waitqueue::{Context, Hand, Poll};
use esync_machine::primitive::Answer;
use esync_script::capacity::Capacity;
use esync_script::zerocopy::ZeroWords;
use esync_zerocopy::zerocopy_channel::machine::{Lent, ZeroCall, ZeroHeard};
use esync_zerocopy::zerocopy_channel::{Receiver, Sender, Side, SlotLent, SlotLoan};

/// The contents of a slot: its number, which a loan doesn't tell, and a value.
#[derive(Clone, Copy)]
pub struct Numbered {
    pub number: usize,
    pub value: u64,
}

/// The two sides of a channel.
#[derive(Drop)]
pub struct Zerocopy<'c, H: Hand<u64>> {
    sender: Lending<'c, H>,
    receiver: Lending<'c, H>,
    doors: Doors,
}

// A side of a channel, and whether its slot is lent.
#[derive(Drop)]
struct Lending<'c, H: Hand<u64>> {
    end: End<'c, H>,
    is_lent: bool,
}

#[derive(Drop)]
enum End<'c, H: Hand<u64>> {
    Sender(Sender<'c, Numbered, u64, H>),
    Receiver(Receiver<'c, Numbered, u64, H>),
}

impl<'c, H: Hand<u64>> Form for Zerocopy<'c, H> {
    type Words = ZeroWords<Capacity>;

    type Held = Side;

    fn begin(&mut self, ask: Side) -> Option<Side> {
        Some(ask)
    }

    fn poll(&mut self, held: &mut Side, cx: &Context<u64>) -> Answered<Self> {
        let door = self.doors.next();
        let lent = match held {
            Side::Sender => self.sender.poll(&mut self.receiver, door, cx),
            Side::Receiver => self.receiver.poll(&mut self.sender, door, cx),
        };
        Some(match lent {
            Some(lent) => Answer::Gives(ZeroHeard::Lends(lent)),
            None => Answer::Pending,
        })
    }

    fn call(&mut self, call: ZeroCall<u64>, _place: &mut Option<Side>) -> Answered<Self> {
        let side = match call {
            ZeroCall::Try(side) | ZeroCall::Done(side) => side,
            ZeroCall::EndLoan(side) | ZeroCall::Clear(side) => side,
            ZeroCall::Write(_) => Side::Sender,
            ZeroCall::Len | ZeroCall::FreeCapacity => match self.doors.next() {
                Door::Own | Door::Dynamic => Side::Sender,
                Door::Handle => Side::Receiver,
            },
        };
        match side {
            Side::Sender => self.sender.call(&mut self.receiver, call),
            Side::Receiver => self.receiver.call(&mut self.sender, call),
        }
    }
}

impl<'c, H: Hand<u64>> Zerocopy<'c, H> {
    /// Returns these two sides without a loan, called in these ways.
    pub fn new(
        sender: Sender<'c, Numbered, u64, H>,
        receiver: Receiver<'c, Numbered, u64, H>,
        doors: Doors,
    ) -> Self {
        Zerocopy {
            sender: Lending {
                end: End::Sender(sender),
                is_lent: false,
            },
            receiver: Lending {
                end: End::Receiver(receiver),
                is_lent: false,
            },
            doors,
        }
    }
}

impl<'c, H: Hand<u64>> Lending<'c, H> {
    // Polls for the side's slot, while that of the opposite side is lent once more.
    fn poll(&mut self, opposite: &mut Self, door: Door, cx: &Context<u64>) -> Option<Lent<u64>> {
        let again = opposite.lend_again();
        let slot = self.end.poll(door, cx);
        drop(again);
        self.is_lent = slot.is_some();
        Some(self.end.told(slot?))
    }

    // Makes a call of the side, while the slot of the opposite side is lent once more.
    fn call(&mut self, opposite: &mut Self, call: ZeroCall<u64>) -> Option<Answer<ZeroHeard<u64>>> {
        let again = opposite.lend_again();
        let answer = self.make(call);
        drop(again);
        answer
    }

    fn make(&mut self, call: ZeroCall<u64>) -> Option<Answer<ZeroHeard<u64>>> {
        Some(match call {
            ZeroCall::Try(_) => Answer::Gives(ZeroHeard::Tried(self.try_lend())),
            ZeroCall::Write(value) => {
                let mut loan = self.lend_again()?;
                let number = loan.get().number;
                *loan.get_mut() = Numbered { number, value };
                loan.end();
                Answer::Done
            }
            ZeroCall::Done(_) => self.done()?,
            ZeroCall::EndLoan(_) => {
                self.lend_again()?.end();
                self.is_lent = false;
                Answer::Done
            }
            ZeroCall::Clear(_) => {
                let cleared = self.end.clear();
                self.is_lent = self.is_lent && cleared.is_err();
                Answer::Gives(ZeroHeard::Cleared(cleared))
            }
            ZeroCall::Len => Answer::Gives(ZeroHeard::Count(self.end.sizes()?.len)),
            ZeroCall::FreeCapacity => Answer::Gives(ZeroHeard::Count(self.end.sizes()?.free)),
        })
    }

    // Lends the slot once more, if it is lent.
    fn lend_again(&mut self) -> Option<SlotLoan<'_, Numbered, u64, H>> {
        if self.is_lent { self.end.lend() } else { None }
    }

    fn try_lend(&mut self) -> Option<Lent<u64>> {
        let slot = shown(self.end.lend());
        self.is_lent = slot.is_some();
        Some(self.end.told(slot?))
    }

    // Ends the side's turn at its next slot, if it has one: by the loan, if it is lent.
    fn done(&mut self) -> Option<Answer<ZeroHeard<u64>>> {
        let has_slot = self.end.has_slot();
        if self.is_lent {
            if let Some(loan) = self.end.lend() {
                loan.done();
            }
        } else {
            self.end.done();
        }
        self.is_lent = false;
        has_slot.then_some(Answer::Done)
    }
}

// Returns the contents of the slot that is lent, if one is.
fn shown<H: Hand<u64>>(loan: Option<SlotLoan<'_, Numbered, u64, H>>) -> Option<Numbered> {
    match loan {
        Some(loan) => Some(*loan.get()),
        None => None,
    }
}

// Returns the contents of the slot that a poll lends, if it lends one.
fn polled<H: Hand<u64>>(loan: Poll<SlotLoan<'_, Numbered, u64, H>>) -> Option<Numbered> {
    match loan {
        Poll::Ready(loan) => Some(*loan.get()),
        Poll::Pending => None,
    }
}

impl<'c, H: Hand<u64>> End<'c, H> {
    // Returns what the side hears of its slot.
    fn told(&self, slot: Numbered) -> Lent<u64> {
        match self {
            End::Sender(_) => Lent::Spare(slot.number),
            End::Receiver(_) => Lent::Held(slot.number, slot.value),
        }
    }

    // Lends the next slot, if there is one.
    fn lend(&mut self) -> Option<SlotLoan<'_, Numbered, u64, H>> {
        match self {
            End::Sender(sender) => sender.try_send(),
            End::Receiver(receiver) => receiver.try_receive(),
        }
    }

    fn poll(&mut self, door: Door, cx: &Context<u64>) -> Option<Numbered> {
        match (self, door) {
            (End::Sender(sender), Door::Own) => polled(sender.poll_send(cx)),
            (End::Sender(sender), Door::Handle) => polled(sender.send().poll(cx)),
            (End::Sender(sender), Door::Dynamic) => polled(sender.borrow().send().poll(cx)),
            (End::Receiver(receiver), Door::Own) => polled(receiver.poll_receive(cx)),
            (End::Receiver(receiver), Door::Handle) => polled(receiver.receive().poll(cx)),
            (End::Receiver(receiver), Door::Dynamic) => {
                polled(receiver.borrow().receive().poll(cx))
            }
        }
    }

    fn has_slot(&self) -> bool {
        match self {
            End::Sender(sender) => !sender.is_full(),
            End::Receiver(receiver) => !receiver.is_empty(),
        }
    }

    // Ends the turn at the next slot, without a loan.
    fn done(&mut self) {
        match self {
            End::Sender(sender) => sender.send_done(),
            End::Receiver(receiver) => receiver.receive_done(),
        }
    }

    fn clear(&mut self) -> Result<(), SlotLent> {
        match self {
            End::Sender(sender) => sender.clear(),
            End::Receiver(receiver) => receiver.clear(),
        }
    }

    fn sizes(&self) -> Option<Sizes> {
        match self {
            End::Sender(sender) => sizes!(sender),
            End::Receiver(receiver) => sizes!(receiver),
        }
    }
}
