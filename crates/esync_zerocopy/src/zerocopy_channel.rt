//! A channel of slots that a sender writes and a receiver reads where they stand.
ghost use Rattle.std.specs.Prelude.{◌≡◌, ◌<◌, vec_len, slice_set, IfSome};
ghost use Rattle.std.specs.Borrow.{LendsIf, sem, follows_if};

use esync_base::waitqueue::{Context, Poll, Registered, Wakes};
use row::Row;
pub use shared::{
    Channel, EndsLoan, LentTo, Loan, ReceiveSlot, Receiver, SendSlot, Sender, Slot, SlotLoan,
    ZeroReceive, ZeroRequest, ZeroSend,
};
use std::marker::Model;
use thiserror::Error;
use turns::Turns;

mod kept;
pub mod machine;
pub mod row;
mod shared;
mod turns;

/// One of the two sides of a channel.
#[derive(Clone, Copy, Debug, PartialEq, Eq)]
pub enum Side {
    /// The sender, which writes a spare slot and sends it.
    Sender,
    /// The receiver, which reads a held slot and gives it back.
    Receiver,
}

/// The error of a clear: the opposite side's slot is lent.
#[derive(Clone, Copy, Debug, PartialEq, Eq, Error)]
#[error("the other side's slot is lent")]
pub struct SlotLent;

/// The state of a zero-copy channel whose slots stand in a vector.
pub type ChannelState<T, W> = RowState<Vec<T>, W>;

/// The state of a zero-copy channel: a row of slots, whose turn each slot is, and the wakers of the sides that wait for
/// one.
#[derive(Debug, Drop)]
pub struct RowState<S: Row, W> {
    slots: S,
    turns: Turns<W>,
}

impl<S: Row, W> Model for RowState<S, W> {
    ghost use Rattle.std.specs.Prelude.{◌≡◌, length};
    ghost use Rattle.esync_zerocopy.specs.Slots.{count};
    ghost use Rattle.esync_zerocopy.specs.Lending.{Lending, lending_code};

    ghost Value = { Lending S.Item W };

    ghost coded = { lending_code S.Item.code W.code };

    ghost view = { λ a. record { slots = record { sides = a.turns.sides; values = S.items a.slots }; waiting = a.turns.waiting } };

    ghost invariant = { λ a. length (S.items a.slots) ≡ count a.turns.sides };
}

/// The wakers of a receiver that waits for a held slot, and of a sender that waits for a spare one.
impl<S: Row, W: Copy + Eq> Registered for RowState<S, W> {
    type Waker = W;

    ghost use Rattle.esync_base.specs.Standing.{at_two};

    ghost at = { λ m. at_two m.waiting.receivers m.waiting.senders };

    fn registered(&self, place: usize, i: usize) -> Option<W> {
        self.turns.registered(place, i)
    }
}

impl<S: Row, W: Copy + Eq> RowState<S, W> {
    ghost use Rattle.std.specs.Prelude.{◌≡◌, ◌<◌, ◌++◌, [], length, slice_get, is_ok, ◌↔◌, IsTrue, None, false};
    ghost use Rattle.std.specs.Borrow.{LendsIf, sem, follows_if};
    ghost use Rattle.esync_zerocopy.specs.Slots.{all_spare, count, other, before, is_out, with_out, done_by, cleared, cleared_if, waits_at, waiting_unless, wakes_unless, waiting_if_cleared, wakes_if_cleared, EachOnce};
    ghost use Rattle.esync_zerocopy.specs.Lending.{first_value, lent_with, value_lent, value_polled, name_polled};
    ghost use Rattle.esync_zerocopy.specs.contracts.zerocopy_channel.RowState.{the_row};

    #[tactic(auto, using(crate::proofs::Rounds::length_numbers))]
    /// Returns a channel of these slots, all spare, without wakers. The row must have a slot.
    pub fn new(slots: S) -> Self
        requires { 0 < length (S.items slots) }
        ensures sides { result.slots.sides ≡ all_spare (length (S.items slots)) }
        ensures values { result.slots.values ≡ S.items slots }
        ensures senders { result.waiting.senders ≡ [] }
        ensures receivers { result.waiting.receivers ≡ [] }
    {
        let capacity = slots.len();
        RowState {
            slots,
            turns: Turns::new(capacity),
        }
    }

    /// Returns the slots, in the order of their numbers.
    pub fn slots(&self) -> &S
        ensures { S.items result.now ≡ self.now.slots.values }
    {
        &self.slots
    }

    /// Returns whether it is the same side's turn at each slot, in the same order, and the same slots are out. `false`
    /// claims nothing.
    pub fn has_same_turns(&self, other: &Self) -> bool
        ensures { IsTrue result → self.now.slots.sides ≡ other.now.slots.sides }
    {
        self.turns.are_same(&other.turns)
    }

    // Lends the value in the slot of this number, if there is such a slot, whichever side's turn it is.
    fn lend_at(&mut self, number: usize) -> Option<&mut S::Item>
        ensures* lends { sem 𝓛 (LendsIf (the_row S.row W.row S.Item.row S.Row) S.Item.row self.entry result (λ w. record { slots = record { sides = self.old.slots.sides; values = slice_set self.old.slots.values number w }; waiting = self.old.waiting }) self.old) }
        ensures value { value_lent result ≡ slice_get self.old.slots.values number }
    {
        self.slots.lend(number)
    }

    #[tactic(auto, using(crate::specs::LendingLaws::first_of_none))]
    fn lend(&mut self, side: Side) -> Option<&mut S::Item>
        ensures* lends { sem 𝓛 (LendsIf (the_row S.row W.row S.Item.row S.Row) S.Item.row self.entry result (λ w. record { slots = lent_with side self.old.slots w; waiting = self.old.waiting }) self.old) }
        ensures value { value_lent result ≡ first_value (before side self.old.slots.sides) self.old.slots.values }
        ensures none { value_lent result ≡ None → before side self.old.slots.sides ≡ [] }
    {
        let number = self.turns.lend(side)?;
        self.lend_at(number)
    }

    #[tactic(auto, using(crate::specs::LendingLaws::first_of_none))]
    fn poll_lend<const K: usize>(
        &mut self,
        side: Side,
        cx: &Context<W>,
        wakes: &mut Wakes<W, K>,
    ) -> Poll<&mut S::Item>
        requires { length wakes.old < K }
        ensures* lends { sem 𝓛 (follows_if (the_row S.row W.row S.Item.row S.Row) S.Item.row self.entry.ghost_name (name_polled result) (λ w. record { slots = lent_with side self.old.slots w; waiting = self.old.waiting }) (record { slots = self.old.slots; waiting = waiting_unless W.eq (value_polled result) side cx.now self.old.waiting })) }
        ensures value { value_polled result ≡ first_value (before side self.old.slots.sides) self.old.slots.values }
        ensures none { value_polled result ≡ None → before side self.old.slots.sides ≡ [] }
        ensures wakes { wakes.new ≡ wakes.old ++ wakes_unless W.eq (value_polled result) side cx.now self.old.waiting }
    {
        match self.turns.poll_lend(side, cx, wakes) {
            Some(number) => match self.lend_at(number) {
                Some(slot) => Poll::Ready(slot),
                None => Poll::Pending,
            },
            None => Poll::Pending,
        }
    }

    /// Lends the next spare slot for writing. Returns `None` if no slot is spare. Until it is sent, the slot is lent
    /// again, with what was written.
    pub fn try_send(&mut self) -> Option<&mut S::Item>
        ensures* lends { sem 𝓛 (LendsIf (the_row S.row W.row S.Item.row S.Row) S.Item.row self.entry result (λ w. record { slots = lent_with Side.Sender self.old.slots w; waiting = self.old.waiting }) self.old) }
        ensures value { value_lent result ≡ first_value self.old.slots.sides.spare self.old.slots.values }
        ensures none { value_lent result ≡ None → self.old.slots.sides.spare ≡ [] }
    {
        self.lend(Side::Sender)
    }

    /// Polls for the next spare slot and lends it for writing. If no slot is spare, registers the context's waker.
    pub fn poll_send<const K: usize>(
        &mut self,
        cx: &Context<W>,
        wakes: &mut Wakes<W, K>,
    ) -> Poll<&mut S::Item>
        requires { length wakes.old < K }
        ensures* lends { sem 𝓛 (follows_if (the_row S.row W.row S.Item.row S.Row) S.Item.row self.entry.ghost_name (name_polled result) (λ w. record { slots = lent_with Side.Sender self.old.slots w; waiting = self.old.waiting }) (record { slots = self.old.slots; waiting = waiting_unless W.eq (value_polled result) Side.Sender cx.now self.old.waiting })) }
        ensures value { value_polled result ≡ first_value self.old.slots.sides.spare self.old.slots.values }
        ensures none { value_polled result ≡ None → self.old.slots.sides.spare ≡ [] }
        ensures wakes { wakes.new ≡ wakes.old ++ wakes_unless W.eq (value_polled result) Side.Sender cx.now self.old.waiting }
    {
        self.poll_lend(Side::Sender, cx, wakes)
    }

    /// Sends the next spare slot, behind those that are held, and hands out the receiver's waker. The channel must not
    /// be full.
    pub fn send_done<const K: usize>(&mut self, wakes: &mut Wakes<W, K>)
        requires room { length wakes.old < K }
        requires not_full { 0 < length self.old.slots.sides.spare }
        ensures slots { self.new.slots ≡ record self.old.slots { sides = done_by Side.Sender self.old.slots.sides } }
        ensures waiting { self.new.waiting ≡ record self.old.waiting { receivers = [] } }
        ensures wakes { wakes.new ≡ wakes.old ++ self.old.waiting.receivers }
    {
        self.turns.done(Side::Sender, wakes);
    }

    /// Lends the oldest held slot for reading or writing. Returns `None` if no slot is held. Until it is given back,
    /// the slot is lent again.
    pub fn try_receive(&mut self) -> Option<&mut S::Item>
        ensures* lends { sem 𝓛 (LendsIf (the_row S.row W.row S.Item.row S.Row) S.Item.row self.entry result (λ w. record { slots = lent_with Side.Receiver self.old.slots w; waiting = self.old.waiting }) self.old) }
        ensures value { value_lent result ≡ first_value self.old.slots.sides.held self.old.slots.values }
        ensures none { value_lent result ≡ None → self.old.slots.sides.held ≡ [] }
    {
        self.lend(Side::Receiver)
    }

    /// Polls for the oldest held slot and lends it for reading or writing. If no slot is held, registers the context's
    /// waker.
    pub fn poll_receive<const K: usize>(
        &mut self,
        cx: &Context<W>,
        wakes: &mut Wakes<W, K>,
    ) -> Poll<&mut S::Item>
        requires { length wakes.old < K }
        ensures* lends { sem 𝓛 (follows_if (the_row S.row W.row S.Item.row S.Row) S.Item.row self.entry.ghost_name (name_polled result) (λ w. record { slots = lent_with Side.Receiver self.old.slots w; waiting = self.old.waiting }) (record { slots = self.old.slots; waiting = waiting_unless W.eq (value_polled result) Side.Receiver cx.now self.old.waiting })) }
        ensures value { value_polled result ≡ first_value self.old.slots.sides.held self.old.slots.values }
        ensures none { value_polled result ≡ None → self.old.slots.sides.held ≡ [] }
        ensures wakes { wakes.new ≡ wakes.old ++ wakes_unless W.eq (value_polled result) Side.Receiver cx.now self.old.waiting }
    {
        self.poll_lend(Side::Receiver, cx, wakes)
    }

    /// Gives the oldest held slot back, behind those that are spare, and hands out the sender's waker. The channel must
    /// not be empty.
    pub fn receive_done<const K: usize>(&mut self, wakes: &mut Wakes<W, K>)
        requires room { length wakes.old < K }
        requires not_empty { 0 < length self.old.slots.sides.held }
        ensures slots { self.new.slots ≡ record self.old.slots { sides = done_by Side.Receiver self.old.slots.sides } }
        ensures waiting { self.new.waiting ≡ record self.old.waiting { senders = [] } }
        ensures wakes { wakes.new ≡ wakes.old ++ self.old.waiting.senders }
    {
        self.turns.done(Side::Receiver, wakes);
    }

    /// Proves that each slot stands once in one of the two lists, so that none is lent to both sides. Does nothing.
    pub fn once(&self)
        ensures { EachOnce self.now.slots.sides }
    {
        self.turns.once()
    }

    /// Returns the number of the side's next slot, lent or not. Returns `None` if the side has no slot.
    pub fn next_slot(&self, side: Side) -> Option<usize>
        ensures { result ≡ slice_get (before side self.now.slots.sides) 0 }
    {
        self.turns.next(side)
    }

    /// Returns whether the side's slot is lent: it was neither sent, given back nor ended since.
    pub fn is_lent(&self, side: Side) -> bool
        ensures { result ≡ is_out side self.now.slots.sides }
    {
        self.turns.is_out(side)
    }

    /// Ends the loan of the side's slot, if it is lent. The slot stays the side's next one, with what was written.
    pub fn end_loan(&mut self, side: Side)
        ensures { self.new ≡ record { slots = record self.old.slots { sides = with_out side false self.old.slots.sides }; waiting = self.old.waiting } }
    {
        self.turns.end_loan(side);
    }

    #[tactic(auto, using(crate::proofs::Rounds::count_of_cleared))]
    /// Makes all slots spare, the first one next, ends the side's own loan, and hands out the sender's waker. The
    /// values stay.
    ///
    /// # Errors
    ///
    /// Returns `SlotLent` if the opposite side's slot is lent. Nothing is changed.
    pub fn clear<const K: usize>(
        &mut self,
        side: Side,
        wakes: &mut Wakes<W, K>,
    ) -> Result<(), SlotLent>
        requires { length wakes.old < K }
        ensures answer { result ≡ cleared (is_out (other side) self.old.slots.sides) }
        ensures slots { self.new.slots ≡ record self.old.slots { sides = cleared_if (is_ok result) self.old.slots.sides } }
        ensures waiting { self.new.waiting ≡ waiting_if_cleared (is_ok result) self.old.waiting }
        ensures wakes { wakes.new ≡ wakes.old ++ wakes_if_cleared (is_ok result) self.old.waiting }
    {
        self.turns.clear(side, wakes)
    }

    /// Returns the number of slots that are held.
    pub fn len(&self) -> usize
        ensures { result ≡ length self.now.slots.sides.held }
    {
        self.turns.len()
    }

    /// Returns whether no slot is held.
    pub fn is_empty(&self) -> bool
        ensures { IsTrue result ↔ (length self.now.slots.sides.held ≡ 0) }
    {
        self.turns.len() == 0
    }

    /// Returns whether no slot is spare.
    pub fn is_full(&self) -> bool
        ensures { IsTrue result ↔ (length self.now.slots.sides.spare ≡ 0) }
    {
        self.turns.free_capacity() == 0
    }

    /// Returns the number of slots.
    pub fn capacity(&self) -> usize
        ensures value { result ≡ length self.now.slots.values }
        ensures all { result ≡ count self.now.slots.sides }
    {
        self.turns.capacity()
    }

    /// Returns the number of slots that are spare.
    pub fn free_capacity(&self) -> usize
        ensures { result ≡ length self.now.slots.sides.spare }
    {
        self.turns.free_capacity()
    }
}
