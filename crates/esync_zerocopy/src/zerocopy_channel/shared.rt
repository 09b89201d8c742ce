//! A zero-copy channel that tasks on several threads share by reference, with its handles, loans and futures.
ghost use Rattle.std.specs.Prelude.{◌≡◌, ◌<◌, true, [], length, slice_get, OnSome, IsSome, None};
ghost use Rattle.esync_zerocopy.specs.Slots.{all_spare, count, before, is_out, out_if, waiting_unless};
ghost use Rattle.esync_zerocopy.specs.Turned.{wakes_of_turn, DoneIf};
ghost use Rattle.esync_zerocopy.specs.Shared.{slots_of_sender, slots_of_receiver};

use super::turns::Turns;
use super::{Side, SlotLent};
use esync_base::place::{Holds, Place};
use esync_base::shared::Shared;
use esync_base::step;
use esync_base::waitqueue::{Context, Hand, Poll, Wakes};
use std::marker::Model;
use std::sync::{self, Wait};

/// A slot for a message. One side at a time takes its value, and never waits for it.
pub type Slot<T> = Place<T>;

// Takes the side's next slot out, with its value. The side wins no turn if it has no slot, or if the slot's value can't
// be taken just now.
//
// It wins none while its slot is out either, even if the slot's value is back: a loan first puts the value back and
// then tells the state (`Loan::put_back`), and in between another thread can poll the request that the loan came from.
fn try_turn<'a, T, W: Copy + Eq>(
    slots: &'a [Slot<T>],
    turns: &mut Turns<W>,
    side: Side,
) -> Option<sync::MutexGuard<'a, T>>
    ensures state { turns.new ≡ record { sides = out_if result side turns.old.sides; waiting = turns.old.waiting } }
    ensures slot { OnSome result (IsSome (slice_get (before side turns.old.sides) 0)) }
    ensures out { is_out side turns.old.sides ≡ true → result ≡ None }
{
    if turns.is_out(side) {
        return None;
    }
    let slot = slots.get(turns.next(side)?)?;
    let value = slot.turn()?;
    let _ = turns.lend(side);
    Some(value)
}

// Takes the side's next slot out, with its value, as `try_turn` does. If the side has no slot, registers the context's
// waker. If its slot is out, or the slot's value can't be taken just now, hands out the context's waker, so that the
// task polls again.
fn poll_turn<'a, T, W: Copy + Eq>(
    slots: &'a [Slot<T>],
    turns: &mut Turns<W>,
    side: Side,
    cx: &Context<W>,
    wakes: &mut Wakes<W, 1>,
) -> Option<sync::MutexGuard<'a, T>>
    requires { wakes.old ≡ [] }
    ensures out { is_out side turns.old.sides ≡ true → result ≡ None }
    ensures sides { turns.new.sides ≡ out_if result side turns.old.sides }
    ensures waiting { turns.new.waiting ≡ waiting_unless W.eq (slice_get (before side turns.old.sides) 0) side cx.now turns.old.waiting }
    ensures wakes { wakes.new ≡ wakes_of_turn W.eq (slice_get (before side turns.old.sides) 0) result side cx.now turns.old.waiting }
{
    if let Some(value) = try_turn(slots, turns, side) {
        return Some(value);
    }
    if turns.next(side).is_none() {
        let _ = turns.poll_lend(side, cx, wakes);
    } else {
        wakes.push(cx.waker());
    }
    None
}

// Ends the side's turn at its next slot, if it has one.
fn done_if<W: Copy + Eq>(turns: &mut Turns<W>, side: Side, wakes: &mut Wakes<W, 1>)
    requires { wakes.old ≡ [] }
    ensures { DoneIf (before side turns.old.sides) side turns.old turns.new wakes.new }
{
    if turns.next(side).is_some() {
        turns.done(side, wakes);
    }
}

// Makes all slots spare, even those that are out.
fn reset<W: Copy + Eq>(turns: &mut Turns<W>, wakes: &mut Wakes<W, 1>)
    requires { wakes.old ≡ [] }
    ensures sides { turns.new.sides ≡ all_spare (count turns.old.sides) }
    ensures waiting { turns.new.waiting ≡ record turns.old.waiting { senders = [] } }
    ensures wakes { wakes.new ≡ turns.old.waiting.senders }
{
    turns.end_loan(Side::Receiver);
    let _ = turns.clear(Side::Sender, wakes);
}

/// A channel of slots, which a sender and a receiver share by reference.
///
/// Its lock is taken only for the length of a state call. A loan has the slot's value to itself: it reads and writes
/// the value without waiting. While a side's slot is lent, or its value can't be taken just now, the side is answered
/// as if it had no slot, and a poll hands out its own waker.
#[derive(Drop)]
pub struct Channel<T, W, H> {
    slots: Vec<Slot<T>>,
    turns: Shared<Turns<W>, W, H>,
}

/// The channel in clauses: the number of its slots.
impl<T, W, H> Model for Channel<T, W, H> {
    ghost use Rattle.std.specs.Prelude.{ℕ, length};

    ghost Value = { ℕ };

    ghost view = { λ a. length a.slots.items };
}

impl<T, W: Copy + Eq, H: Hand<W>> Channel<T, W, H> {
    ghost use Rattle.std.specs.Prelude.{⊤};
    ghost use Rattle.std.specs.Borrow.{sem, follows_so};
    ghost use mathlib.Core.Option.{none};
    ghost use Rattle.esync_zerocopy.specs.contracts.zerocopy_channel.shared.Channel.{the_row};

    /// Returns a channel of these slots, all spare, whose wakers go to the hand. There must be a slot.
    pub fn new(slots: Vec<Slot<T>>, hand: H) -> Self
        requires { 0 < length slots.items }
        ensures { result ≡ length slots.items }
    {
        let capacity = slots.len();
        Channel {
            slots,
            turns: Shared::new(Turns::new(capacity), hand),
        }
    }

    /// Returns the two sides of the channel.
    pub fn split(&mut self) -> (Sender<'_, T, W, H>, Receiver<'_, T, W, H>)
        ensures* leaves { sem 𝓛 (follows_so (the_row T.row W.row H.row) (the_row T.row W.row H.row) self.entry.ghost_name none (λ _ _. ⊤) (λ v. v ≡ self.old)) }
        ensures sender { slots_of_sender result.0 ≡ self.old }
        ensures receiver { slots_of_receiver result.1 ≡ self.old }
    {
        let channel = &*self;
        (Sender { channel }, Receiver { channel })
    }

    /// Makes all slots spare and wakes the task that waits to send. No loan exists, since the channel is borrowed
    /// whole.
    pub fn clear(&mut self)
        ensures { self.new ≡ self.old }
    {
        step!(self.turns, |turns, wakes| reset(&mut turns, &mut wakes))
    }

    /// Returns the number of slots that are held now.
    pub fn len(&self) -> usize {
        self.turns.guard().len()
    }

    /// Returns whether no slot is held now.
    pub fn is_empty(&self) -> bool {
        self.len() == 0
    }

    /// Returns whether no slot is spare now.
    pub fn is_full(&self) -> bool {
        self.free_capacity() == 0
    }

    /// Returns the number of slots, without taking the lock.
    pub fn capacity(&self) -> usize
        ensures { result ≡ self.now }
    {
        self.slots.len()
    }

    /// Returns the number of slots that are spare now.
    pub fn free_capacity(&self) -> usize {
        self.turns.guard().free_capacity()
    }

    fn loan<'a>(&'a self, side: Side, value: sync::MutexGuard<'a, T>) -> SlotLoan<'a, T, W, H> {
        Loan {
            side: LentTo {
                channel: self,
                side,
            },
            value,
        }
    }

    fn try_lend(&self, side: Side) -> Option<SlotLoan<'_, T, W, H>> {
        let turn = try_turn(&self.slots, &mut self.turns.guard(), side);
        match turn {
            Some(value) => Some(self.loan(side, value)),
            None => None,
        }
    }

    fn poll_lend(&self, side: Side, cx: &Context<W>) -> Poll<SlotLoan<'_, T, W, H>> {
        let turn = step!(
            self.turns,
            |turns, wakes| poll_turn(&self.slots, &mut turns, side, cx, &mut wakes)
        );
        match turn {
            Some(value) => Poll::Ready(self.loan(side, value)),
            None => Poll::Pending,
        }
    }

    fn done(&self, side: Side) {
        step!(
            self.turns,
            |turns, wakes| done_if(&mut turns, side, &mut wakes)
        )
    }

    fn clear_by(&self, side: Side) -> Result<(), SlotLent> {
        step!(self.turns, |turns, wakes| turns.clear(side, &mut wakes))
    }
}

/// The side of a channel that writes.
#[derive(Drop)]
pub struct Sender<'a, T, W, H> {
    channel: &'a Channel<T, W, H>,
}

impl<T, W: Copy + Eq, H: Hand<W>> Sender<'_, T, W, H> {
    ghost use Rattle.std.specs.Prelude.{⊤};
    ghost use Rattle.std.specs.Borrow.{sem, follows_so};
    ghost use mathlib.Core.Option.{none};
    ghost use Rattle.esync_zerocopy.specs.contracts.zerocopy_channel.shared.Sender.{the_row};
    ghost use mir.Syntax.{named};

    /// Lends the sender, for as long as it is borrowed.
    pub fn borrow(&mut self) -> Sender<'_, T, W, H>
        ensures* leaves { sem 𝓛 (follows_so (the_row (record { mir = named 1; lft = [] }) T.row W.row H.row) (the_row (record { mir = named 1; lft = [] }) T.row W.row H.row) self.entry.ghost_name none (λ _ _. ⊤) (λ v. v ≡ self.old)) }
        ensures slots { slots_of_sender result ≡ slots_of_sender self.old }
    {
        Sender {
            channel: self.channel,
        }
    }

    /// Lends the next spare slot. Returns `None` if no slot is spare now, or if that slot is lent or its value can't be
    /// taken just now.
    pub fn try_send(&mut self) -> Option<SendSlot<'_, T, W, H>> {
        self.channel.try_lend(Side::Sender)
    }

    /// Polls for the next spare slot and lends it. If no slot is spare, registers the context's waker. If the slot is
    /// lent or its value can't be taken just now, the answer is Pending too, and the context's waker is handed out, so
    /// that the task polls again.
    pub fn poll_send(&mut self, cx: &Context<W>) -> Poll<SendSlot<'_, T, W, H>> {
        self.channel.poll_lend(Side::Sender, cx)
    }

    /// Returns a future that lends the next spare slot once there is one.
    pub fn send(&mut self) -> ZeroSend<'_, T, W, H> {
        ZeroRequest {
            channel: self.channel,
            side: Side::Sender,
        }
    }

    /// Sends the next spare slot as it is, if there is one, and wakes the task that waits to receive.
    pub fn send_done(&mut self)
        ensures { slots_of_sender self.new ≡ slots_of_sender self.old }
    {
        self.channel.done(Side::Sender)
    }

    /// Makes all slots spare and wakes the task that waits to send.
    ///
    /// # Errors
    ///
    /// Returns `SlotLent` if the receiver's slot is lent. Nothing is changed.
    pub fn clear(&mut self) -> Result<(), SlotLent>
        ensures { slots_of_sender self.new ≡ slots_of_sender self.old }
    {
        self.channel.clear_by(Side::Sender)
    }

    /// Returns the number of slots that are held now.
    pub fn len(&self) -> usize {
        self.channel.len()
    }

    /// Returns whether no slot is held now.
    pub fn is_empty(&self) -> bool {
        self.channel.is_empty()
    }

    /// Returns whether no slot is spare now.
    pub fn is_full(&self) -> bool {
        self.channel.is_full()
    }

    /// Returns the number of slots, without taking the lock.
    pub fn capacity(&self) -> usize
        ensures { result ≡ slots_of_sender self.now }
    {
        self.channel.capacity()
    }

    /// Returns the number of slots that are spare now.
    pub fn free_capacity(&self) -> usize {
        self.channel.free_capacity()
    }
}

/// The side of a channel that reads.
#[derive(Drop)]
pub struct Receiver<'a, T, W, H> {
    channel: &'a Channel<T, W, H>,
}

impl<T, W: Copy + Eq, H: Hand<W>> Receiver<'_, T, W, H> {
    ghost use Rattle.std.specs.Prelude.{⊤};
    ghost use Rattle.std.specs.Borrow.{sem, follows_so};
    ghost use mathlib.Core.Option.{none};
    ghost use Rattle.esync_zerocopy.specs.contracts.zerocopy_channel.shared.Receiver.{the_row};
    ghost use mir.Syntax.{named};

    /// Lends the receiver, for as long as it is borrowed.
    pub fn borrow(&mut self) -> Receiver<'_, T, W, H>
        ensures* leaves { sem 𝓛 (follows_so (the_row (record { mir = named 1; lft = [] }) T.row W.row H.row) (the_row (record { mir = named 1; lft = [] }) T.row W.row H.row) self.entry.ghost_name none (λ _ _. ⊤) (λ v. v ≡ self.old)) }
        ensures slots { slots_of_receiver result ≡ slots_of_receiver self.old }
    {
        Receiver {
            channel: self.channel,
        }
    }

    /// Lends the oldest held slot. Returns `None` if no slot is held now, or if that slot is lent or its value can't be
    /// taken just now.
    pub fn try_receive(&mut self) -> Option<ReceiveSlot<'_, T, W, H>> {
        self.channel.try_lend(Side::Receiver)
    }

    /// Polls for the oldest held slot and lends it. If no slot is held, registers the context's waker. If the slot is
    /// lent or its value can't be taken just now, the answer is Pending too, and the context's waker is handed out, so
    /// that the task polls again.
    pub fn poll_receive(&mut self, cx: &Context<W>) -> Poll<ReceiveSlot<'_, T, W, H>> {
        self.channel.poll_lend(Side::Receiver, cx)
    }

    /// Returns a future that lends the oldest held slot once there is one.
    pub fn receive(&mut self) -> ZeroReceive<'_, T, W, H> {
        ZeroRequest {
            channel: self.channel,
            side: Side::Receiver,
        }
    }

    /// Gives the oldest held slot back, if there is one, and wakes the task that waits to send.
    pub fn receive_done(&mut self)
        ensures { slots_of_receiver self.new ≡ slots_of_receiver self.old }
    {
        self.channel.done(Side::Receiver)
    }

    /// Makes all slots spare and wakes the task that waits to send.
    ///
    /// # Errors
    ///
    /// Returns `SlotLent` if the sender's slot is lent. Nothing is changed.
    pub fn clear(&mut self) -> Result<(), SlotLent>
        ensures { slots_of_receiver self.new ≡ slots_of_receiver self.old }
    {
        self.channel.clear_by(Side::Receiver)
    }

    /// Returns the number of slots that are held now.
    pub fn len(&self) -> usize {
        self.channel.len()
    }

    /// Returns whether no slot is held now.
    pub fn is_empty(&self) -> bool {
        self.channel.is_empty()
    }

    /// Returns whether no slot is spare now.
    pub fn is_full(&self) -> bool {
        self.channel.is_full()
    }

    /// Returns the number of slots, without taking the lock.
    pub fn capacity(&self) -> usize
        ensures { result ≡ slots_of_receiver self.now }
    {
        self.channel.capacity()
    }

    /// Returns the number of slots that are spare now.
    pub fn free_capacity(&self) -> usize {
        self.channel.free_capacity()
    }
}

/// The future of a side's next slot. A poll after it was ready lends anew. While its slot is still lent, each poll is
/// Pending and hands out its own waker.
#[must_use]
#[derive(Drop)]
pub struct ZeroRequest<'a, T, W, H> {
    channel: &'a Channel<T, W, H>,
    side: Side,
}

/// The future of a slot to send: what `send` returns.
pub type ZeroSend<'a, T, W, H> = ZeroRequest<'a, T, W, H>;

/// The future of a slot to receive: what `receive` returns.
pub type ZeroReceive<'a, T, W, H> = ZeroRequest<'a, T, W, H>;

impl<'a, T, W: Copy + Eq, H: Hand<W>> ZeroRequest<'a, T, W, H> {
    /// Polls for the side's next slot and lends it. If the side has no slot, registers the context's waker. If the slot
    /// is lent or its value can't be taken just now, the answer is Pending too, and the context's waker is handed out,
    /// so that the task polls again.
    pub fn poll(&mut self, cx: &Context<W>) -> Poll<SlotLoan<'a, T, W, H>> {
        self.channel.poll_lend(self.side, cx)
    }
}

/// A side of a channel as its loan sees it: the loan's end tells this side.
///
/// A call uses its receiver up, and no `Drop` is asked of it: a loan whose end tells the side twice, or never, doesn't
/// compile.
pub trait EndsLoan {
    type Rt: Wait;

    /// Sends the slot, or gives it back, and wakes the task that waits on the opposite side.
    fn done(self);

    /// Ends the loan. The slot stays the side's next one.
    fn end(self);
}

/// The side of a channel that a slot is lent to.
#[derive(Drop)]
pub struct LentTo<'a, T, W, H> {
    channel: &'a Channel<T, W, H>,
    side: Side,
}

impl<T, W: Copy + Eq, H: Hand<W>> EndsLoan for LentTo<'_, T, W, H> {
    type Rt = H::Rt;

    fn done(self) {
        self.channel.done(self.side);
    }

    fn end(self) {
        let channel = self.channel;
        channel.turns.guard().end_loan(self.side);
    }
}

/// A loan of a slot: it has the slot's value to itself. Its end ends the loan alone.
pub struct Loan<S: EndsLoan, G> {
    side: S,
    value: G,
}

/// A loan of a slot of a `Channel`, with the slot's value. Its end ends the loan alone: the slot stays the side's next
/// one.
pub type SlotLoan<'a, T, W, H> = Loan<LentTo<'a, T, W, H>, sync::MutexGuard<'a, T>>;

/// A loan of a slot that the sender writes.
pub type SendSlot<'a, T, W, H> = SlotLoan<'a, T, W, H>;

/// A loan of a slot that the receiver reads.
pub type ReceiveSlot<'a, T, W, H> = SlotLoan<'a, T, W, H>;

impl<S: EndsLoan, G> Model for Loan<S, G> {
    ghost Value = { G };

    ghost coded = { G.code };

    ghost view = { λ a. a.value };
}

impl<S: EndsLoan, G: Drop> Loan<S, G> {
    // Puts the value back and returns the side alone, which is told next that the loan has ended.
    //
    // In this order a state that shows the slot to the opposite side never meets a value that is still out. In between,
    // the slot is still out in the state. So it stays the side's next one and this loan the only one: a poll of the
    // request wins no turn (`try_turn`), and a clear by the opposite side is refused. Nothing else can move the slot or
    // end the loan. The loan borrows its side, and with it the channel, so neither the side's own `send_done`,
    // `receive_done` and `clear` nor the `clear` of the whole channel can be called before the state was told.
    fn put_back(self) -> S {
        let Loan { side, value } = self;
        drop(value);
        side
    }
}

impl<S: EndsLoan, G: Drop> Drop for Loan<S, G> {
    fn drop(self) {
        self.put_back().end();
    }
}

impl<S: EndsLoan, G: Holds> Loan<S, G> {
    ghost use Rattle.std.specs.Prelude.{◌≡◌};
    ghost use Rattle.std.specs.Borrow.{Lends, sem};
    ghost use Rattle.esync_zerocopy.specs.contracts.zerocopy_channel.shared.Loan.{the_row};

    /// Returns the value last written through the loan, or otherwise the value that the slot had when it was lent.
    pub fn get(&self) -> &G::Value
        ensures { result.now ≡ G.value self.now }
    {
        self.value.read()
    }

    /// Lends the value for writing.
    pub fn get_mut(&mut self) -> &mut G::Value
        ensures* lends { sem 𝓛 (Lends (the_row S.row G.row S.Rt.row) G.Value.row self.entry result (G.with_value self.old)) }
        ensures value { result.now ≡ G.value self.old }
    {
        self.value.write()
    }

    /// Sends the slot, or gives it back, and wakes the task that waits on the opposite side.
    pub fn done(self)
    where
        G: Drop,
    {
        self.put_back().done();
    }

    /// Ends the loan, as a drop does. The slot stays the side's next one.
    pub fn end(self)
    where
        G: Drop,
    {
        drop(self);
    }
}
