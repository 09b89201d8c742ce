//! The zero-copy channel as a machine that takes commands.
ghost use Rattle.std.specs.Prelude.{◌≡◌, [], IfOk, OnErr};
ghost use Rattle.esync_machine.specs.Object.{GoodRunOver};
ghost use Rattle.esync_zerocopy.specs.Slots.{EachOnce};
ghost use Rattle.esync_zerocopy.specs.ZeroRules.{zero_rules, zero_wakings};

use super::row::Row;
use super::{ChannelState, RowState, Side, SlotLent};
use esync_base::waitqueue::{Context, Poll, Wakes};
use esync_machine::primitive::{Answer, Command, Primitive, Reach, Turn};
use esync_machine::requests::Requests;
use esync_machine::run::{Reply, run};
use std::alloc::{AllocError, Global};

/// The slot that a side is lent.
#[derive(Clone, Copy, Debug, PartialEq, Eq)]
pub enum Lent<T> {
    /// The number of a slot that the sender can write.
    Spare(usize),
    /// The number of a slot that the receiver can read, and its value.
    Held(usize, T),
}

/// The calls of a zero-copy channel beside its requests. A request is a side that waits for its next slot.
#[derive(Clone, Copy, Debug, PartialEq, Eq)]
pub enum ZeroCall<T> {
    /// Lends the side's next slot, if it has one.
    Try(Side),
    /// Writes into the slot that the sender is lent.
    Write(T),
    /// Sends the sender's next slot, or gives the receiver's next slot back.
    Done(Side),
    /// Ends the loan of the side's slot.
    EndLoan(Side),
    /// Makes all slots spare, unless the opposite side's slot is lent.
    Clear(Side),
    /// Asks how many slots are held.
    Len,
    /// Asks how many slots are spare.
    FreeCapacity,
}

/// The answers of a zero-copy channel.
#[derive(Clone, Copy, Debug, PartialEq, Eq)]
pub enum ZeroHeard<T> {
    /// The slot that the request waited for.
    Lends(Lent<T>),
    /// The slot that a try is lent, if any.
    Tried(Option<Lent<T>>),
    /// The outcome of a clear.
    Cleared(Result<(), SlotLent>),
    /// The number of slots of a kind.
    Count(usize),
}

// Returns what a side is told of the slot that it is lent.
fn told<T: Copy>(side: Side, number: usize, value: T) -> Lent<T>
    ensures sender { side ≡ Side.Sender → result ≡ Lent.Spare number }
    ensures receiver { side ≡ Side.Receiver → result ≡ Lent.Held number value }
{
    match side {
        Side::Sender => Lent::Spare(number),
        Side::Receiver => Lent::Held(number, value),
    }
}

impl<S: Row, W: Copy + Eq> RowState<S, W>
where
    S::Item: Copy,
{
    ghost use Rattle.std.specs.Prelude.{◌≡◌, ◌<◌, ◌++◌, [], None, length};
    ghost use Rattle.esync_zerocopy.specs.Slots.{other, before, is_out, out_if, waiting_unless, wakes_unless};
    ghost use Rattle.esync_zerocopy.specs.ZeroRules.{lent_to, Writes, IsDoneBy, EndsLoan, hands_out_at};
    ghost use Rattle.esync_machine.specs.Wakings.{IsHanded, unless_refused};

    #[tactic(auto, using(crate::specs::LendingLaws::first_kept))]
    fn try_at(&mut self, side: Side) -> Option<Lent<S::Item>>
        ensures lent { result ≡ lent_to side self.old.slots }
        ensures state { self.new ≡ record { slots = record { sides = out_if result side self.old.slots.sides; values = self.old.slots.values }; waiting = self.old.waiting } }
    {
        let number = self.next_slot(side)?;
        let value = *self.lend(side)?;
        Some(told(side, number, value))
    }

    #[tactic(auto, using(crate::specs::LendingLaws::first_kept))]
    fn poll_at<const K: usize>(
        &mut self,
        side: Side,
        waker: W,
        wakes: &mut Wakes<W, K>,
    ) -> Option<Lent<S::Item>>
        requires { length wakes.old < K }
        ensures lent { result ≡ lent_to side self.old.slots }
        ensures none { result ≡ None → before side self.old.slots.sides ≡ [] }
        ensures slots { self.new.slots ≡ record { sides = out_if result side self.old.slots.sides; values = self.old.slots.values } }
        ensures waiting { self.new.waiting ≡ waiting_unless W.eq result side waker self.old.waiting }
        ensures wakes { wakes.new ≡ wakes.old ++ wakes_unless W.eq result side waker self.old.waiting }
    {
        let number = self.next_slot(side);
        let value = match self.poll_lend(side, &Context::from_waker(waker), wakes) {
            Poll::Ready(slot) => Some(*slot),
            Poll::Pending => None,
        };
        Some(told(side, number?, value?))
    }

    fn write_at(&mut self, value: S::Item) -> Answer<ZeroHeard<S::Item>>
        ensures allowed { Writes self.old.slots.sides.sending value self.old.slots result self.new.slots }
        ensures waiting { self.new.waiting ≡ self.old.waiting }
    {
        if !self.is_lent(Side::Sender) {
            return Answer::NoSuch;
        }
        if let Some(slot) = self.try_send() {
            *slot = value;
        }
        Answer::Done
    }

    fn done_at<const K: usize>(
        &mut self,
        side: Side,
        wakes: &mut Wakes<W, K>,
    ) -> Answer<ZeroHeard<S::Item>>
        requires empty { wakes.old ≡ [] }
        requires room { 0 < K }
        ensures allowed { IsDoneBy (before side self.old.slots.sides) side self.old.slots result self.new.slots }
        ensures handed { IsHanded (unless_refused result self.old.waiting (hands_out_at (other side) self.old.waiting)) wakes.new self.new.waiting }
    {
        if self.next_slot(side).is_none() {
            return Answer::NoSuch;
        }
        match side {
            Side::Sender => self.send_done(wakes),
            Side::Receiver => self.receive_done(wakes),
        }
        Answer::Done
    }

    fn end_at(&mut self, side: Side) -> Answer<ZeroHeard<S::Item>>
        ensures allowed { EndsLoan (is_out side self.old.slots.sides) side self.old.slots result self.new.slots }
        ensures waiting { self.new.waiting ≡ self.old.waiting }
    {
        if !self.is_lent(side) {
            return Answer::NoSuch;
        }
        self.end_loan(side);
        Answer::Done
    }
}

impl<S: Row, W: Copy + Eq, const K: usize> Primitive<K> for RowState<S, W>
where
    S::Item: Copy,
{
    type Ask = Side;

    type Held = Side;

    type Call = ZeroCall<S::Item>;

    type Heard = ZeroHeard<S::Item>;

    type Waker = W;

    ghost use Rattle.esync_zerocopy.specs.ZeroRules.{zero_rules, zero_wakings};
    ghost use Rattle.esync_zerocopy.specs.ZeroLaws.{OwesSlot, zero_idle, zero_pending};
    ghost use Rattle.esync_machine.specs.RulesLaws.{all_requests};

    ghost rules = { zero_rules S.Item };

    ghost core = { λ m. m.slots };

    ghost wakings = { zero_wakings W.eq };

    ghost registrations = { λ m. m.waiting };

    ghost most = { 1 };

    ghost Owes = { λ m side w. OwesSlot W.eq m side w };

    ghost Fits = { λ m side. Unit };

    ghost Apart = { λ side side2. Unit };

    fn begin(&self, ask: Side) -> Option<Side> {
        Some(ask)
    }

    #[tactic(auto, using(crate::specs::ZeroLaws::waits_registered))]
    fn poll(
        &mut self,
        held: Side,
        waker: W,
        wakes: &mut Wakes<W, K>,
    ) -> Turn<ZeroHeard<S::Item>, Side> {
        match self.poll_at(held, waker, wakes) {
            Some(lent) => Turn::over(ZeroHeard::Lends(lent)),
            None => Turn::waits(held),
        }
    }

    fn end(&mut self, _held: Side, _wakes: &mut Wakes<W, K>) {}

    fn reach(_call: &ZeroCall<S::Item>) -> Reach {
        Reach::Nobody
    }

    fn leaves(&self, _call: &ZeroCall<S::Item>, _held: &Side) -> bool {
        false
    }

    fn call(
        &mut self,
        call: ZeroCall<S::Item>,
        _place: &mut Option<Side>,
        wakes: &mut Wakes<W, K>,
    ) -> Answer<ZeroHeard<S::Item>> {
        match call {
            ZeroCall::Try(side) => Answer::Gives(ZeroHeard::Tried(self.try_at(side))),
            ZeroCall::Write(value) => self.write_at(value),
            ZeroCall::Done(side) => self.done_at(side, wakes),
            ZeroCall::EndLoan(side) => self.end_at(side),
            ZeroCall::Clear(side) => Answer::Gives(ZeroHeard::Cleared(self.clear(side, wakes))),
            ZeroCall::Len => Answer::Gives(ZeroHeard::Count(self.len())),
            ZeroCall::FreeCapacity => Answer::Gives(ZeroHeard::Count(self.free_capacity())),
        }
    }

    ghost idle = { λ m side w f o. zero_idle m.slots side o.0 };

    ghost pending = { zero_pending };

    ghost no_such = { λ o side a o2 p n k. absurd (n tt) };

    ghost symmetric = { λ side side2 a. tt };

    ghost no_requests = { all_requests (zero_rules S.Item) (λ side. tt) (λ o o2 call p p2 a c. c.1) };
}

/// A zero-copy channel as a machine, with requests at the numbers below `REQS`. Its slots stand in a vector.
pub type ZeroRun<T, W, const REQS: usize, const K: usize> = Requests<ChannelState<T, W>, REQS, K>;

/// The commands of a zero-copy channel.
pub type ZeroCommand<T, W> = Command<Side, W, ZeroCall<T>>;

/// What a zero-copy channel answers to a command, with the wakers that it hands out.
pub type ZeroReply<T, W, const K: usize> = Reply<Answer<ZeroHeard<T>>, W, K>;

/// Runs the commands on the channel, one after another, as `run` does, and returns a reply to each. The answers are
/// those that the slots allow, and no wakeup is lost. At the end each slot stands once in one of the two lists, so that
/// none is lent to both sides.
///
/// # Errors
///
/// Returns the error if there is no memory for the replies. The machine is then unchanged.
pub fn run_zerocopy<S: Row, W: Copy + Eq, const REQS: usize, const K: usize>(
    alloc: Global,
    machine: &mut Requests<RowState<S, W>, REQS, K>,
    commands: Vec<ZeroCommand<S::Item, W>>,
) -> Result<Vec<ZeroReply<S::Item, W, K>>, AllocError>
where
    S::Item: Copy,
    ensures run { IfOk result (λ replies. GoodRunOver (zero_rules S.Item) (λ m. m.slots) (zero_wakings W.eq) (λ m. m.waiting) W.eq K machine.old commands.items replies.items machine.new) }
    ensures once { EachOnce machine.new.state.slots.sides }
    ensures refused { OnErr result (machine.new ≡ machine.old) }
{
    let replies = run(alloc, machine, commands);
    machine.state().once();
    replies
}
