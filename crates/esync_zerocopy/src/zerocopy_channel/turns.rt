//! Whose turn each slot is, by its number, and the wakers of the sides that wait for one.
ghost use Rattle.std.specs.Prelude.{◌≡◌, ℕ, ◌<◌, ◌≤◌, ◌+◌, ◌-◌, ◌++◌, [], length, take, drop, slice_get, IfSome, is_ok, ◌↔◌, IsTrue, false};
ghost use Rattle.esync_base.specs.Registration.{registered, displaced};
ghost use Rattle.esync_base.specs.Ring.{next};
ghost use Rattle.esync_zerocopy.specs.Slots.{all_spare, count, other, before, is_out, with_out, out_if, done_by, cleared, cleared_if, waits_at, with_waits, waiting_unless, wakes_unless, waiting_if_cleared, wakes_if_cleared, ring_from, IsRound, EachOnce};

use super::{Side, SlotLent};
use esync_base::waitqueue::{Context, Poll, Registered, WakerRegistration, Wakes};
use std::marker::Model;

mod kept;

// A run of numbers of a ring: its first number and its length.
#[derive(Clone, Copy, Debug)]
struct Run {
    first: usize,
    len: usize,
}

impl Run {
    // Returns the run's first number, if it has one.
    fn next(&self) -> Option<usize>
        ensures { (n : ℕ) → result ≡ slice_get (ring_from n self.now.first self.now.len) 0 }
    {
        if self.len > 0 { Some(self.first) } else { None }
    }
}

// Returns the number behind this one.
#[tactic(auto, using(std::proofs::lemmas::Bool::Decides::nat_tests))]
fn behind(number: usize, capacity: usize) -> usize
    requires { number < capacity }
    ensures { result ≡ next capacity number }
{
    if number + 1 < capacity { number + 1 } else { 0 }
}

// Moves the first number of a run behind the second run.
#[tactic(auto, using(crate::proofs::Rounds::round_advanced, crate::proofs::Rounds::ring_less, crate::proofs::Rounds::ring_grown, crate::proofs::Rounds::next_within))]
fn advance(from: &mut Run, to: &mut Run, capacity: usize)
    requires round { IsRound capacity from.old.first from.old.len to.old.first to.old.len }
    requires some { 0 < from.old.len }
    requires within { from.old.first < capacity }
    ensures round { IsRound capacity from.new.first from.new.len to.new.first to.new.len }
    ensures less { ring_from capacity from.new.first from.new.len ≡ drop 1 (ring_from capacity from.old.first from.old.len) }
    ensures grown { ring_from capacity to.new.first to.new.len ≡ ring_from capacity to.old.first to.old.len ++ take 1 (ring_from capacity from.old.first from.old.len) }
    ensures within { from.new.first < capacity }
    ensures same { to.new.first ≡ to.old.first }
{
    from.first = behind(from.first, capacity);
    from.len -= 1;
    to.len += 1;
}

/// Which slots are spare, which are held, whose is out, and the wakers of the sides that wait for one.
#[derive(Debug, Drop)]
pub struct Turns<W> {
    capacity: usize,
    spare: Run,
    held: Run,
    sending: bool,
    receiving: bool,
    send_waker: WakerRegistration<W>,
    receive_waker: WakerRegistration<W>,
}

impl<W> Model for Turns<W> {
    ghost use Rattle.std.specs.Prelude.{◌<◌};
    ghost use Rattle.esync_zerocopy.specs.Slots.{Turning, turning_code, ring_from, IsRound};

    ghost Value = { Turning W };

    ghost coded = { turning_code W.code };

    ghost view = { λ a. record {
      sides = record {
        spare = ring_from a.capacity a.spare.first a.spare.len;
        held = ring_from a.capacity a.held.first a.held.len;
        sending = a.sending;
        receiving = a.receiving;
      };
      waiting = record { senders = a.send_waker; receivers = a.receive_waker };
    } };

    ghost invariant = { λ a. IsRound a.capacity a.spare.first a.spare.len a.held.first a.held.len × (a.spare.first < a.capacity) × (a.held.first < a.capacity) };
}

impl<W: Copy + Eq> Registered for Turns<W> {
    type Waker = W;

    ghost use Rattle.esync_base.specs.Standing.{at_two};

    ghost at = { λ m. at_two m.waiting.receivers m.waiting.senders };

    fn registered(&self, place: usize, i: usize) -> Option<W> {
        match place {
            0 => self.receive_waker.get(i),
            1 => self.send_waker.get(i),
            _ => None,
        }
    }
}

impl<W: Copy + Eq> Turns<W> {
    /// Returns the turns of a channel of this many slots: all spare, none out, and no waker.
    #[tactic(auto, using(crate::proofs::Rounds::round_of_all, crate::proofs::Rounds::ring_numbers))]
    pub fn new(capacity: usize) -> Self
        requires { 0 < capacity }
        ensures sides { result.sides ≡ all_spare capacity }
        ensures senders { result.waiting.senders ≡ [] }
        ensures receivers { result.waiting.receivers ≡ [] }
    {
        Turns {
            capacity,
            spare: Run {
                first: 0,
                len: capacity,
            },
            held: Run { first: 0, len: 0 },
            sending: false,
            receiving: false,
            send_waker: WakerRegistration::new(),
            receive_waker: WakerRegistration::new(),
        }
    }

    /// Returns whether it is the same side's turn at each slot, in the same order, and the same slots are out. `false`
    /// claims nothing.
    pub fn are_same(&self, other: &Self) -> bool
        ensures { IsTrue result → self.now.sides ≡ other.now.sides }
    {
        self.capacity == other.capacity
            && self.spare.first == other.spare.first
            && self.spare.len == other.spare.len
            && self.held.first == other.held.first
            && self.held.len == other.held.len
            && self.sending == other.sending
            && self.receiving == other.receiving
    }

    /// Returns the number of the side's next slot, if it has one.
    #[tactic(auto, using(crate::proofs::Rounds::count_of_round))]
    pub fn next(&self, side: Side) -> Option<usize>
        ensures number { result ≡ slice_get (before side self.now.sides) 0 }
        ensures within { IfSome result (λ number. number < count self.now.sides) }
    {
        match side {
            Side::Sender => self.spare.next(),
            Side::Receiver => self.held.next(),
        }
    }

    fn set_out(&mut self, side: Side, out: bool)
        ensures { self.new ≡ record { sides = with_out side out self.old.sides; waiting = self.old.waiting } }
    {
        match side {
            Side::Sender => self.sending = out,
            Side::Receiver => self.receiving = out,
        }
    }

    /// Takes the side's next slot out and returns its number. Returns `None` if the side has no slot. Until the side is
    /// done, it takes the same slot again.
    pub fn lend(&mut self, side: Side) -> Option<usize>
        ensures number { result ≡ slice_get (before side self.old.sides) 0 }
        ensures within { IfSome result (λ number. number < count self.old.sides) }
        ensures state { self.new ≡ record { sides = out_if result side self.old.sides; waiting = self.old.waiting } }
    {
        let number = self.next(side);
        if number.is_some() {
            self.set_out(side, true);
        }
        number
    }

    fn register<const K: usize>(&mut self, side: Side, waker: W, wakes: &mut Wakes<W, K>)
        requires { length wakes.old < K }
        ensures state { self.new ≡ record { sides = self.old.sides; waiting = with_waits side (registered W.eq 1 (waits_at side self.old.waiting) waker) self.old.waiting } }
        ensures wakes { wakes.new ≡ wakes.old ++ displaced W.eq 1 (waits_at side self.old.waiting) waker }
    {
        match side {
            Side::Sender => self.send_waker.register(waker, wakes),
            Side::Receiver => self.receive_waker.register(waker, wakes),
        }
    }

    /// Takes the side's next slot out and returns its number. If the side has no slot, registers the context's waker.
    pub fn poll_lend<const K: usize>(
        &mut self,
        side: Side,
        cx: &Context<W>,
        wakes: &mut Wakes<W, K>,
    ) -> Option<usize>
        requires { length wakes.old < K }
        ensures number { result ≡ slice_get (before side self.old.sides) 0 }
        ensures within { IfSome result (λ number. number < count self.old.sides) }
        ensures sides { self.new.sides ≡ out_if result side self.old.sides }
        ensures waiting { self.new.waiting ≡ waiting_unless W.eq result side cx.now self.old.waiting }
        ensures wakes { wakes.new ≡ wakes.old ++ wakes_unless W.eq result side cx.now self.old.waiting }
    {
        let number = self.lend(side);
        if number.is_none() {
            self.register(side, cx.waker(), wakes);
        }
        number
    }

    /// Moves the side's next slot behind the opposite side's slots, and hands out the opposite side's waker. The side
    /// must have a slot.
    #[tactic(auto, using(crate::proofs::Rounds::turned_round, crate::proofs::Rounds::length_ring))]
    pub fn done<const K: usize>(&mut self, side: Side, wakes: &mut Wakes<W, K>)
        requires room { length wakes.old < K }
        requires some { 0 < length (before side self.old.sides) }
        ensures state { self.new ≡ record { sides = done_by side self.old.sides; waiting = with_waits (other side) [] self.old.waiting } }
        ensures wakes { wakes.new ≡ wakes.old ++ waits_at (other side) self.old.waiting }
    {
        match side {
            Side::Sender => {
                advance(&mut self.spare, &mut self.held, self.capacity);
                self.sending = false;
                self.receive_waker.wake(wakes);
            }
            Side::Receiver => {
                advance(&mut self.held, &mut self.spare, self.capacity);
                self.receiving = false;
                self.send_waker.wake(wakes);
            }
        }
    }

    /// Ends the loan of the side's slot, which stays where it is.
    pub fn end_loan(&mut self, side: Side)
        ensures { self.new ≡ record { sides = with_out side false self.old.sides; waiting = self.old.waiting } }
    {
        self.set_out(side, false);
    }

    /// Returns whether the side's slot is out.
    pub fn is_out(&self, side: Side) -> bool
        ensures { result ≡ is_out side self.now.sides }
    {
        match side {
            Side::Sender => self.sending,
            Side::Receiver => self.receiving,
        }
    }

    /// Makes all slots spare, ends the side's own loan, and hands out the sender's waker.
    ///
    /// # Errors
    ///
    /// Returns `SlotLent` if the opposite side's slot is out. Nothing is changed.
    #[tactic(auto, using(crate::proofs::Rounds::count_of_round, crate::proofs::Rounds::round_of_all, crate::proofs::Rounds::ring_numbers))]
    pub fn clear<const K: usize>(
        &mut self,
        side: Side,
        wakes: &mut Wakes<W, K>,
    ) -> Result<(), SlotLent>
        requires { length wakes.old < K }
        ensures answer { result ≡ cleared (is_out (other side) self.old.sides) }
        ensures state { self.new ≡ record { sides = cleared_if (is_ok result) self.old.sides; waiting = waiting_if_cleared (is_ok result) self.old.waiting } }
        ensures wakes { wakes.new ≡ wakes.old ++ wakes_if_cleared (is_ok result) self.old.waiting }
    {
        let is_lent = match side {
            Side::Sender => self.receiving,
            Side::Receiver => self.sending,
        };
        if is_lent {
            return Err(SlotLent);
        }
        self.spare = Run {
            first: 0,
            len: self.capacity,
        };
        self.held = Run { first: 0, len: 0 };
        self.sending = false;
        self.receiving = false;
        self.send_waker.wake(wakes);
        Ok(())
    }

    /// Proves that each slot stands once in one of the two lists. Does nothing.
    pub fn once(&self)
        ensures { EachOnce self.now.sides }
    {
        let _capacity = &self.capacity;
    }

    /// Returns the number of slots that are held.
    #[tactic(auto, using(crate::proofs::Rounds::length_ring))]
    pub fn len(&self) -> usize
        ensures { result ≡ length self.now.sides.held }
    {
        self.held.len
    }

    /// Returns the number of slots that are spare.
    #[tactic(auto, using(crate::proofs::Rounds::length_ring))]
    pub fn free_capacity(&self) -> usize
        ensures { result ≡ length self.now.sides.spare }
    {
        self.spare.len
    }

    /// Returns the number of slots.
    #[tactic(auto, using(crate::proofs::Rounds::count_of_round))]
    pub fn capacity(&self) -> usize
        ensures { result ≡ count self.now.sides }
    {
        self.capacity
    }
}
