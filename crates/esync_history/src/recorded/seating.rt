//! The seats from which a recorded machine is called.
ghost use Rattle.std.specs.Prelude.{◌≡◌, ◌+◌, ◌<◌, ◌≤◌};

use std::marker::Model;
use std::sync::ledger::{Book, Ledger, Share};

/// A seat at a recorded machine: the entries with its number are its owner's calls. It has a share of the machine's
/// ledger, so a seat of another machine can't be handed in, and it can't be copied.
#[derive(Drop)]
pub struct Seat<L: Ledger> {
    number: usize,
    calls: usize,
    share: Share<L>,
}

impl<L: Ledger> Model for Seat<L> {
    ghost use Rattle.std.specs.Prelude.{◌≡◌};
    ghost use Rattle.esync_history.specs.Journal.{Seated};

    ghost Value = { Seated };

    ghost view = { λ a. record { number = a.number; calls = a.calls } };

    ghost invariant = { λ a. (a.share.parts ≡ 1) × (a.share.amount ≡ a.calls) };
}

impl<L: Ledger> Seat<L> {
    /// Returns the seat's number. Seats are numbered from 0, in the order in which they were made.
    pub fn number(&self) -> usize
        ensures { result ≡ self.now.number }
    {
        self.number
    }

    /// Returns how many calls were recorded for the seat.
    pub fn calls(&self) -> usize
        ensures { result ≡ self.now.calls }
    {
        self.calls
    }

    // Counts a call, in the seat and in the book.
    pub(super) fn count(&mut self, book: &mut Book<L>)
        requires { book.old.total + 1 < 18446744073709551616 }
        ensures number { self.new.number ≡ self.old.number }
        ensures calls { self.new.calls ≡ self.old.calls + 1 }
        ensures total { book.new.total ≡ book.old.total + 1 }
        ensures within { self.new.calls ≤ book.new.total }
    {
        book.audit(&mut self.share);
        book.add(&mut self.share, 1);
        self.calls += 1;
    }

    // Returns the seat's share, whose amount is the number of the seat's calls.
    pub(super) fn into_share(self) -> Share<L>
        ensures parts { result.parts ≡ 1 }
        ensures amount { result.amount ≡ self.calls }
    {
        let Seat { share, .. } = self;
        share
    }
}

/// The seats of a recorded machine that weren't made yet.
#[derive(Drop)]
pub struct Seats<L: Ledger> {
    made: usize,
    left: usize,
    spare: Share<L>,
}

impl<L: Ledger> Model for Seats<L> {
    ghost use Rattle.std.specs.Prelude.{◌≡◌, ◌+◌, ◌<◌};
    ghost use Rattle.esync_history.specs.Journal.{Seating};

    ghost Value = { Seating };

    ghost view = { λ a. record { made = a.made; left = a.left } };

    ghost invariant = { λ a. (a.spare.parts + a.made ≡ L.parts) × (a.left < a.spare.parts) × (a.spare.amount ≡ 0) × (a.made + a.left < 18446744073709551616) };
}

impl<L: Ledger> Seats<L> {
    // Returns `seats` seats to be made, from all shares of the ledger.
    pub(super) fn new(all: Share<L>, seats: usize) -> Self
        requires parts { all.parts ≡ L.parts }
        requires amount { all.amount ≡ 0 }
        requires room { seats < all.parts }
        ensures { result ≡ record { made = 0; left = seats } }
    {
        Seats {
            made: 0,
            left: seats,
            spare: all,
        }
    }

    /// Returns how many seats can still be made.
    pub fn seats_left(&self) -> usize
        ensures { result ≡ self.now.left }
    {
        self.left
    }

    /// Makes the next seat. There must be one left.
    pub fn seat(&mut self) -> Seat<L>
        requires { 0 < self.old.left }
        ensures seat { result ≡ record { number = self.old.made; calls = 0 } }
        ensures made { self.new.made ≡ self.old.made + 1 }
        ensures left { self.new.left + 1 ≡ self.old.left }
    {
        let number = self.made;
        let share = self.spare.split_off(1, 0);
        self.made += 1;
        self.left -= 1;
        Seat {
            number,
            calls: 0,
            share,
        }
    }

    // Returns how many seats were made, and the shares of the ledger that no seat has.
    pub(super) fn into_spare(self) -> (usize, Share<L>)
        ensures made { result.0 ≡ self.made }
        ensures parts { result.1.parts + self.made ≡ L.parts }
        ensures amount { result.1.amount ≡ 0 }
    {
        let Seats { made, spare, .. } = self;
        (made, spare)
    }
}
