//! A machine that keeps a journal of the calls that it took.
ghost use Rattle.std.specs.Prelude.{◌≡◌, ◌+◌, ◌<◌, ◌≤◌, [], None, Some, length, IfOk, OnOk, OnErr, ◌↔◌, IsTrue};
ghost use Rattle.std.specs.List.{sum_by};
ghost use Rattle.esync_base.specs.Listed.{has_number};
ghost use Rattle.esync_machine.specs.Histories.{IsLike};
ghost use Rattle.esync_history.specs.Journal.{Replays, Owing, IsRecorded, WasRecorded, CountsOne, same_entry, IsEntry, AreEntries};

use esync_base::blocking_mutex::CriticalSectionMutex;
use esync_machine::run::Keep;
pub use seating::{Seat, Seats};
use std::alloc::{AllocError, Global};
use std::marker::Model;
use std::sync::ledger::{Blank, Ledger, Share};
use std::sync::{Wait, ledger};

mod seating;

/// A call that a machine took: the seat that made it, its command, and its reply with the wakers that it handed out.
#[derive(Clone, Copy, Debug, PartialEq, Eq)]
pub struct Entry<C, A> {
    pub seat: usize,
    pub command: C,
    pub reply: A,
}

/// The receipt of a call: the number of its entry in the journal, and the entry.
#[derive(Clone, Copy, Debug, PartialEq, Eq)]
pub struct Receipt<C, A> {
    pub number: usize,
    pub entry: Entry<C, A>,
}

/// A machine with the journal of its calls, and a machine as it was when the journal began. Played again from there,
/// the journal's commands may get the journal's replies.
#[derive(Drop)]
pub struct Book<M: Keep, L: Ledger> {
    opening: M,
    journal: Vec<Entry<M::Command, M::Reply>>,
    machine: M,
    calls: ledger::Book<L>,
}

impl<M: Keep, L: Ledger> Model for Book<M, L> {
    ghost use Rattle.std.specs.Prelude.{◌≡◌, length};
    ghost use Rattle.esync_history.specs.Journal.{Recording, IsKept};

    ghost Value = { Recording M M.Command M.Reply };

    ghost view = { λ a. record { opening = a.opening; journal = a.journal.items; machine = a.machine } };

    ghost invariant = { λ a. IsKept M.semantics a.opening a.journal.items a.machine × (a.calls.total ≡ length a.journal.items) };
}

impl<M: Keep + Drop, L: Ledger> Book<M, L>
where
    M::Command: Copy,
    M::Reply: Copy,
{
    /// Returns a book of this machine, with an empty journal, and `seats` seats for its callers. The ledger must have
    /// more parts than that.
    ///
    /// # Errors
    ///
    /// Returns the error if there is no memory for the opening.
    pub fn new(
        alloc: Global,
        blank: Blank,
        machine: M,
        seats: usize,
    ) -> Result<(Self, Seats<L>), AllocError>
        requires ledger { blank.name ≡ L.name }
        requires parts { blank.parts ≡ L.parts }
        requires room { seats < blank.parts }
        ensures opening { IfOk result (λ made. IsLike M.semantics made.0.opening machine) }
        ensures journal { IfOk result (λ made. made.0.journal ≡ []) }
        ensures machine { IfOk result (λ made. made.0.machine ≡ machine) }
        ensures seats { IfOk result (λ made. made.1 ≡ record { made = 0; left = seats }) }
    {
        let opening = machine.keep()?;
        let (calls, all) = blank.open::<L>();
        let book = Book {
            opening,
            journal: Vec::new(alloc),
            machine,
            calls,
        };
        Ok((book, Seats::new(all, seats)))
    }

    /// Makes the call for this seat, and appends it with its reply to the journal. Returns its receipt.
    ///
    /// # Errors
    ///
    /// Returns the error if there is no memory for the entry. Room is made first, so no call was made.
    pub fn record(
        &mut self,
        seat: &mut Seat<L>,
        command: M::Command,
    ) -> Result<Receipt<M::Command, M::Reply>, AllocError>
        ensures recorded { IfOk result (λ receipt. IsRecorded M.semantics self.old seat.old command receipt self.new seat.new) }
        ensures refused { OnErr result (self.new ≡ self.old) }
        ensures uncounted { OnErr result (seat.new ≡ seat.old) }
        ensures replays { Replays M.semantics self.new }
        ensures counts { OnOk result (CountsOne seat.old.number self.old.journal self.new.journal) }
        ensures within { OnOk result (seat.new.calls ≤ length self.new.journal) }
    {
        self.journal.reserve(1)?;
        let number = self.journal.len();
        let reply = self.machine.step(command);
        let entry = Entry {
            seat: seat.number(),
            command,
            reply,
        };
        self.journal.push(entry)?;
        seat.count(&mut self.calls);
        Ok(Receipt { number, entry })
    }

    /// Returns the number of the journal's entries if all seats that were made are handed in: it is the sum of their
    /// calls. Otherwise returns `None`.
    pub fn settle(self, seats: Seats<L>, handed_in: Vec<Seat<L>>) -> Option<usize>
        ensures all { length handed_in.items ≡ seats.made → result ≡ Some (length self.journal) }
        ensures sum { length handed_in.items ≡ seats.made → sum_by (λ seat. seat.calls) handed_in.items ≡ length self.journal }
        ensures missing { (length handed_in.items ≡ seats.made → ⊥) → result ≡ None }
    {
        let Book {
            journal,
            mut calls,
            ..
        } = self;
        let (made, mut all) = seats.into_spare();
        if handed_in.len() != made {
            return None;
        }
        merge_all(&mut all, handed_in);
        calls.audit(&mut all);
        Some(journal.len())
    }
}

impl<M: Keep + Drop, L: Ledger> Book<M, L> {
    /// Returns the machine as it was when the journal began.
    pub fn opening(&self) -> &M
        ensures { result.now ≡ self.now.opening }
    {
        &self.opening
    }

    /// Returns the journal, which is a run from the opening: each answer is one that the object allows, no wakeup was
    /// lost, and each call handed out exactly the wakers that the table of wakes names. The machine owes its last waker
    /// to each request that waits and wasn't woken.
    pub fn journal(&self) -> &[Entry<M::Command, M::Reply>]
        ensures entries { result.now ≡ self.now.journal }
        ensures replays { Replays M.semantics self.now }
        ensures owing { Owing M.semantics self.now }
    {
        &self.journal
    }

    /// Returns the machine, after the journal's last call.
    pub fn machine(&self) -> &M
        ensures { result.now ≡ self.now.machine }
    {
        &self.machine
    }
}

// Merges the shares of the seats.
fn merge_all<L: Ledger>(all: &mut Share<L>, seats: Vec<Seat<L>>)
    ensures parts { all.new.parts ≡ all.old.parts + length seats.items }
    ensures amount { all.new.amount ≡ all.old.amount + sum_by (λ seat. seat.calls) seats.items }
{
    let mut seats = seats;
    while let Some(seat) = seats.pop() {
        all.merge(seat.into_share());
    }
}

/// A machine with the journal of its calls, under one lock. Threads share it by reference, each with a seat of its own.
#[derive(Drop)]
pub struct Recorded<M: Keep, L: Ledger> {
    book: CriticalSectionMutex<Book<M, L>>,
}

impl<M: Keep + Drop, L: Ledger> Recorded<M, L>
where
    M::Command: Copy,
    M::Reply: Copy,
{
    /// Returns this machine under a lock, with an empty journal, and `seats` seats for its callers. The ledger must
    /// have more parts than that.
    ///
    /// # Errors
    ///
    /// Returns the error if there is no memory for the opening. What was handed in is dropped.
    pub fn new(
        alloc: Global,
        blank: Blank,
        machine: M,
        seats: usize,
    ) -> Result<(Self, Seats<L>), AllocError>
        requires ledger { blank.name ≡ L.name }
        requires parts { blank.parts ≡ L.parts }
        requires room { seats < blank.parts }
        ensures { IfOk result (λ made. made.1 ≡ record { made = 0; left = seats }) }
    {
        let (book, seats) = Book::new(alloc, blank, machine, seats)?;
        let book = CriticalSectionMutex::new(book);
        Ok((Recorded { book }, seats))
    }

    /// Takes the lock, makes the call for this seat, and appends it with its reply to the journal. Returns its receipt.
    ///
    /// # Errors
    ///
    /// Returns the error if there is no memory for the entry. No call was made.
    pub fn call(
        &self,
        rt: &impl Wait,
        seat: &mut Seat<L>,
        command: M::Command,
    ) -> Result<Receipt<M::Command, M::Reply>, AllocError>
        ensures recorded { IfOk result (λ receipt. WasRecorded M.semantics seat.old command receipt seat.new) }
        ensures refused { OnErr result (seat.new ≡ seat.old) }
    {
        let mut book = self.book.guard(rt);
        book.record(seat, command)
    }

    /// Returns the machine with its journal, without the lock.
    pub fn into_book(self) -> Book<M, L>
        ensures { Replays M.semantics result }
    {
        let book = self.book.into_inner();
        let _journal = book.journal();
        book
    }
}

/// Returns whether each receipt matches the book's entry at its number, with equal commands and replies, and no number
/// occurs twice.
pub fn audit<M: Keep, L: Ledger>(
    receipts: &[Receipt<M::Command, M::Reply>],
    book: &Book<M, L>,
) -> bool
where
    M::Command: Copy + Eq,
    M::Reply: Copy + Eq,
    ensures { IsTrue result ↔ AreEntries (same_entry M.Command.eq M.Reply.eq) book.now.journal receipts.now }
{
    are_entries(receipts, &book.journal)
}

fn are_entries<C: Eq, A: Eq>(receipts: &[Receipt<C, A>], journal: &[Entry<C, A>]) -> bool
    ensures { IsTrue result ↔ AreEntries (same_entry C.eq A.eq) journal.now receipts.now }
{
    let mut rest = receipts;
    while let Some((receipt, behind)) = rest.split_first() {
        if !is_entry(receipt, journal) || any_has_number(behind, receipt.number) {
            return false;
        }
        rest = behind;
    }
    true
}

// Returns whether the receipt matches the entry at its number.
fn is_entry<C: Eq, A: Eq>(receipt: &Receipt<C, A>, journal: &[Entry<C, A>]) -> bool
    ensures { IsTrue result ↔ IsEntry (same_entry C.eq A.eq) journal.now receipt.now }
{
    match journal.get(receipt.number) {
        Some(entry) => *entry == receipt.entry,
        None => false,
    }
}

// Returns whether one of the receipts has the number.
fn any_has_number<C, A>(receipts: &[Receipt<C, A>], number: usize) -> bool
    ensures { result ≡ has_number (λ receipt. receipt.number) number receipts.now }
{
    receipts.iter().any(|receipt| receipt.number == number)
}
