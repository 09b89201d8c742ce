//! Books that are settled with their own seats.
ghost use Rattle.std.specs.Prelude.{◌≡◌, ◌<◌, Some, IfOk};

use esync_history::recorded::Book;
use esync_machine::run::Keep;
use std::alloc::{AllocError, Global};
use std::marker::Brand;
use std::sync::ledger::{Blank, Ledger};

// A book of one call of a machine, settled with the seat that made it.
fn settle_one<M: Keep + Drop, L: Ledger>(
    alloc: Global,
    blank: Blank,
    machine: M,
    call: M::Command,
) -> Result<Option<usize>, AllocError>
where
    M::Command: Copy,
    M::Reply: Copy,
    requires ledger { blank.name ≡ L.name }
    requires parts { blank.parts ≡ L.parts }
    requires room { 1 < blank.parts }
    ensures { IfOk result (λ entries. entries ≡ Some 1) }
{
    let (mut book, mut seats) = Book::<M, L>::new(alloc, blank, machine, 1)?;
    let mut caller = seats.seat();
    book.record(&mut caller, call)?;
    Ok(book.settle(seats, vec![in alloc; caller]?))
}

// A book of a machine without calls, settled with a seat that made none.
fn settle_none<M: Keep + Drop, L: Ledger>(
    alloc: Global,
    blank: Blank,
    machine: M,
) -> Result<Option<usize>, AllocError>
where
    M::Command: Copy,
    M::Reply: Copy,
    requires ledger { blank.name ≡ L.name }
    requires parts { blank.parts ≡ L.parts }
    requires room { 1 < blank.parts }
    ensures { IfOk result (λ entries. entries ≡ Some 0) }
{
    let (book, mut seats) = Book::<M, L>::new(alloc, blank, machine, 1)?;
    let idle = seats.seat();
    Ok(book.settle(seats, vec![in alloc; idle]?))
}

/// How many entries two books have, each of a machine, of which one records a call. Each is settled with its own seat.
///
/// A seat of the one can't settle the other: it has a share of its own book's ledger.
pub fn settle_two<M: Keep + Drop>(
    alloc: Global,
    machine: M,
    other: M,
    call: M::Command,
) -> Result<(Option<usize>, Option<usize>), AllocError>
where
    M::Command: Copy,
    M::Reply: Copy,
    ensures one { IfOk result (λ entries. entries.0 ≡ Some 1) }
    ensures none { IfOk result (λ entries. entries.1 ≡ Some 0) }
{
    let one = settle_one::<M, Brand>(alloc, Blank::new(2), machine, call)?;
    let none = settle_none::<M, Brand>(alloc, Blank::new(2), other)?;
    Ok((one, none))
}
