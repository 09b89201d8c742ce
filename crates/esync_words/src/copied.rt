//! Copies of machines.
ghost use Rattle.std.specs.Prelude.{◌≡◌, IfOk};

use esync_base::extent::Extent;
use esync_base::kept::Kept;
use esync_machine::primitive::Primitive;
use esync_machine::requests::RequestsOver;
use esync_machine::run::Machine;
use std::alloc::AllocError;

/// A machine that can be copied: a trial on the copy leaves the machine itself unchanged.
pub trait Copied: Sized {
    ghost use Rattle.std.specs.Prelude.{ℕ, Bool};

    /// A copy has the same object as its machine, and the same registered wakers.
    ghost IsCopy: { Self → Self → Type 0 };

    /// Whether something stands at a number.
    ghost is_taken: { Self → ℕ → Bool };

    fn copied(&self) -> Result<Self, AllocError>
        ensures { IfOk result (λ copy. IsCopy copy self.now) };

    /// Returns whether something stands at the number.
    fn stands(&self, number: usize) -> bool
        ensures { result ≡ is_taken self.now number };
}

impl<P: Primitive<K> + Kept, E: Extent, const ROOM: usize, const K: usize> Copied
    for RequestsOver<P, E, ROOM, K>
where
    P::Held: Copy,
{
    ghost use Rattle.std.specs.Prelude.{is_some};
    ghost use Rattle.esync_machine.specs.Histories.{IsLike};
    ghost use Rattle.esync_machine.specs.Numbers.{at_number};

    ghost IsCopy = { IsLike ⟦<RequestsOver<P, E, ROOM, K> as Machine>⟧.semantics };

    ghost is_taken = { λ m number. is_some (at_number m.requests number) };

    fn copied(&self) -> Result<Self, AllocError> {
        self.kept()
    }

    fn stands(&self, number: usize) -> bool {
        match self.requests().get(number) {
            Some(place) => place.is_some(),
            None => false,
        }
    }
}
