//! Where a zero-copy channel keeps the values of its slots.
ghost use Rattle.std.specs.Prelude.{◌≡◌, ℕ, List, length, slice_get, slice_set, IfOk};
ghost use Rattle.std.specs.Borrow.{LendsIf, sem};
ghost use Rattle.esync_zerocopy.specs.Lending.{value_lent};

use arrayvec::ArrayVec;
use std::alloc::AllocError;

/// A row of values, one for each slot, which are lent where they stand.
pub trait Row: Drop {
    type Item;

    /// The values, by the numbers of their slots.
    ghost items: { Self → List Self.Item };

    /// The row with another value in the slot of this number.
    ghost with_item: { Self → ℕ → Self.Item → Self };

    /// Returns the number of slots.
    fn len(&self) -> usize
        ensures { result ≡ length (items self.now) };

    /// Lends the value in the slot of this number for writing, if there is such a slot.
    fn lend(&mut self, i: usize) -> Option<&mut Self::Item>
        ensures* lends { sem 𝓛 (LendsIf Self.row Self.Item.row self.entry result (with_item self.old i) self.old) }
        ensures value { value_lent result ≡ slice_get (items self.old) i };

    /// A write at a number changes that slot's value, and no value of another slot.
    ghost written: { (row : Self) (i : ℕ) (v : Self.Item) → items (with_item row i v) ≡ slice_set (items row) i v };
}

/// A row that can be copied.
pub trait CopiedRow: Row + Sized {
    /// Returns a row of copies of these values.
    ///
    /// # Errors
    ///
    /// Returns the error if there is no memory for the copies.
    fn copied(&self) -> Result<Self, AllocError>
        ensures { IfOk result (λ copy. Self.items copy ≡ Self.items self.now) };
}

impl<T: Drop> Row for Vec<T> {
    ghost use Rattle.std.specs.Prelude.{refl};
    ghost use Rattle.std.specs.Vec.{with_item};

    type Item = T;

    ghost items = { λ row. row.items };

    ghost with_item = { with_item };

    fn len(&self) -> usize {
        self.len()
    }

    fn lend(&mut self, i: usize) -> Option<&mut T> {
        self.get_mut(i)
    }

    ghost written = { λ row i v. refl };
}

/// A row that stands in the state itself, and takes no memory beyond it.
impl<T: Drop, const N: usize> Row for ArrayVec<T, N> {
    ghost use Rattle.std.specs.Prelude.{refl};
    ghost use Rattle.arrayvec.specs.ArrayVec.{with_item};

    type Item = T;

    ghost items = { λ row. row.items };

    ghost with_item = { with_item };

    fn len(&self) -> usize {
        self.len()
    }

    fn lend(&mut self, i: usize) -> Option<&mut T> {
        self.get_mut(i)
    }

    ghost written = { λ row i v. refl };
}

impl<T: Copy> CopiedRow for Vec<T> {
    fn copied(&self) -> Result<Self, AllocError> {
        Vec::from_slice(*self.allocator(), self)
    }
}

impl<T: Copy + Default, const N: usize> CopiedRow for ArrayVec<T, N> {
    fn copied(&self) -> Result<Self, AllocError> {
        ArrayVec::try_from(self.as_slice()).map_err(|_| AllocError)
    }
}
