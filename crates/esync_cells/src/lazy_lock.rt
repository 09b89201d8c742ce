//! A value that is made when it is first asked for, and then stays.

use esync_base::kept::Kept;
pub use shared::LazyLock;
use std::alloc::AllocError;
use std::marker::Model;

pub mod machine;
mod shared;

/// A maker of a value, for when the value is first asked for.
pub trait Maker<T> {
    /// The maker may make this value.
    ghost Makes: { Self → T → Type 0 };

    /// Makes a value and returns it.
    fn make(&self) -> T
        ensures { Makes self.now result };
}

/// A maker that makes a value which was given beforehand.
#[derive(Clone, Copy, Debug, PartialEq, Eq)]
pub struct Given<T> {
    pub value: T,
}

impl<T: Copy> Maker<T> for Given<T> {
    ghost use Rattle.std.specs.Prelude.{◌≡◌};

    ghost Makes = { λ given x. x ≡ given.value };

    fn make(&self) -> T {
        self.value
    }
}

/// The state of a value that is made when it is first asked for: the maker, and the value once it was made.
#[derive(Debug, Drop)]
pub struct LazyState<T, M> {
    data: Option<T>,
    maker: M,
}

impl<T, M> Model for LazyState<T, M> {
    ghost use Rattle.esync_cells.specs.LazyLock.{Lazy, lazy_code};

    ghost Value = { Lazy T M };

    ghost coded = { lazy_code T.code M.code };

    ghost view = { λ a. record { value = a.data; maker = a.maker } };
}

impl<T: Copy, M: Copy> Kept for LazyState<T, M> {
    fn kept(&self) -> Result<Self, AllocError> {
        Ok(LazyState {
            data: self.data,
            maker: self.maker,
        })
    }
}

impl<T: Drop, M: Maker<T> + Drop> LazyState<T, M> {
    ghost use Rattle.std.specs.Prelude.{◌≡◌, None, Some, ⊤};
    ghost use Rattle.std.specs.Borrow.{sem, follows_so};
    ghost use Rattle.std.specs.Option.{option_copied};
    ghost use mathlib.Core.Option.{none};
    ghost use Rattle.esync_cells.specs.LazyLock.{Shows};
    ghost use Rattle.esync_cells.specs.contracts.lazy_lock.LazyState.{the_row};

    /// Returns a lock whose value isn't made yet.
    pub fn new(maker: M) -> Self
        ensures { result ≡ record { value = None; maker = maker } }
    {
        LazyState { data: None, maker }
    }

    /// Returns the value by reference, if it was made.
    pub fn try_get(&self) -> Option<&T>
        ensures { option_copied result ≡ self.now.value }
    {
        self.data.as_ref()
    }

    /// Returns the maker.
    pub fn maker(&self) -> &M
        ensures { result.now ≡ self.now.maker }
    {
        &self.maker
    }

    /// Returns the value by reference. The first call makes it.
    pub fn get(&mut self) -> &T
        ensures* leaves { sem 𝓛 (follows_so (the_row T.row M.row) (the_row T.row M.row) self.entry.ghost_name none (λ _ _. ⊤) (λ v. v ≡ record self.old { value = Some result.now })) }
        ensures shown { Shows (M.Makes self.old.maker) self.old.value result.now }
    {
        if self.data.is_none() {
            self.data = Some(self.maker.make());
        }
        let Some(value) = &self.data else {
            unreachable!()
        };
        value
    }

    /// Returns the value. Makes it if it was not asked for before.
    pub fn into_inner(self) -> T
        ensures { Shows (M.Makes self.maker) self.value result }
    {
        let LazyState { data, maker } = self;
        match data {
            Some(value) => value,
            None => maker.make(),
        }
    }
}
