//! The numbers that a primitive gives as names, to subscribers for example. Each is free or in use.
ghost use Rattle.std.specs.Prelude.{◌≡◌, ◌<◌, None, slice_set};
ghost use Rattle.std.proofs.Math.ListN.{replicate};
ghost use Rattle.esync_machine.specs.Numbers.{at_number};
ghost use Rattle.esync_machine.specs.Names.{is_free};

use crate::table::Table;
use esync_base::kept::Kept;
use std::alloc::AllocError;
use std::fmt;
use std::marker::Model;

/// The numbers below `N`. Each is free, or names what was put there.
#[derive_where(Debug; A: fmt::Debug + Drop)]
#[derive(Drop)]
pub struct Names<A, const N: usize> {
    table: Table<A, N>,
}

impl<A, const N: usize> Model for Names<A, N> {
    ghost use Rattle.std.specs.Prelude.{List, Option, length, ◌≡◌};
    ghost use Rattle.std.specs.Coded.{coded_list, coded_option};

    ghost Value = { List (Option A) };

    ghost coded = { coded_list (coded_option A.code) };

    ghost view = { λ a. a.table.places };

    ghost invariant = { λ a. length a.table.places ≡ N };
}

impl<A: Copy, const N: usize> Kept for Names<A, N> {
    fn kept(&self) -> Result<Self, AllocError> {
        Ok(Names { table: self.table })
    }
}

impl<A: Copy, const N: usize> Names<A, N> {
    /// Returns names of which all are free.
    pub fn new() -> Self
        ensures { result ≡ replicate N None }
    {
        Names {
            table: Table::new(),
        }
    }

    /// Returns what the number names. Returns `None` if the number is free or not below `N`.
    pub fn get(&self, r: usize) -> Option<A>
        ensures { result ≡ at_number self.now r }
    {
        self.table.get(r)
    }

    /// Returns whether the number is below `N` and free.
    #[tactic(auto, using(crate::specs::NamesLaws::free_or_not))]
    pub fn is_free(&self, r: usize) -> bool
        ensures { result ≡ is_free r self.now }
    {
        r < N && self.table.get(r).is_none()
    }

    /// Returns what each number names, by number.
    pub fn as_slice(&self) -> &[Option<A>]
        ensures { result.now ≡ self.now }
    {
        &self.table.places
    }

    /// Gives the number to `named` as its name, or frees it with `None`.
    pub fn put(&mut self, r: usize, named: Option<A>)
        requires { r < N }
        ensures { self.new ≡ slice_set self.old r named }
    {
        self.table.put(r, named);
    }
}
