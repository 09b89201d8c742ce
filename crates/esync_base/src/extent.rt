//! How many places a part has: a number of its type, or one that was chosen when it was made.
ghost use Rattle.std.specs.Prelude.{◌≡◌, ℕ};

use crate::limited::Limit;
use std::alloc::AllocError;
use std::marker::{Model, PhantomData};

/// A number of places, the same for all values of the type.
pub trait Extent: Copy {
    /// The number.
    ghost extent: { ℕ };

    /// Returns the number.
    fn get(&self) -> usize
        ensures { result ≡ extent };
}

/// The number `N`, which takes no memory.
#[derive(Clone, Copy, Debug)]
pub struct Fixed<const N: usize> {}

impl<const N: usize> Extent for Fixed<N> {
    ghost extent = { N };

    fn get(&self) -> usize {
        N
    }
}

/// A number that was chosen when a program runs: the one that `B` stands for.
#[derive(Debug)]
pub struct Chosen<B: Limit> {
    number: usize,
    limit: PhantomData<B>,
}

impl<B: Limit> Clone for Chosen<B> {
    ghost use Rattle.std.specs.Prelude.{◌≡◌};

    ghost is_clone = { λ s r. r ≡ s };

    ghost is_infallible = { λ _. Unit {0} };

    fn clone(&self) -> Result<Self, AllocError> {
        Ok(Chosen {
            number: self.number,
            limit: PhantomData,
        })
    }
}

impl<B: Limit> Copy for Chosen<B> {}

impl<B: Limit> Model for Chosen<B> {
    ghost use Rattle.std.specs.Prelude.{◌≡◌};

    ghost Value = { Unit };

    ghost view = { λ a. tt };

    ghost invariant = { λ a. a.number ≡ B.limit };

    ghost inverse = { λ n. record { number = B.limit; limit = record {} } };
}

impl<B: Limit> Chosen<B> {
    /// Returns the number that `B` stands for.
    pub fn new(number: usize) -> Self
        requires { number ≡ B.limit }
    {
        Chosen {
            number,
            limit: PhantomData,
        }
    }
}

impl<B: Limit> Extent for Chosen<B> {
    ghost extent = { B.limit };

    fn get(&self) -> usize {
        self.number
    }
}
