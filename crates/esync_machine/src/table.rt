//! A table of what stands at each number below a limit.
ghost use Rattle.std.specs.Prelude.{◌≡◌, ◌<◌, None, slice_set};
ghost use Rattle.std.proofs.Math.ListN.{replicate};
ghost use Rattle.esync_machine.specs.Numbers.{at_number};

use std::alloc::AllocError;
use std::fmt;

/// What stands at each number below `N`, or `None` where the number is free.
#[derive(Drop)]
pub struct Table<A, const N: usize> {
    pub places: [Option<A>; N],
}

impl<A: Drop, const N: usize> Table<A, N> {
    /// Returns a table in which nothing stands.
    pub fn new() -> Self
        ensures { result.places ≡ replicate N None }
    {
        Table {
            places: Default::default(),
        }
    }
}

impl<A: Copy, const N: usize> Table<A, N> {
    /// Returns what stands at the number. Returns `None` if the number is free or not below `N`.
    pub fn get(&self, r: usize) -> Option<A>
        ensures { result ≡ at_number self.now.places r }
    {
        match self.places.get(r) {
            Some(place) => *place,
            None => None,
        }
    }

    /// Puts something at the number, or frees it with `None`.
    pub fn put(&mut self, r: usize, place: Option<A>)
        requires { r < N }
        ensures { self.new.places ≡ slice_set self.old.places r place }
    {
        self.places[r] = place;
    }
}

impl<A: Copy, const N: usize> Clone for Table<A, N> {
    ghost use Rattle.std.specs.Prelude.{◌≡◌};

    ghost is_clone = { λ s r. r ≡ s };

    ghost is_infallible = { λ _. Unit {0} };

    fn clone(&self) -> Result<Self, AllocError> {
        Ok(*self)
    }
}

impl<A: Copy, const N: usize> Copy for Table<A, N> {}

/// Shows what stands at each number, as a map.
impl<A: Drop + fmt::Debug, const N: usize> fmt::Debug for Table<A, N> {
    fn fmt<F: fmt::Write>(&self, f: &mut fmt::Formatter<F>) -> fmt::Result {
        let mut map = f.debug_map();
        for (r, place) in self.places.iter().enumerate() {
            if let Some(held) = place {
                map.entry(&r, held);
            }
        }
        map.finish()
    }
}
