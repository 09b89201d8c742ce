//! How far each subscriber of a log has read, at its place.
ghost use Rattle.std.specs.Prelude.{◌≡◌, ◌<◌, ◌≤◌, ◌^◌, None, true, replicate, slice_set, slice_index_or, is_some, IfSome, IfNone};
ghost use Rattle.std.specs.List.{list_all};
ghost use Rattle.esync_log.specs.Log.{IsLeastFree};

use esync_base::extent::Extent;
use esync_base::kept::Kept;
use std::alloc::AllocError;
use std::fmt;
use std::marker::Model;

/// The number that each subscriber reads next, at its place.
pub trait Places {
    ghost use Rattle.std.specs.Prelude.{ℕ, List, Option};

    /// How many places there are.
    ghost extent: { ℕ };

    /// The numbers, or `None` at a place without a subscriber.
    ghost numbers: { Self → List (Option ℕ) };

    /// Returns the numbers.
    fn as_slice(&self) -> &[Option<u64>]
        ensures value { result.now ≡ numbers self.now }
        ensures room { extent < 2 ^ 64 };

    /// Returns the number at the place, if a subscriber is there.
    fn get(&self, place: usize) -> Option<u64>
        ensures { result ≡ slice_index_or (numbers self.now) place None };

    /// Puts a subscriber at the place, or none.
    fn put(&mut self, place: usize, position: Option<u64>)
        requires { place < extent }
        ensures { numbers self.new ≡ slice_set (numbers self.old) place position };

    /// Returns the least place without a subscriber, if there is one.
    fn free_place(&self) -> Option<usize>
        ensures found { IfSome result (λ place. IsLeastFree place (numbers self.now)) }
        ensures none { IfNone result (list_all is_some (numbers self.now) ≡ true) }
        ensures room { extent < 2 ^ 64 };
}

/// A row of as many places as `E` says, for which there is `ROOM`.
#[derive_where(Debug; E: fmt::Debug)]
#[derive(Drop)]
pub struct Positions<E: Extent, const ROOM: usize> {
    places: E,
    row: [Option<u64>; ROOM],
}

impl<E: Extent, const ROOM: usize> Model for Positions<E, ROOM> {
    ghost use Rattle.std.specs.Prelude.{ℕ, List, Option, length, take, ◌≤◌};
    ghost use Rattle.std.specs.Coded.{coded_ℕ, coded_list, coded_option};

    ghost Value = { List (Option ℕ) };

    ghost coded = { coded_list (coded_option coded_ℕ) };

    ghost view = { λ a. take E.extent a.row };

    ghost invariant = { λ a. E.extent ≤ length a.row };
}

impl<E: Extent, const ROOM: usize> Positions<E, ROOM> {
    /// Returns a row without subscribers, of as many places as `places` says.
    pub fn new(places: E) -> Self
        requires { E.extent ≤ ROOM }
        ensures { result ≡ replicate E.extent None }
    {
        Positions {
            places,
            row: [None; ROOM],
        }
    }
}

impl<E: Extent, const ROOM: usize> Places for Positions<E, ROOM> {
    ghost extent = { E.extent };

    ghost numbers = { λ row. row };

    fn as_slice(&self) -> &[Option<u64>] {
        &self.row[..self.places.get()]
    }

    fn get(&self, place: usize) -> Option<u64> {
        match self.as_slice().get(place) {
            Some(position) => *position,
            None => None,
        }
    }

    fn put(&mut self, place: usize, position: Option<u64>) {
        let row: &mut [Option<u64>] = &mut self.row;
        row[place] = position;
    }

    fn free_place(&self) -> Option<usize> {
        let row = self.as_slice();
        for place in 0..row.len() {
            if row[place].is_none() {
                return Some(place);
            }
        }
        None
    }
}

impl<E: Extent, const ROOM: usize> Kept for Positions<E, ROOM> {
    fn kept(&self) -> Result<Self, AllocError> {
        Ok(Positions {
            places: self.places,
            row: self.row,
        })
    }
}
