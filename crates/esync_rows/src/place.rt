//! A place that holds an item, or only the bytes of one. Nothing in the place says which.
//!
//! Rust's `MaybeUninit` is such a place. Here the bytes are always those of some item, so that a place can be read and
//! copied as memory. Whether the bytes are an item, which is owned, is known to the proofs alone.
ghost use Rattle.std.specs.Prelude.{◌≡◌, Option, Some, None, IsSome};
ghost use Rattle.std.specs.Coded.{coded_option};
ghost use Rattle.esync_rows.specs.Place.{place_owns, place_lends};

use std::marker::{Move, Owns, Send, Sync};

/// A place of exactly an item's bytes. A clause sees the item that the place holds, as an option.
pub struct Place<T> {
    item: T,
}

impl<T> Owns for Place<T> {
    ghost Value = { Option T };

    ghost coded = { coded_option T.code };

    ghost shr_at = { λ d p κ. place_lends (λ x b o. Fields.shr_at (record { item = x }) b o κ) d p };
}

impl<T> Move for Place<T> {
    ghost own_val = { λ d vs. place_owns (λ x. Fields.own_val (record { item = x }) vs) d };
}

unsafe impl<T: Send> Send for Place<T> {}

unsafe impl<T: Sync> Sync for Place<T> {}

impl<T> Place<T> {
    /// Returns a place that holds the item.
    pub fn new(item: T) -> Place<T>
        ensures { result ≡ Some item }
    {
        Place { item }
    }

    /// Takes the item and returns it. The place keeps only the item's bytes.
    pub fn take(&mut self) -> T
        requires { IsSome self.old }
        ensures item { self.old ≡ Some result }
        ensures empty { self.new ≡ None }
    {
        let place = &raw mut self.item;
        unsafe { place.read() }
    }

    /// Puts an item into an empty place, over the bytes that are there.
    pub fn put(&mut self, item: T)
        requires { self.old ≡ None }
        ensures { self.new ≡ Some item }
    {
        let place = &raw mut self.item;
        unsafe { place.write(item) }
    }

    /// Returns a place with the same bytes that holds nothing.
    pub fn spare(&mut self) -> Place<T>
        ensures spare { result ≡ None }
        ensures same { self.new ≡ self.old }
    {
        let place = self as *mut Place<T>;
        unsafe { place.read() }
    }

    /// Returns the item in the place.
    pub fn get(&self) -> &T
        requires { IsSome self.now }
        ensures { self.now ≡ Some result.now }
    {
        &self.item
    }
}
