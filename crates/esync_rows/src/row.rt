//! N places, each with an item or without one. Nothing in them says which: the container that owns the row knows it, as
//! a queue does by its length.
ghost use Rattle.std.specs.Prelude.{◌≡◌, ◌<◌, length, get_or, slice_set, Some, None, IsSome};
ghost use Rattle.std.proofs.Math.ListN.{replicate};

use crate::place::Place;
use std::array;
use std::marker::Model;
use std::mem::ManuallyDrop;

/// N places in a row, each of exactly an item's bytes. A clause sees what each place holds, as an option.
///
/// `new` takes no time: the first item gives every place its bytes, in time proportional to `N`. The bytes of an item that
/// was taken stay in its place until another item is written over them. A caller that works on the places as a slice takes
/// them by `&mut cells[..]`, where `cells` is `Some`.
///
/// A row isn't `Drop`, since it can't know what it holds: take each item out, and then `free` it.
pub struct Row<T, const N: usize> {
    pub cells: Option<[Place<T>; N]>,
}

impl<T, const N: usize> Model for Row<T, N> {
    ghost use Rattle.std.specs.Prelude.{List, Option};
    ghost use Rattle.std.specs.Coded.{coded_list, coded_option};
    ghost use Rattle.esync_rows.specs.Place.{places_in};

    ghost Value = { List (Option T) };

    ghost coded = { coded_list (coded_option T.code) };

    ghost view = { λ a. places_in N a.cells };
}

// Returns N places that hold nothing, each with the bytes of `blank`.
fn spares<T, const N: usize>(blank: &mut Place<T>) -> [Place<T>; N]
    ensures { result ≡ replicate N None }
{
    array::from_fn(
        |_i|
            ensures { result ≡ None }
        { blank.spare() },
    )
}

// Puts an item into an empty place.
fn put_at<T>(places: &mut [Place<T>], i: usize, item: T)
    requires below { i < length places.old }
    requires free { get_or places.old i None ≡ None }
    ensures { places.new ≡ slice_set places.old i (Some item) }
{
    places[i].put(item)
}

// Takes the item of a place.
fn take_at<T>(places: &mut [Place<T>], i: usize) -> T
    requires below { i < length places.old }
    requires held { IsSome (get_or places.old i None) }
    ensures item { get_or places.old i None ≡ Some result }
    ensures places { places.new ≡ slice_set places.old i None }
{
    places[i].take()
}

// Returns N places of which place i holds the item.
fn started<T, const N: usize>(i: usize, item: T) -> [Place<T>; N]
    requires { i < N }
    ensures { result ≡ slice_set (replicate N None) i (Some item) }
{
    let mut first = Place::new(item);
    let mut blank = first.spare();
    let item = first.take();
    let mut cells = spares(&mut blank);
    cells[i].put(item);
    let _gone = unsafe { ManuallyDrop::new_unchecked((first, blank)) };
    cells
}

impl<T, const N: usize> Row<T, N> {
    /// Returns a row of empty places.
    pub fn new() -> Self
        ensures { result ≡ replicate N None }
    {
        Row { cells: None }
    }

    /// Puts an item into place `i`, which is empty.
    pub fn put(&mut self, i: usize, item: T)
        requires below { i < N }
        requires free { get_or self.old i None ≡ None }
        ensures { self.new ≡ slice_set self.old i (Some item) }
    {
        match &mut self.cells {
            Some(cells) => put_at(&mut cells[..], i, item),
            None => self.start(i, item),
        }
    }

    // Gives the places their bytes, and puts the first item in. It stays out of line, so that `put` has no large local.
    #[inline(never)]
    fn start(&mut self, i: usize, item: T)
        requires below { i < N }
        requires none { self.old ≡ replicate N None }
        ensures { self.new ≡ slice_set self.old i (Some item) }
    {
        let old = std::mem::replace(&mut self.cells, Some(started(i, item)));
        let _gone = unsafe { ManuallyDrop::new_unchecked(old) };
    }

    /// Takes the item of place `i` and returns it.
    pub fn take(&mut self, i: usize) -> T
        requires below { i < N }
        requires held { IsSome (get_or self.old i None) }
        ensures item { get_or self.old i None ≡ Some result }
        ensures places { self.new ≡ slice_set self.old i None }
    {
        let Some(cells) = &mut self.cells else {
            unreachable!()
        };
        take_at(&mut cells[..], i)
    }

    /// Returns the item of place `i`.
    pub fn get(&self, i: usize) -> &T
        requires below { i < N }
        requires held { IsSome (get_or self.now i None) }
        ensures item { get_or self.now i None ≡ Some result.now }
    {
        let Some(cells) = &self.cells else {
            unreachable!()
        };
        let cells = &cells[..];
        cells[i].get()
    }

    /// Frees a row that holds no item. Nothing is dropped.
    pub fn free(self)
        requires { self ≡ replicate N None }
    {
        let _bytes = unsafe { ManuallyDrop::new_unchecked(self) };
    }
}
