//! A list for the wakers of several tasks.
ghost use Rattle.std.specs.Prelude.{◌≡◌, ◌↔◌, ◌+◌, ◌≤◌, ◌++◌, [], length, IsTrue, slice_get};
ghost use Rattle.esync_base.specs.Registration.{among, registered, displaced};

use super::{FixedList, WakerList, Wakes};
use crate::kept::Kept;
use std::alloc::AllocError;
use std::fmt;
use std::marker::Model;

/// The wakers of at most `N` tasks, no two of them equal, in the order of their registration.
pub type MultiWakerRegistration<W, const N: usize> = WakerRegistrations<Wakes<W, N>>;

/// The wakers of as many tasks as the list `L` has room for, no two of them equal, in the order of their registration.
#[derive(Drop)]
pub struct WakerRegistrations<L: WakerList> {
    wakers: L,
}

impl<L: WakerList> Model for WakerRegistrations<L> {
    ghost use Rattle.std.specs.Prelude.{List};

    ghost Value = { List L.Waker };

    ghost view = { λ a. L.wakers a.wakers };
}

impl<L: WakerList> Kept for WakerRegistrations<L> {
    fn kept(&self) -> Result<Self, AllocError> {
        Ok(WakerRegistrations {
            wakers: self.wakers,
        })
    }
}

/// Shows the wakers as a list, in order.
impl<L: WakerList + fmt::Debug> fmt::Debug for WakerRegistrations<L> {
    fn fmt<F: fmt::Write>(&self, f: &mut fmt::Formatter<F>) -> fmt::Result {
        self.wakers.fmt(f)
    }
}

impl<L: FixedList> WakerRegistrations<L> {
    /// Returns a list without a waker.
    pub fn new() -> Self
        ensures { result ≡ [] }
    {
        WakerRegistrations { wakers: L::new() }
    }
}

impl<L: WakerList> WakerRegistrations<L> {
    /// Returns this list, in which no waker may be.
    pub fn over(wakers: L) -> Self
        requires { L.wakers wakers ≡ [] }
        ensures { result ≡ [] }
    {
        WakerRegistrations { wakers }
    }

    /// Registers a waker. If an equal waker is registered, nothing changes. If the list is full, all its wakers are
    /// handed out, in order, and only the new one stays: each task that waited can register again if it still waits.
    pub fn register<const K: usize>(&mut self, waker: L::Waker, wakes: &mut Wakes<L::Waker, K>)
        requires place { 1 ≤ L.room }
        requires room { length wakes.old + L.room ≤ K }
        ensures registered { self.new ≡ registered L.Waker.eq L.room self.old waker }
        ensures displaced { wakes.new ≡ wakes.old ++ displaced L.Waker.eq L.room self.old waker }
        ensures at_most { length wakes.new ≤ length wakes.old + L.room }
    {
        if self.has(waker) {
            return;
        }
        if self.wakers.len() == self.wakers.room() {
            self.wake(wakes);
        }
        self.wakers.push(waker);
    }

    /// Hands out the registered wakers, in order, and empties the list.
    pub fn wake<const K: usize>(&mut self, wakes: &mut Wakes<L::Waker, K>)
        requires { length wakes.old + L.room ≤ K }
        ensures emptied { self.new ≡ [] }
        ensures handed_out { wakes.new ≡ wakes.old ++ self.old }
        ensures at_most { length wakes.new ≤ length wakes.old + L.room }
    {
        let len = self.wakers.len();
        for i in 0..len {
            if let Some(waker) = self.wakers.get(i) {
                wakes.push(waker);
            }
        }
        if len > 0 {
            self.wakers.clear();
        }
    }

    /// Returns how many wakers there is room for.
    pub fn room(&self) -> usize
        ensures { result ≡ L.room }
    {
        self.wakers.room()
    }

    /// Returns whether no waker is registered.
    pub fn is_empty(&self) -> bool
        ensures { IsTrue result ↔ (self.now ≡ []) }
    {
        self.wakers.len() == 0
    }

    /// Returns registered waker `i`, counted from 0, or `None` if there is no such waker.
    pub fn get(&self, i: usize) -> Option<L::Waker>
        ensures { result ≡ slice_get self.now i }
    {
        self.wakers.get(i)
    }

    // Whether a waker that equals this one is registered.
    fn has(&self, waker: L::Waker) -> bool
        ensures { result ≡ among L.Waker.eq waker self.now }
    {
        for i in 0..self.wakers.len() {
            if self.wakers.get(i) == Some(waker) {
                return true;
            }
        }
        false
    }
}
