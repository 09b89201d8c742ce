//! A store, and a list of wakers, whose capacity is chosen when it is made.
ghost use Rattle.std.specs.Prelude.{◌≡◌, ℕ, ◌<◌, ◌≤◌, ◌++◌, ◌∷◌, [], length, slice_get};

use crate::kept::Kept;
use crate::store::{FixedStore, Store};
use crate::waitqueue::{FixedList, WakerList};
use std::alloc::AllocError;
use std::marker::{Brand, Model, PhantomData};

/// A number that only proofs know. A type stands for it, so that contracts over that type can cite it.
///
/// A call that knows the number when it runs takes [`Brand`] for the type, and says the number in the
/// `Invariants.antt` of its proof.
pub trait Limit {
    ghost limit: { ℕ };
}

impl Limit for Brand {
    ghost limit = { 0 };
}

/// A store that holds at most `B.limit` messages, even where the store below has room for more.
#[derive(Drop)]
pub struct Limited<S: Store, B: Limit> {
    capacity: usize,
    store: S,
    limit: PhantomData<B>,
}

impl<S: Store, B: Limit> Model for Limited<S, B> {
    ghost use Rattle.std.specs.Prelude.{◌≡◌, ◌≤◌, length};

    ghost Value = { S };

    ghost coded = { S.code };

    ghost view = { λ a. a.store };

    ghost invariant = { λ a. (a.capacity ≡ B.limit) × (length (S.held a.store) ≤ B.limit) × (B.limit ≤ S.keeping.capacity) };
}

impl<S: FixedStore, B: Limit> Limited<S, B> {
    /// Returns an empty store of this capacity, which is the number that `B` stands for. The store below has to have
    /// room for as many messages.
    pub fn new(capacity: usize) -> Self
        requires chosen { capacity ≡ B.limit }
        requires room { capacity ≤ S.keeping.capacity }
        ensures { S.held result ≡ [] }
    {
        Limited {
            capacity,
            store: S::new(),
            limit: PhantomData,
        }
    }
}

impl<S: Store, B: Limit> Store for Limited<S, B> {
    type Message = S::Message;

    ghost keeping = { record S.keeping { capacity = B.limit } };

    ghost held = { λ s. S.held s };

    fn len(&self) -> usize {
        self.store.len()
    }

    fn capacity(&self) -> usize {
        self.capacity
    }

    fn put(&mut self, message: S::Message) -> Result<(), S::Message> {
        if self.store.len() < self.capacity {
            self.store.put(message)
        } else {
            Err(message)
        }
    }

    fn take(&mut self) -> Option<S::Message> {
        self.store.take()
    }

    fn clear(&mut self) {
        self.store.clear()
    }
}

impl<S: Store + Kept, B: Limit> Kept for Limited<S, B> {
    fn kept(&self) -> Result<Self, AllocError> {
        Ok(Limited {
            capacity: self.capacity,
            store: self.store.kept()?,
            limit: PhantomData,
        })
    }
}

/// A list that has room for `B.limit` wakers, even where the list below has room for more.
pub struct LimitedList<L: WakerList, B: Limit> {
    room: usize,
    list: L,
    limit: PhantomData<B>,
}

impl<L: WakerList, B: Limit> Clone for LimitedList<L, B> {
    ghost use Rattle.std.specs.Prelude.{◌≡◌};

    ghost is_clone = { λ s r. r ≡ s };

    ghost is_infallible = { λ _. Unit {0} };

    fn clone(&self) -> Result<Self, AllocError> {
        Ok(LimitedList {
            room: self.room,
            list: self.list,
            limit: PhantomData,
        })
    }
}

impl<L: WakerList, B: Limit> Copy for LimitedList<L, B> {}

impl<L: WakerList, B: Limit> Model for LimitedList<L, B> {
    ghost use Rattle.std.specs.Prelude.{◌≡◌, ◌≤◌, length};

    ghost Value = { L };

    ghost view = { λ a. a.list };

    ghost invariant = { λ a. (a.room ≡ B.limit) × (length (L.wakers a.list) ≤ B.limit) × (B.limit ≤ L.room) };

    ghost inverse = { λ list. record { room = B.limit; list = list; limit = record {} } };
}

impl<L: FixedList, B: Limit> LimitedList<L, B> {
    /// Returns an empty list with this room, which is the number that `B` stands for. The list below has to have room
    /// for as many wakers.
    pub fn new(room: usize) -> Self
        requires chosen { room ≡ B.limit }
        requires room { room ≤ L.room }
        ensures { L.wakers result ≡ [] }
    {
        LimitedList {
            room,
            list: L::new(),
            limit: PhantomData,
        }
    }
}

impl<L: WakerList, B: Limit> WakerList for LimitedList<L, B> {
    type Waker = L::Waker;

    ghost room = { B.limit };

    ghost wakers = { λ list. L.wakers list };

    fn room(&self) -> usize {
        self.room
    }

    fn len(&self) -> usize {
        self.list.len()
    }

    fn get(&self, i: usize) -> Option<L::Waker> {
        self.list.get(i)
    }

    fn push(&mut self, waker: L::Waker) {
        self.list.push(waker)
    }

    fn clear(&mut self) {
        self.list.clear()
    }
}
