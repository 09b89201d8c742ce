//! The messages of a log, oldest first, each with a count: how many subscribers have still to read it.
ghost use Rattle.std.specs.Prelude.{◌≡◌, ℕ, suc, ◌-◌, ◌<◌, ◌≤◌, ◌++◌, ◌∷◌, ◌↔◌, [], Some, length, drop, IsTrue, replicate, slice_get, slice_set, slice_index};
ghost use Rattle.esync_log.specs.Counts.{unread};

use esync_base::deque::Deque;
use esync_base::extent::Extent;
use esync_base::kept::Kept;
use std::alloc::AllocError;
use std::fmt;
use std::marker::Model;

// A count at each of `N` places.
#[derive(Debug, Drop)]
struct Counts<const N: usize> {
    row: [usize; N],
}

impl<const N: usize> Counts<N> {
    fn new() -> Self
        ensures { result.row ≡ replicate N 0 }
    {
        Counts { row: [0; N] }
    }

    fn get(&self, place: usize) -> usize
        requires { place < N }
        ensures { result ≡ slice_index self.now.row place }
    {
        self.row[place]
    }

    fn put(&mut self, place: usize, count: usize)
        requires { place < N }
        ensures { self.new.row ≡ slice_set self.old.row place count }
    {
        self.row[place] = count;
    }
}

impl<const N: usize> Kept for Counts<N> {
    fn kept(&self) -> Result<Self, AllocError> {
        Ok(Counts { row: self.row })
    }
}

/// Messages, oldest first, each with a count: how many subscribers have still to read it.
pub trait Holds {
    type Message;

    ghost use Rattle.std.specs.Prelude.{ℕ};
    ghost use Rattle.esync_log.specs.Counts.{Held};

    /// How many messages there is room for.
    ghost capacity: { ℕ };

    /// The messages, and the count of each.
    ghost held: { Self → Held Self.Message };

    /// Returns how many messages there is room for.
    fn capacity(&self) -> usize
        ensures { result ≡ capacity };

    /// Returns how many messages are held.
    fn len(&self) -> usize
        ensures value { result ≡ length (held self.now).messages }
        ensures within { result ≤ capacity }
        ensures paired { length (held self.now).counts ≡ length (held self.now).messages };

    /// Returns whether no message is held.
    fn is_empty(&self) -> bool
        ensures { IsTrue result ↔ ((held self.now).messages ≡ []) };

    /// Returns message `i`, counted from the oldest.
    fn message(&self, i: usize) -> &Self::Message
        requires { i < length (held self.now).messages }
        ensures { Some result.now ≡ slice_get (held self.now).messages i };

    /// Returns how many subscribers have still to read message `i`, counted from the oldest.
    fn count(&self, i: usize) -> usize
        requires { i < length (held self.now).messages }
        ensures { result ≡ slice_index (held self.now).counts i };

    /// Appends a message that `count` subscribers have still to read.
    fn push(&mut self, message: Self::Message, count: usize)
        requires { length (held self.old).messages < capacity }
        ensures messages { (held self.new).messages ≡ (held self.old).messages ++ message ∷ [] }
        ensures counts { (held self.new).counts ≡ (held self.old).counts ++ count ∷ [] };

    /// Takes the oldest message and its count out, and returns the message. Returns `None` if no message is held.
    fn take_front(&mut self) -> Option<Self::Message>
        ensures item { slice_get (held self.old).messages 0 ≡ result }
        ensures messages { (held self.new).messages ≡ drop 1 (held self.old).messages }
        ensures counts { (held self.new).counts ≡ drop 1 (held self.old).counts };

    /// Drops the oldest message and its count.
    fn pop(&mut self)
        ensures messages { (held self.new).messages ≡ drop 1 (held self.old).messages }
        ensures counts { (held self.new).counts ≡ drop 1 (held self.old).counts };

    /// Lowers the count of message `i`, counted from the oldest, by one.
    fn lower(&mut self, i: usize)
        requires place { i < length (held self.old).messages }
        requires some { 0 < slice_index (held self.old).counts i }
        ensures messages { (held self.new).messages ≡ (held self.old).messages }
        ensures counts { (held self.new).counts ≡ slice_set (held self.old).counts i (slice_index (held self.old).counts i - 1) };

    /// Lowers the counts of message `from` and of all messages behind it by one each.
    fn lower_from(&mut self, from: usize)
        requires { (k : ℕ) → from ≤ k → k < length (held self.old).messages → 0 < slice_index (held self.old).counts k }
        ensures messages { (held self.new).messages ≡ (held self.old).messages }
        ensures length { length (held self.new).counts ≡ length (held self.old).counts }
        ensures before { (k : ℕ) → k < from → slice_index (held self.new).counts k ≡ slice_index (held self.old).counts k }
        ensures behind { (k : ℕ) → from ≤ k → k < length (held self.old).messages → suc (slice_index (held self.new).counts k) ≡ slice_index (held self.old).counts k };

    /// Drops the messages in front that no subscriber has still to read.
    fn free(&mut self)
        ensures messages { (held self.new).messages ≡ drop (unread (held self.old).counts) (held self.old).messages }
        ensures counts { (held self.new).counts ≡ drop (unread (held self.old).counts) (held self.old).counts };

    /// Drops all messages.
    fn clear(&mut self)
        ensures { held self.new ≡ record { messages = []; counts = [] } };
}

/// A ring of messages, as many as `C` says, for which it has `N` places. The count of each stands at the message's place
/// in the ring, so that it is found and changed there.
#[derive_where(Debug; T: fmt::Debug + Drop, C: fmt::Debug)]
#[derive(Drop)]
pub struct Held<T, C: Extent, const N: usize> {
    messages: Deque<T, N>,
    counts: Counts<N>,
    capacity: C,
}

impl<T, C: Extent, const N: usize> Model for Held<T, C, N> {
    ghost use Rattle.std.specs.Prelude.{◌≡◌, ◌≤◌, length};
    ghost use Rattle.esync_log.specs.Counts.{Held as Holding, held_code, beside};

    ghost Value = { Holding T };

    ghost coded = { held_code T.code };

    ghost view = { λ a. record { messages = a.messages.items; counts = beside N a.messages.front a.counts.row (length a.messages.items) } };

    ghost invariant = { λ a. (length a.counts.row ≡ N) × (length a.messages.items ≤ C.extent) × (C.extent ≤ N) };
}

impl<T: Drop, C: Extent, const N: usize> Held<T, C, N> {
    /// Returns a ring without messages, which holds at most as many as `capacity` says.
    pub fn new(capacity: C) -> Self
        requires { C.extent ≤ N }
        ensures { result ≡ record { messages = []; counts = [] } }
    {
        Held {
            messages: Deque::new(),
            counts: Counts::new(),
            capacity,
        }
    }

    // Whether no subscriber has still to read the oldest message. It is false if no message is held.
    fn is_unread(&self) -> bool
        ensures { IsTrue result ↔ (0 < unread self.now.counts) }
    {
        if self.len() == 0 {
            return false;
        }
        self.count(0) == 0
    }
}

impl<T: Drop, C: Extent, const N: usize> Holds for Held<T, C, N> {
    type Message = T;

    ghost capacity = { C.extent };

    ghost held = { λ held. held };

    fn capacity(&self) -> usize {
        self.capacity.get()
    }

    fn len(&self) -> usize {
        self.messages.len()
    }

    fn is_empty(&self) -> bool {
        self.messages.is_empty()
    }

    fn message(&self, i: usize) -> &T {
        self.messages.get(i)
    }

    fn count(&self, i: usize) -> usize {
        self.counts.get(self.messages.slot_of(i))
    }

    fn push(&mut self, message: T, count: usize) {
        let place = self.messages.slot_of_next();
        let Ok(()) = self.messages.push_back(message) else {
            unreachable!()
        };
        self.counts.put(place, count);
    }

    fn take_front(&mut self) -> Option<T> {
        self.messages.pop_front()
    }

    fn pop(&mut self) {
        self.take_front();
    }

    fn lower(&mut self, i: usize) {
        let place = self.messages.slot_of(i);
        let readers = self.counts.get(place);
        self.counts.put(place, readers - 1);
    }

    fn lower_from(&mut self, from: usize) {
        for i in from..self.len() {
            self.lower(i);
        }
    }

    fn free(&mut self) {
        for _message in 0..self.len() {
            if !self.is_unread() {
                return;
            }
            self.pop();
        }
    }

    fn clear(&mut self) {
        self.messages.clear();
    }
}

impl<T: Copy, C: Extent, const N: usize> Kept for Held<T, C, N> {
    fn kept(&self) -> Result<Self, AllocError> {
        Ok(Held {
            messages: self.messages.kept()?,
            counts: self.counts.kept()?,
            capacity: self.capacity,
        })
    }
}
