//! The queue of a fair semaphore: the requests that wait, in order.
ghost use Rattle.std.specs.Prelude.{◌≡◌, ℕ, ◌<◌, ◌≤◌, [], Some, None, false, length, get_or, drop, map, slice_get, IfSome, IfNone};
ghost use Rattle.esync_base.specs.Listed.{is_in};
ghost use Rattle.esync_permits.specs.Queue.{is_front, is_next, numbers, entered, with_waker, left_by, IsLeastFree, StandsAt};

use esync_base::deque::Deque;
use esync_base::kept::Kept;
use esync_base::limited::Limit;
use std::alloc::AllocError;
use std::fmt;
use std::marker::{Model, PhantomData};

/// An entry of the queue: its number, and the waker of the request that waits there.
#[derive_where(Clone, Copy; W: Copy)]
#[derive(Debug, Drop)]
pub struct Entry<W> {
    pub number: usize,
    pub waker: W,
}

// How many entries stand before the entry with this number.
fn place_of<W: Copy, const N: usize>(entries: &Deque<Entry<W>, N>, number: usize) -> Option<usize>
    ensures found { IfSome result (λ i. StandsAt number i entries.now.items) }
    ensures none { IfNone result (is_in number (numbers entries.now.items) ≡ false) }
{
    for i in 0..entries.len() {
        if entries.get(i).number == number {
            return Some(i);
        }
    }
    None
}

// Returns, for each number below `N`, whether an entry has it.
fn used_numbers<W: Copy, const N: usize>(entries: &Deque<Entry<W>, N>) -> [bool; N]
    ensures { (n : ℕ) → n < N → get_or result n false ≡ is_in n (numbers entries.now.items) }
{
    let mut used = [false; N];
    for place in 0..entries.len() {
        let number = entries.get(place).number;
        if number < N {
            used[number] = true;
        }
    }
    used
}

// Returns the least number that no entry has. One of the numbers from 0 to `entries.len()` is always free.
fn free_number<W: Copy, const N: usize>(entries: &Deque<Entry<W>, N>) -> usize
    ensures { IsLeastFree result (numbers entries.now.items) }
{
    let used = used_numbers(entries);
    for number in 0..entries.len() {
        if !used[number] {
            return number;
        }
    }
    entries.len()
}

/// The queue of the requests that wait for a fair semaphore, oldest first, whatever its number of places.
pub trait WaitQueue: Drop {
    type Waker: Copy + Eq;

    ghost use Rattle.std.specs.Prelude.{ℕ, List};
    ghost use Rattle.esync_permits.specs.declared.queue.Entry.{Entry};

    /// How many places the queue has.
    ghost places: { ℕ };

    /// The entries, oldest first.
    ghost entries: { Self → List (Entry Self.Waker) };

    /// Returns how many entries are in the queue.
    fn len(&self) -> usize
        ensures value { result ≡ length (entries self.now) }
        ensures within { result ≤ places };

    /// Returns whether the queue is empty.
    fn is_empty(&self) -> bool
        ensures { result ≡ is_next None (numbers (entries self.now)) };

    /// Returns whether a request waits under the number.
    fn is_waiting(&self, number: usize) -> bool
        ensures { result ≡ is_in number (numbers (entries self.now)) };

    /// Returns whether the entry in front has the number.
    fn is_front(&self, number: usize) -> bool
        ensures { result ≡ is_front number (numbers (entries self.now)) };

    /// Returns the waker in entry `i`, counted from the front, or `None` if there is no such entry.
    fn waker(&self, i: usize) -> Option<Self::Waker>
        ensures { result ≡ slice_get (map (λ e. e.waker) (entries self.now)) i };

    /// Puts an entry at the back, under the least number that no entry has, and returns the number. If the queue is
    /// full, returns `None`, and the queue stays as it is.
    fn enter(&mut self, waker: Self::Waker) -> Option<usize>
        ensures room { IfSome result (λ number. length (entries self.old) < places) }
        ensures number { IfSome result (λ number. IsLeastFree number (numbers (entries self.old))) }
        ensures entered { IfSome result (λ number. entries self.new ≡ entered number waker (entries self.old)) }
        ensures full { IfNone result (length (entries self.old) ≡ places) }
        ensures refused { IfNone result (entries self.new ≡ entries self.old) };

    /// Replaces the waker in the entry with the number.
    fn set_waker(&mut self, number: usize, waker: Self::Waker)
        ensures { entries self.new ≡ with_waker number waker (entries self.old) };

    /// Removes the entry in front, if there is one.
    fn pop_front(&mut self)
        ensures { entries self.new ≡ drop 1 (entries self.old) };

    /// Removes the entry with the number, wherever it stands. The entries behind it move up.
    fn remove(&mut self, number: usize)
        ensures { entries self.new ≡ left_by number (entries self.old) };
}

/// A queue whose number of places stands in its type.
pub trait FixedQueue: WaitQueue {
    /// Returns a queue without entries.
    fn new() -> Self
        ensures { Self.entries result ≡ [] };
}

/// At most `N` entries, oldest first.
#[derive_where(Debug; W: fmt::Debug + Drop)]
#[derive(Drop)]
pub struct Queue<W, const N: usize> {
    entries: Deque<Entry<W>, N>,
}

impl<W, const N: usize> Model for Queue<W, N> {
    ghost use Rattle.std.specs.Prelude.{List};
    ghost use Rattle.std.specs.Coded.{coded_list};
    ghost use Rattle.esync_permits.specs.declared.queue.Entry.{Entry};
    ghost use Rattle.esync_permits.specs.Queue.{entry_code};

    ghost Value = { List (Entry W) };

    ghost coded = { coded_list (entry_code W.code) };

    ghost view = { λ a. a.entries.items };
}

impl<W: Copy, const N: usize> Kept for Queue<W, N> {
    fn kept(&self) -> Result<Self, AllocError> {
        Ok(Queue {
            entries: self.entries.kept()?,
        })
    }
}

impl<W: Copy + Eq, const N: usize> WaitQueue for Queue<W, N> {
    type Waker = W;

    ghost places = { N };

    ghost entries = { λ queue. queue };

    fn len(&self) -> usize {
        self.entries.len()
    }

    fn is_empty(&self) -> bool {
        self.entries.is_empty()
    }

    fn is_waiting(&self, number: usize) -> bool {
        place_of(&self.entries, number).is_some()
    }

    fn is_front(&self, number: usize) -> bool {
        match self.entries.front() {
            Some(front) => front.number == number,
            None => false,
        }
    }

    fn waker(&self, i: usize) -> Option<W> {
        if i < self.entries.len() {
            Some(self.entries.get(i).waker)
        } else {
            None
        }
    }

    fn enter(&mut self, waker: W) -> Option<usize> {
        if self.entries.is_full() {
            return None;
        }
        let number = free_number(&self.entries);
        match self.entries.push_back(Entry { number, waker }) {
            Ok(()) => Some(number),
            Err(_) => None,
        }
    }

    fn set_waker(&mut self, number: usize, waker: W) {
        if let Some(i) = place_of(&self.entries, number) {
            self.entries.replace(i, Entry { number, waker });
        }
    }

    fn pop_front(&mut self) {
        self.entries.pop_front();
    }

    fn remove(&mut self, number: usize) {
        if let Some(i) = place_of(&self.entries, number) {
            self.entries.remove(i);
        }
    }
}

impl<W: Copy + Eq, const N: usize> FixedQueue for Queue<W, N> {
    fn new() -> Self {
        Queue {
            entries: Deque::new(),
        }
    }
}

/// A queue of at most `B.limit` entries, even where the queue below has more places.
#[derive(Drop)]
pub struct LimitedQueue<Q: WaitQueue, B: Limit> {
    places: usize,
    queue: Q,
    limit: PhantomData<B>,
}

impl<Q: WaitQueue, B: Limit> Model for LimitedQueue<Q, B> {
    ghost use Rattle.std.specs.Prelude.{◌≡◌, ◌≤◌, length};

    ghost Value = { Q };

    ghost coded = { Q.code };

    ghost view = { λ a. a.queue };

    ghost invariant = { λ a. (a.places ≡ B.limit) × (length (Q.entries a.queue) ≤ B.limit) × (B.limit ≤ Q.places) };
}

impl<Q: FixedQueue, B: Limit> LimitedQueue<Q, B> {
    /// Returns a queue without entries. It has this number of places, which is the number that `B` stands for. The
    /// queue below has to have as many.
    pub fn new(places: usize) -> Self
        requires chosen { places ≡ B.limit }
        requires room { places ≤ Q.places }
        ensures { Q.entries result ≡ [] }
    {
        LimitedQueue {
            places,
            queue: Q::new(),
            limit: PhantomData,
        }
    }
}

impl<Q: WaitQueue + Kept, B: Limit> Kept for LimitedQueue<Q, B> {
    fn kept(&self) -> Result<Self, AllocError> {
        Ok(LimitedQueue {
            places: self.places,
            queue: self.queue.kept()?,
            limit: PhantomData,
        })
    }
}

impl<Q: WaitQueue, B: Limit> WaitQueue for LimitedQueue<Q, B> {
    type Waker = Q::Waker;

    ghost places = { B.limit };

    ghost entries = { λ queue. Q.entries queue };

    fn len(&self) -> usize {
        self.queue.len()
    }

    fn is_empty(&self) -> bool {
        self.queue.is_empty()
    }

    fn is_waiting(&self, number: usize) -> bool {
        self.queue.is_waiting(number)
    }

    fn is_front(&self, number: usize) -> bool {
        self.queue.is_front(number)
    }

    fn waker(&self, i: usize) -> Option<Q::Waker> {
        self.queue.waker(i)
    }

    fn enter(&mut self, waker: Q::Waker) -> Option<usize> {
        if self.queue.len() < self.places {
            self.queue.enter(waker)
        } else {
            None
        }
    }

    fn set_waker(&mut self, number: usize, waker: Q::Waker) {
        self.queue.set_waker(number, waker)
    }

    fn pop_front(&mut self) {
        self.queue.pop_front()
    }

    fn remove(&mut self, number: usize) {
        self.queue.remove(number)
    }
}
