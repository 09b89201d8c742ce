//! Semaphores: a number of permits to a pool of resources, and the requests that wait for some of them. A semaphore
//! holds no resources, only the number of permits.
//!
//! The state forms take `&mut self`, hold no lock and never wait. Each call appends the wakers that it hands out to the
//! list of wakes that it is given, and the caller wakes their tasks. A registration in a greedy semaphore hands out the
//! waker that it displaces.
ghost use Rattle.std.specs.Prelude.{◌≡◌, ℕ, ◌<◌, ◌++◌, [], length, nat_lt, ◌↔◌, Some, None, true, false, IsTrue, IsSome, IfSome, is_some, is_none};
ghost use Rattle.esync_permits.specs.Permits.{least, taken, Takes, TakesInTurn, released, granted, woken_if};
ghost use Rattle.esync_permits.specs.Greedy.{slot_after_poll, wakes_of_poll, slot_after_more, rest_of};
ghost use Rattle.esync_base.specs.Listed.{is_in};
ghost use Rattle.esync_permits.specs.Queue.{is_front, is_next, numbers, front_wakers, left_by};
ghost use Rattle.esync_permits.specs.Fair.{heard, ticket_after, request_heard, granted_by, OnRefusal, NamesWaiting, HasNoPlace, Queues, wakes_of_grant, entries_after_request, wakes_of_request};

use crate::queue::{FixedQueue, Queue, WaitQueue};
use esync_base::kept::Kept;
use esync_base::waitqueue::{Context, Poll, Registered, WakerRegistration, Wakes};
pub use shared::{
    Acquire, FairAcquire, FairAcquireAll, FairSemaphore, GreedyAcquire, GreedyAcquireAll,
    GreedySemaphore, PermitState, Semaphore, SemaphoreReleaser, SharedSemaphore,
};
use std::alloc::AllocError;
use std::marker::Model;
use std::mem;
use thiserror::Error;

pub mod machine;
mod shared;

/// The number of permits that a request is for.
#[derive(Clone, Copy, Debug, PartialEq, Eq)]
pub enum Amount {
    /// Exactly this number.
    Exactly(usize),
    /// All permits that are there, if they are at least this number.
    AllFrom(usize),
}

impl Amount {
    // How many permits have to be there for a grant.
    fn least(self) -> usize
        ensures { result ≡ least self }
    {
        match self {
            Amount::Exactly(permits) => permits,
            Amount::AllFrom(min) => min,
        }
    }

    // How many permits a grant takes of those that are there.
    fn taken(self, permits: usize) -> usize
        ensures { result ≡ taken permits self }
    {
        match self {
            Amount::Exactly(taken) => taken,
            Amount::AllFrom(_) => permits,
        }
    }
}

// Takes the permits of a request if enough are there.
fn take(permits: &mut usize, amount: Amount) -> Option<usize>
    ensures { Takes permits.old amount result permits.new }
{
    if *permits < amount.least() {
        return None;
    }
    let taken = amount.taken(*permits);
    *permits -= taken;
    Some(taken)
}

// Gives permits back. A sum that is too great is a branch of its own: the next call waits for the sum, and for nothing else.
fn give_back(permits: &mut usize, more: usize)
    ensures { permits.new ≡ released permits.old more }
{
    if *permits <= usize::MAX - more {
        *permits += more;
    } else {
        give_too_many(permits, more);
    }
}

// Gives permits back, of which as many stay as a number can say.
#[cold]
#[inline(never)]
fn give_too_many(permits: &mut usize, more: usize)
    ensures { permits.new ≡ released permits.old more }
{
    *permits = permits.saturating_add(more);
}

/// The state of a greedy semaphore: its permits, and a slot for the waker of a task that waits for some.
///
/// A request is granted as soon as its permits are there, even if another request waits for more.
#[derive(Debug, Drop)]
pub struct GreedyState<W> {
    available: usize,
    waker: WakerRegistration<W>,
}

impl<W> Model for GreedyState<W> {
    ghost use Rattle.esync_permits.specs.Greedy.{Greedy, greedy_code};

    ghost Value = { Greedy W };

    ghost coded = { greedy_code W.code };

    ghost view = { λ a. record { permits = a.available; waiter = a.waker } };
}

impl<W: Copy> Kept for GreedyState<W> {
    fn kept(&self) -> Result<Self, AllocError> {
        Ok(GreedyState {
            available: self.available,
            waker: self.waker.kept()?,
        })
    }
}

impl<W: Copy + Eq> Default for GreedyState<W> {
    fn default() -> Self
        ensures permits { result.permits ≡ 0 }
        ensures waiter { result.waiter ≡ [] }
    {
        GreedyState::new(0)
    }
}

/// Place 0 is the slot of the task that waits for permits.
impl<W: Copy + Eq> Registered for GreedyState<W> {
    type Waker = W;

    ghost use Rattle.esync_base.specs.Standing.{at_one};

    ghost at = { λ m. at_one m.waiter };

    fn registered(&self, place: usize, i: usize) -> Option<W> {
        match place {
            0 => self.waker.get(i),
            _ => None,
        }
    }
}

impl<W: Copy + Eq> GreedyState<W> {
    /// Returns a semaphore with the number of permits and without a registered waker.
    pub fn new(permits: usize) -> Self
        ensures permits { result.permits ≡ permits }
        ensures waiter { result.waiter ≡ [] }
    {
        GreedyState {
            available: permits,
            waker: WakerRegistration::new(),
        }
    }

    /// Returns how many permits are there to be taken.
    pub fn permits(&self) -> usize
        ensures { result ≡ self.now.permits }
    {
        self.available
    }

    fn try_take(&mut self, amount: Amount) -> Option<usize>
        ensures permits { Takes self.old.permits amount result self.new.permits }
        ensures waiter { self.new.waiter ≡ self.old.waiter }
    {
        take(&mut self.available, amount)
    }

    /// Takes `permits` permits if they are there, and returns how many were taken. Otherwise returns `None`.
    pub fn try_acquire(&mut self, permits: usize) -> Option<usize>
        ensures permits { Takes self.old.permits (Amount.Exactly permits) result self.new.permits }
        ensures waiter { self.new.waiter ≡ self.old.waiter }
    {
        self.try_take(Amount::Exactly(permits))
    }

    /// Takes all permits if at least `min` are there, and returns how many were taken. Otherwise returns `None`.
    pub fn try_acquire_all(&mut self, min: usize) -> Option<usize>
        ensures permits { Takes self.old.permits (Amount.AllFrom min) result self.new.permits }
        ensures waiter { self.new.waiter ≡ self.old.waiter }
    {
        self.try_take(Amount::AllFrom(min))
    }

    fn poll<const K: usize>(
        &mut self,
        amount: Amount,
        waker: W,
        wakes: &mut Wakes<W, K>,
    ) -> Poll<usize>
        requires { length wakes.old < K }
        ensures permits { Takes self.old.permits amount (granted result) self.new.permits }
        ensures waiter { self.new.waiter ≡ slot_after_poll W.eq waker (granted result) self.old.waiter }
        ensures wakes { wakes.new ≡ wakes.old ++ wakes_of_poll W.eq waker (granted result) self.old.waiter }
    {
        match self.try_take(amount) {
            Some(taken) => Poll::Ready(taken),
            None => {
                self.waker.register(waker, wakes);
                Poll::Pending
            }
        }
    }

    /// Takes `permits` permits if they are there, and returns how many were taken. Otherwise registers the context's
    /// waker and returns Pending.
    pub fn poll_acquire<const K: usize>(
        &mut self,
        permits: usize,
        cx: &Context<W>,
        wakes: &mut Wakes<W, K>,
    ) -> Poll<usize>
        requires { length wakes.old < K }
        ensures permits { Takes self.old.permits (Amount.Exactly permits) (granted result) self.new.permits }
        ensures waiter { self.new.waiter ≡ slot_after_poll W.eq cx.now (granted result) self.old.waiter }
        ensures wakes { wakes.new ≡ wakes.old ++ wakes_of_poll W.eq cx.now (granted result) self.old.waiter }
    {
        self.poll(Amount::Exactly(permits), cx.waker(), wakes)
    }

    /// Takes all permits if at least `min` are there, and returns how many were taken. Otherwise registers the
    /// context's waker and returns Pending.
    pub fn poll_acquire_all<const K: usize>(
        &mut self,
        min: usize,
        cx: &Context<W>,
        wakes: &mut Wakes<W, K>,
    ) -> Poll<usize>
        requires { length wakes.old < K }
        ensures permits { Takes self.old.permits (Amount.AllFrom min) (granted result) self.new.permits }
        ensures waiter { self.new.waiter ≡ slot_after_poll W.eq cx.now (granted result) self.old.waiter }
        ensures wakes { wakes.new ≡ wakes.old ++ wakes_of_poll W.eq cx.now (granted result) self.old.waiter }
    {
        self.poll(Amount::AllFrom(min), cx.waker(), wakes)
    }

    // Hands out the registered waker, if there are more permits than before.
    fn tell<const K: usize>(&mut self, more: bool, wakes: &mut Wakes<W, K>)
        requires { length wakes.old < K }
        ensures permits { self.new.permits ≡ self.old.permits }
        ensures waiter { self.new.waiter ≡ slot_after_more more self.old.waiter }
        ensures wakes { wakes.new ≡ wakes.old ++ woken_if more self.old.waiter }
    {
        if more {
            self.waker.wake(wakes);
        }
    }

    /// Gives `permits` permits back, up to `usize::MAX` in all. Hands out the registered waker if `permits` is more
    /// than 0.
    pub fn release<const K: usize>(&mut self, permits: usize, wakes: &mut Wakes<W, K>)
        requires { length wakes.old < K }
        ensures permits { self.new.permits ≡ released self.old.permits permits }
        ensures waiter { self.new.waiter ≡ slot_after_more (nat_lt 0 permits) self.old.waiter }
        ensures wakes { wakes.new ≡ wakes.old ++ woken_if (nat_lt 0 permits) self.old.waiter }
    {
        give_back(&mut self.available, permits);
        self.tell(0 < permits, wakes);
    }

    /// Sets the number of permits that are there. Hands out the registered waker if it is more than before.
    pub fn set<const K: usize>(&mut self, permits: usize, wakes: &mut Wakes<W, K>)
        requires { length wakes.old < K }
        ensures permits { self.new.permits ≡ permits }
        ensures waiter { self.new.waiter ≡ slot_after_more (nat_lt self.old.permits permits) self.old.waiter }
        ensures wakes { wakes.new ≡ wakes.old ++ woken_if (nat_lt self.old.permits permits) self.old.waiter }
    {
        let before = mem::replace(&mut self.available, permits);
        self.tell(before < permits, wakes);
    }
}

/// A request for permits of a greedy semaphore.
#[derive(Debug, Drop)]
pub struct GreedyRequest {
    amount: Option<Amount>,
}

impl Model for GreedyRequest {
    ghost use Rattle.std.specs.Prelude.{Option};
    ghost use Rattle.esync_permits.specs.declared.semaphore.Amount.{Amount};

    ghost Value = { Option Amount };

    ghost view = { λ a. a.amount };
}

impl GreedyRequest {
    /// Returns a request for the amount, which isn't answered yet.
    pub fn new(amount: Amount) -> Self
        ensures { result ≡ Some amount }
    {
        GreedyRequest {
            amount: Some(amount),
        }
    }

    /// Returns whether the permits were granted.
    pub fn is_finished(&self) -> bool
        ensures { result ≡ is_none self.now }
    {
        self.amount.is_none()
    }

    /// Takes the permits if they are there, and returns how many were taken. Otherwise registers the context's waker
    /// and returns Pending.
    ///
    /// A finished request may not be polled.
    pub fn poll_state<W: Copy + Eq, const K: usize>(
        &mut self,
        state: &mut GreedyState<W>,
        cx: &Context<W>,
        wakes: &mut Wakes<W, K>,
    ) -> Poll<usize>
        requires room { length wakes.old < K }
        requires unfinished { IsSome self.old }
        ensures permits { IfSome self.old (λ amount. Takes state.old.permits amount (granted result) state.new.permits) }
        ensures rest { IfSome self.old (λ amount. self.new ≡ rest_of amount (granted result)) }
        ensures waiter { state.new.waiter ≡ slot_after_poll W.eq cx.now (granted result) state.old.waiter }
        ensures wakes { wakes.new ≡ wakes.old ++ wakes_of_poll W.eq cx.now (granted result) state.old.waiter }
    {
        let Some(amount) = self.amount else {
            unreachable!()
        };
        let answer = state.poll(amount, cx.waker(), wakes);
        if let Poll::Ready(_) = answer {
            self.amount = None;
        }
        answer
    }
}

/// The error of a request that found the queue of a fair semaphore full.
#[derive(Clone, Copy, Debug, PartialEq, Eq, Error)]
#[error("the queue of the semaphore is full")]
pub struct WaitQueueFull;

/// The name of a request that waits for a fair semaphore: the least number that no other request had when it came to
/// wait.
#[derive(Clone, Copy, Debug, PartialEq, Eq)]
pub struct Ticket {
    number: usize,
}

impl Model for Ticket {
    ghost use Rattle.std.specs.Prelude.{ℕ};

    ghost Value = { ℕ };

    ghost view = { λ a. a.number };

    ghost inverse = { λ n. record { number = n } };
}

/// The answer of a poll of a fair semaphore.
#[derive(Clone, Copy, Debug, PartialEq, Eq)]
pub enum FairPoll {
    /// The number of permits that were granted, or the error that there was no place in the queue.
    Ready(Result<usize, WaitQueueFull>),
    /// The request waits, and has this ticket.
    Pending(Ticket),
}

/// The state of a fair semaphore of at most `N` requests that wait.
pub type FairState<W, const N: usize> = FairOver<Queue<W, N>>;

/// The state of a fair semaphore: its permits, and a queue of requests that wait for some.
///
/// Requests are granted in the order in which they came to wait. A request that waits for many permits keeps all
/// requests behind it waiting until it is granted or ends. A request that ends gives its place back at once.
#[derive(Debug, Drop)]
pub struct FairOver<Q: WaitQueue> {
    permits: usize,
    queue: Q,
}

impl<Q: WaitQueue> Model for FairOver<Q> {
    ghost use Rattle.esync_permits.specs.Fair.{Fair, fair_code};

    ghost Value = { Fair Q.Waker };

    ghost coded = { fair_code Q.Waker.code };

    ghost view = { λ a. record { permits = a.permits; entries = Q.entries a.queue } };
}

impl<Q: WaitQueue + Kept> Kept for FairOver<Q> {
    fn kept(&self) -> Result<Self, AllocError> {
        Ok(FairOver {
            permits: self.permits,
            queue: self.queue.kept()?,
        })
    }
}

impl<Q: FixedQueue> Default for FairOver<Q> {
    fn default() -> Self
        ensures permits { result.permits ≡ 0 }
        ensures entries { result.entries ≡ [] }
    {
        FairOver::new(0)
    }
}

/// Place 0 is the queue of the tasks that wait for permits, in order.
impl<Q: WaitQueue> Registered for FairOver<Q> {
    type Waker = Q::Waker;

    ghost use Rattle.std.specs.Prelude.{map};
    ghost use Rattle.esync_base.specs.Standing.{at_one};

    ghost at = { λ m. at_one (map (λ e. e.waker) m.entries) };

    fn registered(&self, place: usize, i: usize) -> Option<Q::Waker> {
        match place {
            0 => self.queue.waker(i),
            _ => None,
        }
    }
}

impl<Q: FixedQueue> FairOver<Q> {
    /// Returns a semaphore with the number of permits, for which no request waits.
    pub fn new(permits: usize) -> Self
        ensures permits { result.permits ≡ permits }
        ensures entries { result.entries ≡ [] }
    {
        FairOver::over(permits, Q::new())
    }
}

impl<Q: WaitQueue> FairOver<Q> {
    /// Returns a semaphore with the number of permits, for which the requests in the queue wait.
    pub fn over(permits: usize, queue: Q) -> Self
        ensures permits { result.permits ≡ permits }
        ensures entries { result.entries ≡ Q.entries queue }
    {
        FairOver { permits, queue }
    }

    /// Returns how many permits are there to be taken.
    pub fn permits(&self) -> usize
        ensures { result ≡ self.now.permits }
    {
        self.permits
    }

    /// Returns whether the request of the ticket waits.
    pub fn is_waiting(&self, ticket: Ticket) -> bool
        ensures { result ≡ is_in ticket (numbers self.now.entries) }
    {
        self.queue.is_waiting(ticket.number)
    }

    // Takes the permits of a request that has no ticket, only if no request waits.
    fn try_take(&mut self, amount: Amount) -> Option<usize>
        ensures permits { TakesInTurn (is_next None (numbers self.old.entries)) self.old.permits amount result self.new.permits }
        ensures entries { self.new.entries ≡ self.old.entries }
    {
        if !self.queue.is_empty() {
            return None;
        }
        take(&mut self.permits, amount)
    }

    /// Takes `permits` permits if they are there and no request waits, and returns how many were taken. Otherwise
    /// returns `None`.
    pub fn try_acquire(&mut self, permits: usize) -> Option<usize>
        ensures permits { TakesInTurn (is_next None (numbers self.old.entries)) self.old.permits (Amount.Exactly permits) result self.new.permits }
        ensures entries { self.new.entries ≡ self.old.entries }
    {
        self.try_take(Amount::Exactly(permits))
    }

    /// Takes all permits if at least `min` are there and no request waits, and returns how many were taken. Otherwise
    /// returns `None`.
    pub fn try_acquire_all(&mut self, min: usize) -> Option<usize>
        ensures permits { TakesInTurn (is_next None (numbers self.old.entries)) self.old.permits (Amount.AllFrom min) result self.new.permits }
        ensures entries { self.new.entries ≡ self.old.entries }
    {
        self.try_take(Amount::AllFrom(min))
    }

    // The poll of a request that has no ticket yet.
    fn poll_new(&mut self, amount: Amount, waker: Q::Waker) -> FairPoll
        ensures permits { TakesInTurn (is_next None (numbers self.old.entries)) self.old.permits amount (granted_by (heard result)) self.new.permits }
        ensures full { OnRefusal (heard result) (HasNoPlace Q.places None self.old.entries) }
        ensures entries { Queues Q.places waker None self.old.entries (ticket_after result) self.new.entries }
    {
        if let Some(taken) = self.try_take(amount) {
            return FairPoll::Ready(Ok(taken));
        }
        match self.queue.enter(waker) {
            Some(number) => FairPoll::Pending(Ticket { number }),
            None => FairPoll::Ready(Err(WaitQueueFull)),
        }
    }

    // The poll of a request that waits.
    fn poll_again<const K: usize>(
        &mut self,
        amount: Amount,
        ticket: Ticket,
        waker: Q::Waker,
        wakes: &mut Wakes<Q::Waker, K>,
    ) -> FairPoll
        requires { length wakes.old < K }
        ensures permits { TakesInTurn (is_next (Some ticket) (numbers self.old.entries)) self.old.permits amount (granted_by (heard result)) self.new.permits }
        ensures full { OnRefusal (heard result) (HasNoPlace Q.places (Some ticket) self.old.entries) }
        ensures entries { Queues Q.places waker (Some ticket) self.old.entries (ticket_after result) self.new.entries }
        ensures wakes { wakes.new ≡ wakes.old ++ wakes_of_grant (Some ticket) (granted_by (heard result)) self.new.entries }
    {
        if self.queue.is_front(ticket.number) {
            if let Some(taken) = take(&mut self.permits, amount) {
                self.queue.pop_front();
                self.tell(true, wakes);
                return FairPoll::Ready(Ok(taken));
            }
        }
        self.queue.set_waker(ticket.number, waker);
        FairPoll::Pending(ticket)
    }

    fn poll<const K: usize>(
        &mut self,
        amount: Amount,
        ticket: Option<Ticket>,
        waker: Q::Waker,
        wakes: &mut Wakes<Q::Waker, K>,
    ) -> FairPoll
        requires { length wakes.old < K }
        ensures permits { TakesInTurn (is_next ticket (numbers self.old.entries)) self.old.permits amount (granted_by (heard result)) self.new.permits }
        ensures full { OnRefusal (heard result) (HasNoPlace Q.places ticket self.old.entries) }
        ensures entries { Queues Q.places waker ticket self.old.entries (ticket_after result) self.new.entries }
        ensures wakes { wakes.new ≡ wakes.old ++ wakes_of_grant ticket (granted_by (heard result)) self.new.entries }
    {
        match ticket {
            None => self.poll_new(amount, waker),
            Some(ticket) => self.poll_again(amount, ticket, waker, wakes),
        }
    }

    /// Takes `permits` permits if they are there and it is the request's turn, and returns how many were taken. It is
    /// its turn if it is in front, or if it has no ticket and no request waits.
    ///
    /// Otherwise registers the context's waker in the request's entry, and returns its ticket. A request without a
    /// ticket gets an entry at the back; if the queue is full, it gets the error. A grant to a request with a ticket
    /// hands out the waker of the request that is in front then.
    ///
    /// A ticket has to name a request that waits (`is_waiting`).
    pub fn poll_acquire<const K: usize>(
        &mut self,
        permits: usize,
        ticket: Option<Ticket>,
        cx: &Context<Q::Waker>,
        wakes: &mut Wakes<Q::Waker, K>,
    ) -> FairPoll
        requires room { length wakes.old < K }
        requires waits { NamesWaiting ticket self.old.entries }
        ensures permits { TakesInTurn (is_next ticket (numbers self.old.entries)) self.old.permits (Amount.Exactly permits) (granted_by (heard result)) self.new.permits }
        ensures full { OnRefusal (heard result) (HasNoPlace Q.places ticket self.old.entries) }
        ensures entries { Queues Q.places cx.now ticket self.old.entries (ticket_after result) self.new.entries }
        ensures wakes { wakes.new ≡ wakes.old ++ wakes_of_grant ticket (granted_by (heard result)) self.new.entries }
    {
        self.poll(Amount::Exactly(permits), ticket, cx.waker(), wakes)
    }

    /// Like `poll_acquire`, but takes all permits, if at least `min` are there.
    ///
    /// A ticket has to name a request that waits (`is_waiting`).
    pub fn poll_acquire_all<const K: usize>(
        &mut self,
        min: usize,
        ticket: Option<Ticket>,
        cx: &Context<Q::Waker>,
        wakes: &mut Wakes<Q::Waker, K>,
    ) -> FairPoll
        requires room { length wakes.old < K }
        requires waits { NamesWaiting ticket self.old.entries }
        ensures permits { TakesInTurn (is_next ticket (numbers self.old.entries)) self.old.permits (Amount.AllFrom min) (granted_by (heard result)) self.new.permits }
        ensures full { OnRefusal (heard result) (HasNoPlace Q.places ticket self.old.entries) }
        ensures entries { Queues Q.places cx.now ticket self.old.entries (ticket_after result) self.new.entries }
        ensures wakes { wakes.new ≡ wakes.old ++ wakes_of_grant ticket (granted_by (heard result)) self.new.entries }
    {
        self.poll(Amount::AllFrom(min), ticket, cx.waker(), wakes)
    }

    /// Ends a request that waits. It leaves the queue. If it was in front, hands out the waker of the request that is
    /// in front then.
    ///
    /// The ticket has to name a request that waits (`is_waiting`).
    pub fn cancel<const K: usize>(&mut self, ticket: Ticket, wakes: &mut Wakes<Q::Waker, K>)
        requires room { length wakes.old < K }
        requires waits { NamesWaiting (Some ticket) self.old.entries }
        ensures permits { self.new.permits ≡ self.old.permits }
        ensures entries { self.new.entries ≡ left_by ticket self.old.entries }
        ensures wakes { wakes.new ≡ wakes.old ++ woken_if (is_front ticket (numbers self.old.entries)) (front_wakers self.new.entries) }
    {
        let was_front = self.queue.is_front(ticket.number);
        self.queue.remove(ticket.number);
        self.tell(was_front, wakes);
    }

    // Hands out the waker of the request in front, if there is news for it.
    fn tell<const K: usize>(&self, news: bool, wakes: &mut Wakes<Q::Waker, K>)
        requires { length wakes.old < K }
        ensures { wakes.new ≡ wakes.old ++ woken_if news (front_wakers self.now.entries) }
    {
        if news {
            if let Some(waker) = self.queue.waker(0) {
                wakes.push(waker);
            }
        }
    }

    /// Gives `permits` permits back, up to `usize::MAX` in all. Hands out the waker of the request in front if
    /// `permits` is more than 0. The waker stays in its entry.
    pub fn release<const K: usize>(&mut self, permits: usize, wakes: &mut Wakes<Q::Waker, K>)
        requires { length wakes.old < K }
        ensures permits { self.new.permits ≡ released self.old.permits permits }
        ensures entries { self.new.entries ≡ self.old.entries }
        ensures wakes { wakes.new ≡ wakes.old ++ woken_if (nat_lt 0 permits) (front_wakers self.old.entries) }
    {
        give_back(&mut self.permits, permits);
        self.tell(permits > 0, wakes);
    }

    /// Sets the number of permits that are there. Hands out the waker of the request in front if it is more than
    /// before. The waker stays in its entry.
    pub fn set<const K: usize>(&mut self, permits: usize, wakes: &mut Wakes<Q::Waker, K>)
        requires { length wakes.old < K }
        ensures permits { self.new.permits ≡ permits }
        ensures entries { self.new.entries ≡ self.old.entries }
        ensures wakes { wakes.new ≡ wakes.old ++ woken_if (nat_lt self.old.permits permits) (front_wakers self.old.entries) }
    {
        let before = mem::replace(&mut self.permits, permits);
        self.tell(permits > before, wakes);
    }
}

/// A request for permits of a fair semaphore.
#[derive(Debug, Drop)]
pub struct FairRequest {
    amount: Amount,
    ticket: Option<Ticket>,
    finished: bool,
}

impl Model for FairRequest {
    ghost use Rattle.esync_permits.specs.Fair.{Request};

    ghost Value = { Request };

    ghost view = { λ a. record { amount = a.amount; ticket = a.ticket; finished = a.finished } };
}

impl FairRequest {
    /// Returns a request for the amount, which isn't answered yet.
    pub fn new(amount: Amount) -> Self
        ensures { result ≡ record { amount = amount; ticket = None; finished = false } }
    {
        FairRequest {
            amount,
            ticket: None,
            finished: false,
        }
    }

    /// Returns whether the request was answered: the permits were granted, or there was no place in the queue.
    pub fn is_finished(&self) -> bool
        ensures { result ≡ self.now.finished }
    {
        self.finished
    }

    /// Returns the ticket of the request, or `None` if it doesn't wait.
    pub fn ticket(&self) -> Option<Ticket>
        ensures { result ≡ self.now.ticket }
    {
        self.ticket
    }

    // Marks the request as answered.
    fn finish(&mut self)
        ensures { self.new ≡ record self.old { ticket = None; finished = true } }
    {
        *self = FairRequest {
            ticket: None,
            finished: true,
            ..*self
        };
    }

    /// Returns whether the request has no ticket, or a ticket that names a request which waits in the state.
    pub fn belongs_to<Q: WaitQueue>(&self, state: &FairOver<Q>) -> bool
        ensures { IsTrue result ↔ NamesWaiting self.now.ticket state.now.entries }
    {
        match self.ticket() {
            Some(ticket) => state.is_waiting(ticket),
            None => true,
        }
    }

    /// Takes the permits if they are there and it is the request's turn, and returns how many were taken. Otherwise
    /// registers the context's waker in the request's entry and returns Pending. An error means that there was no place
    /// in the queue. A grant to a request that waited hands out the waker of the request that is in front then.
    ///
    /// A finished request may not be polled. Its ticket has to name a request that waits in the state (`belongs_to`).
    pub fn poll_state<Q: WaitQueue, const K: usize>(
        &mut self,
        state: &mut FairOver<Q>,
        cx: &Context<Q::Waker>,
        wakes: &mut Wakes<Q::Waker, K>,
    ) -> Poll<Result<usize, WaitQueueFull>>
        requires room { length wakes.old < K }
        requires unfinished { self.old.finished ≡ false }
        requires waits { NamesWaiting self.old.ticket state.old.entries }
        ensures permits { TakesInTurn (is_next self.old.ticket (numbers state.old.entries)) state.old.permits self.old.amount (granted_by (request_heard result)) state.new.permits }
        ensures full { OnRefusal (request_heard result) (HasNoPlace Q.places self.old.ticket state.old.entries) }
        ensures entries { Queues Q.places cx.now self.old.ticket state.old.entries self.new.ticket state.new.entries }
        ensures wakes { wakes.new ≡ wakes.old ++ wakes_of_grant self.old.ticket (granted_by (request_heard result)) state.new.entries }

        // The request has a ticket while it waits.
        ensures ticket { is_some self.new.ticket ≡ is_none (request_heard result) }
        ensures request { self.new ≡ record self.old { ticket = self.new.ticket; finished = is_some (request_heard result) } }
    {
        match state.poll(self.amount, self.ticket(), cx.waker(), wakes) {
            FairPoll::Ready(answer) => {
                self.finish();
                Poll::Ready(answer)
            }
            FairPoll::Pending(ticket) => {
                *self = FairRequest {
                    ticket: Some(ticket),
                    ..*self
                };
                Poll::Pending
            }
        }
    }

    /// Ends the request. If it waits, it leaves the queue. If it was in front, hands out the waker of the request that
    /// is in front then.
    ///
    /// Its ticket has to name a request that waits in the state (`belongs_to`).
    pub fn end<Q: WaitQueue, const K: usize>(
        self,
        state: &mut FairOver<Q>,
        wakes: &mut Wakes<Q::Waker, K>,
    )
        requires room { length wakes.old < K }
        requires waits { NamesWaiting self.ticket state.old.entries }
        ensures permits { state.new.permits ≡ state.old.permits }
        ensures entries { state.new.entries ≡ entries_after_request self.ticket state.old.entries }
        ensures wakes { wakes.new ≡ wakes.old ++ wakes_of_request self.ticket state.old.entries }
    {
        if let Some(ticket) = self.ticket() {
            state.cancel(ticket, wakes);
        }
    }
}
