//! Semaphores that tasks on several threads share by reference.
ghost use Rattle.std.specs.Prelude.{◌≡◌, Some, ◌<◌, ◌≤◌, length, IsSome, IfSome, IfOk, is_none};
ghost use Rattle.esync_permits.specs.Shared.{Suits, granted, IfReady, Leaves};

use crate::queue::{FixedQueue, WaitQueue};
use crate::semaphore::{
    Amount, FairOver, FairRequest, FairState, GreedyRequest, GreedyState, WaitQueueFull,
};
use esync_base::shared::Shared;
use esync_base::step;
use esync_base::waitqueue::{Context, Hand, Poll, Wakes};
use std::convert::Infallible;
use std::marker::Model;

/// A state of a semaphore, greedy or fair, for its shared form. The calls are those of the state and of its requests.
pub trait PermitState: Drop {
    type Waker: Copy + Eq;

    type Request: Drop;

    /// Why a request was refused.
    type Error: Drop;

    ghost use Rattle.std.specs.Prelude.{Option};
    ghost use Rattle.esync_permits.specs.declared.semaphore.Amount.{Amount};

    /// The amount that a request is for, until it is answered.
    ghost wanted: { Self.Request → Option Amount };

    /// Returns a semaphore with the number of permits, for which no request waits.
    fn new(permits: usize) -> Self;

    /// Returns how many permits are there to be taken.
    fn permits(&self) -> usize;

    /// Takes the permits of a request that doesn't wait, if they are granted now, and returns how many were taken.
    /// Otherwise returns `None`.
    fn try_take(&mut self, amount: Amount) -> Option<usize>
        ensures { IfSome result (λ permits. Suits amount permits) };

    /// Gives `permits` permits back, up to `usize::MAX` in all. May hand out the waker of a task that waits for some.
    fn release(&mut self, permits: usize, wakes: &mut Wakes<Self::Waker, 1>)
        requires { length wakes.old < 1 };

    /// Sets the number of permits that are there. If it is more, may hand out the waker of a task that waits.
    fn set(&mut self, permits: usize, wakes: &mut Wakes<Self::Waker, 1>)
        requires { length wakes.old < 1 };

    /// Returns a request for the amount, which isn't answered yet.
    fn request(amount: Amount) -> Self::Request
        ensures { wanted result ≡ Some amount };

    /// Returns whether the request was answered.
    fn is_finished(request: &Self::Request) -> bool
        ensures { result ≡ is_none (wanted request.now) };

    /// Takes the permits of a request if they are granted now, and returns how many were taken. Otherwise registers the
    /// context's waker and returns Pending, unless the request is refused.
    fn poll(
        &mut self,
        request: &mut Self::Request,
        cx: &Context<Self::Waker>,
        wakes: &mut Wakes<Self::Waker, 1>,
    ) -> Poll<Result<usize, Self::Error>>
        requires room { length wakes.old < 1 }
        requires unfinished { IsSome (wanted request.old) }
        ensures granted { IfReady result (λ heard. IfOk heard (λ permits. IfSome (wanted request.old) (λ amount. Suits amount permits))) }
        ensures request { Leaves result (wanted request.old) (wanted request.new) };

    /// Returns whether the request has to be ended in the state.
    fn has_a_place(request: &Self::Request) -> bool;

    /// Ends a request. If it waits, it leaves the state.
    fn end(&mut self, request: &Self::Request, wakes: &mut Wakes<Self::Waker, 1>)
        requires { length wakes.old < 1 };
}

/// A semaphore that tasks on several threads share: the calls of both kinds. Shared references to them implement it.
///
/// A grant is a releaser, whose end gives the permits back.
pub trait Semaphore: Copy {
    /// Why permits were refused.
    type Error;

    /// The future of `acquire`.
    type Acquire;

    /// The future of `acquire_all`.
    type AcquireAll;

    /// Returns a future that takes `permits` permits when they are granted.
    fn acquire(self, permits: usize) -> Self::Acquire;

    /// Takes `permits` permits if they are granted now, and returns a releaser of them. Otherwise returns `None`.
    fn try_acquire(self, permits: usize) -> Option<SemaphoreReleaser<Self>>;

    /// Returns a future that takes all permits when at least `min` are granted.
    fn acquire_all(self, min: usize) -> Self::AcquireAll;

    /// Takes all permits if at least `min` are granted now, and returns a releaser of them. Otherwise returns `None`.
    fn try_acquire_all(self, min: usize) -> Option<SemaphoreReleaser<Self>>;

    /// Gives `permits` permits back, up to `usize::MAX` in all. If that is more than 0, wakes the task that waits, or
    /// in a fair semaphore the one in front.
    fn release(self, permits: usize);

    /// Sets the number of permits that are there. If it is more than before, wakes the task that waits, or in a fair
    /// semaphore the one in front.
    fn set(self, permits: usize);
}

/// A releaser of permits that were granted. They are given back when it ends.
pub struct SemaphoreReleaser<S: Semaphore> {
    semaphore: S,
    permits: usize,
}

impl<S: Semaphore> Drop for SemaphoreReleaser<S> {
    fn drop(self) {
        let SemaphoreReleaser { semaphore, permits } = self;
        semaphore.release(permits);
    }
}

impl<S: Semaphore> SemaphoreReleaser<S> {
    /// Returns how many permits were granted.
    pub fn permits(&self) -> usize
        ensures { result ≡ granted self.now }
    {
        self.permits
    }

    /// Ends the releaser without giving its permits back, and returns how many they are.
    pub fn disarm(self) -> usize
        ensures { result ≡ granted self }
    {
        let SemaphoreReleaser {
            semaphore: _,
            permits,
        } = self;
        permits
    }

    /// Gives the permits back, as a drop does.
    pub fn end(self) {
        drop(self);
    }
}

/// A greedy semaphore. A request is granted as soon as its permits are there, even if another request waits for more.
pub type GreedySemaphore<W, H> = SharedSemaphore<GreedyState<W>, W, H>;

/// A fair semaphore. Requests are granted in the order in which they came to wait, and at most `N` wait at a time.
pub type FairSemaphore<W, H, const N: usize> = SharedSemaphore<FairState<W, N>, W, H>;

/// A semaphore that tasks on several threads share by reference. Each call makes the call of its name on the state.
#[derive(Drop)]
pub struct SharedSemaphore<S, W, H> {
    inner: Shared<S, W, H>,
}

impl<S: PermitState<Waker = W>, W: Copy + Eq, H: Hand<W> + Default> Default
    for SharedSemaphore<S, W, H> {
    fn default() -> Self {
        SharedSemaphore::new(0, H::default())
    }
}

impl<S: PermitState<Waker = W>, W: Copy + Eq, H: Hand<W>> SharedSemaphore<S, W, H> {
    /// Returns a semaphore with the number of permits, for which no request waits.
    pub fn new(permits: usize, hand: H) -> Self {
        SharedSemaphore {
            inner: Shared::new(S::new(permits), hand),
        }
    }

    /// Returns how many permits are there to be taken now.
    pub fn permits(&self) -> usize {
        self.inner.guard().permits()
    }

    fn try_take(&self, amount: Amount) -> Option<SemaphoreReleaser<&Self>>
        ensures { IfSome result (λ releaser. Suits amount (granted releaser)) }
    {
        let permits = self.inner.guard().try_take(amount)?;
        Some(SemaphoreReleaser {
            semaphore: self,
            permits,
        })
    }

    /// Returns a future that takes `permits` permits when they are granted.
    pub fn acquire(&self, permits: usize) -> Acquire<'_, S, W, H>
        ensures { S.wanted result ≡ Some (Amount.Exactly permits) }
    {
        Acquire {
            semaphore: self,
            request: S::request(Amount::Exactly(permits)),
        }
    }

    /// Takes `permits` permits if they are granted now, and returns a releaser of them. Otherwise returns `None`.
    ///
    /// Match on the answer, and `end` the releaser: `Option::map` over it, and a `drop` of the whole `Option`, get no
    /// proof.
    pub fn try_acquire(&self, permits: usize) -> Option<SemaphoreReleaser<&Self>>
        ensures { IfSome result (λ releaser. granted releaser ≡ permits) }
    {
        self.try_take(Amount::Exactly(permits))
    }

    /// Returns a future that takes all permits when at least `min` are granted.
    pub fn acquire_all(&self, min: usize) -> Acquire<'_, S, W, H>
        ensures { S.wanted result ≡ Some (Amount.AllFrom min) }
    {
        Acquire {
            semaphore: self,
            request: S::request(Amount::AllFrom(min)),
        }
    }

    /// Takes all permits if at least `min` are granted now, and returns a releaser of them. Otherwise returns `None`.
    pub fn try_acquire_all(&self, min: usize) -> Option<SemaphoreReleaser<&Self>>
        ensures { IfSome result (λ releaser. min ≤ granted releaser) }
    {
        self.try_take(Amount::AllFrom(min))
    }

    /// Gives `permits` permits back, up to `usize::MAX` in all. If that is more than 0, wakes the task that waits, or
    /// in a fair semaphore the one in front.
    pub fn release(&self, permits: usize) {
        step!(
            self.inner,
            |state, wakes| state.release(permits, &mut wakes)
        )
    }

    /// Sets the number of permits that are there. If it is more than before, wakes the task that waits, or in a fair
    /// semaphore the one in front.
    pub fn set(&self, permits: usize) {
        step!(self.inner, |state, wakes| state.set(permits, &mut wakes))
    }
}

impl<'a, S: PermitState<Waker = W>, W: Copy + Eq, H: Hand<W>> Semaphore
    for &'a SharedSemaphore<S, W, H> {
    type Error = S::Error;

    type Acquire = Acquire<'a, S, W, H>;

    type AcquireAll = Acquire<'a, S, W, H>;

    fn acquire(self, permits: usize) -> Acquire<'a, S, W, H> {
        SharedSemaphore::acquire(self, permits)
    }

    fn try_acquire(self, permits: usize) -> Option<SemaphoreReleaser<Self>> {
        SharedSemaphore::try_acquire(self, permits)
    }

    fn acquire_all(self, min: usize) -> Acquire<'a, S, W, H> {
        SharedSemaphore::acquire_all(self, min)
    }

    fn try_acquire_all(self, min: usize) -> Option<SemaphoreReleaser<Self>> {
        SharedSemaphore::try_acquire_all(self, min)
    }

    fn release(self, permits: usize) {
        SharedSemaphore::release(self, permits)
    }

    fn set(self, permits: usize) {
        SharedSemaphore::set(self, permits)
    }
}

/// A future for permits of a greedy semaphore. `acquire` returns it.
pub type GreedyAcquire<'a, W, H> = Acquire<'a, GreedyState<W>, W, H>;

/// A future for all permits of a greedy semaphore. `acquire_all` returns it.
pub type GreedyAcquireAll<'a, W, H> = Acquire<'a, GreedyState<W>, W, H>;

/// A future for permits of a fair semaphore. `acquire` returns it.
pub type FairAcquire<'a, W, H, const N: usize> = Acquire<'a, FairState<W, N>, W, H>;

/// A future for all permits of a fair semaphore. `acquire_all` returns it.
pub type FairAcquireAll<'a, W, H, const N: usize> = Acquire<'a, FairState<W, N>, W, H>;

/// A future for permits. If it ends while it waits, its request leaves the queue of a fair semaphore.
#[must_use]
pub struct Acquire<'a, S: PermitState<Waker = W>, W: Copy + Eq, H: Hand<W>> {
    semaphore: &'a SharedSemaphore<S, W, H>,
    request: S::Request,
}

impl<'a, S: PermitState<Waker = W>, W: Copy + Eq, H: Hand<W>> Model for Acquire<'a, S, W, H> {
    ghost Value = { S.Request };

    ghost coded = { S.Request.code };

    ghost view = { λ a. a.request };
}

impl<'a, S: PermitState<Waker = W>, W: Copy + Eq, H: Hand<W>> Acquire<'a, S, W, H> {
    /// Returns whether the request was answered.
    pub fn is_finished(&self) -> bool
        ensures { result ≡ is_none (S.wanted self.now) }
    {
        S::is_finished(&self.request)
    }

    /// Takes the permits if they are granted now, and returns a releaser of them. Otherwise registers the context's
    /// waker and returns Pending.
    ///
    /// An error means that the queue of a fair semaphore is full; a greedy semaphore has no error. A finished future
    /// may not be polled.
    pub fn poll(
        &mut self,
        cx: &Context<W>,
    ) -> Poll<Result<SemaphoreReleaser<&'a SharedSemaphore<S, W, H>>, S::Error>>
        requires { IsSome (S.wanted self.old) }
        ensures granted { IfReady result (λ heard. IfOk heard (λ releaser. IfSome (S.wanted self.old) (λ amount. Suits amount (granted releaser)))) }
        ensures request { Leaves result (S.wanted self.old) (S.wanted self.new) }
    {
        let answer = step!(
            self.semaphore.inner,
            |state, wakes| state.poll(&mut self.request, cx, &mut wakes)
        );
        match answer {
            Poll::Ready(Ok(permits)) => Poll::Ready(Ok(SemaphoreReleaser {
                semaphore: self.semaphore,
                permits,
            })),
            Poll::Ready(Err(error)) => Poll::Ready(Err(error)),
            Poll::Pending => Poll::Pending,
        }
    }

    /// Ends the request, as a drop does.
    pub fn end(self) {
        drop(self);
    }
}

impl<'a, S: PermitState<Waker = W>, W: Copy + Eq, H: Hand<W>> Drop for Acquire<'a, S, W, H> {
    fn drop(self) {
        let Acquire { semaphore, request } = self;
        if S::has_a_place(&request) {
            step!(
                semaphore.inner,
                |state, wakes| state.end(&request, &mut wakes)
            )
        }
    }
}

impl<W: Copy + Eq> PermitState for GreedyState<W> {
    type Waker = W;

    type Request = GreedyRequest;

    type Error = Infallible;

    ghost wanted = { λ request. request };

    fn new(permits: usize) -> Self {
        GreedyState::new(permits)
    }

    fn permits(&self) -> usize {
        GreedyState::permits(self)
    }

    fn try_take(&mut self, amount: Amount) -> Option<usize> {
        GreedyState::try_take(self, amount)
    }

    fn release(&mut self, permits: usize, wakes: &mut Wakes<W, 1>) {
        GreedyState::release(self, permits, wakes)
    }

    fn set(&mut self, permits: usize, wakes: &mut Wakes<W, 1>) {
        GreedyState::set(self, permits, wakes)
    }

    fn request(amount: Amount) -> GreedyRequest {
        GreedyRequest::new(amount)
    }

    fn is_finished(request: &GreedyRequest) -> bool {
        request.is_finished()
    }

    fn poll(
        &mut self,
        request: &mut GreedyRequest,
        cx: &Context<W>,
        wakes: &mut Wakes<W, 1>,
    ) -> Poll<Result<usize, Infallible>> {
        match request.poll_state(self, cx, wakes) {
            Poll::Ready(permits) => Poll::Ready(Ok(permits)),
            Poll::Pending => Poll::Pending,
        }
    }

    fn has_a_place(_request: &GreedyRequest) -> bool {
        false
    }

    fn end(&mut self, _request: &GreedyRequest, _wakes: &mut Wakes<W, 1>) {}
}

impl<Q: FixedQueue> PermitState for FairOver<Q> {
    type Waker = Q::Waker;

    type Request = FairRequest;

    type Error = WaitQueueFull;

    ghost use Rattle.esync_permits.specs.Shared.{fair_wanted};

    ghost wanted = { fair_wanted };

    fn new(permits: usize) -> Self {
        FairOver::new(permits)
    }

    fn permits(&self) -> usize {
        FairOver::permits(self)
    }

    fn try_take(&mut self, amount: Amount) -> Option<usize> {
        FairOver::try_take(self, amount)
    }

    fn release(&mut self, permits: usize, wakes: &mut Wakes<Q::Waker, 1>) {
        FairOver::release(self, permits, wakes)
    }

    fn set(&mut self, permits: usize, wakes: &mut Wakes<Q::Waker, 1>) {
        FairOver::set(self, permits, wakes)
    }

    fn request(amount: Amount) -> FairRequest {
        FairRequest::new(amount)
    }

    fn is_finished(request: &FairRequest) -> bool {
        request.is_finished()
    }

    // A request has a ticket of this state, so it always belongs here. If it doesn't, it is answered as at a full
    // queue.
    fn poll(
        &mut self,
        request: &mut FairRequest,
        cx: &Context<Q::Waker>,
        wakes: &mut Wakes<Q::Waker, 1>,
    ) -> Poll<Result<usize, WaitQueueFull>> {
        if !request.belongs_to(self) {
            request.finish();
            return Poll::Ready(Err(WaitQueueFull));
        }
        request.poll_state(self, cx, wakes)
    }

    fn has_a_place(request: &FairRequest) -> bool {
        request.ticket().is_some()
    }

    fn end(&mut self, request: &FairRequest, wakes: &mut Wakes<Q::Waker, 1>) {
        if let Some(ticket) = request.ticket() {
            if self.is_waiting(ticket) {
                self.cancel(ticket, wakes);
            }
        }
    }
}
