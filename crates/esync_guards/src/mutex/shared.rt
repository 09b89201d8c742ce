//! A mutex that tasks on several threads share by reference, with its guards and its future.
ghost use Rattle.std.specs.Prelude.{◌≡◌, [], is_some};
ghost use Rattle.esync_base.specs.Registration.{registered_if};
ghost use Rattle.esync_guards.specs.Mutex.{Wins, waiter_where_held, wakes_of_turn};

use super::{MutexState, Projection, Then, TryLockError};
use esync_base::place::{Holds, Place};
use esync_base::shared::Shared;
use esync_base::step;
use esync_base::waitqueue::{Context, Hand, Poll, Wakes};
use std::marker::{Model, PhantomData};
use std::sync::{self, Wait};

/// A value that tasks on several threads share by reference. One task at a time uses it, through a guard.
///
/// Its lock is taken only for the length of a state call. A guard has the value to itself: it reads and writes the
/// value without waiting.
#[derive(Drop)]
pub struct Mutex<T, W, H> {
    state: Shared<MutexState<W>, W, H>,
    inner: Place<T>,
}

impl<T, W: Copy + Eq, H: Hand<W>> Mutex<T, W, H> {
    /// Returns a free mutex of the value, whose wakers go to the hand.
    pub fn new(value: T, hand: H) -> Self {
        Mutex {
            state: Shared::new(MutexState::new(), hand),
            inner: Place::new(value),
        }
    }

    /// Returns a future that locks the mutex once it is free.
    pub fn lock(&self) -> LockFuture<'_, T, W, H> {
        LockFuture { mutex: self }
    }

    /// Locks the mutex and returns its guard, if it is free now.
    ///
    /// # Errors
    ///
    /// Returns `TryLockError` if the mutex is locked, or if it is free but its value can't be taken just now. Nothing
    /// is changed.
    pub fn try_lock(&self) -> Result<MutexGuard<'_, T, W, H>, TryLockError> {
        let turn = try_turn(&self.inner, &mut self.state.guard());
        match turn {
            Some(value) => Ok(MutexGuard { mutex: self, value }),
            None => Err(TryLockError),
        }
    }

    fn poll_lock(&self, cx: &Context<W>) -> Poll<MutexGuard<'_, T, W, H>> {
        let turn = step!(
            self.state,
            |state, wakes| poll_turn(&self.inner, &mut state, cx, &mut wakes)
        );
        match turn {
            Some(value) => Poll::Ready(MutexGuard { mutex: self, value }),
            None => Poll::Pending,
        }
    }

    /// Returns the value. No guard exists, since the mutex is moved.
    pub fn into_inner(self) -> T
    where
        H: Drop,
    {
        let Mutex { state: _, inner } = self;
        inner.into_inner()
    }

    /// Lends the value for writing. No guard exists while it is borrowed.
    pub fn get_mut(&mut self) -> &mut T {
        self.inner.get_mut()
    }
}

// Locks the mutex and takes its value, if the state is free and the value is there.
fn try_turn<'a, T, W: Copy + Eq>(
    place: &'a Place<T>,
    state: &mut MutexState<W>,
) -> Option<sync::MutexGuard<'a, T>>
    ensures { Wins (is_some result) state.old state.new }
{
    if state.is_locked() {
        return None;
    }
    let value = place.turn()?;
    let _ = state.try_lock();
    Some(value)
}

// Polls for the lock: locks the mutex and takes its value, if the state is free and the value is there. If the mutex is
// locked, registers the context's waker. If only the value is missing, hands out the context's waker, so that the task
// polls again.
fn poll_turn<'a, T, W: Copy + Eq>(
    place: &'a Place<T>,
    state: &mut MutexState<W>,
    cx: &Context<W>,
    wakes: &mut Wakes<W, 1>,
) -> Option<sync::MutexGuard<'a, T>>
    requires { wakes.old ≡ [] }
    ensures won { Wins (is_some result) (record state.old { waiter = [] }) (record state.new { waiter = [] }) }
    ensures waiter { state.new.waiter ≡ registered_if W.eq 1 state.old.waiter (waiter_where_held state.old.held cx.now) }
    ensures wakes { wakes.new ≡ wakes_of_turn W.eq cx.now state.old.held (is_some result) state.old.waiter }
{
    if let Some(value) = try_turn(place, state) {
        return Some(value);
    }
    if state.is_locked() {
        let _ = state.poll_lock(cx, wakes);
    } else {
        wakes.push(cx.waker());
    }
    None
}

impl<T, W: Copy + Eq, H: Hand<W> + Default> From<T> for Mutex<T, W, H> {
    fn from(value: T) -> Self {
        Mutex::new(value, H::default())
    }
}

impl<T: Default, W: Copy + Eq, H: Hand<W> + Default> Default for Mutex<T, W, H> {
    fn default() -> Self {
        Mutex::new(T::default(), H::default())
    }
}

/// The future of a guard: what `lock` returns. A poll after it was ready locks anew.
#[must_use]
#[derive(Drop)]
pub struct LockFuture<'a, T, W, H> {
    mutex: &'a Mutex<T, W, H>,
}

impl<'a, T, W: Copy + Eq, H: Hand<W>> LockFuture<'a, T, W, H> {
    /// Polls for the lock and returns a guard once the mutex is free. If it is locked, registers the context's waker.
    /// If the mutex is free but its value can't be taken just now, the answer is Pending too, and the context's waker
    /// is handed out, so that the task polls again.
    pub fn poll(&mut self, cx: &Context<W>) -> Poll<MutexGuard<'a, T, W, H>> {
        self.mutex.poll_lock(cx)
    }
}

/// A mutex as its guard sees it: the guard's end unlocks it. No other crate can name this trait, so only the end of a
/// guard unlocks.
///
/// A call uses its receiver up, and no `Drop` is asked of it: a guard whose end unlocks twice, or never, doesn't
/// compile.
pub trait Unlocks {
    type Rt: Wait;

    /// Unlocks the mutex and wakes the task that waits for it.
    fn unlock(self);
}

impl<T, W: Copy + Eq, H: Hand<W>> Unlocks for &Mutex<T, W, H> {
    type Rt = H::Rt;

    fn unlock(self) {
        step!(self.state, |state, wakes| state.unlock(&mut wakes))
    }
}

/// A guard of a mutex: its holder has the lock and the value. Its end unlocks the mutex and wakes the task that waits
/// for it.
pub struct Guard<M: Unlocks, G> {
    mutex: M,
    value: G,
}

/// The guard of a `Mutex`: its holder has the lock and the value. Its end unlocks the mutex and wakes the task that
/// waits for it.
pub type MutexGuard<'a, T, W, H> = Guard<&'a Mutex<T, W, H>, sync::MutexGuard<'a, T>>;

impl<M: Unlocks, G> Model for Guard<M, G> {
    ghost Value = { G };

    ghost coded = { G.code };

    ghost view = { λ a. a.value };
}

impl<M: Unlocks, G: Drop> Guard<M, G> {
    // Puts the value back and returns the mutex alone: so no task finds the state free while the value is still out.
    fn put_back(self) -> M {
        let Guard { mutex, value } = self;
        drop(value);
        mutex
    }
}

impl<M: Unlocks, G: Drop> Drop for Guard<M, G> {
    fn drop(self) {
        self.put_back().unlock();
    }
}

impl<M: Unlocks, G: Holds> Guard<M, G> {
    ghost use Rattle.std.specs.Prelude.{◌≡◌};
    ghost use Rattle.std.specs.Borrow.{Lends, sem};
    ghost use Rattle.esync_guards.specs.contracts.mutex.shared.Guard.{the_row};

    /// Returns the value last written through the guard, or otherwise the value that the mutex had when it was locked.
    pub fn get(&self) -> &G::Value
        ensures { result.now ≡ G.value self.now }
    {
        self.value.read()
    }

    /// Lends the value for writing.
    pub fn get_mut(&mut self) -> &mut G::Value
        ensures* lends { sem 𝓛 (Lends (the_row M.row G.row M.Rt.row) G.Value.row self.entry result (G.with_value self.old)) }
        ensures value { result.now ≡ G.value self.old }
    {
        self.value.write()
    }

    /// Narrows the guard to a part of the value. The mutex stays locked, and the value as it is.
    pub fn map<U, P: Projection<G::Value, U>>(self, projection: P) -> MappedGuard<M, G, U, P>
        ensures { result ≡ self }
    {
        MappedGuard {
            guard: self,
            projection,
            part: PhantomData,
        }
    }

    /// Unlocks the mutex, as a drop does.
    pub fn end(self)
    where
        G: Drop,
    {
        drop(self);
    }
}

/// A guard that is narrowed to a part of the value. Its end unlocks the mutex and wakes the task that waits for it.
#[derive(Drop)]
pub struct MappedGuard<M: Unlocks, G, U, P> {
    guard: Guard<M, G>,
    projection: P,
    part: PhantomData<U>,
}

/// A guard of a `Mutex` that is narrowed to a part of the value. Its end unlocks the mutex and wakes the task that
/// waits for it.
pub type MappedMutexGuard<'a, T, U, P, W, H> = MappedGuard<
    &'a Mutex<T, W, H>,
    sync::MutexGuard<'a, T>,
    U,
    P,
>;

impl<M: Unlocks, G, U, P> Model for MappedGuard<M, G, U, P> {
    ghost Value = { G };

    ghost coded = { G.code };

    ghost view = { λ a. a.guard };
}

impl<M: Unlocks, G: Holds, U, P: Projection<G::Value, U>> MappedGuard<M, G, U, P> {
    ghost use Rattle.std.specs.Prelude.{◌≡◌};
    ghost use Rattle.std.specs.Borrow.{Lends, sem};
    ghost use Rattle.esync_guards.specs.contracts.mutex.shared.MappedGuard.{the_row};

    /// Returns the part of the value.
    pub fn get(&self) -> &U
        ensures { result.now ≡ P.get (G.value self.now) }
    {
        self.projection.read(self.guard.get())
    }

    /// Lends the part of the value for writing. The rest of the value stays.
    pub fn get_mut(&mut self) -> &mut U
        ensures* lends { sem 𝓛 (Lends (the_row M.row G.row U.row P.row M.Rt.row) U.row self.entry result (λ u. G.with_value self.old (P.set (G.value self.old) u))) }
        ensures part { result.now ≡ P.get (G.value self.old) }
    {
        let value = self.guard.get_mut();
        P::write(value, &self.projection)
    }

    /// Narrows the guard to a part of its part. The mutex stays locked, and the value as it is.
    pub fn map<V, Q: Projection<U, V>>(self, projection: Q) -> MappedGuard<M, G, V, Then<P, Q, U>>
        ensures { result ≡ self }
    {
        let MappedGuard {
            guard,
            projection: first,
            part: _,
        } = self;
        MappedGuard {
            guard,
            projection: Then::new(first, projection),
            part: PhantomData,
        }
    }

    /// Unlocks the mutex, as a drop does.
    pub fn end(self)
    where
        G: Drop,
        P: Drop,
    {
        drop(self);
    }
}
