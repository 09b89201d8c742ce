//! The mutex as a machine that takes commands.
ghost use Rattle.std.specs.Prelude.{◌≡◌, [], false, IfOk, OnErr};
ghost use Rattle.esync_machine.specs.Object.{GoodRunOver};
ghost use Rattle.esync_guards.specs.MutexRules.{mutex_rules, mutex_wakings, Tries, Reads, Writes, WritesPart, OneGuard};

use super::{MutexState, Projection, TryLockError, put_part};
use esync_base::kept::Kept;
use esync_base::waitqueue::{Context, Poll, Registered, Wakes};
use esync_machine::primitive::{Answer, Command, Primitive, Reach, Turn};
use esync_machine::requests::Requests;
use esync_machine::run::{Reply, run};
use std::alloc::{AllocError, Global};
use std::fmt;
use std::marker::{Model, PhantomData};

/// A request for the lock.
#[derive(Clone, Copy, Debug, PartialEq, Eq)]
pub struct Lock {}

/// The holder of a number of a mutex.
#[derive(Clone, Copy, Debug, PartialEq, Eq)]
pub enum MutexHeld {
    /// A request for the lock.
    Waiting,
    /// A guard: its holder has the lock, and with it the value.
    Guard,
    /// A mapped guard: a guard that is narrowed to a part of the value.
    Mapped,
}

/// The calls of a mutex beside its requests.
#[derive(Clone, Copy, Debug, PartialEq, Eq)]
pub enum MutexCall<T, U> {
    /// Locks the mutex for a free number, if it isn't locked.
    TryLock(usize),
    /// Asks a guard for the value, or a mapped guard for the part.
    Read(usize),
    /// Writes the value through a guard.
    Write(usize, T),
    /// Narrows a guard to the part.
    Map(usize),
    /// Writes the part through a mapped guard.
    WritePart(usize, U),
}

/// The answers of a mutex.
#[derive(Clone, Copy, Debug, PartialEq, Eq)]
pub enum MutexHeard<T, U> {
    /// The request got the lock, and is a guard now.
    Locked,
    /// The outcome of a try.
    Tried(Result<(), TryLockError>),
    /// The value that a guard read.
    Value(T),
    /// The part that a mapped guard read.
    Part(U),
}

/// A mutex with its value, and the part that a guard can be narrowed to.
#[derive_where(Debug; T: fmt::Debug + Drop, P: fmt::Debug + Drop, W: fmt::Debug)]
#[derive(Drop)]
pub struct Guarded<T, U, P, W> {
    lock: MutexState<W>,
    value: T,
    projection: P,
    part: PhantomData<U>,
}

impl<T, U, P, W> Model for Guarded<T, U, P, W> {
    ghost use Rattle.esync_guards.specs.Mutex.{Guarding, guarding_code};

    ghost Value = { Guarding T W };

    ghost coded = { guarding_code T.code W.code };

    ghost view = { λ a. record { lock = a.lock; value = a.value } };
}

impl<T: Copy, U, P: Copy, W: Copy> Kept for Guarded<T, U, P, W> {
    fn kept(&self) -> Result<Self, AllocError> {
        Ok(Guarded {
            lock: self.lock.kept()?,
            value: self.value,
            projection: self.projection,
            part: PhantomData,
        })
    }
}

impl<T, U, P, W: Copy + Eq> Registered for Guarded<T, U, P, W> {
    type Waker = W;

    ghost use Rattle.esync_base.specs.Standing.{at_one};

    ghost at = { λ m. at_one m.lock.waiter };

    fn registered(&self, place: usize, i: usize) -> Option<W> {
        self.lock.registered(place, i)
    }
}

impl<T: Copy, U: Copy, P: Projection<T, U>, W: Copy + Eq> Guarded<T, U, P, W> {
    /// Returns the value under a free lock, without a waker.
    pub fn new(value: T, projection: P) -> Self
        ensures value { result.value ≡ value }
        ensures lock { result.lock ≡ record { held = false; waiter = [] } }
    {
        Guarded {
            lock: MutexState::new(),
            value,
            projection,
            part: PhantomData,
        }
    }

    /// Returns the state of the lock.
    pub fn lock(&self) -> &MutexState<W>
        ensures { result.now ≡ self.now.lock }
    {
        &self.lock
    }

    /// Returns the value, also while the mutex is locked.
    pub fn value(&self) -> &T
        ensures { result.now ≡ self.now.value }
    {
        &self.value
    }

    // Tries to lock the mutex for a free number.
    fn try_at(&mut self, place: &mut Option<MutexHeld>) -> Answer<MutexHeard<T, U>>
        ensures allowed { Tries (record { held = self.old.lock.held; value = self.old.value }) place.old result (record { held = self.new.lock.held; value = self.new.value }) place.new }
        ensures waiter { self.new.lock.waiter ≡ self.old.lock.waiter }
    {
        if place.is_some() {
            return Answer::NoSuch;
        }
        let tried = self.lock.try_lock();
        if tried.is_ok() {
            *place = Some(MutexHeld::Guard);
        }
        Answer::Gives(MutexHeard::Tried(tried))
    }

    // Reads through a guard.
    fn read_at(&self, place: &Option<MutexHeld>) -> Answer<MutexHeard<T, U>>
        ensures { Reads P.get (record { held = self.now.lock.held; value = self.now.value }) place.now result (record { held = self.now.lock.held; value = self.now.value }) place.now }
    {
        match place {
            Some(MutexHeld::Guard) => Answer::Gives(MutexHeard::Value(self.value)),
            Some(MutexHeld::Mapped) => {
                let part: &U = self.projection.read(&self.value);
                Answer::Gives(MutexHeard::Part(*part))
            }
            Some(MutexHeld::Waiting) | None => Answer::NoSuch,
        }
    }

    // Writes through a guard.
    fn write_at(&mut self, value: T, place: &Option<MutexHeld>) -> Answer<MutexHeard<T, U>>
        ensures allowed { Writes value (record { held = self.old.lock.held; value = self.old.value }) place.now result (record { held = self.new.lock.held; value = self.new.value }) place.now }
        ensures lock { self.new.lock ≡ self.old.lock }
    {
        let Some(MutexHeld::Guard) = *place else {
            return Answer::NoSuch;
        };
        self.value = value;
        Answer::Done
    }

    // Writes the part through a mapped guard.
    fn write_part_at(&mut self, part: U, place: &Option<MutexHeld>) -> Answer<MutexHeard<T, U>>
        ensures allowed { WritesPart P.set part (record { held = self.old.lock.held; value = self.old.value }) place.now result (record { held = self.new.lock.held; value = self.new.value }) place.now }
        ensures lock { self.new.lock ≡ self.old.lock }
    {
        let Some(MutexHeld::Mapped) = *place else {
            return Answer::NoSuch;
        };
        put_part(&mut self.value, &self.projection, part);
        Answer::Done
    }
}

impl<T: Copy, U: Copy, P: Projection<T, U>, W: Copy + Eq, const K: usize> Primitive<K>
    for Guarded<T, U, P, W> {
    type Ask = Lock;

    type Held = MutexHeld;

    type Call = MutexCall<T, U>;

    type Heard = MutexHeard<T, U>;

    type Waker = W;

    ghost use Rattle.esync_guards.specs.MutexRules.{mutex_rules, mutex_wakings, OwesLock, FitsLock, NotBoth};
    ghost use Rattle.esync_guards.specs.MutexLaws.{mutex_idle, mutex_pending, mutex_no_such, mutex_no_requests};

    ghost rules = { mutex_rules P.get P.set };

    ghost core = { λ m. record { held = m.lock.held; value = m.value } };

    ghost wakings = { mutex_wakings W.eq };

    ghost registrations = { λ m. m.lock.waiter };

    ghost most = { 1 };

    ghost Owes = { λ m held w. OwesLock W.eq m.lock held w };

    ghost Fits = { λ m held. FitsLock m.lock held };

    ghost Apart = { NotBoth };

    fn begin(&self, _ask: Lock) -> Option<MutexHeld> {
        Some(MutexHeld::Waiting)
    }

    fn poll(
        &mut self,
        held: MutexHeld,
        waker: W,
        wakes: &mut Wakes<W, K>,
    ) -> Turn<MutexHeard<T, U>, MutexHeld> {
        let MutexHeld::Waiting = held else {
            return Turn {
                answer: Answer::NoSuch,
                place: Some(held),
            };
        };
        match self.lock.poll_lock(&Context::from_waker(waker), wakes) {
            Poll::Ready(()) => Turn {
                answer: Answer::Gives(MutexHeard::Locked),
                place: Some(MutexHeld::Guard),
            },
            Poll::Pending => Turn::waits(held),
        }
    }

    fn end(&mut self, held: MutexHeld, wakes: &mut Wakes<W, K>) {
        match held {
            MutexHeld::Waiting => {}
            MutexHeld::Guard | MutexHeld::Mapped => self.lock.unlock(wakes),
        }
    }

    fn reach(call: &MutexCall<T, U>) -> Reach {
        match call {
            MutexCall::TryLock(r)
            | MutexCall::Read(r)
            | MutexCall::Write(r, _)
            | MutexCall::Map(r)
            | MutexCall::WritePart(r, _) => Reach::Number(*r),
        }
    }

    fn leaves(&self, _call: &MutexCall<T, U>, _held: &MutexHeld) -> bool {
        false
    }

    fn call(
        &mut self,
        call: MutexCall<T, U>,
        place: &mut Option<MutexHeld>,
        _wakes: &mut Wakes<W, K>,
    ) -> Answer<MutexHeard<T, U>> {
        match call {
            MutexCall::TryLock(_) => self.try_at(place),
            MutexCall::Read(_) => self.read_at(place),
            MutexCall::Write(_, value) => self.write_at(value, place),
            MutexCall::Map(_) => {
                let Some(MutexHeld::Guard) = *place else {
                    return Answer::NoSuch;
                };
                *place = Some(MutexHeld::Mapped);
                Answer::Done
            }
            MutexCall::WritePart(_, part) => self.write_part_at(part, place),
        }
    }

    ghost idle = { λ m held w f h. mutex_idle P.get P.set W.eq m.lock m.value held w h };

    ghost pending = { mutex_pending P.get P.set };

    ghost no_such = { mutex_no_such P.get P.set };

    ghost symmetric = { λ h k apart x y. apart y x };

    ghost no_requests = { mutex_no_requests P.get P.set };
}

/// A mutex as a machine, with requests at the numbers below `REQS`.
pub type MutexRun<T, U, P, W, const REQS: usize, const K: usize> = Requests<
    Guarded<T, U, P, W>,
    REQS,
    K,
>;

/// The commands of a mutex.
pub type MutexCommand<T, U, W> = Command<Lock, W, MutexCall<T, U>>;

/// What a mutex answers to a command, with the wakers that it hands out.
pub type MutexReply<T, U, W, const K: usize> = Reply<Answer<MutexHeard<T, U>>, W, K>;

/// Runs the commands on the mutex, one after another, as `run` does, and returns a reply to each.
///
/// Each answer is one that the lock and its value allow. No live request that last heard Pending would now be answered
/// Ready, unless its waker was handed out in that poll or since. No Pending poll that changes nothing hands out its own
/// waker. At the end at most one number has a guard or a mapped guard.
///
/// # Errors
///
/// Returns the error if there is no memory for the replies. The machine is then unchanged.
pub fn run_mutex<
    T: Copy,
    U: Copy,
    P: Projection<T, U>,
    W: Copy + Eq,
    const REQS: usize,
    const K: usize,
>(
    alloc: Global,
    machine: &mut MutexRun<T, U, P, W, REQS, K>,
    commands: Vec<MutexCommand<T, U, W>>,
) -> Result<Vec<MutexReply<T, U, W, K>>, AllocError>
    ensures run { IfOk result (λ replies. GoodRunOver (mutex_rules P.get P.set) (λ m. record { held = m.lock.held; value = m.value }) (mutex_wakings W.eq) (λ m. m.lock.waiter) W.eq K machine.old commands.items replies.items machine.new) }
    ensures one { OneGuard machine.new.requests }
    ensures refused { OnErr result (machine.new ≡ machine.old) }
{
    let replies = run(alloc, machine, commands);
    machine.tied();
    replies
}
