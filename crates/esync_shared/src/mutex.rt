//! The mutex with its guards, also those that are narrowed to the second of two values.
use crate::form::{Answered, Form};
use esync_base::waitqueue::{Context, Hand, Poll};
use esync_guards::mutex::machine::{Lock, MutexCall, MutexHeard};
use esync_guards::mutex::{LockFuture, MappedMutexGuard, Mutex, MutexGuard, Second, TryLockError};
use esync_machine::primitive::Answer;
use esync_script::capacity::Capacity;
use esync_script::mutex::MutexWords;

/// The value of the mutex.
pub type Pair = (u64, u64);

/// A mutex of two values.
#[derive(Drop)]
pub struct Guarded<'m, H> {
    pub mutex: &'m Mutex<Pair, u64, H>,
}

/// A future, or the guard that it left.
#[derive(Drop)]
pub enum Held<'m, H: Hand<u64>> {
    Lock(LockFuture<'m, Pair, u64, H>),
    Guard(MutexGuard<'m, Pair, u64, H>),
    Mapped(MappedMutexGuard<'m, Pair, u64, Second, u64, H>),
}

impl<'m, H: Hand<u64>> Form for Guarded<'m, H> {
    type Words = MutexWords<Capacity>;

    type Held = Held<'m, H>;

    fn begin(&mut self, _ask: Lock) -> Option<Self::Held> {
        Some(Held::Lock(self.mutex.lock()))
    }

    fn poll(&mut self, held: &mut Self::Held, cx: &Context<u64>) -> Answered<Self> {
        let Held::Lock(future) = held else {
            return None;
        };
        Some(match future.poll(cx) {
            Poll::Ready(guard) => {
                *held = Held::Guard(guard);
                Answer::Gives(MutexHeard::Locked)
            }
            Poll::Pending => Answer::Pending,
        })
    }

    fn stays(held: &Self::Held) -> bool {
        !matches!(held, Held::Lock(_))
    }

    fn number(call: &MutexCall<Pair, u64>) -> Option<usize> {
        match call {
            MutexCall::TryLock(r)
            | MutexCall::Read(r)
            | MutexCall::Write(r, _)
            | MutexCall::Map(r)
            | MutexCall::WritePart(r, _) => Some(*r),
        }
    }

    fn call(
        &mut self,
        call: MutexCall<Pair, u64>,
        place: &mut Option<Self::Held>,
    ) -> Answered<Self> {
        Some(match call {
            MutexCall::TryLock(_) => Answer::Gives(MutexHeard::Tried(self.try_lock_at(place)?)),
            MutexCall::Read(_) => Answer::Gives(match place.as_ref()? {
                Held::Lock(_) => return None,
                Held::Guard(guard) => MutexHeard::Value(*guard.get()),
                Held::Mapped(guard) => MutexHeard::Part(*guard.get()),
            }),
            MutexCall::Write(_, value) => {
                let Some(Held::Guard(guard)) = place else {
                    return None;
                };
                *guard.get_mut() = value;
                Answer::Done
            }
            MutexCall::Map(_) => {
                let (held, answer) = mapped(place.take()?);
                *place = Some(held);
                answer?
            }
            MutexCall::WritePart(_, part) => {
                let Some(Held::Mapped(guard)) = place else {
                    return None;
                };
                *guard.get_mut() = part;
                Answer::Done
            }
        })
    }
}

impl<'m, H: Hand<u64>> Guarded<'m, H> {
    // Locks the mutex for a free number.
    fn try_lock_at(&self, place: &mut Option<Held<'m, H>>) -> Option<Result<(), TryLockError>> {
        if place.is_some() {
            return None;
        }
        Some(match self.mutex.try_lock() {
            Ok(guard) => {
                *place = Some(Held::Guard(guard));
                Ok(())
            }
            Err(TryLockError) => Err(TryLockError),
        })
    }
}

// Narrows a guard to the part, and returns the mapped guard. There is no answer if it is no guard.
fn mapped<H: Hand<u64>, A>(held: Held<'_, H>) -> (Held<'_, H>, Option<Answer<A>>) {
    match held {
        Held::Guard(guard) => (Held::Mapped(guard.map(Second {})), Some(Answer::Done)),
        held => (held, None),
    }
}
