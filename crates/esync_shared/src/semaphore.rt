//! The greedy and the fair semaphore: called by their own calls, and as an implementation of `Semaphore`.
use crate::form::{Answered, Door, Doors, Form};
use esync_base::waitqueue::{Context, Hand, Poll};
use esync_machine::primitive::Answer;
use esync_permits::semaphore::machine::{PermitCall, PermitHeard};
use esync_permits::semaphore::{
    Acquire, Amount, PermitState, Semaphore, SemaphoreReleaser, SharedSemaphore, WaitQueueFull,
};
use esync_words::vocabulary::Vocabulary;
use std::convert::Infallible;
use std::marker::PhantomData;

/// The answer to a request for permits.
pub trait Granted: Drop {
    /// The reason why a request is refused.
    type Error: Drop;

    fn granted(heard: Result<usize, Self::Error>) -> Self;
}

impl Granted for usize {
    type Error = Infallible;

    fn granted(heard: Result<usize, Infallible>) -> usize {
        match heard {
            Ok(permits) => permits,
            Err(never) => match never {},
        }
    }
}

impl Granted for Result<usize, WaitQueueFull> {
    type Error = WaitQueueFull;

    fn granted(heard: Result<usize, WaitQueueFull>) -> Self {
        heard
    }
}

/// A semaphore whose calls are made in turn by its own name and by that of the trait. Its words are `V`, and a request
/// hears a `G`.
#[derive(Drop)]
pub struct Permits<'s, S, H, V, G> {
    semaphore: &'s SharedSemaphore<S, u64, H>,
    doors: Doors,
    words: PhantomData<(V, G)>,
}

/// A future, or the releaser that it left.
#[derive(Drop)]
pub enum Held<'s, S: PermitState<Waker = u64>, H: Hand<u64>> {
    Acquire(Acquire<'s, S, u64, H>),
    Releaser(SemaphoreReleaser<&'s SharedSemaphore<S, u64, H>>),
}

// A call by the next way: of the semaphore itself, or of the trait.
macro_rules! by {
    ($form:ident, $call:ident($permits:expr)) => {
        match $form.doors.next() {
            Door::Own => $form.semaphore.$call($permits),
            Door::Handle | Door::Dynamic => Semaphore::$call($form.semaphore, $permits),
        }
    };
}

impl<'s, S, H, V, G> Form for Permits<'s, S, H, V, G>
where
    S: PermitState<Waker = u64>,
    H: Hand<u64>,
    V: Vocabulary<Ask = Amount, Call = PermitCall, Heard = PermitHeard<G>>,
    G: Granted<Error = S::Error>,
{
    type Words = V;

    type Held = Held<'s, S, H>;

    fn begin(&mut self, ask: Amount) -> Option<Self::Held> {
        Some(Held::Acquire(match ask {
            Amount::Exactly(permits) => by!(self, acquire(permits)),
            Amount::AllFrom(min) => by!(self, acquire_all(min)),
        }))
    }

    fn poll(&mut self, held: &mut Self::Held, cx: &Context<u64>) -> Answered<Self> {
        let Held::Acquire(future) = held else {
            return None;
        };
        if future.is_finished() {
            return None;
        }
        let granted = match future.poll(cx) {
            Poll::Ready(Ok(releaser)) => {
                let permits = releaser.permits();
                *held = Held::Releaser(releaser);
                Ok(permits)
            }
            Poll::Ready(Err(error)) => Err(error),
            Poll::Pending => return Some(Answer::Pending),
        };
        Some(Answer::Gives(PermitHeard::Granted(G::granted(granted))))
    }

    fn stays(held: &Self::Held) -> bool {
        matches!(held, Held::Releaser(_))
    }

    fn number(call: &PermitCall) -> Option<usize> {
        match call {
            PermitCall::Try(r, _) | PermitCall::Disarm(r) => Some(*r),
            PermitCall::Release(_) | PermitCall::Set(_) | PermitCall::Permits => None,
        }
    }

    fn call(&mut self, call: PermitCall, place: &mut Option<Self::Held>) -> Answered<Self> {
        Some(match call {
            PermitCall::Try(_, amount) => Answer::Gives(PermitHeard::Tried(self.try_at(
                amount, place,
            )?)),
            PermitCall::Disarm(_) => Answer::Gives(PermitHeard::Count(disarm_at(place)?)),
            PermitCall::Release(permits) => {
                by!(self, release(permits));
                Answer::Done
            }
            PermitCall::Set(permits) => {
                by!(self, set(permits));
                Answer::Done
            }
            PermitCall::Permits => Answer::Gives(PermitHeard::Count(self.semaphore.permits())),
        })
    }
}

impl<'s, S: PermitState<Waker = u64>, H: Hand<u64>, V, G> Permits<'s, S, H, V, G> {
    /// Returns this semaphore, called in these ways.
    pub fn new(semaphore: &'s SharedSemaphore<S, u64, H>, doors: Doors) -> Self {
        Permits {
            semaphore,
            doors,
            words: PhantomData,
        }
    }

    // Tries to take permits for a free number, and returns how many it took.
    fn try_at(
        &mut self,
        amount: Amount,
        place: &mut Option<Held<'s, S, H>>,
    ) -> Option<Option<usize>> {
        if place.is_some() {
            return None;
        }
        let taken = match amount {
            Amount::Exactly(permits) => by!(self, try_acquire(permits)),
            Amount::AllFrom(min) => by!(self, try_acquire_all(min)),
        };
        let Some(releaser) = taken else {
            return Some(None);
        };
        let permits = releaser.permits();
        *place = Some(Held::Releaser(releaser));
        Some(Some(permits))
    }
}

// Frees the number of a releaser, and returns how many permits it had.
fn disarm_at<S: PermitState<Waker = u64>, H: Hand<u64>>(
    place: &mut Option<Held<'_, S, H>>,
) -> Option<usize> {
    match place.take()? {
        Held::Releaser(releaser) => Some(releaser.disarm()),
        held => {
            *place = Some(held);
            None
        }
    }
}
