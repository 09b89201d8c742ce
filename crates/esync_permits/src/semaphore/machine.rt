//! The semaphores as machines that take commands.
ghost use Rattle.std.specs.Prelude.{◌≡◌};
ghost use Rattle.esync_permits.specs.PermitRules.{reach, releaser};

use crate::semaphore::Amount;
use esync_machine::primitive::{Answer, Reach};

pub mod fair;
pub mod greedy;

/// What stands at a number of a semaphore: a request, or its permits.
#[derive(Clone, Copy, Debug, PartialEq, Eq)]
pub enum PermitHeld<T> {
    /// A request for this amount, and the name by which the semaphore knows it while it waits.
    Waiting(Amount, T),
    /// The permits that were granted.
    Releaser(usize),
}

/// The calls of a semaphore that are no start, poll or end.
#[derive(Clone, Copy, Debug, PartialEq, Eq)]
pub enum PermitCall {
    /// Takes permits for a free number, if they are granted now.
    Try(usize, Amount),
    /// Frees the number of a releaser, and doesn't release its permits.
    Disarm(usize),
    /// Gives this number of permits back.
    Release(usize),
    /// Sets the number of permits that are there.
    Set(usize),
    /// Asks for the number of permits that are there.
    Permits,
}

impl PermitCall {
    /// Returns which number the call concerns.
    pub fn reach(&self) -> Reach
        ensures { result ≡ reach self.now }
    {
        match self {
            PermitCall::Try(r, _) => Reach::Number(*r),
            PermitCall::Disarm(r) => Reach::Number(*r),
            PermitCall::Release(_) | PermitCall::Set(_) | PermitCall::Permits => Reach::Nobody,
        }
    }
}

/// The answers of a semaphore.
#[derive(Clone, Copy, Debug, PartialEq, Eq)]
pub enum PermitHeard<G> {
    /// The answer to a request: the permits that it was granted, or why it gets none.
    Granted(G),
    /// The permits that a try took, or `None`.
    Tried(Option<usize>),
    /// A count of permits.
    Count(usize),
}

// The answer to a try at a free number. The number then holds the permits that were taken.
fn tried<T: Drop, G>(
    taken: Option<usize>,
    place: &mut Option<PermitHeld<T>>,
) -> Answer<PermitHeard<G>>
    ensures answer { result ≡ Answer.Gives (PermitHeard.Tried taken) }
    ensures place { place.new ≡ releaser taken }
{
    *place = match taken {
        Some(permits) => Some(PermitHeld::Releaser(permits)),
        None => None,
    };
    Answer::Gives(PermitHeard::Tried(taken))
}
