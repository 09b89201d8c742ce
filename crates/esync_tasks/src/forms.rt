//! The futures of the shared forms as `Future`s.
//!
//! If a poll may find no memory for a clone, the output is a `Result`: the future is then ready with the error.
ghost use Rattle.std.specs.Prelude.{◌≡◌};
ghost use Rattle.esync_tasks.specs.Answered.{answered};

mod cells;
mod channel;
mod guards;
mod permits;
mod pipe;
mod pubsub;
mod zerocopy;

use esync_base::waitqueue::Poll;
pub use permits::Permits;
use std::alloc::AllocError;

// Returns a poll that may find no memory as the poll of a future that is then ready with the error.
fn ready_or_refused<T>(answer: Result<Poll<T>, AllocError>) -> Poll<Result<T, AllocError>>
    ensures { result ≡ answered answer }
{
    match answer {
        Ok(Poll::Ready(value)) => Poll::Ready(Ok(value)),
        Ok(Poll::Pending) => Poll::Pending,
        Err(error) => Poll::Ready(Err(error)),
    }
}
