// The functions that make one future of two.
ghost use Rattle.std.specs.Prelude.{◌≡◌};

use crate::future::{Future, Half, Join, Select};

/// Returns a future that gives the outputs of both futures.
pub fn join<W, A: Future<W>, B: Future<W>>(first: A, second: B) -> Join<A, B, A::Output, B::Output>
    ensures { result ≡ (Half.Waits first, Half.Waits second) }
{
    Join {
        first: Half::Waits(first),
        second: Half::Waits(second),
    }
}

/// Returns a future that gives the output of whichever of two futures is ready first.
pub fn select<A, B>(first: A, second: B) -> Select<A, B>
    ensures { result ≡ (first, second) }
{
    Select { first, second }
}
