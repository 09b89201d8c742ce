//! The first recorded reply that differs from the object's.
ghost use Rattle.std.specs.Prelude.{IfSome};
ghost use Rattle.esync_check.specs.Recorded.{DiffersAt};

use crate::recording::split_line;

/// A recorded reply that differs from the object's.
#[derive(Clone, Copy)]
pub struct Difference<'a> {
    /// The number of the reply's line in the recorded run.
    pub line: u64,
    /// The reply that was recorded.
    pub recorded: &'a [u8],
    /// The reply that the object gives.
    pub given: &'a [u8],
}

/// Returns the first recorded reply that differs from the given one, where each reply has a line of its own. Lines
/// behind the end of one text are not compared.
pub fn first_difference<'a>(recorded: &'a [u8], given: &'a [u8]) -> Option<Difference<'a>>
    ensures { IfSome result (λ d. DiffersAt recorded.now given.now d.line d.recorded.now d.given.now) }
{
    let mut line: u64 = 2;
    let mut others = recorded;
    let mut owns = given;
    while !others.is_empty() && !owns.is_empty() {
        let (other, others_rest) = split_line(others);
        let (own, owns_rest) = split_line(owns);
        if other != own {
            return Some(Difference {
                line,
                recorded: other,
                given: own,
            });
        }
        line = line.saturating_add(1);
        others = others_rest;
        owns = owns_rest;
    }
    None
}
