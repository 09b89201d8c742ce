//! States of which a copy can be kept.
ghost use Rattle.std.specs.Prelude.{◌≡◌, IfOk};

use std::alloc::AllocError;

/// A state of which a copy can be kept.
pub trait Kept: Drop {
    /// Returns a copy that equals this state. An error means that there was no memory for it.
    fn kept(&self) -> Result<Self, AllocError>
        ensures { IfOk result (λ copy. copy ≡ self.now) };
}
