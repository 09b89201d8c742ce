//! A test of a watch's value, and a change of it, that do nothing.
use esync_cells::watch::{Change, Judge};

/// Lets no value pass, and changes none.
#[derive(Clone, Copy, PartialEq, Eq)]
pub struct Never {}

impl<T> Judge<T> for Never {
    ghost use Rattle.std.specs.Prelude.{false};

    ghost passes = { λ _ _. false };

    fn holds(&self, _value: &T) -> bool {
        false
    }
}

impl<T> Change<T> for Never {
    ghost use Rattle.std.specs.Prelude.{false, refl};

    ghost changed = { λ _ value. value };

    ghost tells = { λ _ _. false };

    fn apply(&self, _value: &mut Option<T>) -> bool {
        false
    }

    ghost a_change_tells = { λ _ _ _. refl };
}
