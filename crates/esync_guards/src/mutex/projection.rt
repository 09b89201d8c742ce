//! Parts of a value.
ghost use Rattle.std.specs.Prelude.{◌≡◌};
ghost use Rattle.std.specs.Borrow.{Lends, sem};

use std::marker::PhantomData;

/// A part of a value, which a guard can be narrowed to.
///
/// Reading and writing lend the same part, and writing the part leaves the rest of the value.
pub trait Projection<T, U> {
    /// The part of a value.
    ghost get: { T → U };

    /// The value with another part.
    ghost set: { T → U → T };

    /// Lends the part for reading.
    fn read<'a>(&'a self, value: &'a T) -> &'a U
        ensures { result.now ≡ get value.now };

    /// Lends the part for writing. The value is the first parameter, since the loan's end decides how the value is
    /// left.
    fn write<'a>(value: &'a mut T, projection: &'a Self) -> &'a mut U
        ensures* writes_back { sem 𝓛 (Lends T.row U.row value.entry result (set value.old)) }
        ensures part { result.now ≡ get value.old };

    /// The part read after a write is what was written.
    ghost get_set: { (v : T) (u : U) → get (set v u) ≡ u };

    /// A write of the part that is there changes nothing.
    ghost set_get: { (v : T) → set v (get v) ≡ v };

    /// The later of two writes counts.
    ghost set_set: { (v : T) (u w : U) → set (set v u) w ≡ set v w };
}

/// Puts another part into the value.
pub fn put_part<T, U: Drop, P: Projection<T, U>>(value: &mut T, projection: &P, part: U)
    ensures value { value.new ≡ P.set value.old part }
    ensures part { P.get value.new ≡ part }
{
    *P::write(value, projection) = part;
}

/// A part of a part: the second projection's part of the first projection's part.
#[derive(Drop)]
pub struct Then<P, Q, U> {
    /// The projection of the value to its part.
    pub first: P,
    /// The projection of that part to its own part.
    pub second: Q,
    between: PhantomData<U>,
}

impl<P, Q, U> Then<P, Q, U> {
    /// Returns the projection to the second projection's part of the first projection's part.
    pub fn new(first: P, second: Q) -> Self
        ensures first { result.first ≡ first }
        ensures second { result.second ≡ second }
    {
        Then {
            first,
            second,
            between: PhantomData,
        }
    }
}

impl<T, U, V, P: Projection<T, U>, Q: Projection<U, V>> Projection<T, V> for Then<P, Q, U> {
    ghost use Rattle.esync_guards.specs.ProjectionLaws.{then_get_set, then_set_get, then_set_set};

    ghost get = { λ v. Q.get (P.get v) };

    ghost set = { λ v u. P.set v (Q.set (P.get v) u) };

    fn read<'a>(&'a self, value: &'a T) -> &'a V {
        let between = self.first.read(value);
        self.second.read(between)
    }

    fn write<'a>(value: &'a mut T, projection: &'a Self) -> &'a mut V {
        let between = P::write(value, &projection.first);
        Q::write(between, &projection.second)
    }

    ghost get_set = { then_get_set P.get P.set Q.get Q.set P.get_set Q.get_set };

    ghost set_get = { then_set_get P.get P.set Q.get Q.set P.set_get Q.set_get };

    ghost set_set = { then_set_set P.get P.set Q.get Q.set P.get_set P.set_set Q.set_set };
}

/// The projection of a pair to its second value.
#[derive(Clone, Copy, Debug, PartialEq, Eq)]
pub struct Second {}

impl<T> Projection<(T, T), T> for Second {
    ghost use Rattle.std.specs.Prelude.{refl};

    ghost get = { λ v. v.1 };

    ghost set = { λ v u. (v.0, u) };

    fn read<'a>(&'a self, value: &'a (T, T)) -> &'a T {
        &value.1
    }

    fn write<'a>(value: &'a mut (T, T), _projection: &'a Self) -> &'a mut T {
        &mut value.1
    }

    ghost get_set = { λ v u. refl };

    ghost set_get = { λ v. refl };

    ghost set_set = { λ v u w. refl };
}
