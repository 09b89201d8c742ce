//! How many bits a value has.
ghost use Rattle.std.specs.Prelude.{◌≡◌, ◌+◌, ◌%◌, ◌^◌};
ghost use Rattle.esync_words.specs.Words.{below};

use std::marker::Model;

/// How many bits a value has: 32 or 64.
#[derive(Clone, Copy, Debug)]
pub struct Bits {
    is_long: bool,
}

impl Model for Bits {
    ghost use Rattle.std.specs.Prelude.{ℕ, ◌==◌};
    ghost use Rattle.std.specs.Coded.{coded_ℕ};
    ghost use Rattle.esync_words.specs.Bits.{bits};

    ghost Value = { ℕ };

    ghost coded = { coded_ℕ };

    ghost view = { λ a. bits a.is_long };

    ghost inverse = { λ n. record { is_long = n == 64 } };
}

impl Bits {
    /// Returns 32.
    pub fn short() -> Self
        ensures { result ≡ 32 }
    {
        Bits { is_long: false }
    }

    /// Returns 64.
    pub fn long() -> Self
        ensures { result ≡ 64 }
    {
        Bits { is_long: true }
    }

    /// Returns the number as a value of so many bits, if it is one.
    pub fn value(self, number: u64) -> Option<u64>
        ensures { result ≡ below (2 ^ self) number }
    {
        if self.is_long {
            return Some(number);
        }
        u32::try_from(number).ok().map(u64::from)
    }

    /// Returns the sum of two values, modulo 2 to so many bits.
    pub fn sum(self, one: u64, other: u64) -> u64
        ensures { result ≡ (one + other) % 2 ^ self }
    {
        let sum = one.wrapping_add(other);
        if self.is_long {
            sum
        } else {
            sum % 4_294_967_296
        }
    }
}
