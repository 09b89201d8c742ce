//! The bytes of a command or of an answer: few, and without memory of their own.
ghost use Rattle.std.specs.Prelude.{◌≡◌, ◌≤◌, length, take};

use std::alloc::AllocError;
use std::marker::Model;

/// At most `L` bytes, in order.
#[derive(Debug, PartialEq, Eq)]
pub struct Bytes<const L: usize> {
    row: [u8; L],
    len: usize,
}

impl<const L: usize> Clone for Bytes<L> {
    ghost use Rattle.std.specs.Prelude.{◌≡◌};

    ghost is_clone = { λ s r. r ≡ s };

    ghost is_infallible = { λ _. Unit {0} };

    fn clone(&self) -> Result<Self, AllocError> {
        Ok(*self)
    }
}

impl<const L: usize> Copy for Bytes<L> {}

impl<const L: usize> Model for Bytes<L> {
    ghost use Rattle.std.specs.Prelude.{ℕ, List, take, length};
    ghost use Rattle.std.specs.Coded.{coded_list, coded_ℕ};
    ghost use Rattle.esync_pipe.specs.Padded.{padded, IsPadded};

    ghost Value = { List ℕ };

    ghost coded = { coded_list coded_ℕ };

    ghost view = { λ a. take a.len a.row };

    ghost invariant = { λ a. IsPadded L a.row a.len };

    ghost inverse = { λ bytes. record { row = padded L bytes; len = length bytes } };
}

impl<const L: usize> Bytes<L> {
    /// How many bytes there is room for.
    pub const CAPACITY: usize = L;

    /// Returns the bytes of a slice, or the first `L` if it has more.
    pub fn from_slice(bytes: &[u8]) -> Self
        ensures { result ≡ take L bytes.now }
    {
        let len = if bytes.len() < L { bytes.len() } else { L };
        let mut row = [0; L];
        row[..len].copy_from_slice(&bytes[..len]);
        Bytes { row, len }
    }

    /// Returns the bytes as a slice.
    pub fn as_slice(&self) -> &[u8]
        ensures value { result.now ≡ self.now }
        ensures within { length self.now ≤ L }
    {
        &self.row[..self.len]
    }
}
