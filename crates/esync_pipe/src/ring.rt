//! The bytes of a pipe whose capacity stands in its type.
ghost use Rattle.std.specs.Prelude.{◌≡◌, []};

use esync_base::kept::Kept;
use esync_base::ring_buffer::ByteRing;
use esync_base::store::{ByteStore, FixedBytes};
use std::alloc::AllocError;
use std::marker::Model;

/// At most `N` bytes, oldest first: a [`ByteRing`] as a type that names no type parameter. So the checker knows the size
/// of a pipe over it wherever the pipe is lent as a `dyn DynamicPipe`.
#[derive(Debug, Drop)]
pub struct Ring<const N: usize> {
    bytes: ByteRing<N>,
}

impl<const N: usize> Model for Ring<N> {
    ghost use Rattle.std.specs.Prelude.{ℕ};
    ghost use Rattle.std.specs.Coded.{coded_ℕ};
    ghost use Rattle.esync_base.specs.Ring.{Ringed, ringed_code};

    ghost Value = { Ringed ℕ };

    ghost coded = { ringed_code coded_ℕ };

    ghost view = { λ a. a.bytes };
}

impl<const N: usize> ByteStore for Ring<N> {
    ghost capacity = { N };

    ghost ring = { λ r. r };

    fn len(&self) -> usize {
        self.bytes.len()
    }

    fn capacity(&self) -> usize {
        N
    }

    fn write(&mut self, from: &[u8]) -> usize {
        self.bytes.write(from)
    }

    fn read(&mut self, to: &mut [u8]) -> usize {
        self.bytes.read(to)
    }

    fn filled(&self) -> &[u8] {
        self.bytes.filled()
    }

    fn consume(&mut self, n: usize) {
        self.bytes.consume(n);
    }

    fn clear(&mut self) {
        self.bytes.clear();
    }
}

impl<const N: usize> FixedBytes for Ring<N> {
    fn new() -> Self {
        Ring {
            bytes: ByteRing::new(),
        }
    }

    fn places() -> usize {
        N
    }
}

impl<const N: usize> Kept for Ring<N> {
    fn kept(&self) -> Result<Self, AllocError> {
        Ok(Ring {
            bytes: self.bytes.kept()?,
        })
    }
}
