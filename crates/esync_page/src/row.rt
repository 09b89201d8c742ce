//! A row of bytes that is written from its front on.
ghost use Rattle.std.specs.Prelude.{◌≡◌, ◌≤◌, ◌-◌, ◌++◌, min, length, take, drop, Some, Ok};
ghost use Rattle.std.specs.Io.{WritesAtMost};
ghost use Rattle.std.specs.Io.KnownBytes.{WriteAppends, Keeps};

use esync_check::room::Room;
use std::io::{self, Write};

/// The number of bytes of a row.
pub const ROOM: usize = 1 << 20;

/// A row of bytes, of which the first `len` are written. A write stops where the row is full.
#[repr(C)]
#[derive(Drop)]
pub struct Row {
    pub len: usize,
    pub bytes: [u8; ROOM],

    ghost fits: { len ≤ length bytes },
}

// Copies as many bytes as fit in the target, and returns how many.
fn copy_prefix(from: &[u8], to: &mut [u8]) -> usize
    ensures count { result ≡ min (length from.now) (length to.old) }
    ensures copied { to.new ≡ take result from.now ++ drop result to.old }
{
    let n = from.len().min(to.len());
    to[..n].copy_from_slice(&from[..n]);
    n
}

impl Write for Row {
    ghost use Rattle.std.specs.Prelude.{Some, take};

    ghost contents = { λ row. Some (take row.len row.bytes) };

    fn write(&mut self, buf: &[u8]) -> io::Result<usize>
        ensures bound { WritesAtMost result buf.now }
        ensures bytes { WriteAppends (Some (take self.old.len self.old.bytes)) (Some (take self.new.len self.new.bytes)) result buf.now }
        ensures count { result ≡ Ok (min (length buf.now) (length self.old.bytes - self.old.len)) }
    {
        let n = copy_prefix(buf, &mut self.bytes[self.len..]);
        self.len += n;
        Ok(n)
    }

    fn flush(&mut self) -> io::Result<()>
        ensures bytes { Keeps (Some (take self.old.len self.old.bytes)) (Some (take self.new.len self.new.bytes)) }
        ensures unchanged { self.new ≡ self.old }
    {
        Ok(())
    }
}

impl Room for Row {
    fn clear(&mut self) {
        self.len = 0;
    }

    fn written(&self) -> &[u8] {
        &self.bytes[..self.len]
    }
}
