//! Rooms that a text is written into, and read back from.
ghost use Rattle.std.specs.Prelude.{◌≡◌, Some, []};

use std::io::Write;

/// A room for a text, which is written from its front on. A room of a fixed size refuses what doesn't fit.
pub trait Room: Write {
    /// Forgets the text.
    fn clear(&mut self)
        ensures { Self.contents self.new ≡ Some [] };

    /// Returns the text.
    fn written(&self) -> &[u8]
        ensures { Self.contents self.now ≡ Some result.now };
}

/// A room that takes memory for what is written.
impl Room for Vec<u8> {
    fn clear(&mut self) {
        Vec::clear(self);
    }

    fn written(&self) -> &[u8] {
        self.as_slice()
    }
}
