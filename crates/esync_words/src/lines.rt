//! The lines of a script.
ghost use Rattle.std.specs.Prelude.{◌≡◌, ◌≤◌, ◌<◌, ◌+◌, ◌-◌, ◌^◌, min, [], ◌∷◌, length, IfOk, IfErr, IfSome, IsTrue, false, MatchOption, MatchResult};
ghost use Rattle.std.specs.Str.{IsUtf8};
ghost use Rattle.std.specs.Io.KnownBytes.{Keeps, Consumes, IsAtEnd};
ghost use Rattle.esync_words.specs.Lines.{Source, IsRead};

use crate::fault::Fault;
use arrayvec::ArrayVec;
use std::alloc::Global;
use std::io::{self, BufRead, BufReader, ErrorKind, Read, Write};
use std::marker::{Model, PhantomData};

/// The greatest number of bytes of a line in any source, without its line feed.
pub const LONGEST: usize = 16_640;

/// The greatest number of bytes of a line in `syncrun`'s language, without its line feed.
pub const SHORT: usize = 256;

// The greatest number of bytes that are read of a line.
const ROOM: usize = 16_641;

/// A source of a script's bytes, one after another, which says how long a line of it may be.
pub trait ByteSource: Drop {
    ghost use Rattle.std.specs.Prelude.{ℕ, List, Option, ◌≤◌};
    ghost use Rattle.esync_words.specs.declared.lines.TheConstants.{LONGEST};

    /// The bytes that are left, if they are known.
    ghost remaining: { Self → Option (List ℕ) };

    /// The greatest number of bytes of a line, without its line feed.
    ghost longest: { ℕ };

    /// A law: no source has longer lines than `LONGEST`.
    ghost a_line_has_room: { longest ≤ LONGEST };

    /// Returns the greatest number of bytes of a line, without its line feed.
    fn longest(&self) -> usize
        ensures { result ≡ longest };

    /// Takes the next byte. Returns `None` at the end.
    ///
    /// # Errors
    ///
    /// Returns the error if a read failed.
    fn next_byte(&mut self) -> io::Result<Option<u8>>
        ensures { IfOk result (λ byte. MatchOption byte (Consumes (remaining self.old) (remaining self.new) [] × IsAtEnd (remaining self.new)) (λ b. Consumes (remaining self.old) (remaining self.new) (b ∷ []))) };

    /// Returns whether no read of the next line waits for input.
    fn has_line(&self) -> bool;
}

/// The bytes of a reader, read in pieces. A line that stands whole in the buffer is read without waiting.
impl<R: Read + Drop> ByteSource for BufReader<R> {
    ghost use Rattle.std.specs.Io.Buffered.{reader_remaining};
    ghost use Rattle.std.proofs.Common.{arith};
    ghost use Rattle.esync_words.specs.declared.lines.TheConstants.{LONGEST};

    ghost remaining = { reader_remaining R.remaining };

    ghost longest = { LONGEST };

    ghost a_line_has_room = { omega arith };

    fn longest(&self) -> usize {
        LONGEST
    }

    fn next_byte(&mut self) -> io::Result<Option<u8>> {
        read_byte(self)
    }

    fn has_line(&self) -> bool {
        self.buffer().contains(&b'\n')
    }
}

/// The bytes of a text in memory. No read waits, and none takes memory.
impl ByteSource for &[u8] {
    ghost use Rattle.std.specs.Prelude.{Some};
    ghost use Rattle.std.proofs.Common.{arith};
    ghost use Rattle.esync_words.specs.declared.lines.TheConstants.{LONGEST};

    ghost remaining = { λ bytes. Some bytes.now };

    ghost longest = { LONGEST };

    ghost a_line_has_room = { omega arith };

    fn longest(&self) -> usize {
        LONGEST
    }

    fn next_byte(&mut self) -> io::Result<Option<u8>> {
        let bytes: &[u8] = *self;
        if bytes.is_empty() {
            return Ok(None);
        }
        *self = &bytes[1..];
        Ok(Some(bytes[0]))
    }

    fn has_line(&self) -> bool {
        true
    }
}

/// The greatest number of bytes of a line in a language of scripts.
pub trait LineLimit {
    ghost use Rattle.std.specs.Prelude.{ℕ, ◌≤◌};
    ghost use Rattle.esync_words.specs.declared.lines.TheConstants.{LONGEST};

    /// The number, without the line feed.
    ghost longest: { ℕ };

    /// A law: no language has longer lines than `LONGEST`.
    ghost a_line_has_room: { longest ≤ LONGEST };

    /// Returns the number, without the line feed.
    fn longest() -> usize
        ensures { result ≡ longest };
}

/// A source whose lines are as long as the language `T` has them.
#[derive(Drop)]
pub struct Bounded<S: ByteSource, T: LineLimit> {
    source: S,
    limit: PhantomData<T>,
}

impl<S: ByteSource, T: LineLimit> Model for Bounded<S, T> {
    ghost Value = { S };

    ghost view = { λ a. a.source };
}

impl<S: ByteSource, T: LineLimit> Bounded<S, T> {
    /// Returns the source with lines of this length.
    pub fn of(source: S) -> Self
        ensures { result ≡ source }
    {
        Bounded {
            source,
            limit: PhantomData,
        }
    }
}

impl<S: ByteSource, T: LineLimit> ByteSource for Bounded<S, T> {
    ghost remaining = { λ s. S.remaining s };

    ghost longest = { T.longest };

    ghost a_line_has_room = { T.a_line_has_room };

    fn longest(&self) -> usize {
        T::longest()
    }

    fn next_byte(&mut self) -> io::Result<Option<u8>> {
        self.source.next_byte()
    }

    fn has_line(&self) -> bool {
        self.source.has_line()
    }
}

/// The lines of a script, read one at a time into memory of a fixed size.
#[derive(Drop)]
pub struct Lines<R: ByteSource> {
    input: R,
    line: ArrayVec<u8, ROOM>,
    number: u64,
    ended: bool,
}

impl<R: ByteSource> Model for Lines<R> {
    ghost use Rattle.std.specs.Prelude.{◌≡◌, true};
    ghost use Rattle.std.specs.Io.KnownBytes.{IsAtEnd};
    ghost use Rattle.esync_words.specs.Lines.{Source};

    ghost Value = { Source };

    ghost view = { λ a. record { number = a.number; line = a.line.items; left = R.remaining a.input; ended = a.ended } };

    ghost invariant = { λ a. a.ended ≡ true → IsAtEnd (R.remaining a.input) };
}

impl<R: Read + Drop, T: LineLimit> Lines<Bounded<BufReader<R>, T>> {
    /// Returns the lines of a reader, none of which is read yet. Takes all memory that they need.
    ///
    /// # Errors
    ///
    /// Returns `OutOfMemory` if there is no memory for a line.
    pub fn buffered(alloc: Global, input: R) -> Result<Self, Fault>
        ensures ok { IfOk result (λ lines. lines ≡ record { number = 0; line = []; left = R.remaining input; ended = false }) }
        ensures err { IfErr result (λ fault. fault ≡ Fault.OutOfMemory) }
    {
        let input = BufReader::new(alloc, input).map_err(|_| Fault::OutOfMemory)?;
        Ok(Lines::new(Bounded::of(input)))
    }
}

impl<R: ByteSource> Lines<R> {
    /// Returns the lines of a source, none of which is read yet. No memory is taken, now or later.
    pub fn new(input: R) -> Self
        ensures { result ≡ record { number = 0; line = []; left = R.remaining input; ended = false } }
    {
        Lines {
            input,
            line: ArrayVec::new(),
            number: 0,
            ended: false,
        }
    }

    /// Reads the next line, without its line feed, and returns whether there was one. Flushes the output before a read
    /// that may wait for input.
    ///
    /// # Errors
    ///
    /// Returns `InputOutput` if the read or the flush failed.
    pub fn read<W: Write>(&mut self, output: &mut W) -> Result<bool, Fault>
        ensures output { Keeps (W.contents output.old) (W.contents output.new) }
        ensures number { self.new.number ≡ min (self.old.number + 1) (2 ^ 64 - 1) }
        ensures line { IfOk result (λ there. IfSome self.old.left (λ text. IsRead R.longest text there self.new)) }
        ensures err { IfErr result (λ fault. fault ≡ Fault.InputOutput) }
    {
        self.number = self.number.saturating_add(1);
        self.line.clear();
        if self.ended {
            return Ok(false);
        }
        if !self.input.has_line() {
            output.flush()?;
        }
        Ok(self.read_line()?)
    }

    // Reads up to the line feed, or as much of a line as shows that it is too long.
    fn read_line(&mut self) -> io::Result<bool>
        requires line { self.old.line ≡ [] }
        requires more { self.old.ended ≡ false }
        ensures number { self.new.number ≡ self.old.number }
        ensures line { IfOk result (λ there. IfSome self.old.left (λ text. IsRead R.longest text there self.new)) }
    {
        while self.line.len() <= self.input.longest() {
            match self.input.next_byte()? {
                Some(b'\n') => return Ok(true),
                Some(byte) => self.line.push(byte),
                None => {
                    self.ended = true;
                    return Ok(!self.line.is_empty());
                }
            }
        }
        Ok(true)
    }

    /// Returns the number of the line that was read last. Numbers stop at the greatest.
    pub fn number(&self) -> u64
        ensures { result ≡ self.now.number }
    {
        self.number
    }

    /// Returns the line that was read last, which is a text of at most as many bytes as the source's lines have.
    ///
    /// # Errors
    ///
    /// Returns `NotACommand` if the line is longer, or no text.
    pub fn line(&self) -> Result<&str, Fault>
        ensures { MatchResult result (λ line. (line.now ≡ self.now.line) × IsUtf8 line.now × (length line.now ≤ R.longest)) (λ fault. (fault ≡ Fault.NotACommand self.now.number) × (IsUtf8 self.now.line → R.longest < length self.now.line)) }
    {
        match str::from_utf8(self.line.as_slice()) {
            Ok(line) if line.len() <= self.input.longest() => Ok(line),
            _ => Err(self.not_a_command()),
        }
    }

    /// Returns the fault that the line that was read last is no command.
    pub fn not_a_command(&self) -> Fault
        ensures { result ≡ Fault.NotACommand self.now.number }
    {
        Fault::NotACommand(self.number)
    }
}

// Reads the next byte. Returns `None` at the end.
fn read_byte<R: Read>(input: &mut BufReader<R>) -> io::Result<Option<u8>>
    ensures { IfOk result (λ byte. MatchOption byte (Consumes (⟦<BufReader<R> as Read>⟧.remaining input.old) (⟦<BufReader<R> as Read>⟧.remaining input.new) [] × IsAtEnd (⟦<BufReader<R> as Read>⟧.remaining input.new)) (λ b. Consumes (⟦<BufReader<R> as Read>⟧.remaining input.old) (⟦<BufReader<R> as Read>⟧.remaining input.new) (b ∷ []))) }
{
    let mut one = [0];
    for _ in 0..u64::MAX {
        match input.read(&mut one) {
            Ok(0) => return Ok(None),
            Ok(_) => return Ok(Some(one[0])),
            Err(error) => {
                if error.kind() != ErrorKind::Interrupted {
                    return Err(error);
                }
            }
        }
    }
    Err(io::Error::from(ErrorKind::Interrupted))
}
