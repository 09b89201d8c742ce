//! The words of a pipe.
ghost use Rattle.std.specs.Prelude.{◌≡◌, ◌≤◌, OnOk, min};
ghost use Rattle.std.specs.Io.KnownBytes.{Appends};
ghost use Rattle.esync_words.specs.Words.{row};
ghost use Rattle.esync_script.specs.Pipe.{a_count, ready_text, tried_text};

use crate::capacity::{FEW, MOST, Size};
use crate::scripted::Scripted;
use esync_base::extent::Chosen;
use esync_base::limited::Limit;
use esync_base::ring_buffer::LimitedRing;
use esync_machine::requests::Requests;
use esync_pipe::bytes::Bytes;
use esync_pipe::pipe::machine::{PipeAsk, PipeCall, PipeHeard, PipeRowsOver};
use esync_pipe::pipe::{PipeOver, TryReadError, TryWriteError};
use esync_words::printing::print_bytes;
use esync_words::vocabulary::{Place, Vocabulary};
use esync_words::words::Words;
use std::io::{self, Write};
use std::marker::PhantomData;

// The greatest number of bytes of a command: as many as the language has, and no more than a row has places.
fn most<C: Size, const ROW: usize>() -> usize
    ensures value { result ≡ min C.bytes ROW }
    ensures few { result ≤ 4096 }
{
    let bytes = C::bytes();
    if bytes < ROW { bytes } else { ROW }
}

// Returns the bytes that the last word writes, at most so many.
fn read_bytes<const ROW: usize>(words: Words<'_>, most: usize) -> Option<Bytes<ROW>>
    requires few { most ≤ 4096 }
    requires row { most ≤ ROW }
    ensures { result ≡ row most words.entry }
{
    Some(Bytes::from_slice(words.bytes(most)?.as_slice()))
}

// Returns how many bytes are asked for, at most so many.
fn read_count(words: Words<'_>, most: usize) -> Option<usize>
    requires { most ≤ 4096 }
    ensures { result ≡ a_count most words.entry }
{
    let count = words.number()? as usize;
    (count <= most).then_some(count)
}

// Prints the bytes that a request hears.
fn print_ready<W: Write, const ROW: usize>(bytes: &Bytes<ROW>, output: &mut W) -> io::Result<()>
    ensures { OnOk result (Appends (W.contents output.old) (W.contents output.new) (ready_text bytes.now)) }
{
    write!(output, "Ready(")?;
    print_bytes(bytes.as_slice(), output)?;
    write!(output, ")")
}

// Prints the bytes that a call answers at once, or that there are none.
fn print_tried<W: Write, const ROW: usize>(
    tried: &Result<Bytes<ROW>, TryReadError>,
    output: &mut W,
) -> io::Result<()>
    ensures { OnOk result (Appends (W.contents output.old) (W.contents output.new) (tried_text tried.now)) }
{
    match tried {
        Ok(bytes) => {
            write!(output, "Ok(")?;
            print_bytes(bytes.as_slice(), output)?;
            write!(output, ")")
        }
        Err(TryReadError::Empty) => write!(output, "Err(Empty)"),
    }
}

/// The words of a pipe of bytes. A command has at most as many bytes as `C` says, and as a row has places.
pub struct PipeWords<C: Size, const ROW: usize> {
    capacities: PhantomData<C>,
}

impl<C: Size, const ROW: usize> Vocabulary for PipeWords<C, ROW> {
    type Ask = PipeAsk<Bytes<ROW>>;

    type Call = PipeCall<Bytes<ROW>>;

    type Heard = PipeHeard<Bytes<ROW>>;

    ghost use Rattle.std.specs.Prelude.{min};
    ghost use Rattle.esync_script.specs.Pipe.{pipe_asks, pipe_calls, pipe_text};

    ghost asks = { pipe_asks (min C.bytes ROW) };

    ghost calls = { pipe_calls (min C.bytes ROW) };

    ghost text = { pipe_text };

    fn ask(name: &str, words: Words<'_>) -> Option<PipeAsk<Bytes<ROW>>> {
        match name {
            "write" => Some(PipeAsk::Write(read_bytes(words, most::<C, ROW>())?)),
            "write-all" => Some(PipeAsk::WriteAll(read_bytes(words, most::<C, ROW>())?)),
            "read" => Some(PipeAsk::Read(read_count(words, most::<C, ROW>())?)),
            "fill" => {
                words.nothing()?;
                Some(PipeAsk::Fill)
            }
            _ => None,
        }
    }

    fn call(name: &str, words: Words<'_>) -> Option<PipeCall<Bytes<ROW>>> {
        match name {
            "try-write" => Some(PipeCall::TryWrite(read_bytes(words, most::<C, ROW>())?)),
            "try-read" => Some(PipeCall::TryRead(read_count(words, most::<C, ROW>())?)),
            "try-fill" => {
                words.nothing()?;
                Some(PipeCall::TryFill)
            }
            "consume" => Some(PipeCall::Consume(words.number()? as usize)),
            "clear" => {
                words.nothing()?;
                Some(PipeCall::Clear)
            }
            "len" => {
                words.nothing()?;
                Some(PipeCall::Len)
            }
            "free" => {
                words.nothing()?;
                Some(PipeCall::FreeCapacity)
            }
            _ => None,
        }
    }

    fn print<W: Write>(heard: &PipeHeard<Bytes<ROW>>, output: &mut W) -> io::Result<()> {
        match heard {
            PipeHeard::Wrote(count) => write!(output, "Ready({count})"),
            PipeHeard::WroteAll => write!(output, "Ready"),
            PipeHeard::HasRead(bytes) => print_ready(bytes, output),
            PipeHeard::Filled(bytes) => print_ready(bytes, output),
            PipeHeard::TryWrote(Ok(count)) => write!(output, "Ok({count})"),
            PipeHeard::TryWrote(Err(TryWriteError::Full)) => write!(output, "Err(Full)"),
            PipeHeard::HasTriedRead(read) => print_tried(read, output),
            PipeHeard::TryFilled(filled) => print_tried(filled, output),
            PipeHeard::Number(number) => write!(output, "{number}"),
        }
    }

    fn questions() -> &'static [&'static str] {
        &["len", "free", "try-read 16"]
    }

    fn place(number: usize) -> Option<Place> {
        match number {
            0 => Some(Place::of("the readers", "a write came")),
            1 => Some(Place::of("the writers", "there may be room")),
            _ => None,
        }
    }
}

/// A pipe of at most `B.limit` bytes. In each language it has 16 requests, since each has a row of bytes.
pub type Ring<B> = Requests<PipeRowsOver<LimitedRing<B, MOST>, u64, MOST>, FEW, 2>;

impl<C: Size, B: Limit> Scripted<PipeWords<C, MOST>> for Ring<B> {
    /// How many bytes there is room for.
    type First = usize;

    ghost use Rattle.std.specs.Prelude.{◌≡◌, ◌≤◌, min};
    ghost use Rattle.esync_script.specs.Pipe.{pipe_setting};
    ghost use Rattle.esync_script.specs.Setting.{BeginsAs};

    ghost CanBegin = { λ places. (places ≡ B.limit) × (places ≤ 4096) };

    ghost IsNew = { λ places m. BeginsAs 16 (pipe_setting (min C.bytes 4096) B.limit) (Self.semantics.object m) (Self.semantics.registrations m) };

    fn begin(places: usize) -> Self {
        let ring = LimitedRing::over(Chosen::new(places));
        Requests::new(PipeRowsOver::from_state(PipeOver::over(ring)))
    }
}
