//! The words of a zero-copy channel.
ghost use Rattle.std.specs.Prelude.{◌≡◌, ◌≤◌, OnOk, replicate};
ghost use Rattle.std.specs.Io.KnownBytes.{Appends};
ghost use Rattle.esync_script.specs.Zerocopy.{lent_text};

use crate::capacity::{MOST, Size};
use crate::numbers::{Numbered, numbered};
use crate::scripted::Scripted;
use arrayvec::ArrayVec;
use esync_words::vocabulary::{Place, Vocabulary};
use esync_words::words::Words;
use esync_zerocopy::zerocopy_channel::machine::{Lent, ZeroCall, ZeroHeard};
use esync_zerocopy::zerocopy_channel::{RowState, Side, SlotLent};
use std::io::{self, Write};
use std::marker::PhantomData;

// Prints the number of a slot, and the value that a receiver reads there.
fn print_lent<W: Write>(lent: &Lent<u64>, output: &mut W) -> io::Result<()>
    ensures { OnOk result (Appends (W.contents output.old) (W.contents output.new) (lent_text lent.now)) }
{
    match lent {
        Lent::Spare(number) => write!(output, "({number})"),
        Lent::Held(number, value) => write!(output, "({number},{value})"),
    }
}

/// The words of a zero-copy channel.
pub struct ZeroWords<C: Size> {
    capacities: PhantomData<C>,
}

impl<C: Size> Vocabulary for ZeroWords<C> {
    type Ask = Side;

    type Call = ZeroCall<u64>;

    type Heard = ZeroHeard<u64>;

    ghost use Rattle.esync_script.specs.Zerocopy.{zero_asks, zero_calls, zero_text};

    ghost asks = { zero_asks };

    ghost calls = { zero_calls C.bits };

    ghost text = { zero_text };

    fn ask(name: &str, words: Words<'_>) -> Option<Side> {
        match name {
            "send" => words.nothing().map(|_| Side::Sender),
            "receive" => words.nothing().map(|_| Side::Receiver),
            _ => None,
        }
    }

    fn call(name: &str, words: Words<'_>) -> Option<ZeroCall<u64>> {
        match name {
            "try-send" => words.nothing().map(|_| ZeroCall::Try(Side::Sender)),
            "try-receive" => words.nothing().map(|_| ZeroCall::Try(Side::Receiver)),
            "write" => Some(ZeroCall::Write(words.value(C::bits())?)),
            "done-send" => words.nothing().map(|_| ZeroCall::Done(Side::Sender)),
            "done-receive" => words.nothing().map(|_| ZeroCall::Done(Side::Receiver)),
            "end-send" => words.nothing().map(|_| ZeroCall::EndLoan(Side::Sender)),
            "end-receive" => words.nothing().map(|_| ZeroCall::EndLoan(Side::Receiver)),
            "clear-send" => words.nothing().map(|_| ZeroCall::Clear(Side::Sender)),
            "clear-receive" => words.nothing().map(|_| ZeroCall::Clear(Side::Receiver)),
            "len" => words.nothing().map(|_| ZeroCall::Len),
            "free" => words.nothing().map(|_| ZeroCall::FreeCapacity),
            _ => None,
        }
    }

    fn print<W: Write>(heard: &ZeroHeard<u64>, output: &mut W) -> io::Result<()> {
        match heard {
            ZeroHeard::Lends(lent) => {
                write!(output, "Ready")?;
                print_lent(lent, output)
            }
            ZeroHeard::Tried(Some(lent)) => {
                write!(output, "Some")?;
                print_lent(lent, output)
            }
            ZeroHeard::Tried(None) => write!(output, "None"),
            ZeroHeard::Cleared(Ok(())) => write!(output, "Ok"),
            ZeroHeard::Cleared(Err(SlotLent)) => write!(output, "Err(SlotLent)"),
            ZeroHeard::Count(count) => write!(output, "{count}"),
        }
    }

    fn questions() -> &'static [&'static str] {
        &["len", "free"]
    }

    fn place(number: usize) -> Option<Place> {
        match number {
            0 => Some(Place::of("the receivers", "a slot is held")),
            1 => Some(Place::of("the senders", "a slot is spare")),
            _ => None,
        }
    }
}

// Returns so many values 0, in a row of `N` places.
fn zeros<const N: usize>(count: usize) -> ArrayVec<u64, N>
    requires { count ≤ N }
    ensures { result.items ≡ replicate count 0 }
{
    let mut values = ArrayVec::from([0; N]);
    values.truncate(count);
    values
}

/// A zero-copy channel whose slots stand in the state itself.
pub type Slotted<C> = Numbered<RowState<ArrayVec<u64, MOST>, u64>, C, 1>;

impl<C: Size> Scripted<ZeroWords<C>> for Slotted<C> {
    /// The number of slots.
    type First = usize;

    ghost use Rattle.std.specs.Prelude.{◌<◌, ◌≤◌};
    ghost use Rattle.esync_script.specs.Setting.{BeginsAs};
    ghost use Rattle.esync_script.specs.Zerocopy.{zero_setting};

    ghost CanBegin = { λ slots. (0 < slots) × (slots ≤ 4096) };

    ghost IsNew = { λ slots m. BeginsAs C.requests (zero_setting C.bits slots) (Self.semantics.object m) (Self.semantics.registrations m) };

    fn begin(slots: usize) -> Self {
        numbered::<_, C, 1>(RowState::new(zeros(slots)))
    }
}
