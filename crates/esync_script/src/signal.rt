//! The words of a signal.
use crate::capacity::Size;
use crate::numbers::{Numbered, numbered};
use crate::scripted::Scripted;
use esync_cells::signal::SignalState;
use esync_cells::signal::machine::{SignalCall, SignalHeard, Wait};
use esync_words::printing::print_option;
use esync_words::vocabulary::{Place, Vocabulary};
use esync_words::words::Words;
use std::io::{self, Write};
use std::marker::PhantomData;

/// The words of a signal of values.
pub struct SignalWords<C: Size> {
    capacities: PhantomData<C>,
}

impl<C: Size> Vocabulary for SignalWords<C> {
    type Ask = Wait;

    type Call = SignalCall<u64>;

    type Heard = SignalHeard<u64>;

    ghost use Rattle.esync_script.specs.Signal.{signal_asks, signal_calls, signal_text};

    ghost asks = { signal_asks };

    ghost calls = { signal_calls C.bits };

    ghost text = { signal_text };

    fn ask(name: &str, words: Words<'_>) -> Option<Wait> {
        match name {
            "wait" => words.nothing().map(|_| Wait {}),
            _ => None,
        }
    }

    fn call(name: &str, words: Words<'_>) -> Option<SignalCall<u64>> {
        match name {
            "signal" => Some(SignalCall::Signal(words.value(C::bits())?)),
            "reset" => words.nothing().map(|_| SignalCall::Reset),
            "try-take" => words.nothing().map(|_| SignalCall::TryTake),
            "signaled" => words.nothing().map(|_| SignalCall::Signaled),
            _ => None,
        }
    }

    fn print<W: Write>(heard: &SignalHeard<u64>, output: &mut W) -> io::Result<()> {
        match heard {
            SignalHeard::Waited(value) => write!(output, "Ready({value})"),
            SignalHeard::Taken(taken) => print_option(*taken, output),
            SignalHeard::Signaled(true) => write!(output, "true"),
            SignalHeard::Signaled(false) => write!(output, "false"),
        }
    }

    fn questions() -> &'static [&'static str] {
        &["signaled", "try-take"]
    }

    fn place(number: usize) -> Option<Place> {
        match number {
            0 => Some(Place::of("the waiter", "a value came")),
            _ => None,
        }
    }
}

/// A signal of a value.
pub type Signalled<C> = Numbered<SignalState<u64, u64>, C, 1>;

impl<C: Size> Scripted<SignalWords<C>> for Signalled<C> {
    type First = ();

    ghost use Rattle.esync_script.specs.Setting.{BeginsAs};
    ghost use Rattle.esync_script.specs.Signal.{signal_setting};

    ghost IsNew = { λ first m. BeginsAs C.requests (signal_setting C.bits) (Self.semantics.object m) (Self.semantics.registrations m) };

    fn begin(_first: ()) -> Self {
        numbered::<_, C, 1>(SignalState::new())
    }
}
