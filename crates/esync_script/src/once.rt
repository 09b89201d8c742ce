//! The words of a value that is set once.
use crate::capacity::Size;
use crate::numbers::{Numbered, numbered};
use crate::scripted::Scripted;
use esync_cells::once_lock::machine::{Get, OnceCall, OnceHeard};
use esync_cells::once_lock::{InitError, OnceState};
use esync_words::printing::print_option;
use esync_words::vocabulary::Vocabulary;
use esync_words::words::Words;
use std::io::{self, Write};
use std::marker::PhantomData;

/// The words of a value that is set once.
pub struct OnceWords<C: Size> {
    capacities: PhantomData<C>,
}

impl<C: Size> Vocabulary for OnceWords<C> {
    type Ask = Get;

    type Call = OnceCall<u64>;

    type Heard = OnceHeard<u64>;

    ghost use Rattle.esync_script.specs.Once.{once_asks, once_calls, once_text};

    ghost asks = { once_asks };

    ghost calls = { once_calls C.bits };

    ghost text = { once_text };

    fn ask(name: &str, words: Words<'_>) -> Option<Get> {
        match name {
            "get" => words.nothing().map(|_| Get {}),
            _ => None,
        }
    }

    fn call(name: &str, words: Words<'_>) -> Option<OnceCall<u64>> {
        match name {
            "try-get" => words.nothing().map(|_| OnceCall::TryGet),
            "init" => Some(OnceCall::Init(words.value(C::bits())?)),
            "get-or-init" => Some(OnceCall::GetOrInit(words.value(C::bits())?)),
            "take" => words.nothing().map(|_| OnceCall::Take),
            "is-set" => words.nothing().map(|_| OnceCall::IsSet),
            _ => None,
        }
    }

    fn questions() -> &'static [&'static str] {
        &["is-set", "try-get"]
    }

    fn print<W: Write>(heard: &OnceHeard<u64>, output: &mut W) -> io::Result<()> {
        match heard {
            OnceHeard::Got(value) => write!(output, "Ready({value})"),
            OnceHeard::Found(value) => print_option(*value, output),
            OnceHeard::HasSet(Ok(())) => write!(output, "Ok"),
            OnceHeard::HasSet(Err(InitError::Set(value))) => write!(output, "Err(Set({value}))"),
            OnceHeard::Shown(value) => write!(output, "{value}"),
            OnceHeard::IsSet(true) => write!(output, "true"),
            OnceHeard::IsSet(false) => write!(output, "false"),
        }
    }
}

/// A once lock of a value.
pub type Once<C> = Numbered<OnceState<u64, u64>, C, 1>;

impl<C: Size> Scripted<OnceWords<C>> for Once<C> {
    type First = ();

    ghost use Rattle.esync_script.specs.Once.{once_setting};
    ghost use Rattle.esync_script.specs.Setting.{BeginsAs};

    ghost IsNew = { λ first m. BeginsAs C.requests (once_setting C.bits) (Self.semantics.object m) (Self.semantics.registrations m) };

    fn begin(_first: ()) -> Self {
        numbered::<_, C, 1>(OnceState::new())
    }
}
