//! The words of a value that is made when a call first asks for it.
use crate::capacity::Size;
use crate::numbers::{Numbered, numbered};
use crate::scripted::Scripted;
use esync_cells::lazy_lock::Given;
use esync_cells::lazy_lock::machine::{LazyCall, LazyHolder, NoAsk};
use esync_words::vocabulary::Vocabulary;
use esync_words::words::Words;
use std::io::{self, Write};

/// The words of a value that is made when a call first asks for it.
pub struct LazyWords {}

impl Vocabulary for LazyWords {
    type Ask = NoAsk;

    type Call = LazyCall;

    type Heard = u64;

    ghost use Rattle.std.specs.Prelude.{decimal};
    ghost use Rattle.esync_script.specs.Lazy.{lazy_asks, lazy_calls};

    ghost asks = { lazy_asks };

    ghost calls = { lazy_calls };

    ghost text = { decimal };

    fn ask(_name: &str, _words: Words<'_>) -> Option<NoAsk> {
        None
    }

    fn call(name: &str, words: Words<'_>) -> Option<LazyCall> {
        match name {
            "get" => words.nothing().map(|_| LazyCall::Get),
            "into" => words.nothing().map(|_| LazyCall::Into),
            _ => None,
        }
    }

    fn print<W: Write>(heard: &u64, output: &mut W) -> io::Result<()> {
        write!(output, "{heard}")
    }
}

/// A lazy lock of this value.
pub type Made<C> = Numbered<LazyHolder<u64, Given<u64>, u64>, C, 1>;

impl<C: Size> Scripted<LazyWords> for Made<C> {
    /// The value that will be made.
    type First = u64;

    ghost use Rattle.esync_script.specs.Lazy.{lazy_setting};
    ghost use Rattle.esync_script.specs.Setting.{BeginsAs};

    ghost IsNew = { λ value m. BeginsAs C.requests (lazy_setting value) (Self.semantics.object m) (Self.semantics.registrations m) };

    fn begin(value: u64) -> Self {
        numbered::<_, C, 1>(LazyHolder::new(Given { value }))
    }
}
