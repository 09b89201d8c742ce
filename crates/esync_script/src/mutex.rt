//! The words of a mutex.
use crate::capacity::Size;
use crate::numbers::{Numbered, numbered};
use crate::scripted::Scripted;
use esync_guards::mutex::machine::{Guarded, Lock, MutexCall, MutexHeard};
use esync_guards::mutex::{Second, TryLockError};
use esync_words::vocabulary::{Place, Vocabulary};
use esync_words::words::Words;
use std::io::{self, Write};
use std::marker::PhantomData;

/// The words of a mutex of two values, of which the second is the part of a mapped guard.
pub struct MutexWords<C: Size> {
    capacities: PhantomData<C>,
}

impl<C: Size> Vocabulary for MutexWords<C> {
    type Ask = Lock;

    type Call = MutexCall<(u64, u64), u64>;

    type Heard = MutexHeard<(u64, u64), u64>;

    ghost use Rattle.esync_script.specs.Mutex.{mutex_asks, mutex_calls, mutex_text};

    ghost asks = { mutex_asks };

    ghost calls = { mutex_calls C.bits };

    ghost text = { mutex_text };

    fn ask(name: &str, words: Words<'_>) -> Option<Lock> {
        match name {
            "lock" => words.nothing().map(|_| Lock {}),
            _ => None,
        }
    }

    fn call(name: &str, words: Words<'_>) -> Option<MutexCall<(u64, u64), u64>> {
        match name {
            "try-lock" => Some(MutexCall::TryLock(words.number()? as usize)),
            "read" => Some(MutexCall::Read(words.number()? as usize)),
            "write" => {
                let (r, value, part) = words.number_and_two_values(C::bits())?;
                Some(MutexCall::Write(r as usize, (value, part)))
            }
            "map" => Some(MutexCall::Map(words.number()? as usize)),
            "write-part" => {
                let (r, part) = words.number_and_value(C::bits())?;
                Some(MutexCall::WritePart(r as usize, part))
            }
            _ => None,
        }
    }

    fn print<W: Write>(heard: &MutexHeard<(u64, u64), u64>, output: &mut W) -> io::Result<()> {
        match heard {
            MutexHeard::Locked => write!(output, "Ready"),
            MutexHeard::Tried(Ok(())) => write!(output, "Ok"),
            MutexHeard::Tried(Err(TryLockError)) => write!(output, "Err(TryLockError)"),
            MutexHeard::Value((value, part)) => write!(output, "({value},{part})"),
            MutexHeard::Part(part) => write!(output, "({part})"),
        }
    }

    fn question_of(request: usize) -> Option<(&'static str, MutexCall<(u64, u64), u64>)> {
        Some(("read", MutexCall::Read(request)))
    }

    fn place(number: usize) -> Option<Place> {
        match number {
            0 => Some(Place::of("the waiter", "the lock is free")),
            _ => None,
        }
    }
}

/// A mutex over a pair, of which `map` lends the second value.
pub type Paired<C> = Numbered<Guarded<(u64, u64), u64, Second, u64>, C, 1>;

impl<C: Size> Scripted<MutexWords<C>> for Paired<C> {
    /// The two values at first.
    type First = (u64, u64);

    ghost use Rattle.esync_script.specs.Mutex.{mutex_setting};
    ghost use Rattle.esync_script.specs.Setting.{BeginsAs};

    ghost IsNew = { λ value m. BeginsAs C.requests (mutex_setting C.bits value.0 value.1) (Self.semantics.object m) (Self.semantics.registrations m) };

    fn begin(value: (u64, u64)) -> Self {
        numbered::<_, C, 1>(Guarded::new(value, Second {}))
    }
}
