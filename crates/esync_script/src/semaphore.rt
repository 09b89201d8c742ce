//! The words of the greedy and the fair semaphore.
ghost use Rattle.std.specs.Prelude.{◌≡◌, OnOk};
ghost use Rattle.std.specs.Io.KnownBytes.{Appends};
ghost use Rattle.esync_words.specs.Text.{option_text};
ghost use Rattle.esync_script.specs.Semaphore.{permit_asks, permit_calls};

use crate::capacity::{MOST, Size};
use crate::numbers::{Numbered, numbered};
use crate::scripted::Scripted;
use esync_base::limited::Limit;
use esync_permits::queue::{LimitedQueue, Queue};
use esync_permits::semaphore::machine::{PermitCall, PermitHeard};
use esync_permits::semaphore::{Amount, FairOver, GreedyState, WaitQueueFull};
use esync_words::printing::print_option;
use esync_words::vocabulary::{Place, Vocabulary};
use esync_words::words::Words;
use std::io::{self, Write};

// Reads what a request asks of a semaphore, greedy or fair.
fn read_ask(name: &str, words: Words<'_>) -> Option<Amount>
    ensures { result ≡ permit_asks name.now words.entry }
{
    match name {
        "acquire" => Some(Amount::Exactly(words.number()? as usize)),
        "acquire-all" => Some(Amount::AllFrom(words.number()? as usize)),
        _ => None,
    }
}

// Reads a call of a semaphore, greedy or fair.
fn read_call(name: &str, words: Words<'_>) -> Option<PermitCall>
    ensures { result ≡ permit_calls name.now words.entry }
{
    match name {
        "try" => {
            let (r, permits) = words.two_numbers()?;
            Some(PermitCall::Try(r as usize, Amount::Exactly(permits as usize)))
        }
        "try-all" => {
            let (r, min) = words.two_numbers()?;
            Some(PermitCall::Try(r as usize, Amount::AllFrom(min as usize)))
        }
        "disarm" => Some(PermitCall::Disarm(words.number()? as usize)),
        "release" => Some(PermitCall::Release(words.number()? as usize)),
        "set" => Some(PermitCall::Set(words.number()? as usize)),
        "permits" => words.nothing().map(|_| PermitCall::Permits),
        _ => None,
    }
}

fn print_tried<W: Write>(tried: Option<usize>, output: &mut W) -> io::Result<()>
    ensures { OnOk result (Appends (W.contents output.old) (W.contents output.new) (option_text tried)) }
{
    print_option(tried.map(|permits| permits as u64), output)
}

/// The words of a greedy semaphore.
pub struct GreedyWords {}

impl Vocabulary for GreedyWords {
    type Ask = Amount;

    type Call = PermitCall;

    type Heard = PermitHeard<usize>;

    ghost use Rattle.std.specs.Prelude.{decimal};
    ghost use Rattle.esync_script.specs.Semaphore.{permit_asks, permit_calls, permit_text};

    ghost asks = { permit_asks };

    ghost calls = { permit_calls };

    ghost text = { permit_text decimal };

    fn ask(name: &str, words: Words<'_>) -> Option<Amount> {
        read_ask(name, words)
    }

    fn call(name: &str, words: Words<'_>) -> Option<PermitCall> {
        read_call(name, words)
    }

    fn print<W: Write>(heard: &PermitHeard<usize>, output: &mut W) -> io::Result<()> {
        match heard {
            PermitHeard::Granted(permits) => write!(output, "Ready({permits})"),
            PermitHeard::Tried(tried) => print_tried(*tried, output),
            PermitHeard::Count(permits) => write!(output, "{permits}"),
        }
    }

    fn questions() -> &'static [&'static str] {
        &["permits"]
    }

    fn place(number: usize) -> Option<Place> {
        match number {
            0 => Some(Place::of("the waiter", "permits came")),
            _ => None,
        }
    }
}

/// The words of a fair semaphore.
pub struct FairWords {}

impl Vocabulary for FairWords {
    type Ask = Amount;

    type Call = PermitCall;

    type Heard = PermitHeard<Result<usize, WaitQueueFull>>;

    ghost use Rattle.esync_script.specs.Semaphore.{permit_asks, permit_calls, permit_text, fair_text};

    ghost asks = { permit_asks };

    ghost calls = { permit_calls };

    ghost text = { permit_text fair_text };

    fn ask(name: &str, words: Words<'_>) -> Option<Amount> {
        read_ask(name, words)
    }

    fn call(name: &str, words: Words<'_>) -> Option<PermitCall> {
        read_call(name, words)
    }

    fn print<W: Write>(
        heard: &PermitHeard<Result<usize, WaitQueueFull>>,
        output: &mut W,
    ) -> io::Result<()> {
        match heard {
            PermitHeard::Granted(Ok(permits)) => write!(output, "Ready({permits})"),
            PermitHeard::Granted(Err(WaitQueueFull)) => write!(output, "Ready(Err(WaitQueueFull))"),
            PermitHeard::Tried(tried) => print_tried(*tried, output),
            PermitHeard::Count(permits) => write!(output, "{permits}"),
        }
    }

    fn questions() -> &'static [&'static str] {
        &["permits"]
    }

    fn place(number: usize) -> Option<Place> {
        match number {
            0 => Some(Place {
                name: "the queue",
                event: "it is in front, and permits came or who was before it left",
                stays: true,
            }),
            _ => None,
        }
    }
}

/// A greedy semaphore.
pub type Greedy<C> = Numbered<GreedyState<u64>, C, 1>;

impl<C: Size> Scripted<GreedyWords> for Greedy<C> {
    /// The number of permits at first.
    type First = usize;

    ghost use Rattle.esync_script.specs.Semaphore.{greedy_setting};
    ghost use Rattle.esync_script.specs.Setting.{BeginsAs};

    ghost IsNew = { λ permits m. BeginsAs C.requests (greedy_setting permits) (Self.semantics.object m) (Self.semantics.registrations m) };

    fn begin(permits: usize) -> Self {
        numbered::<_, C, 1>(GreedyState::new(permits))
    }
}

/// A fair semaphore with a queue of `B.limit` places.
pub type Queued<C, B> = Numbered<FairOver<LimitedQueue<Queue<u64, MOST>, B>>, C, 1>;

impl<C: Size, B: Limit> Scripted<FairWords> for Queued<C, B> {
    /// The number of places in the queue, and the number of permits at first.
    type First = (usize, usize);

    ghost use Rattle.std.specs.Prelude.{◌≡◌, ◌≤◌};
    ghost use Rattle.esync_script.specs.Semaphore.{fair_setting};
    ghost use Rattle.esync_script.specs.Setting.{BeginsAs};

    ghost CanBegin = { λ first. (first.0 ≡ B.limit) × (first.0 ≤ 4096) };

    ghost IsNew = { λ first m. BeginsAs C.requests (fair_setting B.limit first.1) (Self.semantics.object m) (Self.semantics.registrations m) };

    fn begin((places, permits): (usize, usize)) -> Self {
        numbered::<_, C, 1>(FairOver::over(permits, LimitedQueue::new(places)))
    }
}
