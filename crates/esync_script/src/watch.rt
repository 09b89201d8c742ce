//! The words of a watch.
ghost use Rattle.std.specs.Prelude.{◌≡◌};
ghost use Rattle.esync_script.specs.Watch.{watch_asks, watch_reads};

use crate::capacity::{MOST, Size};
use crate::numbers::{Numbered, numbered};
use crate::scripted::Scripted;
use esync_base::limited::{Limit, LimitedList};
use esync_base::waitqueue::Wakes;
use esync_cells::watch::machine::{Await, Reading, WatchCall, WatchHeard, Watched};
use esync_cells::watch::{Change, Judge};
use esync_words::bits::Bits;
use esync_words::printing::print_option;
use esync_words::vocabulary::{NAMES, Place, Vocabulary};
use esync_words::words::Words;
use std::io::{self, Write};
use std::marker::PhantomData;

/// A change that adds this much to a value of so many bits, modulo 2 to that many. Without a value, or with nothing to
/// add, it changes nothing and doesn't tell.
#[derive(Clone, Copy, Debug)]
pub struct Adds {
    pub bits: Bits,
    pub amount: u64,
}

impl Change<u64> for Adds {
    ghost use Rattle.esync_script.specs.Watch.{added, adds, adds_tells};

    ghost changed = { λ c v. added c.bits c.amount v };

    ghost tells = { λ c v. adds c.amount v };

    fn apply(&self, value: &mut Option<u64>) -> bool {
        let Some(present) = *value else {
            return false;
        };
        if self.amount == 0 {
            return false;
        }
        *value = Some(self.bits.sum(present, self.amount));
        true
    }

    ghost a_change_tells = { λ c v told. adds_tells c.bits c.amount v told };
}

/// A test that a value below the limit passes.
#[derive(Clone, Copy, Debug, PartialEq, Eq)]
pub struct Below {
    pub limit: u64,
}

impl Judge<u64> for Below {
    ghost use Rattle.std.specs.Prelude.{nat_lt};

    ghost passes = { λ c v. nat_lt v c.limit };

    fn holds(&self, value: &u64) -> bool {
        *value < self.limit
    }
}

/// The words of a watch of values.
pub struct WatchWords<C: Size> {
    capacities: PhantomData<C>,
}

// Reads what a receiver waits for.
fn read_ask(name: &str, words: Words<'_>, bits: Bits) -> Option<Await<Below>>
    ensures { result ≡ watch_asks bits name.now words.entry }
{
    match name {
        "get" => Some(Await {
            receiver: words.number()? as usize,
            read: Reading::Get,
        }),
        "changed" => Some(Await {
            receiver: words.number()? as usize,
            read: Reading::Changed,
        }),
        "get-below" => {
            let (h, limit) = words.number_and_value(bits)?;
            Some(Await {
                receiver: h as usize,
                read: Reading::GetAnd(Below { limit }),
            })
        }
        "changed-below" => {
            let (h, limit) = words.number_and_value(bits)?;
            Some(Await {
                receiver: h as usize,
                read: Reading::ChangedAnd(Below { limit }),
            })
        }
        _ => None,
    }
}

// Reads what a receiver tries to read.
fn read_call(name: &str, words: Words<'_>, bits: Bits) -> Option<WatchCall<u64, Adds, Below>>
    ensures { result ≡ watch_reads bits name.now words.entry }
{
    match read_ask(name, words, bits) {
        Some(ask) => Some(WatchCall::Read(ask.receiver, ask.read)),
        None => None,
    }
}

impl<C: Size> Vocabulary for WatchWords<C> {
    type Ask = Await<Below>;

    type Call = WatchCall<u64, Adds, Below>;

    type Heard = WatchHeard<u64>;

    ghost use Rattle.esync_script.specs.Watch.{watch_asks, watch_calls, watch_text};

    ghost asks = { watch_asks C.bits };

    ghost calls = { watch_calls C.bits };

    ghost text = { watch_text };

    fn ask(name: &str, words: Words<'_>) -> Option<Await<Below>> {
        read_ask(name, words, C::bits())
    }

    fn call(name: &str, words: Words<'_>) -> Option<WatchCall<u64, Adds, Below>> {
        match name {
            "receiver" => Some(WatchCall::Receiver(words.number()? as usize)),
            "anon" => Some(WatchCall::Anon(words.number()? as usize)),
            "leave" => Some(WatchCall::Leave(words.number()? as usize)),
            "clear" => words.nothing().map(|_| WatchCall::Clear),
            "send" => Some(WatchCall::Send(words.value(C::bits())?)),
            "modify" => {
                let bits = C::bits();
                let amount = words.value(bits)?;
                Some(WatchCall::Modify(Adds { bits, amount }))
            }
            "modify-if" => {
                let bits = C::bits();
                let amount = words.value(bits)?;
                Some(WatchCall::ModifyIf(Adds { bits, amount }))
            }
            "try-get" => words.nothing().map(|_| WatchCall::TryGet),
            "id" => words.nothing().map(|_| WatchCall::Id),
            "contains" => words.nothing().map(|_| WatchCall::Contains),
            _ => read_call(name, words, C::bits()),
        }
    }

    fn print<W: Write>(heard: &WatchHeard<u64>, output: &mut W) -> io::Result<()> {
        match heard {
            WatchHeard::Waited(value) => write!(output, "Ready({value})"),
            WatchHeard::Counted(true) => write!(output, "Ok"),
            WatchHeard::Counted(false) => write!(output, "None"),
            WatchHeard::Sent(Ok(())) => write!(output, "Ok"),
            WatchHeard::Sent(Err(error)) => write!(output, "Err(Exhausted({}))", error.0),
            WatchHeard::Modified(Ok(())) => write!(output, "Ok"),
            WatchHeard::Modified(Err(_)) => write!(output, "Err(Exhausted)"),
            WatchHeard::Found(found) => print_option(*found, output),
            WatchHeard::Version(version) => write!(output, "{version}"),
            WatchHeard::HasValue(true) => write!(output, "true"),
            WatchHeard::HasValue(false) => write!(output, "false"),
        }
    }

    fn questions() -> &'static [&'static str] {
        &["id", "try-get"]
    }

    fn place(number: usize) -> Option<Place> {
        match number {
            0 => Some(Place::of("the receivers", "a newer version came")),
            _ => None,
        }
    }
}

/// A watch of at most `B.limit` counted receivers.
pub type Counted<C, B> = Numbered<
    Watched<u64, LimitedList<Wakes<u64, MOST>, B>, Adds, Below, NAMES>,
    C,
    MOST,
>;

impl<C: Size, B: Limit> Scripted<WatchWords<C>> for Counted<C, B> {
    /// How many receivers can be counted, and the value at first, if there is one.
    type First = (usize, Option<u64>);

    ghost use Rattle.std.specs.Prelude.{◌≡◌, ◌≤◌};
    ghost use Rattle.esync_script.specs.Setting.{BeginsAs};
    ghost use Rattle.esync_script.specs.Watch.{watch_setting};

    ghost CanBegin = { λ first. (first.0 ≡ B.limit) × (1 ≤ first.0) × (first.0 ≤ 4096) };

    ghost IsNew = { λ first m. BeginsAs C.requests (watch_setting C.bits B.limit first.1) (Self.semantics.object m) (Self.semantics.registrations m) };

    fn begin((receivers, value): (usize, Option<u64>)) -> Self {
        numbered::<_, C, MOST>(Watched::over(LimitedList::new(receivers), value, 0))
    }
}
