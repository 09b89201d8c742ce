//! The words of a channel and of a priority channel.
use crate::capacity::{MOST, Size};
use crate::numbers::{Numbered, numbered};
use crate::scripted::Scripted;
use esync_base::deque::Deque;
use esync_base::limited::{Limit, Limited};
use esync_channel::channel::machine::{ChannelAsk, ChannelCall, ChannelHeard};
use esync_channel::channel::{Mailbox, TryReceiveError, TrySendError};
use esync_priority::prio::{Kind, PrioQueue};
use esync_words::vocabulary::{Place, Vocabulary};
use esync_words::words::Words;
use std::io::{self, Write};
use std::marker::PhantomData;

/// The words of a channel of values.
pub struct ChannelWords<C: Size> {
    capacities: PhantomData<C>,
}

impl<C: Size> Vocabulary for ChannelWords<C> {
    type Ask = ChannelAsk<u64>;

    type Call = ChannelCall<u64>;

    type Heard = ChannelHeard<u64>;

    ghost use Rattle.esync_script.specs.Channel.{channel_asks, channel_calls, channel_text};

    ghost asks = { channel_asks C.bits };

    ghost calls = { channel_calls C.bits };

    ghost text = { channel_text };

    fn ask(name: &str, words: Words<'_>) -> Option<ChannelAsk<u64>> {
        match name {
            "send" => Some(ChannelAsk::Send(words.value(C::bits())?)),
            "receive" => words.nothing().map(|_| ChannelAsk::Receive),
            "send-ready" => words.nothing().map(|_| ChannelAsk::SendReady),
            "receive-ready" => words.nothing().map(|_| ChannelAsk::ReceiveReady),
            _ => None,
        }
    }

    fn call(name: &str, words: Words<'_>) -> Option<ChannelCall<u64>> {
        match name {
            "try-send" => Some(ChannelCall::TrySend(words.value(C::bits())?)),
            "try-receive" => words.nothing().map(|_| ChannelCall::TryReceive),
            "clear" => words.nothing().map(|_| ChannelCall::Clear),
            "len" => words.nothing().map(|_| ChannelCall::Len),
            "free" => words.nothing().map(|_| ChannelCall::FreeCapacity),
            _ => None,
        }
    }

    fn print<W: Write>(heard: &ChannelHeard<u64>, output: &mut W) -> io::Result<()> {
        match heard {
            ChannelHeard::Ready => write!(output, "Ready"),
            ChannelHeard::Received(message) => write!(output, "Ready({message})"),
            ChannelHeard::TrySent(Ok(())) => write!(output, "Ok"),
            ChannelHeard::TrySent(Err(TrySendError::Full(message))) => {
                write!(output, "Err(Full({message}))")
            }
            ChannelHeard::TryReceived(Ok(message)) => write!(output, "Ok({message})"),
            ChannelHeard::TryReceived(Err(TryReceiveError::Empty)) => write!(output, "Err(Empty)"),
            ChannelHeard::Number(number) => write!(output, "{number}"),
        }
    }

    fn questions() -> &'static [&'static str] {
        &["len", "free", "try-receive"]
    }

    fn place(number: usize) -> Option<Place> {
        match number {
            0 => Some(Place::of("the receivers", "a message came")),
            1 => Some(Place::of("the senders", "there may be room")),
            _ => None,
        }
    }
}

/// A channel of at most `B.limit` messages.
pub type Listed<C, B> = Numbered<Mailbox<Limited<Deque<u64, MOST>, B>, u64>, C, 1>;

impl<C: Size, B: Limit> Scripted<ChannelWords<C>> for Listed<C, B> {
    /// The capacity.
    type First = usize;

    ghost use Rattle.std.specs.Prelude.{ℕ, ◌≡◌, ◌≤◌};
    ghost use Rattle.esync_base.specs.Keeping.{BoundedList};
    ghost use Rattle.esync_script.specs.Channel.{channel_setting};
    ghost use Rattle.esync_script.specs.Setting.{BeginsAs};

    ghost CanBegin = { λ capacity. (capacity ≡ B.limit) × (capacity ≤ 4096) };

    ghost IsNew = { λ capacity m. BeginsAs C.requests (channel_setting C.bits (BoundedList ℕ B.limit)) (Self.semantics.object m) (Self.semantics.registrations m) };

    fn begin(capacity: usize) -> Self {
        numbered::<_, C, 1>(Mailbox::over(Limited::new(capacity)))
    }
}

/// A priority channel of at most `B.limit` messages.
pub type Prioritized<C, Q, B> = Numbered<Mailbox<Limited<PrioQueue<u64, Q, MOST>, B>, u64>, C, 1>;

impl<C: Size, Q: Kind<u64>, B: Limit> Scripted<ChannelWords<C>> for Prioritized<C, Q, B> {
    /// The capacity.
    type First = usize;

    ghost use Rattle.std.specs.Prelude.{ℕ, ◌≡◌, ◌≤◌};
    ghost use Rattle.esync_priority.specs.Prio.{Bag};
    ghost use Rattle.esync_script.specs.Channel.{channel_setting};
    ghost use Rattle.esync_script.specs.Setting.{BeginsAs};

    ghost CanBegin = { λ capacity. (capacity ≡ B.limit) × (capacity ≤ 4096) };

    ghost IsNew = { λ capacity m. BeginsAs C.requests (channel_setting C.bits (Bag ℕ Q.above B.limit)) (Self.semantics.object m) (Self.semantics.registrations m) };

    fn begin(capacity: usize) -> Self {
        numbered::<_, C, 1>(Mailbox::over(Limited::new(capacity)))
    }
}
