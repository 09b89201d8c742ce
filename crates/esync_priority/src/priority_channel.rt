//! A queue for sending values between tasks, in which the greatest or the least leaves first.
//!
//! Everything except the order in which messages leave is as in a channel.
use crate::prio::PrioQueue;
pub use crate::prio::{Kind, Max, Min};
use esync_channel::channel::{Mailbox, Rcv, SharedMailbox, Snd};
pub use esync_channel::channel::{
    ReceiveFuture, SendFuture, SendRequest, TryReceiveError, TrySendError,
};

pub mod machine;

/// The state of a priority channel of at most `N` messages. The message that leaves is one that no held message is
/// above.
pub type ChannelState<T, W, O, const N: usize> = Mailbox<PrioQueue<T, O, N>, W>;

/// A bounded channel of at most `N` messages that tasks on several threads share by reference.
pub type PriorityChannel<T, W, O, H, const N: usize> = SharedMailbox<PrioQueue<T, O, N>, W, H>;

/// A handle of a priority channel that can only send.
pub type Sender<'ch, T, W, O, H, const N: usize> = Snd<'ch, PriorityChannel<T, W, O, H, N>>;

/// A handle of a priority channel that can only receive.
pub type Receiver<'ch, T, W, O, H, const N: usize> = Rcv<'ch, PriorityChannel<T, W, O, H, N>>;
