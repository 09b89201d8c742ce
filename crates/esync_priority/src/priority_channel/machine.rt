//! The priority channel as a machine that takes the commands of a channel.
ghost use Rattle.std.specs.Prelude.{◌≡◌, IfOk, OnErr};
ghost use Rattle.esync_priority.specs.Prio.{Bag};
ghost use Rattle.esync_machine.specs.Object.{GoodRunOver};
ghost use Rattle.esync_channel.specs.ChannelRules.{channel_rules, channel_wakings};
ghost use Rattle.esync_channel.specs.Sizes.{SizesAddUp};

use crate::prio::{Kind, PrioQueue};
use esync_channel::channel::Mailbox;
use esync_channel::channel::machine::{ChannelCommand, ChannelReply};
use esync_machine::requests::Requests;
use esync_machine::run::run;
use std::alloc::{AllocError, Global};

/// A priority channel of at most `N` messages as a machine, with requests at the numbers below `REQS`.
pub type PriorityRun<T, W, O, const N: usize, const REQS: usize, const K: usize> = Requests<
    Mailbox<PrioQueue<T, O, N>, W>,
    REQS,
    K,
>;

/// Gives the commands to the priority channel, one after another, as `run` does, and returns the replies in order.
/// After an error no command was taken.
///
/// Each answer is one that a bag of at most `N` messages allows. The message that leaves is one that no held message is
/// above. No live request that last heard Pending would now be answered Ready, unless its waker was handed out in that
/// poll or since. No Pending poll that changes nothing hands out its own waker.
///
/// The sizes add up. The length is the number of messages that were held at first or sent since, and not taken. With
/// the free capacity it makes `N`.
pub fn run_priority_channel<
    T: Drop,
    W: Copy + Eq,
    O: Kind<T>,
    const N: usize,
    const REQS: usize,
    const K: usize,
>(
    alloc: Global,
    machine: &mut PriorityRun<T, W, O, N, REQS, K>,
    commands: Vec<ChannelCommand<T, W>>,
) -> Result<Vec<ChannelReply<T, W, K>>, AllocError>
    ensures run { IfOk result (λ replies. GoodRunOver (channel_rules (Bag T O.above N)) (λ m. m.store) (channel_wakings W.eq (Bag T O.above N)) (λ m. m.slots) W.eq K machine.old commands.items replies.items machine.new) }
    ensures sizes { IfOk result (λ replies. SizesAddUp N machine.old.requests machine.old.state.store commands.items replies.items) }
    ensures refused { OnErr result (machine.new ≡ machine.old) }
{
    run(alloc, machine, commands)
}
