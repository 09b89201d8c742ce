//! What a stall means on a channel.
ghost use Rattle.std.specs.Prelude.{◌≡◌};
ghost use Rattle.esync_base.specs.Keeping.{BoundedList};
ghost use Rattle.esync_machine.specs.Object.{Object, requests_meaning};
ghost use Rattle.esync_machine.specs.declared.primitive.Command.TheVariants.{Start};
ghost use Rattle.esync_channel.specs.ChannelRules.{channel_rules, channel_wakings};
ghost use Rattle.esync_history.specs.Standing.{AreStalled};
ghost use Rattle.esync_history.specs.Turns.{Ran, Tells};

use esync_base::waitqueue::TaskId;
use esync_history::executor::{Executor, Outcome};
use esync_machine::run::Machine;
use esync_run::channel::ChannelRun;

/// Runs tasks over a channel, as `Executor::run` does.
///
/// Where it stalls, each task that hasn't ended stands at an Await. A poll of its request would be answered Pending and leave
/// the channel as it is, or a call ended the request.
pub fn run_tasks<T: Drop, const N: usize, const REQS: usize, const K: usize>(
    executor: &mut Executor<ChannelRun<T, TaskId, N, REQS, K>>,
    limit: usize,
) -> Outcome
    ensures run { Ran ⟦<ChannelRun<T, TaskId, N, REQS, K> as Machine>⟧.semantics Start limit executor.old result executor.new }
    ensures outcome { Tells result executor.new }
    ensures stalled { result ≡ Outcome.Stalled → AreStalled (requests_meaning (channel_rules (BoundedList T N)) (channel_wakings ⟦<TaskId as PartialEq>⟧.eq (BoundedList T N)) ⟦<TaskId as PartialEq>⟧.eq K) (record { core = executor.new.machine.state.store.items; requests = executor.new.machine.requests }) executor.new.tasks }
{
    executor.run(limit)
}
