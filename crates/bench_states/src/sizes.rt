//! How many bytes each state takes.
use esync_base::waitqueue::TaskId;
use esync_cells::once_lock::OnceState;
use esync_cells::signal::SignalState;
use esync_cells::watch::WatchState;
use esync_channel::channel::ChannelState;
use esync_guards::mutex::MutexState;
use esync_permits::semaphore::{FairState, GreedyState};
use esync_pipe::pipe::PipeState;
use esync_priority::prio::Max;
use esync_priority::priority_channel::ChannelState as PriorityState;
use esync_pubsub::pubsub::PubSubState;
use std::mem::size_of;

/// Returns the size of one of thirteen states, in bytes, or 0 where no state has this number.
#[unsafe(no_mangle)]
pub extern "C" fn esync_bench_size(state: usize) -> usize {
    match state {
        0 => size_of::<ChannelState<u32, TaskId, 4>>(),
        1 => size_of::<ChannelState<u32, TaskId, 1024>>(),
        2 => size_of::<ChannelState<[u8; 1024], TaskId, 4>>(),
        3 => size_of::<PriorityState<u32, TaskId, Max, 4>>(),
        4 => size_of::<PriorityState<u32, TaskId, Max, 1024>>(),
        5 => size_of::<SignalState<u32, TaskId>>(),
        6 => size_of::<WatchState<u32, TaskId, 4>>(),
        7 => size_of::<PubSubState<u32, TaskId, 4, 4, 1>>(),
        8 => size_of::<PipeState<TaskId, 1024>>(),
        9 => size_of::<MutexState<TaskId>>(),
        10 => size_of::<GreedyState<TaskId>>(),
        11 => size_of::<FairState<TaskId, 4>>(),
        12 => size_of::<OnceState<u32, TaskId>>(),
        _ => 0,
    }
}
