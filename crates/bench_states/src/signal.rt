//! A pass over a signal.
ghost use Rattle.std.specs.Prelude.{◌≡◌, ◌<◌, ◌^◌, sum};

use crate::tasks::{Turn, hand_out};
use esync_base::waitqueue::{TaskId, Wakes};
use esync_cells::signal::SignalState;

type State = SignalState<u32, TaskId>;

// Each message is signaled and then taken.
#[inline(never)]
fn signal_and_take(state: &mut State, messages: &[u32], woken: &mut [u64], turn: &Turn) -> u64
    requires { sum messages.now < 2 ^ 64 }
    ensures { result ≡ sum messages.now }
{
    let mut total = 0;
    for message in messages {
        let mut wakes: Wakes<TaskId, 1> = Wakes::new();
        state.signal(*message, &mut wakes);
        hand_out(&wakes, woken);
        turn.next();
        total += u64::from(state.try_take().unwrap_or(0));
        turn.next();
    }
    total
}

#[unsafe(no_mangle)]
pub extern "C" fn esync_bench_signal_take(messages: &[u32], woken: &mut [u64]) -> u64
    requires { sum messages.now < 2 ^ 64 }
    ensures { result ≡ sum messages.now }
{
    signal_and_take(&mut State::new(), messages, woken, &Turn::new())
}
