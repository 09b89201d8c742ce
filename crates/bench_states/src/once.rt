//! A pass over a value that is set once.
use crate::tasks::Turn;
use esync_base::waitqueue::TaskId;
use esync_cells::once_lock::OnceState;

type State = OnceState<u32, TaskId>;

// Each message is set, read where it stands, and taken, so that the next one can be set.
#[inline(never)]
fn init_and_get(state: &mut State, messages: &[u32], turn: &Turn) -> u64 {
    let mut total = 0u64;
    for message in messages {
        let _ = state.init(*message);
        turn.next();
        if let Some(message) = state.try_get() {
            total = total.wrapping_add(u64::from(*message));
        }
        turn.next();
        let _ = state.take();
        turn.next();
    }
    total
}

#[unsafe(no_mangle)]
pub extern "C" fn esync_bench_once_init_and_get(messages: &[u32], _woken: &mut [u64]) -> u64 {
    init_and_get(&mut State::new(), messages, &Turn::new())
}
