//! Passes over a mutex.
ghost use Rattle.std.specs.Prelude.{◌≡◌, ◌<◌, ◌^◌, sum, true, false, not};

use crate::tasks::{Turn, hand_out};
use esync_base::waitqueue::{Context, Poll, TaskId, Wakes};
use esync_guards::mutex::MutexState;

type State = MutexState<TaskId>;

// For each message the mutex is locked, and unlocked.
#[inline(never)]
fn lock_and_unlock(state: &mut State, messages: &[u32], woken: &mut [u64], turn: &Turn) -> u64
    requires free { state.old.held ≡ false }
    requires fits { sum messages.now < 2 ^ 64 }
    ensures { result ≡ sum messages.now }
{
    let mut total = 0;
    for message in messages {
        let locked = state.try_lock().is_ok();
        turn.next();
        if locked {
            total += u64::from(*message);
        }
        let mut wakes: Wakes<TaskId, 1> = Wakes::new();
        state.unlock(&mut wakes);
        hand_out(&wakes, woken);
        turn.next();
    }
    total
}

#[unsafe(no_mangle)]
pub extern "C" fn esync_bench_mutex_lock(messages: &[u32], woken: &mut [u64]) -> u64
    requires { sum messages.now < 2 ^ 64 }
    ensures { result ≡ sum messages.now }
{
    lock_and_unlock(&mut State::new(), messages, woken, &Turn::new())
}

// The mutex is unlocked.
fn unlock(state: &mut State, woken: &mut [u64], turn: &Turn)
    ensures { state.new.held ≡ false }
{
    let mut wakes: Wakes<TaskId, 1> = Wakes::new();
    state.unlock(&mut wakes);
    hand_out(&wakes, woken);
    turn.next();
}

// A poll of task 0, which is answered whether it has locked.
fn poll(state: &mut State, cx: &Context<TaskId>, woken: &mut [u64], turn: &Turn) -> bool
    ensures answer { result ≡ not state.old.held }
    ensures state { state.new.held ≡ true }
{
    let mut wakes: Wakes<TaskId, 1> = Wakes::new();
    let locked = match state.poll_lock(cx, &mut wakes) {
        Poll::Ready(()) => true,
        Poll::Pending => false,
    };
    hand_out(&wakes, woken);
    turn.next();
    locked
}

// For each message the mutex is locked, task 0 polls for it and waits, the mutex is unlocked, which wakes the task, and the task polls
// again and has the lock.
#[inline(never)]
fn wait_and_wake(state: &mut State, messages: &[u32], woken: &mut [u64], turn: &Turn) -> u64
    requires free { state.old.held ≡ false }
    requires fits { sum messages.now < 2 ^ 64 }
    ensures { result ≡ sum messages.now }
{
    let cx = Context::from_waker(TaskId(0));
    let mut total = 0;
    for message in messages {
        let _ = state.try_lock();
        turn.next();
        let _ = poll(state, &cx, woken, turn);
        unlock(state, woken, turn);
        if poll(state, &cx, woken, turn) {
            total += u64::from(*message);
        }
        unlock(state, woken, turn);
    }
    total
}

#[unsafe(no_mangle)]
pub extern "C" fn esync_bench_mutex_wait_and_wake(messages: &[u32], woken: &mut [u64]) -> u64
    requires { sum messages.now < 2 ^ 64 }
    ensures { result ≡ sum messages.now }
{
    wait_and_wake(&mut State::new(), messages, woken, &Turn::new())
}
