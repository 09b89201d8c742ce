//! What a state holds by default, and a shared form.
use esync_cells::signal::{Signal, SignalState};
use esync_notes::{Deaf, holds, same};
use esync_permits::semaphore::{FairSemaphore, FairState, GreedySemaphore, GreedyState};

#[test]
fn a_state_holds_nothing_by_default(rt: HostRuntime) {
    let greedy: GreedyState<u64> = Default::default();
    same!(rt; greedy.permits(), 0);
    let fair: FairState<u64, 2> = Default::default();
    same!(rt; fair.permits(), 0);
    let signal: SignalState<u32, u64> = Default::default();
    holds!(rt; !signal.signaled());
}

#[test]
fn a_shared_form_holds_nothing_by_default(rt: HostRuntime) {
    let greedy: GreedySemaphore<u64, Deaf<HostRuntime>> = Default::default();
    same!(rt; greedy.permits(), 0);
    let fair: FairSemaphore<u64, Deaf<HostRuntime>, 2> = Default::default();
    same!(rt; fair.permits(), 0);
    let signal: Signal<u32, u64, Deaf<HostRuntime>> = Default::default();
    holds!(rt; !signal.signaled());
}
