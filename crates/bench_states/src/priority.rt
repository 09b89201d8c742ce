//! Passes over a priority channel, the greatest first.
ghost use Rattle.std.specs.Prelude.{◌≡◌, ◌<◌, ◌^◌, sum};

use crate::carrier::{fill_and_drain, steady};
use crate::channel::Summed;
use crate::tasks::Turn;
use esync_base::waitqueue::TaskId;
use esync_priority::prio::{Max, PrioQueue};
use esync_priority::priority_channel::ChannelState;

impl<const N: usize> Summed for PrioQueue<u32, Max, N> {
    ghost use Rattle.bench_states.specs.Sums.{sum-of-more, sum-of-less};

    ghost sum_put = { sum-of-more };

    ghost sum_taken = { λ old new message h. sum-of-less old new message h.0 };
}

type State<const N: usize> = ChannelState<u32, TaskId, Max, N>;

#[unsafe(no_mangle)]
pub extern "C" fn esync_bench_priority_fill_drain_4(messages: &[u32], woken: &mut [u64]) -> u64
    requires { sum messages.now < 2 ^ 64 }
    ensures { result ≡ sum messages.now }
{
    fill_and_drain(&mut State::<4>::new(), messages, woken, &Turn::new())
}

#[unsafe(no_mangle)]
pub extern "C" fn esync_bench_priority_fill_drain_64(messages: &[u32], woken: &mut [u64]) -> u64
    requires { sum messages.now < 2 ^ 64 }
    ensures { result ≡ sum messages.now }
{
    fill_and_drain(&mut State::<64>::new(), messages, woken, &Turn::new())
}

#[unsafe(no_mangle)]
pub extern "C" fn esync_bench_priority_fill_drain_1024(messages: &[u32], woken: &mut [u64]) -> u64
    requires { sum messages.now < 2 ^ 64 }
    ensures { result ≡ sum messages.now }
{
    fill_and_drain(&mut State::<1024>::new(), messages, woken, &Turn::new())
}

#[unsafe(no_mangle)]
pub extern "C" fn esync_bench_priority_steady_4(messages: &[u32], woken: &mut [u64]) -> u64
    requires { sum messages.now < 2 ^ 64 }
    ensures { result ≡ sum messages.now }
{
    steady(&mut State::<4>::new(), messages, woken, &Turn::new())
}

#[unsafe(no_mangle)]
pub extern "C" fn esync_bench_priority_steady_64(messages: &[u32], woken: &mut [u64]) -> u64
    requires { sum messages.now < 2 ^ 64 }
    ensures { result ≡ sum messages.now }
{
    steady(&mut State::<64>::new(), messages, woken, &Turn::new())
}

#[unsafe(no_mangle)]
pub extern "C" fn esync_bench_priority_steady_1024(messages: &[u32], woken: &mut [u64]) -> u64
    requires { sum messages.now < 2 ^ 64 }
    ensures { result ≡ sum messages.now }
{
    steady(&mut State::<1024>::new(), messages, woken, &Turn::new())
}
