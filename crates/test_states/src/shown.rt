//! What `Debug` shows of the states: what they hold, and who is registered where.
use esync_base::waitqueue::{Context, Wakes};
use esync_cells::signal::SignalState;
use esync_cells::watch::WatchState;
use esync_channel::channel::ChannelState;
use esync_notes::{holds, same};
use esync_permits::semaphore::{Amount, FairRequest, FairState, GreedyState};
use esync_pipe::pipe::PipeState;
use esync_priority::prio::Max;
use esync_priority::priority_channel;
use std::alloc::{AllocError, Global};
use std::fmt::Debug;
use std::process::Abort;

/// `Debug` shows this.
pub fn shows(
    rt: &impl Abort,
    alloc: Global,
    value: &impl Debug,
    text: &str,
) -> Result<(), AllocError> {
    let shown = format!(in alloc; "{value:?}")?;
    same!(rt; shown.as_str(), text);
    Ok(())
}

// `Debug` shows this among others.
fn shows_among(
    rt: &impl Abort,
    alloc: Global,
    value: &impl Debug,
    text: &str,
) -> Result<(), AllocError> {
    let shown = format!(in alloc; "{value:?}")?;
    holds!(rt; shown.contains(text));
    Ok(())
}

#[test]
fn a_channel_shows_its_messages_and_who_waits(rt: HostRuntime) -> Result<(), AllocError> {
    let mut wakes: Wakes<u64, 1> = Wakes::new();
    let mut channel: ChannelState<u32, u64, 2> = ChannelState::new();
    let _ = channel.poll_receive(&Context::from_waker(3), &mut wakes);
    shows(
        &rt,
        rt.alloc(),
        &channel,
        "Mailbox { receiver_waker: WakerRegistration { waker: Some(3) }, senders_waker: WakerRegistration { waker: None }, queue: [] }",
    )?;
    holds!(rt; channel.try_send(7, &mut wakes).is_ok());
    shows(&rt, rt.alloc(), &wakes, "[3]")?;
    shows(
        &rt,
        rt.alloc(),
        &channel,
        "Mailbox { receiver_waker: WakerRegistration { waker: None }, senders_waker: WakerRegistration { waker: None }, queue: [7] }",
    )
}

#[test]
fn a_priority_channel_shows_its_heap(rt: HostRuntime) -> Result<(), AllocError> {
    let mut wakes: Wakes<u64, 1> = Wakes::new();
    let mut channel: priority_channel::ChannelState<u32, u64, Max, 2> =
        priority_channel::ChannelState::new();
    holds!(rt; channel.try_send(1, &mut wakes).is_ok());
    holds!(rt; channel.try_send(2, &mut wakes).is_ok());
    shows_among(&rt, rt.alloc(), &channel, "queue: [2, 1]")
}

#[test]
fn a_pipe_shows_its_bytes_in_their_places(rt: HostRuntime) -> Result<(), AllocError> {
    let mut wakes: Wakes<u64, 2> = Wakes::new();
    let mut pipe: PipeState<u64, 4> = PipeState::new();
    holds!(rt; pipe.try_write(&[1, 2], &mut wakes).is_ok());
    shows_among(&rt, rt.alloc(), &pipe, "[1, 2, 0, 0]")
}

#[test]
fn semaphores_show_their_permits_and_who_waits(rt: HostRuntime) -> Result<(), AllocError> {
    let greedy: GreedyState<u64> = GreedyState::new(5);
    shows(
        &rt,
        rt.alloc(),
        &greedy,
        "GreedyState { available: 5, waker: WakerRegistration { waker: None } }",
    )?;
    let mut wakes: Wakes<u64, 1> = Wakes::new();
    let mut fair: FairState<u64, 2> = FairState::new(1);
    let mut request = FairRequest::new(Amount::Exactly(3));
    let _ = request.poll_state(&mut fair, &Context::from_waker(8), &mut wakes);
    shows(
        &rt,
        rt.alloc(),
        &fair,
        "FairOver { permits: 1, queue: Queue { entries: [Entry { number: 0, waker: 8 }] } }",
    )
}

#[test]
fn a_signal_and_a_watch_show_their_value(rt: HostRuntime) -> Result<(), AllocError> {
    let mut wakes: Wakes<u64, 1> = Wakes::new();
    let mut signal: SignalState<u32, u64> = SignalState::new();
    signal.signal(4, &mut wakes);
    shows(
        &rt,
        rt.alloc(),
        &signal,
        "SignalState { value: Some(4), waiter: WakerRegistration { waker: None } }",
    )?;
    let watch: WatchState<u32, u64, 2> = WatchState::new_with(6);
    shows(
        &rt,
        rt.alloc(),
        &watch,
        "WatchOver { value: Some(6), version: 0, waiters: [], receivers: 0 }",
    )
}
