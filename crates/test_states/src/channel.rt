//! Calls of a channel's state: those that are given a context or none, each of its sizes, and two who wait for one another's turn.
use crate::wakers::hands_out;
use esync_base::store::Store;
use esync_base::waitqueue::{Context, Poll, Wakes};
use esync_channel::channel::{ChannelState, Mailbox, SendRequest, TryReceiveError, TrySendError};
use esync_notes::{holds, same};
use std::process::Abort;

type One = ChannelState<u32, u64, 1>;

// It holds a message, or none.
fn has(rt: &impl Abort, channel: &One, messages: usize) {
    let (free, capacity) = (channel.free_capacity(), channel.capacity());
    same!(rt; (channel.len(), free.wrapping_add(messages), capacity), (messages, 1, 1));
    same!(rt; (channel.is_empty(), channel.is_full()), (messages == 0, messages == 1));
}

fn receives_in_context(
    rt: &impl Abort,
    channel: &mut One,
    cx: Option<&Context<u64>>,
    answer: Result<u32, TryReceiveError>,
    woken: Option<u64>,
) {
    let mut wakes = Wakes::new();
    holds!(rt; channel.try_receive_with_context(cx, &mut wakes) == answer);
    hands_out(rt, &wakes, woken);
}

fn sends_in_context(
    rt: &impl Abort,
    channel: &mut One,
    message: u32,
    cx: Option<&Context<u64>>,
    answer: Result<(), TrySendError<u32>>,
    woken: Option<u64>,
) {
    let mut wakes = Wakes::new();
    holds!(rt; channel.try_send_with_context(message, cx, &mut wakes) == answer);
    hands_out(rt, &wakes, woken);
}

// Who waits for the other is this one, where a context is given, or nobody.
fn sends_and_receives_in_context(rt: &impl Abort, cx: Option<&Context<u64>>, waits: Option<u64>) {
    let mut channel: One = ChannelState::new();
    receives_in_context(rt, &mut channel, cx, Err(TryReceiveError::Empty), None);
    has(rt, &channel, 0);
    sends_in_context(rt, &mut channel, 1, cx, Ok(()), waits);
    has(rt, &channel, 1);
    sends_in_context(rt, &mut channel, 2, cx, Err(TrySendError::Full(2)), None);
    receives_in_context(rt, &mut channel, cx, Ok(1), waits);
}

#[test]
fn context_forms_register_where_they_are_given_one(rt: HostRuntime) {
    sends_and_receives_in_context(&rt, Some(&Context::from_waker(4)), Some(4));
    sends_and_receives_in_context(&rt, None, None);
}

// A poll of a receiver, by this waker.
fn receives(rt: &impl Abort, channel: &mut One, waker: u64, answer: Poll<u32>, woken: Option<u64>) {
    let mut wakes = Wakes::new();
    holds!(rt; channel.poll_receive(&Context::from_waker(waker), &mut wakes) == answer);
    hands_out(rt, &wakes, woken);
}

// A poll of a request that sends, by this waker.
fn sends<S: Store<Message = u32>>(
    rt: &impl Abort,
    channel: &mut Mailbox<S, u64>,
    request: &mut SendRequest<u32>,
    waker: u64,
    answer: Poll<()>,
    woken: Option<u64>,
) {
    let mut wakes = Wakes::new();
    assert!(rt; !request.is_finished());
    holds!(rt; request.poll_state(channel, &Context::from_waker(waker), &mut wakes) == answer);
    hands_out(rt, &wakes, woken);
}

// A send that waits for nothing. It hands out this waker alone, or none.
fn puts<S: Store<Message = u32>>(
    rt: &impl Abort,
    channel: &mut Mailbox<S, u64>,
    message: u32,
    answer: Result<(), TrySendError<u32>>,
    woken: Option<u64>,
) {
    let mut wakes = Wakes::new();
    holds!(rt; channel.try_send(message, &mut wakes) == answer);
    hands_out(rt, &wakes, woken);
}

// A receive that waits for nothing.
fn takes<S: Store<Message = u32>>(
    rt: &impl Abort,
    channel: &mut Mailbox<S, u64>,
    answer: Result<u32, TryReceiveError>,
    woken: Option<u64>,
) {
    let mut wakes = Wakes::new();
    holds!(rt; channel.try_receive(&mut wakes) == answer);
    hands_out(rt, &wakes, woken);
}

#[test]
fn displaced_receiver_is_woken(rt: HostRuntime) {
    let mut channel: One = ChannelState::new();
    receives(&rt, &mut channel, 1, Poll::Pending, None);
    receives(&rt, &mut channel, 2, Poll::Pending, Some(1));
    puts(&rt, &mut channel, 7, Ok(()), Some(2));
    receives(&rt, &mut channel, 1, Poll::Ready(7), None);
}

#[test]
fn displaced_sender_is_woken(rt: HostRuntime) {
    let mut channel: One = ChannelState::new();
    puts(&rt, &mut channel, 1, Ok(()), None);
    let (mut first, mut second) = (SendRequest::new(2), SendRequest::new(3));
    sends(&rt, &mut channel, &mut first, 1, Poll::Pending, None);
    sends(&rt, &mut channel, &mut second, 2, Poll::Pending, Some(1));
    takes(&rt, &mut channel, Ok(1), Some(2));
    sends(&rt, &mut channel, &mut first, 1, Poll::Ready(()), None);
    sends(&rt, &mut channel, &mut second, 2, Poll::Pending, None);
    takes(&rt, &mut channel, Ok(2), Some(2));
}

type Three = ChannelState<u32, u64, 3>;

// A channel that is full, so that a request waits, is cleared.
fn is_cleared(rt: &impl Abort, channel: &mut Three) {
    let mut request = SendRequest::new(2);
    sends(rt, channel, &mut request, 1, Poll::Pending, None);
    let mut wakes = Wakes::new();
    channel.clear(&mut wakes);
    hands_out(rt, &wakes, Some(1));
    sends(rt, channel, &mut request, 1, Poll::Ready(()), None);
    same!(rt; channel.len(), 1);
}

#[test]
fn clear_wakes_the_sender(rt: HostRuntime) {
    let mut channel: Three = ChannelState::new();
    takes(&rt, &mut channel, Err(TryReceiveError::Empty), None);
    for _message in 0..3 {
        puts(&rt, &mut channel, 1, Ok(()), None);
    }
    puts(&rt, &mut channel, 2, Err(TrySendError::Full(2)), None);
    same!(rt; channel.free_capacity(), 0);
    is_cleared(&rt, &mut channel);
}
