//! What no script says of a channel and a priority channel: clones and other forms of their handles and futures, futures that
//! are polled after they were ready, and calls without a context.
use embassy_sync::channel::{
    Channel, DynamicChannel, DynamicReceiveFuture, DynamicReceiver, DynamicSendFuture,
    DynamicSender, Rcv, ReceiveReadyFuture, SharedMailbox, Snd, TryReceiveError, TrySendError,
};
use embassy_sync::priority_channel::{Max, PriorityChannel};
use embassy_sync::store::Store;
use embassy_sync::waitqueue::{Context, Hand, Poll};
use esync_notes::{Notes, holds, woken};
use std::alloc::AllocError;
use std::process::Abort;
use std::sync::Wait;

fn cx(waker: u64) -> Context<u64> {
    Context::from_waker(waker)
}

fn clones_handles<S: Store<Message = u32>, H: Hand<u64>>(
    rt: &impl Abort,
    sender: &Snd<'_, SharedMailbox<S, u64, H>>,
    receiver: &Rcv<'_, SharedMailbox<S, u64, H>>,
) -> Result<(), AllocError> {
    let (other_sender, other_receiver) = (sender.clone()?, receiver.clone()?);
    holds!(rt; other_sender.try_send(1) == Ok(()));
    holds!(rt; sender.len() == 1 && receiver.len() == 1);
    holds!(rt; other_receiver.try_receive() == Ok(1));
    Ok(())
}

fn clones_dynamic_handles<C: DynamicChannel<Message = u32, Waker = u64>>(
    rt: &impl Abort,
    sender: &DynamicSender<'_, C>,
    receiver: &DynamicReceiver<'_, C>,
) -> Result<(), AllocError> {
    holds!(rt; sender.clone()?.try_send(2) == Ok(()));
    holds!(rt; receiver.clone()?.try_receive() == Ok(2));
    Ok(())
}

fn clones<S: Store<Message = u32>, H: Hand<u64>>(
    rt: &impl Abort,
    channel: &SharedMailbox<S, u64, H>,
) -> Result<(), AllocError> {
    let (sender, receiver) = (channel.sender(), channel.receiver());
    clones_handles(rt, &sender, &receiver)?;
    clones_dynamic_handles(rt, &sender.into(), &receiver.into())
}

#[test]
fn cloning(rt: HostRuntime) -> Result<(), AllocError> {
    let notes = Notes::new(&rt);
    clones(&rt, &Channel::<u32, u64, _, 3>::new(&notes))?;
    clones(&rt, &PriorityChannel::<u32, u64, Max, _, 3>::new(&notes))
}

// A future that sends where there is room.
fn sends<C: DynamicChannel<Message = u32, Waker = u64>>(
    rt: &impl Abort,
    mut send: DynamicSendFuture<'_, C>,
) {
    holds!(rt; !send.is_finished());
    holds!(rt; send.poll(&cx(3)) == Poll::Ready(()) && send.is_finished());
}

// A future that takes the one message of the channel waits for another then.
fn receives_anew<C: DynamicChannel<Message = u32, Waker = u64>, R: Wait>(
    rt: &impl Abort,
    notes: &Notes<'_, R>,
    channel: &C,
    mut receive: DynamicReceiveFuture<'_, C>,
) {
    holds!(rt; receive.poll(&cx(1)) == Poll::Ready(8));
    holds!(rt; receive.poll(&cx(1)) == Poll::Pending);
    holds!(rt; channel.try_send(9) == Ok(()));
    woken!(rt, notes, &[1]);
    holds!(rt; receive.poll(&cx(1)) == Poll::Ready(9));
    woken!(rt, notes, &[]);
}

fn acts_anew<S: Store<Message = u32>, H: Hand<u64>, R: Wait>(
    rt: &impl Abort,
    notes: &Notes<'_, R>,
    channel: &SharedMailbox<S, u64, H>,
) {
    sends(rt, channel.send(8).into());
    receives_anew(rt, notes, channel, channel.receive().into());
}

#[test]
fn a_receive_acts_anew_after_it_was_ready(rt: HostRuntime) {
    let notes = Notes::new(&rt);
    acts_anew(&rt, &notes, &Channel::<u32, u64, _, 1>::new(&notes));
    acts_anew(
        &rt,
        &notes,
        &PriorityChannel::<u32, u64, Max, _, 1>::new(&notes),
    );
}

// Two futures that ask whether there is a message, of a channel that holds none.
fn registers_whatever_the_answer<C: DynamicChannel<Message = u32, Waker = u64>, R: Wait>(
    rt: &impl Abort,
    notes: &Notes<'_, R>,
    (mut first, mut second): (ReceiveReadyFuture<'_, C>, ReceiveReadyFuture<'_, C>),
    sender: &DynamicSender<'_, C>,
    receiver: &DynamicReceiver<'_, C>,
) {
    holds!(rt; first.poll(&cx(1)) == Poll::Pending);
    holds!(rt; sender.try_send(1) == Ok(()));
    woken!(rt, notes, &[1]);
    holds!(rt; first.poll(&cx(1)) == Poll::Ready(()));
    holds!(rt; second.poll(&cx(2)) == Poll::Ready(()));
    woken!(rt, notes, &[1]);
    holds!(rt; sender.try_send(2) == Ok(()));
    woken!(rt, notes, &[2]);
    holds!(rt; receiver.try_receive() == Ok(1));
}

#[test]
fn ready_to_receive_registers_whatever_the_answer(rt: HostRuntime) {
    let notes = Notes::new(&rt);
    let channel: Channel<u32, u64, _, 2> = Channel::new(&notes);
    registers_whatever_the_answer(
        &rt,
        &notes,
        (
            channel.ready_to_receive(),
            channel.receiver().ready_to_receive(),
        ),
        &channel.dyn_sender(),
        &channel.dyn_receiver(),
    );
}

// A receiver that waits stays where a call is given no context, and nobody comes to wait by one.
fn registers_nobody<S: Store<Message = u32>, H: Hand<u64>, R: Wait>(
    rt: &impl Abort,
    notes: &Notes<'_, R>,
    channel: &SharedMailbox<S, u64, H>,
) {
    holds!(rt; channel.receive().poll(&cx(1)) == Poll::Pending);
    holds!(rt; channel.try_receive_with_context(None) == Err(TryReceiveError::Empty));
    woken!(rt, notes, &[]);
    holds!(rt; channel.try_send_with_context(5, None) == Ok(()));
    woken!(rt, notes, &[1]);
    holds!(rt; channel.try_send_with_context(6, None) == Err(TrySendError::Full(6)));
    holds!(rt; channel.try_receive_with_context(None) == Ok(5));
    woken!(rt, notes, &[]);
}

#[test]
fn a_call_without_a_context_registers_nobody(rt: HostRuntime) {
    let notes = Notes::new(&rt);
    registers_nobody(&rt, &notes, &Channel::<u32, u64, _, 1>::new(&notes));
    registers_nobody(
        &rt,
        &notes,
        &PriorityChannel::<u32, u64, Max, _, 1>::new(&notes),
    );
}
