use crate::wakers::are;
use esync_cells::signal::SignalState;
use esync_cells::signal::machine::{SignalCall, SignalHeard, SignalRun, Wait, run_signal};
use esync_channel::channel::ChannelState;
use esync_channel::channel::machine::{
    ChannelAsk as Ask, ChannelCall as Call, ChannelHeard as Heard, ChannelRun, run_channel,
};
use esync_machine::primitive::{Answer, Command};
use esync_machine::requests::Requests;
use esync_machine::run::{Awaits, Machine, end_request, run};
use esync_notes::{holds, same};
use esync_priority::prio::Max;
use esync_priority::priority_channel;
use esync_priority::priority_channel::machine::{PriorityRun, run_priority_channel};
use std::alloc::AllocError;
use std::process::Abort;

type Run = ChannelRun<u32, u64, 1, 16, 1>;

#[test]
fn a_run_of_a_channel(rt: HostRuntime) -> Result<(), AllocError> {
    let commands = Vec::from_array(
        rt.alloc(),
        [
            Command::Start(1, Ask::Receive),
            Command::Poll(1, 4),
            Command::Call(Call::TrySend(7)),
            Command::Poll(1, 4),
        ],
    )?;
    let mut machine: Run = Requests::new(ChannelState::new());
    let replies = run_channel(rt.alloc(), &mut machine, commands);
    let want = [
        (Answer::Done, None),
        (Answer::Pending, None),
        (Answer::Gives(Heard::TrySent(Ok(()))), Some(4)),
        (Answer::Gives(Heard::Received(7)), None),
    ];
    are(&rt, replies, &want)
}

// A receiver displaces another, which is woken; the message comes, and its task ends before it takes it.
#[test]
fn a_run_in_which_a_receiver_is_displaced(rt: HostRuntime) -> Result<(), AllocError> {
    let commands = Vec::from_array(
        rt.alloc(),
        [
            Command::Start(1, Ask::Receive),
            Command::Poll(1, 1),
            Command::Start(2, Ask::Receive),
            Command::Poll(2, 2),
            Command::Call(Call::TrySend(7)),
            Command::End(2),
            Command::Poll(1, 1),
            Command::Poll(1, 1),
        ],
    )?;
    let mut machine: Run = Requests::new(ChannelState::new());
    let replies = run(rt.alloc(), &mut machine, commands);
    let want = [
        (Answer::Done, None),
        (Answer::Pending, None),
        (Answer::Done, None),
        (Answer::Pending, Some(1)),
        (Answer::Gives(Heard::TrySent(Ok(()))), Some(2)),
        (Answer::Done, None),
        (Answer::Gives(Heard::Received(7)), None),
        (Answer::NoSuch, None),
    ];
    are(&rt, replies, &want)
}

#[test]
fn a_run_of_a_priority_channel(rt: HostRuntime) -> Result<(), AllocError> {
    let commands = Vec::from_array(
        rt.alloc(),
        [
            Command::Start(1, Ask::Receive),
            Command::Poll(1, 4),
            Command::Call(Call::TrySend(7)),
            Command::Poll(1, 4),
        ],
    )?;
    let state = priority_channel::ChannelState::new();
    let mut machine: PriorityRun<u32, u64, Max, 2, 16, 1> = Requests::new(state);
    let replies = run_priority_channel(rt.alloc(), &mut machine, commands);
    let want = [
        (Answer::Done, None),
        (Answer::Pending, None),
        (Answer::Gives(Heard::TrySent(Ok(()))), Some(4)),
        (Answer::Gives(Heard::Received(7)), None),
    ];
    are(&rt, replies, &want)
}

#[test]
fn a_run_of_a_signal(rt: HostRuntime) -> Result<(), AllocError> {
    let commands = Vec::from_array(
        rt.alloc(),
        [
            Command::Start(0, Wait {}),
            Command::Poll(0, 1),
            Command::Call(SignalCall::Signal(5)),
            Command::Poll(0, 1),
        ],
    )?;
    let mut machine: SignalRun<u32, u64, 16, 1> = Requests::new(SignalState::new());
    let replies = run_signal(rt.alloc(), &mut machine, commands);
    let want = [
        (Answer::Done, None),
        (Answer::Pending, None),
        (Answer::Done, Some(1)),
        (Answer::Gives(SignalHeard::Waited(5)), None),
    ];
    are(&rt, replies, &want)
}

// Of a machine of 16 requests.
fn tell_what_they_are<M: Awaits>(rt: &impl Abort, ask: M::Ask)
where
    M::Command: Drop,
{
    let start = M::start(3, ask);
    holds!(rt; M::is_start(&start));
    holds!(rt; !M::is_poll(&start));
    let end = M::end(3);
    holds!(rt; !M::is_start(&end));
    holds!(rt; !M::is_poll(&end));
    same!(rt; M::REQS, 16);
}

#[test]
fn commands_and_replies_tell_what_they_are(rt: HostRuntime) {
    tell_what_they_are::<Run>(&rt, Ask::Receive);
}

#[test]
fn ended_request_is_gone(rt: HostRuntime) {
    let mut machine: Run = Requests::new(ChannelState::new());
    let start = Command::Start(1, Ask::Receive);
    same!(rt; machine.step(start).answer, Answer::Done);
    same!(rt; machine.step(Command::Poll(1, 4)).answer, Answer::Pending);
    same!(rt; end_request(&mut machine, 1).answer, Answer::Done);
    same!(rt; machine.step(Command::Poll(1, 4)).answer, Answer::NoSuch);
    same!(rt; end_request(&mut machine, 1).answer, Answer::NoSuch);
    same!(rt; machine.step(start).answer, Answer::Done);
}
