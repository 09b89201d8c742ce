use esync_cells::lazy_lock::Given;
use esync_cells::lazy_lock::machine::{LazyCall, LazyHolder, LazyRun, NoAsk, run_lazy};
use esync_cells::once_lock::OnceState;
use esync_cells::once_lock::machine::{Get, OnceCall, OnceHeard, OnceRun, run_once};
use esync_machine::primitive::{Answer, Command};
use esync_machine::requests::Requests;
use esync_machine::run::Reply;
use esync_notes::{holds, same};
use std::process::Abort;
use std::test::Fail;

type Replies<'a, A> = &'a [Reply<Answer<A>, u64, 1>];

// Each reply has this answer, and hands out this waker alone or none.
fn are<A: PartialEq>(rt: &impl Abort, replies: Replies<'_, A>, want: &[(Answer<A>, Option<u64>)]) {
    same!(rt; replies.len(), want.len());
    for (reply, (answer, waker)) in replies.iter().zip(want) {
        holds!(rt; reply.answer == *answer);
        same!(rt; reply.wakes.as_slice(), [*waker].as_slice());
    }
}

#[test]
fn a_get_is_answered_once_a_value_was_set(rt: HostRuntime) -> Result<(), Fail> {
    let mut machine: OnceRun<u32, u64, 16, 1> = Requests::new(OnceState::new());
    let commands = vec![in rt.alloc();
        Command::Start(1, Get {}),
        Command::Poll(1, 1),
        Command::Call(OnceCall::Init(42)),
        Command::Poll(1, 1),
        Command::Poll(1, 1),
    ]?;
    let replies = run_once(rt.alloc(), &mut machine, commands)?;
    are(
        &rt,
        replies.as_slice(),
        &[
            (Answer::Done, None),
            (Answer::Pending, Some(1)),
            (Answer::Gives(OnceHeard::HasSet(Ok(()))), None),
            (Answer::Gives(OnceHeard::Got(42)), None),
            (Answer::NoSuch, None),
        ],
    );
    Ok(())
}

type Lazy = LazyRun<u32, Given<u32>, u64, 16, 1>;

#[test]
fn nothing_is_there_once_the_value_was_taken_out(rt: HostRuntime) -> Result<(), Fail> {
    let mut machine: Lazy = Requests::new(LazyHolder::new(Given { value: 7 }));
    let commands = vec![in rt.alloc();
        Command::Call(LazyCall::Get),
        Command::Start(0, NoAsk {}),
        Command::Poll(0, 1),
        Command::Call(LazyCall::Get),
        Command::Call(LazyCall::Into),
        Command::Call(LazyCall::Get),
        Command::Call(LazyCall::Into),
        Command::Start(0, NoAsk {}),
        Command::End(0),
    ]?;
    let replies = run_lazy(rt.alloc(), &mut machine, commands)?;
    are(
        &rt,
        replies.as_slice(),
        &[
            (Answer::Gives(7), None),
            (Answer::NoSuch, None),
            (Answer::NoSuch, None),
            (Answer::Gives(7), None),
            (Answer::Gives(7), None),
            (Answer::NoSuch, None),
            (Answer::NoSuch, None),
            (Answer::NoSuch, None),
            (Answer::NoSuch, None),
        ],
    );
    Ok(())
}

#[test]
fn the_value_can_be_taken_out_at_once(rt: HostRuntime) -> Result<(), Fail> {
    let mut machine: Lazy = Requests::new(LazyHolder::new(Given { value: 8 }));
    let commands = vec![in rt.alloc(); Command::Call(LazyCall::Into)]?;
    let replies = run_lazy(rt.alloc(), &mut machine, commands)?;
    are(&rt, replies.as_slice(), &[(Answer::Gives(8), None)]);
    Ok(())
}
