//! A mutex or a channel, in one list; and one of three types.

use esync_base::waitqueue::TaskId;
use esync_channel::channel::ChannelState;
use esync_channel::channel::machine::{ChannelAsk, ChannelCall, ChannelHeard};
use esync_guards::mutex::Second;
use esync_guards::mutex::machine::{Guarded, Lock, MutexCall, MutexHeard};
use esync_machine::primitive::{Answer, Command};
use esync_machine::requests::Requests;
use esync_machine::run::run;
use esync_systems::either::Either;
use std::alloc::{AllocError, Global};

type Mutex = Guarded<(u64, u64), u64, Second, TaskId>;

type Channel = ChannelState<u64, TaskId, 1>;

type Object = Requests<Either<Mutex, Channel>, 4, 1>;

type ObjectAsk = Either<Lock, ChannelAsk<u64>>;

type ObjectCall = Either<MutexCall<(u64, u64), u64>, ChannelCall<u64>>;

type ObjectAnswer = Answer<Either<MutexHeard<(u64, u64), u64>, ChannelHeard<u64>>>;

// One of three types.
type Nested = Requests<Either<Mutex, Either<Channel, ChannelState<u64, TaskId, 2>>>, 4, 1>;

fn mutex() -> Object {
    Requests::new(Either::Left(Guarded::new((0, 0), Second {})))
}

fn channel() -> Object {
    Requests::new(Either::Right(ChannelState::new()))
}

// What the object answers, one command after another.
fn answers(
    alloc: Global,
    object: &mut Object,
    commands: Vec<Command<ObjectAsk, TaskId, ObjectCall>>,
) -> Result<Vec<ObjectAnswer>, AllocError> {
    let replies = run(alloc, object, commands)?;
    let mut heard = Vec::with_capacity(alloc, replies.len())?;
    for reply in replies {
        heard.push(reply.answer)?;
    }
    Ok(heard)
}

// A request for each of the two types, each of which is polled.
fn asks_of_both(alloc: Global) -> Result<Vec<Command<ObjectAsk, TaskId, ObjectCall>>, AllocError> {
    Ok(vec![in alloc;
        Command::Start(0, Either::Left(Lock {})),
        Command::Poll(0, TaskId(3)),
        Command::Start(1, Either::Right(ChannelAsk::Receive)),
        Command::Poll(1, TaskId(4)),
    ]?)
}

fn is_no_such(answer: Option<&ObjectAnswer>) -> bool {
    matches!(answer, Some(Answer::NoSuch))
}

#[test]
fn one_list_holds_objects_of_two_types(rt: HostRuntime) -> Result<(), AllocError> {
    let alloc = rt.alloc();
    let mut objects = vec![in alloc; mutex(), channel()]?;
    let mut locks: usize = 0;
    for object in objects.iter_mut() {
        let heard = answers(alloc, object, asks_of_both(alloc)?)?;
        if let Some(Answer::Gives(Either::Left(MutexHeard::Locked))) = heard.get(1) {
            locks = locks.saturating_add(1);
        }
    }
    assert!(&rt; locks == 1);
    Ok(())
}

#[test]
fn what_the_other_type_is_asked_is_not_there(rt: HostRuntime) -> Result<(), AllocError> {
    let heard = answers(rt.alloc(), &mut mutex(), asks_of_both(rt.alloc())?)?;
    assert!(&rt; matches!(heard.first(), Some(Answer::Done)));
    assert!(&rt; is_no_such(heard.get(2)));
    assert!(&rt; is_no_such(heard.get(3)));
    Ok(())
}

#[test]
fn the_object_that_is_there_answers(rt: HostRuntime) -> Result<(), AllocError> {
    let heard = answers(rt.alloc(), &mut channel(), asks_of_both(rt.alloc())?)?;
    assert!(&rt; is_no_such(heard.first()));
    assert!(&rt; is_no_such(heard.get(1)));
    assert!(&rt; matches!(heard.get(2), Some(Answer::Done)));
    assert!(&rt; matches!(heard.get(3), Some(Answer::Pending)));
    Ok(())
}

// The mutex is locked at number 0. A try to receive reaches no number, and leaves the guard as it is.
#[test]
fn a_command_for_the_other_type_names_nothing(rt: HostRuntime) -> Result<(), AllocError> {
    let alloc = rt.alloc();
    let commands = vec![in alloc;
        Command::Call(Either::Left(MutexCall::TryLock(0))),
        Command::Call(Either::Right(ChannelCall::TryReceive)),
        Command::Call(Either::Left(MutexCall::Read(0))),
    ]?;
    let heard = answers(alloc, &mut mutex(), commands)?;
    assert!(&rt; is_no_such(heard.get(1)));
    assert!(&rt;
        matches!(
            heard.get(2),
            Some(Answer::Gives(Either::Left(MutexHeard::Value((0, 0)))))
        )
    );
    Ok(())
}

#[test]
fn one_of_three_types_answers(rt: HostRuntime) -> Result<(), AllocError> {
    let alloc = rt.alloc();
    let mut object: Nested = Requests::new(Either::Right(Either::Right(ChannelState::new())));
    let commands = vec![in alloc;
        Command::Start(0, Either::Right(Either::Right(ChannelAsk::Send(7)))),
        Command::Poll(0, TaskId(3)),
        Command::Start(1, Either::Right(Either::Left(ChannelAsk::Receive))),
        Command::Call(Either::Right(Either::Right(ChannelCall::TryReceive))),
    ]?;
    let replies = run(alloc, &mut object, commands)?;
    let third = replies.get(2);
    assert!(&rt; matches!(third, Some(reply) if matches!(reply.answer, Answer::NoSuch)));
    let last = replies.get(3);
    assert!(&rt;
        matches!(last, Some(reply) if matches!(reply.answer, Answer::Gives(Either::Right(Either::Right(ChannelHeard::TryReceived(Ok(7)))))))
    );
    Ok(())
}
