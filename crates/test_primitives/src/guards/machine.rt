use esync_base::waitqueue::{Context, Poll, Wakes};
use esync_guards::mutex::machine::{Guarded, Lock, MutexCall, MutexCommand, MutexHeard, MutexRun};
use esync_guards::mutex::{MutexState, Second, TryLockError};
use esync_machine::primitive::{Answer, Command};
use esync_machine::requests::Requests;
use esync_machine::run::Machine;
use esync_notes::{holds, same};
use std::alloc::AllocError;
use std::process::Abort;

type Pairs = MutexRun<(u32, u32), u32, Second, u64, 4, 1>;

type Heard = MutexHeard<(u32, u32), u32>;

// A command, its answer, and the waker that it hands out.
fn gives(
    rt: &impl Abort,
    mutex: &mut Pairs,
    command: MutexCommand<(u32, u32), u32, u64>,
    answer: Answer<Heard>,
    handed_out: Option<u64>,
) {
    let reply = mutex.step(command);
    holds!(rt; reply.answer == answer);
    holds!(rt; reply.wakes.get(0) == handed_out);
}

fn call(
    rt: &impl Abort,
    mutex: &mut Pairs,
    call: MutexCall<(u32, u32), u32>,
    answer: Answer<Heard>,
) {
    gives(rt, mutex, Command::Call(call), answer, None);
}

#[test]
fn what_is_of_another_kind_is_not_there(rt: HostRuntime) {
    let mut mutex: Pairs = Requests::new(Guarded::new((4, 6), Second {}));
    gives(
        &rt,
        &mut mutex,
        Command::Start(0, Lock {}),
        Answer::Done,
        None,
    );
    call(&rt, &mut mutex, MutexCall::Read(0), Answer::NoSuch);
    gives(
        &rt,
        &mut mutex,
        Command::Poll(0, 1),
        Answer::Gives(MutexHeard::Locked),
        None,
    );
    gives(&rt, &mut mutex, Command::Poll(0, 1), Answer::NoSuch, None);
    call(&rt, &mut mutex, MutexCall::WritePart(0, 9), Answer::NoSuch);
    call(&rt, &mut mutex, MutexCall::TryLock(0), Answer::NoSuch);
    let refused = Answer::Gives(MutexHeard::Tried(Err(TryLockError)));
    call(&rt, &mut mutex, MutexCall::TryLock(1), refused);
    call(&rt, &mut mutex, MutexCall::Map(1), Answer::NoSuch);
    call(&rt, &mut mutex, MutexCall::Write(0, (1, 2)), Answer::Done);
    call(&rt, &mut mutex, MutexCall::Map(0), Answer::Done);
    call(&rt, &mut mutex, MutexCall::Map(0), Answer::NoSuch);
    call(&rt, &mut mutex, MutexCall::Write(0, (3, 3)), Answer::NoSuch);
    call(
        &rt,
        &mut mutex,
        MutexCall::Read(0),
        Answer::Gives(MutexHeard::Part(2)),
    );
    call(&rt, &mut mutex, MutexCall::Read(4), Answer::NoSuch);
}

#[test]
fn a_mutex_shows_who_waits(rt: HostRuntime) -> Result<(), AllocError> {
    let mut wakes: Wakes<u64, 1> = Wakes::new();
    let mut mutex: MutexState<u64> = MutexState::new();
    same!(rt;
        mutex.poll_lock(&Context::from_waker(1), &mut wakes),
        Poll::Ready(())
    );
    same!(rt;
        mutex.poll_lock(&Context::from_waker(2), &mut wakes),
        Poll::Pending
    );
    let shown = format!(in rt.alloc(); "{mutex:?}")?;
    same!(rt;
        shown.as_str(),
        "MutexState { locked: true, waker: WakerRegistration { waker: Some(2) } }"
    );
    Ok(())
}
