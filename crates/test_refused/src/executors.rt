//! An executor for which there is no memory.
use crate::again;
use crate::memory::says_refused;
use esync_base::waitqueue::TaskId;
use esync_channel::channel::ChannelState;
use esync_channel::channel::machine::{
    ChannelAsk, ChannelCall, ChannelCommand, ChannelHeard, ChannelRun,
};
use esync_history::executor::{Act, Executor, NewError, Outcome};
use esync_machine::primitive::{Answer, Command};
use esync_machine::requests::Requests;
use esync_notes::{holds, same};
use std::alloc::{AllocError, Global};
use std::process::Abort;

type Channel = ChannelRun<u32, TaskId, 1, 1, 1>;

type Acts = Vec<Act<ChannelAsk<u32>, ChannelCommand<u32, TaskId>>>;

const RECEIVED: Answer<ChannelHeard<u32>> = Answer::Gives(ChannelHeard::Received(7));

// A task that receives, and one that sends.
fn two_tasks(alloc: Global) -> Result<Vec<Acts>, AllocError> {
    let receives = vec![in alloc; Act::Await(0, ChannelAsk::Receive)]?;
    let sends = vec![in alloc; Act::Call(Command::Call(ChannelCall::TrySend(7)))]?;
    Ok(vec![in alloc; receives, sends]?)
}

// An executor of the two tasks. The tasks of one that is refused are gone.
fn two_meet(rt: &impl Print, alloc: Global) -> Result<Executor<Channel>, NewError> {
    let channel = Requests::new(ChannelState::new());
    Executor::new(alloc, channel, again!(rt; two_tasks(alloc)))
}

#[test]
fn a_refused_executor_is_made_again(rt: HostRuntime) -> Result<(), NewError> {
    let mut executor = match two_meet(&rt, rt.alloc()) {
        Err(NewError::NoMemory) => {
            says_refused(&rt);
            two_meet(&rt, rt.alloc())?
        }
        made => made?,
    };
    same!(rt; executor.run(10), Outcome::Done);
    match executor.heard(0) {
        Some([reply]) => holds!(rt; reply.answer == RECEIVED),
        _ => rt.abort(),
    }
    Ok(())
}
