//! Replies of a run for which there is no memory.
use crate::again;
use crate::memory::says_refused;
use esync_channel::channel::ChannelState;
use esync_channel::channel::machine::{
    ChannelCall, ChannelCommand, ChannelHeard, ChannelReply, ChannelRun,
};
use esync_machine::primitive::{Answer, Command};
use esync_machine::requests::Requests;
use esync_machine::run::{Machine, run};
use esync_notes::same;
use std::alloc::{AllocError, Global};
use std::process::Abort;
use std::test::Fail;

type Asked = ChannelCommand<u32, u64>;

type Replied = ChannelReply<u32, u64, 1>;

// How many messages the channel holds.
fn held<M: Machine<Command = Asked, Reply = Replied>>(channel: &mut M) -> Option<usize> {
    match channel.step(Command::Call(ChannelCall::Len)).answer {
        Answer::Gives(ChannelHeard::Number(held)) => Some(held),
        _ => None,
    }
}

fn two_sends(alloc: Global) -> Result<Vec<Asked>, AllocError> {
    let send = Command::Call(ChannelCall::TrySend(7));
    Ok(vec![in alloc; send, send]?)
}

// A run of two sends, which may be refused, and is made again.
fn runs_again<R: Abort + Print, M>(rt: &R, alloc: Global, mut channel: M) -> Result<(), Fail>
where
    M: Machine<Command = Asked, Reply = Replied> + Drop,
{
    let replies = match run(alloc, &mut channel, again!(rt; two_sends(alloc))) {
        Ok(replies) => replies,
        Err(AllocError) => {
            says_refused(rt);
            same!(*rt; held(&mut channel), Some(0));
            run(alloc, &mut channel, two_sends(alloc)?)?
        }
    };
    same!(*rt; replies.len(), 2);
    same!(*rt; held(&mut channel), Some(2));
    Ok(())
}

#[test]
fn a_refused_run_takes_no_step(rt: HostRuntime) -> Result<(), Fail> {
    let channel: ChannelRun<u32, u64, 4, 1, 1> = Requests::new(ChannelState::new());
    runs_again(&rt, rt.alloc(), channel)
}
