use crate::wakers::are;
use crate::watch::{Asked, Below};
use esync_cells::watch::Exhausted;
use esync_cells::watch::machine::{
    Reading, WatchCall as Call, WatchCommand, WatchHeard as Heard, WatchRun, Watched, run_watch,
};
use esync_machine::primitive::{Answer, Command};
use esync_machine::requests::Requests;
use esync_notes::holds;
use std::alloc::{AllocError, Global};
use std::cell::Cell;

type Watch<'a> = WatchRun<u32, u64, Asked<'a>, Below, 1, 16, 16, 1>;

type Commands<'a> = Vec<WatchCommand<u32, u64, Asked<'a>, Below>>;

// Two values are sent, and two changes, of which both would note that they were asked.
fn commands<'a>(alloc: Global, asked: &'a Cell<bool>) -> Result<Commands<'a>, AllocError> {
    Ok(vec![in alloc;
        Command::Call(Call::Receiver(0)),
        Command::Call(Call::Send(1)),
        Command::Call(Call::Send(2)),
        Command::Call(Call::Modify(Asked(asked))),
        Command::Call(Call::ModifyIf(Asked(asked))),
        Command::Call(Call::Read(0, Reading::Changed)),
        Command::Call(Call::Clear),
        Command::Call(Call::TryGet),
    ]?)
}

#[test]
fn a_run_to_the_last_version(rt: HostRuntime) -> Result<(), AllocError> {
    let asked = Cell::new(false);
    let mut machine: Watch<'_> = Requests::new(Watched::new_at(u64::MAX - 1));
    let commands = commands(rt.alloc(), &asked)?;
    let replies = run_watch(rt.alloc(), &mut machine, commands);
    are(
        &rt,
        replies,
        &[
            (Answer::Gives(Heard::Counted(true)), None),
            (Answer::Gives(Heard::Sent(Ok(()))), None),
            (Answer::Gives(Heard::Sent(Err(Exhausted(2)))), None),
            (Answer::Gives(Heard::Modified(Err(Exhausted(())))), None),
            (Answer::Gives(Heard::Modified(Err(Exhausted(())))), None),
            (Answer::Gives(Heard::Found(Some(1))), None),
            (Answer::Done, None),
            (Answer::Gives(Heard::Found(None)), None),
        ],
    )?;
    holds!(rt; !asked.get());
    Ok(())
}
