use crate::wakers::are;
use esync_machine::primitive::{Answer, Command};
use esync_machine::requests::Requests;
use esync_pipe::bytes::Bytes;
use esync_pipe::pipe::machine::{
    PipeAsk as Ask, PipeCall as Call, PipeHeard as Heard, PipeRows, PipeRun, run_pipe,
};
use std::alloc::AllocError;

#[test]
fn a_run_of_a_pipe(rt: HostRuntime) -> Result<(), AllocError> {
    let bytes = Bytes::from_slice(&[1, 2]);
    let commands = Vec::from_array(
        rt.alloc(),
        [
            Command::Start(0, Ask::Read(2)),
            Command::Poll(0, 9),
            Command::Call(Call::TryWrite(bytes)),
            Command::Poll(0, 9),
        ],
    )?;
    let mut machine: PipeRun<u64, 3, 4, 16, 2> = Requests::new(PipeRows::new());
    let replies = run_pipe(rt.alloc(), &mut machine, commands);
    let want = [
        (Answer::Done, None),
        (Answer::Pending, None),
        (Answer::Gives(Heard::TryWrote(Ok(2))), Some(9)),
        (Answer::Gives(Heard::HasRead(bytes)), None),
    ];
    are(&rt, replies, &want)
}

// An answer has room for all that the pipe holds: 20 bytes.
#[test]
fn an_answer_has_room_for_a_large_pipe(rt: HostRuntime) -> Result<(), AllocError> {
    let bytes = Bytes::from_slice(&[7; 20]);
    let commands = Vec::from_array(
        rt.alloc(),
        [
            Command::Call(Call::TryWrite(bytes)),
            Command::Call(Call::TryFill),
            Command::Call(Call::TryRead(21)),
        ],
    )?;
    let mut machine: PipeRun<u64, 20, 20, 1, 2> = Requests::new(PipeRows::new());
    let replies = run_pipe(rt.alloc(), &mut machine, commands);
    let want = [
        (Answer::Gives(Heard::TryWrote(Ok(20))), None),
        (Answer::Gives(Heard::TryFilled(Ok(bytes))), None),
        (Answer::Gives(Heard::HasTriedRead(Ok(bytes))), None),
    ];
    are(&rt, replies, &want)
}
