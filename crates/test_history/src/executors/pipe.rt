use super::runs::{plays, told};
use esync_base::waitqueue::TaskId;
use esync_history::executor::{Act, NewError, Outcome};
use esync_run::bytes::Bytes;
use esync_run::pipe::{PipeAsk, PipeCall, PipeHeard, PipeRows, PipeRun};
use esync_run::primitive::Answer;
use esync_run::requests::Requests;
use std::alloc::Global;
use std::process::Abort;

// One task writes six bytes to a pipe of four, and another takes so many out, in three turns. Then the pipe holds so many.
fn runs(
    rt: &impl Abort,
    alloc: Global,
    count: usize,
    outcome: Outcome,
    held: usize,
) -> Result<(), NewError> {
    let pipe: PipeRun<TaskId, 4, 6, 2, 2> = Requests::new(PipeRows::new());
    let six = PipeAsk::WriteAll(Bytes::from_slice(&[1, 2, 3, 4, 5, 6]));
    let (writes, reads) = (Act::Await(0, six), Act::Await(1, PipeAsk::Read(count)));
    let turns = [(2, Outcome::Limit, None), (1, outcome, None)];
    let look = (PipeCall::Len, told(Answer::Gives(PipeHeard::Number(held))));
    plays(rt, alloc, pipe, &[], &[&[writes], &[reads]], &turns, look)
}

#[test]
fn a_read_makes_room_for_the_task_that_writes(rt: HostRuntime) -> Result<(), NewError> {
    runs(&rt, rt.alloc(), 4, Outcome::Done, 2)
}

#[test]
fn a_write_of_all_without_room_stalls(rt: HostRuntime) -> Result<(), NewError> {
    runs(&rt, rt.alloc(), 1, Outcome::Stalled, 4)
}
