//! Which wakers a call and the steps of a run hand out.
use esync_base::waitqueue::Wakes;
use esync_machine::primitive::Answer;
use esync_machine::run::Reply;
use esync_notes::{holds, same};
use std::alloc::AllocError;
use std::process::Abort;

/// The wakers that were handed out are this one alone, or none.
pub fn hands_out(rt: &impl Abort, wakes: &Wakes<u64, 1>, waker: Option<u64>) {
    same!(rt; wakes.as_slice(), [waker].as_slice());
}

type Replies<A, const K: usize> = Result<Vec<Reply<Answer<A>, u64, K>>, AllocError>;

// A reply has this answer, and hands out this waker alone or none.
fn is<A: PartialEq, const K: usize>(
    rt: &impl Abort,
    reply: &Reply<Answer<A>, u64, K>,
    answer: &Answer<A>,
    waker: Option<u64>,
) {
    holds!(rt; reply.answer == *answer);
    same!(rt; (reply.wakes.get(0), reply.wakes.get(1)), (waker, None));
}

/// Each reply has this answer, and hands out this waker alone or none.
pub fn are<A: PartialEq + Drop, const K: usize>(
    rt: &impl Abort,
    replies: Replies<A, K>,
    want: &[(Answer<A>, Option<u64>)],
) -> Result<(), AllocError> {
    let replies = replies?;
    same!(rt; replies.len(), want.len());
    for (reply, (answer, waker)) in replies.iter().zip(want) {
        is(rt, reply, answer, *waker);
    }
    Ok(())
}
