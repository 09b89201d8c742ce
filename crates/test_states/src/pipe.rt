//! What no recorded run says of a pipe: each of its sizes.
use esync_base::waitqueue::Wakes;
use esync_notes::{holds, same};
use esync_pipe::pipe::PipeState;
use std::process::Abort;

type Three = PipeState<u64, 3>;

// It holds this number of bytes.
fn has(rt: &impl Abort, pipe: &Three, bytes: usize) {
    let (free, capacity) = (pipe.free_capacity(), pipe.capacity());
    same!(rt; (pipe.len(), free.wrapping_add(bytes), capacity), (bytes, 3, 3));
    same!(rt; (pipe.is_empty(), pipe.is_full()), (bytes == 0, bytes == 3));
}

#[test]
fn a_pipe_tells_its_sizes(rt: HostRuntime) {
    let mut pipe: Three = PipeState::new();
    let mut wakes: Wakes<u64, 2> = Wakes::new();
    has(&rt, &pipe, 0);
    holds!(rt; pipe.try_write(&[1], &mut wakes) == Ok(1));
    has(&rt, &pipe, 1);
    holds!(rt; pipe.try_write(&[2, 3, 4], &mut wakes) == Ok(2));
    has(&rt, &pipe, 3);
    pipe.clear(&mut wakes);
    has(&rt, &pipe, 0);
}
