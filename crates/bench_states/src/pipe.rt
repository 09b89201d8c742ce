//! Passes over a pipe: each message is the last byte of a block of bytes, and a block goes in and comes out again.
ghost use Rattle.std.specs.Prelude.{◌≡◌, ◌<◌, ◌≤◌, ◌^◌, ◌++◌, length, drop, sum};

use crate::tasks::{Turn, hand_out};
use esync_base::waitqueue::{Context, TaskId, Wakes};
use esync_pipe::pipe::PipeState;

type State<const N: usize> = PipeState<TaskId, N>;

// The block is written, all of it, into a pipe that holds nothing.
fn send<const N: usize>(state: &mut State<N>, block: &[u8], woken: &mut [u64], turn: &Turn)
    requires empty { length state.old.ring.items ≡ 0 }
    requires some { 0 < length block.now }
    requires room { length block.now ≤ N }
    ensures { state.new.ring.items ≡ block.now }
{
    let mut wakes: Wakes<TaskId, 1> = Wakes::new();
    let _ = state.try_write(block, &mut wakes);
    hand_out(&wakes, woken);
    turn.next();
}

// The bytes are read, all of them, into a row that has a place for each.
fn receive<const N: usize>(state: &mut State<N>, row: &mut [u8], woken: &mut [u64], turn: &Turn)
    requires { length state.old.ring.items ≤ length row.old }
    ensures empty { length state.new.ring.items ≡ 0 }
    ensures row { row.new ≡ state.old.ring.items ++ drop (length state.old.ring.items) row.old }
    ensures whole { length state.old.ring.items ≡ length row.old → row.new ≡ state.old.ring.items }
{
    let mut wakes: Wakes<TaskId, 1> = Wakes::new();
    let _ = state.try_read(row, &mut wakes);
    hand_out(&wakes, woken);
    turn.next();
}

// The same, for a task that waits for bytes where there are none.
fn poll<const N: usize>(
    state: &mut State<N>,
    cx: &Context<TaskId>,
    row: &mut [u8],
    woken: &mut [u64],
    turn: &Turn,
)
    requires { length state.old.ring.items ≤ length row.old }
    ensures empty { length state.new.ring.items ≡ 0 }
    ensures row { row.new ≡ state.old.ring.items ++ drop (length state.old.ring.items) row.old }
    ensures whole { length state.old.ring.items ≡ length row.old → row.new ≡ state.old.ring.items }
{
    let mut wakes: Wakes<TaskId, 1> = Wakes::new();
    let _ = state.try_read_with_context(Some(cx), row, &mut wakes);
    hand_out(&wakes, woken);
    turn.next();
}

// The message is written at the end of a block, and is at the end of what is read.
fn carry<const N: usize>(
    state: &mut State<N>,
    block: &mut [u8],
    row: &mut [u8],
    message: u8,
    woken: &mut [u64],
    turn: &Turn,
) -> u8
    requires empty { length state.old.ring.items ≡ 0 }
    requires some { 0 < length block.old }
    requires room { length block.old ≤ N }
    requires row { length row.old ≡ length block.old }
    ensures message { result ≡ message }
    ensures empty { length state.new.ring.items ≡ 0 }
    ensures row { row.new ≡ block.new }
    ensures length { length block.new ≡ length block.old }
{
    let last = block.len() - 1;
    block[last] = message;
    send(state, block, woken, turn);
    receive(state, row, woken, turn);
    row[last]
}

// Task 0 polls for bytes and waits, the message is written at the end of a block, which wakes it, and it polls again and has the
// block.
fn wait_and_carry<const N: usize>(
    state: &mut State<N>,
    block: &mut [u8],
    row: &mut [u8],
    message: u8,
    woken: &mut [u64],
    turn: &Turn,
) -> u8
    requires empty { length state.old.ring.items ≡ 0 }
    requires some { 0 < length block.old }
    requires room { length block.old ≤ N }
    requires row { length row.old ≡ length block.old }
    ensures message { result ≡ message }
    ensures empty { length state.new.ring.items ≡ 0 }
    ensures row { row.new ≡ block.new }
    ensures length { length block.new ≡ length block.old }
{
    let cx = Context::from_waker(TaskId(0));
    let last = block.len() - 1;
    block[last] = message;
    poll(state, &cx, row, woken, turn);
    send(state, block, woken, turn);
    poll(state, &cx, row, woken, turn);
    row[last]
}

// Each message is written at the end of a block, and the block is read.
#[inline(never)]
fn write_and_read<const N: usize>(
    state: &mut State<N>,
    block: &mut [u8],
    row: &mut [u8],
    messages: &[u8],
    woken: &mut [u64],
    turn: &Turn,
) -> u64
    requires empty { length state.old.ring.items ≡ 0 }
    requires some { 0 < length block.old }
    requires room { length block.old ≤ N }
    requires row { length row.old ≡ length block.old }
    requires fits { sum messages.now < 2 ^ 64 }
    ensures { result ≡ sum messages.now }
{
    let mut total = 0;
    for message in messages {
        total += u64::from(carry(state, block, row, *message, woken, turn));
    }
    total
}

// The same, and each block is waited for.
#[inline(never)]
fn wait_and_wake<const N: usize>(
    state: &mut State<N>,
    block: &mut [u8],
    row: &mut [u8],
    messages: &[u8],
    woken: &mut [u64],
    turn: &Turn,
) -> u64
    requires empty { length state.old.ring.items ≡ 0 }
    requires some { 0 < length block.old }
    requires room { length block.old ≤ N }
    requires row { length row.old ≡ length block.old }
    requires fits { sum messages.now < 2 ^ 64 }
    ensures { result ≡ sum messages.now }
{
    let mut total = 0;
    for message in messages {
        total += u64::from(wait_and_carry(state, block, row, *message, woken, turn));
    }
    total
}

#[unsafe(no_mangle)]
pub extern "C" fn esync_bench_pipe_byte(messages: &[u8], woken: &mut [u64]) -> u64
    requires { sum messages.now < 2 ^ 64 }
    ensures { result ≡ sum messages.now }
{
    let mut state = State::<16>::new();
    write_and_read(
        &mut state,
        &mut [0; 1],
        &mut [0; 1],
        messages,
        woken,
        &Turn::new(),
    )
}

#[unsafe(no_mangle)]
pub extern "C" fn esync_bench_pipe_16(messages: &[u8], woken: &mut [u64]) -> u64
    requires { sum messages.now < 2 ^ 64 }
    ensures { result ≡ sum messages.now }
{
    let mut state = State::<64>::new();
    write_and_read(
        &mut state,
        &mut [0; 16],
        &mut [0; 16],
        messages,
        woken,
        &Turn::new(),
    )
}

#[unsafe(no_mangle)]
pub extern "C" fn esync_bench_pipe_1024(messages: &[u8], woken: &mut [u64]) -> u64
    requires { sum messages.now < 2 ^ 64 }
    ensures { result ≡ sum messages.now }
{
    let mut state = State::<1024>::new();
    write_and_read(
        &mut state,
        &mut [0; 1024],
        &mut [0; 1024],
        messages,
        woken,
        &Turn::new(),
    )
}

#[unsafe(no_mangle)]
pub extern "C" fn esync_bench_pipe_1024_of_1500(messages: &[u8], woken: &mut [u64]) -> u64
    requires { sum messages.now < 2 ^ 64 }
    ensures { result ≡ sum messages.now }
{
    let mut state = State::<1500>::new();
    write_and_read(
        &mut state,
        &mut [0; 1024],
        &mut [0; 1024],
        messages,
        woken,
        &Turn::new(),
    )
}

#[unsafe(no_mangle)]
pub extern "C" fn esync_bench_pipe_wait_and_wake(messages: &[u8], woken: &mut [u64]) -> u64
    requires { sum messages.now < 2 ^ 64 }
    ensures { result ≡ sum messages.now }
{
    let mut state = State::<32>::new();
    wait_and_wake(
        &mut state,
        &mut [0; 16],
        &mut [0; 16],
        messages,
        woken,
        &Turn::new(),
    )
}
