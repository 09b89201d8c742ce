use super::bell::Bell;
use embassy_sync::pipe::Pipe;
use embassy_sync::waitqueue::Context;
use std::io;
use std::sync::Wait;

/// A bounded pipe, with a buffer of 256 bytes.
pub fn example<R: Print + Wait>(rt: &R) -> io::Result<()> {
    let bell = Bell::new(rt);
    let mut pipe: Pipe<u64, _, 256> = Pipe::new(&bell);
    let (mut reader, writer) = pipe.split();
    let mut bytes = [0u8; 8];
    let task = Context::from_waker(1);
    let waits = reader.read(&mut bytes).poll(&task);
    let written = writer.write(b"ping").poll(&Context::from_waker(2));
    let woken = bell.rung_for();
    let read = reader.read(&mut bytes).poll(&task);
    println!(rt; "pipe: {waits:?}, {written:?}, to wake {woken:?}, {read:?} {bytes:?}")
}
