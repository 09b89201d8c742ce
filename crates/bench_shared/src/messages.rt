//! The messages of a pass.
use std::alloc::{AllocError, Global};

/// How many messages a pass takes.
const MESSAGES: usize = 65536;

/// Pseudo-random numbers (xorshift of 32 bits).
pub fn messages(alloc: Global) -> Result<Vec<u32>, AllocError> {
    let mut messages = Vec::with_capacity(alloc, MESSAGES)?;
    let mut state = 0x9E37_79B9u32;
    for _ in 0..MESSAGES {
        state ^= state << 13;
        state ^= state >> 17;
        state ^= state << 5;
        messages.push(state)?;
    }
    Ok(messages)
}
