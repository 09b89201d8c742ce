//! The pipe: bytes on their way from some tasks to others.
#![tactic(auto)]

pub mod bytes;
pub mod pipe;
pub mod ring;
