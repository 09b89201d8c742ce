//! The zero-copy channel: what a loan shows its sender, calls of the whole channel, polls between the two steps of a loan's end,
//! and threads.
#[cfg(test)]
mod ends;
#[cfg(test)]
mod shared;
#[cfg(test)]
mod states;
#[cfg(test)]
mod threads;
pub mod uses;
