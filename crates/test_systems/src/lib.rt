//! Small systems with known answers, which a search in another language gives, too.
#![tactic(auto)]

#[cfg(test)]
mod channels;
#[cfg(test)]
mod eithers;
#[cfg(test)]
mod mutexes;
#[cfg(test)]
mod rows;
#[cfg(test)]
mod slots;
#[cfg(test)]
mod thinkers;
#[cfg(test)]
mod topics;
#[cfg(test)]
mod watches;

#[cfg(test)]
use std::alloc::{AllocError, Global};

#[cfg(test)]
fn schedule(alloc: Global, tasks: &[usize]) -> Result<Vec<usize>, AllocError> {
    Vec::from_slice(alloc, tasks)
}
