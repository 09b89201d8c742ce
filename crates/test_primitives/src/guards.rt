//! The mutex, and a waker that is kept: worked rows of the machine, how the shared form is made and unmade, parts of parts, a try
//! between the two steps of a guard's end, and threads.
#[cfg(test)]
mod ends;
#[cfg(test)]
mod machine;
#[cfg(test)]
mod noop;
#[cfg(test)]
mod shared;
#[cfg(test)]
mod threads;
pub mod uses;
#[cfg(test)]
mod wakers;
