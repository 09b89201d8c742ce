//! What no clause says of executors and journals: after how many turns a run ends over each machine, what threads that share a recorded
//! machine are answered, that two of them run beside each other, and that real books are audited and settled.
#![tactic(auto)]

#[cfg(test)]
mod books;
#[cfg(test)]
mod executors;
#[cfg(test)]
mod flags;
#[cfg(test)]
mod never;
pub mod seats;
pub mod stalls;
#[cfg(test)]
mod threads;
