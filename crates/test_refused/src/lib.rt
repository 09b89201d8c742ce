//! What no clause says of want of memory: a call whose growth is refused says so and changes nothing, and answers when it is made again.
//!
//! `tools/refused-calls` refuses each growth of each test in turn, and each test must pass all the same. One that hears of a refusal
//! says so, by [`says_refused`](memory::says_refused) of what it tries and by `again!` of what it only sets up. Where there is memory for
//! all, as in the gate, each call must answer at once.
#![tactic(auto)]

#[cfg(test)]
mod clones;
#[cfg(test)]
mod executors;
#[cfg(test)]
mod journals;
#[cfg(test)]
mod memory;
#[cfg(test)]
mod readers;
#[cfg(test)]
mod runs;
