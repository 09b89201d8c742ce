//! What no clause says of tasks that wait: that a sleep ends when its task is woken, that no wake is lost between a poll and the
//! sleep, who is polled and how often, and what threads do together.
#![tactic(auto)]

#[cfg(test)]
mod acts;
#[cfg(test)]
mod futures;
#[cfg(test)]
mod seats;
#[cfg(test)]
mod threads;
#[cfg(test)]
mod turns;
