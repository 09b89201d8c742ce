//! What neither a clause, a script nor a recorded run says of the states and of what they are made of, and each kind of run once.
#![tactic(auto)]

#[cfg(test)]
mod channel;
#[cfg(test)]
mod defaults;
#[cfg(test)]
mod deque;
#[cfg(test)]
mod heap;
#[cfg(test)]
mod permit_runs;
#[cfg(test)]
mod permits;
#[cfg(test)]
mod pipe;
#[cfg(test)]
mod pipe_runs;
#[cfg(test)]
mod registrations;
#[cfg(test)]
mod ring_buffer;
#[cfg(test)]
mod runs;
#[cfg(test)]
mod shown;
#[cfg(test)]
mod store_drops;
#[cfg(test)]
mod wakers;
#[cfg(test)]
mod watch;
#[cfg(test)]
mod watch_runs;
