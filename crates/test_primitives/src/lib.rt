//! What neither a clause nor a script says of the primitives: shared forms on threads, clones that are counted or refused, calls
//! that a drop does as well, and each generic call once at a type of its own. `esync shared` plays scripts over the same forms.
#![tactic(auto)]

#[cfg(test)]
mod channels;
pub mod guards;
#[cfg(test)]
mod once;
#[cfg(test)]
mod permits;
#[cfg(test)]
mod pipes;
#[cfg(test)]
mod pubsub;
#[cfg(test)]
mod stopping;
#[cfg(test)]
mod watch;
pub mod zerocopy;
