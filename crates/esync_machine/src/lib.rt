//! Machines that take commands, whole runs of them, and the machine that a primitive makes with a table of requests.
#![tactic(auto)]

pub mod names;
pub mod primitive;
pub mod requests;
pub mod run;
mod table;
