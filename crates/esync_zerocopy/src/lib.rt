//! The zero-copy channel: its messages are written and read where they stand.
#![tactic(auto)]

pub mod zerocopy_channel;
