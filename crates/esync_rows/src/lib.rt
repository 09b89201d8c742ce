//! Rows of places without tags, which upstream has as `MaybeUninit`. Their memory is the row's own; nothing is
//! allocated.
#![tactic(auto)]

pub mod place;
pub mod row;
