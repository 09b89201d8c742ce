//! The shared pipe.
mod dynamic;
mod shared;
