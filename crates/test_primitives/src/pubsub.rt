//! Publishers and subscribers: clones that are counted or refused, a sink, what a state shows, and streams of the crate `futures`.
mod clones;
mod shared;
mod states;
mod steps;
mod streams;
