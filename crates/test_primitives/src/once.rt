//! Values that are set once, and those that are made when they are first asked for: worked examples of runs and states.
mod lazy;
mod runs;
mod states;
