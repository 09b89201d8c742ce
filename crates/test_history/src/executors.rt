//! Executors over the machines. Each test runs its tasks by [`plays`](runs::plays), a function over any primitive.
mod cells;
mod channel;
mod counters;
mod mutex;
mod permits;
mod pipe;
mod priority;
mod pubsub;
mod runs;
mod watch;
mod zerocopy;
