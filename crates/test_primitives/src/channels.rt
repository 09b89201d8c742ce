//! Shared channels and the mutex by upstream's paths: what each call answers, and which wakers the hand gets.
mod mailboxes;
mod shared;
