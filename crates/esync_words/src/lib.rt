//! The language of scripts: lines, words and numbers, the commands that every machine has, what is printed, and the loop.
#![tactic(auto)]

pub mod beside;
pub mod bits;
pub mod copied;
pub mod diagram;
pub mod explain;
pub mod fault;
pub mod lines;
pub mod pages;
pub mod play;
pub mod printing;
pub mod vocabulary;
pub mod words;
