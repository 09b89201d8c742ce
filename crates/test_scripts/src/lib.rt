//! Scripts whose streams fail or come in pieces, what is printed of a reply, and ends at every point by a player that keeps a waker
//! back. Whole scripts are cases of `test_tool`.
#![tactic(auto)]

#[cfg(test)]
mod ends;
#[cfg(test)]
mod ends_of_streams;
#[cfg(test)]
mod explanations;
#[cfg(test)]
mod rows;
#[cfg(test)]
mod scripts;
#[cfg(test)]
mod streams;
