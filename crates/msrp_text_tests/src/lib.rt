//! Tests of the crates that read and write texts, and of the board on which threads meet.
//!
//! They are in a crate above those, which are proved once, without them.
#![tactic(auto)]

#[cfg(test)]
mod board;
#[cfg(test)]
mod text;
#[cfg(test)]
mod trace;
