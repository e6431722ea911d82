//! Tests of runs on threads.
//!
//! They are in a crate above the one that runs plans, which is proved once, without them.
#![tactic(auto)]

#[cfg(test)]
mod run;
