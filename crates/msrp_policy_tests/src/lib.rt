//! Tests of the policy's crates: plans, levels, the parts of a core, and an auditor fed row by row.
//!
//! They are in a crate above those, which are proved once, without them.
#![tactic(auto)]

#[cfg(test)]
mod audit;
#[cfg(test)]
mod levels;
#[cfg(test)]
mod limits;
#[cfg(test)]
mod machine;
#[cfg(test)]
mod plan;
#[cfg(test)]
mod plans;
#[cfg(test)]
mod ready;
#[cfg(test)]
mod simulation;
#[cfg(test)]
mod stack;
