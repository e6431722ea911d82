//! A run of a plan on the caller's own threads, by calls that never wait.
//!
//! A [`HostedRun`] hands out a [`HostedCore`] for each core of the plan. The caller drives each on
//! its own thread, tick by tick: [`HostedCore::turn`] makes the core's row once the board lets the
//! core in, the caller does the job's work, and [`HostedCore::arrive`] ends the turn. After all
//! cores are joined the run is settled; its rows are a legal run of the plan.
//!
//! [`msrp_run::run_threads`] makes the threads itself, from the same two steps.
#![tactic(auto)]

mod cores;
mod run;
mod settled;
mod steps;

pub use cores::HostedCore;
pub use run::{HostedRun, NoCore};
pub use settled::SettledRun;
pub use steps::{CoreStep, Turned};
