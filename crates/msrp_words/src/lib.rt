//! The command line of `msrp`: its commands, with their flags and paths, and its help.
#![tactic(auto)]

mod cli;

pub use cli::{Cmd, command_of, help_text, usage_text};
