//! What the programs share: reading the command line, its arguments, and opening paths.
#![tactic(auto)]

mod arguments;
mod input;
mod words;

pub use arguments::{
    PLAN, TRACE, both_paths, fault_of_words, flag, is_given, path, value_of, valued, with_arg,
};
pub use input::{Input, STANDARD, open, open_both};
pub use words::words_of;
