//! What follows the line of a fault on standard error, for a person: the system's reason, what is
//! wrong with a refused text, or the command that explains a faulty row.
//!
//! [`are_wanted`] says whether it is written, and [`hint_on`] makes it from the refused text, read
//! again. The texts are tested, not proved.
#![tactic(auto)]

mod files;
mod hints;
mod refusals;
mod wanted;

pub use hints::{NOT_UTF8, Paths, hint_on};
pub use wanted::{are_wanted, is_on_terminal};
