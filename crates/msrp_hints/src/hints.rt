//! The hint for a person that follows the line of an outcome.

use crate::files::{failure, read_again};
use crate::refusals::{plan_reason, trace_reason};
use msrp_cli::STANDARD;
use msrp_faults::CliFault;
use msrp_text::read_plan;
use std::fmt::{self, Formatter, Write};

/// The hint if an argument isn't UTF-8, so no command is known.
pub const NOT_UTF8: &str = "error: an argument isn't UTF-8\n";

/// The paths of a command's texts, as given; printed, they are the command that explains them.
#[derive(Clone, Copy, Debug)]
pub struct Paths<'a> {
    pub plan: &'a str,
    pub trace: Option<&'a str>,
}

// A path as one word, in quotes if it has unusual characters: in single ones if a shell reads it
// otherwise in double ones.
#[derive(Clone, Copy)]
struct Word<'a>(&'a str);

impl Word<'_> {
    fn write_quoted<W: Write>(&self, f: &mut Formatter<W>) -> fmt::Result {
        f.write_char('\'')?;
        for c in self.0.chars() {
            f.write_str(if c == '\'' { "'\\'" } else { "" })?;
            f.write_char(c)?;
        }
        f.write_char('\'')
    }
}

impl fmt::Display for Word<'_> {
    fn fmt<W: Write>(&self, f: &mut Formatter<W>) -> fmt::Result {
        let is_usual = |c: char| c.is_ascii_alphanumeric() || "-_./+,:=@%".contains(c);
        let is_special = |c: char| "$`\\!\"".contains(c);
        if !self.0.is_empty() && self.0.chars().all(is_usual) {
            f.write_str(self.0)
        } else if self.0.chars().any(is_special) {
            self.write_quoted(f)
        } else {
            write!(f, "{:?}", self.0)
        }
    }
}

// What a text is called in a sentence.
#[derive(Clone, Copy)]
struct Name<'a>(&'a str);

impl fmt::Display for Name<'_> {
    fn fmt<W: Write>(&self, f: &mut Formatter<W>) -> fmt::Result {
        if self.0 == STANDARD {
            f.write_str("<stdin>")
        } else {
            write!(f, "{}", Word(self.0))
        }
    }
}

impl fmt::Display for Paths<'_> {
    fn fmt<W: Write>(&self, f: &mut Formatter<W>) -> fmt::Result {
        write!(f, "why: msrp_view --why {}", Word(self.plan))?;
        if let Some(trace) = self.trace {
            write!(f, " {}", Word(trace))?;
        }
        if self.plan == STANDARD || self.trace == Some(STANDARD) {
            f.write_str(" (with the same input)")?;
        }
        f.write_char('\n')
    }
}

// What a text is called in a hint.
fn name_of(path: &str) -> &str {
    if path == STANDARD { "<stdin>" } else { path }
}

// Which text can't be read, and why.
fn unread(rt: &HostRuntime, paths: Paths<'_>) -> Result<String, CliFault> {
    for path in [Some(paths.plan), paths.trace].iter().flatten() {
        if let Some(error) = failure(rt, path) {
            let name = Name(path);
            return Ok(format!(in rt.alloc(); "cannot read {name}: {error}\n")?);
        }
    }
    let words = "a text has 16,777,216 bytes or more, or a read of it failed\n";
    Ok(String::from_str(rt.alloc(), words)?)
}

// Why the plan is refused, or else the trace, if all texts can be read again.
fn reason(rt: &HostRuntime, paths: Paths<'_>) -> Result<Option<String>, CliFault> {
    let alloc = rt.alloc();
    let Some(mut plan) = read_again(rt, paths.plan) else {
        return Ok(None);
    };
    let Some(path) = paths.trace else {
        return plan_reason(alloc, name_of(paths.plan), &mut plan);
    };
    match read_again(rt, path) {
        Some(mut trace) => {
            let plan = read_plan(alloc, &mut plan)?;
            trace_reason(alloc, name_of(path), &plan, &mut trace)
        }
        None => Ok(None),
    }
}

/// The lines added to an outcome of a command on these texts; empty if there is nothing to add.
pub fn hint_on(
    rt: &HostRuntime,
    outcome: &Result<u8, CliFault>,
    paths: Paths<'_>,
) -> Result<String, CliFault> {
    let (paths, reason) = match outcome {
        Ok(1) => (paths, None),
        Err(CliFault::Trace { .. }) => (paths, reason(rt, paths)?),
        Err(CliFault::Plan { .. }) => {
            let plan = Paths {
                trace: None,
                ..paths
            };
            (plan, reason(rt, plan)?)
        }
        Err(CliFault::Read) => return unread(rt, paths),
        _ => return Ok(String::new(rt.alloc())),
    };
    match reason {
        Some(reason) => Ok(reason),
        None => Ok(format!(in rt.alloc(); "{paths}")?),
    }
}
