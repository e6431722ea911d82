//! What a path opens: a file, or standard input for `-`.

ghost use Rattle.std.specs.Prelude.{◌≡◌, ◌↔◌};
ghost use Rattle.msrp_plan.specs.Common.{codes, IfErr, IfOk, true};
ghost use Rattle.msrp_cli.specs.Inputs.{is_standard};

use msrp_faults::CliFault;
use std::fs::File;
use std::io;
use std::io::Read;

/// The path that names standard input.
pub const STANDARD: &str = "-";

/// What a path names.
#[derive(Drop)]
pub enum Input {
    /// Standard input.
    Standard(io::Stdin),
    /// A file.
    Opened(File),
}

impl Read for Input {
    fn read(&mut self, buf: &mut [u8]) -> io::Result<usize> {
        match self {
            Input::Standard(input) => input.read(buf),
            Input::Opened(file) => file.read(buf),
        }
    }
}

/// Opens a path; `-` is standard input. A file that can't be opened is a read fault, and so is a
/// closed standard input, which an empty read detects.
pub fn open(rt: &HostRuntime, path: &str) -> Result<Input, CliFault>
    ensures input { IfOk result (λ input. (is_standard input ≡ true) ↔ (path.now ≡ codes "-")) }
    ensures fault { IfErr result (λ fault. fault ≡ CliFault.Read) }
{
    if path == STANDARD {
        let mut input = rt.stdin();
        return match input.read(&mut []) {
            Ok(_) => Ok(Input::Standard(input)),
            Err(_) => Err(CliFault::Read),
        };
    }
    match File::open(rt, path) {
        Ok(file) => Ok(Input::Opened(file)),
        Err(_) => Err(CliFault::Read),
    }
}

/// Opens a plan and a trace as `open` does. Standard input goes first: if it were closed, a file
/// opened before would take its number and be read in its place.
pub fn open_both(rt: &HostRuntime, plan: &str, trace: &str) -> Result<(Input, Input), CliFault>
    ensures inputs { IfOk result (λ inputs. ((is_standard (inputs.0) ≡ true) ↔ (plan.now ≡ codes "-")) × ((is_standard (inputs.1) ≡ true) ↔ (trace.now ≡ codes "-"))) }
    ensures fault { IfErr result (λ fault. fault ≡ CliFault.Read) }
{
    if trace == STANDARD {
        let trace = open(rt, trace)?;
        return Ok((open(rt, plan)?, trace));
    }
    let plan = open(rt, plan)?;
    Ok((plan, open(rt, trace)?))
}
