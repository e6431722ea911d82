//! Judges a trace in memory, with the engine of `msrp audit`.
ghost use Rattle.std.specs.Prelude.{◌≡◌};
ghost use Rattle.msrp_plan.specs.Common.{Ok, true};
ghost use Rattle.msrp_examples.specs.Legal.{TellsRun};

use msrp_engine::{CliFault, audit_text};
use msrp_plan::bytes::{Sink, Source};
use std::alloc::Global;
use std::io::Write;

const PLAN: &str = "msrp,1\ncores,1\nticks,3\ntask,pump,0,3,3,0\nop,run,2\n";

const SEEN: &str = "msrp-trace,1,1,3\n0,0,run,pump,0,-\n1,0,idle,-,-,-\n2,0,run,pump,0,-\n";

/// Whether the trace is a legal run of the plan. Writes the line of `msrp audit` to `out`.
#[tactic(auto, using(crate::proofs::Legal::good_tells))]
pub fn is_legal<W: Write>(
    alloc: Global,
    plan: &[u8],
    trace: &[u8],
    out: &mut W,
) -> Result<bool, CliFault>
    ensures { result ≡ Ok true → TellsRun plan.now trace.now }
{
    let mut plan = Source::new(plan);
    let mut trace = Source::new(trace);
    let mut line = Sink::new(out);
    let status = audit_text(alloc, &mut plan, &mut trace, &mut line)?;
    Ok(status == 0)
}

/// Judges a recorded trace: the pump paused in tick 1, though it should have run.
pub fn recorded<W: Write>(alloc: Global, out: &mut W) -> Result<(), &'static str> {
    match is_legal(alloc, PLAN.as_bytes(), SEEN.as_bytes(), out) {
        Ok(_) => Ok(()),
        Err(_) => Err("no verdict"),
    }
}
