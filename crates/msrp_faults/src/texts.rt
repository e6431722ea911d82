//! Texts that are made in memory, or written in one piece.
ghost use Rattle.std.specs.Prelude.{◌≡◌};
ghost use Rattle.msrp_plan.specs.Common.{true, false, IfOk, IfErr, Wrote, sink_failed};
ghost use Rattle.msrp_faults.specs.Outcomes.{answered};
ghost use Rattle.msrp_plan.specs.Bytes.{sink_inner};

use crate::faults::CliFault;
use msrp_plan::bytes::Sink;
use std::io::Write;

/// The text in memory. A write into memory fails if memory runs out.
pub fn gathered_text(text: Sink<Vec<u8>>) -> Result<Vec<u8>, CliFault>
    ensures whole { IfOk result (λ all. (all ≡ sink_inner text) × (sink_failed text ≡ false)) }
    ensures memory { IfErr result (λ fault. (fault ≡ CliFault.Memory) × (sink_failed text ≡ true)) }
{
    if text.failed() {
        return Err(CliFault::Memory);
    }
    Ok(text.into_inner())
}

/// Writes a text in one piece, and returns this answer, or a write fault.
pub fn write_answer<W: Write>(
    out: &mut Sink<W>,
    text: &[u8],
    answer: Result<u8, CliFault>,
) -> Result<u8, CliFault>
    ensures wrote { Wrote W.contents out.old out.new text.now }
    ensures answer { result ≡ answered answer out.new }
{
    out.add(text);
    out.outcome()?;
    answer
}
