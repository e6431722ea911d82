//! Why the reading of a text ended early: the source knows, when its reader doesn't.
ghost use Rattle.std.specs.Prelude.{◌≡◌};
ghost use Rattle.msrp_plan.specs.Common.{true, false, OnOk, source_failed};
ghost use Rattle.msrp_engine.specs.Answered.{OrUnread};

use msrp_faults::CliFault;
use msrp_plan::bytes::Source;
use std::io::Read;

/// What ended reading early: a failed read if the source has failed, otherwise memory.
pub fn ending_of<T: Read>(source: &Source<T>) -> CliFault
    ensures read { source_failed source.now ≡ true → result ≡ CliFault.Read }
    ensures memory { source_failed source.now ≡ false → result ≡ CliFault.Memory }
{
    if source.failed() {
        CliFault::Read
    } else {
        CliFault::Memory
    }
}

/// The result made of a text. A source's borrower can't know what ended reading early, but the
/// source can: a failed read only if the source has failed, and memory only if it hasn't.
pub fn settled<A, T: Read>(made: Result<A, CliFault>, source: &Source<T>) -> Result<A, CliFault>
    ensures same { OrUnread result (result ≡ made) }
    ensures made { OnOk made (result ≡ made) }
    ensures read { result ≡ Err CliFault.Read → source_failed source.now ≡ true }
    ensures memory { result ≡ Err CliFault.Memory → source_failed source.now ≡ false }
{
    match made {
        Ok(made) => Ok(made),
        Err(CliFault::Read | CliFault::Memory) => Err(ending_of(source)),
        Err(fault) => Err(fault),
    }
}
