//! Puts what was made of a plan into an empty handle.
ghost use Rattle.std.specs.Prelude.{◌≡◌, ◌⊎◌};
ghost use Rattle.msrp_plan.specs.Common.{Some, None, Ok, Err, IfOk, IfErr, IsOkAnd};
ghost use Rattle.msrp_faults.specs.declared.faults.CliFault.{CliFault};

use crate::content::Content;
use crate::handle::MsrpHandle;
use msrp_audit::Fault;
use msrp_engine::CliFault;
use std::alloc::Global;

/// Puts what was made into an empty handle.
pub(crate) fn open(
    alloc: Global,
    made: Result<Content, CliFault>,
    handle: &mut MsrpHandle,
) -> Result<Result<(), Fault>, CliFault>
    requires { handle.old.value ≡ None }
    ensures held { IfOk result (λ what. (what ≡ Ok tt) × IsOkAnd made (λ content. handle.new.value ≡ Some content)) }
    ensures fault { IfErr result (λ fault. ((fault ≡ CliFault.Memory) ⊎ (made ≡ Err fault)) × (handle.new.value ≡ None)) }
{
    let Ok(content) = Box::new(alloc, made?) else {
        return Err(CliFault::Memory);
    };
    *handle = MsrpHandle::held(content);
    Ok(Ok(()))
}
