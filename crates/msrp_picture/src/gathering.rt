//! The items of a chain in a list.
ghost use Rattle.std.specs.Prelude.{◌≡◌};
ghost use Rattle.msrp_plan.specs.Common.{List, length, IfOk, ⊤};
ghost use Rattle.std.specs.Iterator.{DrainsIf, IsFinite};
ghost use Rattle.std.specs.Vec.{vec_len};

use msrp_plan::Memory;
use std::alloc::Global;

/// The items of a chain, in their order. `collect` asks for the room of all first, and goes on if
/// that allocation fails; here each failed allocation is an error.
pub(crate) fn gathered<T: Drop, I: Iterator<Item = T>>(
    items: I,
    alloc: Global,
) -> Result<Vec<T>, Memory>
    requires can { I.can_next items }
    requires finite { IsFinite (I.remaining items) }
    ensures { IfOk result (λ all. (xs : List T) × DrainsIf I.next_gives ⊤ items xs × ((all.items ≡ xs) × (vec_len all ≡ length xs))) }
{
    let mut all = Vec::new(alloc);
    for item in items {
        all.push(item)?;
    }
    Ok(all)
}
