//! The numbers by which C names orders, versions and styles.
ghost use Rattle.std.specs.Prelude.{◌≡◌, ◌⊎◌};
ghost use Rattle.msrp_plan.specs.Common.{Some, None, IfOk, IfErr};
ghost use Rattle.msrp_faults.specs.declared.faults.CliFault.{CliFault};
ghost use Rattle.msrp_sim.specs.Orders.{cores_of};
ghost use Rattle.msrp_c.specs.Numbers.{style_named, turns_named, version_named};

use msrp_engine::CliFault;
use msrp_picture::Style;
use msrp_plan::TextVersion;
use msrp_sim::Order;
use std::alloc::Global;

/// The order of this number. Only order 3 reads the list.
pub(crate) fn order_of(alloc: Global, order: u32, cores: &[u32]) -> Result<Order, CliFault>
    ensures named { IfOk result (λ named. turns_named order cores.now ≡ Some (cores_of named)) }
    ensures unnamed { IfErr result (λ fault. ((fault ≡ CliFault.Memory) × (order ≡ 3)) ⊎ ((fault ≡ CliFault.Usage) × (turns_named order cores.now ≡ None))) }
{
    match order {
        0 => Ok(Order::Asc),
        1 => Ok(Order::Desc),
        2 => Ok(Order::Rot),
        3 => Ok(Order::Given(cores.to_vec(alloc)?)),
        _ => Err(CliFault::Usage),
    }
}

/// The version of this number.
pub(crate) fn version_of(version: u32) -> Option<TextVersion>
    ensures { result ≡ version_named version }
{
    match version {
        1 => Some(TextVersion::V1),
        2 => Some(TextVersion::V2),
        _ => None,
    }
}

/// The style of this number.
pub(crate) fn style_of(style: u32) -> Option<Style>
    ensures { result ≡ style_named style }
{
    match style {
        0 => Some(Style::Text),
        1 => Some(Style::Svg),
        _ => None,
    }
}
