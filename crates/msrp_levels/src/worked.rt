//! Worked examples of ceilings, computed from the definitions alone. The contract is the example;
//! its plans are in `msrp_plan`.
ghost use Rattle.std.specs.Prelude.{◌≡◌};
ghost use Rattle.msrp_plan.specs.Common.{local_ceiling, top};
ghost use Rattle.msrp_levels.specs.Users.{ceiling_at};
ghost use Rattle.msrp_plan.specs.Examples.PreemptsASection as preempts_a_section;
ghost use Rattle.msrp_plan.specs.Examples.RaisedWhileHolding as raised_while_holding;

/// A local resource's ceiling is the highest level of its users, here below the core's. A global
/// resource's ceiling is the highest level of the core, here above that of its users.
pub fn ceilings()
    ensures local { ceiling_at preempts_a_section.plan 0 0 ≡ 1 }
    ensures above_local { top preempts_a_section.plan 0 ≡ 2 }
    ensures global { ceiling_at raised_while_holding.plan 0 0 ≡ 2 }
    ensures below_global { local_ceiling raised_while_holding.plan 0 ≡ 1 }
{}
