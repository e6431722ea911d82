//! Worked orders, from the definitions alone. Each function's contract is the example.
ghost use Rattle.std.specs.Prelude.{◌≡◌, ◌∷◌};
ghost use Rattle.msrp_plan.specs.Common.{[]};
ghost use Rattle.msrp_sim.specs.Orders.{cores_of};
ghost use Rattle.msrp_sim.specs.Examples.{three_cores};
ghost use Rattle.msrp_sim.specs.declared.orders.Order.TheVariants.{Desc, Rot};

/// Three cores in falling order, and going round upwards. (For two cores both directions agree.)
pub fn three_cores()
    ensures falling { cores_of Desc three_cores ≡ 2 ∷ 1 ∷ 0 ∷ 2 ∷ 1 ∷ 0 ∷ 2 ∷ 1 ∷ 0 ∷ [] }
    ensures rotating { cores_of Rot three_cores ≡ 0 ∷ 1 ∷ 2 ∷ 1 ∷ 2 ∷ 0 ∷ 2 ∷ 0 ∷ 1 ∷ [] }
{}
