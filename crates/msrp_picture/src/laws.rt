//! A law over what a picture shows: the contract of a function that does nothing.
ghost use Rattle.msrp_plan.specs.Common.{List, Bool};
ghost use Rattle.msrp_plan.specs.declared.rows.Row.{Row};
ghost use Rattle.msrp_picture.specs.Blocks.{EachRowInOneBlock};
ghost use Rattle.msrp_picture.specs.declared.shapes.Lane.{Lane};

/// Each row that a lane shows is in exactly one block. The blocks, taken apart into their ticks,
/// are those rows in their order, and each shows what its row is.
pub fn each_row_in_one_block()
    ensures { (lane : Lane) (is_legal : Bool) (rows : List Row) → EachRowInOneBlock lane is_legal rows }
{}
