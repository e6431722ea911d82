//! Plans from their texts.

use msrp_plan::Plan;
use msrp_plan::bytes::Source;
use msrp_text::read_plan;
use std::alloc::Global;
use std::test::Fail;

/// The plan of a text.
pub fn plan_of(alloc: Global, text: &[u8]) -> Result<Plan, Fail> {
    match read_plan(alloc, &mut Source::new(text)) {
        Ok(plan) => Ok(plan),
        Err(_) => Err(Fail::from("the plan is refused")),
    }
}
