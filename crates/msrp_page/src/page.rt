//! The page of a trace.

use crate::Verdict;
use crate::assets::{HEAD, TAIL};
use crate::counts::report_of;
use crate::data::Data;
use crate::units::TickLength;
use msrp_levels::Levels;
use msrp_picture::{Window, shapes_of};
use msrp_plan::{Memory, Plan, Row};
use std::alloc::Global;

/// What is known of a trace beside its rows: the reasons of the verdict, in words; the rows that
/// don't stand a line after
/// the one before, with their lines, of which 0 is an unknown one; and the length of a tick.
#[derive(Clone, Copy, Debug)]
pub struct Told<'a> {
    pub why: &'a [u8],
    pub lines: &'a [(u32, u64)],
    pub length: Option<TickLength>,
}

// The rows before the fault.
fn legal_rows(rows: &[Row], found: Verdict) -> &[Row] {
    match found {
        Ok(()) => rows,
        Err(fault) => &rows[..rows.len().min((fault.row as usize).saturating_sub(1))],
    }
}

/// A page of a trace with that verdict on its rows.
pub fn html(
    alloc: Global,
    plan: &Plan,
    rows: &[Row],
    found: Verdict,
    told: Told<'_>,
) -> Result<Vec<u8>, Memory> {
    let window = Window {
        from: 0,
        to: plan.ticks(),
    };
    let shapes = shapes_of(alloc, plan, rows, found, window)?;
    let (levels, legal) = (Levels::of(alloc, plan)?, legal_rows(rows, found));
    let report = report_of(alloc, plan, legal)?;
    let mut data = Data::new(String::from_str(alloc, HEAD)?);
    data.sizes(plan, told.length)?;
    data.tasks(plan, &levels)?;
    data.resources(plan, &levels)?;
    data.verdict(found, &shapes, told.why)?;
    data.order(legal)?;
    data.lines(told.lines)?;
    data.report(report.lines.as_slice())?;
    data.blocks(shapes.blocks.as_slice())?;
    data.events(shapes.events.as_slice())?;
    data.text.push_str("}")?;
    data.text.push_str(TAIL)?;
    Ok(data.text.into_bytes())
}
