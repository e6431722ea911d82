//! What there is to see in a picture, and the picture.
ghost use Rattle.std.specs.Prelude.{◌≡◌, ◌<◌, ◌++◌, filter};
ghost use Rattle.msrp_plan.specs.Common.{[], IfOk, OnOk};
ghost use Rattle.msrp_audit.specs.Audits.{HasFed};
ghost use Rattle.msrp_picture.specs.Blocks.{ceilings};
ghost use Rattle.msrp_picture.specs.Shapes.{AreShapes, IsExpected, blocks, cores_blocks, events, lives_blocks, queues_blocks, tasks_blocks, violation};
ghost use Rattle.msrp_picture.specs.Rows.{is_seen, later_rows, legal_rows};

use crate::blocks::push_rows;
use crate::elements::svg;
use crate::gathering::gathered;
use crate::lanes::{ceilings_of, push_ceilings, push_queue, push_sections};
use crate::lives::{Life, lives_of};
use crate::plain::text;
use crate::scene::Scene;
use crate::shapes::{Block, Event, Lane, Look, Moment, Shapes, Violation};
use crate::windows::{Asked, Style, Window, shown_window};
use crate::{Added, Verdict};
use msrp_audit::Auditor;
use msrp_levels::Levels;
use msrp_plan::{CoreId, Memory, Plan, ResId, Row, TaskId};
use std::alloc::Global;

// Who runs on each core, and its ceilings as long as the rows are legal.
fn push_cores(blocks: &mut Vec<Block>, scene: &Scene<'_>, after: &[(Row, u32)]) -> Added
    requires { after.now ≡ ceilings scene.now.plan.now [] scene.now.rows.now }
    ensures { OnOk result (blocks.new.items ≡ blocks.old.items ++ cores_blocks scene.now.plan.now scene.now.rows.now scene.now.later.now) }
{
    for core in 0..scene.plan.cores() {
        push_rows(blocks, scene, Lane::Core(CoreId(core)))?;
        push_ceilings(blocks, scene, after, CoreId(core))?;
    }
    Ok(())
}

// What the jobs of each task do, and their critical sections as long as the rows are legal.
fn push_tasks(blocks: &mut Vec<Block>, scene: &Scene<'_>) -> Added
    ensures { OnOk result (blocks.new.items ≡ blocks.old.items ++ tasks_blocks scene.now.plan.now scene.now.rows.now scene.now.later.now) }
{
    for task in 0..scene.plan.tasks() {
        let own = scene.rows_of(TaskId(task))?;
        push_rows(blocks, scene, Lane::Task(TaskId(task)))?;
        push_sections(blocks, TaskId(task), scene.ticks_begun(), &own)?;
    }
    Ok(())
}

fn push_queues(blocks: &mut Vec<Block>, scene: &Scene<'_>) -> Added
    ensures { OnOk result (blocks.new.items ≡ blocks.old.items ++ queues_blocks scene.now.plan.now scene.now.rows.now) }
{
    for res in 0..scene.plan.resources() {
        if scene.levels.is_global(ResId(res)) {
            push_queue(blocks, scene, ResId(res))?;
        }
    }
    Ok(())
}

fn lives_blocks(scene: &Scene<'_>, lives: &[Life]) -> Result<Vec<Block>, Memory>
    ensures { IfOk result (λ all. all.items ≡ lives_blocks lives.now) }
{
    let all = lives.iter();
    let all = all.map(|life| life.block(Look::Life(life.is_finished), life.release));
    let late = lives.iter();
    let late = late.map(|life| life.block(Look::Late, life.deadline));
    gathered(all.chain(late), scene.alloc)
}

// All blocks of the trace.
fn blocks_of(scene: &Scene<'_>, lives: &[Life], after: &[(Row, u32)]) -> Result<Vec<Block>, Memory>
    requires { after.now ≡ ceilings scene.now.plan.now [] scene.now.rows.now }
    ensures { IfOk result (λ all. all.items ≡ blocks scene.now.plan.now scene.now.rows.now scene.now.later.now lives.now) }
{
    let mut blocks = lives_blocks(scene, lives)?;
    push_cores(&mut blocks, scene, after)?;
    push_tasks(&mut blocks, scene)?;
    push_queues(&mut blocks, scene)?;
    Ok(blocks)
}

// The blocks of which some ticks are drawn.
fn seen(scene: &Scene<'_>, blocks: &[Block]) -> Result<Vec<Block>, Memory>
    ensures { IfOk result (λ all. all.items ≡ filter (is_seen scene.now.window) blocks.now) }
{
    let window = scene.window;
    let drawn = blocks.iter().copied();
    gathered(drawn.filter(|block| window.has_block(block)), scene.alloc)
}

fn events_of(scene: &Scene<'_>, lives: &[Life]) -> Result<Vec<Event>, Memory>
    ensures { IfOk result (λ all. all.items ≡ events scene.now.window lives.now) }
{
    let window = scene.window;
    let releases = lives.iter();
    let releases = releases.map(|life| life.event(Moment::Release, life.release));
    let deadlines = lives.iter();
    let deadlines = deadlines.map(|life| life.event(Moment::Deadline, life.deadline));
    let finished = lives.iter().filter(|life| life.is_finished);
    let completions = finished.map(|life| life.event(Moment::Completion, life.end));
    let all = releases.chain(deadlines).chain(completions);
    gathered(all.filter(|event| window.has_event(event)), scene.alloc)
}

fn violation_of(scene: &Scene<'_>) -> Option<Violation>
    ensures { result ≡ violation scene.now.later.now scene.now.found }
{
    match (scene.found, scene.later) {
        (Err(fault), [row, ..]) => Some(Violation {
            row: *row,
            rule: fault.rule,
        }),
        _ => None,
    }
}

// The row that is expected of the core of the first one that violates a rule, if its turn in the
// tick is still to come.
fn expected_of(
    scene: &Scene<'_>,
    auditor: &Auditor<'_>,
    violation: Option<Violation>,
) -> Result<Option<Row>, Memory>
    requires plan { auditor.now.plan ≡ scene.now.plan.now }
    requires fed { HasFed auditor.now scene.now.rows.now }
    ensures { IfOk result (IsExpected scene.now.plan.now scene.now.rows.now violation) }
{
    match violation {
        Some(Violation { row, .. }) if auditor.is_due(row.core) => {
            Ok(Some(auditor.due_row(scene.alloc, row.core)?))
        }
        _ => Ok(None),
    }
}

fn shapes_in(scene: &Scene<'_>) -> Result<Shapes, Memory>
    ensures { IfOk result (AreShapes scene.now.plan.now scene.now.rows.now scene.now.later.now scene.now.found scene.now.window) }
{
    let mut auditor = Auditor::with_room(scene.alloc, scene.plan, scene.levels)?;
    let ceilings = ceilings_of(scene, &mut auditor)?;
    let lives = lives_of(scene)?;
    let blocks = blocks_of(scene, &lives, &ceilings)?;
    let violation = violation_of(scene);
    Ok(Shapes {
        blocks: seen(scene, &blocks)?,
        events: events_of(scene, &lives)?,
        violation,
        expected: expected_of(scene, &auditor, violation)?,
    })
}

/// What there is to see in the ticks of a window, with that verdict on the rows of a trace.
pub fn shapes_of(
    alloc: Global,
    plan: &Plan,
    rows: &[Row],
    found: Verdict,
    window: Window,
) -> Result<Shapes, Memory>
    ensures { IfOk result (AreShapes plan.now (legal_rows rows.now found) (later_rows rows.now found) found window) }
{
    let levels = Levels::of(alloc, plan)?;
    shapes_in(&Scene::of(&levels, plan, rows, found, window, alloc))
}

/// A picture of a trace with that verdict on its rows, and the sentence of a violated rule. If a
/// rule is violated and no ticks are asked for, it shows the ticks around the fault, and else those
/// of the window.
pub fn draw(
    alloc: Global,
    plan: &Plan,
    rows: &[Row],
    found: Verdict,
    asked: Asked,
    window: Window,
    rule: &str,
) -> Result<Vec<u8>, Memory>
    requires { window.from < window.to }
{
    let window = shown_window(plan, asked, window, found);
    let levels = Levels::of(alloc, plan)?;
    let scene = Scene::of(&levels, plan, rows, found, window, alloc);
    let shapes = shapes_in(&scene)?;
    let picture = match asked.style {
        Style::Text => text(&scene, &shapes)?,
        Style::Svg => svg(&scene, &shapes, rule)?,
    };
    Ok(picture.into_bytes())
}
