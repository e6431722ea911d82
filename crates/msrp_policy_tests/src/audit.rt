//! An auditor fed row by row: the handover of a global resource between two cores within a tick.
ghost use Rattle.std.specs.Prelude.{◌≡◌};
ghost use Rattle.msrp_plan.specs.Common.{Some, true, has_shape};
ghost use Rattle.msrp_plan.specs.declared.ids.JobId.{JobId as Job};
ghost use Rattle.msrp_plan.specs.declared.ids.ResId.{ResId as Resource};

use crate::plans::plan_of;
use msrp_audit::Auditor;
use msrp_levels::Levels;
use msrp_plan::{CoreId, Fault, JobId, Kind, Plan, ResId, Row, Rule, TaskId, Trace};
use msrp_sim::{Order, simulate};
use std::alloc::Global;
use std::test::Fail;

const G: ResId = ResId(0);

// The k-th job of a task.
pub(crate) fn job(task: u32, k: u32) -> JobId {
    JobId {
        task: TaskId(task),
        k,
    }
}

pub(crate) fn idle(tick: u32, core: u32) -> Row {
    Row {
        tick,
        core: CoreId(core),
        kind: Kind::Idle,
        job: None,
        res: None,
        ahead: None,
    }
}

pub(crate) fn run(tick: u32, core: u32, job: JobId) -> Row {
    Row {
        tick,
        core: CoreId(core),
        kind: Kind::Run,
        job: Some(job),
        res: None,
        ahead: None,
    }
}

// A row of the first job of a task, on the resource.
pub(crate) fn on(tick: u32, core: u32, kind: Kind, task: u32) -> Row
    requires { (j : Job) (g : Resource) → has_shape kind (Some j) (Some g) ≡ true }
{
    Row {
        tick,
        core: CoreId(core),
        kind,
        job: Some(job(task, 0)),
        res: Some(G),
        ahead: None,
    }
}

// Two cores and one resource, which task 0 of core 0 and task 1 of core 1 want in tick 0.
pub(crate) const PLAN: &[u8] =
    b"msrp,1\ncores,2\nticks,6\nresource,g\ntask,a,0,20,8,0\nop,lock,g\nop,run,1\nop,unlock,g\ntask,b,1,20,8,0\nop,lock,g\nop,run,1\nop,unlock,g\n";

// Core 1 gets the resource in the tick in which core 0 releases it.
pub(crate) fn handover() -> [Row; 12] {
    [
        on(0, 0, Kind::Take, 0),
        on(0, 1, Kind::Queue, 1),
        run(1, 0, job(0, 0)),
        on(1, 1, Kind::Spin, 1),
        on(2, 0, Kind::Release, 0),
        on(2, 1, Kind::Grant, 1),
        idle(3, 0),
        run(3, 1, job(1, 0)),
        idle(4, 0),
        on(4, 1, Kind::Release, 1),
        idle(5, 0),
        idle(5, 1),
    ]
}

// The auditor's input, and the expected answer.
#[derive(Clone, Copy)]
enum Told {
    Feed(Row, Result<(), Fault>),
    End(Result<(), Fault>),
}

use Told::{End, Feed};

fn answers(auditor: &mut Auditor<'_>, told: Told) -> bool {
    match told {
        Feed(row, due) => auditor.feed(row) == due,
        End(due) => auditor.end() == due,
    }
}

// The index of the first wrong answer.
fn first_wrong(auditor: &mut Auditor<'_>, all: &[Told]) -> Option<usize> {
    for (at, told) in all.iter().enumerate() {
        if !answers(auditor, *told) {
            return Some(at);
        }
    }
    None
}

fn wrong(alloc: Global, all: &[Told]) -> Result<Option<usize>, Fail> {
    let plan = plan_of(alloc, PLAN)?;
    let levels = Levels::of(alloc, &plan)?;
    let mut auditor = Auditor::with_room(alloc, &plan, &levels)?;
    Ok(first_wrong(&mut auditor, all))
}

pub(crate) fn fault(row: u32, rule: Rule) -> Result<(), Fault> {
    Err(Fault { row, rule })
}

#[test]
fn a_fault_stays(rt: HostRuntime) -> Result<(), Fail> {
    let [a, b, c, d, e, _, g, h, i, j, k, l] = handover();
    let spun = fault(6, Rule::A5);
    let all = [
        Feed(a, Ok(())),
        Feed(b, Ok(())),
        Feed(c, Ok(())),
        Feed(d, Ok(())),
        Feed(e, Ok(())),
        End(fault(6, Rule::A6)),
        Feed(on(2, 1, Kind::Spin, 1), spun),
        Feed(g, spun),
        Feed(h, spun),
        Feed(i, spun),
        Feed(j, spun),
        Feed(k, spun),
        Feed(l, spun),
        End(spun),
    ];
    assert_eq!(rt; wrong(rt.alloc(), &all)?, None);
    Ok(())
}

#[test]
fn a_row_too_many_is_told(rt: HostRuntime) -> Result<(), Fail> {
    let [a, b, c, d, e, f, g, h, i, j, k, l] = handover().map(|row| Feed(row, Ok(())));
    let extra = Feed(idle(5, 1), fault(13, Rule::A7));
    let all = [a, b, c, d, e, f, g, h, i, j, k, l, End(Ok(())), extra];
    assert_eq!(rt; wrong(rt.alloc(), &all)?, None);
    Ok(())
}

// A task on each of eight cores, all with one resource, in the longest run of the most cores.
pub(crate) const CROWD: &[u8] =
    b"msrp,1\ncores,8\nticks,20000\nresource,g\ntask,a,0,20,8,0\nop,lock,g\nop,run,1\nop,unlock,g\ntask,b,1,20,8,0\nop,lock,g\nop,run,1\nop,unlock,g\ntask,c,2,20,8,0\nop,lock,g\nop,run,1\nop,unlock,g\ntask,d,3,20,8,0\nop,lock,g\nop,run,1\nop,unlock,g\ntask,e,4,20,8,0\nop,lock,g\nop,run,1\nop,unlock,g\ntask,f,5,20,8,0\nop,lock,g\nop,run,1\nop,unlock,g\ntask,g,6,20,8,0\nop,lock,g\nop,run,1\nop,unlock,g\ntask,h,7,20,8,0\nop,lock,g\nop,run,1\nop,unlock,g\n";

pub(crate) fn run_of(alloc: Global, plan: &Plan) -> Result<Trace, Fail> {
    match simulate(alloc, plan, &Order::Rot) {
        Ok(trace) => Ok(trace),
        Err(_) => Err(Fail::from("memory")),
    }
}

// The index of the first row that isn't expected of its core, or isn't good.
fn first_undue(auditor: &mut Auditor<'_>, rows: &[Row]) -> Option<usize> {
    for (at, row) in rows.iter().enumerate() {
        if !auditor.is_due(row.core) {
            return Some(at);
        }
        let due = auditor.turn(row.core);
        if due != *row || auditor.judge(due, *row) != Ok(()) {
            return Some(at);
        }
    }
    None
}

// Whether any of nine cores has a turn left.
fn is_more_due(auditor: &Auditor<'_>) -> bool {
    for core in 0..9u32 {
        if auditor.is_due(CoreId(core)) {
            return true;
        }
    }
    false
}

// The longest run's first row that isn't expected, and whether a core has a turn left at the end.
fn undue(alloc: Global) -> Result<(Option<usize>, bool), Fail> {
    let plan = plan_of(alloc, CROWD)?;
    let levels = Levels::of(alloc, &plan)?;
    let trace = run_of(alloc, &plan)?;
    let mut auditor = Auditor::with_room(alloc, &plan, &levels)?;
    let first = first_undue(&mut auditor, trace.rows.as_slice());
    Ok((first, is_more_due(&auditor)))
}

// A row is expected in each turn, also at a release (in each twentieth) or a start; then none.
#[test]
fn each_row_is_due(rt: HostRuntime) -> Result<(), Fail> {
    assert_eq!(rt; undue(rt.alloc())?, (None, false));
    Ok(())
}
