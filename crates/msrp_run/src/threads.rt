//! A run with a thread for each core: threads are started, cores let in, and threads joined.
ghost use Rattle.std.specs.Prelude.{◌≡◌, ◌+◌, ◌<◌, ◌≤◌};
ghost use Rattle.msrp_plan.specs.Common.{ℕ, [], IfOk, IfErr, IsTrue, length, true, false, vec_capacity, vec_len, carries_ahead, IsPlan};
ghost use Rattle.msrp_run.specs.Common.{Aborted, AreLogs, IsTied, Opened, entries_at, rows_of, size_of, turns_of};
ghost use Rattle.msrp_run.specs.Threads.{AreDone, AllAreNew, ArePromised, HasEnded, HasRest, HasRun, HasOthers, IsCalledOff, IsRunOfBoard, AreNewParts, IsPromise, ordered};
ghost use Rattle.msrp_run.specs.Work.{HasWorked, IsNew};

use crate::hire::{Hire, HireAll, RunError};
use crate::turns::Stage;
use crate::work::worker;
use crate::workers::{CoreParts, Ended, Handle, Started, WorkPromise};
use msrp_board::{Board, BoardSeat, Settled};
use msrp_core::Machine;
use msrp_levels::Levels;
use msrp_merge::{CoreLog, merge};
use msrp_plan::{CoreId, Memory, Plan, Trace};
use std::alloc::Global;
use std::snapshot::Snapshot;
use std::sync::Wait;
use std::thread;
use std::thread::{Promise, Scope, Threads};

impl Promise<(CoreLog, BoardSeat)> for WorkPromise {
    ghost kept_by = { λ p r. HasWorked p.seat.value.board p.plan.value p.core.0 r.0 r.1 };
}

/// A machine and an empty log for each core, in rising order. The levels are the plan's.
pub fn parts_of<'a>(
    alloc: Global,
    plan: &'a Plan,
    levels: &'a Levels<'a>,
) -> Result<Vec<CoreParts<'a>>, Memory>
    requires { levels.now ≡ plan.now }
    ensures count { IfOk result (λ all_parts. vec_len all_parts ≡ plan.now.cores) }
    ensures each { IfOk result (λ all_parts. AllAreNew plan.now all_parts.items) }
{
    let mut all_parts = Vec::with_capacity(alloc, plan.cores() as usize)?;
    for c in 0..plan.cores() {
        let machine = Machine::with_room(alloc, plan, levels, CoreId(c))?;
        let log = CoreLog::with_room(alloc, CoreId(c), plan.ticks())?;
        all_parts.push_reserved(CoreParts { machine, log });
    }
    Ok(all_parts)
}

impl WorkPromise {
    fn of(core: CoreId, seat: &BoardSeat, plan: &Plan) -> WorkPromise
        ensures { (result.core ≡ core) × (result.seat.value ≡ seat.now) × (result.plan.value ≡ plan.now) }
    {
        WorkPromise {
            core,
            seat: Snapshot::of(seat),
            plan: Snapshot::of(plan),
        }
    }
}

// What a thread owns of its core, whatever lifetime the machine borrows for. A closure that owns a
// value of a type parameter has a known result; one that owns a value with a named lifetime hasn't.
trait CoreWork: Send + Drop {
    ghost use Rattle.msrp_core.specs.Machine.{MachineModel};

    ghost machine: { Self → MachineModel };

    // Does the core's work, with its log and seat.
    fn work<R: Wait, S: Stage>(
        self,
        rt: &R,
        log: CoreLog,
        seat: BoardSeat,
        board: &Board,
        stage: &S,
    ) -> (CoreLog, BoardSeat)
        requires { IsNew board.now (machine self) log seat }
        ensures { HasWorked board.now (machine self).plan (machine self).core result.0 result.1 };
}

impl CoreWork for Machine<'_> {
    ghost machine = { λ m. m };

    fn work<R: Wait, S: Stage>(
        self,
        rt: &R,
        log: CoreLog,
        seat: BoardSeat,
        board: &Board,
        stage: &S,
    ) -> (CoreLog, BoardSeat) {
        worker(rt, self, log, seat, board, stage)
    }
}

// The core's work, with the promise of its thread.
fn work_as<R: Wait, S: Stage, W: CoreWork>(
    rt: &R,
    given: WorkPromise,
    machine: W,
    log: CoreLog,
    seat: BoardSeat,
    board: &Board,
    stage: &S,
) -> (CoreLog, BoardSeat)
    requires new { IsNew board.now (W.machine machine) log seat }
    requires given { IsPromise board.now (W.machine machine).plan (W.machine machine).core given }
    ensures { HasWorked given.seat.value.board given.plan.value given.core.0 result.0 result.1 }
{
    machine.work(rt, log, seat, board, stage)
}

// Starts the thread for a core's work. The thread's promise is the closure's. If the start fails,
// the run is called off, the core's work sees the stop here, and its seat joins the others.
fn start<'s, E, R: Wait + Sync, S: Stage + Sync, W: CoreWork + 's>(
    scope: &'s Scope<'s, E>,
    rt: &'s R,
    plan: &Plan,
    core: CoreId,
    machine: W,
    log: CoreLog,
    seat: BoardSeat,
    board: &'s Board,
    mut others: BoardSeat,
    stage: &'s S,
) -> Result<(Handle, BoardSeat), BoardSeat>
    requires plan { (W.machine machine).plan ≡ plan.now }
    requires core { (W.machine machine).core ≡ core.0 }
    requires new { IsNew board.now (W.machine machine) log seat }
    requires others { HasOthers board.now (core.0 + 1) others }
    ensures started { IfOk result (λ r. IsPromise board.now plan.now core.0 r.0.promise × (r.1 ≡ others)) }
    ensures refused { IfErr result (λ seat. HasRest board.now core.0 Aborted seat) }
{
    let promise = WorkPromise::of(core, &seat, plan);
    let given = WorkPromise::of(core, &seat, plan);
    let work = move || -> (CoreLog, BoardSeat)
        requires { IsNew board.now (W.machine machine) log seat × IsPromise board.now (W.machine machine).plan (W.machine machine).core given }
        ensures { HasWorked given.seat.value.board given.plan.value given.core.0 result.0 result.1 }
    { work_as(rt, given, machine, log, seat, board, stage) };
    match scope.spawn_with(promise, work) {
        Ok(handle) => Ok((handle, others)),
        Err(refused) => {
            board.abort(&mut others);
            let (_, seat) = (refused.value)();
            Err(board.join(seat, others))
        }
    }
}

// Starts the next core's worker, with its seat from the rest, or calls the run off.
fn start_next<'s, E, R: Wait + Sync, S: Stage + Sync, H: Hire>(
    scope: &'s Scope<'s, E>,
    rt: &'s R,
    plan: &'s Plan,
    parts: CoreParts<'s>,
    board: &'s Board,
    mut others: BoardSeat,
    stage: &'s S,
    hire: &H,
) -> Result<(Handle, BoardSeat), BoardSeat>
    requires parts { AreNewParts plan.now parts.machine.core parts }
    requires size { board.now.size ≡ size_of plan.now }
    requires core { parts.machine.core < board.now.size.cores }
    requires others { HasOthers board.now parts.machine.core others }
    ensures started { IfOk result (λ r. IsPromise board.now plan.now parts.entry.machine.core r.0.promise × HasOthers board.now (parts.entry.machine.core + 1) r.1) }
    ensures refused { IfErr result (λ seat. HasRest board.now parts.entry.machine.core Aborted seat) }
{
    let core = parts.machine.core();
    if !hire.may_start(core) {
        board.abort(&mut others);
        return Err(others);
    }
    let (seat, rest) = board.split(others, core);
    let CoreParts { machine, log } = parts;
    start(
        scope, rt, plan, core, machine, log, seat, board, rest, stage,
    )
}

// Starts the workers, in rising order, then lets the cores in, or calls the run off.
fn start_all<'s, E, R: Wait + Sync, S: Stage + Sync, H: Hire>(
    scope: &'s Scope<'s, E>,
    rt: &'s R,
    plan: &'s Plan,
    all_parts: Vec<CoreParts<'s>>,
    board: &'s Board,
    mut others: BoardSeat,
    stage: &'s S,
    hire: &H,
    mut handles: Vec<Handle>,
) -> Started
    requires all_parts { AllAreNew plan.now all_parts.items }
    requires size { board.now.size ≡ size_of plan.now }
    requires count { vec_len all_parts ≡ plan.now.cores }
    requires others { HasOthers board.now 0 others }
    requires none { handles.items ≡ [] }
    requires room { vec_len all_parts ≤ vec_capacity handles }
    ensures promised { ArePromised board.now plan.now result.handles.items }
    ensures count { vec_len result.handles ≤ plan.now.cores }
    ensures all { IsTrue result.all → vec_len result.handles ≡ plan.now.cores }
    ensures rest { HasRest board.now (vec_len result.handles) (ordered result.all) result.others }
{
    for parts in all_parts {
        match start_next(scope, rt, plan, parts, board, others, stage, hire) {
            Ok((handle, rest)) => {
                others = rest;
                handles.push_reserved(handle);
            }
            Err(rest) => {
                return Started {
                    handles,
                    others: rest,
                    all: false,
                };
            }
        }
    }
    board.open(&mut others);
    Started {
        handles,
        others,
        all: true,
    }
}

// Joins the workers in rising order, and their seats into one. They end, since the cores were let
// in or the run was called off.
fn join_all<R: Threads>(
    rt: &R,
    _plan: &Plan,
    board: &Board,
    started: Started,
    mut logs: Vec<CoreLog>,
) -> Ended
    requires promised { ArePromised board.now _plan.now started.handles.items }
    requires count { vec_len started.handles ≤ _plan.now.cores }
    requires all { IsTrue started.all → vec_len started.handles ≡ _plan.now.cores }
    requires rest { HasRest board.now (vec_len started.handles) (ordered started.all) started.others }
    requires none { logs.items ≡ [] }
    requires room { vec_len started.handles ≤ vec_capacity logs }
    ensures { HasEnded board.now _plan.now result }
{
    let Started {
        handles,
        mut others,
        all,
    } = started;
    for handle in handles {
        let (log, seat) = handle.join(rt);
        others = board.join(seat, others);
        logs.push_reserved(log);
    }
    Ended {
        logs,
        seat: others,
        all,
    }
}

// Allocates what the cores need, starts the workers, and joins the started ones.
fn conduct<'s, E, R: Threads + Wait + Sync, S: Stage + Sync, H: Hire, L: PlanLevels>(
    scope: &'s Scope<'s, E>,
    rt: &'s R,
    alloc: Global,
    plan: &'s Plan,
    levels: &'s L,
    board: &'s Board,
    others: BoardSeat,
    stage: &'s S,
    hire: &H,
) -> Result<Ended, Memory>
    requires levels { L.plan levels.now ≡ plan.now }
    requires size { board.now.size ≡ size_of plan.now }
    requires others { HasOthers board.now 0 others }
    ensures { IfOk result (λ ended. HasEnded board.now plan.now ended) }
{
    let all_parts = parts_of(alloc, plan, levels.levels())?;
    let handles = Vec::with_capacity(alloc, all_parts.len())?;
    let logs = Vec::with_capacity(alloc, all_parts.len())?;
    let started = start_all(
        scope, rt, plan, all_parts, board, others, stage, hire, handles,
    );
    Ok(join_all(rt, plan, board, started, logs))
}

// The levels of a plan as a type parameter, for the reason given at `CoreWork`.
trait PlanLevels {
    ghost use Rattle.msrp_plan.specs.Plan.{PlanModel};

    ghost plan: { Self → PlanModel };

    fn levels(&self) -> &Levels<'_>
        ensures { result.now ≡ plan self.now };
}

impl PlanLevels for Levels<'_> {
    ghost plan = { λ l. l };

    fn levels(&self) -> &Levels<'_> {
        self
    }
}

// Starts and joins the workers in their own scope, which ends with its threads.
fn on_threads<R: Threads + Wait + Sync, S: Stage + Sync, H: Hire, L: PlanLevels>(
    rt: &R,
    alloc: Global,
    plan: &Plan,
    levels: &L,
    board: &Board,
    others: BoardSeat,
    stage: &S,
    hire: &H,
) -> Result<Ended, Memory>
    requires levels { L.plan levels.now ≡ plan.now }
    requires size { board.now.size ≡ size_of plan.now }
    requires others { HasOthers board.now 0 others }
    ensures { IfOk result (λ ended. HasEnded board.now plan.now ended) }
{
    thread::scope(
        thread::scope_env(),
        rt,
        move |scope| -> Result<Ended, Memory>
            requires { (L.plan levels.now ≡ plan.now) × (board.now.size ≡ size_of plan.now) × HasOthers board.now 0 others }
            ensures { IfOk result (λ ended. HasEnded board.entry.now plan.entry.now ended) }
        { conduct(scope, rt, alloc, plan, levels, board, others, stage, hire) },
    )
}

// The logs and the board after the threads, and whether all threads were started. So a failed start
// and a failed allocation are reported apart.
fn settled_run<R: Threads + Wait + Sync, S: Stage + Sync, H: Hire>(
    rt: &R,
    alloc: Global,
    plan: &Plan,
    stage: &S,
    hire: &H,
) -> Result<(Vec<CoreLog>, Settled, bool), Memory>
    ensures run { IfOk result (λ r. IsTrue r.2 → HasRun plan.now r.0.items r.1) }

    // If a thread wasn't started, no core has made a row.
    ensures off { IfOk result (λ r. r.2 ≡ false → IsCalledOff r.0.items r.1) }
    ensures board { IfOk result (λ r. (r.1.size ≡ size_of plan.now) × IsTied r.1) }
    ensures plan { IfOk result (λ _. IsPlan plan.now) }
{
    let levels = Levels::of(alloc, plan)?;
    let Ok((board, others)) = Board::new(alloc, plan.cores(), plan.resources(), plan.ticks()) else {
        return Err(Memory);
    };
    let Ended { logs, seat, all } = on_threads(
        rt, alloc, plan, &levels, &board, others, stage, hire,
    )?;
    Ok((logs, board.settle(seat), all))
}

/// Runs the plan with a thread for each core that `hire` allows. Returns each core's log, in rising
/// order, and the board. [`run_threads_if`] merges the logs; a caller that needs each row only once
/// saves the trace's memory.
///
/// All memory that a core needs is allocated before the first thread starts, and the cores are let
/// in after the last start: on [`RunError::U2`] no core had a turn. The call waits for its threads.
pub fn run_logged_if<R: Threads + Wait + Sync, S: Stage + Sync, H: Hire>(
    rt: &R,
    alloc: Global,
    plan: &Plan,
    stage: &S,
    hire: &H,
) -> Result<(Vec<CoreLog>, Settled), RunError>
    // Each log is a run of its core, and fits the core's book on the board.
    ensures logs { IfOk result (λ r. AreLogs plan.now r.0.items (entries_at r.1.books)) }
    ensures aheads { IfOk result (λ r. (c : ℕ) → c < plan.now.cores → carries_ahead (rows_of (turns_of r.0.items c)) ≡ true) }

    // The board is this run's: it was opened, and each core has arrived from its last tick.
    ensures board { IfOk result (λ r. (r.1.size ≡ size_of plan.now) × IsTied r.1) }
    ensures opened { IfOk result (λ r. r.1.conductor ≡ Opened) }
    ensures done { IfOk result (λ r. AreDone plan.now.ticks r.1.books) }
    ensures plan { IfOk result (λ _. IsPlan plan.now) }
{
    let (logs, settled, all) = settled_run(rt, alloc, plan, stage, hire)?;
    if !all {
        return Err(RunError::U2);
    }
    Ok((logs, settled))
}

/// Runs the plan as [`run_logged_if`] does, and merges the logs. The trace is a legal run of MSRP
/// (Gai, Lipari and Di Natale 2001), for any interleaving of the threads' steps.
pub fn run_threads_if<R: Threads + Wait + Sync, S: Stage + Sync, H: Hire>(
    rt: &R,
    alloc: Global,
    plan: &Plan,
    stage: &S,
    hire: &H,
) -> Result<(Trace, Settled), RunError>
    // The rows are a legal run, and what the cores did on this board. So, on m cores, each resource
    // has at most one holder, others acquire it at most m - 1 times while a job waits for it, and
    // spinning and blocking are bounded.
    ensures { IfOk result (λ r. IsRunOfBoard plan.now r.1 r.0.rows.items) }
{
    let (logs, settled) = run_logged_if(rt, alloc, plan, stage, hire)?;
    let trace = merge(alloc, plan, &logs, &settled)?;
    Ok((trace, settled))
}

/// Runs the plan as [`run_threads_if`] does, when every thread may start.
pub fn run_threads<R: Threads + Wait + Sync, S: Stage + Sync>(
    rt: &R,
    alloc: Global,
    plan: &Plan,
    stage: &S,
) -> Result<(Trace, Settled), RunError>
    ensures { IfOk result (λ r. IsRunOfBoard plan.now r.1 r.0.rows.items) }
{
    run_threads_if(rt, alloc, plan, stage, &HireAll)
}
