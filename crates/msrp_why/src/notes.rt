//! What is noted as rows are judged: of each resource the requests that are not released and the
//! last change, and what the turns met. The memory grows with the plan, and not with the rows.
ghost use Rattle.std.specs.Prelude.{◌≡◌, ◌<◌, ◌+◌, ◌&&◌, ◌++◌, ◌∷◌, if◌then◌else◌};
ghost use Rattle.msrp_plan.specs.Common.{[], ℕ, List, Some, IfOk, drop, false, length, true, is_on, is_release, is_request, IsRunStart, PlanModel, IsPlan, list_any};
ghost use Rattle.std.specs.Option.{option_map_or};
ghost use Rattle.msrp_plan.specs.declared.rows.Row.{Row as TraceRow};
ghost use Rattle.msrp_why.specs.Noted.{AreNoted, AreResourcesNoted, IsNoted, is_by, is_change, is_locker, is_opening, is_user};
ghost use Rattle.msrp_core.specs.CoreStates.{IsStateAfter};

use crate::exercise::{ResourceCounts, TurnCounts};
use arrayvec::ArrayVec;
use msrp_core::CoreState;
use msrp_levels::Levels;
use msrp_plan::limits::MOST_CORES;
use msrp_plan::{CoreId, JobId, Kind, Memory, Plan, Row};
use std::alloc::Global;

/// The most requests in a queue: each core has one at most.
pub const MOST_QUEUED: usize = MOST_CORES as usize;

/// A row with its number, counted from 1.
#[derive(Clone, Copy, Debug)]
pub struct Numbered {
    pub number: u32,
    pub row: Row,
}

// What an empty place of a list holds.
impl Default for Numbered {
    fn default() -> Numbered {
        Numbered {
            number: 0,
            row: Row {
                tick: 0,
                core: CoreId(0),
                kind: Kind::Idle,
                job: None,
                res: None,
                ahead: None,
            },
        }
    }
}

impl Numbered {
    fn is_of(&self, job: JobId) -> bool
        ensures { result ≡ is_by job self.now }
    {
        self.row.job.is_some_and(|own| own == job)
    }
}

/// The requests of a resource.
type Queue = ArrayVec<Numbered, MOST_QUEUED>;

/// What is noted of a resource.
#[derive(Debug, Drop)]
pub struct ResourceNotes {
    /// The requests that are not released, in order.
    pub queue: Queue,
    /// The last row that locks, unlocks or releases the resource.
    pub last: Option<Numbered>,
    /// What the rows on it met.
    pub counts: ResourceCounts,
}

fn requeue(queue: &mut Queue, row: Numbered)
    ensures { (is_request row.row.kind ≡ true → length queue.old.items < MOST_QUEUED) → queue.new.items ≡ if is_request row.row.kind then queue.old.items ++ row ∷ [] else if is_release row.row.kind then drop 1 queue.old.items else queue.old.items }
{
    match row.row.kind {
        Kind::Take | Kind::Queue => {
            let _fits = queue.try_push(row);
        }
        Kind::Release => {
            let _first = queue.pop_at(0);
        }
        _ => {}
    }
}

fn last_after(last: Option<Numbered>, row: Numbered) -> Option<Numbered>
    ensures { result ≡ if is_change row.row.kind then Some row else last }
{
    match row.row.kind {
        Kind::Lock | Kind::Unlock | Kind::Release => Some(row),
        _ => last,
    }
}

impl ResourceNotes {
    #[inline(never)]
    fn note(&mut self, row: Numbered)
        ensures { (plan : PlanModel) (rows : List TraceRow) (g : ℕ) → IsPlan plan → IsRunStart plan (rows ++ row.row ∷ []) → is_on g row.row.res ≡ true → row.number ≡ length rows + 1 → IsNoted rows g self.old → IsNoted (rows ++ row.row ∷ []) g self.new }
    {
        let before = self.last;
        requeue(&mut self.queue, row);
        self.last = last_after(before, row);
        self.counts.note(row.row, before, self.queue.len());
    }

    fn is_locked_by(&self, job: JobId) -> bool
        ensures { result ≡ is_locker job self.now.last }
    {
        match self.last {
            Some(last) => last.row.kind == Kind::Lock && last.is_of(job),
            None => false,
        }
    }

    fn is_queued(&self, job: JobId) -> bool
        ensures { result ≡ list_any (is_by job) self.now.queue.items }
    {
        self.queue.iter().any(|request| request.is_of(job))
    }

    fn is_used_by(&self, job: JobId) -> bool
        ensures { result ≡ is_user job self.now.last self.now.queue.items }
    {
        self.is_locked_by(job) || self.is_queued(job)
    }
}

/// What is noted of a run.
#[derive(Debug, Drop)]
pub struct Notes {
    /// How many rows were noted.
    pub rows: u32,
    /// The last of them.
    pub last: Option<Numbered>,
    /// What the turns of the cores met.
    pub turns: TurnCounts,
    /// The notes of each resource, by its number.
    pub resources: Vec<ResourceNotes>,
}

// What is noted of each resource before the first row.
fn resources_of(alloc: Global, plan: &Plan) -> Result<Vec<ResourceNotes>, Memory>
    ensures { IfOk result (λ resources. AreResourcesNoted plan.now [] resources.items) }
{
    let count = plan.resources();
    let mut resources = Vec::with_capacity(alloc, count as usize)?;
    for _res in 0..count {
        resources.push_reserved(ResourceNotes {
            queue: ArrayVec::new(),
            last: None,
            counts: ResourceCounts::default(),
        });
    }
    Ok(resources)
}

fn note_row(resources: &mut Vec<ResourceNotes>, row: Numbered)
    ensures { (plan : PlanModel) (rows : List TraceRow) → IsPlan plan → IsRunStart plan (rows ++ row.row ∷ []) → row.number ≡ length rows + 1 → AreResourcesNoted plan rows resources.old.items → AreResourcesNoted plan (rows ++ row.row ∷ []) resources.new.items }
{
    if let Some(res) = row.row.res {
        if (res.0 as usize) < resources.len() {
            resources[res.0 as usize].note(row);
        }
    }
}

impl Notes {
    /// The notes before the first row. All memory that they ever need is taken here.
    pub fn with_room(alloc: Global, plan: &Plan) -> Result<Notes, Memory>
        ensures { IfOk result (AreNoted plan.now []) }
    {
        Ok(Notes {
            rows: 0,
            last: None,
            turns: TurnCounts::default(),
            resources: resources_of(alloc, plan)?,
        })
    }

    /// No notes, for an auditor without them.
    pub fn none(alloc: Global) -> Notes {
        Notes {
            rows: 0,
            last: None,
            turns: TurnCounts::default(),
            resources: Vec::new(alloc),
        }
    }

    // Whether the job holds or waits for a resource.
    #[inline(never)]
    fn is_inside(&self, job: JobId) -> bool
        ensures { result ≡ list_any (λ notes. is_user job notes.last notes.queue.items) self.now.resources.items }
    {
        self.resources.iter().any(|notes| notes.is_used_by(job))
    }

    fn nests(&self, row: Row) -> bool
        ensures { result ≡ (is_opening row.kind && option_map_or (λ j. list_any (λ notes. is_user j notes.last notes.queue.items) self.now.resources.items) row.job false) }
    {
        matches!(row.kind, Kind::Lock | Kind::Take | Kind::Queue)
            && row.job.is_some_and(|job| self.is_inside(job))
    }

    /// The notes after one more row, which is legal, if the state of its core before it is known.
    #[inline(always)]
    pub fn note(&mut self, plan: &Plan, levels: &Levels<'_>, state: Option<CoreState>, row: Row)
        requires { levels.now ≡ plan.now }
        ensures { (rows : List TraceRow) → IsRunStart plan.now (rows ++ row ∷ []) → IsStateAfter plan.now rows row.core.0 state → AreNoted plan.now rows self.old → AreNoted plan.now (rows ++ row ∷ []) self.new }
    {
        // Read so that the plan is known to be an accepted one.
        let _accepted = plan.cores();
        if let Some(state) = state {
            let nested = self.nests(row);
            self.turns.note(plan, levels, state, nested, row);
            let number = self.rows.saturating_add(1);
            self.rows = number;
            self.last = Some(Numbered { number, row });
            note_row(&mut self.resources, Numbered { number, row });
        }
    }
}
