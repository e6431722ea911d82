//! The started jobs of a core, whose current ceiling each lock raises and each unlock restores.
ghost use Rattle.std.specs.Prelude.{◌≡◌, ◌<◌, ◌∷◌, ◌≤◌};
ghost use Rattle.msrp_plan.specs.Common.{[], length, slice_index_or, true, false, ℕ, IfOk, vec_capacity, jobs_on, is_global, IsPlan, most_resources};
ghost use Rattle.msrp_plan.specs.Limits.{most_held};
ghost use Rattle.msrp_levels.specs.Users.{ceiling_at};
ghost use Rattle.msrp_stack.specs.Stack.{top, newest, current_ceiling, CanStart, HasRoom, IsInnermost, SomeHeld, IsDone, with_held, without_held, without_newest};

use arrayvec::ArrayVec;
use msrp_levels::Levels;
use msrp_plan::limits::{MOST_HELD, MOST_RESOURCES};
use msrp_plan::{CoreId, JobId, Memory, Plan, ResId};
use std::alloc::Global;
use std::marker::Model;

// A held resource, and the core's ceiling before it.
#[derive(Clone, Copy, Debug)]
struct Held {
    res: ResId,
    before: u32,
}

// What an empty place of a list has.
impl Default for Held {
    fn default() -> Held {
        Held {
            res: ResId(0),
            before: 0,
        }
    }
}

// A started, unfinished job, and what it holds, the innermost last.
#[derive(Debug, Drop)]
struct Started {
    job: JobId,
    held: ArrayVec<Held, MOST_HELD>,
}

/// The started jobs of one core, and its current ceiling.
///
/// A global resource counts as held from its request on: until the release the core's ceiling is
/// its highest level (Gai, Lipari and Di Natale 2001; POLICY rule 7). [`CeilingStack::with_room`]
/// takes all memory; every other call needs none and takes constant time.
#[derive(Drop)]
pub struct CeilingStack<'a> {
    plan: &'a Plan,
    core: CoreId,
    ceilings: [u32; MOST_RESOURCES],
    started: Vec<Started>,
    ceiling: u32,
}

impl<'a> Model for CeilingStack<'a> {
    ghost use Rattle.msrp_stack.specs.Stack.{StackModel};

    ghost Value = { StackModel };

    ghost use Rattle.msrp_stack.specs.StackView.{stack_view, IsStackView};

    ghost view = { stack_view };

    ghost invariant = { IsStackView };
}

fn ceilings_at(plan: &Plan, levels: &Levels<'_>, core: CoreId) -> [u32; MOST_RESOURCES]
    requires levels { levels.now ≡ plan.now }
    requires core { core.0 < plan.now.cores }
    ensures plan { IsPlan plan.now }
    ensures size { length result ≡ most_resources }
    ensures ceilings { (g : ℕ) → g < length plan.now.resources → slice_index_or result g 0 ≡ ceiling_at plan.now g core.0 }
{
    let mut ceilings = [0; MOST_RESOURCES];
    for res in 0..plan.resources() {
        ceilings[res as usize] = levels.ceiling(ResId(res), core);
    }
    ceilings
}

// Room for all jobs of a core; pages that no job reaches are never touched.
fn room(alloc: Global, plan: &Plan, core: CoreId) -> Result<Vec<Started>, Memory>
    ensures empty { IfOk result (λ started. started.items ≡ []) }
    ensures room { IfOk result (λ started. length (jobs_on plan.now core.0) ≤ vec_capacity started) }
{
    Ok(Vec::with_capacity(alloc, plan.jobs_on(core))?)
}

// The same jobs in memory of their own, which has this room.
fn copied_jobs(alloc: Global, jobs: &[Started], room: usize) -> Result<Vec<Started>, Memory>
    requires { length jobs.now ≤ room }
    ensures jobs { IfOk result (λ copy. copy.items ≡ jobs.now) }
    ensures room { IfOk result (λ copy. vec_capacity copy ≡ room) }
{
    let mut copy = Vec::with_capacity(alloc, room)?;
    for one in jobs {
        copy.push_reserved(Started {
            job: one.job,
            held: one.held.clone()?,
        });
    }
    Ok(copy)
}

impl<'a> CeilingStack<'a> {
    /// A stack without a started job, with all memory that it needs; [`Memory`] only if it runs
    /// out.
    pub fn with_room(
        alloc: Global,
        plan: &'a Plan,
        levels: &Levels<'_>,
        core: CoreId,
    ) -> Result<CeilingStack<'a>, Memory>
        requires levels { levels.now ≡ plan.now }
        requires core { core.0 < plan.now.cores }
        ensures { IfOk result (λ stack. stack ≡ record { plan = plan.now; core = core.0; started = [] }) }
    {
        Ok(CeilingStack {
            plan,
            core,
            ceilings: ceilings_at(plan, levels, core),
            started: room(alloc, plan, core)?,
            ceiling: 0,
        })
    }

    /// The same stack in memory of its own. It is [`Memory`] only where that was refused.
    pub fn copied(&self, alloc: Global) -> Result<CeilingStack<'a>, Memory>
        ensures { IfOk result (λ stack. stack ≡ self.now) }
    {
        Ok(CeilingStack {
            plan: self.plan,
            core: self.core,
            ceilings: self.ceilings,
            started: copied_jobs(alloc, &self.started, self.started.capacity())?,
            ceiling: self.ceiling,
        })
    }

    /// Starts a job of the core, which comes before the job on top and is the new top.
    pub fn start(&mut self, job: JobId)
        requires { CanStart self.old job }
        ensures { self.new ≡ record self.old { started = record { job = job; held = [] } ∷ self.old.started } }
    {
        self.started.push_reserved(Started {
            job,
            held: ArrayVec::new(),
        });
    }

    /// The job on top locks a local resource that it doesn't hold; it holds fewer than 8.
    pub fn lock(&mut self, res: ResId)
        requires local { is_global self.old.plan res.0 ≡ false }
        requires declared { res.0 < length self.old.plan.resources }
        requires room { HasRoom self.old.started most_held res.0 }
        ensures { self.new ≡ record self.old { started = with_held self.old.started res.0 } }
    {
        self.take(res);
    }

    /// The job on top requests a global resource that it doesn't hold; it holds fewer than 8. The
    /// core's ceiling rises to its highest level.
    pub fn raise_global(&mut self, res: ResId)
        requires global { is_global self.old.plan res.0 ≡ true }
        requires declared { res.0 < length self.old.plan.resources }
        requires room { HasRoom self.old.started most_held res.0 }
        ensures { self.new ≡ record self.old { started = with_held self.old.started res.0 } }
    {
        self.take(res);
    }

    /// The job on top unlocks the local resource that it locked last.
    pub fn unlock(&mut self, res: ResId)
        requires local { is_global self.old.plan res.0 ≡ false }
        requires innermost { IsInnermost self.old.started res.0 }
        ensures { self.new ≡ record self.old { started = without_held self.old.started } }
    {
        self.give_back();
    }

    /// The job on top releases the global resource that it requested last.
    pub fn drop_global(&mut self, res: ResId)
        requires global { is_global self.old.plan res.0 ≡ true }
        requires innermost { IsInnermost self.old.started res.0 }
        ensures { self.new ≡ record self.old { started = without_held self.old.started } }
    {
        self.give_back();
    }

    /// The job on top, which holds nothing, is finished.
    pub fn finish(&mut self)
        requires { IsDone self.old.started }
        ensures { self.new ≡ record self.old { started = without_newest self.old.started } }
    {
        self.started.pop();
    }

    /// The first of the started jobs, the one on top.
    pub fn top(&self) -> Option<JobId>
        ensures first { result ≡ top self.now }
        ensures newest { result ≡ newest self.now.started }
    {
        self.newest()
    }

    /// The core's current ceiling.
    pub fn ceiling(&self) -> u32
        ensures { result ≡ current_ceiling self.now }
    {
        self.ceiling
    }

    // The job started last.
    fn newest(&self) -> Option<JobId>
        ensures job { result ≡ newest self.now.started }
        ensures first { newest self.now.started ≡ top self.now }
    {
        self.started.last().map(|started| started.job)
    }

    // Gives the job on top a resource, and saves the ceiling with it.
    fn take(&mut self, res: ResId)
        requires declared { res.0 < length self.old.plan.resources }
        requires room { HasRoom self.old.started most_held res.0 }
        ensures { self.new ≡ record self.old { started = with_held self.old.started res.0 } }
    {
        let before = self.ceiling;
        let last = self.started.len() - 1;
        self.started[last].held.push(Held { res, before });
        self.ceiling = before.max(self.ceilings[res.0 as usize]);
    }

    // Takes the last resource from the job on top, and restores the ceiling.
    fn give_back(&mut self)
        requires { SomeHeld self.old.started }
        ensures { self.new ≡ record self.old { started = without_held self.old.started } }
    {
        let last = self.started.len() - 1;
        if let Some(held) = self.started[last].held.pop() {
            self.ceiling = held.before;
        }
    }
}
