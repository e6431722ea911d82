//! All cores of a plan over first-in-first-out queues: one turn of any core, in any order.
ghost use Rattle.std.specs.Prelude.{◌≡◌, ◌≤◌, ◌<◌};
ghost use Rattle.msrp_plan.specs.Common.{[], ℕ, List, IfOk, IfNone, IfSome, None, Some, length, slice_get, ForSome, most_cores, most_resources, most_rows, log_of, IsPlan};
ghost use Rattle.std.specs.Option.{option_map};
ghost use Rattle.msrp_plan.specs.declared.rows.Row.{Row as TraceRow};
ghost use Rattle.msrp_core.specs.CoreStates.{IsCoreState};
ghost use Rattle.msrp_core.specs.Machine.{MachineModel};
ghost use Rattle.msrp_sim.specs.Cores.{AreNew, StandFor, IsSomeTurn, Leaves, MakesNext, StandOn, known_row};
ghost use Rattle.msrp_sim.specs.Serving.{AreDrawn, Notes};
ghost use Rattle.msrp_sim.specs.TurnPorts.{unless_granted};

use crate::tickets::Queues;
use crate::turn_port::{repeat_by, turn_by};
use msrp_core::{CoreState, Machine, PortCall};
use msrp_levels::Levels;
use msrp_plan::{CoreId, Memory, Plan, Row};
use std::alloc::Global;
use std::marker::Model;

/// The machine of each core of a plan, and the queues of its global resources: after the start of a
/// legal run, the one row that each core may make next. It stores no list of calls.
#[derive(Drop)]
pub struct Cores<'a> {
    plan: &'a Plan,
    machines: Vec<Machine<'a>>,
    queues: Queues,
}

impl<'a> Model for Cores<'a> {
    ghost use Rattle.msrp_sim.specs.Cores.{CoresModel};

    ghost Value = { CoresModel };

    ghost use Rattle.msrp_sim.specs.CoresView.{cores_view, AreCoresView};

    ghost view = { cores_view };

    ghost invariant = { AreCoresView };
}

// The queues after a turn with this call, if it made one.
#[inline(always)]
fn note_turn(queues: &mut Queues, call: Option<PortCall>)
    requires core { ForSome call (λ e. e.core.0 < most_cores) }
    requires resource { ForSome call (λ e. e.res.0 < most_resources) }
    requires drawn { AreDrawn queues.old most_rows }
    ensures none { call ≡ None → queues.new ≡ queues.old }
    ensures noted { ForSome call (λ e. Notes e queues.old queues.new) }
{
    if let Some(made) = call {
        queues.note(made);
    }
}

// A machine for each core, before its first turn.
fn machines_of<'a>(
    alloc: Global,
    plan: &'a Plan,
    levels: &'a Levels<'a>,
) -> Result<Vec<Machine<'a>>, Memory>
    requires { levels.now ≡ plan.now }
    ensures { IfOk result (λ machines. AreNew plan.now plan.now.cores machines.items) }
{
    let cores = plan.cores();
    let mut machines = Vec::with_capacity(alloc, cores as usize)?;
    for core in 0..cores {
        machines.push_reserved(Machine::with_room(alloc, plan, levels, CoreId(core))?);
    }
    Ok(machines)
}

impl<'a> Cores<'a> {
    /// The cores before the first tick, with all the memory that they will ever need; [`Memory`]
    /// only if memory runs out. The levels are the plan's.
    pub fn with_room(
        alloc: Global,
        plan: &'a Plan,
        levels: &'a Levels<'a>,
    ) -> Result<Cores<'a>, Memory>
        requires levels { levels.now ≡ plan.now }
        ensures accepted { IfOk result (λ cores. IsPlan cores.plan) }
        ensures plan { IfOk result (λ cores. cores.plan ≡ plan.now) }
        ensures stand { IfOk result (λ cores. StandFor cores []) }
        ensures known { IfOk result (λ cores. (c : ℕ) → known_row cores c ≡ None) }
    {
        // This read proves that the plan is an accepted one.
        let _accepted = plan.cores();
        Ok(Cores {
            plan,
            machines: machines_of(alloc, plan, levels)?,
            queues: Queues::new(),
        })
    }

    /// The number of turns that the core has had.
    pub fn tick(&self, core: CoreId) -> u32
        requires { core.0 < self.now.plan.cores }
        ensures now { option_map (λ x. x.tick) (slice_get self.now.machines core.0) ≡ Some result }
        ensures most { result ≤ self.now.plan.ticks }
    {
        self.machines[core.0 as usize].tick()
    }

    /// What decides which job of the core runs next.
    #[inline(always)]
    pub fn state(&self, core: CoreId) -> CoreState
        requires { core.0 < self.now.plan.cores }
        ensures { (rows : List TraceRow) → StandFor self.now rows → IsCoreState self.now.plan core.0 (length (log_of core.0 rows)) rows result }
    {
        self.machines[core.0 as usize].state()
    }

    /// The row of the core's next turn, which a copy of its machine makes. It is [`Memory`] only
    /// where that was refused.
    pub fn next_row(&self, alloc: Global, core: CoreId) -> Result<Row, Memory>
        requires core { core.0 < self.now.plan.cores }
        requires tick { (x : MachineModel) → slice_get self.now.machines core.0 ≡ Some x → x.tick < self.now.plan.ticks }
        ensures core { IfOk result (λ row. row.core.0 ≡ core.0) }
        ensures next { IfOk result (MakesNext self.now core.0) }
    {
        let mut machine = self.machines[core.0 as usize].copied(alloc)?;
        Ok(turn_by(&self.queues, self.plan.resources(), &mut machine).row)
    }

    /// The core's next turn if it is known to repeat its last row. Needs no choice; a queue is
    /// asked only if the core's poll wasn't granted: it polls again, unless it would be granted
    /// now. Otherwise none, and nothing changes.
    #[inline(always)]
    pub fn repeat(&mut self, core: CoreId) -> Option<Row>
        requires core { core.0 < self.old.plan.cores }
        requires tick { (x : MachineModel) → slice_get self.old.machines core.0 ≡ Some x → x.tick < self.old.plan.ticks }
        ensures none { IfNone result (self.new ≡ self.old) }
        ensures known { result ≡ unless_granted self.old.queues core.0 (known_row self.old core.0) }
        ensures plan { self.new.plan ≡ self.old.plan }
        ensures core { IfSome result (λ due. due.core.0 ≡ core.0) }
        ensures leaves { IfSome result (Leaves self.old self.new) }
        ensures next { IfSome result (MakesNext self.old core.0) }
        ensures stand { IfSome result (StandOn self.old self.new core.0) }
    {
        let machine = &mut self.machines[core.0 as usize];
        repeat_by(&self.queues, machine)
    }

    /// The core's next turn, chosen. After any rows that the cores stand for, the row is that
    /// core's next one, and the cores then stand for those rows and this one, with or without its
    /// ahead. [`Cores::repeat`] is a shorter way to a known row.
    #[inline(always)]
    pub fn turn(&mut self, core: CoreId) -> Row
        requires core { core.0 < self.old.plan.cores }
        requires tick { (x : MachineModel) → slice_get self.old.machines core.0 ≡ Some x → x.tick < self.old.plan.ticks }
        ensures plan { self.new.plan ≡ self.old.plan }
        ensures core { result.core.0 ≡ core.0 }
        ensures turn { IsSomeTurn self.old.plan core.0 result }
        ensures leaves { Leaves self.old self.new result }
        ensures next { MakesNext self.old core.0 result }
        ensures stand { StandOn self.old self.new core.0 result }
    {
        let resources = self.plan.resources();
        let machine = &mut self.machines[core.0 as usize];
        let turned = turn_by(&self.queues, resources, machine);
        note_turn(&mut self.queues, turned.call);
        turned.row
    }
}
