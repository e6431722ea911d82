//! A run on one thread, turn by turn: who needs no whole trace in memory takes it from here.
ghost use Rattle.std.specs.Prelude.{◌≡◌, ◌<◌, ◌≤◌, ◌+◌, ◌*◌, ◌++◌, ◌∷◌, ◌↔◌};
ghost use Rattle.msrp_plan.specs.Common.{[], ℕ, List, Some, None, Err, IfOk, IfNone, IfSome, IsOrder};
ghost use Rattle.std.specs.Vec.{vec_capacity};
ghost use Rattle.msrp_plan.specs.declared.rows.Row.{Row as TraceRow};
ghost use Rattle.msrp_sim.specs.Cores.{Leaves, known_row};
ghost use Rattle.msrp_sim.specs.Orders.{cores_of};
ghost use Rattle.msrp_sim.specs.Simulated.{HasMade, IsRunIn};

use crate::cores::Cores;
use crate::orders::{Order, TickPlace};
use msrp_levels::Levels;
use msrp_plan::{Memory, Plan, Row, Trace};
use std::alloc::{AllocError, Global};
use std::marker::Model;
use thiserror::Error;

/// A run of a plan on one thread, in an order of turns.
#[derive(Drop)]
pub struct Simulation<'a> {
    plan: &'a Plan,
    order: &'a Order,
    // The position of the next turn.
    at: TickPlace,
    cores: Cores<'a>,
}

impl<'a> Model for Simulation<'a> {
    ghost use Rattle.msrp_sim.specs.Simulated.{SimModel};

    ghost Value = { SimModel };

    ghost use Rattle.msrp_sim.specs.SimView.{sim_view, IsSimView};

    ghost view = { sim_view };

    ghost invariant = { IsSimView };
}

impl<'a> Simulation<'a> {
    /// A simulation before its first turn, with all the memory that it will ever need; [`Memory`]
    /// only if it runs out. The levels are the plan's, and so is the order ([`Order::is_of`]).
    pub fn with_room(
        alloc: Global,
        plan: &'a Plan,
        levels: &'a Levels<'a>,
        order: &'a Order,
    ) -> Result<Simulation<'a>, Memory>
        requires levels { levels.now ≡ plan.now }
        requires order { IsOrder plan.now (cores_of order.now plan.now) }
        ensures plan { IfOk result (λ sim. sim.plan ≡ plan.now) }
        ensures order { IfOk result (λ sim. sim.order ≡ cores_of order.now plan.now) }
        ensures turn { IfOk result (λ sim. sim.turn ≡ 0) }
        ensures made { IfOk result (λ sim. HasMade sim []) }
        ensures known { IfOk result (λ sim. (c : ℕ) → known_row sim.cores c ≡ None) }
    {
        Ok(Simulation {
            plan,
            order,
            at: TickPlace { tick: 0, place: 0 },
            cores: Cores::with_room(alloc, plan, levels)?,
        })
    }

    /// The next turn if it repeats its core's last row. Otherwise none, and nothing changes.
    #[inline(always)]
    pub fn repeat(&mut self) -> Option<Row>
        requires { self.old.turn < self.old.plan.cores * self.old.plan.ticks }
        ensures none { IfNone result (self.new ≡ self.old) }
        ensures known { IfSome result (λ row. known_row self.old.cores row.core.0 ≡ Some row) }
        ensures plan { self.new.plan ≡ self.old.plan }
        ensures order { self.new.order ≡ self.old.order }
        ensures turn { IfSome result (λ _. self.new.turn ≡ self.old.turn + 1) }
        ensures leaves { IfSome result (Leaves self.old.cores self.new.cores) }
        ensures row { IfSome result (λ row. (rows : List TraceRow) → HasMade self.old rows → HasMade self.new (rows ++ row ∷ [])) }
    {
        let core = self.order.core_at(self.plan, &self.at);
        let row = self.cores.repeat(core)?;
        self.at.advance(self.plan.cores());
        Some(row)
    }

    /// The next turn: its core makes a row, and a resource answers at once. Never fails or
    /// allocates.
    #[inline(always)]
    pub fn turn(&mut self) -> Row
        requires { self.old.turn < self.old.plan.cores * self.old.plan.ticks }
        ensures plan { self.new.plan ≡ self.old.plan }
        ensures order { self.new.order ≡ self.old.order }
        ensures turn { self.new.turn ≡ self.old.turn + 1 }
        ensures leaves { Leaves self.old.cores self.new.cores result }
        ensures row { (rows : List TraceRow) → HasMade self.old rows → HasMade self.new (rows ++ result ∷ []) }
    {
        let core = self.order.core_at(self.plan, &self.at);
        self.at.advance(self.plan.cores());
        self.cores.turn(core)
    }
}

/// Why a plan was not simulated.
#[derive(Clone, Copy, Debug, Error, PartialEq, Eq)]
pub enum SimError {
    /// The given list doesn't name each core once in each tick. Checked before any allocation.
    #[error("S1: the list is no order of the cores")]
    S1,
    /// Out of memory.
    #[error("S2: memory was refused")]
    S2,
}

impl From<Memory> for SimError {
    ghost use Rattle.msrp_sim.specs.declared.simulation.SimError.{SimError};

    ghost from_gives = { λ _ error. error ≡ SimError.S2 };

    fn from(_error: Memory) -> SimError {
        SimError::S2
    }
}

impl From<AllocError> for SimError {
    ghost use Rattle.msrp_sim.specs.declared.simulation.SimError.{SimError};

    ghost from_gives = { λ _ error. error ≡ SimError.S2 };

    fn from(_refused: AllocError) -> SimError {
        SimError::S2
    }
}

// All turns of a new simulation, one row each.
fn turn_all(simulation: &mut Simulation<'_>, size: u32, rows: &mut Vec<Row>)
    requires turn { simulation.old.turn ≡ 0 }
    requires size { size ≡ simulation.old.plan.cores * simulation.old.plan.ticks }
    requires made { HasMade simulation.old [] }
    requires rows { rows.old.items ≡ [] }
    requires room { size ≤ vec_capacity rows.old }
    ensures plan { simulation.new.plan ≡ simulation.old.plan }
    ensures order { simulation.new.order ≡ simulation.old.order }
    ensures turn { simulation.new.turn ≡ size }
    ensures made { HasMade simulation.new rows.new.items }
{
    for _turn in 0..size {
        rows.push_reserved(simulation.turn());
    }
}

/// The plan's whole run in this order of turns. There is exactly one.
pub fn simulate(alloc: Global, plan: &Plan, order: &Order) -> Result<Trace, SimError>
    ensures given { (result ≡ Err SimError.S1) ↔ ¬ IsOrder plan.now (cores_of order.now plan.now) }
    ensures run { IfOk result (λ trace. IsRunIn plan.now (cores_of order.now plan.now) trace.rows.items) }
{
    if !order.is_of(plan) {
        return Err(SimError::S1);
    }
    let levels = Levels::of(alloc, plan)?;
    let mut simulation = Simulation::with_room(alloc, plan, &levels, order)?;
    let size = plan.cores() * plan.ticks();
    let mut rows = Vec::with_capacity(alloc, size as usize)?;
    turn_all(&mut simulation, size, &mut rows);
    Ok(Trace { rows })
}
