//! The orders in which the cores of a plan have their turns (POLICY rule 10: any order is legal).
ghost use Rattle.std.specs.Prelude.{◌≡◌, ◌↔◌, ◌<◌, ◌+◌, ◌*◌, ◌^◌};
ghost use Rattle.msrp_plan.specs.Common.{ℕ, true, slice_index_or, length, PlanModel, IsOrder, ascending};
ghost use Rattle.msrp_sim.specs.Orders.{cores_of, falling, rotating};

use msrp_plan::limits::MOST_CORES;
use msrp_plan::{CoreId, Plan};

/// The position of a turn: its tick, and its index among the turns of that tick, both from 0.
#[derive(Clone, Copy, Debug)]
pub struct TickPlace {
    pub tick: u32,
    /// The index in it.
    pub place: u32,
}

impl TickPlace {
    /// Moves to the next turn, if each tick has `cores` turns.
    #[inline(always)]
    pub fn advance(&mut self, cores: u32)
        requires place { self.old.place < cores }
        requires tick { self.old.tick + 1 < 2 ^ 32 }
        ensures place { self.new.place < cores }
        ensures next { self.new.tick * cores + self.new.place ≡ self.old.tick * cores + self.old.place + 1 }
    {
        self.place += 1;
        if self.place == cores {
            self.tick += 1;
            self.place = 0;
        }
    }
}

/// An order of turns, one of each core in each tick; for a given list see [`Order::is_of`].
#[derive(Debug, Drop)]
pub enum Order {
    /// Rising cores in each tick.
    Asc,
    /// Falling cores in each tick.
    Desc,
    /// In tick t, of m cores, from core t mod m upwards, then round.
    Rot,
    /// The number of each turn's core, tick after tick.
    Given(Vec<u32>),
}

/// In the three built-in orders each core has one turn in each tick.
pub fn orders_of_turns()
    ensures asc { (plan : PlanModel) → IsOrder plan (ascending plan.cores plan.ticks) }
    ensures desc { (plan : PlanModel) → IsOrder plan (falling plan) }
    ensures rot { (plan : PlanModel) → IsOrder plan (rotating plan) }
{}

// Whether each of these cores has one turn in each tick.
fn are_turns(plan: &Plan, cores: &[u32]) -> bool
    ensures { (result ≡ true) ↔ IsOrder plan.now cores.now }
{
    let size = plan.cores() * plan.ticks();
    if cores.len() != size as usize {
        return false;
    }
    let mut turns = [0; MOST_CORES as usize];
    for turn in 0..size {
        let core = cores[turn as usize];
        if core >= plan.cores() || turns[core as usize] != turn / plan.cores() {
            return false;
        }
        turns[core as usize] += 1;
    }
    true
}

// The list's core for the turn at this position.
fn listed(list: &[u32], cores: u32, at: &TickPlace) -> u32
    requires { at.now.tick * cores + at.now.place < length list.now }
    ensures { result ≡ slice_index_or list.now (at.now.tick * cores + at.now.place) 0 }
{
    list[at.tick as usize * cores as usize + at.place as usize]
}

impl Order {
    /// Whether the order gives each core of the plan one turn in each tick; true of all but lists.
    pub fn is_of(&self, plan: &Plan) -> bool
        ensures { (result ≡ true) ↔ IsOrder plan.now (cores_of self.now plan.now) }
    {
        match self {
            Order::Asc => true,
            Order::Desc => true,
            Order::Rot => true,
            Order::Given(cores) => are_turns(plan, cores.as_slice()),
        }
    }

    /// The core of a turn; turns are counted from 0.
    pub fn core(&self, plan: &Plan, turn: u32) -> CoreId
        requires turn { turn < plan.now.cores * plan.now.ticks }
        requires order { IsOrder plan.now (cores_of self.now plan.now) }
        ensures { result.0 ≡ slice_index_or (cores_of self.now plan.now) turn 0 }
    {
        let cores = plan.cores();
        let at = TickPlace {
            tick: turn / cores,
            place: turn % cores,
        };
        self.core_at(plan, &at)
    }

    // The core of the turn at this position, in any order; rising and falling need no division.
    #[inline(never)]
    fn core_in_order(&self, plan: &Plan, at: &TickPlace) -> CoreId
        requires place { at.now.place < plan.now.cores }
        requires tick { at.now.tick < plan.now.ticks }
        requires order { IsOrder plan.now (cores_of self.now plan.now) }
        ensures { result.0 ≡ slice_index_or (cores_of self.now plan.now) (at.now.tick * plan.now.cores + at.now.place) 0 }
    {
        let cores = plan.cores();
        CoreId(match self {
            Order::Asc => at.place,
            Order::Desc => cores - (at.place + 1),
            Order::Rot => (at.tick + at.place) % cores,
            Order::Given(list) => listed(list.as_slice(), cores, at),
        })
    }

    /// The core of the turn at this position; for rising cores its index in the tick.
    #[inline(always)]
    pub(crate) fn core_at(&self, plan: &Plan, at: &TickPlace) -> CoreId
        requires place { at.now.place < plan.now.cores }
        requires tick { at.now.tick < plan.now.ticks }
        requires order { IsOrder plan.now (cores_of self.now plan.now) }
        ensures { result.0 ≡ slice_index_or (cores_of self.now plan.now) (at.now.tick * plan.now.cores + at.now.place) 0 }
    {
        match self {
            Order::Asc => CoreId(at.place),
            _ => self.core_in_order(plan, at),
        }
    }
}
