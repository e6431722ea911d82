//! A port that serves requests in their order.
ghost use Rattle.msrp_plan.specs.Common.{ℕ, cond, nat_lt, [], length, slice_index_or, slice_set, vec_len, vec_capacity};
ghost use Rattle.std.specs.Prelude.{◌*◌, ◌≤◌, ◌≡◌, ◌<◌, ◌+◌, ◌++◌, ◌∷◌, ◌-◌, sum_by};

use crate::tickets::{Queues, request};
use msrp_core::{Port, PortCall, Reply};
use msrp_plan::limits::MOST_CORES;
use msrp_plan::{Call, CoreId, Memory, Phase, Plan, ResId};
use std::alloc::Global;
use std::marker::Model;

/// A port that answers the calls of each resource as a first-in-first-out lock.
#[derive(Drop)]
pub struct FifoPort {
    resources: u32,
    queues: Queues,
    rooms: [u32; MOST_CORES as usize],
    calls: Vec<PortCall>,
}

impl Model for FifoPort {
    ghost use Rattle.msrp_sim.specs.Served.{FifoModel};

    ghost Value = { FifoModel };

    ghost use Rattle.msrp_sim.specs.FifoView.{fifo_view, IsFifoView};

    ghost view = { fifo_view };

    ghost invariant = { IsFifoView };
}

// Records a call, which uses one of its core's room.
fn write(calls: &mut Vec<PortCall>, rooms: &mut [u32], call: PortCall)
    requires core { call.core.0 < length rooms.old }
    requires left { 0 < slice_index_or rooms.old call.core.0 0 }
    requires room { vec_len calls.old < vec_capacity calls.old }
    ensures calls { calls.new.items ≡ calls.old.items ++ call ∷ [] }
    ensures room { vec_capacity calls.new ≡ vec_capacity calls.old }
    ensures rooms { rooms.new ≡ slice_set rooms.old call.core.0 (slice_index_or rooms.old call.core.0 0 - 1) }
{
    rooms[call.core.0 as usize] -= 1;
    calls.push_reserved(call);
}

// This many calls for each of the first cores, and none for any other.
fn rooms_of(cores: u32, ticks: u32) -> [u32; MOST_CORES as usize]
    requires { cores ≤ 8 }
    ensures rooms { (c : ℕ) → slice_index_or result c 0 ≡ cond (nat_lt c cores) ticks 0 }
    ensures all { sum_by (λ n. n) result ≡ cores * ticks }
{
    let mut rooms = [0; MOST_CORES as usize];
    for core in 0..cores as usize {
        rooms[core] = ticks;
    }
    rooms
}

impl FifoPort {
    ghost use Rattle.std.specs.Prelude.{IfOk};
    ghost use Rattle.msrp_plan.specs.Calls.{IsDueCall};
    ghost use Rattle.msrp_plan.specs.FifoLock.{Answers};
    ghost use Rattle.msrp_core.specs.Ports.{Adds, asked, claim_in};
    ghost use Rattle.msrp_sim.specs.Served.{AreFifo, IsFresh, as_port, lock_after_calls};

    /// A port without a call, where each core of the plan may make a call in each tick, with all
    /// the memory that it will ever need; [`Memory`] only if memory runs out.
    pub fn with_room(alloc: Global, plan: &Plan) -> Result<FifoPort, Memory>
        ensures { IfOk result (IsFresh plan.now) }
    {
        let room = plan.cores() as usize * plan.ticks() as usize;
        Ok(FifoPort {
            resources: plan.resources(),
            queues: Queues::new(),
            rooms: rooms_of(plan.cores(), plan.ticks()),
            calls: Vec::with_capacity(alloc, room)?,
        })
    }

    /// The calls so far; each resource's are answered as the one-thread lock answers them.
    pub fn calls(&self) -> &[PortCall]
        ensures value { result.now ≡ self.now.calls }
        ensures fifo { AreFifo result.now }
    {
        self.calls.as_slice()
    }

    /// The answer that a request of the resource would get now.
    pub fn reply(&self, res: ResId) -> Reply
        ensures { (c : ℕ) → claim_in c self.now.calls ≡ Phase.Free → Answers (lock_after_calls self.now.calls res.0) c (asked result) }
    {
        self.queues.reply(res)
    }

    /// Whether a poll of the core, which waits for the resource, would be granted now.
    pub fn grants(&self, core: CoreId, res: ResId) -> bool
        ensures { claim_in core.0 self.now.calls ≡ Phase.Queued res → Answers (lock_after_calls self.now.calls res.0) core.0 (Call.Poll result) }
    {
        self.queues.grants(core, res)
    }

    // An allowed call, answered as the lock answers it.
    fn serve(&mut self, call: PortCall)
        requires room { 0 < (as_port self.old).rooms call.core.0 }
        requires resource { call.res.0 < self.old.resources }
        requires turn { IsDueCall (claim_in call.core.0 self.old.calls) call.res call.call }
        requires answers { Answers (lock_after_calls self.old.calls call.res.0) call.core.0 call.call }
        ensures { Adds call.core call.res call.call (as_port self.old) (as_port self.new) }
    {
        self.queues.note(call);
        write(&mut self.calls, &mut self.rooms, call);
    }
}

impl Port for FifoPort {
    ghost use Rattle.msrp_sim.specs.Served.{as_port};

    ghost port = { as_port };

    fn ask(&mut self, core: CoreId, res: ResId) -> Reply {
        let reply = self.queues.reply(res);
        let call = request(reply);
        self.serve(PortCall { core, res, call });
        reply
    }

    fn poll(&mut self, core: CoreId, res: ResId) -> bool {
        let granted = self.queues.grants(core, res);
        let call = Call::Poll(granted);
        self.serve(PortCall { core, res, call });
        granted
    }

    fn leave(&mut self, core: CoreId, res: ResId) {
        // This read proves that what the calls say of the core is what the locks do.
        let _resources = self.resources;
        let call = Call::Leave;
        self.serve(PortCall { core, res, call });
    }

    fn room(&self, core: CoreId) -> u32 {
        self.rooms.get(core.0 as usize).copied().unwrap_or(0)
    }

    fn resources(&self) -> u32 {
        self.resources
    }
}
