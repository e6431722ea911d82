//! A machine over the tests' own port: it obeys the port's answers, even if it is never granted.
ghost use Rattle.std.specs.Prelude.{◌≡◌, ◌<◌, ◌≤◌, ◌+◌, ◌==◌};
ghost use Rattle.msrp_plan.specs.Common.{cond, vec_len, vec_capacity, IfOk};
ghost use Rattle.msrp_core.specs.Ports.{PortModel, Adds, claim_in};
ghost use Rattle.msrp_policy_tests.specs.Deaf.{deaf_port};

use crate::plans::plan_of;
use msrp_core::{Machine, Port, PortCall, Reply};
use msrp_levels::Levels;
use msrp_plan::{Call, CoreId, Kind, Memory, Phase, Plan, ResId, Row};
use std::alloc::Global;
use std::test::*;

// A port for one core: every request queues after one other, and no poll is granted.
#[derive(Drop)]
struct Deaf {
    core: CoreId,
    room: u32,
    resources: u32,
    calls: Vec<PortCall>,
    ghost left: { vec_len calls + room ≤ vec_capacity calls },
}

impl Deaf {
    fn with_room(alloc: Global, plan: &Plan, core: CoreId) -> Result<Deaf, Memory>
        ensures { IfOk result (λ port. claim_in core.0 (deaf_port port.core port.room port.resources port.calls.items).calls ≡ Phase.Free) }
    {
        Ok(Deaf {
            core,
            room: plan.ticks(),
            resources: plan.resources(),
            calls: Vec::with_capacity(alloc, plan.ticks() as usize)?,
        })
    }

    fn write(&mut self, core: CoreId, res: ResId, call: Call)
        requires { 0 < cond (core.0 == self.old.core.0) self.old.room 0 }
        ensures { Adds core res call (deaf_port self.old.core self.old.room self.old.resources self.old.calls.items) (deaf_port self.new.core self.new.room self.new.resources self.new.calls.items) }
    {
        self.room -= 1;
        self.calls.push_reserved(PortCall { core, res, call });
    }
}

impl Port for Deaf {
    ghost port = { λ p. deaf_port p.core p.room p.resources p.calls.items };

    fn ask(&mut self, core: CoreId, res: ResId) -> Reply {
        self.write(core, res, Call::Ask(1));
        Reply::Queued(1)
    }

    fn poll(&mut self, core: CoreId, res: ResId) -> bool {
        self.write(core, res, Call::Poll(false));
        false
    }

    fn leave(&mut self, core: CoreId, res: ResId) {
        self.write(core, res, Call::Leave);
    }

    fn room(&self, core: CoreId) -> u32 {
        if core == self.core { self.room } else { 0 }
    }

    fn resources(&self) -> u32 {
        self.resources
    }
}

// The row of the next turn, if the core has one left.
fn next_row<P: Port>(machine: &mut Machine, port: &mut P, plan: &Plan) -> Option<Row>
    requires plan { machine.old.plan ≡ plan.now }
    requires claim { claim_in machine.old.core (P.port port.old).calls ≡ machine.old.phase }
    ensures plan { machine.new.plan ≡ plan.now }
    ensures claim { claim_in machine.new.core (P.port port.new).calls ≡ machine.new.phase }
{
    if machine.tick() >= plan.ticks() {
        return None;
    }
    if port.room(machine.core()) == 0 || port.resources() != plan.resources() {
        return None;
    }
    Some(machine.turn(port))
}

// Two tasks on two cores, each with a section of one unit on the same resource.
const TWO_SECTIONS: &[u8] =
    b"msrp,1\ncores,2\nticks,6\nresource,g\ntask,a,0,20,8,0\nop,lock,g\nop,run,1\nop,unlock,g\ntask,b,1,20,8,0\nop,lock,g\nop,run,1\nop,unlock,g\n";

#[test]
fn who_is_never_granted_spins_to_the_end(rt: HostRuntime) -> Result<(), Fail> {
    let sections = plan_of(rt.alloc(), TWO_SECTIONS)?;
    let plan = &sections;
    let levels = Levels::of(rt.alloc(), plan)?;
    let core = CoreId(1);
    if core.0 >= plan.cores() {
        return Ok(());
    }
    let mut machine = Machine::with_room(rt.alloc(), plan, &levels, core)?;
    let mut port = Deaf::with_room(rt.alloc(), plan, core)?;
    let kinds = [
        Kind::Queue,
        Kind::Spin,
        Kind::Spin,
        Kind::Spin,
        Kind::Spin,
        Kind::Spin,
    ];
    for kind in kinds {
        let row = next_row(&mut machine, &mut port, plan);
        assert_eq!(rt; row.map(|row| row.kind), Some(kind));
    }
    assert!(rt; next_row(&mut machine, &mut port, plan).is_none());
    Ok(())
}
