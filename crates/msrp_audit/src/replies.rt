//! One turn of a machine, with a row's own answer in place of a queue's: so a core is judged alone.
ghost use Rattle.std.specs.Prelude.{◌≡◌, ◌<◌, ◌+◌, ◌++◌, ◌∷◌};
ghost use Rattle.msrp_plan.specs.Common.{[], List, length, true, None, ForSome, IsCoreTurn};
ghost use Rattle.msrp_plan.specs.declared.rows.Row.{Row as TraceRow};
ghost use Rattle.msrp_core.specs.Machine.{StandsAfter};
ghost use Rattle.msrp_core.specs.Ports.{Adds, claim_in};
ghost use Rattle.msrp_audit.specs.Foresight.{same_action};
ghost use Rattle.msrp_sim.specs.TurnPorts.{port_after};
ghost use Rattle.msrp_audit.specs.Inside.Replies.{is_yes, is_answered};

use msrp_core::{Machine, Port, PortCall, Reply};
use msrp_plan::{Call, CoreId, Kind, Plan, ResId, Row};
use std::marker::{Brand, PhantomData};

// Names the core's calls before the turn, and the turn's answer.
trait Script {
    ghost use Rattle.std.specs.Prelude.{List, Bool};
    ghost use Rattle.msrp_core.specs.declared.port.PortCall.{PortCall as CoreCall};

    ghost before: { List CoreCall };

    ghost yes: { Bool };
}

impl Script for Brand {
    ghost use Rattle.std.specs.Prelude.{[], true};

    ghost before = { [] };

    ghost yes = { true };
}

// Whether the row says that its job holds the resource from now on.
fn says_yes(kind: Kind) -> bool
    ensures { result ≡ is_yes kind }
{
    matches!(kind, Kind::Take | Kind::Grant)
}

// A port for one turn of one core: it answers yes to all, or no to all.
#[derive(Drop)]
struct TurnPort<B: Script> {
    core: CoreId,
    resources: u32,
    yes: bool,
    call: Option<PortCall>,
    script: PhantomData<B>,
    ghost same: { yes ≡ B.yes },
    ghost answered: { ForSome call (λ e. is_answered B.yes e.call ≡ true) },
}

impl<B: Script> TurnPort<B> {
    // The call of the turn.
    fn write(&mut self, core: CoreId, res: ResId, call: Call)
        requires core { core.0 ≡ self.old.core.0 }
        requires first { self.old.call ≡ None }
        requires answered { is_answered B.yes call ≡ true }
        ensures { Adds core res call (port_after B.before self.old.core self.old.resources self.old.call) (port_after B.before self.new.core self.new.resources self.new.call) }
    {
        self.call = Some(PortCall { core, res, call });
    }
}

impl<B: Script> Port for TurnPort<B> {
    ghost port = { λ p. port_after B.before p.core p.resources p.call };

    fn ask(&mut self, core: CoreId, res: ResId) -> Reply {
        if self.yes {
            self.write(core, res, Call::Ask(0));
            Reply::Taken
        } else {
            self.write(core, res, Call::Ask(1));
            Reply::Queued(1)
        }
    }

    fn poll(&mut self, core: CoreId, res: ResId) -> bool {
        self.write(core, res, Call::Poll(self.yes));
        self.yes
    }

    fn leave(&mut self, core: CoreId, res: ResId) {
        self.write(core, res, Call::Leave);
    }

    fn room(&self, core: CoreId) -> u32 {
        if core == self.core && self.call.is_none() {
            1
        } else {
            0
        }
    }

    fn resources(&self) -> u32 {
        self.resources
    }
}

// The machine's turn over such a port.
fn turn_over<B: Script>(plan: &Plan, machine: &mut Machine<'_>, row: Row) -> Row
    requires plan { machine.old.plan ≡ plan.now }
    requires tick { machine.old.tick < machine.old.plan.ticks }
    requires before { claim_in machine.old.core B.before ≡ machine.old.phase }
    requires answer { B.yes ≡ is_yes row.kind }
    ensures plan { machine.new.plan ≡ machine.old.plan }
    ensures core { machine.new.core ≡ machine.old.core }
    ensures tick { machine.new.tick ≡ machine.old.tick + 1 }
    ensures row { (log : List TraceRow) → StandsAfter machine.old log → IsCoreTurn machine.old.plan machine.old.core log result }
    ensures stands { (log : List TraceRow) → StandsAfter machine.old log → StandsAfter machine.new (log ++ result ∷ []) }
    ensures kind { (log : List TraceRow) → StandsAfter machine.old log → same_action row.kind result.kind ≡ true → row.kind ≡ result.kind }
{
    let mut port = TurnPort::<B> {
        core: machine.core(),
        resources: plan.resources(),
        yes: says_yes(row.kind),
        call: None,
        script: PhantomData,
    };
    machine.turn(&mut port)
}

/// The machine's turn with the row's answer for a global resource: if the row does what the core
/// does, it has the same answer.
pub(crate) fn turn_as(plan: &Plan, machine: &mut Machine<'_>, row: Row) -> Row
    requires plan { machine.old.plan ≡ plan.now }
    requires tick { machine.old.tick < machine.old.plan.ticks }
    ensures plan { machine.new.plan ≡ machine.old.plan }
    ensures core { machine.new.core ≡ machine.old.core }
    ensures tick { machine.new.tick ≡ machine.old.tick + 1 }
    ensures row { (log : List TraceRow) → StandsAfter machine.old log → IsCoreTurn machine.old.plan machine.old.core log result }
    ensures stands { (log : List TraceRow) → StandsAfter machine.old log → StandsAfter machine.new (log ++ result ∷ []) }
    ensures kind { (log : List TraceRow) → StandsAfter machine.old log → same_action row.kind result.kind ≡ true → row.kind ≡ result.kind }
{
    turn_over::<Brand>(plan, machine, row)
}
