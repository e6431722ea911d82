//! One turn of a machine over queues that it only reads; the caller applies the turn's call.
ghost use Rattle.std.specs.Prelude.{◌≡◌, ◌<◌};
ghost use Rattle.msrp_plan.specs.Common.{IfNone, IfSome, length};
ghost use Rattle.std.specs.Option.{is_some};
ghost use Rattle.msrp_core.specs.Machine.{next_known};
ghost use Rattle.msrp_core.specs.Ports.{claim_in};
ghost use Rattle.msrp_sim.specs.TurnPorts.{HasRepeated, HasTurned, IsTurnPort, TurnPortModel, port_after, unless_granted};

use crate::tickets::{Queues, request};
use msrp_core::{Machine, Port, PortCall, Reply};
use msrp_plan::{Call, CoreId, ResId, Row};
use std::marker::{Brand, Model, PhantomData};

// Names the calls before the turn, and the queues at that time.
trait Before {
    ghost use Rattle.std.specs.Prelude.{List};
    ghost use Rattle.msrp_core.specs.declared.port.PortCall.{PortCall as CoreCall};
    ghost use Rattle.msrp_sim.specs.declared.tickets.Queues.{Queues as TurnQueues};

    ghost calls: { List CoreCall };

    ghost queues: { TurnQueues };
}

impl Before for Brand {
    ghost use Rattle.std.specs.Prelude.{[]};
    ghost use Rattle.msrp_sim.specs.TurnPorts.{no_queues};

    ghost calls = { [] };

    ghost queues = { no_queues };
}

// A port for one turn of one core: it answers from the queues.
#[derive(Drop)]
struct TurnPort<'a, B: Before> {
    queues: &'a Queues,
    core: CoreId,
    resources: u32,
    call: Option<PortCall>,
    before: PhantomData<B>,
}

impl<'a, B: Before> Model for TurnPort<'a, B> {
    ghost Value = { TurnPortModel };

    ghost view = { λ p. record { core = p.core; resources = p.resources; call = p.call } };

    ghost invariant = { λ p. IsTurnPort B.calls B.queues p.queues.now p.call };
}

impl<'a, B: Before> Port for TurnPort<'a, B> {
    ghost port = { λ p. port_after B.calls p.core p.resources p.call };

    fn ask(&mut self, core: CoreId, res: ResId) -> Reply {
        let reply = self.queues.reply(res);
        let call = request(reply);
        self.call = Some(PortCall { core, res, call });
        reply
    }

    fn poll(&mut self, core: CoreId, res: ResId) -> bool {
        let granted = self.queues.grants(core, res);
        let call = Call::Poll(granted);
        self.call = Some(PortCall { core, res, call });
        granted
    }

    fn leave(&mut self, core: CoreId, res: ResId) {
        let call = Call::Leave;
        self.call = Some(PortCall { core, res, call });
    }

    fn room(&self, core: CoreId) -> u32 {
        if core == self.core && self.call.is_none() {
            1
        } else {
            0
        }
    }

    fn resources(&self) -> u32 {
        self.resources
    }
}

// The row of a turn, and its call, if it made one.
#[derive(Drop)]
pub struct Turned {
    pub row: Row,
    pub call: Option<PortCall>,
}

// The machine's turn over such a port.
#[inline(always)]
fn turn_over<B: Before>(queues: &Queues, resources: u32, machine: &mut Machine<'_>) -> Turned
    requires tick { machine.old.tick < machine.old.plan.ticks }
    requires resources { resources ≡ length machine.old.plan.resources }
    requires calls { claim_in machine.old.core B.calls ≡ machine.old.phase }
    requires queues { queues.now ≡ B.queues }
    ensures { HasTurned queues.now machine.old machine.new result.row result.call }
{
    let mut port = TurnPort::<B> {
        queues,
        core: machine.core(),
        resources,
        call: None,
        before: PhantomData,
    };
    let row = machine.turn_anew(&mut port);
    Turned {
        row,
        call: port.call,
    }
}

// The machine's turn if its last one was a poll that wasn't granted and this one is too.
#[inline(always)]
fn spin_by(queues: &Queues, machine: &mut Machine<'_>) -> Option<Row>
    requires { machine.old.tick < machine.old.plan.ticks }
    ensures none { IfNone result (machine.new ≡ machine.old) }
    ensures known { result ≡ unless_granted queues.now machine.old.core machine.old.spin }
    ensures repeated { IfSome result (HasRepeated queues.now machine.old machine.new) }
{
    let res = machine.polled()?;
    if queues.grants(machine.core(), res) {
        None
    } else {
        machine.spin_on()
    }
}

// The machine's turn if it repeats the last row. Needs no port.
#[inline(always)]
pub(crate) fn repeat_by(queues: &Queues, machine: &mut Machine<'_>) -> Option<Row>
    requires { machine.old.tick < machine.old.plan.ticks }
    ensures none { IfNone result (machine.new ≡ machine.old) }
    ensures known { result ≡ unless_granted queues.now machine.old.core (next_known machine.old) }
    ensures repeated { IfSome result (HasRepeated queues.now machine.old machine.new) }
{
    match machine.repeat() {
        Some(row) => Some(row),
        None => spin_by(queues, machine),
    }
}

// The machine's turn; a global resource answers from its queue.
#[inline(always)]
pub(crate) fn turn_by(queues: &Queues, resources: u32, machine: &mut Machine<'_>) -> Turned
    requires tick { machine.old.tick < machine.old.plan.ticks }
    requires resources { resources ≡ length machine.old.plan.resources }
    ensures { HasTurned queues.now machine.old machine.new result.row result.call }
{
    turn_over::<Brand>(queues, resources, machine)
}
