//! The machine of one core: a turn makes a row, without a log of the rows before it.
ghost use Rattle.std.specs.Prelude.{◌≡◌, ◌<◌, ◌+◌, ◌++◌, ◌∷◌};
ghost use Rattle.msrp_plan.specs.Common.{[], List, Some, None, IfOk, IfSome, IfNone, length, true, IsSomeAnd, is_global, IsCoreTurn};
ghost use Rattle.msrp_plan.specs.declared.ids.ResId.{ResId as Resource};
ghost use Rattle.msrp_plan.specs.declared.rows.Row.{Row as TraceRow};
ghost use Rattle.msrp_core.specs.Ports.{claim_in, IsQuiet, MakesCall};
ghost use Rattle.msrp_core.specs.CoreStates.{IsCoreState};
ghost use Rattle.msrp_core.specs.Machine.{IsMachineTurn, IsRefused, RepeatsOnly, StandsAfter};

use crate::jobs::Jobs;
use crate::port::Port;
use crate::repeats::Poll;
use crate::states::CoreState;
use msrp_levels::Levels;
use msrp_plan::{CoreId, JobId, Kind, Memory, Phase, Plan, ResId, Row};
use std::alloc::Global;
use std::marker::Model;

/// One core of a plan between two of its turns: the tick of the next turn, what the core holds or
/// waits for, and the progress of each job.
///
/// A machine stores no log. It *stands after* a log if the log's rows leave the core as the machine
/// is. A turn's promise holds for every log that the machine stands after. So its rows from the
/// first turn on are a run of its core, whatever the port answers.
#[derive(Drop)]
pub struct Machine<'a> {
    tick: u32,
    jobs: Jobs<'a>,
    // How many more times the last turn's row repeats, and the row's job.
    again: u32,
    job: Option<JobId>,
    // The last turn's poll, if it wasn't granted.
    poll: Option<Poll>,
}

impl<'a> Model for Machine<'a> {
    ghost use Rattle.msrp_core.specs.Machine.{MachineModel};

    ghost Value = { MachineModel };

    ghost use Rattle.msrp_core.specs.MachineView.{machine_view, IsMachineView};

    ghost view = { machine_view };

    ghost invariant = { IsMachineView };
}

impl<'a> Machine<'a> {
    /// A machine before its first turn, with all the memory that it will ever need; [`Memory`] only
    /// if memory runs out. The levels are the plan's.
    pub fn with_room(
        alloc: Global,
        plan: &'a Plan,
        levels: &'a Levels<'a>,
        core: CoreId,
    ) -> Result<Machine<'a>, Memory>
        requires levels { levels.now ≡ plan.now }
        requires core { core.0 < plan.now.cores }
        ensures plan { IfOk result (λ machine. machine.plan ≡ plan.now) }
        ensures core { IfOk result (λ machine. machine.core ≡ core.0) }
        ensures phase { IfOk result (λ machine. machine.phase ≡ Phase.Free) }
        ensures stands { IfOk result (λ machine. StandsAfter machine []) }
        ensures again { IfOk result (λ machine. machine.again ≡ None) }
        ensures spin { IfOk result (λ machine. machine.spin ≡ None) }
    {
        let jobs = Jobs::with_room(alloc, plan, levels, core)?;
        Ok(Machine {
            tick: 0,
            jobs,
            again: 0,
            job: None,
            poll: None,
        })
    }

    /// The same machine in memory of its own: its turns are those of the other. It is [`Memory`]
    /// only where that was refused.
    pub fn copied(&self, alloc: Global) -> Result<Machine<'a>, Memory>
        ensures { IfOk result (λ machine. machine ≡ self.now) }
    {
        Ok(Machine {
            tick: self.tick,
            jobs: self.jobs.copied(alloc)?,
            again: self.again,
            job: self.job,
            poll: self.poll,
        })
    }

    /// The tick of the next turn: the number of turns so far.
    pub fn tick(&self) -> u32
        ensures { result ≡ self.now.tick }
    {
        self.tick
    }

    /// The machine's core.
    pub fn core(&self) -> CoreId
        ensures { result.0 ≡ self.now.core }
    {
        self.jobs.core
    }

    /// What the core holds or waits for between two turns.
    pub fn phase(&self) -> Phase
        ensures { result ≡ self.now.phase }
    {
        self.jobs.phase
    }

    /// What decides which job runs next.
    #[inline(always)]
    pub fn state(&self) -> CoreState
        ensures { (log : List TraceRow) → StandsAfter self.now log → IsCoreState self.now.plan self.now.core (length log) log result }
    {
        self.jobs.state(self.tick)
    }

    /// The core's next turn if it is known to repeat the last row: the job has work next, or the
    /// core idles, and no job of the core is released. Needs no choice and no call of a port.
    /// Otherwise none, and nothing changes.
    #[inline(always)]
    pub fn repeat(&mut self) -> Option<Row>
        ensures none { IfNone result (self.new ≡ self.old) }
        ensures left { IfSome result (λ _. self.old.tick < self.old.plan.ticks) }
        ensures known { result ≡ self.old.again }
        ensures phase { self.new.phase ≡ self.old.phase }
        ensures res { IfSome result (λ row. row.res ≡ None) }
        ensures turn { IfSome result (IsMachineTurn self.old self.new) }
    {
        if self.again == 0 {
            return None;
        }
        self.again -= 1;
        let tick = self.tick;
        self.tick = tick + 1;
        Some(self.jobs.act_again(tick, self.job))
    }

    /// The resource of the last turn's poll, if that wasn't granted. The next turn polls it again.
    #[inline(always)]
    pub fn polled(&self) -> Option<ResId>
        ensures none { IfNone result (self.now.spin ≡ None) }
        ensures poll { IfSome result (λ res. IsSomeAnd self.now.spin (λ row. (row.kind ≡ Kind.Spin) × (row.res ≡ Some res))) }
    {
        match self.poll {
            Some(poll) => Some(poll.res),
            None => None,
        }
    }

    /// The core's next turn if the last one was a poll that wasn't granted and this one is too: its
    /// row is the last row, a tick later. Needs no choice, even if jobs are released. The caller
    /// has asked the resource, which refuses. Otherwise none, and nothing changes.
    #[inline(always)]
    pub fn spin_on(&mut self) -> Option<Row>
        requires tick { self.old.tick < self.old.plan.ticks }
        ensures none { IfNone result (self.new ≡ self.old) }
        ensures known { result ≡ self.old.spin }
        ensures phase { self.new.phase ≡ self.old.phase }
        ensures spin { IfSome result (IsRefused self.old) }
        ensures turn { IfSome result (IsMachineTurn self.old self.new) }
    {
        let poll = self.poll?;
        let now = self.tick;
        self.tick = now + 1;
        Some(self.jobs.spin(now, poll.job, poll.res))
    }

    /// The core's next turn, as [`Machine::turn`] makes it, without first trying
    /// [`Machine::repeat`]. Computes how often its row will repeat.
    #[inline(always)]
    pub fn turn_anew<P: Port>(&mut self, port: &mut P) -> Row
        requires tick { self.old.tick < self.old.plan.ticks }
        requires claim { claim_in self.old.core (P.port port.old).calls ≡ self.old.phase }
        requires room { 0 < (P.port port.old).rooms self.old.core }
        requires resources { (P.port port.old).resources ≡ length self.old.plan.resources }
        ensures plan { self.new.plan ≡ self.old.plan }
        ensures core { self.new.core ≡ self.old.core }
        ensures tick { self.new.tick ≡ self.old.tick + 1 }
        ensures row { (log : List TraceRow) → StandsAfter self.old log → IsCoreTurn self.old.plan self.old.core log result }
        ensures stands { (log : List TraceRow) → StandsAfter self.old log → StandsAfter self.new (log ++ result ∷ []) }
        ensures again { RepeatsOnly self.new result }
        ensures call { (res : Resource) → result.res ≡ Some res → is_global self.old.plan res.0 ≡ true → MakesCall self.old.plan result (P.port port.old) (P.port port.new) }
        ensures quiet { IsQuiet self.old.plan result → port.new ≡ port.old }
        ensures claim { claim_in self.new.core (P.port port.new).calls ≡ self.new.phase }
    {
        let tick = self.tick;
        self.tick += 1;
        let chosen = self.jobs.choose(tick);
        let row = self.jobs.act_chosen(port, tick, chosen);
        self.job = row.job;
        self.again = self.jobs.repeats(self.tick, row.kind, row.job);
        self.poll = self.jobs.poll_of(&row);
        row
    }

    /// The core's next turn: the job that runs does its next action, or the core idles. A turn on a
    /// global resource calls the port once, any other doesn't. It never fails and needs no memory.
    /// The row is the next one of every log that the machine stands after.
    #[inline(always)]
    pub fn turn<P: Port>(&mut self, port: &mut P) -> Row
        requires tick { self.old.tick < self.old.plan.ticks }
        requires claim { claim_in self.old.core (P.port port.old).calls ≡ self.old.phase }
        requires room { 0 < (P.port port.old).rooms self.old.core }
        requires resources { (P.port port.old).resources ≡ length self.old.plan.resources }
        ensures plan { self.new.plan ≡ self.old.plan }
        ensures core { self.new.core ≡ self.old.core }
        ensures tick { self.new.tick ≡ self.old.tick + 1 }
        ensures row { (log : List TraceRow) → StandsAfter self.old log → IsCoreTurn self.old.plan self.old.core log result }
        ensures stands { (log : List TraceRow) → StandsAfter self.old log → StandsAfter self.new (log ++ result ∷ []) }
        ensures known { IfSome self.old.again (λ next. result ≡ next) }
        ensures again { RepeatsOnly self.new result }

        // The call of the port is the row's own, and the row has the port's answer.
        ensures call { (res : Resource) → result.res ≡ Some res → is_global self.old.plan res.0 ≡ true → MakesCall self.old.plan result (P.port port.old) (P.port port.new) }
        ensures quiet { IsQuiet self.old.plan result → port.new ≡ port.old }
        ensures claim { claim_in self.new.core (P.port port.new).calls ≡ self.new.phase }
    {
        match self.repeat() {
            Some(row) => row,
            None => self.turn_anew(port),
        }
    }
}
