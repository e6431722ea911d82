//! A hosted run, from handing out its cores to joining them all.
ghost use Rattle.std.specs.Prelude.{◌≡◌, ◌↔◌, ◌+◌, ◌<◌, ◌++◌, ◌∷◌};
ghost use Rattle.msrp_plan.specs.Common.{[], Err, Some, IfOk, IfErr, length, true, false};
ghost use Rattle.msrp_board.specs.declared.books.Conductor.TheVariants.{Opened, Unopened};
ghost use Rattle.msrp_board.specs.Steps.{with_conductor};
ghost use Rattle.msrp_hosted.specs.Hosted.{CanJoin, IsOfRun, new_core};
ghost use Rattle.msrp_hosted.specs.declared.run.NoCore.{NoCore as Reason};

use crate::cores::HostedCore;
use crate::settled::SettledRun;
use crate::steps::CoreStep;
use msrp_board::{Board, BoardSeat};
use msrp_levels::Levels;
use msrp_merge::CoreLog;
use msrp_plan::{Memory, Plan};
use msrp_run::{CoreParts, parts_of};
use std::alloc::Global;
use std::marker::Model;
use std::sync::Arc;
use std::vec::IntoIter;

/// A run of a plan that hands out its cores and joins them.
#[derive(Drop)]
pub struct HostedRun<'a> {
    plan: &'a Plan,
    board: Arc<Board, Global>,
    // The books of cores not handed out or joined, and the conductor's; there between two calls.
    rest: Option<BoardSeat>,
    // The number of cores handed out, and the parts of the others.
    handed: u32,
    parts: IntoIter<CoreParts<'a>>,
    // The logs of the joined cores.
    logs: Vec<CoreLog>,
}

impl<'a> Model for HostedRun<'a> {
    ghost use Rattle.msrp_hosted.specs.Hosted.{HostedRunModel};
    ghost use Rattle.msrp_hosted.specs.Inside.{run_view, IsRunView};

    ghost Value = { HostedRunModel };

    ghost view = { run_view };

    ghost invariant = { IsRunView };
}

/// Why no core is handed out.
#[derive(Clone, Copy, Debug, PartialEq, Eq)]
pub enum NoCore {
    /// All cores were handed out.
    AllOut,
    /// The board has more owners than it can count.
    Memory,
}

// Lets the cores in once the last one is handed out.
fn open_at_last(board: &Board, rest: &mut BoardSeat, last: bool)
    requires board { rest.old.board ≡ board.now }
    requires unopened { rest.old.conductor ≡ Some Unopened }
    ensures opened { last ≡ true → rest.new ≡ with_conductor Opened rest.old }
    ensures same { last ≡ false → rest.new ≡ rest.old }
{
    if last {
        board.open(rest);
    }
}

impl<'a> HostedRun<'a> {
    /// A run before its first core is handed out. The levels are the plan's. Allocates all the
    /// memory that the run and its cores need until the last one is joined.
    pub fn new(
        alloc: Global,
        plan: &'a Plan,
        levels: &'a Levels<'a>,
    ) -> Result<HostedRun<'a>, Memory>
        requires levels { levels.now ≡ plan.now }
        ensures plan { IfOk result (λ run. run.plan ≡ plan.now) }
        ensures none { IfOk result (λ run. (run.handed ≡ 0) × (run.joined ≡ [])) }
    {
        // This read proves that the plan is an accepted one, which has a core.
        let _accepted = plan.tasks();
        let Ok((board, rest)) = Board::new(alloc, plan.cores(), plan.resources(), plan.ticks())
        else {
            return Err(Memory);
        };
        let Ok(board) = Arc::new(alloc, board) else {
            return Err(Memory);
        };
        let parts = parts_of(alloc, plan, levels)?;
        let logs = Vec::with_capacity(alloc, plan.cores() as usize)?;
        Ok(HostedRun {
            plan,
            board,
            rest: Some(rest),
            handed: 0,
            parts: parts.into_iter(),
            logs,
        })
    }

    /// Whether all cores were handed out.
    pub fn is_all_out(&self) -> bool
        ensures { (result ≡ true) ↔ (self.now.handed ≡ self.now.plan.cores) }
    {
        self.handed == self.plan.cores()
    }

    /// Hands out the next core, in rising order. The last one lets all of them into tick 0.
    pub fn next_core(&mut self) -> Result<HostedCore<'a>, NoCore>
        ensures next { IfOk result (λ core. core ≡ new_core self.old) }
        ensures handed { IfOk result (λ _. self.new ≡ record self.old { handed = self.old.handed + 1 }) }
        ensures all { (result ≡ Err Reason.AllOut) ↔ (self.old.handed ≡ self.old.plan.cores) }
        ensures none { IfErr result (λ _. self.new ≡ self.old) }
    {
        if self.handed == self.plan.cores() {
            return Err(NoCore::AllOut);
        }
        let Ok(board) = Arc::try_clone(&self.board) else {
            return Err(NoCore::Memory);
        };
        Ok(self.hand_out(board))
    }

    // Hands out the next core, as another owner of the board.
    fn hand_out(&mut self, board: Arc<Board, Global>) -> HostedCore<'a>
        requires left { self.old.handed < self.old.plan.cores }
        requires board { board.value ≡ self.old.board }
        ensures next { result ≡ new_core self.old }
        ensures handed { self.new ≡ record self.old { handed = self.old.handed + 1 } }
    {
        let (Some(parts), Some(rest)) = (self.parts.next(), self.rest.take()) else {
            unreachable!()
        };
        let CoreParts { machine, log } = parts;
        let (seat, mut rest) = self.board.split(rest, machine.core());
        self.handed += 1;
        open_at_last(&self.board, &mut rest, self.handed == self.plan.cores());
        self.rest = Some(rest);
        HostedCore {
            machine,
            log,
            board,
            seat: Some(seat),
            step: CoreStep::Waiting,
        }
    }

    // Whether the core can be joined.
    fn can_join(&self, core: &HostedCore<'a>) -> bool
        ensures { (result ≡ true) ↔ CanJoin self.now core.now }
    {
        self.handed == self.plan.cores()
            && core.core().0 as usize == self.logs.len()
            && core.step() == CoreStep::Ended
    }

    fn take_back(&mut self, core: HostedCore<'a>)
        requires run { IsOfRun self.old core }
        requires can { CanJoin self.old core }
        ensures { self.new ≡ record self.old { joined = self.old.joined ++ core.entry.turns ∷ [] } }
    {
        let HostedCore {
            machine: _,
            log,
            board: _,
            seat,
            step: _,
        } = core;
        let (Some(seat), Some(rest)) = (seat, self.rest.take()) else {
            unreachable!()
        };
        // This read proves what holds of every seat: its core is one of the board's.
        let _conductor = seat.conductor();
        self.rest = Some(self.board.join(seat, rest));
        self.logs.push_reserved(log);
    }

    /// Joins a core of this run that has ended, in rising order. One that can't be joined yet is
    /// given back, and nothing has changed.
    pub fn join(&mut self, core: HostedCore<'a>) -> Result<(), HostedCore<'a>>
        requires { IsOfRun self.old core }
        ensures joined { IfOk result (λ _. CanJoin self.old core.entry × (self.new ≡ record self.old { joined = self.old.joined ++ core.entry.turns ∷ [] })) }
        ensures early { IfErr result (λ back. (¬ CanJoin self.old core.entry) × (back ≡ core.entry) × (self.new ≡ self.old)) }
    {
        if !self.can_join(&core) {
            return Err(core);
        }
        self.take_back(core);
        Ok(())
    }

    /// Settles the run after all its cores are joined; before that it is given back. Allocates
    /// nothing.
    pub fn settle(self) -> Result<SettledRun<'a>, HostedRun<'a>>
        ensures settled { IfOk result (λ settled. (self.entry.handed ≡ self.entry.plan.cores) × (length self.entry.joined ≡ self.entry.plan.cores) × (settled ≡ record { plan = self.entry.plan; turns = self.entry.joined })) }
        ensures early { IfErr result (λ back. back ≡ self.entry) }
    {
        let cores = self.plan.cores();
        if self.handed != cores || self.logs.len() != cores as usize {
            return Err(self);
        }
        let HostedRun {
            plan,
            board,
            rest,
            handed,
            parts,
            logs,
        } = self;
        // This read proves that the plan is an accepted one.
        let _accepted = plan.tasks();
        let board = match Arc::try_unwrap(board) {
            Ok(board) => board,
            Err(board) => {
                return Err(HostedRun {
                    plan,
                    board,
                    rest,
                    handed,
                    parts,
                    logs,
                });
            }
        };
        let Some(rest) = rest else { unreachable!() };
        let settled = board.settle(rest);
        Ok(SettledRun {
            plan,
            logs,
            settled,
        })
    }
}
