//! One core of a run, on a thread of the caller's.
ghost use Rattle.std.specs.Prelude.{◌≡◌, ◌≢◌, ◌⊎◌, ◌↔◌, ◌++◌, ◌∷◌};
ghost use Rattle.msrp_plan.specs.Common.{[], true};
ghost use Rattle.msrp_merge.specs.declared.logs.Turn.{Turn as TurnAt};
ghost use Rattle.msrp_hosted.specs.Hosted.{HostedCoreModel};
ghost use Rattle.msrp_hosted.specs.declared.steps.CoreStep.{CoreStep as Step};
ghost use Rattle.msrp_hosted.specs.declared.steps.Turned.{Turned as Answer};

use crate::steps::{CoreStep, Turned};
use msrp_board::{Board, BoardSeat};
use msrp_core::Machine;
use msrp_merge::CoreLog;
use msrp_plan::CoreId;
use msrp_run::{Begun, Plain, Progress, begin, finish};
use std::alloc::Global;
use std::marker::Model;
use std::sync::Arc;

/// A core of a run: its machine, its log, and its seat on the run's board.
///
/// One thread drives it at a time. No call waits for another thread, takes a lock or allocates.
#[derive(Drop)]
pub struct HostedCore<'a> {
    pub(crate) machine: Machine<'a>,
    pub(crate) log: CoreLog,
    pub(crate) board: Arc<Board, Global>,
    // There is one between two calls.
    pub(crate) seat: Option<BoardSeat>,
    pub(crate) step: CoreStep,
}

impl<'a> Model for HostedCore<'a> {
    ghost use Rattle.msrp_hosted.specs.Hosted.{HostedCoreModel};
    ghost use Rattle.msrp_hosted.specs.Inside.{core_view, IsCoreView};

    ghost Value = { HostedCoreModel };

    ghost view = { core_view };

    ghost invariant = { IsCoreView };
}

impl<'a> HostedCore<'a> {
    /// The number of the core.
    pub fn core(&self) -> CoreId
        ensures { result.0 ≡ self.now.core }
    {
        self.machine.core()
    }

    /// What the core is doing.
    pub fn step(&self) -> CoreStep
        ensures { result ≡ self.now.step }
    {
        self.step
    }

    // One look at the board, for a waiting core.
    fn look(&mut self) -> Turned
        requires { self.old.step ≡ Step.Waiting }
        ensures waits { result ≡ Answer.Waits → self.new ≡ self.old }
        ensures turn { (turn : TurnAt) → result ≡ Answer.Turn turn → self.new ≡ record self.old { turns = self.old.turns ++ turn ∷ []; step = Step.InTurn } }
        ensures ended { result ≡ Answer.Ended → self.new ≡ record self.old { step = Step.Ended } }
        ensures waited { result ≢ Answer.InTurn }
    {
        let Some(seat) = self.seat.take() else {
            unreachable!()
        };
        let (begun, back) = begin(&mut self.machine, &mut self.log, &self.board, seat, &Plain);
        self.seat = Some(back);
        match begun {
            Begun::Waits => Turned::Waits,
            Begun::Stopped => {
                self.step = CoreStep::Ended;
                Turned::Ended
            }
            Begun::Turn(_) => {
                self.step = CoreStep::InTurn;
                Turned::Turn(self.log.turn(self.machine.tick() - 1))
            }
        }
    }

    /// Looks once whether the core is let into its tick and, if so, makes its turn. The core is in
    /// the turn until [`arrive`](HostedCore::arrive): do the job's work in between.
    pub fn turn(&mut self) -> Turned
        ensures waits { result ≡ Answer.Waits → (self.old.step ≡ Step.Waiting) × (self.new ≡ self.old) }
        ensures turn { (turn : TurnAt) → result ≡ Answer.Turn turn → (self.old.step ≡ Step.Waiting) × (self.new ≡ record self.old { turns = self.old.turns ++ turn ∷ []; step = Step.InTurn }) }
        ensures in_turn { (result ≡ Answer.InTurn) ↔ (self.old.step ≡ Step.InTurn) }
        ensures same { self.old.step ≡ Step.InTurn → self.new ≡ self.old }
        ensures ended { result ≡ Answer.Ended → self.new ≡ record self.old { step = Step.Ended } }
    {
        match self.step {
            CoreStep::Waiting => self.look(),
            CoreStep::InTurn => Turned::InTurn,
            CoreStep::Ended => Turned::Ended,
        }
    }

    fn leave(&mut self)
        requires { self.old.step ≡ Step.InTurn }
        ensures { (self.new ≡ record self.old { step = Step.Waiting }) ⊎ (self.new ≡ record self.old { step = Step.Ended }) }
    {
        let Some(seat) = self.seat.take() else {
            unreachable!()
        };
        let (progress, back) = finish(&self.machine, &self.log, &self.board, seat);
        self.seat = Some(back);
        self.step = match progress {
            Progress::Ended => CoreStep::Ended,
            _ => CoreStep::Waiting,
        };
    }

    /// Ends the core's turn; false if there is none to end. Once each core has ended its turn of
    /// this tick, all are let into the next.
    pub fn arrive(&mut self) -> bool
        ensures answer { (result ≡ true) ↔ (self.old.step ≡ Step.InTurn) }
        ensures arrived { result ≡ true → (self.new ≡ record self.old { step = Step.Waiting }) ⊎ (self.new ≡ record self.old { step = Step.Ended }) }
        ensures same { self.old.step ≢ Step.InTurn → self.new ≡ self.old }
    {
        if self.step != CoreStep::InTurn {
            return false;
        }
        self.leave();
        true
    }
}
