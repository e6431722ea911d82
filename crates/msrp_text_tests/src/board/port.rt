//! A port over a core's seat, for one turn on a board: its five calls obey a port's contract, by
//! what the board and the seat promise alone.
ghost use Rattle.std.specs.Prelude.{◌≡◌, ◌<◌, ◌∷◌, ◌++◌};
ghost use Rattle.msrp_plan.specs.Common.{claim_after};
ghost use Rattle.msrp_plan.specs.declared.units.Call.TheVariants.{Ask, Poll, Leave};
ghost use Rattle.msrp_plan.specs.declared.units.Phase.TheVariants.{Free, Queued, Holding};
ghost use Rattle.msrp_board.specs.SeatPorts.{port_calls, port_room, AddsCall, IsPort};

use msrp_board::{Board, BoardSeat};
use msrp_plan::{CoreId, ResId};

/// A core's seat, let into its tick, as a port.
#[derive(Drop)]
pub struct SeatPort<'a> {
    pub board: &'a Board,
    pub core: CoreId,
    pub seat: BoardSeat,
}

impl SeatPort<'_> {
    /// The number ahead of the core's request, which is granted if it is 0.
    pub fn ask(&mut self, core: CoreId, res: ResId) -> u32
        requires port { IsPort self.old.board.now self.old.core.0 self.old.seat }
        requires room { 0 < port_room self.old.seat core.0 }
        requires free { claim_after (port_calls self.old.seat core.0) ≡ Free }
        requires resource { res.0 < self.old.board.now.size.resources }
        ensures call { AddsCall core.0 res (Ask result) self.old.seat self.new.seat }
        ensures port { IsPort self.old.board.now self.old.core.0 self.new.seat }
    {
        let _ = core;
        self.board.ask(&mut self.seat, res).ahead
    }

    /// Whether the resource that the core waits for is granted.
    pub fn poll(&mut self, core: CoreId, res: ResId) -> bool
        requires port { IsPort self.old.board.now self.old.core.0 self.old.seat }
        requires room { 0 < port_room self.old.seat core.0 }
        requires queued { claim_after (port_calls self.old.seat core.0) ≡ Queued res }
        ensures call { AddsCall core.0 res (Poll result) self.old.seat self.new.seat }
        ensures port { IsPort self.old.board.now self.old.core.0 self.new.seat }
    {
        let _ = (core, res);
        self.board.poll(&mut self.seat).granted
    }

    /// Releases the resource that the core holds.
    pub fn leave(&mut self, core: CoreId, res: ResId)
        requires port { IsPort self.old.board.now self.old.core.0 self.old.seat }
        requires room { 0 < port_room self.old.seat core.0 }
        requires holding { claim_after (port_calls self.old.seat core.0) ≡ Holding res }
        ensures call { AddsCall core.0 res Leave self.old.seat self.new.seat }
        ensures port { IsPort self.old.board.now self.old.core.0 self.new.seat }
    {
        let _ = (core, res);
        self.board.leave(&mut self.seat);
    }

    /// How many more calls the core may make in its tick.
    pub fn room(&self, core: CoreId) -> u32
        requires { IsPort self.now.board.now self.now.core.0 self.now.seat }
        ensures { result ≡ port_room self.now.seat core.0 }
    {
        let has_acted = self.seat.acted();
        if core.0 == self.core.0 && !has_acted {
            1
        } else {
            0
        }
    }

    /// The number of resources.
    pub fn resources(&self) -> u32
        ensures { result ≡ self.now.board.now.size.resources }
    {
        self.board.size().resources
    }
}
