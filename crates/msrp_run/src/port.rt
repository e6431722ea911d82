//! A core's seat as the port of its machine, for one turn.
ghost use Rattle.std.specs.Prelude.{◌≡◌};
ghost use Rattle.msrp_plan.specs.Common.{None, Some};
ghost use Rattle.msrp_run.specs.Ports.{IsSeatPort, SeatPortModel, port_of};
ghost use Rattle.msrp_run.specs.Common.{BoardModel};

use msrp_board::{Board, BoardSeat};
use msrp_core::{Port, Reply};
use msrp_merge::Place;
use msrp_plan::{CoreId, ResId};
use std::marker::{Brand, Model, PhantomData};

/// Names a core, and its seat before the turn.
pub(crate) trait FirstSeat {
    ghost use Rattle.std.specs.Prelude.{ℕ};
    ghost use Rattle.msrp_board.specs.Seats.{SeatModel};

    ghost core: { ℕ };

    ghost first: { SeatModel };
}

impl FirstSeat for Brand {
    ghost use Rattle.msrp_run.specs.Ports.{no_seat};

    ghost core = { 0 };

    ghost first = { no_seat };
}

/// The seat of a core that is let into its tick, and the place of its step, once made.
#[derive(Drop)]
pub(crate) struct SeatPort<'a, B: FirstSeat> {
    pub(crate) board: &'a Board,
    pub(crate) core: CoreId,
    pub(crate) seat: BoardSeat,
    pub(crate) place: Option<Place>,
    pub(crate) first: PhantomData<B>,
}

impl<'a, B: FirstSeat> Model for SeatPort<'a, B> {
    ghost Value = { SeatPortModel };

    ghost view = { λ p. record { core = p.core; seat = p.seat; place = p.place } };

    ghost invariant = { λ p. IsSeatPort B.core B.first p.board.now p.core p.place p.seat };
}

impl<'a, B: FirstSeat> SeatPort<'a, B> {
    pub(crate) fn new(board: &'a Board, core: CoreId, seat: BoardSeat) -> SeatPort<'a, B>
        requires { IsSeatPort B.core B.first board.now core None seat }
        ensures { result ≡ record { core = core; seat = seat; place = None } }
    {
        SeatPort {
            board,
            core,
            seat,
            place: None,
            first: PhantomData,
        }
    }
}

impl<'a, B: FirstSeat> Port for SeatPort<'a, B> {
    ghost port = { λ p. port_of p.core p.seat };

    fn ask(&mut self, _core: CoreId, res: ResId) -> Reply {
        let asked = self.board.ask(&mut self.seat, res);
        self.place = Some(Place {
            number: asked.place,
            polled: false,
        });
        if asked.ahead == 0 {
            Reply::Taken
        } else {
            Reply::Queued(asked.ahead)
        }
    }

    fn poll(&mut self, _core: CoreId, _res: ResId) -> bool {
        let polled = self.board.poll(&mut self.seat);
        self.place = Some(Place {
            number: polled.place,
            polled: true,
        });
        polled.granted
    }

    fn leave(&mut self, _core: CoreId, _res: ResId) {
        let number = self.board.leave(&mut self.seat);
        self.place = Some(Place {
            number,
            polled: false,
        });
    }

    fn room(&self, core: CoreId) -> u32 {
        let has_acted = self.seat.acted();
        if core == self.core && !has_acted {
            1
        } else {
            0
        }
    }

    fn resources(&self) -> u32 {
        self.board.size().resources
    }
}
