//! The steps on a board: each is one atomic instruction on one word, or splits or joins seats.
ghost use Rattle.std.specs.Prelude.{◌≡◌, ◌+◌, ◌-◌, ◌<◌, ◌==◌, ◌*◌};
ghost use Rattle.msrp_plan.specs.Common.{Some, [], ℕ};
ghost use Rattle.msrp_board.specs.Common.{Aborted, Ask, Holds, Leave, Nothing, Opened, Poll, Unopened, Waits};
ghost use mathlib.Core.Option.{none};
ghost use Rattle.atomic_table.specs.Table.{step};
ghost use Rattle.msrp_board.specs.Inside.Rule.{ViewMayAct, HasEntered, IsTicket, TellsLook, IsUnderRule, ViewWaits, ViewIsAdmitted, with_pages, page_with_arrival, view_with_conductor, view_alone, view_without, view_both};

use crate::books::BoardSize;
use crate::pages::{
    Aborts, Arrives, Asks, Both, Confirms, Leaves, Looks, Named, OfSize, Opens, Parts, Polls,
    TableSeat, Words,
};
use crate::words::{HIGH_ONE, TicketWord};
use std::marker::Brand;

/// A request. Returns the ticket word before it.
pub(crate) fn ask(words: &Words, seat: &mut TableSeat, res: usize) -> TicketWord
    requires table { seat.old.table_id ≡ words.now.table_id }
    requires res { (res < words.now.key.resources) × (words.now.table_id.words ≡ words.now.key.resources + 1) }
    requires free { ViewMayAct seat.old.me.0 Nothing }
    ensures table { seat.new.table_id ≡ seat.old.table_id }
    ensures found { IsTicket result }
    ensures asked { HasEntered res (result.next + result.serving) (Ask (result.next - result.serving)) seat.old.me seat.new.me }
{
    TicketWord::of(words.fetch_add::<Asks>(seat, res, HIGH_ONE))
}

/// A poll of a core that waits with this ticket. Returns the ticket word.
pub(crate) fn poll(words: &Words, seat: &mut TableSeat, res: usize, ticket: u32) -> TicketWord
    requires table { seat.old.table_id ≡ words.now.table_id }
    requires res { (res < words.now.key.resources) × (words.now.table_id.words ≡ words.now.key.resources + 1) }
    requires queued { ViewMayAct seat.old.me.0 (Waits res ticket) }
    ensures table { seat.new.table_id ≡ seat.old.table_id }
    ensures found { IsTicket result }
    ensures polled { HasEntered res (result.next + result.serving) (Poll (result.serving == ticket)) seat.old.me seat.new.me }
{
    let _ = ticket;
    TicketWord::of(words.load::<Polls>(seat, res))
}

/// A release. Returns the ticket word before it.
pub(crate) fn leave(words: &Words, seat: &mut TableSeat, res: usize) -> TicketWord
    requires table { seat.old.table_id ≡ words.now.table_id }
    requires res { (res < words.now.key.resources) × (words.now.table_id.words ≡ words.now.key.resources + 1) }
    requires holding { (t : ℕ) × ViewMayAct seat.old.me.0 (Holds res t) }
    ensures table { seat.new.table_id ≡ seat.old.table_id }
    ensures found { IsTicket result }
    ensures left { HasEntered res (result.next + result.serving) Leave seat.old.me seat.new.me }
{
    TicketWord::of(words.fetch_add::<Leaves>(seat, res, 1))
}

/// An arrival.
pub(crate) fn arrive(words: &Words, seat: &mut TableSeat, barrier: usize)
    requires table { seat.old.table_id ≡ words.now.table_id }
    requires barrier { (barrier ≡ words.now.key.resources) × (words.now.table_id.words ≡ words.now.key.resources + 1) }
    requires admitted { ViewIsAdmitted seat.old.me.0 }
    ensures table { seat.new.table_id ≡ seat.old.table_id }
    ensures arrived { seat.new.me ≡ (with_pages page_with_arrival seat.old.me.0, seat.old.me.1) }
{
    words.fetch_add::<Arrives>(seat, barrier, 1);
}

/// A look. Returns the barrier word.
pub(crate) fn look(words: &Words, seat: &mut TableSeat, barrier: usize, cores: u32) -> u64
    requires table { seat.old.table_id ≡ words.now.table_id }
    requires barrier { (barrier ≡ words.now.key.resources) × (words.now.table_id.words ≡ words.now.key.resources + 1) }
    requires cores { words.now.key.cores ≡ cores }
    requires waiting { ViewWaits words.now.key seat.old.me.0 }
    ensures table { seat.new.table_id ≡ seat.old.table_id }
    ensures looked { TellsLook cores (step words.now.table_id.slots barrier 0 0 none) seat.old.me result seat.new.me }
{
    look_named::<Brand>(words, seat, barrier, cores)
}

fn look_named<N: Named>(words: &Words, seat: &mut TableSeat, barrier: usize, cores: u32) -> u64
    requires table { seat.old.table_id ≡ words.now.table_id }
    requires barrier { (barrier ≡ words.now.key.resources) × (words.now.table_id.words ≡ words.now.key.resources + 1) }
    requires cores { (N.number ≡ cores) × (words.now.key.cores ≡ cores) }
    requires waiting { ViewWaits words.now.key seat.old.me.0 }
    ensures table { seat.new.table_id ≡ seat.old.table_id }
    ensures looked { TellsLook cores (step words.now.table_id.slots barrier 0 0 none) seat.old.me result seat.new.me }
{
    let _ = cores;
    words.load::<Looks<N>>(seat, barrier)
}

/// A confirmation: the seat is part of a state that obeys the rule, and nothing changes.
pub(crate) fn confirm(words: &Words, seat: &mut TableSeat, barrier: usize, size: BoardSize)
    requires table { seat.old.table_id ≡ words.now.table_id }
    requires barrier { (barrier ≡ words.now.key.resources) × (words.now.table_id.words ≡ words.now.key.resources + 1) }
    requires size { words.now.key ≡ size }
    ensures table { seat.new.table_id ≡ seat.old.table_id }
    ensures told { IsUnderRule size seat.old.me seat.new.me }
{
    confirm_named::<Brand>(words, seat, barrier, size)
}

fn confirm_named<Z: OfSize>(words: &Words, seat: &mut TableSeat, barrier: usize, size: BoardSize)
    requires table { seat.old.table_id ≡ words.now.table_id }
    requires barrier { (barrier ≡ words.now.key.resources) × (words.now.table_id.words ≡ words.now.key.resources + 1) }
    requires size { (Z.size ≡ size) × (words.now.key ≡ size) }
    ensures table { seat.new.table_id ≡ seat.old.table_id }
    ensures told { IsUnderRule size seat.old.me seat.new.me }
{
    let _ = size;
    words.load::<Confirms<Z>>(seat, barrier);
}

/// The opening.
pub(crate) fn open(words: &Words, seat: &mut TableSeat, barrier: usize)
    requires table { seat.old.table_id ≡ words.now.table_id }
    requires barrier { (barrier ≡ words.now.key.resources) × (words.now.table_id.words ≡ words.now.key.resources + 1) }
    requires unopened { seat.old.me.0.conductor ≡ Some Unopened }
    ensures table { seat.new.table_id ≡ seat.old.table_id }
    ensures conductor { seat.new.me ≡ (view_with_conductor Opened seat.old.me.0, seat.old.me.1) }
{
    words.fetch_add::<Opens>(seat, barrier, 1);
}

/// The abort.
pub(crate) fn abort(words: &Words, seat: &mut TableSeat, barrier: usize)
    requires table { seat.old.table_id ≡ words.now.table_id }
    requires barrier { (barrier ≡ words.now.key.resources) × (words.now.table_id.words ≡ words.now.key.resources + 1) }
    requires unopened { seat.old.me.0.conductor ≡ Some Unopened }
    ensures table { seat.new.table_id ≡ seat.old.table_id }
    ensures conductor { seat.new.me ≡ (view_with_conductor Aborted seat.old.me.0, seat.old.me.1) }
{
    words.fetch_add::<Aborts>(seat, barrier, HIGH_ONE);
}

/// Leaves the seat the page of the core, and puts the others in a new one.
pub(crate) fn split(words: &Words, seat: &mut TableSeat, core: usize) -> TableSeat
    requires table { seat.old.table_id ≡ words.now.table_id }
    requires words { 0 < words.now.table_id.words }
    ensures tables { (seat.new.table_id ≡ seat.old.table_id) × (result.table_id ≡ seat.old.table_id) }
    ensures parts { (seat.new.me ≡ (view_alone core seat.old.me.0, seat.old.me.1)) × (result.me ≡ (view_without core seat.old.me.0, [])) }
{
    split_named::<Brand>(words, seat, core)
}

fn split_named<N: Named>(words: &Words, seat: &mut TableSeat, core: usize) -> TableSeat
    requires table { seat.old.table_id ≡ words.now.table_id }
    requires words { 0 < words.now.table_id.words }
    requires core { N.number ≡ core }
    ensures tables { (seat.new.table_id ≡ seat.old.table_id) × (result.table_id ≡ seat.old.table_id) }
    ensures parts { (seat.new.me ≡ (view_alone core seat.old.me.0, seat.old.me.1)) × (result.me ≡ (view_without core seat.old.me.0, [])) }
{
    let _ = core;
    words.split_seat::<Parts<N>>(seat)
}

/// Moves the other seat's pages into this one.
pub(crate) fn join(words: &Words, seat: &mut TableSeat, other: TableSeat)
    requires table { (seat.old.table_id ≡ words.now.table_id) × (other.table_id ≡ words.now.table_id) × (other.me.1 ≡ []) }
    requires words { 0 < words.now.table_id.words }
    ensures table { seat.new.table_id ≡ seat.old.table_id }
    ensures both { seat.new.me ≡ (view_both seat.old.me.0 other.me.0, seat.old.me.1) }
{
    words.join_seat::<Both>(seat, other);
}
