//! The board of a run, shared by the cores' threads without a lock: a ticket word for each global
//! resource, and one barrier word. A request takes a ticket, and tickets are served in order, as in
//! MSRP (Gai, Lipari and Di Natale 2001); between two ticks the cores meet at the barrier.
//!
//! A thread steps by a [`BoardSeat`], which has the books of some cores: what they did.
//! `docs/BOARD.md` explains the words, their rule, and what each call promises.
#![tactic(auto)]

mod answers;
mod board;
mod books;
mod held;
pub mod laws;
mod pages;
mod seat;
mod settled;
mod states;
mod steps;
mod words;

pub use answers::{Asked, BoardError, Look, Polled, SeatPhase};
pub use board::Board;
pub use books::{BoardSize, Book, Conductor, Entry};
pub use seat::BoardSeat;
pub use settled::Settled;
