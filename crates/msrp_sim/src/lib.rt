//! All cores of a plan on one thread, in any order.
//!
//! [`simulate`] makes the whole trace of a plan in an [`Order`] of turns, and a [`Simulation`]
//! makes it row by row. [`Cores`] gives the next row of any core, and a [`FifoPort`] answers the
//! calls of each resource as a first-in-first-out lock. [`worked`] has examples of orders.
#![tactic(auto)]

mod cores;
mod fifo;
mod orders;
mod simulation;
mod tickets;
mod turn_port;
pub mod worked;

pub use cores::Cores;
pub use fifo::FifoPort;
pub use orders::{Order, TickPlace, orders_of_turns};
pub use simulation::{SimError, Simulation, simulate};
