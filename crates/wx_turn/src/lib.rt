//! A lock that serves those who wait by tickets, in the order in which they were drawn. The value behind it stands for
//! one history of turns; a seat is the right to make turns, and knows the history up to its own last one.
#![tactic(auto)]

mod bells;
mod ends;
mod lock;
#[cfg(test)]
mod plain;
mod plays;
mod seats;
mod stands;
#[cfg(test)]
mod tests;
mod turns;
mod view;

pub use lock::{Full, SEAT_LIMIT, Seat, Spent, TURN_LIMIT, Turn};
pub use stands::{Stands, Work};
pub use view::{Element, Stage, View};
