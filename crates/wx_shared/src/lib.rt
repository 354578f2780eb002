//! The broker behind the lock, what is done to it in one turn, and the desks over a seat of that lock.
#![tactic(auto)]

mod calls;
mod desk;
mod making;
mod shared;
mod taking;
mod telling;

pub use desk::SeatDesk;
pub use making::Making;
pub use shared::Shared;
pub use taking::{Taken, TakingReady};
pub use telling::{Asking, Copying};
