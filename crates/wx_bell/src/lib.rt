//! Bells, at which a worker of a run sleeps while it has nothing to do. Nothing is claimed of them: who was woken looks
//! again.
#![tactic(auto)]

mod bell;
#[cfg(test)]
mod tests;

pub use bell::{Bell, ThreadBell};
