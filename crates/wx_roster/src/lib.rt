//! The contexts that came in: which of them live, what they listen to, and whom a target reaches.
#![tactic(auto)]

mod places;
mod reach;
mod roster;

pub use reach::extension_of;
pub use roster::{Member, Roster};
