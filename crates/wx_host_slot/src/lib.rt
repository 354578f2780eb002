//! The native hosts of a run over one broker: for each a slot, in which its program is started, served, heard and
//! finished.
#![tactic(auto)]

mod slot;

pub use slot::{HostSlot, Served};
