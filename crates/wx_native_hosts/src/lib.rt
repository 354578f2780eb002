//! The native hosts that were started, each at the place of its number, and the texts that wait for each.
#![tactic(auto)]

mod hosts;

pub use hosts::{Host, Hosts, Start};
