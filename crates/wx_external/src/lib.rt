//! Who may reach whom: the extensions and native hosts that the broker knows, and the gates that each call to another
//! context or to a host has to pass.
#![tactic(auto)]

mod gates;
mod laws;
mod native;
mod world;

pub use gates::{Rule, Verdict, gate, meant};
pub use laws::{match_test, native_verdicts_in_order, verdicts_by_manifest, verdicts_of_any_world};
pub use native::{NativeVerdict, native_gate};
pub use world::{AddFault, Installed, World};
