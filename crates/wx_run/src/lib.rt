//! Runs of a scene in rounds, over the broker.
#![tactic(auto)]

mod hosts;
mod laws;
mod opening;
mod outcome;
mod rounds;
mod run;
mod step;

pub use laws::one_end;
pub use outcome::{Outcome, RunEnd};
pub use run::run_scene;
pub use wx_script::{How, SpentWho};
