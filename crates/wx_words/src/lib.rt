//! The words of the command line: which command they ask for, and of what.
#![tactic(auto)]

mod operands;
mod plain;
mod readers;
mod run;

pub use plain::{PlainCommand, plain_command};
pub use run::{how_asked, scene_named};
pub use wx_script::How;
