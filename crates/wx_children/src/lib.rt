//! Native hosts as child programs of the system, with pipes. What they write and read is not told; what failed is
//! counted. No call waits for ever: a child that is silent for too long is ended.
#![tactic(auto)]

mod command;
mod ends;
mod line;
mod pipes;
mod starter;

pub use ends::{ChildIn, ChildOut, Feed, Source};
pub use pipes::{PipeFeed, PipeSource};
pub use starter::{ChildStarter, Counts, host_seconds};
