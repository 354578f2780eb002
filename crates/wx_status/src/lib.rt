//! What the program answers: the statuses with their numbers, their lines, and how a line or a text is told.
#![tactic(auto)]

mod lines;
mod manifests;
mod status;
mod tell;

pub use lines::{input_line, read_fault_line, refusal_line};
pub use manifests::manifest_line;
pub use status::{InputKind, Status};
pub use tell::{tell_line, tell_no_memory, tell_run, tell_text};
