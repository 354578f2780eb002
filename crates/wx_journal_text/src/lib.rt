//! The text of a journal.
#![tactic(auto)]

pub mod laws;
mod printing;

pub use printing::{json_kind_text, print};
