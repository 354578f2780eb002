//! Match patterns of web extensions: reading them, and matching a URL against one.
//!
//! The grammar and the meaning are those of MDN's "Match patterns in extension manifests" and Chrome's "Match
//! patterns", with the schemes `*`, `http`, `https` and `file` alone and without ports.
#![tactic(auto)]

mod fault;
mod glob;
mod law;
mod parts;
mod pattern;
mod reading;
mod slices;

pub use fault::{PatternFault, PatternKind, PatternReadFault};
pub use law::one_pattern_or_fault;
pub use pattern::Pattern;
