//! The text of a journal, read back: what reading takes is what is printed, and different journals have different
//! texts.
#![tactic(auto)]

mod answer;
mod call;
mod fault;
mod field;
pub mod fits;
pub mod laws;
mod part;
mod reason;
mod sort;
mod whole;

pub use fault::{JournalFault, JournalKind, JournalReadFault};
pub use whole::read;
