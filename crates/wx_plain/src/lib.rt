//! The commands that make no run: what they are asked, what they answer, and how that is told.
#![tactic(auto)]

mod about;
mod frames;
mod laws;
mod matching;
mod put;
mod report;
mod tell;
mod top;
mod verdict;

pub use laws::one_plain_answer;
pub use top::wx_plain;
