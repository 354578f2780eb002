//! The top call: it reads the words of the command line, does what they ask for, and tells what came of it.
#![tactic(auto)]

mod endings;
mod judging;
mod tell;
#[cfg(test)]
mod tests;
mod top;

pub use top::wx;
