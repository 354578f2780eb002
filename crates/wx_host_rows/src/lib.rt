//! The tests of native hosts: the turns of both pumps at a desk of tests, and the starter in memory, by public calls:
//! tables of rows, each walked in one loop.
#![tactic(auto)]

#[cfg(test)]
mod children;
#[cfg(test)]
mod pumps;
mod test_desk;

pub use test_desk::{Stage, TestDesk};

/// No call fails.
#[cfg(test)]
const NONE: &[u64] = &[];

/// The first call fails.
#[cfg(test)]
const FIRST: &[u64] = &[0];
