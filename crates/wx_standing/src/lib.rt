//! How each endpoint and each host of a run stands: how many entries are left to it, whether it has ended, and whether
//! it waits.
#![tactic(auto)]

mod standing;

pub use standing::{ENTRY_LIMIT, Standing, count, extend, set_waits, standing_at};
