//! The echo law of a pipe: what a native host sends back that answers by the echo is what its extension posted.
#![tactic(auto)]

pub mod laws;
