//! The channels of a broker as a list by number. A closed channel keeps its ends, and a number that has not been given
//! out is that of a channel with no ends. The open ones stand in a slab, and each context has the list of its channels,
//! so that what a context asks or leaves costs its own channels and not those of others.
#![tactic(auto)]

mod numbers;
mod own;
mod ports;
mod table;

pub use ports::Ports;
