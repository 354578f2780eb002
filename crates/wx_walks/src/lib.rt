//! What a journal says, found by walking its entries: the plain program whose contracts are the
//! definitions of the machine.
#![tactic(auto)]

pub mod channels;
pub mod closing;
pub mod contexts;
pub mod hosts;
pub mod requests;
