//! What a journal tells of one channel and of one request, found by walking its entries.
#![tactic(auto)]

pub mod laws;
mod ports;
mod requests;

pub use ports::{PortReport, port_report};
pub use requests::{RequestReport, Settled, request_report};
