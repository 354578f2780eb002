//! The two pumps of a native host, which carry messages between its desks and its pipe until it ends or is to stop; the
//! service of a host by both; and the worker that serves one in a thread of its own. They may wait.
#![tactic(auto)]

mod pace;
mod pumps;
mod serving;
mod worker;

pub use pace::entries_are_few;
pub use pumps::{PumpEnd, pump_in, pump_out};
pub use serving::{Served, pump_both, serve_host};
pub use worker::{HostDone, HostPart, HostWorker, finish_host, serve_apart, start_host};
pub use wx_bell::{Bell, ThreadBell};
