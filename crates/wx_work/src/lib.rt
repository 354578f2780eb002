//! The worker of one endpoint: turn after turn at its desk, until it ends or is to stop.
#![tactic(auto)]

mod gate;
mod work;

pub use gate::{Gate, NoGate};
pub use work::{WorkEnd, work_endpoint};
pub use wx_bell::{Bell, ThreadBell};
