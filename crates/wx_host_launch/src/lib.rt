//! A native host from outside: its program and the two ends of its pipe. At each end a pump carries messages between a
//! desk and the pipe; here is one turn of each.
#![tactic(auto)]

mod broker_desk;
mod children;
mod desk;
mod memory;
mod pipes;
mod reading;
mod records;
mod sending;
mod starter;
mod turns;

pub use children::{MemoryChild, MemoryIn, MemoryOut};
pub use desk::HostDesk;
pub use memory::MemoryStarter;
pub use pipes::{HostIn, HostOut};
pub use records::{MemoryProgram, MemoryRecord};
pub use starter::{StartFault, Starter};
pub use turns::{InTurn, OutTurn, in_turn, out_turn};
pub use wx_host_manifest::Arguments;
pub use wx_outside::Failed;
