//! Manifests of native messaging hosts, and the words that their programs are started with.
#![tactic(auto)]

mod arguments;
mod faults;
mod keys;
mod manifest;
mod origin;
mod parts;

pub use arguments::Arguments;
pub use faults::{HostFault, HostKey};
pub use manifest::HostManifest;
