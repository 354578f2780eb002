//! Manifests of extensions: what they hold, and whom they admit from outside.
#![tactic(auto)]

mod connectable;
mod extension;
mod faults;
mod ids;
mod keys;
mod patterns;

pub use extension::Extension;
pub use faults::{Key, ManifestFault};
