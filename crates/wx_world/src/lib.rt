//! The manifests that a scene names: read from a shelf in the scene's order, judged, and put together as the world.
#![tactic(auto)]

mod faults;
mod judging;
mod laws;
mod names;
mod reading;

pub use faults::{FileKind, FileRefusal, WorldFault};
pub use laws::one_world;
pub use names::name_at;
pub use reading::read_world;
