//! Scenes: their text, and the scripts of their endpoints.
#![tactic(auto)]

mod draft;
pub mod endings;
pub mod laws;
mod line;
mod names;
mod reading;
mod scene;
mod script;
mod word;

pub use scene::{
    How, Scene, SceneEndpoint, SceneExtension, SceneFault, SceneFile, SceneKind, SceneReadFault,
    SpentWho,
};
pub use script::{Act, Command, Heard, Received, Script, Var};
pub use word::file_name;
