//! An endpoint that calls, among the others of its scene.
use std::marker::Model;
use wx_external::World;
use wx_script::SceneEndpoint;

/// An endpoint that calls, in a world. Contracts see the scene's other endpoints as one list.
#[derive(Drop)]
pub(crate) struct Caller<'a> {
    pub(crate) world: &'a World,
    pub(crate) endpoint: &'a SceneEndpoint,
    /// The endpoints before it in the scene.
    pub(crate) before: &'a [SceneEndpoint],
    /// The endpoints behind it in the scene.
    pub(crate) behind: &'a [SceneEndpoint],
}

impl<'a> Model for Caller<'a> {
    ghost use Rattle.std.specs.Prelude.{◌++◌};
    ghost use Rattle.wx_who.specs.Reach.{Caller as CallerValue};

    ghost Value = { CallerValue };

    ghost view = { λ c. record {
      world = c.world.now;
      endpoint = c.endpoint.now;
      others = c.before.now ++ c.behind.now;
    } };
}
