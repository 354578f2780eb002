//! The table of reach.
ghost use Rattle.std.specs.Prelude.{◌≡◌, ◌++◌, [], IfOk, OnOk, string_bytes};
ghost use Rattle.wx_who.specs.Table as spec;

use crate::caller::Caller;
use crate::lines::put_lines;
use crate::tabs::tabs_of;
use std::alloc::{AllocError, Global};
use wx_external::World;
use wx_id::{NoMemory, TabId};
use wx_script::{Scene, SceneEndpoint, SceneExtension};

/// The lines of each of the endpoints.
#[tactic(auto, using(crate::proofs::LineLemmas::lines_from))]
fn put_table(
    out: &mut String,
    world: &World,
    extensions: &[SceneExtension],
    tabs: &[TabId],
    endpoints: &[SceneEndpoint],
) -> Result<(), AllocError>
    ensures { OnOk result (string_bytes out.new ≡ string_bytes out.old
        ++ spec.lines_text (spec.lines_behind world.now
        (spec.all_asked extensions.now tabs.now world.now.hosts) [] endpoints.now)) }
{
    for (place, endpoint) in endpoints.iter().enumerate() {
        let caller = Caller {
            world,
            endpoint,
            before: &endpoints[..place],
            behind: &endpoints[place + 1..],
        };
        put_lines(out, &caller, extensions, tabs)?;
    }
    Ok(())
}

/// The text of the table of reach: for each endpoint of the scene, what comes of its calls in that world to its own
/// extension, to each extension of the scene, to each tab and to each native host, whoever listens.
pub fn who(alloc: Global, scene: &Scene, world: &World) -> Result<Vec<u8>, NoMemory>
    ensures { IfOk result (λ text. text.items ≡ spec.reach_of scene.now world.now) }
{
    let tabs = tabs_of(alloc, scene.endpoints())?;
    let mut out = String::new(alloc);
    put_table(
        &mut out,
        world,
        scene.extensions(),
        &tabs,
        scene.endpoints(),
    )?;
    Ok(out.into_bytes())
}
