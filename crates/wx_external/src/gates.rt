//! The gate that a call to another context passes.
ghost use Rattle.std.specs.Prelude.{◌≡◌, bytes_eq};
ghost use Rattle.wx_external.specs.Gate as spec;
ghost use Rattle.wx_external.specs.World.{manifest_of};

use crate::world::World;
use wx_context::{Context, Target, WebUrl};
use wx_id::ExtensionId;

/// The rule by which a call from outside is forbidden.
#[derive(Clone, Copy, Debug, PartialEq, Eq)]
pub enum Rule {
    /// The other extension does not admit the caller's id (`externally_connectable.ids`).
    Id,
    /// The extension does not admit the page's URL (`externally_connectable.matches`).
    Url,
}

/// Whether a context may reach a target.
#[derive(Clone, Copy, Debug, PartialEq, Eq)]
pub enum Verdict {
    /// It may; `external`: from outside the target's extension.
    Open { external: bool },
    /// Contexts of its sort have no such target.
    BadTarget,
    /// The target's extension does not let it in.
    Forbidden(Rule),
}

/// Whether the extension with that id lets another with the id `caller` in.
fn admits_extension(world: &World, id: &ExtensionId, caller: &ExtensionId) -> bool
    ensures { result ≡ spec.admits_extension (manifest_of world.now id.now) caller.now }
{
    match world.extension(id) {
        Some(manifest) => manifest.admits_id(caller),
        None => true,
    }
}

/// Whether the extension with that id lets the web page at that address in.
fn admits_page(world: &World, id: &ExtensionId, url: &WebUrl) -> bool
    ensures { result ≡ spec.admits_page (manifest_of world.now id.now) url.now }
{
    match world.extension(id) {
        Some(manifest) => manifest.admits_url(url.url()),
        None => false,
    }
}

fn own_or_other(ext: &ExtensionId, id: &ExtensionId) -> Target
    ensures { result ≡ spec.own_or_other ext.now id.now }
{
    if id.is(ext) {
        Target::Own
    } else {
        Target::Other(*id)
    }
}

/// Whom the caller means: `Other` with its own extension's id is `Own`.
pub fn meant(caller: &Context, target: &Target) -> Target
    ensures { result ≡ spec.meant caller.now target.now }
{
    match (caller, target) {
        (Context::Page { ext, .. } | Context::Content { ext, .. }, Target::Other(id)) => {
            own_or_other(ext, id)
        }
        _ => *target,
    }
}

/// Whether the caller may reach the target (Chrome's "Message passing" and "externally_connectable").
pub fn gate(world: &World, caller: &Context, target: &Target) -> Verdict
    ensures { result ≡ spec.gate_of world.now caller.now target.now }
{
    match (caller, meant(caller, target)) {
        (Context::Page { .. }, Target::Own | Target::Tab(..)) => Verdict::Open { external: false },
        (Context::Page { ext, .. }, Target::Other(id)) => {
            if admits_extension(world, &id, ext) {
                Verdict::Open { external: true }
            } else {
                Verdict::Forbidden(Rule::Id)
            }
        }
        (Context::Content { .. }, Target::Own) => Verdict::Open { external: false },
        (Context::Web { url, .. }, Target::Other(id)) => {
            if admits_page(world, &id, url) {
                Verdict::Open { external: true }
            } else {
                Verdict::Forbidden(Rule::Url)
            }
        }
        (Context::Content { .. }, Target::Other(_) | Target::Tab(..)) => Verdict::BadTarget,
        (Context::Web { .. }, Target::Own | Target::Tab(..)) => Verdict::BadTarget,
    }
}
