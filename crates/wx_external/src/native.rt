//! The gate that a call to a native host passes.
ghost use Rattle.std.specs.Prelude.{◌≡◌, option_copied};
ghost use Rattle.wx_external.specs.Gate as spec;
ghost use Rattle.wx_external.specs.World.{manifest_of};

use crate::world::World;
use wx_context::Context;
use wx_host_manifest::HostManifest;
use wx_id::{ExtensionId, HostName};

/// Whether a context may call a native host.
#[derive(Clone, Copy, Debug, PartialEq, Eq)]
pub enum NativeVerdict {
    /// It may call the host at this place of the world's hosts.
    Open(usize),
    /// Only pages of extensions call hosts.
    BadTarget,
    /// The extension lacks the permission `nativeMessaging`.
    NoPermission,
    /// The name is no host name.
    BadHostName,
    /// No host of that name is there.
    HostNotFound,
    /// The host does not list the extension in `allowed_origins`.
    HostForbidden,
}

fn has_permission(world: &World, ext: &ExtensionId) -> bool
    ensures { result ≡ spec.has_permission (manifest_of world.now ext.now) }
{
    match world.extension(ext) {
        Some(manifest) => manifest.native(),
        None => false,
    }
}

fn admits_caller(host: Option<&HostManifest>, ext: &ExtensionId) -> bool
    ensures { result ≡ spec.admits_caller (option_copied host.entry) ext.now }
{
    match host {
        Some(host) => host.admits(ext),
        None => false,
    }
}

/// Whether the caller may call the host of that name (Chrome's "Native messaging"): the first of the tests that fails,
/// in the order of the verdicts.
#[tactic(auto, unfolding(crate::specs::Gate::native_gate_of))]
pub fn native_gate(world: &World, caller: &Context, name: &str) -> NativeVerdict
    ensures { result ≡ spec.native_gate_of world.now caller.now name.now }
{
    let Context::Page { ext, .. } = caller else {
        return NativeVerdict::BadTarget;
    };
    if !has_permission(world, ext) {
        return NativeVerdict::NoPermission;
    }
    if HostName::fault(name.as_bytes()).is_some() {
        return NativeVerdict::BadHostName;
    }
    let Some(place) = world.host_place(name) else {
        return NativeVerdict::HostNotFound;
    };
    if admits_caller(world.host(place), ext) {
        NativeVerdict::Open(place)
    } else {
        NativeVerdict::HostForbidden
    }
}
