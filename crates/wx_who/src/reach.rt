//! For whom a call to a target is.
ghost use Rattle.std.specs.Prelude.{◌≡◌, Some};
ghost use Rattle.wx_machine.specs.Contexts as contexts;
ghost use Rattle.wx_who.specs.Reach as spec;

use wx_context::{Context, Target};
use wx_external::meant;
use wx_id::{ExtensionId, FrameId, TabId};
use wx_script::SceneEndpoint;

/// Whether a context is a page of that extension.
fn is_page_of(ext: &ExtensionId, y: &Context) -> bool
    ensures { result ≡ contexts.is_page_of (Some ext.now) y.now }
{
    match y {
        Context::Page { ext: id, .. } => ext.is(id),
        Context::Content { .. } | Context::Web { .. } => false,
    }
}

/// Whether a frame is the given one, or none is given.
fn is_frame(given: Option<FrameId>, frame: FrameId) -> bool
    ensures { result ≡ contexts.is_frame given frame }
{
    match given {
        Some(f) => f == frame,
        None => true,
    }
}

/// Whether a context is a content script of that extension in that tab, and in that frame where one is given.
fn is_script_in(ext: &ExtensionId, t: TabId, f: Option<FrameId>, y: &Context) -> bool
    ensures { result ≡ contexts.is_script_in (Some ext.now) t f y.now }
{
    match y {
        Context::Content {
            ext: id,
            tab,
            frame,
            ..
        } => ext.is(id) && t == *tab && is_frame(f, *frame),
        Context::Page { .. } | Context::Web { .. } => false,
    }
}

/// Whether a target of a caller from that extension names a context.
fn names_from(ext: &ExtensionId, target: Target, y: &Context) -> bool
    ensures { result ≡ contexts.names (Some ext.now) target y.now }
{
    match target {
        Target::Own => is_page_of(ext, y),
        Target::Other(id) => is_page_of(&id, y),
        Target::Tab(t, f) => is_script_in(ext, t, f, y),
    }
}

/// Whether what a context sends to a target is for this endpoint, if that listens to it.
pub(crate) fn is_for(x: &Context, target: &Target, other: &SceneEndpoint) -> bool
    ensures { result ≡ spec.is_for x.now target.now other.now }
{
    match (x, meant(x, target)) {
        (Context::Page { ext, .. } | Context::Content { ext, .. }, meant) => {
            names_from(ext, meant, &other.context)
        }
        (Context::Web { .. }, Target::Other(id)) => is_page_of(&id, &other.context),
        (Context::Web { .. }, Target::Own | Target::Tab(..)) => false,
    }
}
