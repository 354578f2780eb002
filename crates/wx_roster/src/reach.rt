//! Whom a target reaches.
ghost use Rattle.std.specs.Prelude.{◌≡◌, option_copied};
ghost use Rattle.wx_machine.specs.Contexts.{extension_of, is_frame, is_external, hears};
ghost use Rattle.wx_roster.specs.Places.{in_frame};

use wx_context::{Context, Listens, Target};
use wx_id::{ExtensionId, FrameId};
use wx_machine::Sort;

/// The extension of a context.
pub fn extension_of(x: &Context) -> Option<&ExtensionId>
    ensures { option_copied result ≡ extension_of x.now }
{
    match x {
        Context::Page { ext, path: _ } => Some(ext),
        Context::Content { ext, .. } => Some(ext),
        Context::Web { .. } => None,
    }
}

fn is_frame(given: Option<FrameId>, frame: FrameId) -> bool
    ensures { result ≡ is_frame given frame }
{
    match given {
        Some(f) => f == frame,
        None => true,
    }
}

/// Whether a content script stands in the frame that the target names, where it names one.
pub fn in_frame(target: &Target, y: &Context) -> bool
    ensures { result ≡ in_frame target.now y.now }
{
    match (target, y) {
        (Target::Tab(_, f), Context::Content { frame, .. }) => is_frame(*f, *frame),
        _ => true,
    }
}

/// Whether what is for the target comes to it from outside.
pub fn is_external(target: &Target) -> bool
    ensures { result ≡ is_external target.now }
{
    matches!(target, Target::Other(_))
}

/// Whether one who listens so hears that sort, from its own extension or from outside.
pub fn hears(sort: Sort, external: bool, l: Listens) -> bool
    ensures { result ≡ hears sort external l }
{
    match (sort, external) {
        (Sort::Connection, true) => l.external_connect,
        (Sort::Connection, false) => l.connect,
        (Sort::Message, true) => l.external_message,
        (Sort::Message, false) => l.message,
    }
}
