//! Lists of contexts: whether one is among them, and the list without it.
ghost use Rattle.std.specs.Prelude.{◌≡◌, filter};
ghost use Rattle.wx_id.specs.Contexts as spec;

use crate::numbers::ContextNo;

/// Whether c is one of these contexts.
pub fn is_among(contexts: &[ContextNo], c: ContextNo) -> bool
    ensures { result ≡ spec.is_among contexts.now c }
{
    contexts.iter().any(|d| d.0 == c.0)
}

/// Takes c out of these contexts.
pub fn take_out(contexts: &mut Vec<ContextNo>, c: ContextNo)
    ensures { contexts.new.items ≡ filter (spec.is_other c) contexts.old.items }
{
    contexts.retain(|d| d.0 != c.0);
}
