//! What comes of the calls of a caller, as text.
ghost use Rattle.std.specs.Prelude.{◌≡◌, ◌++◌, ◌∷◌, [], OnOk, string_bytes};
ghost use Rattle.std.specs.List.{list_any};
ghost use Rattle.wx_who.specs.Reach as spec;

use crate::caller::Caller;
use crate::reach::is_for;
use std::alloc::AllocError;
use wx_context::{Context, Target};
use wx_external::{NativeVerdict, Rule, Verdict, gate, native_gate};
use wx_script::SceneEndpoint;

/// Whether what a context sends to a target is for one of these.
fn is_for_any(x: &Context, target: &Target, others: &[SceneEndpoint]) -> bool
    ensures { result ≡ list_any (spec.is_for x.now target.now) others.now }
{
    others.iter().any(|other| is_for(x, target, other))
}

/// The name of an endpoint behind a space, where what the context sends is for it.
fn put_name_if(
    out: &mut String,
    x: &Context,
    target: &Target,
    other: &SceneEndpoint,
) -> Result<(), AllocError>
    ensures { OnOk result (string_bytes out.new
        ≡ string_bytes out.old ++ spec.names_text (spec.receivers x.now target.now (other.now ∷ []))) }
{
    if is_for(x, target, other) {
        out.push_str(" ")?;
        out.push_str(other.name.as_str())
    } else {
        Ok(())
    }
}

/// The names of those whom it is for.
#[tactic(auto, using(crate::proofs::LineLemmas::names_append))]
fn put_names(
    out: &mut String,
    x: &Context,
    target: &Target,
    others: &[SceneEndpoint],
) -> Result<(), AllocError>
    ensures { OnOk result (string_bytes out.new
        ≡ string_bytes out.old ++ spec.names_text (spec.receivers x.now target.now others.now)) }
{
    for other in others {
        put_name_if(out, x, target, other)?;
    }
    Ok(())
}

/// Those who would receive what the caller sends to the target, or a dash.
#[tactic(auto, using(crate::proofs::LineLemmas::receivers_parts))]
fn put_receivers(out: &mut String, caller: &Caller<'_>, target: &Target) -> Result<(), AllocError>
    ensures { OnOk result (string_bytes out.new
        ≡ string_bytes out.old ++ spec.receivers_text caller.now.endpoint.context target.now caller.now.others) }
{
    let x = &caller.endpoint.context;
    if is_for_any(x, target, caller.before) || is_for_any(x, target, caller.behind) {
        put_names(out, x, target, caller.before)?;
        put_names(out, x, target, caller.behind)
    } else {
        out.push_str(" -")
    }
}

/// What comes of the caller's calls to the target.
pub(crate) fn put_reach(
    out: &mut String,
    caller: &Caller<'_>,
    target: &Target,
) -> Result<(), AllocError>
    ensures { OnOk result (string_bytes out.new ≡ string_bytes out.old ++ spec.reach_text caller.now target.now) }
{
    match gate(caller.world, &caller.endpoint.context, target) {
        Verdict::Open { external } => {
            out.push_str(if external {
                "open external to"
            } else {
                "open internal to"
            })?;
            put_receivers(out, caller, target)
        }
        Verdict::BadTarget => out.push_str("bad_target"),
        Verdict::Forbidden(Rule::Id) => out.push_str("forbidden id"),
        Verdict::Forbidden(Rule::Url) => out.push_str("forbidden url"),
    }
}

/// The word for a verdict of the native gate.
fn native_word(verdict: NativeVerdict) -> &'static str
    ensures { result.now ≡ spec.native_text verdict }
{
    match verdict {
        NativeVerdict::Open(_) => "open",
        NativeVerdict::BadTarget => "bad_target",
        NativeVerdict::NoPermission => "no_permission",
        NativeVerdict::BadHostName => "bad_host_name",
        NativeVerdict::HostNotFound => "host_not_found",
        NativeVerdict::HostForbidden => "host_forbidden",
    }
}

/// What comes of the caller's calls to the native host of that name.
pub(crate) fn put_native_reach(
    out: &mut String,
    caller: &Caller<'_>,
    name: &str,
) -> Result<(), AllocError>
    ensures { OnOk result (string_bytes out.new
        ≡ string_bytes out.old ++ spec.native_reach_text caller.now name.now) }
{
    let verdict = native_gate(caller.world, &caller.endpoint.context, name);
    out.push_str(native_word(verdict))
}
