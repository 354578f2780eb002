//! The lines of one caller.
ghost use Rattle.std.specs.Prelude.{◌≡◌, ◌++◌, ◌∷◌, OnOk, map, flat_map, string_bytes};
ghost use Rattle.wx_who.specs.Table as spec;

use crate::caller::Caller;
use crate::verdicts::{put_native_reach, put_reach};
use itoa::Buffer;
use std::alloc::AllocError;
use wx_context::Target;
use wx_host_manifest::HostManifest;
use wx_id::TabId;
use wx_script::SceneExtension;

/// The line about the pages of the caller's own extension.
fn put_own(out: &mut String, caller: &Caller<'_>) -> Result<(), AllocError>
    ensures { OnOk result (string_bytes out.new
        ≡ string_bytes out.old ++ spec.line_text (record { caller = caller.now; asked = spec.own })) }
{
    out.push_str(caller.endpoint.name.as_str())?;
    out.push_str(" own ")?;
    put_reach(out, caller, &Target::Own)?;
    out.push_str("\n")
}

/// The line about the pages of an extension.
fn put_extension(
    out: &mut String,
    caller: &Caller<'_>,
    extension: &SceneExtension,
) -> Result<(), AllocError>
    ensures { OnOk result (string_bytes out.new
        ≡ string_bytes out.old
        ++ spec.line_text (record { caller = caller.now; asked = spec.extension extension.now })) }
{
    out.push_str(caller.endpoint.name.as_str())?;
    out.push_str(" ext ")?;
    out.push_str(extension.name.as_str())?;
    out.push_str(" ")?;
    put_reach(out, caller, &Target::Other(extension.id))?;
    out.push_str("\n")
}

/// The line about the caller's content scripts in a tab.
fn put_tab(out: &mut String, caller: &Caller<'_>, tab: TabId) -> Result<(), AllocError>
    ensures { OnOk result (string_bytes out.new
        ≡ string_bytes out.old ++ spec.line_text (record { caller = caller.now; asked = spec.tab tab })) }
{
    let mut number = Buffer::new();
    out.push_str(caller.endpoint.name.as_str())?;
    out.push_str(" tab ")?;
    out.push_str(number.format(tab.0))?;
    out.push_str(" ")?;
    put_reach(out, caller, &Target::Tab(tab, None))?;
    out.push_str("\n")
}

/// The line about a native host.
fn put_host(out: &mut String, caller: &Caller<'_>, host: &HostManifest) -> Result<(), AllocError>
    ensures { OnOk result (string_bytes out.new
        ≡ string_bytes out.old ++ spec.line_text (record { caller = caller.now; asked = spec.host host.now })) }
{
    let name = host.name().text();
    out.push_str(caller.endpoint.name.as_str())?;
    out.push_str(" host ")?;
    out.push_str(name)?;
    out.push_str(" ")?;
    put_native_reach(out, caller, name)?;
    out.push_str("\n")
}

/// A line about each of the extensions.
#[tactic(auto, using(crate::proofs::LineLemmas::lines_more))]
fn put_extensions(
    out: &mut String,
    caller: &Caller<'_>,
    extensions: &[SceneExtension],
) -> Result<(), AllocError>
    ensures { OnOk result (string_bytes out.new ≡ string_bytes out.old
        ++ spec.lines_text (spec.lines_of caller.now (map spec.extension extensions.now))) }
{
    for extension in extensions {
        put_extension(out, caller, extension)?;
    }
    Ok(())
}

/// A line about each of the tabs.
#[tactic(auto, using(crate::proofs::LineLemmas::lines_more))]
fn put_tabs(out: &mut String, caller: &Caller<'_>, tabs: &[TabId]) -> Result<(), AllocError>
    ensures { OnOk result (string_bytes out.new ≡ string_bytes out.old
        ++ spec.lines_text (spec.lines_of caller.now (map spec.tab tabs.now))) }
{
    for tab in tabs {
        put_tab(out, caller, *tab)?;
    }
    Ok(())
}

/// A line about each of the hosts.
#[tactic(auto, using(crate::proofs::LineLemmas::lines_more))]
fn put_hosts(
    out: &mut String,
    caller: &Caller<'_>,
    hosts: &[HostManifest],
) -> Result<(), AllocError>
    ensures { OnOk result (string_bytes out.new ≡ string_bytes out.old
        ++ spec.lines_text (spec.lines_of caller.now (map spec.host hosts.now))) }
{
    for host in hosts {
        put_host(out, caller, host)?;
    }
    Ok(())
}

/// The lines of the caller: about its own extension, then the extensions, the tabs and the hosts of its world.
#[tactic(auto, using(crate::proofs::LineLemmas::all_lines))]
pub(crate) fn put_lines(
    out: &mut String,
    caller: &Caller<'_>,
    extensions: &[SceneExtension],
    tabs: &[TabId],
) -> Result<(), AllocError>
    ensures { OnOk result (string_bytes out.new ≡ string_bytes out.old
        ++ spec.lines_text (spec.lines_of caller.now
        (spec.all_asked extensions.now tabs.now caller.now.world.hosts))) }
{
    put_own(out, caller)?;
    put_extensions(out, caller, extensions)?;
    put_tabs(out, caller, tabs)?;
    put_hosts(out, caller, caller.world.hosts())
}
