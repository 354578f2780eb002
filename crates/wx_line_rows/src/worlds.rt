//! Worlds of extensions and hosts: what is added to them, and who may reach whom.

use crate::answers::Answer;
use crate::contexts::context_of;
use crate::ids::id_of;
use crate::words::no_question;
use std::alloc::Global;
use wx_context::Target;
use wx_external::{AddFault, NativeVerdict, Rule, Verdict, World, gate, native_gate};
use wx_host_manifest::HostManifest;
use wx_id::{FrameId, NoMemory, TabId};
use wx_manifest::Extension;

/// Adds an extension, or its name to those that were refused.
fn add_extension(
    alloc: Global,
    id: &str,
    manifest: &str,
    world: &mut World,
    refused: &mut String,
) -> Result<(), NoMemory> {
    let Some(id) = id_of(alloc, id)? else {
        return Ok(refused.push_str("bad_id ")?);
    };
    let Ok(extension) = Extension::read(alloc, manifest.as_bytes()) else {
        return Ok(refused.push_str("bad_manifest ")?);
    };
    match world.add_extension(id, extension) {
        Ok(()) => Ok(()),
        Err((AddFault::Repeated, back)) => Ok(refused.push_str(back.name())?),
        Err((AddFault::NoMemory, _)) => Err(NoMemory),
    }
}

/// Adds a host, or its name to those that were refused.
fn add_host(
    alloc: Global,
    file: &str,
    manifest: &str,
    world: &mut World,
    refused: &mut String,
) -> Result<(), NoMemory> {
    let Ok(host) = HostManifest::read(alloc, file, manifest.as_bytes()) else {
        return Ok(refused.push_str("bad_manifest ")?);
    };
    match world.add_host(host) {
        Ok(()) => Ok(()),
        Err((AddFault::Repeated, back)) => Ok(refused.push_str(back.name().text())?),
        Err((AddFault::NoMemory, _)) => Err(NoMemory),
    }
}

/// The world of these lines, each an id or a file's name and a manifest, and the names that were refused.
fn world_of(alloc: Global, lines: &str) -> Result<(World, String), NoMemory> {
    let mut world = World::new(alloc);
    let mut refused = String::new(alloc);
    for line in lines.lines() {
        if let Some((name, manifest)) = line.split_once(' ') {
            if name.ends_with(".json") {
                add_host(alloc, name, manifest, &mut world, &mut refused)?;
            } else {
                add_extension(alloc, name, manifest, &mut world, &mut refused)?;
            }
        }
    }
    Ok((world, refused))
}

fn tab_of(text: &str) -> Option<Target> {
    match text.split_once(" frame ") {
        Some((tab, frame)) => Some(Target::Tab(
            TabId(tab.parse::<u32>().ok()?),
            Some(FrameId(frame.parse::<u32>().ok()?)),
        )),
        None => Some(Target::Tab(TabId(text.parse::<u32>().ok()?), None)),
    }
}

/// The target of a text: `own`, `ID`, `tab N` or `tab N frame N`.
fn target_of(alloc: Global, text: &str) -> Result<Option<Target>, NoMemory> {
    if text == "own" {
        return Ok(Some(Target::Own));
    }
    match text.strip_prefix("tab ") {
        Some(tab) => Ok(tab_of(tab)),
        None => Ok(id_of(alloc, text)?.map(|id| Target::Other(id))),
    }
}

fn verdict(verdict: Verdict) -> &'static str {
    match verdict {
        Verdict::Open { external: true } => "open from outside",
        Verdict::Open { external: false } => "open from inside",
        Verdict::BadTarget => "bad target",
        Verdict::Forbidden(Rule::Id) => "forbidden by id",
        Verdict::Forbidden(Rule::Url) => "forbidden by URL",
    }
}

fn native_verdict(alloc: Global, verdict: NativeVerdict) -> Answer {
    let words = match verdict {
        NativeVerdict::Open(place) => return Ok(format!(in alloc; "open {place}")?),
        NativeVerdict::BadTarget => "bad target",
        NativeVerdict::NoPermission => "no permission",
        NativeVerdict::BadHostName => "bad host name",
        NativeVerdict::HostNotFound => "host not found",
        NativeVerdict::HostForbidden => "host forbidden",
    };
    Ok(String::from_str(alloc, words)?)
}

/// Whether a caller may reach a target: `host NAME`, or what `target_of` reads.
fn call(alloc: Global, world: &World, caller: &str, target: &str) -> Answer {
    let Some(caller) = context_of(alloc, caller)? else {
        return no_question(alloc);
    };
    if let Some(name) = target.strip_prefix("host ") {
        return native_verdict(alloc, native_gate(world, &caller, name));
    }
    match target_of(alloc, target)? {
        Some(target) => Ok(String::from_str(alloc, verdict(gate(world, &caller, &target)))?),
        None => no_question(alloc),
    }
}

/// The path of the host at a place.
fn host_at(alloc: Global, world: &World, place: &str) -> Answer {
    let Ok(place) = place.parse::<usize>() else {
        return no_question(alloc);
    };
    match world.host(place) {
        Some(host) => Ok(String::from_str(alloc, host.path())?),
        None => Ok(String::from_str(alloc, "none")?),
    }
}

/// The name of the extension with an id.
fn extension_of(alloc: Global, world: &World, id: &str) -> Answer {
    let Some(id) = id_of(alloc, id)? else {
        return no_question(alloc);
    };
    match world.extension(&id) {
        Some(extension) => Ok(String::from_str(alloc, extension.name())?),
        None => Ok(String::from_str(alloc, "none")?),
    }
}

/// The place of the host with a name.
fn place_of(alloc: Global, world: &World, name: &str) -> Answer {
    match world.host_place(name) {
        Some(place) => Ok(format!(in alloc; "{place}")?),
        None => Ok(String::from_str(alloc, "none")?),
    }
}

/// What a world holds: how many `extensions`, how many `hosts`, the `extension` with an id, the `host` at a place, the
/// `place` of a name.
fn held(alloc: Global, world: &World, question: &str) -> Answer {
    match question.split_once(' ') {
        Some(("extension", id)) => extension_of(alloc, world, id),
        Some(("host", place)) => host_at(alloc, world, place),
        Some(("place", name)) => place_of(alloc, world, name),
        Some(_) => no_question(alloc),
        None => match question {
            "extensions" => Ok(format!(in alloc; "{}", world.extensions().len())?),
            "hosts" => Ok(format!(in alloc; "{}", world.hosts().len())?),
            _ => no_question(alloc),
        },
    }
}

/// The names that were refused, if any.
fn refused_or_none(alloc: Global, refused: String) -> Answer {
    if refused.is_empty() {
        Ok(String::from_str(alloc, "none")?)
    } else {
        Ok(refused)
    }
}

/// What the world of these lines answers: `CALLER to TARGET`, which names were `refused`, or what it holds.
pub fn world(alloc: Global, lines: &str, question: &str) -> Answer {
    let (world, refused) = world_of(alloc, lines)?;
    if question == "refused" {
        return refused_or_none(alloc, refused);
    }
    match question.split_once(" to ") {
        Some((caller, target)) => call(alloc, &world, caller, target),
        None => held(alloc, &world, question),
    }
}
