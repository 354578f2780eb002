//! Manifests of native hosts.

use crate::answers::Answer;
use crate::ids::id_of;
use crate::words::{host_fault, no_question, yes_or_no};
use std::alloc::Global;
use wx_host_manifest::{Arguments, HostManifest};

/// Whether bytes are a host's manifest in the file of a name, or why they are refused.
pub fn manifest(alloc: Global, file: &[u8], bytes: &[u8]) -> Answer {
    let Ok(file) = str::from_utf8(file) else {
        return no_question(alloc);
    };
    match HostManifest::read(alloc, file, bytes) {
        Ok(_) => Ok(String::from_str(alloc, "read")?),
        Err(fault) => host_fault(alloc, fault),
    }
}

/// The arguments, with a blank between them.
fn joined(alloc: Global, arguments: &Arguments) -> Answer {
    let mut all = String::new(alloc);
    for place in 0..arguments.count() {
        if place > 0 {
            all.push_str(" ")?;
        }
        if let Some(argument) = arguments.get(place) {
            all.push_str(argument)?;
        }
    }
    Ok(all)
}

/// What a host's manifest says of a caller: whether it `admits` it, and the `arguments` for it.
fn about_caller(alloc: Global, host: &HostManifest, question: &str, caller: &str) -> Answer {
    let Some(id) = id_of(alloc, caller)? else {
        return no_question(alloc);
    };
    match question {
        "admits" => yes_or_no(alloc, host.admits(&id)),
        "arguments" => joined(alloc, &host.arguments(alloc, &id)?),
        _ => no_question(alloc),
    }
}

/// What a host's manifest holds.
fn held(alloc: Global, host: &HostManifest, question: &str) -> Answer {
    match question {
        "name" => Ok(String::from_str(alloc, host.name().text())?),
        "path" => Ok(String::from_str(alloc, host.path())?),
        _ => match question.split_once(' ') {
            Some((question, caller)) => about_caller(alloc, host, question, caller),
            None => no_question(alloc),
        },
    }
}

/// What the manifest that is given under the line of its file's name holds.
pub fn content(alloc: Global, given: &str, question: &str) -> Answer {
    let Some((file, manifest)) = given.split_once('\n') else {
        return no_question(alloc);
    };
    match HostManifest::read(alloc, file, manifest.as_bytes()) {
        Ok(host) => held(alloc, &host, question),
        Err(_) => no_question(alloc),
    }
}
