//! Manifests of extensions.

use crate::answers::Answer;
use crate::ids::id_of;
use crate::words::{manifest_fault, no_question, yes_or_no};
use std::alloc::Global;
use url::Url;
use wx_manifest::Extension;

/// Whether bytes are a manifest, or why they are refused.
pub fn manifest(alloc: Global, bytes: &[u8]) -> Answer {
    match Extension::read(alloc, bytes) {
        Ok(_) => Ok(String::from_str(alloc, "read")?),
        Err(fault) => manifest_fault(alloc, fault),
    }
}

/// Whether a manifest admits the extension with an id, or the page at an address.
fn admits(alloc: Global, extension: &Extension, caller: &str) -> Answer {
    if let Some(id) = id_of(alloc, caller)? {
        return yes_or_no(alloc, extension.admits_id(&id));
    }
    match Url::parse(alloc, caller) {
        Ok(url) => yes_or_no(alloc, extension.admits_url(&url)),
        Err(_) => no_question(alloc),
    }
}

/// What a manifest holds: the value of a key, whether there is one, or whom it `admits`.
fn held(alloc: Global, extension: &Extension, question: &str) -> Answer {
    if let Some(caller) = question.strip_prefix("admits ") {
        return admits(alloc, extension, caller);
    }
    match question {
        "manifest_version" => Ok(format!(in alloc; "{}", extension.manifest_version())?),
        "name" => Ok(String::from_str(alloc, extension.name())?),
        "version" => Ok(String::from_str(alloc, extension.version())?),
        "nativeMessaging" => yes_or_no(alloc, extension.native()),
        "externally_connectable" => yes_or_no(alloc, extension.external_given()),
        _ => no_question(alloc),
    }
}

/// What the manifest that is given holds.
pub fn content(alloc: Global, manifest: &str, question: &str) -> Answer {
    match Extension::read(alloc, manifest.as_bytes()) {
        Ok(extension) => held(alloc, &extension, question),
        Err(_) => no_question(alloc),
    }
}
