//! The words for faults: of patterns, of JSON texts, of manifests.

use crate::answers::Answer;
use std::alloc::Global;
use wx_host_manifest::{HostFault, HostKey};
use wx_id::NoMemory;
use wx_json::{JsonFault, JsonKind};
use wx_manifest::{Key, ManifestFault};
use wx_match_pattern::{PatternFault, PatternKind};

fn part(kind: PatternKind) -> &'static str {
    match kind {
        PatternKind::Scheme => "scheme",
        PatternKind::Host => "host",
        PatternKind::Path => "path",
    }
}

/// The place of a pattern's fault, and its part.
pub fn pattern_fault(alloc: Global, fault: PatternFault) -> Answer {
    Ok(format!(in alloc; "{} {}", fault.place, part(fault.kind))?)
}

fn json_kind(kind: JsonKind) -> &'static str {
    match kind {
        JsonKind::Syntax => "syntax",
        JsonKind::Utf8 => "utf8",
        JsonKind::TooDeep => "too_deep",
        JsonKind::Ends => "ends",
    }
}

/// The place of a JSON text's fault, and its kind.
pub fn json_fault(alloc: Global, fault: JsonFault) -> Answer {
    Ok(format!(in alloc; "bad_json {} {}", fault.place, json_kind(fault.kind))?)
}

fn key(key: Key) -> &'static str {
    match key {
        Key::ManifestVersion => "manifest_version",
        Key::Name => "name",
        Key::Version => "version",
        Key::Permissions => "permissions",
        Key::External => "externally_connectable",
        Key::Ids => "externally_connectable.ids",
        Key::Matches => "externally_connectable.matches",
    }
}

/// Why a manifest is refused.
pub fn manifest_fault(alloc: Global, fault: ManifestFault) -> Answer {
    let words = match fault {
        ManifestFault::NotJson => String::from_str(alloc, "not_json")?,
        ManifestFault::Missing(missing) => format!(in alloc; "missing_key {}", key(missing))?,
        ManifestFault::WrongKind(wrong) => format!(in alloc; "wrong_kind {}", key(wrong))?,
        ManifestFault::BadId(n) => format!(in alloc; "bad_id {n}")?,
        ManifestFault::BadPattern(n, fault) => {
            let fault = pattern_fault(alloc, fault)?;
            format!(in alloc; "bad_pattern {n} {fault}")?
        }
        ManifestFault::TooBroad(n) => format!(in alloc; "too_broad {n}")?,
        ManifestFault::NoMemory => return Err(NoMemory),
    };
    Ok(words)
}

fn host_key(key: HostKey) -> &'static str {
    match key {
        HostKey::Name => "name",
        HostKey::Description => "description",
        HostKey::Path => "path",
        HostKey::Kind => "type",
        HostKey::Origins => "allowed_origins",
    }
}

/// Why a host's manifest is refused.
pub fn host_fault(alloc: Global, fault: HostFault) -> Answer {
    let words = match fault {
        HostFault::NotJson => String::from_str(alloc, "not_json")?,
        HostFault::Missing(missing) => format!(in alloc; "missing_key {}", host_key(missing))?,
        HostFault::WrongKind(wrong) => format!(in alloc; "wrong_kind {}", host_key(wrong))?,
        HostFault::BadName { place } => format!(in alloc; "bad_name {place}")?,
        HostFault::NameDiffers => String::from_str(alloc, "name_differs")?,
        HostFault::NotAbsolute => String::from_str(alloc, "not_absolute")?,
        HostFault::NotStdio => String::from_str(alloc, "not_stdio")?,
        HostFault::BadOrigin(n) => format!(in alloc; "bad_origin {n}")?,
        HostFault::NoMemory => return Err(NoMemory),
    };
    Ok(words)
}

/// A question's answer of yes or no.
pub fn yes_or_no(alloc: Global, yes: bool) -> Answer {
    let word = if yes { "yes" } else { "no" };
    Ok(String::from_str(alloc, word)?)
}

/// Says that a row asks nothing that can be answered.
pub fn no_question(alloc: Global) -> Answer {
    Ok(String::from_str(alloc, "no question")?)
}
