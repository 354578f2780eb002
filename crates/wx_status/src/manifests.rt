//! The line that says why a manifest is refused.
ghost use Rattle.std.specs.Prelude.{◌≡◌, IfOk, codes, decimal, string_bytes};
ghost use Rattle.wx_status.specs.Manifests as manifests;

use crate::lines::pattern_word;
use std::alloc::{AllocError, Global};
use wx_host_manifest::{HostFault, HostKey};
use wx_manifest::{Key, ManifestFault};
use wx_match_pattern::PatternFault;
use wx_world::FileKind;

/// A key of an extension's manifest, with the key that it stands under.
fn key_word(key: Key) -> &'static str
    ensures { result.now ≡ manifests.key_word key }
{
    match key {
        Key::ManifestVersion => "manifest_version",
        Key::Name => "name",
        Key::Version => "version",
        Key::Permissions => "permissions",
        Key::External => "externally_connectable",
        Key::Ids => "externally_connectable.ids",
        Key::Matches => "externally_connectable.matches",
    }
}

/// A key of a host's manifest.
fn host_key_word(key: HostKey) -> &'static str
    ensures { result.now ≡ manifests.host_key_word key }
{
    match key {
        HostKey::Name => "name",
        HostKey::Description => "description",
        HostKey::Path => "path",
        HostKey::Kind => "type",
        HostKey::Origins => "allowed_origins",
    }
}

/// A word, and the text that it is about.
fn about(alloc: Global, word: &str, what: &str) -> Result<String, AllocError>
    ensures { IfOk result (λ text. string_bytes text ≡ manifests.about word.now what.now) }
{
    format!(in alloc; "{word} {what}")
}

/// A word, and the number that it is about.
fn numbered(alloc: Global, word: &str, n: u64) -> Result<String, AllocError>
    ensures { IfOk result (λ text. string_bytes text ≡ manifests.about word.now (decimal n)) }
{
    format!(in alloc; "{word} {n}")
}

/// Where a pattern is faulty: its place in `matches`, the fault's place in it, and the part.
fn pattern_text(alloc: Global, n: u64, fault: PatternFault) -> Result<String, AllocError>
    ensures { IfOk result (λ text. string_bytes text ≡ manifests.pattern_text n fault) }
{
    let place = fault.place;
    let part = pattern_word(fault.kind);
    format!(in alloc; "{n} {place} {part}")
}

/// A faulty pattern of `matches`.
fn bad_pattern(alloc: Global, n: u64, fault: PatternFault) -> Result<String, AllocError>
    ensures { IfOk result (λ text. string_bytes text
        ≡ manifests.about (codes "bad_pattern") (manifests.pattern_text n fault)) }
{
    let place = pattern_text(alloc, n, fault)?;
    about(alloc, "bad_pattern", place.as_str())
}

/// Why an extension's manifest is refused.
fn extension_text(alloc: Global, fault: ManifestFault) -> Result<String, AllocError>
    ensures { IfOk result (λ text. string_bytes text ≡ manifests.extension_text fault) }
{
    match fault {
        ManifestFault::NotJson => String::from_str(alloc, "not_json"),
        ManifestFault::Missing(key) => about(alloc, "missing_key", key_word(key)),
        ManifestFault::WrongKind(key) => about(alloc, "wrong_kind", key_word(key)),
        ManifestFault::BadId(n) => numbered(alloc, "bad_id", n),
        ManifestFault::BadPattern(n, fault) => bad_pattern(alloc, n, fault),
        ManifestFault::TooBroad(n) => numbered(alloc, "too_broad", n),
        ManifestFault::NoMemory => String::from_str(alloc, "no_memory"),
    }
}

/// Why a host's manifest is refused.
fn host_text(alloc: Global, fault: HostFault) -> Result<String, AllocError>
    ensures { IfOk result (λ text. string_bytes text ≡ manifests.host_text fault) }
{
    match fault {
        HostFault::NotJson => String::from_str(alloc, "not_json"),
        HostFault::Missing(key) => about(alloc, "missing_key", host_key_word(key)),
        HostFault::WrongKind(key) => about(alloc, "wrong_kind", host_key_word(key)),
        HostFault::BadName { place } => numbered(alloc, "bad_name", place),
        HostFault::NameDiffers => String::from_str(alloc, "name_differs"),
        HostFault::NotAbsolute => String::from_str(alloc, "not_absolute"),
        HostFault::NotStdio => String::from_str(alloc, "not_stdio"),
        HostFault::BadOrigin(n) => numbered(alloc, "bad_origin", n),
        HostFault::NoMemory => String::from_str(alloc, "no_memory"),
    }
}

/// Why a manifest's file is refused.
fn kind_text(alloc: Global, kind: FileKind) -> Result<String, AllocError>
    ensures { IfOk result (λ text. string_bytes text ≡ manifests.kind_text kind) }
{
    match kind {
        FileKind::Missing => String::from_str(alloc, "missing"),
        FileKind::Large => String::from_str(alloc, "large"),
        FileKind::Extension(fault) => extension_text(alloc, fault),
        FileKind::Host(fault) => host_text(alloc, fault),
    }
}

/// The line that says why a manifest is refused; the file is named as the scene writes it.
pub fn manifest_line(alloc: Global, file: &str, kind: FileKind) -> Result<String, AllocError>
    ensures { IfOk result (λ line. string_bytes line ≡ manifests.manifest_line file.now kind) }
{
    let kind = kind_text(alloc, kind)?;
    format!(in alloc; "wx: manifest refused: {file}: {kind}\n")
}
