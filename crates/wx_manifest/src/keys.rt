//! What stands under each key, and the test that it has to pass.
ghost use Rattle.std.specs.Prelude.{◌≡◌, Some, codes};
ghost use Rattle.serde_json.specs.View.{view, items_view};
ghost use Rattle.serde_json.specs.Find.{get};
ghost use Rattle.wx_manifest_tree.specs.Tree.{lent, optional, as_texts};
ghost use Rattle.wx_manifest.specs.Keys as keys;
ghost use Rattle.wx_manifest.specs.ExtensionManifests as manifests;

use crate::faults::{Key, ManifestFault};
use serde_json::Value;
use wx_manifest_tree::{KeyFault, Texts, optional_texts_at, text_at};

fn fault_at(key: Key, fault: KeyFault) -> ManifestFault
    ensures { result ≡ keys.fault_at key fault }
{
    match fault {
        KeyFault::Missing => ManifestFault::Missing(key),
        KeyFault::WrongKind => ManifestFault::WrongKind(key),
    }
}

pub(crate) fn text_of<'v>(tree: &'v Value, key: Key) -> Result<&'v str, ManifestFault>
    ensures { lent result ≡ manifests.text_of key (view tree.now) }
{
    match text_at(tree, key.text()) {
        Ok(text) => Ok(text),
        Err(fault) => Err(fault_at(key, fault)),
    }
}

#[tactic(auto, unfolding(crate::specs::ExtensionManifests::manifest_version_of))]
pub(crate) fn manifest_version_of(tree: &Value) -> Result<u8, ManifestFault>
    ensures { result ≡ manifests.manifest_version_of (view tree.now) }
{
    match tree.get(Key::ManifestVersion.text()) {
        None => Err(ManifestFault::Missing(Key::ManifestVersion)),
        Some(value) => match value.as_u64() {
            Some(2) => Ok(2),
            Some(3) => Ok(3),
            _ => Err(ManifestFault::WrongKind(Key::ManifestVersion)),
        },
    }
}

fn is_text(value: &Value, text: &str) -> bool
    ensures { result ≡ manifests.is_text text.now (view value.now) }
{
    match value.as_str() {
        Some(own) => text == own,
        None => false,
    }
}

fn holds_text(members: &[Value], text: &str) -> bool
    ensures { result ≡ manifests.holds_text text.now (items_view members.now) }
{
    for member in members {
        if is_text(member, text) {
            return true;
        }
    }
    false
}

#[tactic(auto, unfolding(crate::specs::ExtensionManifests::native_of))]
pub(crate) fn native_of(tree: &Value) -> Result<bool, ManifestFault>
    ensures { result ≡ manifests.native_of (view tree.now) }
{
    match tree.get(Key::Permissions.text()) {
        None => Ok(false),
        Some(value) => match value.as_array() {
            None => Err(ManifestFault::WrongKind(Key::Permissions)),
            Some(members) => Ok(holds_text(members, "nativeMessaging")),
        },
    }
}

/// The texts of an optional array of strings; none where it is absent.
pub(crate) fn texts_of<'v>(tree: &'v Value, key: Key) -> Result<Option<Texts<'v>>, ManifestFault>
    ensures { result ≡ keys.under key (optional as_texts (get (keys.key_name key) (view tree.now))) }
{
    match optional_texts_at(tree, key.text()) {
        Ok(texts) => Ok(texts),
        Err(fault) => Err(fault_at(key, fault)),
    }
}
