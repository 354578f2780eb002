//! The members of `ids` in `externally_connectable`.
ghost use Rattle.std.specs.Prelude.{◌≡◌, ◌≢◌, true, false, map, Ok, Err, IfOk, IfErr, MatchOption};
ghost use Rattle.serde_json.specs.View.{view};
ghost use Rattle.wx_manifest.specs.ExtensionManifests as manifests;
ghost use Rattle.wx_manifest.specs.ExtensionManifests.{is_id_entry, judged_ids, admits_entry};
ghost use Rattle.wx_manifest.specs.IdEntries.{id_text};

use crate::faults::{Key, ManifestFault};
use crate::keys::texts_of;
use serde_json::Value;
use std::alloc::Global;
use wx_id::ExtensionId;
use wx_manifest_tree::Texts;

/// A member of `ids`.
#[derive(Clone, Copy, Debug)]
pub(crate) enum IdEntry {
    /// `*`: each extension.
    Any,
    /// One extension.
    One(ExtensionId),
}

impl IdEntry {
    fn read(text: &str) -> Option<IdEntry>
        ensures { MatchOption result (is_id_entry text.now ≡ false)
            (λ entry. (is_id_entry text.now ≡ true) × (id_text entry ≡ text.now)) }
    {
        if text == "*" {
            return Some(IdEntry::Any);
        }
        match ExtensionId::read(text.as_bytes()) {
            Ok(id) => Some(IdEntry::One(id)),
            Err(_) => None,
        }
    }

    /// Whether this extension is meant.
    fn admits(&self, id: &ExtensionId) -> bool
        ensures { result ≡ admits_entry (id_text self.now) id.now }
    {
        match self {
            IdEntry::Any => true,
            IdEntry::One(own) => own.text() == id.text(),
        }
    }
}

/// Whether some entry means this extension.
pub(crate) fn any_admits(entries: &[IdEntry], id: &ExtensionId) -> bool
    ensures { result ≡ manifests.lists_id (map id_text entries.now) id.now }
{
    for entry in entries {
        if entry.admits(id) {
            return true;
        }
    }
    false
}

/// The members of `ids`, each `*` or an extension's id.
#[tactic(auto, using(crate::proofs::ManifestLemmas::bad_entry, crate::proofs::ManifestLemmas::good_entry, crate::proofs::ManifestLemmas::more_entries))]
fn read_ids(alloc: Global, texts: &Texts<'_>) -> Result<Vec<IdEntry>, ManifestFault>
    ensures ok { IfOk result (λ ids. judged_ids texts.now ≡ Ok (map id_text ids.items)) }
    ensures err { IfErr result (λ fault. fault ≢ ManifestFault.NoMemory
        → judged_ids texts.now ≡ Err fault) }
{
    let mut ids = Vec::new(alloc);
    for place in 0..texts.len() {
        let Some(entry) = IdEntry::read(texts.at(place)) else {
            return Err(ManifestFault::BadId(place as u64));
        };
        if ids.push(entry).is_err() {
            return Err(ManifestFault::NoMemory);
        }
    }
    Ok(ids)
}

/// The members of `ids` in `externally_connectable`.
#[tactic(auto, unfolding(crate::specs::ExtensionManifests::ids_of, crate::specs::ExtensionManifests::texts_of))]
pub(crate) fn ids_of(alloc: Global, tree: &Value) -> Result<Vec<IdEntry>, ManifestFault>
    ensures ok { IfOk result (λ ids. manifests.ids_of (view tree.now) ≡ Ok (map id_text ids.items)) }
    ensures err { IfErr result (λ fault. fault ≢ ManifestFault.NoMemory
        → manifests.ids_of (view tree.now) ≡ Err fault) }
{
    match texts_of(tree, Key::Ids) {
        Ok(None) => Ok(Vec::new(alloc)),
        Ok(Some(texts)) => read_ids(alloc, &texts),
        Err(fault) => Err(fault),
    }
}
