//! What stands under `externally_connectable`.
ghost use Rattle.std.specs.Prelude.{◌≡◌, ◌≢◌, ◌↔◌, Ok, Err, IfOk, IfErr, IsTrue};
ghost use Rattle.serde_json.specs.View.{view};

use crate::faults::ManifestFault;
use crate::ids::{IdEntry, any_admits, ids_of};
use crate::patterns::{any_matches, patterns_of};
use serde_json::Value;
use std::alloc::Global;
use std::marker::Model;
use url::Url;
use wx_id::ExtensionId;
use wx_match_pattern::Pattern;

/// Who may call from outside (`externally_connectable`). Contracts see the texts of `ids` and the patterns.
#[derive(Debug, Drop)]
pub(crate) struct Connectable {
    ids: Vec<IdEntry>,
    patterns: Vec<Pattern>,
}

impl Model for Connectable {
    ghost use Rattle.std.specs.Prelude.{map};
    ghost use Rattle.wx_manifest.specs.IdEntries.{id_text};
    ghost use Rattle.wx_manifest.specs.ExtensionManifests as manifests;

    ghost Value = { manifests.Connectable };

    ghost view = { λ c. record { ids = map id_text c.ids.items; patterns = c.patterns.items } };
}

impl Connectable {
    ghost use Rattle.wx_manifest.specs.ExtensionManifests.{connectable_in, lists_id, SomeMeets};

    /// What the object under `externally_connectable` holds.
    #[tactic(auto, unfolding(crate::specs::ExtensionManifests::connectable_in))]
    pub(crate) fn read(alloc: Global, tree: &Value) -> Result<Connectable, ManifestFault>
        ensures ok { IfOk result (λ c. connectable_in (view tree.now) ≡ Ok c) }
        ensures err { IfErr result (λ fault. fault ≢ ManifestFault.NoMemory
            → connectable_in (view tree.now) ≡ Err fault) }
    {
        let ids = ids_of(alloc, tree)?;
        let patterns = patterns_of(alloc, tree)?;
        Ok(Connectable { ids, patterns })
    }

    pub(crate) fn lists_id(&self, id: &ExtensionId) -> bool
        ensures { result ≡ lists_id self.now.ids id.now }
    {
        any_admits(&self.ids, id)
    }

    pub(crate) fn matches(&self, url: &Url) -> bool
        ensures { IsTrue result ↔ SomeMeets self.now.patterns url.now }
    {
        any_matches(&self.patterns, url)
    }
}
