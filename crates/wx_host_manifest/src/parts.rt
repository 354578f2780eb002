//! What a host's manifest holds, as it lies in the tree.
ghost use Rattle.std.specs.Prelude.{◌≡◌};
ghost use Rattle.serde_json.specs.View.{view};

use crate::faults::{HostFault, HostKey};
use crate::keys::{check_kind, name_of, origins_of, path_of, text_of};
use serde_json::Value;
use std::marker::Model;
use wx_manifest_tree::Texts;

/// What a manifest holds, as it lies in the tree.
#[derive(Drop)]
pub(crate) struct Parts<'v> {
    pub(crate) name: &'v str,
    pub(crate) path: &'v str,
    pub(crate) origins: Texts<'v>,
}

impl<'v> Model for Parts<'v> {
    ghost use Rattle.std.specs.Prelude.{◌≡◌, true, IsTrue};
    ghost use Rattle.std.specs.List.{list_all};
    ghost use Rattle.wx_id.specs.HostNames.{is_host_name};
    ghost use Rattle.wx_host_manifest.specs.Origins.{is_origin};
    ghost use Rattle.wx_host_manifest.specs.HostManifests.{Host};

    ghost Value = { Host };

    ghost view = { λ parts. record { name = parts.name.now; path = parts.path.now; origins = parts.origins } };

    ghost invariant = { λ parts. IsTrue (is_host_name parts.name.now) × IsTrue (list_all is_origin parts.origins) };
}

impl<'v> Parts<'v> {
    ghost use Rattle.wx_host_manifest.specs.HostManifests.{host_in};

    /// What the manifest in the file of that name holds.
    #[tactic(auto, unfolding(crate::specs::HostManifests::host_in))]
    pub(crate) fn of(tree: &'v Value, file_name: &str) -> Result<Parts<'v>, HostFault>
        ensures { result ≡ host_in file_name.now (view tree.now) }
    {
        let name = name_of(tree, file_name)?;
        text_of(tree, HostKey::Description)?;
        let path = path_of(tree)?;
        check_kind(tree)?;
        match origins_of(tree) {
            Ok(origins) => Ok(Parts {
                name,
                path,
                origins,
            }),
            Err(fault) => Err(fault),
        }
    }
}
