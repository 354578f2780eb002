//! What stands under each key, and the test that it has to pass.
ghost use Rattle.std.specs.Prelude.{◌≡◌, not, ◌++◌, codes, IfOk, IsTrue};
ghost use Rattle.std.specs.List.{list_all, position_from};
ghost use Rattle.std.specs.Str.{bytes_eq};
ghost use Rattle.serde_json.specs.View.{view};
ghost use Rattle.wx_id.specs.HostNames.{is_host_name};
ghost use Rattle.wx_manifest_tree.specs.Tree.{lent};
ghost use Rattle.wx_host_manifest.specs.Origins.{is_origin};
ghost use Rattle.wx_host_manifest.specs.HostManifests as hosts;

use crate::faults::{HostFault, HostKey};
use crate::origin::read_origin;
use serde_json::Value;
use wx_id::HostName;
use wx_manifest_tree::{KeyFault, Texts, text_at, texts_at};

fn fault_at(key: HostKey, fault: KeyFault) -> HostFault
    ensures { result ≡ hosts.fault_at key fault }
{
    match fault {
        KeyFault::Missing => HostFault::Missing(key),
        KeyFault::WrongKind => HostFault::WrongKind(key),
    }
}

pub(crate) fn text_of<'v>(tree: &'v Value, key: HostKey) -> Result<&'v str, HostFault>
    ensures { lent result ≡ hosts.text_of key (view tree.now) }
{
    match text_at(tree, key.text()) {
        Ok(text) => Ok(text),
        Err(fault) => Err(fault_at(key, fault)),
    }
}

fn is_file_of(file_name: &str, name: &str) -> bool
    ensures { result ≡ bytes_eq file_name.now (name.now ++ codes ".json") }
{
    match file_name.as_bytes().strip_suffix(b".json") {
        Some(stem) => stem == name.as_bytes(),
        None => false,
    }
}

#[tactic(auto, unfolding(crate::specs::HostManifests::name_of))]
pub(crate) fn name_of<'v>(tree: &'v Value, file_name: &str) -> Result<&'v str, HostFault>
    ensures value { lent result ≡ hosts.name_of file_name.now (view tree.now) }
    ensures sort { IfOk result (λ name. IsTrue (is_host_name name.now)) }
{
    let name = text_of(tree, HostKey::Name)?;
    if let Some(place) = HostName::fault(name.as_bytes()) {
        return Err(HostFault::BadName { place });
    }
    if !is_file_of(file_name, name) {
        return Err(HostFault::NameDiffers);
    }
    Ok(name)
}

#[tactic(auto, unfolding(crate::specs::HostManifests::path_of))]
pub(crate) fn path_of(tree: &Value) -> Result<&str, HostFault>
    ensures { lent result ≡ hosts.path_of (view tree.now) }
{
    let path = text_of(tree, HostKey::Path)?;
    if !path.starts_with('/') {
        return Err(HostFault::NotAbsolute);
    }
    Ok(path)
}

#[tactic(auto, unfolding(crate::specs::HostManifests::kind_of))]
pub(crate) fn check_kind(tree: &Value) -> Result<(), HostFault>
    ensures { result ≡ hosts.kind_of (view tree.now) }
{
    let kind = text_of(tree, HostKey::Kind)?;
    if kind != "stdio" {
        return Err(HostFault::NotStdio);
    }
    Ok(())
}

/// The place of the first text that is no origin.
#[tactic(auto, using(crate::proofs::KeyLemmas::bad_here))]
fn bad_origin(origins: &Texts<'_>) -> Option<u64>
    ensures { result ≡ position_from (λ text. not (is_origin text)) 0 origins.now }
{
    for place in 0..origins.len() {
        if read_origin(origins.at(place)).is_none() {
            return Some(place as u64);
        }
    }
    None
}

#[tactic(auto, using(crate::proofs::KeyLemmas::all_origins), unfolding(crate::specs::HostManifests::origins_of))]
pub(crate) fn origins_of(tree: &Value) -> Result<Texts<'_>, HostFault>
    ensures value { result ≡ hosts.origins_of (view tree.now) }
    ensures sort { IfOk result (λ origins. IsTrue (list_all is_origin origins)) }
{
    let origins = match texts_at(tree, HostKey::Origins.text()) {
        Ok(origins) => origins,
        Err(fault) => return Err(fault_at(HostKey::Origins, fault)),
    };
    match bad_origin(&origins) {
        Some(place) => Err(HostFault::BadOrigin(place)),
        None => Ok(origins),
    }
}
