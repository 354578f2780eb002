//! The manifest of an extension.
ghost use Rattle.std.specs.Prelude.{◌≡◌, ◌≢◌, ◌↔◌, Ok, Err, IfOk, IfErr, IsTrue, is_some};
ghost use Rattle.serde_json.specs.View.{view};
ghost use Rattle.wx_manifest.specs.ExtensionManifests as manifests;

use crate::connectable::Connectable;
use crate::faults::{Key, ManifestFault};
use crate::keys::{manifest_version_of, native_of, text_of};
use serde_json::Value;
use std::alloc::Global;
use std::marker::Model;
use url::Url;
use wx_id::{ExtensionId, Utf8Text};
use wx_manifest_tree::{ReadFault, read_object};

/// The manifest of an extension. Contracts see what it holds.
#[derive(Debug, Drop)]
pub struct Extension {
    manifest_version: u8,
    name: Utf8Text,
    version: Utf8Text,
    native: bool,
    external: Option<Connectable>,
}

impl Model for Extension {
    ghost use Rattle.wx_manifest.specs.ExtensionManifests.{Manifest};

    ghost Value = { Manifest };

    ghost view = { λ e. record {
      manifest_version = e.manifest_version;
      name = e.name;
      version = e.version;
      native = e.native;
      external = e.external;
    } };
}

/// What stands under `externally_connectable`, where it is there.
#[tactic(auto, unfolding(crate::specs::ExtensionManifests::external_of))]
fn external_of(alloc: Global, tree: &Value) -> Result<Option<Connectable>, ManifestFault>
    ensures ok { IfOk result (λ external. manifests.external_of (view tree.now) ≡ Ok external) }
    ensures err { IfErr result (λ fault. fault ≢ ManifestFault.NoMemory
        → manifests.external_of (view tree.now) ≡ Err fault) }
{
    match tree.get(Key::External.text()) {
        None => Ok(None),
        Some(value) => {
            if !value.is_object() {
                return Err(ManifestFault::WrongKind(Key::External));
            }
            match Connectable::read(alloc, value) {
                Ok(connectable) => Ok(Some(connectable)),
                Err(fault) => Err(fault),
            }
        }
    }
}

/// What the object holds, by its keys in their order.
#[tactic(auto, unfolding(crate::specs::ExtensionManifests::manifest_in))]
fn extension_in(alloc: Global, tree: &Value) -> Result<Extension, ManifestFault>
    ensures ok { IfOk result (λ e. manifests.manifest_in (view tree.now) ≡ Ok e) }
    ensures err { IfErr result (λ fault. fault ≢ ManifestFault.NoMemory
        → manifests.manifest_in (view tree.now) ≡ Err fault) }
{
    let manifest_version = manifest_version_of(tree)?;
    let name = text_of(tree, Key::Name)?;
    let version = text_of(tree, Key::Version)?;
    let native = native_of(tree)?;
    let external = external_of(alloc, tree)?;
    let name = Utf8Text::new(alloc, name)?;
    let version = Utf8Text::new(alloc, version)?;
    Ok(Extension {
        manifest_version,
        name,
        version,
        native,
        external,
    })
}

impl Extension {
    ghost use Rattle.wx_manifest.specs.ExtensionManifests.{extension_of, admits_id, AdmitsUrl};

    /// Reads the manifest: Chrome's "Manifest file format" and MDN's "externally_connectable", with the tests in the
    /// order manifest version, name, version, permissions, externally connectable. Only want of memory is answered
    /// without its cause.
    #[tactic(auto, unfolding(crate::specs::ExtensionManifests::extension_of))]
    pub fn read(alloc: Global, bytes: &[u8]) -> Result<Extension, ManifestFault>
        ensures ok { IfOk result (λ e. extension_of bytes.now ≡ Ok e) }
        ensures err { IfErr result (λ fault. fault ≢ ManifestFault.NoMemory
            → extension_of bytes.now ≡ Err fault) }
    {
        match read_object(alloc, bytes) {
            Ok(tree) => extension_in(alloc, &tree),
            Err(ReadFault::NotJson) => Err(ManifestFault::NotJson),
            Err(ReadFault::NoMemory) => Err(ManifestFault::NoMemory),
        }
    }

    /// 2 or 3.
    pub fn manifest_version(&self) -> u8
        ensures { result ≡ self.now.manifest_version }
    {
        self.manifest_version
    }

    /// The extension's name.
    pub fn name(&self) -> &str
        ensures { result.now ≡ self.now.name }
    {
        self.name.as_str()
    }

    /// The extension's version, as the manifest writes it.
    pub fn version(&self) -> &str
        ensures { result.now ≡ self.now.version }
    {
        self.version.as_str()
    }

    /// Whether it has the permission `nativeMessaging`.
    pub fn native(&self) -> bool
        ensures { result ≡ self.now.native }
    {
        self.native
    }

    /// Whether `externally_connectable` is there.
    pub fn external_given(&self) -> bool
        ensures { result ≡ is_some self.now.external }
    {
        self.external.is_some()
    }

    /// Whether another extension with this id may call.
    pub fn admits_id(&self, id: &ExtensionId) -> bool
        ensures { result ≡ admits_id self.now id.now }
    {
        match &self.external {
            None => true,
            Some(external) => external.lists_id(id),
        }
    }

    /// Whether a web page at this URL may call.
    pub fn admits_url(&self, url: &Url) -> bool
        ensures { IsTrue result ↔ AdmitsUrl self.now url.now }
    {
        match &self.external {
            None => false,
            Some(external) => external.matches(url),
        }
    }
}
