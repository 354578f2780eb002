//! Judges what stands in a file of a scene, and adds it to the world.
ghost use Rattle.std.specs.Prelude.{◌≡◌, Ok, Err, IfOk, IfErr, OnOk, option_copied};
ghost use Rattle.wx_id.specs.Results.{told_as};
ghost use Rattle.wx_outside.specs.Shelf.{content};
ghost use Rattle.wx_manifest.specs.ExtensionManifests.{extension_of};
ghost use Rattle.wx_host_manifest.specs.HostManifests.{host_of};
ghost use Rattle.wx_world.specs.declared.faults.FileKind.TheVariants as kind;
ghost use Rattle.wx_script.specs.Words as words;
ghost use Rattle.wx_world.specs.Files as spec;
ghost use Rattle.wx_world.specs.Reading.{Refuses, IsOfTheFile};

use crate::faults::{FileFault, FileKind};
use crate::names::{extension_at, name_of};
use std::alloc::Global;
use wx_external::{AddFault, World};
use wx_host_manifest::{HostFault, HostManifest};
use wx_manifest::{Extension, ManifestFault};
use wx_outside::Found;
use wx_script::{Scene, SceneExtension, SceneFile, file_name};

/// The bytes that were found.
fn bytes_in(found: &Found) -> Result<&[u8], FileKind>
    ensures ok { IfOk result (λ bytes. spec.bytes_in (content found.now) ≡ Ok bytes.now) }
    ensures err { IfErr result (λ kind. spec.bytes_in (content found.now) ≡ Err kind × IsOfTheFile kind) }
{
    match found {
        Found::Bytes(bytes) => Ok(bytes.as_slice()),
        Found::Missing => Err(FileKind::Missing),
        Found::Large => Err(FileKind::Large),
    }
}

/// The manifest of an extension that these bytes hold.
fn read_extension(alloc: Global, bytes: &[u8]) -> Result<Extension, FileFault>
    ensures ok { IfOk result (λ manifest. told_as kind.Extension (extension_of bytes.now) ≡ Ok manifest) }
    ensures err { IfErr result (λ fault. Refuses (told_as kind.Extension (extension_of bytes.now)) fault) }
{
    match Extension::read(alloc, bytes) {
        Ok(manifest) => Ok(manifest),
        Err(ManifestFault::NoMemory) => Err(FileFault::NoMemory),
        Err(fault) => Err(FileFault::Refused(FileKind::Extension(fault))),
    }
}

/// The manifest of a host that these bytes hold, which stand under this name.
fn read_host(alloc: Global, name: &str, bytes: &[u8]) -> Result<HostManifest, FileFault>
    ensures ok { IfOk result (λ host. told_as kind.Host (host_of (words.file_name name.now) bytes.now) ≡ Ok host) }
    ensures err { IfErr result (λ fault.
        Refuses (told_as kind.Host (host_of (words.file_name name.now) bytes.now)) fault) }
{
    match HostManifest::read(alloc, file_name(name), bytes) {
        Ok(host) => Ok(host),
        Err(HostFault::NoMemory) => Err(FileFault::NoMemory),
        Err(fault) => Err(FileFault::Refused(FileKind::Host(fault))),
    }
}

/// The extension's manifest that was found.
fn extension_in(alloc: Global, found: &Found) -> Result<Extension, FileFault>
    ensures ok { IfOk result (λ manifest. spec.extension_in (content found.now) ≡ Ok manifest) }
    ensures err { IfErr result (λ fault. Refuses (spec.extension_in (content found.now)) fault) }
{
    match bytes_in(found) {
        Ok(bytes) => read_extension(alloc, bytes),
        Err(kind) => Err(FileFault::Refused(kind)),
    }
}

/// The host's manifest that was found under this name.
fn host_in(alloc: Global, name: &str, found: &Found) -> Result<HostManifest, FileFault>
    ensures ok { IfOk result (λ host. spec.host_in name.now (content found.now) ≡ Ok host) }
    ensures err { IfErr result (λ fault. Refuses (spec.host_in name.now (content found.now)) fault) }
{
    match bytes_in(found) {
        Ok(bytes) => read_host(alloc, name, bytes),
        Err(kind) => Err(FileFault::Refused(kind)),
    }
}

/// Adds the manifest of an extension of the scene; an extension that is there already stays.
fn put_extension(
    world: &mut World,
    extension: Option<&SceneExtension>,
    manifest: Extension,
) -> Result<(), FileFault>
    ensures ok { OnOk result (world.new ≡ spec.with_manifest_of (option_copied extension.entry) world.old manifest) }
    ensures err { IfErr result (λ fault. fault ≡ FileFault.NoMemory) }
{
    let Some(extension) = extension else {
        return Ok(());
    };
    match world.add_extension(extension.id, manifest) {
        Ok(()) => Ok(()),
        Err((AddFault::Repeated, _)) => Ok(()),
        Err((AddFault::NoMemory, _)) => Err(FileFault::NoMemory),
    }
}

/// Adds a host; one that is there already stays.
fn put_host(world: &mut World, host: HostManifest) -> Result<(), FileFault>
    ensures ok { OnOk result (world.new ≡ spec.with_host world.old host) }
    ensures err { IfErr result (λ fault. fault ≡ FileFault.NoMemory) }
{
    match world.add_host(host) {
        Ok(()) => Ok(()),
        Err((AddFault::Repeated, _)) => Ok(()),
        Err((AddFault::NoMemory, _)) => Err(FileFault::NoMemory),
    }
}

/// Judges what was found in a file of the scene, and adds it to the world.
pub(crate) fn add_found(
    alloc: Global,
    scene: &Scene,
    file: SceneFile,
    found: &Found,
    world: &mut World,
) -> Result<(), FileFault>
    ensures ok { OnOk result (spec.file_added scene.now file (content found.now) world.old ≡ Ok world.new) }
    ensures err { IfErr result (λ fault. Refuses (spec.file_added scene.now file (content found.now) world.old) fault) }
{
    match file {
        SceneFile::Extension(place) => {
            let manifest = extension_in(alloc, found)?;
            put_extension(world, extension_at(scene, place), manifest)
        }
        SceneFile::Host(_) => {
            let host = host_in(alloc, name_of(scene, file), found)?;
            put_host(world, host)
        }
    }
}
