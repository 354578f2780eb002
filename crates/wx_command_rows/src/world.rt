//! The world that a scene's manifests make, and its first fault.

use crate::helpers::shelf_of;
use std::test::Fail;
use wx_id::ExtensionId;
use wx_run::Outcome;
use wx_script::Scene;
use wx_world::{FileKind, FileRefusal, WorldFault, name_at, read_world};

/// Two extensions, of which the second has a manifest, and a host.
const SCENE: &[u8] = b"wx scene 1 chrome
extension w bbbbbbbbbbbbbbbbbbbbbbbbbbbbbbbb
extension x aaaaaaaaaaaaaaaaaaaaaaaaaaaaaaaa x.json
host m/e.json
";

const EXTENSION: &str =
    r#"{"manifest_version":3,"name":"x","version":"1","permissions":["nativeMessaging"]}"#;

const HOST: &str =
    r#"{"name":"e","description":"d","path":"/bin/echo","type":"stdio","allowed_origins":[]}"#;

#[test]
fn world_of_two_files(rt: HostRuntime) -> Result<(), Fail> {
    let alloc = rt.alloc();
    let scene = Scene::read(alloc, SCENE)?;
    let mut shelf = shelf_of(alloc, &[("m/e.json", HOST), ("x.json", EXTENSION)])?;
    let world = read_world(alloc, &scene, &mut shelf)?;
    let with = ExtensionId::read(b"aaaaaaaaaaaaaaaaaaaaaaaaaaaaaaaa")?;
    let without = ExtensionId::read(b"bbbbbbbbbbbbbbbbbbbbbbbbbbbbbbbb")?;
    assert!(rt; matches!(world.extension(&with), Some(manifest) if manifest.native()));
    assert!(rt; world.extension(&without).is_none());
    assert_eq!(rt; world.host_place("e"), Some(0));
    assert_eq!(rt; shelf.reads, 2);
    Ok(())
}

const FIRST_MISSING: WorldFault = WorldFault::Refused(FileRefusal {
    file: 0,
    kind: FileKind::Missing,
});

const SECOND_MISSING: WorldFault = WorldFault::Refused(FileRefusal {
    file: 1,
    kind: FileKind::Missing,
});

/// The files, the read that fails; the fault, and how many reads were made.
const FAULTS: [(&[(&str, &str)], Option<u64>, WorldFault, u64); 4] = [
    (&[], None, FIRST_MISSING, 1),
    (&[], Some(0), WorldFault::ReadFailed(0), 1),
    (&[("x.json", EXTENSION)], None, SECOND_MISSING, 2),
    (
        &[("x.json", EXTENSION), ("m/e.json", HOST)],
        Some(1),
        WorldFault::ReadFailed(1),
        2,
    ),
];

/// The first refusal or failed read ends it, and names its file by its place.
#[test]
fn first_fault(rt: HostRuntime) -> Result<(), Fail> {
    let alloc = rt.alloc();
    let scene = Scene::read(alloc, SCENE)?;
    assert_eq!(rt; name_at(&scene, 0), "x.json");
    assert_eq!(rt; name_at(&scene, 1), "m/e.json");
    for (files, fails, fault, reads) in FAULTS.iter() {
        let mut shelf = shelf_of(alloc, files)?;
        if let Some(read) = fails {
            shelf.fails_at.push(*read)?;
        }
        match read_world(alloc, &scene, &mut shelf) {
            Ok(_) => assert!(rt; false),
            Err(found) => assert_eq!(rt; found, *fault),
        }
        assert_eq!(rt; shelf.reads, *reads);
    }
    Ok(())
}

fn crosses_threads<T: Send + Sync>() {}

/// What a run leaves can be handed to another thread.
#[test]
fn types_cross_threads(_rt: HostRuntime) {
    crosses_threads::<Outcome>();
}
