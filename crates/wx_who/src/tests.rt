//! Tables of worked scenes.
use crate::table::who;
use std::alloc::Global;
use std::test::Fail;
use wx_external::World;
use wx_host_manifest::HostManifest;
use wx_id::ExtensionId;
use wx_manifest::Extension;
use wx_script::Scene;

/// Two extensions without manifests, a page of each, and a web page.
const FROM_OUTSIDE: &str = "wx scene 1 chrome
extension x aaaaaaaaaaaaaaaaaaaaaaaaaaaaaaaa
extension y bbbbbbbbbbbbbbbbbbbbbbbbbbbbbbbb
page p x /p
  listen external-connect
  await connect ch
page q y /q
  connect ch ext x
web w 7 0 https://a.b/
  connect ch ext x
  connect ch own
";

const FROM_OUTSIDE_TABLE: &str = "p own open internal to -
p ext x open internal to -
p ext y open external to q
p tab 7 open internal to -
q own open internal to -
q ext x open external to p
q ext y open internal to -
q tab 7 open internal to -
w own bad_target
w ext x forbidden url
w ext y forbidden url
w tab 7 bad_target
";

/// A page that calls a native host.
const NATIVE: &str = "wx scene 1 chrome
extension x aaaaaaaaaaaaaaaaaaaaaaaaaaaaaaaa x.json
host e.json
page p x /p
  native n e
  await close n
";

const NATIVE_TABLE: &str = "p own open internal to -
p ext x open internal to -
p host e open
";

/// Three tabs out of order, one of them twice; content scripts and pages of one extension, and a page of another that
/// admits nobody but one web page.
const TABS: &str = "wx scene 1 chrome
extension x aaaaaaaaaaaaaaaaaaaaaaaaaaaaaaaa
extension y bbbbbbbbbbbbbbbbbbbbbbbbbbbbbbbb y.json
host e.json
web w 12 0 https://a.b/
content m x 7 0 https://c.d/
page p x /p
content f x 7 3 https://c.d/f
page q x /q
page r y /r
content g y 4 0 https://c.d/
";

const TABS_TABLE: &str = "w own bad_target
w ext x forbidden url
w ext y open external to r
w tab 4 bad_target
w tab 7 bad_target
w tab 12 bad_target
w host e bad_target
m own open internal to p q
m ext x open internal to p q
m ext y bad_target
m tab 4 bad_target
m tab 7 bad_target
m tab 12 bad_target
m host e bad_target
p own open internal to q
p ext x open internal to q
p ext y forbidden id
p tab 4 open internal to -
p tab 7 open internal to m f
p tab 12 open internal to -
p host e no_permission
f own open internal to p q
f ext x open internal to p q
f ext y bad_target
f tab 4 bad_target
f tab 7 bad_target
f tab 12 bad_target
f host e bad_target
q own open internal to p
q ext x open internal to p
q ext y forbidden id
q tab 4 open internal to -
q tab 7 open internal to m f
q tab 12 open internal to -
q host e no_permission
r own open internal to -
r ext x open external to p q
r ext y open internal to -
r tab 4 open internal to g
r tab 7 open internal to -
r tab 12 open internal to -
r host e host_forbidden
g own open internal to r
g ext x bad_target
g ext y open internal to r
g tab 4 bad_target
g tab 7 bad_target
g tab 12 bad_target
g host e bad_target
";

const X_MANIFEST: &[u8] =
    br#"{"manifest_version":3,"name":"x","version":"1","permissions":["nativeMessaging"]}"#;

const Y_MANIFEST: &[u8] =
    br#"{"manifest_version":3,"name":"y","version":"1","permissions":["nativeMessaging"],"externally_connectable":{"matches":["https://a.b/*"]}}"#;

const HOST: &[u8] =
    br#"{"name":"e","description":"d","path":"/bin/echo","type":"stdio","allowed_origins":["chrome-extension://aaaaaaaaaaaaaaaaaaaaaaaaaaaaaaaa/"]}"#;

/// A scene, the id of the extension with a manifest and that manifest, if there is one, and the table.
const TABLES: [(&str, Option<(&[u8], &[u8])>, &str); 3] = [
    (FROM_OUTSIDE, None, FROM_OUTSIDE_TABLE),
    (
        NATIVE,
        Some((b"aaaaaaaaaaaaaaaaaaaaaaaaaaaaaaaa", X_MANIFEST)),
        NATIVE_TABLE,
    ),
    (
        TABS,
        Some((b"bbbbbbbbbbbbbbbbbbbbbbbbbbbbbbbb", Y_MANIFEST)),
        TABS_TABLE,
    ),
];

/// A world of one extension with that manifest, and the host `e`; or one that holds nothing.
fn world_of(alloc: Global, given: Option<(&[u8], &[u8])>) -> Result<World, Fail> {
    let mut world = World::new(alloc);
    if let Some((id, manifest)) = given {
        world.add_extension(ExtensionId::read(id)?, Extension::read(alloc, manifest)?)?;
        world.add_host(HostManifest::read(alloc, "e.json", HOST)?)?;
    }
    Ok(world)
}

#[test]
fn worked_tables(rt: HostRuntime) -> Result<(), Fail> {
    let alloc = rt.alloc();
    for (scene, given, expected) in TABLES.iter() {
        let scene = Scene::read(alloc, scene.as_bytes())?;
        let world = world_of(alloc, *given)?;
        let table = who(alloc, &scene, &world)?;
        assert_eq!(rt; str::from_utf8(&table), Ok(*expected));
    }
    Ok(())
}
