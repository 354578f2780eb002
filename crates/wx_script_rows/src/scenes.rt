//! Scenes that are read.
use crate::{crosses_threads, end, pages};
use std::alloc::Global;
use std::test::Fail;
use wx_context::Context;
use wx_id::Utf8Text;
use wx_script::{Act, Command, Scene, SceneFile, SceneReadFault, Script, file_name};

/// How a scene with these lines after its head line is read.
fn read_after_head(alloc: Global, lines: &str) -> Result<Scene, SceneReadFault> {
    let mut bytes = match Vec::from_slice(alloc, b"wx scene 1 chrome\n") {
        Ok(bytes) => bytes,
        Err(_) => return Err(SceneReadFault::NoMemory),
    };
    match bytes.extend_from_slice(lines.as_bytes()) {
        Ok(()) => Scene::read(alloc, &bytes),
        Err(_) => Err(SceneReadFault::NoMemory),
    }
}

#[test]
fn most_endpoints(rt: HostRuntime) -> Result<(), Fail> {
    match Scene::read(rt.alloc(), pages(rt.alloc(), 1024)?.as_bytes()) {
        Ok(scene) => {
            assert_eq!(rt; scene.endpoints().len(), 1024);
            end(scene);
        }
        Err(_) => assert!(rt; false),
    }
    Ok(())
}

/// How many endpoints a scene has, and how many commands the last of them.
fn sizes(read: Result<Scene, SceneReadFault>) -> Option<(u64, u64)> {
    let scene = read.ok()?;
    let commands = match scene.endpoints().last() {
        Some(endpoint) => endpoint.script.len(),
        None => 0,
    };
    let endpoints = scene.endpoints().len() as u64;
    end(scene);
    Some((endpoints, commands))
}

const PAGE: &str = "wx scene 1 chrome\nextension x aaaaaaaaaaaaaaaaaaaaaaaaaaaaaaaa\npage p x /p\n";

/// What stands above the lines, the lines, how many endpoints the scene has, and how many commands the last of them.
const READ: &[(&str, &str, u64, u64)] = &[
    ("", "wx scene 1 chrome", 0, 0),
    ("", "wx scene 1 chrome\n", 0, 0),
    ("", "wx scene 1 chrome\n\n", 0, 0),
    ("", "wx scene 1 chrome\n# a comment", 0, 0),
    ("", "wx scene 1 chrome\n#\n\n#\t\r\n", 0, 0),
    (PAGE, "", 1, 0),
    (PAGE, "  take", 1, 1),
    (PAGE, "  take\n# a comment\n\n  take\n", 1, 2),
    (
        PAGE,
        "extension y bbbbbbbbbbbbbbbbbbbbbbbbbbbbbbbb\n  take\n",
        1,
        1,
    ),
    (
        PAGE,
        "extension p bbbbbbbbbbbbbbbbbbbbbbbbbbbbbbbb\npage x p /\n",
        2,
        0,
    ),
    (PAGE, "page a2345678901234567890123456789012 x /p\n", 2, 0),
    (PAGE, "  connect ch own name same\n", 1, 1),
    (PAGE, "  connect ch own name own\n  post ch  1\n", 1, 2),
    (
        PAGE,
        "  connect ch own\n  post ch {\"a\": [1, 2]} \r\n",
        1,
        2,
    ),
    (
        PAGE,
        "  await connect ch\n  await message ch\n  await close ch\n",
        1,
        3,
    ),
    (PAGE, "  echo 1\n  echo 1000000\n", 1, 2),
    (
        PAGE,
        "  repeat 1 take\n  repeat 1000000 listen none\n",
        1,
        2,
    ),
    (PAGE, "  repeat 2 await connect ch\n  disconnect ch\n", 1, 2),
    (PAGE, "host a/e.json\n  take\nhost e\n", 1, 1),
    (PAGE, "content c x 7 0 https://a.b/f\n  take\n", 2, 1),
    (PAGE, "web w 0 4294967295 http://a\n  take\n", 2, 1),
    (PAGE, "  listen none\n  listen external-message\n", 1, 2),
    (
        PAGE,
        "  listen connect message external-connect external-message\n",
        1,
        1,
    ),
    (
        PAGE,
        "  connect a ext x\n  connect a tab 7 name n\n  connect a tab 7 frame 0\n",
        1,
        3,
    ),
    (
        PAGE,
        "  send r own 1\n  await reply r\n  send r tab 7 frame 1 2\n",
        1,
        3,
    ),
    (
        PAGE,
        "  await request r\n  reply r  1\n  reply same r\n  decline r\n",
        1,
        4,
    ),
    (
        PAGE,
        "  native n com.example.echo\n  post n 1\n  await message n\n  disconnect n\n  await close n\n",
        1,
        5,
    ),
    (
        PAGE,
        "  ask r e 1\n  await reply r\n  repeat 2 ask r !~  [1] \r\n",
        1,
        3,
    ),
    (PAGE, "  native native ask\n  ask ask native 1\n", 1, 2),
    (
        PAGE,
        "  native n same\n  native n E..\n  native n 07\n",
        1,
        3,
    ),
];

#[test]
fn scenes_that_are_read(rt: HostRuntime) -> Result<(), Fail> {
    for &(above, below, endpoints, commands) in READ {
        let text = format!(in rt.alloc(); "{above}{below}")?;
        let read = Scene::read(rt.alloc(), text.as_bytes());
        assert_eq!(rt; sizes(read), Some((endpoints, commands)), "{below}");
    }
    Ok(())
}

fn is_page(context: &Context, wanted: &str) -> bool {
    match context {
        Context::Page { ext, path } => {
            ext.text() == "aaaaaaaaaaaaaaaaaaaaaaaaaaaaaaaa" && path.text() == wanted
        }
        _ => false,
    }
}

#[test]
fn two_pages(rt: HostRuntime) {
    let lines =
        "extension x aaaaaaaaaaaaaaaaaaaaaaaaaaaaaaaa\npage q x /q\n  connect ch own\n  post ch 10\n  disconnect ch\npage p x /p\n  listen connect\n  listen none\n  take\n";
    let Ok(scene) = read_after_head(rt.alloc(), lines) else {
        assert!(rt; false);
        return;
    };
    match (scene.extensions(), scene.endpoints()) {
        ([x], [q, p]) => {
            assert_eq!(rt; x.name.as_str(), "x");
            assert_eq!(rt; q.name.as_str(), "q");
            assert!(rt; is_page(&q.context, "/q") && is_page(&p.context, "/p"));
            match q.script.commands() {
                [
                    Command::Plain(Act::Connect(a, _, name)),
                    Command::Plain(Act::Post(b, number)),
                    Command::Plain(Act::Disconnect(c)),
                ] => {
                    assert!(rt; a.0 == 0 && b.0 == 0 && c.0 == 0);
                    assert!(rt; name.as_str() == "" && number.bytes() == b"10".as_slice());
                }
                _ => assert!(rt; false),
            }
            match p.script.commands() {
                [
                    Command::Plain(Act::Listen(first)),
                    Command::Plain(Act::Listen(second)),
                    Command::Plain(Act::Take),
                ] => {
                    assert!(rt; first.connect && !first.message && !second.connect);
                }
                _ => assert!(rt; false),
            }
        }
        _ => assert!(rt; false),
    }
    end(scene);
}

#[test]
fn awaits_echo_and_repeat(rt: HostRuntime) {
    let lines =
        "extension x aaaaaaaaaaaaaaaaaaaaaaaaaaaaaaaa\npage p x /p\n  await connect a\n  await message a\n  repeat 3 connect b own name n\n# a comment\n\n  await close b\n  echo 20";
    let Ok(scene) = read_after_head(rt.alloc(), lines) else {
        assert!(rt; false);
        return;
    };
    match scene.endpoints() {
        [p] => match p.script.commands() {
            [
                Command::Plain(Act::AwaitConnect(a)),
                Command::Plain(Act::AwaitMessage(b)),
                Command::Repeat(times, Act::Connect(c, _, name)),
                Command::Plain(Act::AwaitClose(d)),
                Command::Plain(Act::Echo(answers)),
            ] => {
                assert!(rt; a.0 == 0 && b.0 == 0 && c.0 == 1 && d.0 == 1);
                assert!(rt; *times == 3 && *answers == 20 && name.as_str() == "n");
            }
            _ => assert!(rt; false),
        },
        _ => assert!(rt; false),
    }
    end(scene);
}

/// Files and their lines, the pages' kin, and variables of each sort.
#[test]
fn files_documents_and_sorts_of_variables(rt: HostRuntime) {
    let lines =
        "host a/e.json\nextension x aaaaaaaaaaaaaaaaaaaaaaaaaaaaaaaa x.json\nextension y bbbbbbbbbbbbbbbbbbbbbbbbbbbbbbbb\nhost b/\nweb w 7 0 HTTPS://A.b\n  connect v ext x\n  send v own 1\n  await request v\n";
    let Ok(scene) = read_after_head(rt.alloc(), lines) else {
        assert!(rt; false);
        return;
    };
    let files = [
        SceneFile::Host(0),
        SceneFile::Extension(0),
        SceneFile::Host(1),
    ];
    assert!(rt; scene.files() == files.as_slice());
    match (scene.extensions(), scene.hosts(), scene.endpoints()) {
        ([x, y], [e, b], [w]) => {
            assert!(rt; is_text(&x.file, "x.json") && y.file.is_none());
            assert_eq!(rt;
                (file_name(e.as_str()), file_name(b.as_str())),
                ("e.json", "")
            );
            match &w.context {
                Context::Web { url, .. } => assert_eq!(rt; url.url().as_str(), "https://a.b/"),
                _ => assert!(rt; false),
            }
            match w.script.commands() {
                [
                    Command::Plain(Act::Connect(v, _, _)),
                    Command::Plain(Act::Send(r, _, _)),
                    Command::Plain(Act::AwaitRequest(s)),
                ] => assert!(rt; v.0 == 0 && r.0 == 0 && s.0 == 0),
                _ => assert!(rt; false),
            }
        }
        _ => assert!(rt; false),
    }
    end(scene);
}

/// A host that is started on a channel, and one that is asked; the names are any words.
#[test]
fn natives(rt: HostRuntime) {
    let lines =
        "extension x aaaaaaaaaaaaaaaaaaaaaaaaaaaaaaaa\npage p x /p\n  connect b own\n  native v com.example.echo\n  repeat 3 ask v E..  [1] \n  post v 1\n  await reply v";
    let Ok(scene) = read_after_head(rt.alloc(), lines) else {
        assert!(rt; false);
        return;
    };
    match scene.endpoints() {
        [p] => match p.script.commands() {
            [
                Command::Plain(Act::Connect(b, _, _)),
                Command::Plain(Act::Native(v, echo)),
                Command::Repeat(times, Act::Ask(r, name, text)),
                Command::Plain(Act::Post(k, _)),
                Command::Plain(Act::AwaitReply(s)),
            ] => {
                assert!(rt; b.0 == 0 && v.0 == 1 && r.0 == 0 && k.0 == 1 && s.0 == 0);
                assert!(rt; echo.as_str() == "com.example.echo" && name.as_str() == "E..");
                assert!(rt; *times == 3 && text.bytes() == b" [1] ".as_slice());
            }
            _ => assert!(rt; false),
        },
        _ => assert!(rt; false),
    }
    end(scene);
}

fn is_text(text: &Option<Utf8Text>, wanted: &str) -> bool {
    match text {
        Some(text) => text.as_str() == wanted,
        None => false,
    }
}

#[test]
fn types_cross_threads(_rt: HostRuntime) {
    crosses_threads::<Scene>();
    crosses_threads::<Script>();
}
