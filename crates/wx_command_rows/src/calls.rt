//! The values of the statuses that the two top calls answer.

use crate::helpers::{owned, shelf_of, sink};
use std::alloc::{AllocError, Global};
use std::test::Fail;
use wx_cmd::wx;
use wx_host_launch::MemoryStarter;
use wx_host_manifest::HostFault;
use wx_journal_read::{JournalFault, JournalKind};
use wx_manifest::ManifestFault;
use wx_match_pattern::{PatternFault, PatternKind};
use wx_plain::wx_plain;
use wx_script::SceneKind;
use wx_status::{InputKind, Status};
use wx_world::FileKind;

/// What `wx` answers to these words over these files, where no program can be started.
fn answer(alloc: Global, words: &[&str], files: &[(&str, &str)]) -> Result<Status, AllocError> {
    let words = owned(alloc, words)?;
    let mut shelf = shelf_of(alloc, files)?;
    let mut starter = MemoryStarter::new(alloc, &[], 0);
    let mut out = sink(alloc);
    let mut err = sink(alloc);
    Ok(wx(alloc, &words, &mut shelf, &mut starter, &mut out, &mut err))
}

/// What `wx_plain` answers to these words over a file `f` with this text.
fn plain_answer(alloc: Global, words: &[&str], text: &str) -> Result<Status, AllocError> {
    let words = owned(alloc, words)?;
    let mut shelf = shelf_of(alloc, &[("f", text)])?;
    let mut out = sink(alloc);
    let mut err = sink(alloc);
    Ok(wx_plain(alloc, &words, &mut shelf, &mut out, &mut err))
}

const NO_SCHEME: Status = Status::InputRefused(InputKind::Pattern(PatternFault {
    place: 1,
    kind: PatternKind::Scheme,
}));

const NO_PATH: Status = Status::InputRefused(InputKind::Pattern(PatternFault {
    place: 9,
    kind: PatternKind::Path,
}));

const NO_NAME: Status = Status::InputRefused(InputKind::Pattern(PatternFault {
    place: 8,
    kind: PatternKind::Host,
}));

const NO_PATTERN: Status = Status::InputRefused(InputKind::Pattern(PatternFault {
    place: 0,
    kind: PatternKind::Scheme,
}));

const NO_LINE: Status = Status::InputRefused(InputKind::Journal(JournalFault {
    place: 20,
    kind: JournalKind::Line,
}));

const NO_HEAD: Status = Status::InputRefused(InputKind::Journal(JournalFault {
    place: 0,
    kind: JournalKind::Head,
}));

/// Words, the text of the file `f`, and the status. The words of a run are no words of these commands.
const PLAIN: [(&[&str], &str, Status); 14] = [
    (&["match", "<all_urls>", "file:///x"], "", Status::Done),
    (&["match", "*://*.a.b/x*", "file:///x"], "", Status::No),
    (&["match", "ftp://a.b/", "http://a.b/"], "", NO_SCHEME),
    (&["match", "https://a", "http://a.b/"], "", NO_PATH),
    (&["match", "http://a:80/", "http://a.b/"], "", NO_NAME),
    (&["match", "-", "::"], "", NO_PATTERN),
    (
        &["match", "<all_urls>", "::"],
        "",
        Status::InputRefused(InputKind::Url),
    ),
    (
        &["frames", "g"],
        "",
        Status::InputRefused(InputKind::Missing),
    ),
    (&["frames", "f"], "\x02", Status::No),
    (
        &["report", "f"],
        "wx journal 1 chrome\nc0 take -> empty",
        NO_LINE,
    ),
    (&["report", "f"], "c0 take -> empty\n", NO_HEAD),
    (&["run", "f"], "", Status::Usage),
    (&["storm", "5"], "", Status::Usage),
    (&["--rounds", "f"], "", Status::Usage),
];

#[test]
fn plain_statuses(rt: HostRuntime) -> Result<(), Fail> {
    for (words, text, status) in PLAIN.iter() {
        let answered = plain_answer(rt.alloc(), words, text)?;
        assert_eq!(rt; answered, *status, "{words:?}");
    }
    Ok(())
}

/// An extension with a manifest, and a host.
const SCENE: &str = "wx scene 1 chrome
extension x aaaaaaaaaaaaaaaaaaaaaaaaaaaaaaaa x.json
host m/e.json
";

const EXTENSION: &str = r#"{"manifest_version":3,"name":"x","version":"1"}"#;

/// Files, and the status of a run of the scene `s`.
const RUNS: [(&[(&str, &str)], Status); 7] = [
    (&[("s", "wx scene 1 chrome\n")], Status::Done),
    (
        &[],
        Status::SceneRefused {
            line: 0,
            kind: SceneKind::Missing,
        },
    ),
    (
        &[("s", "")],
        Status::SceneRefused {
            line: 1,
            kind: SceneKind::Head,
        },
    ),
    (
        &[("s", "wx scene 1 chrome\nextension x abc\n")],
        Status::SceneRefused {
            line: 2,
            kind: SceneKind::Id,
        },
    ),
    (
        &[("s", SCENE)],
        Status::ManifestRefused {
            file: 0,
            kind: FileKind::Missing,
        },
    ),
    (
        &[("s", SCENE), ("x.json", "[]")],
        Status::ManifestRefused {
            file: 0,
            kind: FileKind::Extension(ManifestFault::NotJson),
        },
    ),
    (
        &[("s", SCENE), ("x.json", EXTENSION), ("m/e.json", "{")],
        Status::ManifestRefused {
            file: 1,
            kind: FileKind::Host(HostFault::NotJson),
        },
    ),
];

#[test]
fn run_statuses(rt: HostRuntime) -> Result<(), Fail> {
    for (files, status) in RUNS.iter() {
        let answered = answer(rt.alloc(), &["run", "--rounds", "s"], files)?;
        assert_eq!(rt; answered, *status);
    }
    Ok(())
}
