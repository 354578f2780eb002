//! The numbers and the lines of statuses, and how a text is told.

use crate::helpers::sink;
use std::alloc::{AllocError, Global};
use std::test::Fail;
use wx_host_manifest::{HostFault, HostKey};
use wx_id::HostNo;
use wx_journal_read::{JournalFault, JournalKind};
use wx_manifest::{Key, ManifestFault};
use wx_match_pattern::{PatternFault, PatternKind};
use wx_outside::MemorySink;
use wx_script::{SceneFault, SceneKind, SpentWho};
use wx_status::{
    InputKind, Status, input_line, manifest_line, read_fault_line, refusal_line, tell_text,
};
use wx_world::FileKind;

const NO_HOST: PatternFault = PatternFault {
    place: 8,
    kind: PatternKind::Host,
};

const PATTERN: InputKind = InputKind::Pattern(NO_HOST);

const JOURNAL: InputKind = InputKind::Journal(JournalFault {
    place: 20,
    kind: JournalKind::Line,
});

const NUMBERS: [(Status, u8); 12] = [
    (Status::Done, 0),
    (Status::Stalled, 1),
    (Status::No, 1),
    (Status::Usage, 2),
    (Status::ReadFault, 3),
    (
        Status::SceneRefused {
            line: 0,
            kind: SceneKind::Form,
        },
        4,
    ),
    (Status::InputRefused(PATTERN), 4),
    (
        Status::ManifestRefused {
            file: 1,
            kind: FileKind::Missing,
        },
        5,
    ),
    (Status::WriteFault, 6),
    (Status::NoMemory, 7),
    (Status::Spent(SpentWho::Endpoint(3)), 8),
    (Status::Spent(SpentWho::Host(HostNo(2))), 8),
];

#[test]
fn numbers(rt: HostRuntime) {
    for (status, number) in NUMBERS.iter() {
        assert_eq!(rt; status.number(), *number);
    }
}

const INPUT_LINES: [(InputKind, &str); 5] = [
    (InputKind::Missing, "wx: input refused: missing\n"),
    (InputKind::Large, "wx: input refused: large\n"),
    (PATTERN, "wx: input refused: pattern 8 host\n"),
    (InputKind::Url, "wx: input refused: url\n"),
    (JOURNAL, "wx: input refused: journal 20 line\n"),
];

#[test]
fn lines(rt: HostRuntime) -> Result<(), Fail> {
    let alloc = rt.alloc();
    let read_fault = read_fault_line(alloc, "a b")?;
    assert_eq!(rt; read_fault.as_str(), "wx: read fault: a b\n");
    let fault = SceneFault {
        line: 17,
        kind: SceneKind::Unbound,
    };
    let refusal = refusal_line(alloc, fault)?;
    assert_eq!(rt; refusal.as_str(), "wx: scene refused: line 17: unbound\n");
    for (kind, expected) in INPUT_LINES.iter() {
        let line = input_line(alloc, *kind)?;
        assert_eq!(rt; line.as_str(), *expected);
    }
    Ok(())
}

/// Every kind of a refused file, each key of a manifest once, and how it is told.
const FILE_KINDS: [(FileKind, &str); 24] = [
    (FileKind::Missing, "missing"),
    (FileKind::Large, "large"),
    (FileKind::Extension(ManifestFault::NotJson), "not_json"),
    (
        FileKind::Extension(ManifestFault::Missing(Key::ManifestVersion)),
        "missing_key manifest_version",
    ),
    (
        FileKind::Extension(ManifestFault::Missing(Key::Name)),
        "missing_key name",
    ),
    (
        FileKind::Extension(ManifestFault::WrongKind(Key::Version)),
        "wrong_kind version",
    ),
    (
        FileKind::Extension(ManifestFault::WrongKind(Key::Permissions)),
        "wrong_kind permissions",
    ),
    (
        FileKind::Extension(ManifestFault::WrongKind(Key::External)),
        "wrong_kind externally_connectable",
    ),
    (
        FileKind::Extension(ManifestFault::WrongKind(Key::Ids)),
        "wrong_kind externally_connectable.ids",
    ),
    (
        FileKind::Extension(ManifestFault::WrongKind(Key::Matches)),
        "wrong_kind externally_connectable.matches",
    ),
    (FileKind::Extension(ManifestFault::BadId(3)), "bad_id 3"),
    (
        FileKind::Extension(ManifestFault::BadPattern(2, NO_HOST)),
        "bad_pattern 2 8 host",
    ),
    (
        FileKind::Extension(ManifestFault::TooBroad(1)),
        "too_broad 1",
    ),
    (FileKind::Host(HostFault::NotJson), "not_json"),
    (
        FileKind::Host(HostFault::Missing(HostKey::Name)),
        "missing_key name",
    ),
    (
        FileKind::Host(HostFault::Missing(HostKey::Description)),
        "missing_key description",
    ),
    (
        FileKind::Host(HostFault::WrongKind(HostKey::Path)),
        "wrong_kind path",
    ),
    (
        FileKind::Host(HostFault::WrongKind(HostKey::Kind)),
        "wrong_kind type",
    ),
    (
        FileKind::Host(HostFault::Missing(HostKey::Origins)),
        "missing_key allowed_origins",
    ),
    (
        FileKind::Host(HostFault::BadName { place: 4 }),
        "bad_name 4",
    ),
    (FileKind::Host(HostFault::NameDiffers), "name_differs"),
    (FileKind::Host(HostFault::NotAbsolute), "not_absolute"),
    (FileKind::Host(HostFault::NotStdio), "not_stdio"),
    (FileKind::Host(HostFault::BadOrigin(5)), "bad_origin 5"),
];

#[test]
fn manifest_lines(rt: HostRuntime) -> Result<(), Fail> {
    let alloc = rt.alloc();
    for (kind, told) in FILE_KINDS.iter() {
        let line = manifest_line(alloc, "a/x.json", *kind)?;
        let expected = format!(in alloc; "wx: manifest refused: a/x.json: {told}\n")?;
        assert_eq!(rt; line.as_str(), expected.as_str());
    }
    Ok(())
}

/// A sink whose first write fails.
fn failing(alloc: Global) -> Result<MemorySink, AllocError> {
    let mut failing = sink(alloc);
    failing.fails_at.push(0)?;
    Ok(failing)
}

/// A text that is to be told with the answer no, the answer over two sinks that fail, and how often each was written
/// to.
const TOLD: [(&str, Status, u64); 2] = [("", Status::No, 0), ("no\n", Status::WriteFault, 1)];

/// Where there is nothing to write, a sink that fails does no harm.
#[test]
fn empty_text(rt: HostRuntime) -> Result<(), Fail> {
    let alloc = rt.alloc();
    for (text, status, writes) in TOLD.iter() {
        let mut out = failing(alloc)?;
        let mut err = failing(alloc)?;
        let answer = tell_text(Status::No, text.as_bytes(), &mut out, &mut err);
        assert_eq!(rt; answer, *status);
        assert_eq!(rt; out.writes, *writes);
        assert_eq!(rt; err.writes, *writes);
    }
    Ok(())
}
