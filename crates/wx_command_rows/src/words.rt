//! What the words of the command line are read as.

use crate::helpers::owned;
use std::test::Fail;
use wx_words::{How, PlainCommand, how_asked, plain_command, scene_named};

/// Words, and the scene of the run that they ask for.
const RUNS: [(&[&str], Option<&str>); 20] = [
    (&["run", "s"], Some("s")),
    (&["run", "--rounds", "s"], Some("s")),
    (&["run", "s", "--rounds"], Some("s")),
    (&["run", "-"], Some("-")),
    (&["run", "-", "--rounds"], Some("-")),
    (&["run", ""], Some("")),
    (&["run", "help"], Some("help")),
    (&["run", "a=b"], Some("a=b")),
    (&[], None),
    (&["run"], None),
    (&["run", "a", "b"], None),
    (&["run", "-x"], None),
    (&["run", "--"], None),
    (&["run", "--", "s"], None),
    (&["run", "--rounds"], None),
    (&["run", "--rounds", "--rounds", "s"], None),
    (&["run", "--rounds", "s", "t"], None),
    (&["run", "--rounds=true", "s"], None),
    (&["run", "--help"], None),
    (&["match", "s"], None),
];

#[test]
fn runs(rt: HostRuntime) -> Result<(), Fail> {
    for (words, scene) in RUNS.iter() {
        let words = owned(rt.alloc(), words)?;
        assert!(rt; scene_named(rt.alloc(), &words) == Ok(*scene), "{words:?}");
    }
    Ok(())
}

/// Words of runs, and how they ask for it.
const WAYS: [(&[&str], How); 4] = [
    (&["run", "s"], How::Threads),
    (&["run", "--rounds", "s"], How::Rounds),
    (&["run", "s", "--rounds"], How::Rounds),
    (&["run", "-"], How::Threads),
];

#[test]
fn ways_of_runs(rt: HostRuntime) -> Result<(), Fail> {
    for (words, how) in WAYS.iter() {
        let words = owned(rt.alloc(), words)?;
        assert!(rt; how_asked(&words) == *how, "{words:?}");
    }
    Ok(())
}

/// Words, and the command that makes no run which they ask for.
const PLAIN_COMMANDS: [(&[&str], Option<PlainCommand>); 31] = [
    (
        &["match", "a", "b"],
        Some(PlainCommand::Match {
            pattern: "a",
            url: "b",
        }),
    ),
    (
        &["match", "-", ""],
        Some(PlainCommand::Match {
            pattern: "-",
            url: "",
        }),
    ),
    (&["frames", "f"], Some(PlainCommand::Frames { file: "f" })),
    (&["frames", "-"], Some(PlainCommand::Frames { file: "-" })),
    (&["report", "f"], Some(PlainCommand::Report { file: "f" })),
    (&["report"], None),
    (&["report", "f", "--rounds"], None),
    (&[], None),
    (&[""], None),
    (&["match"], None),
    (&["match", "a"], None),
    (&["match", "a", "b", "c"], None),
    (&["match", "--rounds", "a", "b"], None),
    (&["match", "a", "-b"], None),
    (&["frames"], None),
    (&["frames", "f", "g"], None),
    (&["frames", "--version"], None),
    (&["--help"], Some(PlainCommand::Help)),
    (&["-h"], Some(PlainCommand::Help)),
    (&["help"], Some(PlainCommand::Help)),
    (&["--version"], Some(PlainCommand::Version)),
    (&["-V"], None),
    (&["version"], None),
    (&["-"], None),
    (&["--help", "match"], None),
    (&["--help", "--version"], None),
    (&["help", "run"], None),
    (&["match", "--help"], None),
    (&["report", "-h"], None),
    (
        &["frames", "help"],
        Some(PlainCommand::Frames { file: "help" }),
    ),
    (&["run", "s"], None),
];

#[test]
fn plain_commands(rt: HostRuntime) -> Result<(), Fail> {
    for (words, command) in PLAIN_COMMANDS.iter() {
        let words = owned(rt.alloc(), words)?;
        assert!(rt;
            plain_command(rt.alloc(), &words) == Ok(*command),
            "{words:?}"
        );
    }
    Ok(())
}
