//! The simple commands of `clap` that count and read words.
ghost use Rattle.std.specs.Prelude.{◌≡◌, ◌↔◌, IfOk, IsTrue, false, map, string_bytes};
ghost use Rattle.clap.specs.Words.{FailsBy, app_of, fault_of, found_of, kind_of, matches_of, rows_of, rule_of};
ghost use Rattle.wx_words.specs.Readers as readers;

use clap::error::ErrorKind;
use clap::{Arg, ArgAction, ArgMatches, Command, Error};
use std::alloc::Global;

/// Whether a parse failed for want of memory; else it refuses the words.
pub(crate) fn is_out_of_memory(error: &Error) -> bool
    ensures { IsTrue result ↔ (kind_of error.now ≡ ErrorKind.OutOfMemory) }
{
    matches!(error.kind(), ErrorKind::OutOfMemory)
}

/// An operand that has to be there.
fn wanted<'a>(alloc: Global, id: &'a str) -> Arg<'a>
    ensures rule { rule_of result ≡ readers.wanted id.entry.now }
    ensures own { result.global ≡ false }
{
    Arg::new(alloc, id).required(true)
}

/// A command of this name with neither help nor a version.
fn bare<'a>(alloc: Global, name: &'a str) -> Command<'a>
    ensures { app_of result ≡ readers.bare name.entry.now }
{
    Command::new(alloc, name)
        .disable_help_flag(true)
        .disable_version_flag(true)
}

/// What clap reads of the words of `match`.
pub(crate) fn read_match<'a>(alloc: Global, words: &'a [String]) -> Result<ArgMatches<'a>, Error>
    ensures matches { IfOk result (λ m. rows_of (found_of m)
        ≡ matches_of readers.match_reader (map string_bytes words.entry.now)) }
    ensures kinds { FailsBy (fault_of readers.match_reader (map string_bytes words.entry.now)) result }
{
    let command = bare(alloc, "match")
        .arg(wanted(alloc, "pattern"))?
        .arg(wanted(alloc, "url"))?;
    command.try_get_matches_from(words)
}

/// What clap reads of the words of the command of this name, which has a file.
pub(crate) fn read_file<'a>(
    alloc: Global,
    name: &'a str,
    words: &'a [String],
) -> Result<ArgMatches<'a>, Error>
    ensures matches { IfOk result (λ m. rows_of (found_of m)
        ≡ matches_of (readers.file_reader name.entry.now) (map string_bytes words.entry.now)) }
    ensures kinds { FailsBy (fault_of (readers.file_reader name.entry.now) (map string_bytes words.entry.now)) result }
{
    let command = bare(alloc, name).arg(wanted(alloc, "file"))?;
    command.try_get_matches_from(words)
}

/// What clap reads of the words of `run`.
pub(crate) fn read_run<'a>(alloc: Global, words: &'a [String]) -> Result<ArgMatches<'a>, Error>
    ensures matches { IfOk result (λ m. rows_of (found_of m)
        ≡ matches_of readers.run_reader (map string_bytes words.entry.now)) }
    ensures kinds { FailsBy (fault_of readers.run_reader (map string_bytes words.entry.now)) result }
{
    let rounds = Arg::new(alloc, "rounds")
        .long("rounds")
        .action(ArgAction::SetTrue);
    let command = bare(alloc, "run").arg(rounds)?.arg(wanted(alloc, "scene"))?;
    command.try_get_matches_from(words)
}
