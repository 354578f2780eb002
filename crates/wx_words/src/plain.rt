//! The words of the commands that make no run.
ghost use Rattle.std.specs.Prelude.{◌≡◌, IfOk, map, drop, string_bytes, true};
ghost use Rattle.std.specs.List.{list_all};
ghost use Rattle.std.specs.Option.{option_map};
ghost use Rattle.clap.specs.Words.{first_value, found_of};
ghost use Rattle.wx_words.specs.Readers as readers;
ghost use Rattle.wx_words.specs.Words as forms;
ghost use Rattle.wx_words.specs.View.{command_view};

use crate::operands::{are_operands, is_named};
use crate::readers::{is_out_of_memory, read_file, read_match};
use clap::ArgMatches;
use std::alloc::Global;
use wx_id::NoMemory;

/// A command that makes no run, with its words.
#[derive(Clone, Copy, Debug, PartialEq, Eq)]
pub enum PlainCommand<'a> {
    /// `match PATTERN URL`.
    Match { pattern: &'a str, url: &'a str },
    /// `frames FILE`.
    Frames { file: &'a str },
    /// `report FILE`.
    Report { file: &'a str },
    /// `--help`, `-h` or `help`, alone.
    Help,
    /// `--version`, alone.
    Version,
}

/// The command that the values of `match` make, where both are there.
fn of_match<'a>(found: &ArgMatches<'a>) -> Option<PlainCommand<'a>>
    ensures { option_map command_view result
        ≡ readers.both (first_value (found_of found.now) readers.pattern_id)
        (first_value (found_of found.now) readers.url_id) }
{
    match (found.get_str("pattern"), found.get_str("url")) {
        (Some(pattern), Some(url)) => Some(PlainCommand::Match { pattern, url }),
        _ => None,
    }
}

/// The command of words that begin with `match` and have operands after it.
fn match_command<'a>(
    alloc: Global,
    words: &'a [String],
) -> Result<Option<PlainCommand<'a>>, NoMemory>
    requires { list_all forms.is_operand (drop 1 (map string_bytes words.now)) ≡ true }
    ensures { IfOk result (λ command. option_map command_view command
        ≡ forms.match_in (drop 1 (map string_bytes words.entry.now))) }
{
    match read_match(alloc, words) {
        Ok(found) => Ok(of_match(&found)),
        Err(e) => {
            if is_out_of_memory(&e) {
                Err(NoMemory)
            } else {
                Ok(None)
            }
        }
    }
}

/// The file of words that begin with this name and have operands after it.
fn file_behind<'a>(
    alloc: Global,
    name: &'a str,
    words: &'a [String],
) -> Result<Option<&'a str>, NoMemory>
    requires { list_all forms.is_operand (drop 1 (map string_bytes words.now)) ≡ true }
    ensures { IfOk result (λ file. option_map (λ f. f.now) file
        ≡ forms.file_in (drop 1 (map string_bytes words.entry.now))) }
{
    match read_file(alloc, name, words) {
        Ok(found) => Ok(found.get_str("file")),
        Err(e) => {
            if is_out_of_memory(&e) {
                Err(NoMemory)
            } else {
                Ok(None)
            }
        }
    }
}

/// Whether the word asks for the commands.
fn is_help(word: &str) -> bool
    ensures { result ≡ forms.is_help word.now }
{
    word == "--help" || word == "-h" || word == "help"
}

/// What one word alone asks about the program.
fn about_command<'a>(words: &'a [String]) -> Option<PlainCommand<'a>>
    ensures { option_map command_view result ≡ forms.about_in (map string_bytes words.entry.now) }
{
    match words {
        [word] if is_help(word.as_str()) => Some(PlainCommand::Help),
        [word] if word.as_str() == "--version" => Some(PlainCommand::Version),
        _ => None,
    }
}

/// The command that makes no run which the words ask for; other words ask for none. A word after the first that begins
/// with `-` and is not `-` alone is refused here, and the others are counted and read by `clap`.
pub fn plain_command<'a>(
    alloc: Global,
    words: &'a [String],
) -> Result<Option<PlainCommand<'a>>, NoMemory>
    ensures { IfOk result (λ command. option_map command_view command
        ≡ forms.plain_command_of (map string_bytes words.entry.now)) }
{
    if !are_operands(words) {
        return Ok(None);
    }
    if is_named("match", words) {
        match_command(alloc, words)
    } else if is_named("frames", words) {
        let file = file_behind(alloc, "frames", words)?;
        Ok(file.map(|file| PlainCommand::Frames { file }))
    } else if is_named("report", words) {
        let file = file_behind(alloc, "report", words)?;
        Ok(file.map(|file| PlainCommand::Report { file }))
    } else {
        Ok(about_command(words))
    }
}
