//! The words of a run.
ghost use Rattle.std.specs.Prelude.{◌≡◌, ◌||◌, IfOk, map, drop, string_bytes, true};
ghost use Rattle.std.specs.List.{list_all};
ghost use Rattle.std.specs.Option.{option_map};
ghost use Rattle.wx_words.specs.Words as forms;

use crate::operands::{are_of_run, has_rounds, is_named};
use crate::readers::{is_out_of_memory, read_run};
use std::alloc::Global;
use wx_id::NoMemory;
use wx_script::How;

/// The scene of words that begin with `run` and have operands and the flag `--rounds` after it.
fn run_scene_of<'a>(alloc: Global, words: &'a [String]) -> Result<Option<&'a str>, NoMemory>
    requires { list_all (λ word. forms.is_operand word || forms.is_rounds word) (drop 1 (map string_bytes words.now))
        ≡ true }
    ensures { IfOk result (λ scene. option_map (λ name. name.now) scene
        ≡ forms.scene_in (drop 1 (map string_bytes words.entry.now))) }
{
    match read_run(alloc, words) {
        Ok(found) => Ok(found.get_str("scene")),
        Err(e) => {
            if is_out_of_memory(&e) {
                Err(NoMemory)
            } else {
                Ok(None)
            }
        }
    }
}

/// How the words of a run ask for it: in rounds where the flag `--rounds` is among them, else with threads.
pub fn how_asked(words: &[String]) -> How
    ensures { result ≡ forms.how_asked (map string_bytes words.now) }
{
    if has_rounds(words) {
        How::Rounds
    } else {
        How::Threads
    }
}

/// The scene of the words of a run; other words name none. A word after the first that begins with `-` and is neither
/// `-` alone nor `--rounds` is refused here, and the others are counted and read by `clap`.
pub fn scene_named<'a>(alloc: Global, words: &'a [String]) -> Result<Option<&'a str>, NoMemory>
    ensures { IfOk result (λ scene. option_map (λ name. name.now) scene
        ≡ forms.scene_named (map string_bytes words.entry.now)) }
{
    if is_named("run", words) && are_of_run(words) {
        run_scene_of(alloc, words)
    } else {
        Ok(None)
    }
}
