//! The top call.
ghost use Rattle.std.specs.Prelude.{◌≡◌, ◌⊎◌, List, ℕ, map, string_bytes, None};
ghost use Rattle.wx_outside.specs.Causes.{Rose};
ghost use Rattle.wx_status.specs.declared.status.Status.TheVariants as status;
ghost use Rattle.wx_words.specs.Words as forms;
ghost use Rattle.wx_plain.specs.Complete.{IsPlainComplete};
ghost use Rattle.wx_world.specs.declared.faults.FileKind.{FileKind};
ghost use Rattle.wx_cmd.specs.Headline.{Headline, RunHeadline, RefusesManifest};
ghost use Rattle.wx_cmd.specs.Complete.{IsComplete, TellsManifest};
ghost use Rattle.wx_status.specs.Changes.{over};

use crate::judging::judge;
use crate::tell::tell;
use std::alloc::Global;
use wx_host_launch::Starter;
use wx_id::NoMemory;
use wx_outside::{Shelf, Sink};
use wx_plain::wx_plain;
use wx_status::{Status, tell_no_memory};
use wx_words::{How, how_asked, scene_named};
use wx_world::one_world;

/// Runs the scene of this name, and tells what came of it.
fn run_named<F: Shelf, P: Starter, O: Sink, E: Sink>(
    alloc: Global,
    scene: &str,
    how: How,
    shelf: &mut F,
    starter: &mut P,
    out: &mut O,
    err: &mut E,
) -> Status
    ensures headline { (words : List (List ℕ)) → forms.scene_named words ≡ Some scene.now → forms.how_asked words ≡ how
        → RunHeadline words
        (over (F.state shelf.old) (F.state shelf.new)) (over (P.state starter.old) (P.state starter.new))
        (over (O.state out.old) (O.state out.new)) (over (E.state err.old) (E.state err.new)) result }
    ensures unchanged { (F.state shelf.new).files ≡ (F.state shelf.old).files }
{
    let verdict = judge(alloc, scene, shelf, starter, how);
    tell(alloc, verdict, out, err)
}

/// All that the program does: it reads the scene that the words name from the shelf, and then the manifests that the
/// scene names, runs the scene in the world that they make, with the native hosts that the starter starts, and tells
/// what came of it on the two sinks; words that name no scene it hands to `wx_plain`. `words` are those of the command
/// line after the program's name.
pub fn wx<F: Shelf, P: Starter, O: Sink, E: Sink>(
    alloc: Global,
    words: &[String],
    shelf: &mut F,
    starter: &mut P,
    out: &mut O,
    err: &mut E,
) -> Status
    // The call has a verdict, which has its cause, and tells it.
    ensures headline { Headline (map string_bytes words.now)
        (over (F.state shelf.old) (F.state shelf.new)) (over (P.state starter.old) (P.state starter.new))
        (over (O.state out.old) (O.state out.new)) (over (E.state err.old) (E.state err.new)) result }
    // Where nothing is wrong, the answer is that of a run, unless memory was refused.
    ensures complete { IsComplete (map string_bytes words.now)
        (over (F.state shelf.old) (F.state shelf.new)) (over (P.state starter.old) (P.state starter.new))
        (over (O.state out.old) (O.state out.new)) (over (E.state err.old) (E.state err.new)) result }
    // Where a manifest is wrong, the answer is that the first such is refused, unless memory was refused.
    ensures complete_refused { TellsManifest (map string_bytes words.now)
        (over (F.state shelf.old) (F.state shelf.new)) (over (O.state out.old) (O.state out.new))
        (over (E.state err.old) (E.state err.new)) result }
    // And of another command the output decides.
    ensures complete_plain { forms.scene_named (map string_bytes words.now) ≡ None
        → IsPlainComplete (map string_bytes words.now)
        (over (F.state shelf.old) (F.state shelf.new)) (over (O.state out.old) (O.state out.new))
        (over (E.state err.old) (E.state err.new)) result }

    // Only a run uses the starter.
    ensures unused { forms.scene_named (map string_bytes words.now) ≡ None → P.state starter.new ≡ P.state starter.old }

    // The causes of four answers, as the headline has them.
    ensures usage { result ≡ status.Usage → forms.scene_named (map string_bytes words.now) ≡ None }
    ensures usage_plain { result ≡ status.Usage → forms.plain_command_of (map string_bytes words.now) ≡ None }
    ensures read_fault { result ≡ status.ReadFault → Rose (F.state shelf.old).faults (F.state shelf.new).faults }
    // The first refused manifest of the scene, and nothing on `out`.
    ensures manifest_refused { (file : ℕ) (kind : FileKind) → result ≡ status.ManifestRefused file kind
        → RefusesManifest (map string_bytes words.now)
        (over (F.state shelf.old) (F.state shelf.new)) (over (O.state out.old) (O.state out.new)) file kind }
    ensures write_fault { result ≡ status.WriteFault
        → Rose (O.state out.old).faults (O.state out.new).faults ⊎ Rose (E.state err.old).faults
        (E.state err.new).faults }

    ensures unchanged { (F.state shelf.new).files ≡ (F.state shelf.old).files }
{
    one_world();
    match scene_named(alloc, words) {
        Ok(Some(scene)) => run_named(alloc, scene, how_asked(words), shelf, starter, out, err),
        Ok(None) => wx_plain(alloc, words, shelf, out, err),
        Err(NoMemory) => tell_no_memory(err),
    }
}
