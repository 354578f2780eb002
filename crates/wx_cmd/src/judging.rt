//! What a call for a run answers before it writes: the scene is read, then its manifests in scene order, and then it is
//! run.
ghost use Rattle.std.specs.Prelude.{◌≡◌, ◌≤◌, List, ℕ, IfOk, OnErr};
ghost use Rattle.wx_outside.specs.Shelf.{content, present};
ghost use Rattle.wx_words.specs.Words as forms;
ghost use Rattle.wx_world.specs.Reading.{HasCause};
ghost use Rattle.wx_status.specs.Changes.{ShelfChange, over};
ghost use Rattle.wx_cmd.specs.View.{verdict_view};
ghost use Rattle.wx_cmd.specs.Starters.{StarterChange, IsUnusedUnlessRun};
ghost use Rattle.wx_cmd.specs.Scenes as scenes;
ghost use Rattle.wx_cmd.specs.Verdict as verdicts;
ghost use Rattle.wx_cmd.specs.Judging.{ComesTo, SceneComesTo, IsRunJudged, IsReadFault};
ghost use Rattle.wx_cmd.specs.Headline.{Judged};

use crate::endings::lines_of_end;
use crate::tell::Verdict;
use std::alloc::Global;
use wx_external::World;
use wx_host_launch::Starter;
use wx_id::{NoMemory, Utf8Text};
use wx_outside::{Found, Shelf, ShelfFault};
use wx_run::run_scene;
use wx_script::{How, Scene, SceneFault, SceneKind, SceneReadFault};
use wx_world::{WorldFault, name_at, read_world};

/// What a run of the scene in this world comes to.
fn judge_run<P: Starter>(
    alloc: Global,
    scene: &Scene,
    world: World,
    starter: &mut P,
    how: How,
) -> Result<Verdict, NoMemory>
    ensures judged { IfOk result (λ verdict. IsRunJudged how world scene.now
        (over (P.state starter.old) (P.state starter.new))
        (verdict_view verdict)) }
    ensures unused { IfOk result (λ verdict.
        IsUnusedUnlessRun (verdict_view verdict) (over (P.state starter.old) (P.state starter.new))) }
{
    let outcome = run_scene(alloc, scene, world, starter, how)?;
    let text = outcome.journal.print(alloc)?;
    match lines_of_end(alloc, scene, &outcome.journal, outcome.end) {
        Ok(lines) => Ok(Verdict::Ran(outcome.end, text, lines)),
        Err(_) => Err(NoMemory),
    }
}

/// What a scene comes to whose manifests make no world.
fn judge_fault(alloc: Global, scene: &Scene, fault: WorldFault) -> Result<Verdict, NoMemory>
    ensures { IfOk result (λ verdict. (how : How) (shelf : ShelfChange) (starter : StarterChange)
        → HasCause shelf.before.files scene.now shelf.before.faults shelf.after.faults fault
        → SceneComesTo how scene.now shelf starter (verdict_view verdict)) }
{
    match fault {
        WorldFault::Refused(refusal) => {
            let file = Utf8Text::new(alloc, name_at(scene, refusal.file))?;
            Ok(Verdict::ManifestRefused(refusal, file))
        }
        WorldFault::ReadFailed(place) => {
            let file = Utf8Text::new(alloc, name_at(scene, place))?;
            Ok(Verdict::ReadFault(file))
        }
        WorldFault::NoMemory => Err(NoMemory),
    }
}

/// What a scene comes to: its manifests are read and judged, and then it is run.
fn judge_scene<F: Shelf, P: Starter>(
    alloc: Global,
    scene: &Scene,
    shelf: &mut F,
    starter: &mut P,
    how: How,
) -> Result<Verdict, NoMemory>
    ensures judged { IfOk result (λ verdict. SceneComesTo how scene.now
        (over (F.state shelf.old) (F.state shelf.new)) (over (P.state starter.old) (P.state starter.new))
        (verdict_view verdict)) }
    ensures no_memory { OnErr result (SceneComesTo how scene.now
        (over (F.state shelf.old) (F.state shelf.new)) (over (P.state starter.old) (P.state starter.new))
        verdicts.no_memory) }
    ensures unused { IfOk result (λ verdict.
        IsUnusedUnlessRun (verdict_view verdict) (over (P.state starter.old) (P.state starter.new))) }
    ensures unchanged { (F.state shelf.new).files ≡ (F.state shelf.old).files }
{
    match read_world(alloc, scene, shelf) {
        Ok(world) => judge_run(alloc, scene, world, starter, how),
        Err(fault) => judge_fault(alloc, scene, fault),
    }
}

/// A refusal that names no line.
fn refusal(kind: SceneKind) -> SceneFault
    ensures { result ≡ scenes.refusal kind }
{
    SceneFault { line: 0, kind }
}

/// What the bytes of a scene come to.
#[tactic(auto, using(crate::proofs::JudgeLemmas::scene_judged, crate::proofs::JudgeLemmas::without_scene))]
fn judge_bytes<F: Shelf, P: Starter>(
    alloc: Global,
    bytes: &[u8],
    shelf: &mut F,
    starter: &mut P,
    how: How,
) -> Verdict
    ensures judged { ComesTo how (present bytes.now)
        (over (F.state shelf.old) (F.state shelf.new)) (over (P.state starter.old) (P.state starter.new))
        (verdict_view result) }
    ensures unused { IsUnusedUnlessRun (verdict_view result) (over (P.state starter.old) (P.state starter.new)) }
    ensures unchanged { (F.state shelf.new).files ≡ (F.state shelf.old).files }
{
    match Scene::read(alloc, bytes) {
        Ok(scene) => match judge_scene(alloc, &scene, shelf, starter, how) {
            Ok(verdict) => verdict,
            Err(NoMemory) => Verdict::NoMemory,
        },
        Err(SceneReadFault::Bad(fault)) => Verdict::Refused(fault),
        Err(SceneReadFault::NoMemory) => Verdict::NoMemory,
    }
}

/// What was found under the scene's name comes to.
fn judge_found<F: Shelf, P: Starter>(
    alloc: Global,
    found: Found,
    shelf: &mut F,
    starter: &mut P,
    how: How,
) -> Verdict
    ensures judged { ComesTo how (content found)
        (over (F.state shelf.old) (F.state shelf.new)) (over (P.state starter.old) (P.state starter.new))
        (verdict_view result) }
    ensures unused { IsUnusedUnlessRun (verdict_view result) (over (P.state starter.old) (P.state starter.new)) }
    ensures unchanged { (F.state shelf.new).files ≡ (F.state shelf.old).files }
{
    match found {
        Found::Bytes(bytes) => judge_bytes(alloc, &bytes, shelf, starter, how),
        Found::Missing => Verdict::Refused(refusal(SceneKind::Missing)),
        Found::Large => Verdict::Refused(refusal(SceneKind::Large)),
    }
}

/// A read of the file of this name that failed.
fn read_fault(alloc: Global, file: &str) -> Verdict
    ensures { IsReadFault file.now (verdict_view result) }
{
    match Utf8Text::new(alloc, file) {
        Ok(file) => Verdict::ReadFault(file),
        Err(NoMemory) => Verdict::NoMemory,
    }
}

/// What the call answers for a run before it writes.
#[tactic(auto, using(crate::proofs::JudgeLemmas::found_judged, crate::proofs::JudgeLemmas::unread_judged, crate::proofs::JudgeLemmas::without_verdict))]
pub fn judge<F: Shelf, P: Starter>(
    alloc: Global,
    scene: &str,
    shelf: &mut F,
    starter: &mut P,
    how: How,
) -> Verdict
    ensures judged { (words : List (List ℕ)) → forms.scene_named words ≡ Some scene.now → forms.how_asked words ≡ how
        → Judged words
        (over (F.state shelf.old) (F.state shelf.new)) (over (P.state starter.old) (P.state starter.new))
        (verdict_view result) }
    ensures unused { IsUnusedUnlessRun (verdict_view result) (over (P.state starter.old) (P.state starter.new)) }
    ensures unchanged { (F.state shelf.new).files ≡ (F.state shelf.old).files }
{
    match shelf.read(alloc, scene) {
        Ok(found) => judge_found(alloc, found, shelf, starter, how),
        Err(ShelfFault::Failed) => read_fault(alloc, scene),
        Err(ShelfFault::NoMemory) => Verdict::NoMemory,
    }
}
