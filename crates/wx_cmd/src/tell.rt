//! How a verdict on a run is told.
ghost use Rattle.std.specs.Prelude.{◌≡◌, ◌⊎◌};
ghost use Rattle.wx_status.specs.declared.status.Status.TheVariants as status;
ghost use Rattle.wx_cmd.specs.Told.{Told};
ghost use Rattle.wx_cmd.specs.Verdict.{no_memory};
ghost use Rattle.wx_cmd.specs.View.{verdict_view};
ghost use Rattle.wx_status.specs.Changes.{over};

use crate::endings::answer_by;
use std::alloc::Global;
use wx_id::Utf8Text;
use wx_outside::Sink;
use wx_run::RunEnd;
use wx_script::SceneFault;
use wx_status::{
    Status, manifest_line, read_fault_line, refusal_line, tell_line, tell_no_memory, tell_run,
};
use wx_world::FileRefusal;

/// What a call for a run answers before it writes.
#[derive(Drop)]
pub enum Verdict {
    /// The file of this name could not be read.
    ReadFault(Utf8Text),
    /// The scene is refused.
    Refused(SceneFault),
    /// A manifest of the scene is refused, and this is the name of its file.
    ManifestRefused(FileRefusal, Utf8Text),
    /// Memory was refused.
    NoMemory,
    /// The scene was run to this end, and these are the text of its journal and the lines that tell of the end.
    Ran(RunEnd, Vec<u8>, Vec<u8>),
}

/// The status of a scene that is refused for this.
fn status_of(fault: SceneFault) -> Status
    ensures { result ≡ status.SceneRefused fault.line fault.kind }
{
    Status::SceneRefused {
        line: fault.line,
        kind: fault.kind,
    }
}

/// The status of a manifest that is refused so.
fn status_of_manifest(refusal: FileRefusal) -> Status
    ensures { result ≡ status.ManifestRefused refusal.file refusal.kind }
{
    Status::ManifestRefused {
        file: refusal.file,
        kind: refusal.kind,
    }
}

/// Tells a verdict. Where there is no memory for its line, that is told in its place.
pub fn tell<O: Sink, E: Sink>(alloc: Global, verdict: Verdict, out: &mut O, err: &mut E) -> Status
    ensures { Told (verdict_view verdict)
        (over (O.state out.old) (O.state out.new)) (over (E.state err.old) (E.state err.new)) result
        ⊎ Told no_memory
        (over (O.state out.old) (O.state out.new)) (over (E.state err.old) (E.state err.new)) result }
{
    match verdict {
        Verdict::ReadFault(file) => match read_fault_line(alloc, file.as_str()) {
            Ok(line) => tell_line(Status::ReadFault, line.as_bytes(), err),
            Err(_) => tell_no_memory(err),
        },
        Verdict::Refused(fault) => match refusal_line(alloc, fault) {
            Ok(line) => tell_line(status_of(fault), line.as_bytes(), err),
            Err(_) => tell_no_memory(err),
        },
        Verdict::ManifestRefused(refusal, file) => {
            match manifest_line(alloc, file.as_str(), refusal.kind) {
                Ok(line) => tell_line(status_of_manifest(refusal), line.as_bytes(), err),
                Err(_) => tell_no_memory(err),
            }
        }
        Verdict::NoMemory => tell_no_memory(err),
        Verdict::Ran(end, text, lines) => tell_run(answer_by(end), &text, &lines, out, err),
    }
}
