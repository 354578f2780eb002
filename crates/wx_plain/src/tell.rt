//! How a verdict is told, and the status that it comes to.
ghost use Rattle.std.specs.Prelude.{◌≡◌, ◌⊎◌};
ghost use Rattle.wx_plain.specs.Output as outputs;
ghost use Rattle.wx_plain.specs.Told.{Told};
ghost use Rattle.wx_plain.specs.Verdict.{no_memory};
ghost use Rattle.wx_plain.specs.View.{verdict_view};
ghost use Rattle.wx_status.specs.Changes.{over};

use crate::verdict::Verdict;
use std::alloc::Global;
use wx_outside::Sink;
use wx_status::{Status, input_line, read_fault_line, tell_line, tell_no_memory, tell_text};

/// The status of yes and of no.
fn answer_status(yes: bool) -> Status
    ensures { result ≡ outputs.answer_status yes }
{
    if yes { Status::Done } else { Status::No }
}

/// Tells a verdict. Where there is no memory for its line, that is told in its place.
pub(crate) fn tell<O: Sink, E: Sink>(
    alloc: Global,
    verdict: Verdict,
    out: &mut O,
    err: &mut E,
) -> Status
    ensures { Told (verdict_view verdict.entry)
        (over (O.state out.old) (O.state out.new)) (over (E.state err.old) (E.state err.new)) result
        ⊎ Told no_memory
        (over (O.state out.old) (O.state out.new)) (over (E.state err.old) (E.state err.new)) result }
{
    match verdict {
        Verdict::Usage => tell_line(Status::Usage, b"wx: usage\n", err),
        Verdict::ReadFault(file) => match read_fault_line(alloc, file) {
            Ok(line) => tell_line(Status::ReadFault, line.as_bytes(), err),
            Err(_) => tell_no_memory(err),
        },
        Verdict::Refused(kind) => match input_line(alloc, kind) {
            Ok(line) => tell_line(Status::InputRefused(kind), line.as_bytes(), err),
            Err(_) => tell_no_memory(err),
        },
        Verdict::NoMemory => tell_no_memory(err),
        Verdict::Answered(output) => tell_text(answer_status(output.yes), &output.text, out, err),
    }
}
