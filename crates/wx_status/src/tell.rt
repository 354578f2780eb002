//! How a line and a text are told.
ghost use Rattle.std.specs.Prelude.{◌≡◌};
ghost use Rattle.wx_status.specs.declared.status.Status.TheVariants as status;
ghost use Rattle.wx_status.specs.Changes.{WasTried, over};
ghost use Rattle.wx_status.specs.Lines.{write_fault_line};
ghost use Rattle.wx_status.specs.Told.{ToldText, ToldRun, ToldNoMemory, LineTold, LinesTold};

use crate::status::Status;
use wx_outside::{Failed, Sink};

/// Writes the line of an answer.
pub fn tell_line<E: Sink>(answer: Status, line: &[u8], err: &mut E) -> Status
    ensures { LineTold answer line.now (over (E.state err.old) (E.state err.new)) result }
{
    match err.write(line) {
        Ok(()) => answer,
        Err(Failed) => Status::WriteFault,
    }
}

/// Tries the line of want of memory.
pub fn tell_no_memory<E: Sink>(err: &mut E) -> Status
    ensures { ToldNoMemory (over (E.state err.old) (E.state err.new)) result }
{
    match err.write(b"wx: no memory\n") {
        Ok(()) => Status::NoMemory,
        Err(Failed) => Status::NoMemory,
    }
}

/// Tries the line of a failed write.
fn tell_write_fault<E: Sink>(err: &mut E) -> Status
    ensures is { result ≡ status.WriteFault }
    ensures tried { WasTried (over (E.state err.old) (E.state err.new)) write_fault_line }
{
    match err.write(b"wx: write fault\n") {
        Ok(()) => Status::WriteFault,
        Err(Failed) => Status::WriteFault,
    }
}

/// Writes the text of an answer. Where there is none, nothing is written.
pub fn tell_text<O: Sink, E: Sink>(answer: Status, text: &[u8], out: &mut O, err: &mut E) -> Status
    ensures { ToldText answer text.now
        (over (O.state out.old) (O.state out.new)) (over (E.state err.old) (E.state err.new)) result }
{
    if text.is_empty() {
        return answer;
    }
    match out.write(text) {
        Ok(()) => answer,
        Err(Failed) => tell_write_fault(err),
    }
}

/// Writes the lines of an answer. Where there are none, nothing is written.
fn tell_lines<E: Sink>(answer: Status, lines: &[u8], err: &mut E) -> Status
    ensures { LinesTold answer lines.now (over (E.state err.old) (E.state err.new)) result }
{
    if lines.is_empty() {
        answer
    } else {
        tell_line(answer, lines, err)
    }
}

/// Writes the journal's text of a run, and after it the lines of its answer.
pub fn tell_run<O: Sink, E: Sink>(
    answer: Status,
    journal: &[u8],
    lines: &[u8],
    out: &mut O,
    err: &mut E,
) -> Status
    ensures { ToldRun answer journal.now lines.now
        (over (O.state out.old) (O.state out.new)) (over (E.state err.old) (E.state err.new)) result }
{
    if out.write(journal).is_err() {
        return tell_write_fault(err);
    }
    tell_lines(answer, lines, err)
}
