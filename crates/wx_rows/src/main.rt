//! Makes the calls of the rows that stand as text in `data/`, through the top call, over files, sinks and children in
//! memory, and prints for each row whether it gave what the row expects, or what differs. The form of a row is told in
//! `data/README`.
#![tactic(auto)]

mod calls;
mod data;
mod given;
mod hosts;
mod told;

use crate::calls::make_calls;
use crate::data::{DataFault, Row, rows_of};
use std::alloc::{AllocError, Global};
use std::process::ExitCode;
use wx_outside::{FileShelf, Found, Shelf, Sink, StreamSink};

/// The files of rows, in the order in which they are played.
const FILES: [&str; 12] = [
    "words",
    "scenes",
    "faults",
    "script_faults",
    "requests",
    "manifests",
    "hosts",
    "host_faults",
    "match",
    "frames",
    "report",
    "sinks",
];

/// What came of the rows of a file.
#[derive(Clone, Copy, PartialEq, Eq)]
enum Played {
    /// Each gave what it expects.
    AsExpected,
    /// Some row did not, or could not be read or told.
    Otherwise,
}

/// Makes the calls of a row and tells on the sink what came of it.
fn play_row<O: Sink>(
    alloc: Global,
    file: &str,
    row: &Row<'_>,
    to: &mut O,
) -> Result<Played, AllocError> {
    let told = make_calls(alloc, row)?;
    let (mark, played) = if told.is_empty() {
        ("ok", Played::AsExpected)
    } else {
        ("no", Played::Otherwise)
    };
    let line = format!(in alloc; "{mark} {file}: {}\n{told}", row.name)?;
    match to.write(line.as_bytes()) {
        Ok(()) => Ok(played),
        Err(_) => Ok(Played::Otherwise),
    }
}

/// Tells that nothing can be played of a file, and why.
fn tell_fault<O: Sink>(
    alloc: Global,
    file: &str,
    why: &str,
    to: &mut O,
) -> Result<Played, AllocError> {
    let line = format!(in alloc; "no {file}: {why}\n")?;
    let _ = to.write(line.as_bytes());
    Ok(Played::Otherwise)
}

/// Plays the rows of a file's text.
fn play_text<O: Sink>(
    alloc: Global,
    file: &str,
    text: &str,
    to: &mut O,
) -> Result<Played, AllocError> {
    let rows = match rows_of(alloc, text) {
        Ok(rows) => rows,
        Err(DataFault::Line(number)) => {
            let why = format!(in alloc; "line {number} has no form")?;
            return tell_fault(alloc, file, why.as_str(), to);
        }
        Err(DataFault::NoMemory) => return Err(AllocError),
    };
    let mut all = Played::AsExpected;
    for row in rows.iter() {
        if play_row(alloc, file, row, to)? == Played::Otherwise {
            all = Played::Otherwise;
        }
    }
    Ok(all)
}

/// Plays the rows of a file.
fn play_file<O: Sink>(rt: &HostRuntime, file: &str, to: &mut O) -> Result<Played, AllocError> {
    if let Ok(Found::Bytes(bytes)) = FileShelf::new(rt).read(rt.alloc(), file) {
        if let Ok(text) = str::from_utf8(&bytes) {
            return play_text(rt.alloc(), file, text, to);
        }
    }
    tell_fault(rt.alloc(), file, "no text is there", to)
}

/// Plays all files, also after one that did not give what it expects.
fn play_files(rt: &HostRuntime) -> Result<Played, AllocError> {
    let mut to = StreamSink::new(rt.stdout());
    let mut all = Played::AsExpected;
    for file in FILES {
        if play_file(rt, file, &mut to)? == Played::Otherwise {
            all = Played::Otherwise;
        }
    }
    Ok(all)
}

fn main(rt: HostRuntime) -> ExitCode {
    let status = match play_files(&rt) {
        Ok(Played::AsExpected) => 0,
        _ => 1,
    };
    ExitCode::from(status)
}
