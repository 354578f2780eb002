//! Plays the rows that stand as text in `data/`: of each it reads what the row gives, by the public calls of the crates
//! of texts, and compares the answer in words with the one that the row wants. It prints for each file how many rows it
//! has and how many are wrong, and of each wrong row its line, what was wanted and what came. The form of a row is told
//! in `data/README`.
#![tactic(auto)]

mod answers;
mod contexts;
mod frames;
mod hosts;
mod ids;
mod json;
mod manifests;
mod patterns;
mod rows;
mod trees;
mod words;
mod worlds;

use crate::answers::{OfBytes, OfText, Subject, answer};
use crate::rows::{Row, RowFault, rows_of};
use std::alloc::Global;
use std::process::ExitCode;
use wx_id::NoMemory;
use wx_outside::{FileShelf, Found, Shelf, Sink, StreamSink};

/// The files of rows, in the order in which they are played, and what each asks.
const FILES: [(&str, Subject); 18] = [
    ("extension_ids", Subject::Bytes(OfBytes::ExtensionId)),
    ("host_names", Subject::Bytes(OfBytes::HostName)),
    ("patterns", Subject::Text(OfText::Pattern)),
    ("matches", Subject::Text(OfText::Match)),
    ("page_paths", Subject::Text(OfText::PagePath)),
    ("web_urls", Subject::Text(OfText::WebUrl)),
    ("senders", Subject::Text(OfText::Sender)),
    ("objects", Subject::Bytes(OfBytes::Object)),
    ("keys", Subject::Text(OfText::Key)),
    ("manifests", Subject::Bytes(OfBytes::Manifest)),
    ("manifest_contents", Subject::Text(OfText::ManifestContent)),
    ("host_manifests", Subject::Bytes(OfBytes::HostManifest)),
    ("host_contents", Subject::Text(OfText::HostContent)),
    ("calls", Subject::Text(OfText::World)),
    ("native_calls", Subject::Text(OfText::World)),
    ("worlds", Subject::Text(OfText::World)),
    ("json", Subject::Bytes(OfBytes::Json)),
    ("frames", Subject::Bytes(OfBytes::Frames)),
];

/// How many rows were played, and how many of them are wrong.
#[derive(Clone, Copy)]
struct Count {
    rows: u64,
    wrong: u64,
}

/// Tells a line. One that is not written is missed by who compares what was written.
fn tell<O: Sink>(line: &str, to: &mut O) {
    let _ = to.write(line.as_bytes());
}

/// Plays a row, tells it where it is wrong, and says whether it is.
fn is_wrong<O: Sink>(
    alloc: Global,
    file: &str,
    subject: Subject,
    given: &[u8],
    row: &Row<'_>,
    to: &mut O,
) -> Result<bool, NoMemory> {
    let came = answer(alloc, subject, given, &row.text)?;
    if came.as_str() == row.words {
        return Ok(false);
    }
    let line = format!(in alloc;
        "{file}, line {}: wanted `{}`, came `{came}`\n",
        row.line, row.words
    )?;
    tell(line.as_str(), to);
    Ok(true)
}

/// Plays the rows of a file, each with what was last given before it.
fn play_rows<O: Sink>(
    alloc: Global,
    file: &str,
    subject: Subject,
    rows: &[Row<'_>],
    to: &mut O,
) -> Result<Count, NoMemory> {
    let mut count = Count { rows: 0, wrong: 0 };
    let mut given: &[u8] = &[];
    for row in rows {
        if row.words == "given" {
            given = &row.text;
        } else {
            count.rows = count.rows.saturating_add(1);
            if is_wrong(alloc, file, subject, given, row, to)? {
                count.wrong = count.wrong.saturating_add(1);
            }
        }
    }
    Ok(count)
}

/// Tells why no row of a file is played. That counts as a wrong row.
fn unplayed<O: Sink>(alloc: Global, file: &str, why: &str, to: &mut O) -> Result<Count, NoMemory> {
    let line = format!(in alloc; "{file}: {why}\n")?;
    tell(line.as_str(), to);
    Ok(Count { rows: 0, wrong: 1 })
}

/// Plays the rows of a file's text.
fn play_text<O: Sink>(
    alloc: Global,
    file: &str,
    subject: Subject,
    text: &str,
    to: &mut O,
) -> Result<Count, NoMemory> {
    match rows_of(alloc, text) {
        Ok(rows) => play_rows(alloc, file, subject, &rows, to),
        Err(RowFault::Line(number)) => {
            let why = format!(in alloc; "line {number} has no form")?;
            unplayed(alloc, file, why.as_str(), to)
        }
        Err(RowFault::NoMemory) => Err(NoMemory),
    }
}

/// Plays the rows of a file.
fn play_file<O: Sink>(
    rt: &HostRuntime,
    file: &str,
    subject: Subject,
    to: &mut O,
) -> Result<Count, NoMemory> {
    if let Ok(Found::Bytes(bytes)) = FileShelf::new(rt).read(rt.alloc(), file) {
        if let Ok(text) = str::from_utf8(&bytes) {
            return play_text(rt.alloc(), file, subject, text, to);
        }
    }
    unplayed(rt.alloc(), file, "no text is there", to)
}

/// Plays all files, also after one with wrong rows, and says whether no row was wrong.
fn play_files(rt: &HostRuntime) -> Result<bool, NoMemory> {
    let mut to = StreamSink::new(rt.stdout());
    let mut all_right = true;
    for (file, subject) in FILES {
        let count = play_file(rt, file, subject, &mut to)?;
        let line = format!(in rt.alloc(); "{file}: {} rows, {} wrong\n", count.rows, count.wrong)?;
        tell(line.as_str(), &mut to);
        if count.wrong > 0 {
            all_right = false;
        }
    }
    Ok(all_right)
}

fn main(rt: HostRuntime) -> ExitCode {
    let status = match play_files(&rt) {
        Ok(true) => 0,
        _ => 1,
    };
    ExitCode::from(status)
}
