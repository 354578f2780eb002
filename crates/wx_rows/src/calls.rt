//! The calls of a row: each is made, and what it gave is compared with what the row expects.

use crate::data::{Entry, Row};
use crate::given::{calls_of, children_of, entry_with, number_with, shelf_of, sink_of};
use crate::hosts::{expected_hosts, given_hosts};
use crate::told::{tell_bytes, tell_number};
use std::alloc::{AllocError, Global};
use wx_cmd::wx;
use wx_host_launch::MemoryStarter;
use wx_outside::{MemoryShelf, MemorySink};

/// The room for what a child is sent, where the row gives none.
const INPUT_ROOM: u64 = 64;

/// The number of the status of a failed write.
const WRITE_FAULT: u64 = 6;

/// The text of the first entry with this key, if any.
fn bytes_with<'r>(row: &'r Row<'_>, key: &str) -> &'r [u8] {
    match entry_with(row, key) {
        Some(entry) => &entry.bytes,
        None => &[],
    }
}

/// What the row expects on the second sink: the line of the case, or the text of the row.
fn expected_err(
    alloc: Global,
    row: &Row<'_>,
    case: Option<&Entry<'_>>,
) -> Result<Vec<u8>, AllocError> {
    match case {
        Some(case) => {
            let mut line = Vec::from_slice(alloc, case.rest.as_bytes())?;
            line.push(b'\n')?;
            Ok(line)
        }
        None => Vec::from_slice(alloc, bytes_with(row, "err")),
    }
}

/// How many writes the row expects on a sink: so many as it says, or none where no bytes are to stand there and no
/// write is to fail.
fn expected_writes(row: &Row<'_>, key: &str, bytes: &[u8]) -> Option<u64> {
    match number_with(row, key) {
        Some(number) => Some(number),
        None if bytes.is_empty() && number_with(row, "status") != Some(WRITE_FAULT) => Some(0),
        None => None,
    }
}

/// Tells what differs on the shelf and the two sinks.
fn tell_ends(
    alloc: Global,
    row: &Row<'_>,
    case: Option<&Entry<'_>>,
    shelf: &MemoryShelf,
    out: &MemorySink,
    err: &MemorySink,
    told: &mut String,
) -> Result<(), AllocError> {
    let on_out = bytes_with(row, "out");
    let on_err = expected_err(alloc, row, case)?;
    let out_writes = expected_writes(row, "out writes", on_out);
    let err_writes = expected_writes(row, "err writes", &on_err);
    tell_number(alloc, "reads", number_with(row, "reads"), shelf.reads, told)?;
    tell_number(alloc, "out writes", out_writes, out.writes, told)?;
    tell_number(alloc, "err writes", err_writes, err.writes, told)?;
    tell_bytes(alloc, "out", on_out, &out.bytes, told)?;
    tell_bytes(alloc, "err", &on_err, &err.bytes, told)
}

/// Makes a call with these words, and tells what differs.
fn make_call(
    alloc: Global,
    row: &Row<'_>,
    words: &[String],
    case: Option<&Entry<'_>>,
    told: &mut String,
) -> Result<(), AllocError> {
    let mut shelf = shelf_of(alloc, row, case)?;
    let mut out = sink_of(alloc, row, "out room", "out fails")?;
    let mut err = sink_of(alloc, row, "err room", "err fails")?;
    let children = children_of(alloc, row)?;
    let room = number_with(row, "input room").unwrap_or(INPUT_ROOM) as usize;
    let mut starter = MemoryStarter::new(alloc, &children, room);
    let status = wx(alloc, words, &mut shelf, &mut starter, &mut out, &mut err);
    let expected = number_with(row, "status").unwrap_or(0);
    tell_number(
        alloc,
        "status",
        Some(expected),
        status.number() as u64,
        told,
    )?;
    tell_ends(alloc, row, case, &shelf, &out, &err, told)?;
    tell_bytes(
        alloc,
        "hosts",
        &expected_hosts(alloc, row)?,
        &given_hosts(alloc, &starter)?,
        told,
    )
}

/// Makes the calls with these words: one for each case of the row, or one where it has none.
fn make_cases(
    alloc: Global,
    row: &Row<'_>,
    words: &[String],
    told: &mut String,
) -> Result<(), AllocError> {
    if entry_with(row, "case").is_none() {
        return make_call(alloc, row, words, None, told);
    }
    for entry in row.entries.iter() {
        if entry.key == "case" {
            make_call(alloc, row, words, Some(entry), told)?;
        }
    }
    Ok(())
}

/// Makes all calls of the row, and tells what differs; where nothing does, the text is empty.
pub fn make_calls(alloc: Global, row: &Row<'_>) -> Result<String, AllocError> {
    let mut told = String::new(alloc);
    let calls = calls_of(alloc, row)?;
    if calls.is_empty() {
        told.push_str("   no call\n")?;
    }
    for words in calls.iter() {
        make_cases(alloc, row, words, &mut told)?;
    }
    Ok(told)
}
