//! What a row gives its calls: their words, the files, the sinks and the children.

use crate::data::{Entry, Row};
use std::alloc::{AllocError, Global};
use wx_host_launch::MemoryChild;
use wx_outside::{MemoryFile, MemoryShelf, MemorySink};

/// The room of a sink where the row gives it none.
const AMPLE: u64 = 1073741824;

/// The first entry with this key.
pub fn entry_with<'r, 'a>(row: &'r Row<'a>, key: &str) -> Option<&'r Entry<'a>> {
    row.entries.iter().find(|entry| entry.key == key)
}

/// The number of the first entry with this key.
pub fn number_with(row: &Row<'_>, key: &str) -> Option<u64> {
    entry_with(row, key).map(|entry| entry.number)
}

/// The numbers of all entries with this key.
fn numbers_with(alloc: Global, row: &Row<'_>, key: &str) -> Result<Vec<u64>, AllocError> {
    let mut numbers = Vec::new(alloc);
    for entry in row.entries.iter() {
        if entry.key == key {
            numbers.push(entry.number)?;
        }
    }
    Ok(numbers)
}

/// The words of a call, of which each stands after a blank.
fn split_words(alloc: Global, text: &str) -> Result<Vec<String>, AllocError> {
    let mut words = Vec::new(alloc);
    for word in text.split(' ') {
        if !word.is_empty() {
            words.push(String::from_str(alloc, word)?)?;
        }
    }
    Ok(words)
}

/// The words of each call of the row: an entry `words` begins a call, and an entry `word` adds a word to it.
pub fn calls_of(alloc: Global, row: &Row<'_>) -> Result<Vec<Vec<String>>, AllocError> {
    let mut calls: Vec<Vec<String>> = Vec::new(alloc);
    for entry in row.entries.iter() {
        if entry.key == "words" {
            calls.push(split_words(alloc, entry.rest)?)?;
        } else if entry.key == "word" {
            if let Some(words) = calls.last_mut() {
                words.push(String::from_str(alloc, entry.rest)?)?;
            }
        }
    }
    Ok(calls)
}

/// The files of the row, of which the last has the text of the case behind its own, and the reads that fail.
pub fn shelf_of(
    alloc: Global,
    row: &Row<'_>,
    case: Option<&Entry<'_>>,
) -> Result<MemoryShelf, AllocError> {
    let mut files = Vec::new(alloc);
    for entry in row.entries.iter() {
        if entry.key == "file" {
            files.push(MemoryFile {
                name: String::from_str(alloc, entry.rest)?,
                bytes: Vec::from_slice(alloc, &entry.bytes)?,
            })?;
        }
    }
    if let (Some(file), Some(case)) = (files.last_mut(), case) {
        file.bytes.extend_from_slice(&case.bytes)?;
    }
    Ok(MemoryShelf {
        files,
        fails_at: numbers_with(alloc, row, "read fails")?,
        reads: 0,
        faults: 0,
    })
}

/// An empty sink, with the room and the failing writes of these entries.
pub fn sink_of(
    alloc: Global,
    row: &Row<'_>,
    room: &str,
    fails: &str,
) -> Result<MemorySink, AllocError> {
    Ok(MemorySink {
        bytes: Vec::new(alloc),
        room: number_with(row, room).unwrap_or(AMPLE) as usize,
        fails_at: numbers_with(alloc, row, fails)?,
        writes: 0,
        faults: 0,
    })
}

/// Takes what an entry tells of a child: of a new one, or of the last.
fn take_of_child(
    alloc: Global,
    entry: &Entry<'_>,
    children: &mut Vec<MemoryChild>,
) -> Result<(), AllocError> {
    if entry.key == "child" {
        children.push(MemoryChild {
            path: String::from_str(alloc, entry.rest)?,
            writes: Vec::from_slice(alloc, &entry.bytes)?,
            failing_starts: Vec::new(alloc),
            failing_reads: Vec::new(alloc),
            failing_writes: Vec::new(alloc),
        })?;
    } else if let Some(child) = children.last_mut() {
        if entry.key == "child start fails" {
            child.failing_starts.push(entry.number)?;
        } else if entry.key == "child read fails" {
            child.failing_reads.push(entry.number)?;
        } else if entry.key == "child write fails" {
            child.failing_writes.push(entry.number)?;
        }
    }
    Ok(())
}

/// The children of the row.
pub fn children_of(alloc: Global, row: &Row<'_>) -> Result<Vec<MemoryChild>, AllocError> {
    let mut children = Vec::new(alloc);
    for entry in row.entries.iter() {
        take_of_child(alloc, entry, &mut children)?;
    }
    Ok(children)
}
