//! The form of the data files: rows, the entries of a row, and the text that stands under an entry.

use std::alloc::{AllocError, Global};

/// The words of entries that have a number behind them.
const NUMBERED: [&str; 16] = [
    "read fails",
    "out room",
    "out fails",
    "err room",
    "err fails",
    "child start fails",
    "child read fails",
    "child write fails",
    "input room",
    "status",
    "reads",
    "out writes",
    "err writes",
    "failed starts",
    "failed reads",
    "failed writes",
];

/// The words of entries that have a name or nothing behind them.
const NAMED: [&str; 10] = [
    "words", "word", "file", "child", "out", "err", "host", "sent", "heard", "case",
];

/// A line of a row that is no text, and the text under it.
#[derive(Drop)]
pub struct Entry<'a> {
    pub key: &'static str,
    /// What stands in the line after the key.
    pub rest: &'a str,
    /// The same as a number, where the key has one.
    pub number: u64,
    pub bytes: Vec<u8>,
}

/// A row: its name, and its entries in order.
#[derive(Drop)]
pub struct Row<'a> {
    pub name: &'a str,
    pub entries: Vec<Entry<'a>>,
}

/// Why a text has no rows.
#[derive(Clone, Copy, Debug, PartialEq, Eq)]
pub enum DataFault {
    /// The line with this number, from 1, has no form.
    Line(u64),
    /// Memory was refused.
    NoMemory,
}

/// What stands after the key and a blank, where the line begins with them or is the key.
fn after_key<'a>(line: &'a str, key: &str) -> Option<&'a str> {
    let rest = line.strip_prefix(key)?;
    if rest.is_empty() {
        Some(rest)
    } else {
        rest.strip_prefix(' ')
    }
}

/// The entry of a line of this form.
fn entry_of<'a>(alloc: Global, line: &'a str) -> Option<Entry<'a>> {
    for key in NUMBERED {
        if let Some(rest) = after_key(line, key) {
            if let Ok(number) = rest.parse::<u64>() {
                return Some(Entry {
                    key,
                    rest,
                    number,
                    bytes: Vec::new(alloc),
                });
            }
        }
    }
    for key in NAMED {
        if let Some(rest) = after_key(line, key) {
            return Some(Entry {
                key,
                rest,
                number: 0,
                bytes: Vec::new(alloc),
            });
        }
    }
    None
}

/// The count before ` times `, and what stands after it; else the whole line, once.
fn times_of(line: &str) -> (u64, &str) {
    match line.split_once(" times ") {
        Some((count, rest)) => match count.parse::<u64>() {
            Ok(count) => (count, rest),
            Err(_) => (1, line),
        },
        None => (1, line),
    }
}

/// The bytes of a line of text without its count.
fn text_of(alloc: Global, line: &str) -> Result<Option<Vec<u8>>, AllocError> {
    if let Some(text) = line.strip_prefix('|') {
        let mut bytes = Vec::from_slice(alloc, text.as_bytes())?;
        bytes.push(b'\n')?;
        Ok(Some(bytes))
    } else if let Some(text) = line.strip_prefix('~') {
        Ok(Some(Vec::from_slice(alloc, text.as_bytes())?))
    } else if let Some(text) = line.strip_prefix('%') {
        Ok(hex::decode(alloc, text.as_bytes()).ok())
    } else {
        Ok(None)
    }
}

/// Adds a line of text to the bytes, and tells whether it has such a form.
fn add_text(alloc: Global, line: &str, bytes: &mut Vec<u8>) -> Result<bool, AllocError> {
    let (count, rest) = times_of(line);
    match text_of(alloc, rest)? {
        Some(text) => {
            for _ in 0..count {
                bytes.extend_from_slice(&text)?;
            }
            Ok(true)
        }
        None => Ok(false),
    }
}

/// Takes a line that is neither empty nor a remark, and tells whether it has a form.
fn take_line<'a>(
    alloc: Global,
    line: &'a str,
    rows: &mut Vec<Row<'a>>,
) -> Result<bool, AllocError> {
    if let Some(name) = line.strip_prefix("row ") {
        let entries = Vec::new(alloc);
        rows.push(Row { name, entries })?;
        return Ok(true);
    }
    let Some(row) = rows.last_mut() else {
        return Ok(false);
    };
    if let Some(entry) = entry_of(alloc, line) {
        row.entries.push(entry)?;
        return Ok(true);
    }
    match row.entries.last_mut() {
        Some(entry) => add_text(alloc, line, &mut entry.bytes),
        None => Ok(false),
    }
}

/// The rows of a text.
pub fn rows_of<'a>(alloc: Global, text: &'a str) -> Result<Vec<Row<'a>>, DataFault> {
    let mut rows = Vec::new(alloc);
    for (n, line) in text.lines().enumerate() {
        if line.is_empty() || line.starts_with('#') {
            continue;
        }
        match take_line(alloc, line, &mut rows) {
            Ok(true) => {}
            Ok(false) => return Err(DataFault::Line((n as u64).saturating_add(1))),
            Err(AllocError) => return Err(DataFault::NoMemory),
        }
    }
    Ok(rows)
}
