//! The form of the data files: rows, each with its words and its text.

use std::alloc::{AllocError, Global};

/// A row: the number of its line, from 1, the words before its text, and the text.
#[derive(Drop)]
pub struct Row<'a> {
    pub line: u64,
    pub words: &'a str,
    pub text: Vec<u8>,
}

/// Why a file has no rows.
#[derive(Clone, Copy, Debug, PartialEq, Eq)]
pub enum RowFault {
    /// The line with this number, from 1, has no form.
    Line(u64),
    /// Memory was refused.
    NoMemory,
}

/// What begins a text, with the blank before it.
const MARKS: [&str; 3] = [" ~", " |", " %"];

/// The words before the first mark of a line, and the text from its mark on.
fn words_and_text(line: &str) -> Option<(&str, &str)> {
    let mut words = line;
    for mark in MARKS {
        if let Some((front, _)) = words.split_once(mark) {
            words = front;
        }
    }
    let text = line.strip_prefix(words)?.strip_prefix(' ')?;
    Some((words, text))
}

/// The count before ` times `, and what stands after it; else the whole line, once.
fn times_of(line: &str) -> (u64, &str) {
    match line.split_once(" times ") {
        Some((count, rest)) => match count.parse::<u64>() {
            Ok(count) => (count, rest),
            Err(_) => (1, line),
        },
        None => (1, line),
    }
}

/// The bytes of a line of text without its count.
fn text_of(alloc: Global, line: &str) -> Result<Option<Vec<u8>>, AllocError> {
    if let Some(text) = line.strip_prefix('|') {
        let mut bytes = Vec::from_slice(alloc, text.as_bytes())?;
        bytes.push(b'\n')?;
        Ok(Some(bytes))
    } else if let Some(text) = line.strip_prefix('~') {
        Ok(Some(Vec::from_slice(alloc, text.as_bytes())?))
    } else if let Some(text) = line.strip_prefix('%') {
        Ok(hex::decode(alloc, text.as_bytes()).ok())
    } else {
        Ok(None)
    }
}

/// Adds a line of text to the bytes, and tells whether it has such a form.
fn add_text(alloc: Global, line: &str, bytes: &mut Vec<u8>) -> Result<bool, AllocError> {
    let (count, rest) = times_of(line);
    match text_of(alloc, rest)? {
        Some(text) => {
            for _ in 0..count {
                bytes.extend_from_slice(&text)?;
            }
            Ok(true)
        }
        None => Ok(false),
    }
}

/// Takes a line that is neither empty nor a remark: more text of the last row, or a new row. Tells whether it has such
/// a form.
fn take_line<'a>(
    alloc: Global,
    number: u64,
    line: &'a str,
    rows: &mut Vec<Row<'a>>,
) -> Result<bool, AllocError> {
    if let Some(row) = rows.last_mut() {
        if add_text(alloc, line, &mut row.text)? {
            return Ok(true);
        }
    }
    let Some((words, first)) = words_and_text(line) else {
        return Ok(false);
    };
    let mut text = Vec::new(alloc);
    let has_form = add_text(alloc, first, &mut text)?;
    rows.push(Row {
        line: number,
        words,
        text,
    })?;
    Ok(has_form)
}

/// The rows of a file's text.
pub fn rows_of<'a>(alloc: Global, text: &'a str) -> Result<Vec<Row<'a>>, RowFault> {
    let mut rows = Vec::new(alloc);
    for (n, line) in text.lines().enumerate() {
        if line.is_empty() || line.starts_with('#') {
            continue;
        }
        let number = (n as u64).saturating_add(1);
        match take_line(alloc, number, line, &mut rows) {
            Ok(true) => {}
            Ok(false) => return Err(RowFault::Line(number)),
            Err(AllocError) => return Err(RowFault::NoMemory),
        }
    }
    Ok(rows)
}
