//! What differs between what a row expects and what its call gave, as lines for a reader.

use std::alloc::{AllocError, Global};

/// The most bytes of a text that are told.
const SHOWN: usize = 400;

/// Tells a number that differs, where the row expects one.
pub fn tell_number(
    alloc: Global,
    name: &str,
    expected: Option<u64>,
    given: u64,
    told: &mut String,
) -> Result<(), AllocError> {
    match expected {
        Some(number) if number != given => {
            let line = format!(in alloc; "   {name} is {given} and not {number}\n")?;
            told.push_str(line.as_str())
        }
        _ => Ok(()),
    }
}

/// How many bytes the two have in common at their fronts.
fn common_front(expected: &[u8], given: &[u8]) -> usize {
    let shorter = expected.len().min(given.len());
    expected
        .iter()
        .zip(given.iter())
        .position(|(a, b)| a != b)
        .unwrap_or(shorter)
}

/// The bytes from this place on, or the first of them, as text.
fn shown_from(bytes: &[u8], place: usize) -> &str {
    let rest = &bytes[place.min(bytes.len())..];
    let shown = &rest[..SHOWN.min(rest.len())];
    str::from_utf8(shown).unwrap_or("(bytes that are no text)")
}

/// Tells bytes that differ.
pub fn tell_bytes(
    alloc: Global,
    name: &str,
    expected: &[u8],
    given: &[u8],
    told: &mut String,
) -> Result<(), AllocError> {
    if expected == given {
        return Ok(());
    }
    let place = common_front(expected, given);
    let text = format!(in alloc;
        "   {name} differs from byte {place} on, it is\n{}\n   and not\n{}\n",
        shown_from(given, place),
        shown_from(expected, place)
    )?;
    told.push_str(text.as_str())
}
