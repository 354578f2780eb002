//! Texts of JSON, whole and in pieces.
ghost use Rattle.std.specs.Prelude.{◌≤◌, length};

use crate::answers::Answer;
use crate::words::json_fault;
use std::alloc::Global;
use wx_id::NoMemory;
use wx_json::{JsonCheck, JsonFault, JsonText, check};

fn bytewise(bytes: &[u8]) -> Result<(), JsonFault> {
    let mut check = JsonCheck::new();
    for i in 0..bytes.len() {
        let _ = check.step(&bytes[i..i + 1]);
    }
    check.finish()
}

fn in_two(bytes: &[u8], cut: usize) -> Result<(), JsonFault>
    requires { cut ≤ length bytes.now }
{
    let mut check = JsonCheck::new();
    let _ = check.step(&bytes[..cut]);
    let _ = check.step(&bytes[cut..]);
    check.finish()
}

/// Whether the check says the same at each cut into two.
fn same_in_two(bytes: &[u8], whole: Result<(), JsonFault>) -> bool {
    for cut in 0..bytes.len() {
        if in_two(bytes, cut) != whole {
            return false;
        }
    }
    true
}

/// Whether a text was made of the bytes, or they came back with the fault of their check.
fn is_text_of(
    text: Result<JsonText, (JsonFault, Vec<u8>)>,
    bytes: &[u8],
    whole: Result<(), JsonFault>,
) -> Result<bool, NoMemory> {
    match text {
        Ok(text) => {
            let copy = text.try_clone()?;
            let is_copied = copy.bytes() == bytes && copy.len() == bytes.len() as u64;
            let is_kept = text.bytes() == bytes && copy.into_bytes().as_slice() == bytes;
            Ok(whole.is_ok() && is_copied && is_kept)
        }
        Err((fault, back)) => Ok(whole == Err(fault) && back.as_slice() == bytes),
    }
}

/// Whether the texts of the bytes, by a check of their own and by one that was made, are as the check says.
fn same_as_text(
    alloc: Global,
    bytes: &[u8],
    whole: Result<(), JsonFault>,
) -> Result<bool, NoMemory> {
    let new = JsonText::new(Vec::from_slice(alloc, bytes)?);
    let mut check = JsonCheck::new();
    let checked = Vec::from_slice(alloc, bytes)?;
    let _ = check.step(&checked);
    let from_check = JsonText::from_check(&check, checked);
    Ok(is_text_of(new, bytes, whole)? && is_text_of(from_check, bytes, whole)?)
}

/// Whether bytes are a text, or their fault: whole, byte by byte, at each cut into two, and made into a text.
pub fn json(alloc: Global, bytes: &[u8]) -> Answer {
    let whole = check(bytes);
    let mut answer = match whole {
        Ok(()) => String::from_str(alloc, "read")?,
        Err(fault) => json_fault(alloc, fault)?,
    };
    if bytewise(bytes) != whole {
        answer.push_str(", otherwise byte by byte")?;
    }
    if !same_in_two(bytes, whole) {
        answer.push_str(", otherwise in two pieces")?;
    }
    if !same_as_text(alloc, bytes, whole)? {
        answer.push_str(", otherwise as a text")?;
    }
    Ok(answer)
}
