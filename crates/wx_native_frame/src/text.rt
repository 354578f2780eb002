//! The text of a frame, as it comes.
ghost use Rattle.std.specs.Prelude.{◌≡◌, ℕ, ◌+◌, ◌<◌, ◌≤◌, ◌^◌, List, [], ◌++◌};
ghost use Rattle.std.specs.Prelude.{length, take, OnOk, IfErr, IfOk, IfSome};
ghost use Rattle.std.specs.Vec.{vec_len, vec_capacity};
ghost use Rattle.wx_json.specs.Check.{Stands, taken};
ghost use Rattle.wx_json.specs.Text.{IsJsonText, IsPrefixOfJson, IsFault, IsEndFault};
ghost use Rattle.wx_native_frame.specs.Reader.{Reads};

use std::alloc::{AllocError, Global};
use std::mem;
use wx_json::{JsonCheck, JsonFault, JsonText};

/// An empty text with room for so many bytes: the spare one, where it has the room, or a new one.
pub(crate) fn empty_text(
    alloc: Global,
    spare: &mut Vec<u8>,
    room: usize,
) -> Result<Vec<u8>, AllocError>
    ensures items { IfOk result (λ text. text.items ≡ []) }
    ensures capacity { IfOk result (λ text. room ≤ vec_capacity text) }
{
    if spare.capacity() < room {
        return Vec::with_capacity(alloc, room);
    }
    let mut text = mem::replace(spare, Vec::new(alloc));
    text.clear();
    Ok(text)
}

/// The bytes as a text, where they are one and there is memory for it.
pub(crate) fn text_of(
    alloc: Global,
    check: &mut JsonCheck,
    spare: &mut Vec<u8>,
    bytes: &[u8],
) -> Option<JsonText>
    ensures { IfSome result (λ text. (text ≡ bytes.now) × IsJsonText bytes.now) }
{
    check.restart();
    if check.step(bytes).is_err() {
        return None;
    }
    let Ok(mut text) = empty_text(alloc, spare, bytes.len()) else {
        return None;
    };
    let _ = text.extend_from_slice(bytes);
    JsonText::from_check(check, text).ok()
}

/// Takes the next part of a text, or as much of it as ends with its faulty byte. There is room for it.
pub(crate) fn read_on(
    text: &mut Vec<u8>,
    check: &mut JsonCheck,
    part: &[u8],
) -> Result<(), JsonFault>
    requires reads { Reads check.old text.old.items }
    requires room { vec_len text.old + length part.now ≤ vec_capacity text.old }
    requires size { vec_len text.old + length part.now < 2 ^ 63 }
    ensures text { OnOk result (text.new.items ≡ text.old.items ++ part.now) }
    ensures reads { OnOk result (Reads check.new text.new.items) }
    ensures room { vec_capacity text.old ≤ vec_capacity text.new }
    ensures fault { IfErr result (IsFault (text.old.items ++ part.now)) }
    ensures left { IfErr result (λ f. text.new.items ≡ take (f.place + 1) (text.old.items ++ part.now)) }
{
    if let Err(fault) = check.step(part) {
        let good = fault.place as usize + 1 - text.len();
        let _ = text.extend_from_slice(&part[..good]);
        return Err(fault);
    }
    let _ = text.extend_from_slice(part);
    Ok(())
}

/// Takes the whole text out, or leaves it with the fault that it ends too early.
pub(crate) fn take_whole(
    alloc: Global,
    text: &mut Vec<u8>,
    check: &JsonCheck,
) -> Result<JsonText, JsonFault>
    requires { Stands check.now text.old.items }
    ensures ok { IfOk result (λ whole. (whole ≡ text.old.items) × IsJsonText text.old.items) }
    ensures taken { OnOk result (text.new.items ≡ []) }
    ensures err { IfErr result (IsEndFault text.old.items) }
    ensures left { IfErr result (λ _. text.new.items ≡ text.old.items) }
{
    let bytes = mem::replace(text, Vec::new(alloc));
    match JsonText::from_check(check, bytes) {
        Ok(whole) => Ok(whole),
        Err((fault, bytes)) => {
            *text = bytes;
            Err(fault)
        }
    }
}
