//! Frames of JSON texts as native messaging has them: a length of four bytes, the lowest first, and the text.
#![tactic(auto)]

ghost use Rattle.std.specs.Prelude.{◌≡◌, ◌≤◌, ◌++◌, length, OnOk, OnErr};
ghost use Rattle.wx_native_frame.specs.Frames.{length_bytes, frame};

mod frame_reader;
mod head;
mod laws;
mod text;

use byteorder::{ByteOrder, LittleEndian};
pub use frame_reader::FrameReader;
pub use laws::{one_answer, one_split};
use wx_id::NoMemory;
use wx_json::{JsonFault, JsonText};

/// Why a stream of frames is read no further.
#[derive(Clone, Copy, Debug, PartialEq, Eq)]
pub enum FrameFault {
    /// The length is greater than the limit.
    TooLong { len: u32 },
    /// The text is no JSON text. The place is counted in the text.
    BadJson(JsonFault),
    /// There is no memory for the text. The reader can go on.
    NoMemory,
}

/// What a step did: how many bytes of the piece it used, and the text whose frame ended with them, if one did.
#[derive(Drop)]
pub struct Step {
    pub used: usize,
    pub frame: Option<JsonText>,
}

/// The bytes end within a frame, of which there are so many, those of its length included.
#[derive(Clone, Copy, Debug, PartialEq, Eq)]
pub struct Cut {
    pub have: u64,
}

/// The bytes of a frame before its text, for a text of so many bytes.
#[tactic(auto, unfolding(crate::specs::Frames::length_bytes))]
pub fn frame_head(len: u32) -> [u8; 4]
    ensures { result ≡ length_bytes len }
{
    let mut head = [0; 4];
    LittleEndian::write_u32(&mut head, len);
    head
}

/// Appends the frame of the text.
pub fn frame_into(text: &JsonText, out: &mut Vec<u8>) -> Result<(), NoMemory>
    requires { length text.now ≤ 67_108_864 }
    ensures ok { OnOk result (out.new.items ≡ out.old.items ++ frame text.now) }
    ensures err { OnErr result (out.new.items ≡ out.old.items) }
{
    let head = frame_head(text.len() as u32);
    out.reserve(4 + text.bytes().len())?;
    let _ = out.extend_from_slice(&head);
    let _ = out.extend_from_slice(text.bytes());
    Ok(())
}
