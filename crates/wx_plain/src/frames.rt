//! The command `frames`: a line for each native frame of a file, and how they end.
ghost use Rattle.std.specs.Prelude.{◌≡◌, ◌++◌, ◌<◌, [], length, IfOk, OnOk, codes, decimal};
ghost use Rattle.wx_native_frame.specs.Frames.{IsUnderWay};
ghost use Rattle.wx_plain.specs.Answers.{FramesAnswers};
ghost use Rattle.wx_plain.specs.Framing as framing;
ghost use Rattle.wx_plain.specs.View.{Says};
ghost use Rattle.wx_plain.specs.Writing.{AllWritten, IsFirst, IsReady};

use crate::put::{put, put_number};
use crate::verdict::{Output, Refusal};
use std::alloc::{AllocError, Global};
use wx_id::NoMemory;
use wx_json::{JsonFault, JsonKind};
use wx_native_frame::{Cut, FrameFault, FrameReader, Step, one_split};

/// The most bytes of a frame's text.
const FRAME_LIMIT: u32 = 1_048_576;

/// How the frames of a file end.
#[derive(Clone, Copy)]
pub enum FramesEnd {
    /// Behind a whole frame.
    Whole,
    /// With a length over the limit.
    TooLong { len: u32 },
    /// With a text that is no JSON text.
    BadJson(JsonFault),
    /// Within a frame, of which there are so many bytes.
    Cut { have: u64 },
}

/// What stands first in bytes.
enum First {
    /// A frame of so many bytes.
    Frame { used: usize },
    /// No frame.
    End(FramesEnd),
}

/// The line of a frame.
fn put_frame(out: &mut Vec<u8>, n: u64, text: &[u8]) -> Result<(), AllocError>
    ensures { OnOk result (out.new.items ≡ out.old.items ++ framing.frame_line n text.now) }
{
    put_number(out, n)?;
    put(out, b" ")?;
    put_number(out, text.len() as u64)?;
    put(out, b":")?;
    put(out, text)?;
    put(out, b"\n")
}

/// The word for a JSON fault's kind.
fn json_word(kind: JsonKind) -> &'static [u8]
    ensures { result.now ≡ framing.json_word kind }
{
    match kind {
        JsonKind::Syntax => b"syntax",
        JsonKind::Utf8 => b"utf8",
        JsonKind::TooDeep => b"too_deep",
        JsonKind::Ends => b"ends",
    }
}

/// A word and a number, and the line's end.
fn put_numbered(out: &mut Vec<u8>, word: &[u8], n: u64) -> Result<(), AllocError>
    ensures { OnOk result (out.new.items ≡ out.old.items ++ (word.now ++ (decimal n ++ codes "\n"))) }
{
    put(out, word)?;
    put_number(out, n)?;
    put(out, b"\n")
}

/// The last line, of a text that is no JSON text.
fn put_bad_json(out: &mut Vec<u8>, found: JsonFault) -> Result<(), AllocError>
    ensures { OnOk result (out.new.items ≡ out.old.items ++ framing.end_line (FramesEnd.BadJson found)) }
{
    put(out, b"bad_json ")?;
    put_number(out, found.place)?;
    put(out, b" ")?;
    put(out, json_word(found.kind))?;
    put(out, b"\n")
}

/// The last line.
fn put_end(out: &mut Vec<u8>, end: FramesEnd) -> Result<(), AllocError>
    ensures { OnOk result (out.new.items ≡ out.old.items ++ framing.end_line end) }
{
    match end {
        FramesEnd::Whole => put(out, b"end\n"),
        FramesEnd::TooLong { len } => put_numbered(out, b"too_long ", len as u64),
        FramesEnd::BadJson(found) => put_bad_json(out, found),
        FramesEnd::Cut { have } => put_numbered(out, b"cut ", have),
    }
}

/// How bytes end that hold no whole frame and no fault.
fn unfinished(reader: &FrameReader) -> FramesEnd
    requires { IsUnderWay reader.now.bytes framing.frame_limit }
    ensures { framing.EndsBy reader.now.bytes result }
{
    match reader.finish() {
        Ok(()) => FramesEnd::Whole,
        Err(Cut { have }) => FramesEnd::Cut { have },
    }
}

/// Reads what stands first in the bytes, and writes the line of a frame.
fn read_first(
    reader: &mut FrameReader,
    bytes: &[u8],
    n: u64,
    out: &mut Vec<u8>,
) -> Result<First, NoMemory>
    requires limit { reader.old.limit ≡ framing.frame_limit }
    requires ready { reader.old.bytes ≡ [] }
    ensures limit { reader.new.limit ≡ framing.frame_limit }
    ensures first { IfOk result (IsFirst bytes.now n out.old.items out.new.items) }
    ensures ready { IfOk result (IsReady reader.new.bytes) }
{
    match reader.step(bytes) {
        Ok(Step { used, frame }) => match frame {
            Some(text) => match put_frame(out, n, text.bytes()) {
                Ok(()) => {
                    reader.take_back(text);
                    Ok(First::Frame { used })
                }
                Err(AllocError) => Err(NoMemory),
            },
            None => Ok(First::End(unfinished(reader))),
        },
        Err(FrameFault::TooLong { len }) => Ok(First::End(FramesEnd::TooLong { len })),
        Err(FrameFault::BadJson(found)) => Ok(First::End(FramesEnd::BadJson(found))),
        Err(FrameFault::NoMemory) => Err(NoMemory),
    }
}

/// Writes a line for each frame, and says how they end.
fn put_frames(alloc: Global, bytes: &[u8], out: &mut Vec<u8>) -> Result<FramesEnd, NoMemory>
    ensures { IfOk result (AllWritten bytes.now out.old.items out.new.items) }
{
    one_split();
    let mut reader = FrameReader::new(alloc, FRAME_LIMIT);
    let mut at = 0;
    let mut n = 0;
    while at < bytes.len() {
        let (_, rest) = bytes.split_at(at);
        match read_first(&mut reader, rest, n, out) {
            Ok(First::Frame { used }) => {
                at += used;
                n += 1;
            }
            Ok(First::End(end)) => return Ok(end),
            Err(NoMemory) => return Err(NoMemory),
        }
    }
    Ok(FramesEnd::Whole)
}

/// Whether every frame was whole.
fn is_whole(end: FramesEnd) -> bool
    ensures { result ≡ framing.is_whole end }
{
    matches!(end, FramesEnd::Whole)
}

/// What `frames` answers of the bytes of its file.
pub(crate) fn answer(alloc: Global, bytes: &[u8]) -> Result<Output, Refusal>
    ensures { Says (FramesAnswers bytes.now) result }
{
    let mut text = Vec::new(alloc);
    let end = match put_frames(alloc, bytes, &mut text) {
        Ok(end) => end,
        Err(NoMemory) => return Err(Refusal::NoMemory),
    };
    match put_end(&mut text, end) {
        Ok(()) => Ok(Output {
            yes: is_whole(end),
            text,
        }),
        Err(AllocError) => Err(Refusal::NoMemory),
    }
}
