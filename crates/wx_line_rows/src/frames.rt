//! Streams of native frames, whole and in pieces.

use crate::answers::Answer;
use crate::words::json_fault;
use std::alloc::Global;
use wx_id::NoMemory;
use wx_json::JsonText;
use wx_native_frame::{Cut, FrameFault, FrameReader, Step, frame_into};

/// The most bytes of a text.
const LIMIT: u32 = 1_048_576;

/// The most bytes of a text that are told.
const SHOWN: u64 = 64;

/// The longest stream that is cut at each place, and where a longer one is.
const SHORT: usize = 4_096;

const CUTS: [usize; 7] = [0, 1, 3, 4, 5, 70_000, 1_048_579];

/// What the texts of a stream are, in words, and their frames once more.
#[derive(Drop)]
struct Texts {
    words: String,
    frames: Vec<u8>,
}

/// Takes a text: itself, or where it is long how many bytes it has; and its frame.
fn take_text(alloc: Global, text: &JsonText, texts: &mut Texts) -> Result<(), NoMemory> {
    let count = text.len();
    if count > LIMIT as u64 {
        return Ok(texts.words.push_str("a text over the limit ")?);
    }
    frame_into(text, &mut texts.frames)?;
    if count <= SHOWN {
        if let Ok(shown) = str::from_utf8(text.bytes()) {
            texts.words.push_str(shown)?;
        }
    } else {
        let words = format!(in alloc; "{count} bytes")?;
        texts.words.push_str(words.as_str())?;
    }
    Ok(texts.words.push_str(" ")?)
}

/// Steps to the end of the piece or to a fault, and takes each text.
fn feed(
    alloc: Global,
    reader: &mut FrameReader,
    piece: &[u8],
    texts: &mut Texts,
) -> Result<(), FrameFault> {
    let mut rest = piece;
    for _ in piece {
        if rest.is_empty() {
            break;
        }
        let Step { used, frame } = reader.step(rest)?;
        if let Some(text) = frame {
            if take_text(alloc, &text, texts).is_err() {
                return Err(FrameFault::NoMemory);
            }
            reader.take_back(text);
        }
        rest = rest.get(used..).unwrap_or(&[]);
    }
    Ok(())
}

/// Whether the reader wants nothing after a fault, and answers it again.
fn stays_at(reader: &mut FrameReader, fault: FrameFault) -> bool {
    if reader.wanted() != 0 {
        return false;
    }
    match reader.step(b"\x01\x00\x00\x001") {
        Ok(_) => false,
        Err(again) => again == fault,
    }
}

/// The words for a fault.
fn fault_words(alloc: Global, fault: FrameFault) -> Answer {
    match fault {
        FrameFault::TooLong { len } => Ok(format!(in alloc; "too_long {len}")?),
        FrameFault::BadJson(fault) => json_fault(alloc, fault),
        FrameFault::NoMemory => Err(NoMemory),
    }
}

/// The words for the bytes in hand: none, or how many.
fn in_hand(alloc: Global, reader: &FrameReader) -> Answer {
    match reader.finish() {
        Ok(()) => Ok(String::from_str(alloc, "end")?),
        Err(Cut { have }) => Ok(format!(in alloc; "cut {have}")?),
    }
}

/// The words for how a stream ends: its fault, and the bytes in hand.
fn ending(alloc: Global, reader: &mut FrameReader, end: Result<(), FrameFault>) -> Answer {
    let have = in_hand(alloc, reader)?;
    let Err(fault) = end else {
        return Ok(have);
    };
    let words = fault_words(alloc, fault)?;
    if stays_at(reader, fault) {
        Ok(format!(in alloc; "{words} {have}")?)
    } else {
        Ok(format!(in alloc; "{words} {have}, and no longer then")?)
    }
}

/// What a stream gives that comes in these pieces: its texts, how it ends, and their frames.
fn given_by(alloc: Global, pieces: &[&[u8]]) -> Result<Texts, NoMemory> {
    let mut reader = FrameReader::new(alloc, LIMIT);
    let mut texts = Texts {
        words: String::new(alloc),
        frames: Vec::new(alloc),
    };
    let mut end = Ok(());
    for piece in pieces {
        if end.is_ok() {
            end = feed(alloc, &mut reader, piece, &mut texts);
        }
    }
    let words = ending(alloc, &mut reader, end)?;
    texts.words.push_str(words.as_str())?;
    Ok(texts)
}

/// Whether a stream gives the same where it is cut in two at a place.
fn same_cut_at(alloc: Global, stream: &[u8], cut: usize, whole: &Texts) -> Result<bool, NoMemory> {
    let front = stream.get(..cut).unwrap_or(&[]);
    let back = stream.get(cut..).unwrap_or(&[]);
    let texts = given_by(alloc, &[front, back])?;
    Ok(
        texts.words.as_str() == whole.words.as_str()
            && texts.frames.as_slice() == whole.frames.as_slice(),
    )
}

/// Whether a stream gives the same at each cut in two; a long one at some.
fn same_in_two(alloc: Global, stream: &[u8], whole: &Texts) -> Result<bool, NoMemory> {
    if stream.len() > SHORT {
        for cut in CUTS {
            if !same_cut_at(alloc, stream, cut, whole)? {
                return Ok(false);
            }
        }
        return Ok(true);
    }
    for cut in 0..stream.len() {
        if !same_cut_at(alloc, stream, cut, whole)? {
            return Ok(false);
        }
    }
    Ok(true)
}

/// Whether a stream gives the same byte by byte.
fn same_bytewise(alloc: Global, stream: &[u8], whole: &Texts) -> Result<bool, NoMemory> {
    let mut pieces: Vec<&[u8]> = Vec::new(alloc);
    for piece in stream.chunks(1) {
        pieces.push(piece)?;
    }
    let texts = given_by(alloc, &pieces)?;
    Ok(
        texts.words.as_str() == whole.words.as_str()
            && texts.frames.as_slice() == whole.frames.as_slice(),
    )
}

/// The texts of a stream, and how it ends: whole, at each cut in two, and byte by byte. The frames of the texts are the
/// front of the stream again.
pub fn frames(alloc: Global, stream: &[u8]) -> Answer {
    let whole = given_by(alloc, &[stream])?;
    let mut answer = String::from_str(alloc, whole.words.as_str())?;
    if !same_in_two(alloc, stream, &whole)? {
        answer.push_str(", otherwise in two pieces")?;
    }
    if !same_bytewise(alloc, stream, &whole)? {
        answer.push_str(", otherwise byte by byte")?;
    }
    if !stream.starts_with(&whole.frames) {
        answer.push_str(", and other frames")?;
    }
    Ok(answer)
}
