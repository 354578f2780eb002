//! The reader of frames that come in pieces.
ghost use Rattle.std.specs.Prelude.{◌≡◌, ℕ, ◌+◌, ◌<◌, ◌≤◌, ◌^◌, List, [], ◌++◌, length, take, OnOk};
ghost use Rattle.std.specs.Prelude.{IfErr, IfOk, IfSome, IfNone, MatchOption, MatchResult};
ghost use Rattle.wx_native_frame.specs.Frames.{told_length, frame, IsTrouble, IsTroubleFirst};
ghost use Rattle.wx_native_frame.specs.Frames.{IsUnderWay, EndsFrame, StopsAt};
ghost use Rattle.wx_native_frame.specs.declared.FrameFault.{FrameFault};

use crate::head::Head;
use crate::text::{empty_text, read_on, take_whole, text_of};
use crate::{Cut, FrameFault, Step};
use std::alloc::Global;
use std::marker::Model;
use wx_json::{JsonCheck, JsonFault, JsonKind, JsonText};

/// Reads frames from bytes that come in pieces, and checks their texts on the way. After a fault other than want of
/// memory each later step answers that fault.
#[derive(Drop)]
pub struct FrameReader {
    alloc: Global,
    limit: u32,
    head: Head,
    text: Vec<u8>,
    check: JsonCheck,
    fault: Option<FrameFault>,
    spare: Vec<u8>,
}

impl Model for FrameReader {
    ghost use Rattle.wx_native_frame.specs.Frames.{Unfinished};

    ghost Value = { Unfinished };

    ghost use Rattle.wx_native_frame.specs.Reader.{unfinished_of, IsSound};

    ghost view = { unfinished_of };

    ghost invariant = { IsSound };
}

impl FrameReader {
    /// A reader of frames whose texts have at most `limit` bytes.
    pub fn new(alloc: Global, limit: u32) -> FrameReader
        ensures limit { result.limit ≡ limit }
        ensures bytes { result.bytes ≡ [] }
    {
        FrameReader {
            alloc,
            limit,
            head: Head::new(),
            text: Vec::new(alloc),
            check: JsonCheck::new(),
            fault: None,
            spare: Vec::new(alloc),
        }
    }

    /// Takes back a text that was handed out, or any other: its memory serves for a later one.
    pub fn take_back(&mut self, text: JsonText)
        ensures { self.new ≡ self.old }
    {
        self.spare = text.into_bytes();
    }

    /// Whether the bytes used end where a frame does. After a fault they don't.
    pub fn finish(&self) -> Result<(), Cut>
        ensures { MatchResult result (λ _. self.now.bytes ≡ [])
            (λ cut. (0 < cut.have) × (cut.have ≡ length self.now.bytes)) }
    {
        let have = self.head.len() as u64 + self.text.len() as u64;
        if have == 0 { Ok(()) } else { Err(Cut { have }) }
    }

    /// How many bytes are missing of the four of the length or, after these, of the text; 0 after a fault.
    pub fn wanted(&self) -> u32
        ensures head { length self.now.bytes < 4 → result + length self.now.bytes ≡ 4 }
        ensures text { 4 ≤ length self.now.bytes → IsUnderWay self.now.bytes self.now.limit →
            result + length self.now.bytes ≡ 4 + told_length self.now.bytes }
        ensures fault { (f : FrameFault) → IsTrouble self.now.bytes self.now.limit f → result ≡ 0 }
        ensures zero { result ≡ 0 → (f : FrameFault) × IsTrouble self.now.bytes self.now.limit f }
        ensures under_way { 0 < result → IsUnderWay self.now.bytes self.now.limit }
        ensures first { IsTroubleFirst self.now.bytes self.now.limit }
    {
        if self.fault.is_some() {
            return 0;
        }
        let have = self.head.len();
        if have < 4 {
            return (4 - have) as u32;
        }
        self.head.length() - self.text.len() as u32
    }

    /// Uses the bytes of the piece up to the end of the first frame that ends in them, or to the first that brings
    /// trouble, or all. Without memory for the text it uses none; it takes memory only where the length is read.
    pub fn step(&mut self, piece: &[u8]) -> Result<Step, FrameFault>
        ensures limit { self.new.limit ≡ self.old.limit }
        ensures frame { IfOk result (λ s. IfSome s.frame (λ t.
            EndsFrame self.old.limit self.old.bytes piece.now s.used t × (self.new.bytes ≡ []))) }
        ensures whole { IfOk result (λ s. IfNone s.frame ((s.used ≡ length piece.now)
            × (self.new.bytes ≡ self.old.bytes ++ piece.now) × IsUnderWay self.new.bytes self.new.limit)) }
        ensures fault { IfErr result (λ f. (f ≡ FrameFault.NoMemory → ⊥) →
            StopsAt self.old.limit self.old.bytes piece.now f self.new.bytes) }
        ensures memory { result ≡ Err FrameFault.NoMemory → self.new ≡ self.old }
        ensures length { result ≡ Err FrameFault.NoMemory →
            (length self.old.bytes < 4) × (4 ≤ length self.old.bytes + length piece.now) }
    {
        if let Some(text) = self.whole_frame(piece) {
            return Ok(Step {
                used: 4 + text.len() as usize,
                frame: Some(text),
            });
        }
        if self.head.len() < 4 {
            self.step_in_head(piece)
        } else {
            self.step_in_text(piece)
        }
    }

    /// The text of a frame that stands whole in front of the piece, where none is under way. Where that is at fault, or
    /// there is no memory for it, nothing is answered here.
    fn whole_frame(&mut self, piece: &[u8]) -> Option<JsonText>
        ensures kept { self.new ≡ self.old }
        ensures frame { IfSome result (λ t. (self.old.bytes ≡ [])
            × EndsFrame self.old.limit [] piece.now (4 + length t) t) }
    {
        if self.head.len() > 0 {
            return None;
        }
        let text = framed(piece, self.limit)?;
        text_of(self.alloc, &mut self.check, &mut self.spare, text)
    }

    fn step_in_head(&mut self, piece: &[u8]) -> Result<Step, FrameFault>
        requires { length self.old.bytes < 4 }
        ensures limit { self.new.limit ≡ self.old.limit }
        ensures frame { IfOk result (λ s. IfSome s.frame (λ t.
            EndsFrame self.old.limit self.old.bytes piece.now s.used t × (self.new.bytes ≡ []))) }
        ensures whole { IfOk result (λ s. IfNone s.frame ((s.used ≡ length piece.now)
            × (self.new.bytes ≡ self.old.bytes ++ piece.now) × IsUnderWay self.new.bytes self.new.limit)) }
        ensures fault { IfErr result (λ f. (f ≡ FrameFault.NoMemory → ⊥) →
            StopsAt self.old.limit self.old.bytes piece.now f self.new.bytes) }
        ensures memory { result ≡ Err FrameFault.NoMemory → self.new ≡ self.old }
        ensures length { result ≡ Err FrameFault.NoMemory → 4 ≤ length self.old.bytes + length piece.now }
    {
        let used = (4 - self.head.len()).min(piece.len());
        let head = self.head.with(&piece[..used]);
        if head.len() < 4 {
            self.head = head;
            return Ok(Step { used, frame: None });
        }
        let len = head.length();
        if let Some(fault) = length_fault(len, self.limit) {
            self.head = head;
            self.fault = Some(fault);
            return Err(fault);
        }
        let Ok(text) = empty_text(self.alloc, &mut self.spare, len as usize) else {
            return Err(FrameFault::NoMemory);
        };
        self.head = head;
        self.text = text;
        self.check.restart();
        let Step { used: more, frame } = self.step_in_text(&piece[used..])?;
        Ok(Step {
            used: used + more,
            frame,
        })
    }

    fn step_in_text(&mut self, piece: &[u8]) -> Result<Step, FrameFault>
        requires { 4 ≤ length self.old.bytes }
        ensures limit { self.new.limit ≡ self.old.limit }
        ensures frame { IfOk result (λ s. IfSome s.frame (λ t.
            EndsFrame self.old.limit self.old.bytes piece.now s.used t × (self.new.bytes ≡ []))) }
        ensures whole { IfOk result (λ s. IfNone s.frame ((s.used ≡ length piece.now)
            × (self.new.bytes ≡ self.old.bytes ++ piece.now) × IsUnderWay self.new.bytes self.new.limit)) }
        ensures fault { IfErr result (λ f. StopsAt self.old.limit self.old.bytes piece.now f self.new.bytes) }
    {
        if let Some(fault) = self.fault {
            return Err(fault);
        }
        let len = self.head.length() as usize;
        let used = (len - self.text.len()).min(piece.len());
        if let Err(found) = read_on(&mut self.text, &mut self.check, &piece[..used]) {
            let fault = FrameFault::BadJson(found);
            self.fault = Some(fault);
            return Err(fault);
        }
        if self.text.len() < len {
            return Ok(Step { used, frame: None });
        }
        match take_whole(self.alloc, &mut self.text, &self.check) {
            Ok(text) => {
                self.head = Head::new();
                Ok(Step {
                    used,
                    frame: Some(text),
                })
            }
            Err(found) => {
                let fault = FrameFault::BadJson(found);
                self.fault = Some(fault);
                Err(fault)
            }
        }
    }
}

/// The bytes of a text whose whole frame stands in front, where its length is within the limit.
fn framed(bytes: &[u8], limit: u32) -> Option<&[u8]>
    ensures { IfSome result (λ text. (length text.now ≤ limit) × (4 + length text.now ≤ length bytes.now)
        × (take (4 + length text.now) bytes.now ≡ frame text.now)) }
{
    if bytes.len() < 4 {
        return None;
    }
    let len = Head::new().with(&bytes[..4]).length();
    if len > limit || len as usize > bytes.len() - 4 {
        return None;
    }
    Some(&bytes[4..4 + len as usize])
}

/// What is wrong with a length: it is over the limit, or no text is so short.
fn length_fault(len: u32, limit: u32) -> Option<FrameFault>
    ensures { MatchOption result ((0 < len) × (len ≤ limit))
        (λ fault. (bytes : List ℕ) → 4 ≤ length bytes → told_length bytes ≡ len → IsTrouble bytes limit fault) }
{
    if len > limit {
        Some(FrameFault::TooLong { len })
    } else if len == 0 {
        Some(FrameFault::BadJson(JsonFault {
            place: 0,
            kind: JsonKind::Ends,
        }))
    } else {
        None
    }
}
