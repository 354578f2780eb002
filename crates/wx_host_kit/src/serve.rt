//! Serving: frames are read, and the reply to each is written before more is read.
ghost use Rattle.std.specs.Prelude.{◌≡◌, ◌++◌, ◌≤◌, ◌<◌, List, ℕ, [], Some, IfOk, MatchOption};
ghost use Rattle.wx_native_frame.specs.Frames.{IsUnderWay};
ghost use Rattle.wx_host_launch.specs.Pipes.{OutState, InState};
ghost use Rattle.wx_host_kit.specs.Kit.{Reply, HasEnded, IsKitEnd, IsServed, longest_read};
ghost use Rattle.wx_host_kit.specs.Serving.{end_of_fault, Replied, IsServing, IsOver, Goes, Comes, ReadsOn};

use crate::KitEnd;
use crate::handler::Handler;
use std::alloc::Global;
use std::sync::Wait;
use wx_host_launch::{Failed, HostIn, HostOut};
use wx_id::NoMemory;
use wx_json::JsonText;
use wx_native_frame::{FrameFault, FrameReader, Step, frame_into};

/// The most bytes of a text that is read.
const LONGEST_READ: u32 = 67_108_864;

/// The most bytes of a reply.
const LONGEST_REPLY: u64 = 1_048_576;

/// How many bytes are read at once, at most.
const PIECE: usize = 65_536;

/// What a step within a piece comes to.
enum Went {
    /// A frame was answered, with which so many bytes were used.
    Used(usize),
    /// All of the piece was used, and a frame is under way.
    All,
    /// The kit ends.
    Ended(KitEnd),
}

/// The handler's reply to a text.
fn ask(handler: &mut Box<dyn Handler>, text: &JsonText) -> Result<Option<JsonText>, NoMemory>
    ensures exact { IfOk result (λ found. found ≡ reply handler.old text.now) }
    ensures same { reply handler.new ≡ reply handler.old }
{
    handler.answer(text)
}

/// Writes the frame of a reply whole, where it is not too long.
fn send<O: HostIn>(output: &mut O, text: &JsonText, frame: &mut Vec<u8>) -> Option<KitEnd>
    ensures replied { (reply : Reply) (asked : List ℕ) → reply asked ≡ Some text.now →
        Replied reply asked (O.state output.old) (O.state output.new) result }
    ensures later { (O.state output.old).faults ≤ (O.state output.new).faults }
{
    let len = text.len();
    if len > LONGEST_REPLY {
        return Some(KitEnd::ReplyTooLong { len });
    }
    let _bytes = text.bytes();
    frame.clear();
    if frame_into(text, frame).is_err() {
        return Some(KitEnd::NoMemory);
    }
    match output.write(frame) {
        Ok(()) => None,
        Err(Failed) => Some(KitEnd::WriteFailed),
    }
}

/// Answers a text: the handler's reply is written, where there is one.
fn answer<O: HostIn>(
    handler: &mut Box<dyn Handler>,
    text: &JsonText,
    output: &mut O,
    frame: &mut Vec<u8>,
) -> Option<KitEnd>
    ensures replied { Replied (reply handler.old) text.now (O.state output.old) (O.state output.new) result }
    ensures later { (O.state output.old).faults ≤ (O.state output.new).faults }
    ensures same { reply handler.new ≡ reply handler.old }
{
    match ask(handler, text) {
        Ok(Some(found)) => send(output, &found, frame),
        Ok(None) => None,
        Err(NoMemory) => Some(KitEnd::NoMemory),
    }
}

/// The end that a fault is.
fn end_of_fault(fault: FrameFault) -> KitEnd
    ensures { result ≡ end_of_fault fault }
{
    match fault {
        FrameFault::TooLong { len } => KitEnd::TooLong { len },
        FrameFault::BadJson(found) => KitEnd::BadJson(found),
        FrameFault::NoMemory => KitEnd::NoMemory,
    }
}

/// The end where the input has ended.
fn end_of_input(reader: &FrameReader) -> KitEnd
    requires { IsUnderWay reader.now.bytes longest_read }
    ensures { (reply : Reply) (old new : OutState) (before now : InState) → HasEnded new →
        IsKitEnd reply reader.now.bytes [] old new before now result }
{
    match reader.finish() {
        Ok(()) => KitEnd::Exited,
        Err(cut) => KitEnd::Cut { have: cut.have },
    }
}

/// Reads the piece up to the end of a frame, which it answers.
fn step_in<O: HostIn>(
    handler: &mut Box<dyn Handler>,
    reader: &mut FrameReader,
    piece: &[u8],
    output: &mut O,
    frame: &mut Vec<u8>,
) -> Went
    requires limit { reader.old.limit ≡ longest_read }
    requires under_way { IsUnderWay reader.old.bytes longest_read }
    ensures limit { reader.new.limit ≡ longest_read }
    ensures goes { Goes piece.now reader.new.bytes result }
    ensures came { (bytes : List ℕ) (before : InState) →
        IsServing (reply handler.old) bytes (reader.old.bytes ++ piece.now) before (O.state output.old) →
        Comes (reply handler.old) bytes piece.now reader.new.bytes before (O.state output.new) result }
    ensures same { reply handler.new ≡ reply handler.old }
{
    match reader.step(piece) {
        Ok(Step { used, frame: found }) => match found {
            Some(text) => {
                if let Some(end) = answer(handler, &text, output, frame) {
                    return Went::Ended(end);
                }
                reader.take_back(text);
                Went::Used(used)
            }
            None => Went::All,
        },
        Err(fault) => Went::Ended(end_of_fault(fault)),
    }
}

/// Answers the frames that end in the piece.
fn answer_piece<O: HostIn>(
    handler: &mut Box<dyn Handler>,
    reader: &mut FrameReader,
    piece: &[u8],
    output: &mut O,
    frame: &mut Vec<u8>,
) -> Option<KitEnd>
    requires limit { reader.old.limit ≡ longest_read }
    requires under_way { IsUnderWay reader.old.bytes longest_read }
    ensures limit { reader.new.limit ≡ longest_read }
    ensures came { (bytes : List ℕ) (before : InState) →
        IsServing (reply handler.old) bytes (reader.old.bytes ++ piece.now) before (O.state output.old) →
        MatchOption result
        (IsUnderWay reader.new.bytes longest_read
        × IsServing (reply handler.old) bytes reader.new.bytes before (O.state output.new))
        (λ end. (old new : OutState) → IsOver (reply handler.old) bytes old new before (O.state output.new) end) }
    ensures same { reply handler.new ≡ reply handler.old }
{
    let mut at = 0;
    while at < piece.len() {
        let (_, rest) = piece.split_at(at);
        match step_in(handler, reader, rest, output, frame) {
            Went::Used(used) => at += used,
            Went::All => return None,
            Went::Ended(end) => return Some(end),
        }
    }
    None
}

/// Reads once, and answers the frames that end in what came.
fn serve_once<I: HostOut, O: HostIn>(
    handler: &mut Box<dyn Handler>,
    reader: &mut FrameReader,
    input: &mut I,
    output: &mut O,
    frame: &mut Vec<u8>,
) -> Option<KitEnd>
    requires limit { reader.old.limit ≡ longest_read }
    requires under_way { IsUnderWay reader.old.bytes longest_read }
    ensures came { (old : OutState) (before : InState) →
        ReadsOn (reply handler.old) reader.old old (I.state input.old) before (O.state output.old) →
        MatchOption result
        (ReadsOn (reply handler.old) reader.new old (I.state input.new) before (O.state output.new))
        (IsServed (reply handler.old) old (I.state input.new) before (O.state output.new)) }
    ensures limit { reader.new.limit ≡ longest_read }
    ensures same { reply handler.new ≡ reply handler.old }
{
    let mut room = [0u8; PIECE];
    match input.read(&mut room) {
        Ok(0) => Some(end_of_input(reader)),
        Ok(count) => answer_piece(handler, reader, &room[..count], output, frame),
        Err(Failed) => Some(KitEnd::ReadFailed),
    }
}

/// Reads frames, and writes the handler's reply to each before it reads past the piece that ended it, until the input
/// ends, a frame or a reply is at fault, or a read or a write fails. It waits for its input.
pub fn serve_kit<R: Wait, I: HostOut, O: HostIn>(
    rt: &R,
    alloc: Global,
    handler: &mut Box<dyn Handler>,
    input: &mut I,
    output: &mut O,
) -> KitEnd
    ensures { IsServed (reply handler.old) (I.state input.old) (I.state input.new)
        (O.state output.old) (O.state output.new) result }
{
    let mut reader = FrameReader::new(alloc, LONGEST_READ);
    let mut frame = Vec::new(alloc);
    for _ in rt.forever() {
        if let Some(end) = serve_once(handler, &mut reader, input, output, &mut frame) {
            return end;
        }
    }
    unreachable!()
}
