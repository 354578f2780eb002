//! A native host with a handler of one's own: to `{"op":"ping"}` it replies `{"op":"pong"}`, and to other messages
//! not at all.
#![tactic(auto)]

use std::alloc::Global;
use std::process::ExitCode;
use wx_host_kit::{Handler, JsonText, KitEnd, NoMemory, StreamInput, StreamOutput, serve_kit};

const PING: &[u8] = br#"{"op":"ping"}"#;

const PONG: &[u8] = br#"{"op":"pong"}"#;

/// Replies to a ping with the text that it holds.
#[derive(Drop)]
struct Answers {
    pong: JsonText,
}

impl Handler for Answers {
    ghost use Rattle.std.specs.Prelude.{Some, None, if◌then◌else◌, codes};
    ghost use Rattle.std.specs.Str.{bytes_eq};

    ghost reply = { λ answers text. if bytes_eq text (codes "{\"op\":\"ping\"}") then Some answers.pong else None };

    fn answer(&mut self, text: &JsonText) -> Result<Option<JsonText>, NoMemory> {
        if text.bytes() != PING {
            return Ok(None);
        }
        Ok(Some(self.pong.try_clone()?))
    }
}

/// The handler; none where memory was refused.
fn handler(alloc: Global) -> Option<Answers> {
    let pong = JsonText::new(Vec::from_slice(alloc, PONG).ok()?).ok()?;
    Some(Answers { pong })
}

fn main(rt: HostRuntime) -> ExitCode {
    let alloc = rt.alloc();
    let boxed = match handler(alloc) {
        Some(answers) => Box::new(alloc, answers).ok(),
        None => None,
    };
    let Some(boxed) = boxed else {
        return ExitCode::from(KitEnd::NoMemory.status());
    };
    let mut handler: Box<dyn Handler> = boxed;
    let mut input = StreamInput::new(rt.reader());
    let mut output = StreamOutput::new(rt.stdout());
    ExitCode::from(serve_kit(&rt, alloc, &mut handler, &mut input, &mut output).status())
}
