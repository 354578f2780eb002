//! The program as a host that a browser starts: the words by which it is one, its run and its status.
ghost use Rattle.std.specs.Prelude.{◌≡◌, map, string_bytes};
ghost use Rattle.wx_host_manifest.specs.Origins.{caller_of};
ghost use Rattle.wx_host_kit.specs.Calls.{is_host_call, host_status};
ghost use Rattle.wx_host_kit.specs.Kit.{IsServed};

use crate::KitEnd;
use crate::handler::Handler;
use crate::serve::serve_kit;
use std::alloc::Global;
use std::sync::Wait;
use wx_host_launch::{HostIn, HostOut};
use wx_id::ExtensionId;

const SCHEME: &str = "chrome-extension://";

/// Whose origin the word is: `chrome-extension://ID/` is that of the extension ID.
fn caller_of(word: &str) -> Option<ExtensionId>
    ensures { result ≡ caller_of word.now }
{
    let Some(rest) = word.as_bytes().strip_prefix(SCHEME.as_bytes()) else {
        return None;
    };
    let Some(id) = rest.strip_suffix(b"/") else {
        return None;
    };
    match ExtensionId::read(id) {
        Ok(id) => Some(id),
        Err(_) => None,
    }
}

/// Whether these are the words by which a browser starts a host: the first is an extension's origin.
pub fn is_host_call(words: &[String]) -> bool
    ensures { result ≡ is_host_call (map string_bytes words.now) }
{
    match words.first() {
        Some(word) => caller_of(word.as_str()).is_some(),
        None => false,
    }
}

/// Serves as a host that a browser started, with this handler over these two ends.
pub fn wx_as_host<R: Wait, I: HostOut, O: HostIn>(
    rt: &R,
    alloc: Global,
    handler: &mut Box<dyn Handler>,
    input: &mut I,
    output: &mut O,
) -> KitEnd
    ensures { IsServed (reply handler.old) (I.state input.old) (I.state input.new)
        (O.state output.old) (O.state output.new) result }
{
    serve_kit(rt, alloc, handler, input, output)
}

impl KitEnd {
    /// The status with which a host's program ends.
    pub fn status(self) -> u8
        ensures { result ≡ host_status self }
    {
        match self {
            KitEnd::Exited => 0,
            KitEnd::ReadFailed => 3,
            KitEnd::TooLong { .. }
            | KitEnd::BadJson(_)
            | KitEnd::Cut { .. }
            | KitEnd::ReplyTooLong { .. } => 4,
            KitEnd::WriteFailed => 6,
            KitEnd::NoMemory => 7,
        }
    }
}
