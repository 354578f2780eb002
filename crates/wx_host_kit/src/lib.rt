//! The host's side of native messaging: the program that a browser starts reads frames and writes replies.
#![tactic(auto)]

mod handler;
mod host_call;
mod laws;
#[cfg(test)]
mod rows;
mod serve;
mod streams;

pub use handler::{Echo, Handler};
pub use host_call::{is_host_call, wx_as_host};
pub use laws::{echo_law, one_end};
pub use serve::serve_kit;
pub use streams::{StreamInput, StreamOutput};
pub use wx_host_launch::{Failed, HostIn, HostOut};
pub use wx_id::NoMemory;
use wx_json::JsonFault;
pub use wx_json::JsonText;

/// Why a host's side ends.
#[derive(Clone, Copy, Debug, PartialEq, Eq)]
pub enum KitEnd {
    /// The input has ended behind a frame, and all of them were answered.
    Exited,
    /// A length is over the limit.
    TooLong { len: u32 },
    /// A text is no JSON text. The place is counted in the text.
    BadJson(JsonFault),
    /// The input has ended within a frame, of which there are so many bytes.
    Cut { have: u64 },
    /// A reply has so many bytes, more than a host may send; nothing of it was written.
    ReplyTooLong { len: u64 },
    /// A read failed.
    ReadFailed,
    /// A write failed; a part of a reply's frame may have been written.
    WriteFailed,
    /// Memory was refused.
    NoMemory,
}
