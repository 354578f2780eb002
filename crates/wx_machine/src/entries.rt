//! Calls, their answers, and entries, which hold both.
use wx_context::{Context, Listens, Target};
use wx_external::Rule;
use wx_id::{ChannelNo, ContextNo, EntryNo, Event, HostNo, RequestNo, Utf8Text};
use wx_json::{JsonKind, JsonText};

/// The longest text that is passed on, in bytes.
pub const LONGEST: u64 = 67_108_864;

/// The longest text that a native host may write, in bytes (Chrome's "Native messaging").
pub const LONGEST_SAID: u64 = 1_048_576;

/// Who makes a call.
#[derive(Clone, Copy, Debug, PartialEq, Eq)]
pub enum Who {
    /// The context with this number.
    Context(ContextNo),
    /// The native host with this number.
    Host(HostNo),
}

/// Why a native host ended.
#[derive(Clone, Copy, Debug, PartialEq, Eq)]
pub enum Reason {
    /// Its program could not be started.
    StartFailed,
    /// What it writes could not be read.
    ReadFailed,
    /// What is for it could not be written.
    WriteFailed,
    /// It wrote a frame that announces `len` bytes, which are too many.
    TooLong { len: u32 },
    /// It wrote a frame whose text is no JSON text, by the fault at this place of the text.
    BadJson { place: u64, kind: JsonKind },
    /// It stopped writing within a frame, `have` bytes after the frame's beginning.
    Cut { have: u64 },
    /// It stopped writing after a whole frame.
    Exited,
    /// Its channel was closed when it last said something.
    Closed,
}

/// A call of the broker.
#[derive(Debug, Drop)]
pub enum Call {
    /// A context comes in.
    Enter(Context),
    /// The caller says what it listens to.
    Listen(Listens),
    /// The caller leaves.
    Leave,
    /// The caller opens a channel to a target, with a port name (`runtime.connect`).
    Connect(Target, Utf8Text),
    /// The caller posts a message on a channel (`Port.postMessage`).
    Post(ChannelNo, JsonText),
    /// The caller closes a channel (`Port.disconnect`).
    Disconnect(ChannelNo),
    /// The caller sends a message to a target, and asks for one reply (`runtime.sendMessage`).
    Send(Target, JsonText),
    /// The caller replies to a request that was sent to it (`sendResponse` of `runtime.onMessage`).
    Reply(RequestNo, JsonText),
    /// The caller says that it will not reply to a request.
    Decline(RequestNo),
    /// The caller takes the first event that is pending for it.
    Take,
    /// The caller starts the native host of that name, on a channel (`runtime.connectNative`).
    ConnectNative(Utf8Text),
    /// The caller starts the native host of that name, for one message and its reply (`runtime.sendNativeMessage`).
    SendNative(Utf8Text, JsonText),
    /// The host takes the next text for it.
    HostTake,
    /// The host wrote a message.
    HostSaid(JsonText),
    /// The host ended.
    HostEnded(Reason),
}

/// The broker's answer to a call.
#[derive(Clone, Copy, Debug, PartialEq, Eq)]
pub enum Answer {
    /// The number of the context that came in.
    Entered(ContextNo),
    /// The number of the channel that was opened.
    Channel(ChannelNo),
    /// The number of the request that was made.
    Request(RequestNo),
    /// The event that was taken.
    Event(Event),
    /// The call was made.
    Done,
    /// The caller does not live.
    Gone,
    /// Contexts of the caller's sort have no such target.
    BadTarget,
    /// The target's extension does not let the caller in, by this rule.
    Forbidden(Rule),
    /// No context that the target names listens.
    NoReceiver,
    /// The message goes to the other side.
    Posted,
    /// The caller is no end of that channel.
    NoPort,
    /// The channel is closed.
    PortClosed,
    /// The text has more than 67,108,864 bytes.
    TooLong,
    /// The channel was closed before.
    NoEffect,
    /// The reply is the request's first, and goes to the asker.
    First,
    /// The request is settled, or the caller declined it before.
    Late,
    /// The request was not sent to the caller.
    NotYours,
    /// Nothing is pending, or no text is there for the host yet.
    Empty,
    /// The text for the host stands in this entry.
    Text(EntryNo),
    /// The caller's extension lacks the permission `nativeMessaging`.
    NoPermission,
    /// The name is no host name.
    BadHostName,
    /// No host of that name is installed.
    HostNotFound,
    /// The host does not list the caller's extension in `allowed_origins`.
    HostForbidden,
    /// No text comes for the host any more.
    End,
    /// The host's message goes to the opener or the asker.
    Passed,
    /// The host's request is settled.
    Ignored,
    /// The host ended before.
    Already,
}

/// A call, who made it, and its answer.
#[derive(Debug, Drop)]
pub struct Entry {
    /// Who made the call.
    pub who: Who,
    /// The call.
    pub call: Call,
    /// What it was answered.
    pub answer: Answer,
}
