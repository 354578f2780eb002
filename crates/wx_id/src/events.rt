//! What events tell contexts, and what a context is to a channel.
use crate::numbers::{ChannelNo, EntryNo, RequestNo};

/// What an event tells the context that takes it.
#[derive(Clone, Copy, Debug, PartialEq, Eq)]
pub enum EventKind {
    /// A channel was opened to it (`runtime.onConnect`).
    Connected(ChannelNo),
    /// A message was posted to it (`Port.onMessage`).
    Message(ChannelNo),
    /// The other side closed the channel (`Port.onDisconnect`).
    Disconnected(ChannelNo),
    /// A request was sent to it (`runtime.onMessage`).
    Asked(RequestNo),
    /// The first reply to its request (what `runtime.sendMessage` resolves to).
    Replied(RequestNo),
    /// Its request is settled without a reply.
    Closed(RequestNo),
}

/// An event of a context, with the entry that delivered it.
#[derive(Clone, Copy, Debug, PartialEq, Eq)]
pub struct Event {
    pub entry: EntryNo,
    pub kind: EventKind,
}

/// What a context is to a channel.
#[derive(Clone, Copy, Debug, PartialEq, Eq)]
pub enum End {
    /// It opened the channel.
    Opener,
    /// The channel was opened to it.
    Receiver,
    /// It has no part in the channel.
    Neither,
}
