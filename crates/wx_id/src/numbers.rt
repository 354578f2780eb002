//! The numbers of contexts, channels, requests, hosts, entries, tabs and frames.
/// The number of a context, from 0 in the order of entering.
#[derive(Clone, Copy, Debug, PartialEq, Eq, Hash)]
pub struct ContextNo(pub u64);

/// The number of a channel, from 0 in the order of opening.
#[derive(Clone, Copy, Debug, PartialEq, Eq, Hash)]
pub struct ChannelNo(pub u64);

/// The number of a request, from 0 in the order of asking.
#[derive(Clone, Copy, Debug, PartialEq, Eq, Hash)]
pub struct RequestNo(pub u64);

/// The number of a native host, from 0 in the order of starting.
#[derive(Clone, Copy, Debug, PartialEq, Eq, Hash)]
pub struct HostNo(pub u64);

/// The number of an entry of a journal: its place, from 0.
#[derive(Clone, Copy, Debug, PartialEq, Eq, Hash)]
pub struct EntryNo(pub u64);

/// The id of a browser tab (WebExtensions `tabs.Tab.id`).
#[derive(Clone, Copy, Debug, PartialEq, Eq, Hash)]
pub struct TabId(pub u32);

/// The id of a frame within its tab; 0 is the top frame (WebExtensions `frameId`).
#[derive(Clone, Copy, Debug, PartialEq, Eq, Hash)]
pub struct FrameId(pub u32);
