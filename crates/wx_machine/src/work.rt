//! What a native host works for.
use wx_id::{ChannelNo, RequestNo};

/// What a native host works for.
#[derive(Clone, Copy, Debug, PartialEq, Eq)]
pub enum Work {
    /// The channel that `connect_native` opened.
    Channel(ChannelNo),
    /// The request that `send_native` made.
    Request(RequestNo),
}
