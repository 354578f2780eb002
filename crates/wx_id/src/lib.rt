//! Names, numbers and events that every layer of the messaging broker speaks of.
#![tactic(auto)]

mod contexts;
mod events;
mod extension;
mod host_name;
mod numbers;
mod texts;

pub use contexts::{is_among, take_out};
pub use events::{End, Event, EventKind};
pub use extension::{BadId, ExtensionId};
pub use host_name::{HostName, HostNameFault, is_word_byte};
pub use numbers::{ChannelNo, ContextNo, EntryNo, FrameId, HostNo, RequestNo, TabId};
pub use texts::{NoMemory, Utf8Text};
