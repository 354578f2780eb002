//! Contexts that make calls: pages of extensions, content scripts and web pages; whom a call is for, and what its
//! receiver is told of its sender.
#![tactic(auto)]

mod contexts;
mod paths;
mod senders;
mod urls;

pub use contexts::{Context, Listens, Target};
pub use paths::{PagePath, PathFault, are_printable, is_page_path};
pub use senders::Sender;
pub use urls::{UrlFault, WebUrl};
