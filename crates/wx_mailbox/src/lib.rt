//! The mailbox of one context: its events in order, with room that is kept for what may still come. A call that tells
//! of an end takes no memory, since the place was taken when the channel was opened or the request asked.
#![tactic(auto)]

mod mailbox;
pub mod mailboxes;
#[cfg(test)]
mod tests;

pub use mailbox::Mailbox;
