//! The journal: every call with its answer.
#![tactic(auto)]

mod list;

pub use list::Journal;
pub use wx_journal_read::{JournalFault, JournalKind, JournalReadFault};
pub use wx_machine::{Answer, Call, Entry, JsonText, Who};
pub use wx_reports::{PortReport, RequestReport, Settled};
