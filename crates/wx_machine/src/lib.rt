//! The messaging machine: calls, answers, entries, and the definitions of what each call is answered.
#![tactic(auto)]

mod entries;
pub mod laws;
mod sorts;
mod work;

pub use entries::{Answer, Call, Entry, LONGEST, LONGEST_SAID, Reason, Who};
pub use sorts::Sort;
pub use work::Work;
pub use wx_json::{JsonKind, JsonText};
