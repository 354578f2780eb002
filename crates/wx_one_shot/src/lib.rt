//! One-shot requests by number: who asked, whom, who may still reply, and which are settled (WebExtensions
//! `runtime.sendMessage` and `runtime.onMessage`).
#![tactic(auto)]

mod requests;

pub use requests::{Requests, Standing};
