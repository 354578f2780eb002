//! The broker over tables: it keeps the journal, and what each call asks of it in tables that tell the journal.
#![tactic(auto)]

mod answers;
mod broker;
mod channels;
mod host_view;
mod hosting;
mod native;
mod reading;
mod requests;

pub use broker::Broker;
pub use host_view::HostView;
