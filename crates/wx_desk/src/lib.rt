//! A desk: where a context or a native host makes its calls. Here is what each desk tells of the journal, and the desk
//! over a broker that nobody else has.
#![tactic(auto)]

mod broker_desk;

pub use broker_desk::BrokerDesk;
