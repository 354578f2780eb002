//! Who may reach whom in a scene, and by which rule, whoever listens: the table of reach.
#![tactic(auto)]

mod caller;
mod laws;
mod lines;
mod reach;
mod table;
mod tabs;
#[cfg(test)]
mod tests;
mod verdicts;

pub use laws::{
    from_outside_table, hosts_are_found, native_table, receives_where_named, tabs_rise,
};
pub use table::who;
