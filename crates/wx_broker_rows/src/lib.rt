//! The tests of the machine and the broker, over the public calls of their crates: tables of rows, each walked in one
//! loop.
#![tactic(auto)]

#[cfg(test)]
mod calls;
#[cfg(test)]
mod host_plays;
#[cfg(test)]
mod journal_texts;
#[cfg(test)]
mod journals;
#[cfg(test)]
mod plays;
#[cfg(test)]
mod ports;
#[cfg(test)]
mod reports;
#[cfg(test)]
mod requests;
#[cfg(test)]
mod threads;
#[cfg(test)]
mod values;
