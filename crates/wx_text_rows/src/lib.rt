//! The tests of the crates of texts that are no rows of text in `wx_line_rows`: a reader or a check from step to step,
//! files and sinks, and what may cross threads.
#![tactic(auto)]

#[cfg(test)]
mod frames;
#[cfg(test)]
mod ids;
#[cfg(test)]
mod json;
#[cfg(test)]
mod outside;
#[cfg(test)]
mod threads;
