//! Tests of the command layer that ask for more than a status and texts: what words are read as, the values of statuses
//! and of worlds, the lines of every refusal, and that the types cross threads. The rows of whole calls stand as text
//! in `wx_rows`.
#![tactic(auto)]

#[cfg(test)]
mod calls;
#[cfg(test)]
mod helpers;
#[cfg(test)]
mod lines;
#[cfg(test)]
mod words;
#[cfg(test)]
mod world;
