//! Tests that cross the two sides of native messaging: scenes run through the program's top call, over a host in memory
//! that writes what the host's kit wrote, and what their journals then tell of the channel.
#![tactic(auto)]

#[cfg(test)]
mod crossing;
