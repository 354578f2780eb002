//! The tests of scenes, their scripts, and the endpoints that go through them, by public calls: tables of rows, each
//! walked in one loop.
#![tactic(auto)]

#[cfg(test)]
mod endpoints;
#[cfg(test)]
mod faults;
#[cfg(test)]
mod quiet_desk;
#[cfg(test)]
mod scenes;

#[cfg(test)]
use std::alloc::{AllocError, Global};
#[cfg(test)]
use wx_script::Scene;

/// The head line, an extension, and so many of its pages.
#[cfg(test)]
fn pages(alloc: Global, count: u64) -> Result<String, AllocError> {
    let mut text = String::from_str(
        alloc,
        "wx scene 1 chrome\nextension x aaaaaaaaaaaaaaaaaaaaaaaaaaaaaaaa\n",
    )?;
    for i in 0..count {
        text.push_str(&format!(in alloc; "page p{i} x /p\n")?)?;
    }
    Ok(text)
}

/// Ends the scene: the drops of its parts are proved once, here.
#[cfg(test)]
fn end(_scene: Scene) {}

/// Is compiled where values of the type may cross threads.
#[cfg(test)]
fn crosses_threads<T: Send + Sync>() {}
