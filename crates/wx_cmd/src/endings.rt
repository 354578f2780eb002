//! The lines by which the end of a run is told.
ghost use Rattle.std.specs.Prelude.{◌≡◌, ◌++◌, IfOk, OnOk, reverse, slice_get, string_bytes};
ghost use Rattle.wx_machine.specs.Contexts.{has_left};
ghost use Rattle.wx_cmd.specs.Endings as endings;

use std::alloc::{AllocError, Global};
use wx_id::{ContextNo, HostNo};
use wx_journal::Journal;
use wx_machine::Entry;
use wx_run::{RunEnd, SpentWho};
use wx_script::{Scene, SceneEndpoint};
use wx_status::Status;
use wx_walks::contexts::has_left;

/// The answer of a run with this end.
pub fn answer_by(end: RunEnd) -> Status
    ensures { result ≡ endings.answer_by end }
{
    match end {
        RunEnd::Done => Status::Done,
        RunEnd::Stalled => Status::Stalled,
        RunEnd::Spent(who) => Status::Spent(who),
    }
}

/// The line of an endpoint that has not ended.
fn stalled_line(alloc: Global, name: &str) -> Result<String, AllocError>
    ensures { IfOk result (λ line. string_bytes line ≡ endings.stalled_line name.now) }
{
    format!(in alloc; "wx: stalled: {name}\n")
}

/// The line of the endpoint that is context c, unless it has left.
fn put_unless_left(
    alloc: Global,
    lines: &mut Vec<u8>,
    entries: &[Entry],
    c: ContextNo,
    name: &str,
) -> Result<(), AllocError>
    ensures { OnOk result (lines.new.items
        ≡ lines.old.items ++ endings.stalled_unless (has_left (reverse entries.now) c) name.now) }
{
    if has_left(entries, c) {
        Ok(())
    } else {
        let line = stalled_line(alloc, name)?;
        lines.extend_from_slice(line.as_bytes())
    }
}

/// The lines of the endpoints that have not ended, in scene order.
fn stalled_lines(
    alloc: Global,
    endpoints: &[SceneEndpoint],
    entries: &[Entry],
) -> Result<Vec<u8>, AllocError>
    ensures { IfOk result (λ lines. lines.items ≡ endings.stalled_from (reverse entries.now) 0 endpoints.now) }
{
    let mut lines = Vec::new(alloc);
    for (n, endpoint) in endpoints.iter().enumerate() {
        put_unless_left(
            alloc,
            &mut lines,
            entries,
            ContextNo(n as u64),
            endpoint.name.as_str(),
        )?;
    }
    Ok(lines)
}

/// The line of an endpoint that is spent.
fn spent_line(alloc: Global, name: &str) -> Result<String, AllocError>
    ensures { IfOk result (λ line. string_bytes line ≡ endings.spent_line name.now) }
{
    format!(in alloc; "wx: spent: {name}\n")
}

/// The line of the endpoint at this place, which is spent.
fn spent_lines(alloc: Global, endpoints: &[SceneEndpoint], n: u64) -> Result<Vec<u8>, AllocError>
    ensures { IfOk result (λ lines. lines.items ≡ endings.spent_lines (slice_get endpoints.now n)) }
{
    match endpoints.get(n as usize) {
        Some(endpoint) => {
            let line = spent_line(alloc, endpoint.name.as_str())?;
            Vec::from_slice(alloc, line.as_bytes())
        }
        None => Ok(Vec::new(alloc)),
    }
}

/// The line of a native host that is spent.
fn spent_host_line(alloc: Global, h: u64) -> Result<String, AllocError>
    ensures { IfOk result (λ line. string_bytes line ≡ endings.spent_host_line h) }
{
    format!(in alloc; "wx: spent: host {h}\n")
}

/// The line of that host, as bytes.
fn spent_host_lines(alloc: Global, h: HostNo) -> Result<Vec<u8>, AllocError>
    ensures { IfOk result (λ lines. lines.items ≡ endings.spent_host_line h.0) }
{
    let line = spent_host_line(alloc, h.0)?;
    Vec::from_slice(alloc, line.as_bytes())
}

/// The lines that tell how a run of the scene ended.
pub fn lines_of_end(
    alloc: Global,
    scene: &Scene,
    journal: &Journal,
    end: RunEnd,
) -> Result<Vec<u8>, AllocError>
    ensures { IfOk result (λ lines. lines.items ≡ endings.lines_of_end scene.now (reverse journal.now.entries) end) }
{
    match end {
        RunEnd::Done => Ok(Vec::new(alloc)),
        RunEnd::Stalled => stalled_lines(alloc, scene.endpoints(), journal.entries()),
        RunEnd::Spent(SpentWho::Endpoint(n)) => spent_lines(alloc, scene.endpoints(), n),
        RunEnd::Spent(SpentWho::Host(h)) => spent_host_lines(alloc, h),
    }
}
