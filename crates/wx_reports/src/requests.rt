//! What a journal tells of one request.
ghost use Rattle.std.specs.Prelude.{◌≡◌, Some, None, cond, is_some, length, reverse};
ghost use Rattle.std.specs.Option.{option_or, option_map, IfSome};
ghost use Rattle.wx_external.specs.World.{WorldLists};
ghost use Rattle.wx_machine.specs.Answers.{IsLegal};
ghost use Rattle.wx_machine.specs.Requests.{request};
ghost use Rattle.wx_machine.specs.Settling.{ends_request, settled_at};
ghost use Rattle.wx_laws.specs.Keeping.{KeepsRequest};
ghost use Rattle.wx_reports.specs.Places.{IsAsking, IsSettlement};
ghost use Rattle.wx_id.specs.Numbers.{entry_no};
ghost use Rattle.wx_reports.specs.Reports.{asked_at, way, settlement, request_report};

use crate::ports::found_at;
use wx_id::{EntryNo, RequestNo};
use wx_machine::{Call, Entry, Who};
use wx_walks::requests::{asks, ends_request, is_asker};

/// How a request is settled.
#[derive(Clone, Copy, Debug, PartialEq, Eq)]
pub enum Settled {
    /// By the first reply, or by what its host says.
    First,
    /// Without a reply: its receivers declined or left, or its host ended.
    Closed,
    /// By the leave of who asked.
    Left,
}

/// What a journal tells of a request.
#[derive(Clone, Copy, Debug, PartialEq, Eq)]
pub struct RequestReport {
    /// The entry that made it.
    pub opened: EntryNo,
    /// The entry that settled it, and how.
    pub settled: Option<(EntryNo, Settled)>,
}

/// The entry that made request r.
#[tactic(auto, using(wx_laws::proofs::Newest::past_at_read, wx_laws::proofs::Newest::length_past, wx_laws::proofs::RequestsLater::requests_more))]
fn asked_at(entries: &[Entry], r: RequestNo) -> Option<EntryNo>
    ensures { result ≡ asked_at (reverse entries.now) r.0 }
{
    let mut count: u64 = 0;
    let mut asked = None;
    for (i, e) in entries.iter().enumerate() {
        let asks = asks(&entries[..i], e);
        asked = found_at(asked, count == r.0 && asks, i);
        if asks {
            count += 1;
        }
    }
    asked
}

/// How the entry settles request r, if it does.
fn way(before: &[Entry], e: &Entry, r: RequestNo) -> Settled
    ensures { result ≡ way (request (reverse before.now) r.0) e.now.who e.now.call }
{
    match (&e.who, &e.call) {
        (Who::Context(c), Call::Leave) => {
            if is_asker(before, r, *c) {
                Settled::Left
            } else {
                Settled::Closed
            }
        }
        (_, Call::Reply(_, _)) => Settled::First,
        (_, Call::HostSaid(_)) => Settled::First,
        _ => Settled::Closed,
    }
}

/// The entry where it settles request r, and how, unless an entry before did.
fn settlement_after(
    before: &[Entry],
    e: &Entry,
    r: RequestNo,
    was: Option<(EntryNo, Settled)>,
) -> Option<(EntryNo, Settled)>
    ensures { result ≡ option_or was (cond (ends_request (reverse before.now) e.now r.0)
        (Some (entry_no (length before.now), way (request (reverse before.now) r.0) e.now.who e.now.call)) None) }
{
    match was {
        Some(settled) => Some(settled),
        None => {
            if ends_request(before, e, r) {
                Some((EntryNo(before.len() as u64), way(before, e, r)))
            } else {
                None
            }
        }
    }
}

/// The entry that settled request r, and how.
#[tactic(auto, using(wx_laws::proofs::Newest::past_at_read, wx_laws::proofs::Newest::length_past))]
fn settlement(entries: &[Entry], r: RequestNo) -> Option<(EntryNo, Settled)>
    ensures { result ≡ settlement (reverse entries.now) r.0 }
{
    let mut settled = None;
    for (i, e) in entries.iter().enumerate() {
        settled = settlement_after(&entries[..i], e, r, settled);
    }
    settled
}

/// What the entries tell of request r, none where there is no such request. Where they are legal the laws of messaging
/// hold of the request, with the entry that the report says settled it.
#[tactic(auto, using(crate::proofs::ReportsLater::is_made, crate::proofs::ReportsLater::is_settled_there))]
pub fn request_report(entries: &[Entry], r: RequestNo) -> Option<RequestReport>
    ensures tells { result ≡ request_report (reverse entries.now) r.0 }
    ensures there { is_some result ≡ is_some (request (reverse entries.now) r.0) }
    ensures opened { IfSome result (λ report. IsAsking (reverse entries.now) r.0 report.opened) }
    ensures settled { IfSome result
        (λ report. option_map (λ s. s.0.0) report.settled ≡ settled_at (reverse entries.now) r.0) }
    ensures way { IfSome result (λ report. IfSome report.settled (IsSettlement (reverse entries.now) r.0)) }
    ensures laws { (world : WorldLists) → IsLegal world entries.now → KeepsRequest entries.now r.0 }
{
    match asked_at(entries, r) {
        None => None,
        Some(opened) => Some(RequestReport {
            opened,
            settled: settlement(entries, r),
        }),
    }
}
