//! Why a host ended.
ghost use Rattle.std.specs.Prelude.{◌≡◌};
ghost use Rattle.wx_journal_read.specs.Gives.{Gives};
ghost use Rattle.wx_journal_read.specs.Grammar as grammar;

use crate::fault::Fault;
use crate::field::{behind, number, number32, skip};
use wx_machine::{JsonKind, Reason};

/// Why a text is no JSON text.
#[tactic(auto, unfolding(crate::specs::Grammar::json_kind_at))]
fn json_kind(bytes: &[u8]) -> Result<(JsonKind, &[u8]), Fault>
    ensures { Gives (λ x. (x.0, x.1.now)) result (grammar.json_kind_at bytes.now) }
{
    if let Some(rest) = behind(b"syntax", bytes) {
        return Ok((JsonKind::Syntax, rest));
    }
    if let Some(rest) = behind(b"utf8", bytes) {
        return Ok((JsonKind::Utf8, rest));
    }
    if let Some(rest) = behind(b"too_deep", bytes) {
        return Ok((JsonKind::TooDeep, rest));
    }
    if let Some(rest) = behind(b"ends", bytes) {
        return Ok((JsonKind::Ends, rest));
    }
    Err(Fault::Bad)
}

/// Why a host ended.
#[tactic(auto, unfolding(crate::specs::Grammar::reason_at))]
pub fn reason(bytes: &[u8]) -> Result<(Reason, &[u8]), Fault>
    ensures { Gives (λ x. (x.0, x.1.now)) result (grammar.reason_at bytes.now) }
{
    if let Some(rest) = behind(b"start_failed", bytes) {
        return Ok((Reason::StartFailed, rest));
    }
    if let Some(rest) = behind(b"read_failed", bytes) {
        return Ok((Reason::ReadFailed, rest));
    }
    frame_reason(bytes)
}

/// A reason that a frame gives.
#[tactic(auto, unfolding(crate::specs::Grammar::frame_reason_at))]
fn frame_reason(bytes: &[u8]) -> Result<(Reason, &[u8]), Fault>
    ensures { Gives (λ x. (x.0, x.1.now)) result (grammar.frame_reason_at bytes.now) }
{
    if let Some(rest) = behind(b"too_long ", bytes) {
        let (len, rest) = number32(rest)?;
        return Ok((Reason::TooLong { len }, rest));
    }
    if let Some(rest) = behind(b"bad_json ", bytes) {
        let (place, rest) = number(rest)?;
        let rest = skip(b" ", rest)?;
        let (kind, rest) = json_kind(rest)?;
        return Ok((Reason::BadJson { place, kind }, rest));
    }
    if let Some(rest) = behind(b"cut ", bytes) {
        let (have, rest) = number(rest)?;
        return Ok((Reason::Cut { have }, rest));
    }
    end_reason(bytes)
}

/// Any other reason.
#[tactic(auto, unfolding(crate::specs::Grammar::end_reason_at))]
fn end_reason(bytes: &[u8]) -> Result<(Reason, &[u8]), Fault>
    ensures { Gives (λ x. (x.0, x.1.now)) result (grammar.end_reason_at bytes.now) }
{
    if let Some(rest) = behind(b"write_failed", bytes) {
        return Ok((Reason::WriteFailed, rest));
    }
    if let Some(rest) = behind(b"exited", bytes) {
        return Ok((Reason::Exited, rest));
    }
    if let Some(rest) = behind(b"closed", bytes) {
        return Ok((Reason::Closed, rest));
    }
    Err(Fault::Bad)
}
