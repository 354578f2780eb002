//! The lines that say why an input is refused.
ghost use Rattle.std.specs.Prelude.{◌≡◌, IfOk, string_bytes};
ghost use Rattle.wx_status.specs.Lines as lines;
ghost use Rattle.wx_status.specs.declared.status.InputKind.TheVariants as input;

use crate::status::InputKind;
use std::alloc::{AllocError, Global};
use wx_journal_read::{JournalFault, JournalKind};
use wx_match_pattern::{PatternFault, PatternKind};
use wx_script::{SceneFault, SceneKind};

/// The word for a fault's kind.
fn kind_word(kind: SceneKind) -> &'static str
    ensures { result.now ≡ lines.kind_word kind }
{
    match kind {
        SceneKind::Missing => "missing",
        SceneKind::Large => "large",
        SceneKind::Head => "head",
        SceneKind::Form => "form",
        SceneKind::Order => "order",
        SceneKind::Id => "id",
        SceneKind::Repeated => "repeated",
        SceneKind::Unknown => "unknown",
        SceneKind::Url => "url",
        SceneKind::Unbound => "unbound",
        SceneKind::Json => "json",
        SceneKind::Many => "many",
    }
}

/// The line that names a file which could not be read.
pub fn read_fault_line(alloc: Global, file: &str) -> Result<String, AllocError>
    ensures { IfOk result (λ line. string_bytes line ≡ lines.read_fault_line file.now) }
{
    format!(in alloc; "wx: read fault: {file}\n")
}

/// The line that says why a scene is refused.
pub fn refusal_line(alloc: Global, fault: SceneFault) -> Result<String, AllocError>
    ensures { IfOk result (λ line. string_bytes line ≡ lines.refusal_line fault) }
{
    let line = fault.line;
    let kind = kind_word(fault.kind);
    format!(in alloc; "wx: scene refused: line {line}: {kind}\n")
}

/// The word for the part of a pattern in which a fault lies.
pub(crate) fn pattern_word(kind: PatternKind) -> &'static str
    ensures { result.now ≡ lines.pattern_word kind }
{
    match kind {
        PatternKind::Scheme => "scheme",
        PatternKind::Host => "host",
        PatternKind::Path => "path",
    }
}

/// The line that says where and how a pattern is faulty.
fn pattern_line(alloc: Global, fault: PatternFault) -> Result<String, AllocError>
    ensures { IfOk result (λ line. string_bytes line ≡ lines.input_line (input.Pattern fault)) }
{
    let place = fault.place;
    let part = pattern_word(fault.kind);
    format!(in alloc; "wx: input refused: pattern {place} {part}\n")
}

/// The word for what is wrong with a journal's text.
fn journal_word(kind: JournalKind) -> &'static str
    ensures { result.now ≡ lines.journal_word kind }
{
    match kind {
        JournalKind::Head => "head",
        JournalKind::Line => "line",
    }
}

/// The line that says where and how a journal's text is faulty.
fn journal_line(alloc: Global, fault: JournalFault) -> Result<String, AllocError>
    ensures { IfOk result (λ line. string_bytes line ≡ lines.input_line (input.Journal fault)) }
{
    let place = fault.place;
    let what = journal_word(fault.kind);
    format!(in alloc; "wx: input refused: journal {place} {what}\n")
}

/// The line that says why an input is refused.
pub fn input_line(alloc: Global, kind: InputKind) -> Result<String, AllocError>
    ensures { IfOk result (λ line. string_bytes line ≡ lines.input_line kind) }
{
    match kind {
        InputKind::Missing => String::from_str(alloc, "wx: input refused: missing\n"),
        InputKind::Large => String::from_str(alloc, "wx: input refused: large\n"),
        InputKind::Pattern(fault) => pattern_line(alloc, fault),
        InputKind::Url => String::from_str(alloc, "wx: input refused: url\n"),
        InputKind::Journal(fault) => journal_line(alloc, fault),
    }
}
