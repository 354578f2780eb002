//! Reading a pattern: its parts, or its first fault.
ghost use Rattle.std.specs.Prelude.{◌≡◌, ◌≤◌, ◌+◌, false, IfOk, IfSome, length, drop};
ghost use Rattle.wx_match_pattern.specs.Answers.{Gives};
ghost use Rattle.wx_match_pattern.specs.Pattern.{is_label_byte, scheme_head};
ghost use Rattle.wx_match_pattern.specs.Reading as reading;
ghost use Rattle.wx_match_pattern.specs.View.{host_view, answer_view};

use crate::fault::{PatternFault, PatternKind, PatternReadFault};
use crate::parts::{Form, HostForm, SchemePart};
use std::alloc::{AllocError, Global};

/// What stands at the front of the bytes after `scheme://`.
#[derive(Clone, Copy, Debug, PartialEq, Eq)]
struct HostFront {
    /// How many bytes begin a host.
    len: usize,
    /// Whether they are a whole host.
    whole: bool,
}

fn is_label_byte(byte: u8) -> bool
    ensures { result ≡ is_label_byte byte }
{
    byte.is_ascii_alphanumeric() || byte == b'-' || byte == b'_'
}

/// How many bytes at the front of the text are those of the head.
fn agreement(text: &[u8], head: &[u8]) -> usize
    ensures { result ≡ reading.agreement text.now head.now }
{
    for (i, byte) in text.iter().enumerate() {
        if i >= head.len() || head[i] != *byte {
            return i;
        }
    }
    text.len()
}

/// The scheme whose `scheme://` stands at the front.
fn scheme_of(text: &[u8]) -> Option<SchemePart>
    ensures value { result ≡ reading.scheme_of text.now }
    ensures within { IfSome result (λ scheme. length (scheme_head scheme) ≤ length text.now) }
{
    if text.starts_with(b"*://") {
        Some(SchemePart::Any)
    } else if text.starts_with(b"http://") {
        Some(SchemePart::Http)
    } else if text.starts_with(b"https://") {
        Some(SchemePart::Https)
    } else if text.starts_with(b"file://") {
        Some(SchemePart::File)
    } else {
        None
    }
}

/// How far the text goes along with some beginning of a pattern.
fn scheme_place(text: &[u8]) -> usize
    ensures { result ≡ reading.scheme_place text.now }
{
    let any = agreement(text, SchemePart::Any.head());
    let http = agreement(text, SchemePart::Http.head());
    let https = agreement(text, SchemePart::Https.head());
    let file = agreement(text, SchemePart::File.head());
    agreement(text, b"<all_urls>").max(any.max(http.max(https.max(file))))
}

/// How many bytes begin a name, and whether they are a whole one.
fn name_front(bytes: &[u8]) -> HostFront
    ensures len { result.len ≡ reading.name_len false bytes.now }
    ensures whole { result.whole ≡ reading.name_whole false bytes.now }
    ensures within { result.len ≤ length bytes.now }
{
    let mut inside = false;
    for (i, byte) in bytes.iter().enumerate() {
        if is_label_byte(*byte) {
            inside = true;
        } else if inside && *byte == b'.' {
            inside = false;
        } else {
            return HostFront {
                len: i,
                whole: inside,
            };
        }
    }
    HostFront {
        len: bytes.len(),
        whole: inside,
    }
}

/// How many bytes begin a host of the scheme, and whether they are a whole one.
fn host_front(scheme: SchemePart, bytes: &[u8]) -> HostFront
    ensures value { result ≡ reading.host_front scheme bytes.now }
    ensures within { result.len ≤ length bytes.now }
{
    if scheme == SchemePart::File {
        return HostFront {
            len: 0,
            whole: true,
        };
    }
    if bytes.starts_with(b"*.") {
        let name = name_front(&bytes[2..]);
        return HostFront {
            len: 2 + name.len,
            whole: name.whole,
        };
    }
    if bytes.starts_with(b"*") {
        return HostFront {
            len: 1,
            whole: true,
        };
    }
    name_front(bytes)
}

/// The host that is written so.
fn host_part(alloc: Global, text: &[u8]) -> Result<HostForm, AllocError>
    ensures { IfOk result (λ host. host_view host ≡ reading.host_part text.now) }
{
    if text.is_empty() {
        return Ok(HostForm::Empty);
    }
    if text == b"*".as_slice() {
        return Ok(HostForm::AnyHost);
    }
    if text.starts_with(b"*.") {
        return Ok(HostForm::Below(text[2..].to_vec(alloc)?));
    }
    Ok(HostForm::Named(text.to_vec(alloc)?))
}

/// The pattern of this scheme, of which the bytes after `scheme://` are given.
fn read_behind(alloc: Global, scheme: SchemePart, bytes: &[u8]) -> Result<Form, PatternReadFault>
    ensures { Gives (answer_view result)
        (reading.pattern_behind scheme bytes.now (reading.host_front scheme bytes.now)) }
{
    let front = host_front(scheme, bytes);
    if !front.whole || front.len == bytes.len() || bytes[front.len] != b'/' {
        let is_path = front.whole && front.len == bytes.len();
        return Err(PatternReadFault::Bad(PatternFault {
            place: (scheme.head().len() + front.len) as u64,
            kind: if is_path {
                PatternKind::Path
            } else {
                PatternKind::Host
            },
        }));
    }
    let Ok(host) = host_part(alloc, &bytes[..front.len]) else {
        return Err(PatternReadFault::NoMemory);
    };
    let Ok(path) = bytes[front.len..].to_vec(alloc) else {
        return Err(PatternReadFault::NoMemory);
    };
    Ok(Form::Parts(scheme, host, path))
}

/// The pattern that the text is.
#[tactic(auto, unfolding(crate::specs::Reading::pattern_of))]
pub(crate) fn read_form(alloc: Global, text: &[u8]) -> Result<Form, PatternReadFault>
    ensures { Gives (answer_view result) (reading.pattern_of text.now) }
{
    if text == b"<all_urls>".as_slice() {
        return Ok(Form::AllUrls);
    }
    let Some(scheme) = scheme_of(text) else {
        return Err(PatternReadFault::Bad(PatternFault {
            place: scheme_place(text) as u64,
            kind: PatternKind::Scheme,
        }));
    };
    read_behind(alloc, scheme, &text[scheme.head().len()..])
}
