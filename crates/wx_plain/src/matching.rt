//! The command `match`: whether a URL meets a pattern.
ghost use Rattle.std.specs.Prelude.{◌≡◌, IfOk, IfErr};
ghost use Rattle.wx_plain.specs.Matching as matching;
ghost use Rattle.wx_plain.specs.View.{Gives, Says, output_view};

use crate::verdict::{Output, Refusal};
use std::alloc::Global;
use url::{ParseError, Url};
use wx_match_pattern::{Pattern, PatternReadFault};
use wx_outside::LIMIT;
use wx_status::InputKind;

/// The pattern of a word.
fn read_pattern(alloc: Global, word: &str) -> Result<Pattern, Refusal>
    ensures { Gives result (matching.pattern_in word.now) }
{
    match Pattern::read(alloc, word) {
        Ok(pattern) => Ok(pattern),
        Err(PatternReadFault::Bad(fault)) => Err(Refusal::Input(InputKind::Pattern(fault))),
        Err(PatternReadFault::NoMemory) => Err(Refusal::NoMemory),
    }
}

/// The URL of a word, which has at most 67,108,864 bytes. The parser's two answers for want of room are want of memory.
fn read_url(alloc: Global, word: &str) -> Result<Url, Refusal>
    ensures { Gives result (matching.url_in word.now) }
{
    if word.len() > LIMIT {
        return Err(Refusal::Input(InputKind::Url));
    }
    match Url::parse(alloc, word) {
        Ok(url) => Ok(url),
        Err(ParseError::OutOfMemory) => Err(Refusal::NoMemory),
        Err(ParseError::Overflow) => Err(Refusal::NoMemory),
        Err(_) => Err(Refusal::Input(InputKind::Url)),
    }
}

/// The output with this line.
fn line(alloc: Global, yes: bool, text: &[u8]) -> Result<Output, Refusal>
    ensures ok { IfOk result (λ output. output_view output ≡ record { yes = yes; text = text.now }) }
    ensures err { IfErr result (λ refusal. refusal ≡ Refusal.NoMemory) }
{
    match Vec::from_slice(alloc, text) {
        Ok(text) => Ok(Output { yes, text }),
        Err(_) => Err(Refusal::NoMemory),
    }
}

/// What `match` answers.
pub(crate) fn answer(alloc: Global, pattern: &str, url: &str) -> Result<Output, Refusal>
    ensures { Says (matching.MatchAnswers (matching.pattern_in pattern.now) (matching.url_in url.now)) result }
{
    let pattern = match read_pattern(alloc, pattern) {
        Ok(pattern) => pattern,
        Err(refusal) => return Err(refusal),
    };
    let url = match read_url(alloc, url) {
        Ok(url) => url,
        Err(refusal) => return Err(refusal),
    };
    if pattern.matches(&url) {
        line(alloc, true, b"yes\n")
    } else {
        line(alloc, false, b"no\n")
    }
}
