//! Paths with `*` for any run of characters.
ghost use Rattle.std.specs.Prelude.{◌≡◌, ◌↔◌, ◌∷◌, ◌<◌, ◌≤◌, ◌^◌, IsTrue, length};
ghost use Rattle.wx_match_pattern.specs.Globs.{Globs, star};
ghost use Rattle.wx_match_pattern.specs.Run.{run_of, IsWithin};

use crate::slices::behind;

/// How the plain characters at the front of a pattern go along a text.
#[derive(Clone, Copy, Debug, PartialEq, Eq)]
pub(crate) enum Run {
    /// They are the whole pattern and the whole text.
    Whole,
    /// This many agree, and `*` stands after them.
    Star(usize),
    /// They differ from the text, or one of the two ends.
    Differs,
}

fn run_at_front(pattern: &[u8], text: &[u8]) -> Run
    ensures value { result ≡ run_of pattern.now text.now }
    ensures within { IsWithin result (length pattern.now) (length text.now) }
    ensures fits { length pattern.now < 2 ^ 64 }
{
    for (i, byte) in pattern.iter().enumerate() {
        if *byte == b'*' {
            return Run::Star(i);
        }
        if i >= text.len() || text[i] != *byte {
            return Run::Differs;
        }
    }
    if pattern.len() == text.len() {
        Run::Whole
    } else {
        Run::Differs
    }
}

/// Whether `*` and then the pattern match the text.
fn matches_behind_star(mut pattern: &[u8], mut text: &[u8]) -> bool
    ensures { IsTrue result ↔ Globs (star ∷ pattern.now) text.now }
{
    loop {
        match run_at_front(pattern, text) {
            Run::Whole => return true,
            Run::Star(at) => {
                pattern = behind(pattern, at + 1);
                text = behind(text, at);
            }
            Run::Differs if text.is_empty() => return false,
            Run::Differs => text = behind(text, 1),
        }
    }
}

/// Whether the pattern, each `*` of which stands for any run of characters, matches the text.
///
/// Once a run of plain characters is found after a `*`, its first place is kept, so no choice is ever taken back: the
/// work is at most the pattern's length, and the text's length times that of the longest run between two `*`.
pub(crate) fn matches(pattern: &[u8], text: &[u8]) -> bool
    ensures { IsTrue result ↔ Globs pattern.now text.now }
{
    match run_at_front(pattern, text) {
        Run::Whole => true,
        Run::Star(at) => matches_behind_star(behind(pattern, at + 1), behind(text, at)),
        Run::Differs => false,
    }
}
