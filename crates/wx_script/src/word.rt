//! Words, names and numbers of a line.
ghost use Rattle.std.specs.Prelude.{◌≡◌};
ghost use Rattle.std.specs.List.{list_all};
ghost use Rattle.std.specs.Option.{option_map};
ghost use Rattle.wx_context.specs.Paths as texts;
ghost use Rattle.wx_id.specs.HostNames.{is_word_byte};
ghost use Rattle.wx_id.specs.Options.{where_so};
ghost use Rattle.wx_script.specs.Words as words;
ghost use Rattle.wx_script.specs.Line as forms;

use wx_context::{are_printable, is_page_path};
use wx_id::{FrameId, TabId, is_word_byte};

/// The bytes up to the first space, and what stands after that space.
pub(crate) fn split_word(text: &[u8]) -> (&[u8], Option<&[u8]>)
    ensures word { result.0.now ≡ words.word text.now }
    ensures rest { option_map (λ rest. rest.now) result.1 ≡ words.rest text.now }
{
    for (i, byte) in text.iter().enumerate() {
        if *byte == b' ' {
            return (&text[..i], Some(&text[i + 1..]));
        }
    }
    (text, None)
}

fn are_name_bytes(text: &[u8]) -> bool
    ensures { result ≡ list_all is_word_byte text.now }
{
    text.iter().all(|byte| is_word_byte(*byte))
}

fn is_identifier(text: &[u8]) -> bool
    ensures { result ≡ words.is_identifier text.now }
{
    match text.split_first() {
        Some((first, others)) => first.is_ascii_lowercase()
            && are_name_bytes(others)
            && others.len() < 32,
        None => false,
    }
}

fn is_name(text: &[u8]) -> bool
    ensures { result ≡ words.is_name text.now }
{
    is_identifier(text) && text != b"same".as_slice()
}

/// The name that a word is.
#[tactic(auto, using(crate::proofs::WordLemmas::names_are_utf8))]
pub(crate) fn name(word: &[u8]) -> Option<&str>
    ensures { option_map (λ name. name.now) result ≡ where_so (words.is_name word.now) word.now }
{
    if !is_name(word) {
        return None;
    }
    match str::from_utf8(word) {
        Ok(name) => Some(name),
        Err(_) => unreachable!(),
    }
}

/// A name with more after it.
#[tactic(auto, unfolding(crate::specs::Line::name_at))]
pub(crate) fn name_and_rest(text: &[u8]) -> Option<(&str, &[u8])>
    ensures { option_map (λ found. (found.0.now, found.1.now)) result ≡ forms.name_at text.now }
{
    let (word, rest) = split_word(text);
    let rest = rest?;
    let name = name(word)?;
    Some((name, rest))
}

pub(crate) fn is_word(text: &[u8]) -> bool
    ensures { result ≡ words.is_word text.now }
{
    !text.is_empty() && are_printable(text)
}

/// The text of a word: a file, a URL, a port name or a host's name.
#[tactic(auto, using(crate::proofs::WordLemmas::words_are_utf8))]
pub(crate) fn word_text(word: &[u8]) -> Option<&str>
    ensures { option_map (λ text. text.now) result ≡ where_so (words.is_word word.now) word.now }
{
    if !is_word(word) {
        return None;
    }
    match str::from_utf8(word) {
        Ok(text) => Some(text),
        Err(_) => unreachable!(),
    }
}

/// The part of a file's name after the last `/`, which is the whole where there is none.
pub fn file_name(file: &str) -> &str
    ensures { result.now ≡ words.file_name file.now }
{
    let mut left = file;
    while let Some((_, rest)) = left.split_once('/') {
        left = rest;
    }
    left
}

/// The path that a word is.
#[tactic(auto, using(wx_context::proofs::PathLemmas::paths_are_utf8))]
pub(crate) fn path(word: &[u8]) -> Option<&str>
    ensures { option_map (λ path. path.now) result ≡ where_so (texts.is_page_path word.now) word.now }
{
    if !is_page_path(word) {
        return None;
    }
    match str::from_utf8(word) {
        Ok(path) => Some(path),
        Err(_) => unreachable!(),
    }
}

fn are_digits(text: &[u8]) -> bool
    ensures { result ≡ list_all words.is_digit text.now }
{
    text.iter().all(|byte| byte.is_ascii_digit())
}

fn is_number(text: &[u8]) -> bool
    ensures { result ≡ words.is_number text.now }
{
    match text.split_first() {
        Some((first, others)) => are_digits(text) && (*first != b'0' || others.is_empty()),
        None => false,
    }
}

/// The number that a word is, without leading zeros.
#[tactic(auto, unfolding(crate::specs::Line::number_at), using(crate::proofs::NumberLemmas::numbers))]
fn number(word: &[u8]) -> Option<u32>
    ensures { result ≡ forms.number_at word.now }
{
    if !is_number(word) {
        return None;
    }
    match str::from_utf8(word) {
        Ok(digits) => digits.parse().ok(),
        Err(_) => unreachable!(),
    }
}

/// The id of a tab that a word is.
#[tactic(auto, unfolding(crate::specs::Line::tab_id_at))]
pub(crate) fn tab_id(word: &[u8]) -> Option<TabId>
    ensures { result ≡ forms.tab_id_at word.now }
{
    Some(TabId(number(word)?))
}

/// The id of a frame that a word is.
#[tactic(auto, unfolding(crate::specs::Line::frame_id_at))]
pub(crate) fn frame_id(word: &[u8]) -> Option<FrameId>
    ensures { result ≡ forms.frame_id_at word.now }
{
    Some(FrameId(number(word)?))
}

/// The number from 1 to 1,000,000 that a word is.
#[tactic(auto, unfolding(crate::specs::Line::count_at))]
pub(crate) fn count(word: &[u8]) -> Option<u32>
    ensures { result ≡ forms.count_at word.now }
{
    let n = number(word)?;
    if 1 <= n && n <= 1_000_000 {
        Some(n)
    } else {
        None
    }
}

/// Whether a line is empty or begins with `#`.
pub(crate) fn is_comment(text: &[u8]) -> bool
    ensures { result ≡ words.is_comment text.now }
{
    match text.first() {
        Some(first) => *first == b'#',
        None => true,
    }
}

pub(crate) fn is_given(text: &[u8]) -> bool
    ensures { result ≡ words.is_given text.now }
{
    !text.is_empty()
}
