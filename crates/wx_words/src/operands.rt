//! Words that are operands, and those that are flags.
ghost use Rattle.std.specs.Prelude.{◌≡◌, ◌||◌, map, drop, string_bytes};
ghost use Rattle.std.specs.List.{list_all, list_any};
ghost use Rattle.wx_words.specs.Words as forms;

/// Whether the word is no flag.
pub(crate) fn is_operand(word: &str) -> bool
    ensures { result ≡ forms.is_operand word.now }
{
    !word.starts_with('-') || word == "-"
}

fn is_rounds(word: &str) -> bool
    ensures { result ≡ forms.is_rounds word.now }
{
    word == "--rounds"
}

/// Whether each word is an operand.
fn are_all_operands(words: &[String]) -> bool
    ensures { result ≡ list_all (λ word. forms.is_operand (string_bytes word)) words.now }
{
    words.iter().all(|word| is_operand(word.as_str()))
}

/// Whether each word is an operand or `--rounds`.
fn are_all_of_run(words: &[String]) -> bool
    ensures { result ≡ list_all (λ word. forms.is_operand (string_bytes word) || forms.is_rounds (string_bytes word))
        words.now }
{
    words.iter().all(|word| is_operand(word.as_str()) || is_rounds(word.as_str()))
}

/// Whether some word is the flag `--rounds`.
fn is_any_rounds(words: &[String]) -> bool
    ensures { result ≡ list_any (λ word. forms.is_rounds (string_bytes word)) words.now }
{
    words.iter().any(|word| is_rounds(word.as_str()))
}

/// Whether the flag `--rounds` is among the words.
pub(crate) fn has_rounds(words: &[String]) -> bool
    ensures { result ≡ list_any forms.is_rounds (map string_bytes words.now) }
{
    is_any_rounds(words)
}

/// Whether the words begin with this one.
pub(crate) fn is_named(name: &str, words: &[String]) -> bool
    ensures { result ≡ forms.is_named name.now (map string_bytes words.now) }
{
    match words.split_first() {
        Some((word, _)) => word.as_str() == name,
        None => false,
    }
}

/// Whether each word after the first is an operand.
pub(crate) fn are_operands(words: &[String]) -> bool
    ensures { result ≡ list_all forms.is_operand (drop 1 (map string_bytes words.now)) }
{
    match words.split_first() {
        Some((_, rest)) => are_all_operands(rest),
        None => true,
    }
}

/// Whether each word after the first is an operand or `--rounds`.
pub(crate) fn are_of_run(words: &[String]) -> bool
    ensures { result ≡ list_all (λ word. forms.is_operand word || forms.is_rounds word)
        (drop 1 (map string_bytes words.now)) }
{
    match words.split_first() {
        Some((_, rest)) => are_all_of_run(rest),
        None => true,
    }
}
