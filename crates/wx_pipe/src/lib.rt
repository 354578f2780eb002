//! What a journal tells of a native channel: whether what came back on it is what was posted.
#![tactic(auto)]

ghost use Rattle.std.specs.Prelude.{◌≡◌, ◌∷◌, [], MatchOption, option_copied};
ghost use Rattle.wx_pipe.specs.Pipe as pipe;

#[cfg(test)]
mod rows;

use wx_id::{ChannelNo, ContextNo, EntryNo, EventKind};
use wx_journal::Journal;
use wx_machine::{Answer, Call, Entry, JsonText, Who};

/// Who opens native channel k by the entry.
fn opener_in(e: &Entry, k: ChannelNo) -> Option<ContextNo>
    ensures { result ≡ pipe.opener_in k.0 e.now.who e.now.call e.now.answer }
{
    match (&e.who, &e.call, &e.answer) {
        (Who::Context(c), Call::ConnectNative(_), Answer::Channel(j)) if *j == k => Some(*c),
        _ => None,
    }
}

/// Who opened native channel k.
fn native_opener(entries: &[Entry], k: ChannelNo) -> Option<ContextNo>
    ensures { result ≡ pipe.native_opener k.0 entries.now }
{
    let mut rest = entries;
    while let Some((e, more)) = rest.split_first() {
        if let Some(c) = opener_in(e, k) {
            return Some(c);
        }
        rest = more;
    }
    None
}

/// The text that context c posts on channel k by the entry.
fn posted_in(e: &Entry, c: ContextNo, k: ChannelNo) -> Option<&JsonText>
    ensures { option_copied result ≡ pipe.posted_in c k.0 e.now.who e.now.call e.now.answer }
{
    match (&e.who, &e.call, &e.answer) {
        (Who::Context(b), Call::Post(j, text), Answer::Posted) if *b == c && *j == k => Some(text),
        _ => None,
    }
}

/// The first text that context c posted on channel k by these entries, and the entries behind it.
fn next_posted(entries: &[Entry], c: ContextNo, k: ChannelNo) -> Option<(&JsonText, &[Entry])>
    ensures { MatchOption result (pipe.posted_texts c k.0 entries.now ≡ [])
        (λ found. pipe.posted_texts c k.0 entries.now ≡ found.0.now ∷ pipe.posted_texts c k.0 found.1.now) }
{
    let mut rest = entries;
    while let Some((e, more)) = rest.split_first() {
        if let Some(text) = posted_in(e, c, k) {
            return Some((text, more));
        }
        rest = more;
    }
    None
}

/// The entry of the message of channel k that context c takes by the entry.
fn message_in(e: &Entry, c: ContextNo, k: ChannelNo) -> Option<EntryNo>
    ensures { result ≡ pipe.message_in c k.0 e.now.who e.now.call e.now.answer }
{
    match (&e.who, &e.call, &e.answer) {
        (Who::Context(b), Call::Take, Answer::Event(event)) if *b == c => match event.kind {
            EventKind::Message(j) if j == k => Some(event.entry),
            _ => None,
        },
        _ => None,
    }
}

/// Whether that entry carries the text.
fn is_text(journal: &Journal, n: EntryNo, posted: &JsonText) -> bool
    ensures { result ≡ pipe.is_text (pipe.text_at journal.now.entries n) posted.now }
{
    match journal.text_of(n) {
        Some(text) => text.bytes() == posted.bytes(),
        None => false,
    }
}

/// Whether the texts that context c took on channel k are the first of those that it posted on it.
fn are_first(journal: &Journal, c: ContextNo, k: ChannelNo) -> bool
    ensures { result ≡ pipe.are_first journal.now.entries (pipe.messages_taken c k.0 journal.now.entries)
        (pipe.posted_texts c k.0 journal.now.entries) }
{
    let mut rest = journal.entries();
    let mut posts = journal.entries();
    while let Some((e, more)) = rest.split_first() {
        if let Some(n) = message_in(e, c, k) {
            match next_posted(posts, c, k) {
                Some((text, behind)) if is_text(journal, n, text) => posts = behind,
                _ => return false,
            }
        }
        rest = more;
    }
    true
}

/// None exactly where the journal has no native channel k; else whether the texts that its opener took on it, in their
/// order, are the first of those that it posted on it. It takes no memory.
pub fn pipe_check(journal: &Journal, k: ChannelNo) -> Option<bool>
    ensures { result ≡ pipe.pipe_check k.0 journal.now.entries }
{
    let opener = native_opener(journal.entries(), k)?;
    Some(are_first(journal, opener, k))
}
