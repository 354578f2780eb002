//! The text of a journal, read whole.
ghost use Rattle.std.specs.Prelude.{◌≡◌, Some, Ok, List, length, IfOk};
ghost use Rattle.wx_machine.specs.declared.entries.Entry.{Entry};
ghost use Rattle.wx_journal_text.specs.Text.{journal_text};
ghost use Rattle.wx_journal_read.specs.Fits.{JournalFits};
ghost use Rattle.wx_journal_read.specs.Gives.{Gives, GivesWhole, IfBad};
ghost use Rattle.wx_journal_read.specs.Grammar.{entry_at, entries_at};
ghost use Rattle.wx_journal_read.specs.Faults.{IsFault};
ghost use Rattle.wx_journal_read.specs.Whole.{journal_at};

use crate::answer::answer;
use crate::call::call;
use crate::fault::{Fault, JournalFault, JournalKind, JournalReadFault};
use crate::field::{behind, skip};
use crate::part::who;
use std::alloc::Global;
use wx_machine::Entry;

/// An entry's line.
#[tactic(auto, unfolding(crate::specs::Grammar::entry_at))]
fn entry(alloc: Global, bytes: &[u8]) -> Result<(Entry, &[u8]), Fault>
    ensures { Gives (λ x. (x.0, x.1.now)) result (entry_at bytes.now) }
{
    let (who, rest) = who(bytes)?;
    let rest = skip(b" ", rest)?;
    let (call, rest) = call(alloc, rest)?;
    let rest = skip(b" -> ", rest)?;
    let (answer, rest) = answer(rest)?;
    let rest = skip(b"\n", rest)?;
    Ok((Entry { who, call, answer }, rest))
}

/// The whole entries in front, and what stands after them.
#[tactic(auto, using(crate::proofs::Runs::goes_on, crate::proofs::Runs::stops_here, crate::proofs::Runs::shrinks))]
fn entries(alloc: Global, bytes: &[u8]) -> Result<(Vec<Entry>, &[u8]), Fault>
    ensures { Gives (λ x. (x.0.items, x.1.now)) result (Some (entries_at (length bytes.now) bytes.now)) }
{
    let mut list = Vec::new(alloc);
    let mut rest = bytes;
    loop {
        match entry(alloc, rest) {
            Ok((e, more)) => {
                list.push(e)?;
                rest = more;
            }
            Err(Fault::NoMemory) => return Err(Fault::NoMemory),
            Err(Fault::Bad) => return Ok((list, rest)),
        }
    }
}

/// The journal, or its fault.
#[tactic(auto, unfolding(crate::specs::Whole::journal_at))]
fn whole(alloc: Global, bytes: &[u8]) -> Result<Vec<Entry>, JournalReadFault>
    ensures { GivesWhole (λ list. list.items) result (journal_at bytes.now) }
{
    let Some(rest) = behind(b"wx journal 1 chrome\n", bytes) else {
        return Err(JournalReadFault::Bad(JournalFault {
            place: 0,
            kind: JournalKind::Head,
        }));
    };
    match entries(alloc, rest) {
        Ok((list, left)) => {
            if left.is_empty() {
                Ok(list)
            } else {
                Err(JournalReadFault::Bad(JournalFault {
                    place: (bytes.len() - left.len()) as u64,
                    kind: JournalKind::Line,
                }))
            }
        }
        Err(_) => Err(JournalReadFault::NoMemory),
    }
}

/// The entries of the journal whose text the bytes are, oldest first. Nothing is asked of the journal but its text.
pub fn read(alloc: Global, bytes: &[u8]) -> Result<Vec<Entry>, JournalReadFault>
    // what is read is spelled so
    ensures found { IfOk result (λ list. JournalFits list.items × (bytes.now ≡ journal_text list.items)) }
    // what is spelled so is read, unless memory ran out
    ensures only { (journal : List Entry) → JournalFits journal → bytes.now ≡ journal_text journal
        → GivesWhole (λ list. list.items) result (Ok journal) }
    // which fault it is
    ensures fault { IfBad result (IsFault bytes.now) }
{
    whole(alloc, bytes)
}
