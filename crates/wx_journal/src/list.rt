//! The list of entries, its text, and the reports on its channels and requests.
ghost use Rattle.std.specs.Prelude.{◌≡◌, List, Ok, ◌+◌, ◌<◌, ◌≤◌, [], ◌∷◌, ◌++◌, length, IfOk, IfErr};
ghost use Rattle.std.specs.Prelude.{OnOk, OnErr, IsOk, slice_get, option_copied, ◌==◌, reverse};
ghost use Rattle.std.specs.Option.{option_and_then, option_map, IfSome};
ghost use Rattle.wx_external.specs.World.{WorldLists};
ghost use Rattle.wx_machine.specs.Answers.{IsLegal};
ghost use Rattle.wx_machine.specs.Carried.{text_in};
ghost use Rattle.wx_machine.specs.declared.entries.Entry.{Entry};
ghost use Rattle.wx_journal_read.specs.Faults.{IsFault};
ghost use Rattle.wx_journal_read.specs.Fits.{JournalFits};
ghost use Rattle.wx_journal_read.specs.Gives.{GivesWhole, IfBad};
ghost use Rattle.wx_journal_text.specs.Text.{journal_text};
ghost use Rattle.wx_journal.specs.Journal.{IsTextOfNoOther};
ghost use Rattle.wx_laws.specs.Keeping.{KeepsChannel, KeepsRequest};
ghost use Rattle.wx_reports.specs.Counts.{given_on, taken_on};
ghost use Rattle.wx_reports.specs.Reports.{port_report, request_report};

use std::alloc::Global;
use std::marker::Model;
use wx_id::{ChannelNo, EntryNo, NoMemory, RequestNo};
use wx_journal_read::laws::different_texts;
use wx_journal_read::{JournalReadFault, fits, read};
use wx_journal_text::print;
use wx_machine::{Call, Entry, JsonText};
use wx_reports::{PortReport, RequestReport, port_report, request_report};

/// A list of entries. An entry's number is its place, from 0. Contracts see the entries, oldest first, and
/// how many more have room.
#[derive(Drop)]
pub struct Journal {
    entries: Vec<Entry>,
}

impl Model for Journal {
    ghost use Rattle.std.specs.Prelude.{◌-◌, vec_capacity, vec_len};
    ghost use Rattle.wx_journal.specs.Journal.{JournalState};

    ghost Value = { JournalState };

    ghost view = { λ journal. record {
      entries = journal.entries.items;
      spare = vec_capacity journal.entries - vec_len
          journal.entries;
    } };
}

/// The JSON text that a call carries.
fn text_of_call(call: &Call) -> Option<&JsonText>
    ensures { option_copied result ≡ text_in call.now }
{
    match call {
        Call::Post(_, text)
        | Call::Send(_, text)
        | Call::Reply(_, text)
        | Call::SendNative(_, text)
        | Call::HostSaid(text) => Some(text),
        _ => None,
    }
}

impl Journal {
    /// The journal without entries.
    pub fn new(alloc: Global) -> Journal
        ensures { result.entries ≡ [] }
    {
        Journal {
            entries: Vec::new(alloc),
        }
    }

    /// Appends an entry; it comes back where memory was refused.
    pub fn push(&mut self, e: Entry) -> Result<(), Entry>
        ensures ok { OnOk result (self.new.entries ≡ self.old.entries ++ e ∷ []) }
        ensures err { OnErr result (self.new.entries ≡ self.old.entries) }
        ensures kept { OnErr result (self.old.spare ≤ self.new.spare) }
        ensures returned { IfErr result (λ back. back ≡ e) }
        ensures room { 0 < self.old.spare → IsOk result }
        ensures spare { self.old.spare ≤ self.new.spare + 1 }
    {
        match self.entries.push(e) {
            Ok(()) => Ok(()),
            Err(failed) => Err(failed.value),
        }
    }

    /// Makes room for so many more entries. Where there is so much room it succeeds.
    pub fn reserve(&mut self, n: u64) -> Result<(), NoMemory>
        ensures same { self.new.entries ≡ self.old.entries }
        ensures ok { OnOk result (n ≤ self.new.spare) }
        ensures kept { self.old.spare ≤ self.new.spare }
        ensures room { n ≤ self.old.spare → IsOk result }
    {
        self.entries.reserve(n as usize)?;
        Ok(())
    }

    /// Appends an entry that there is room for.
    pub fn push_reserved(&mut self, e: Entry)
        requires { 0 < self.old.spare }
        ensures entries { self.new.entries ≡ self.old.entries ++ e ∷ [] }
        ensures spare { self.new.spare + 1 ≡ self.old.spare }
    {
        self.entries.push_reserved(e);
    }

    /// How many more entries have room.
    pub fn spare(&self) -> u64
        ensures { result ≡ self.now.spare }
    {
        (self.entries.capacity() - self.entries.len()) as u64
    }

    /// How many entries there are.
    pub fn len(&self) -> u64
        ensures { result ≡ length self.now.entries }
    {
        self.entries.len() as u64
    }

    /// Whether there is none.
    pub fn is_empty(&self) -> bool
        ensures { result ≡ (length self.now.entries == 0) }
    {
        self.entries.is_empty()
    }

    /// The entry with this number.
    pub fn entry(&self, e: EntryNo) -> Option<&Entry>
        ensures { option_copied result ≡ slice_get self.now.entries e.0 }
    {
        self.entries.get(e.0 as usize)
    }

    /// The JSON text that the entry's call carries, where there is such an entry and it carries one.
    pub fn text_of(&self, e: EntryNo) -> Option<&JsonText>
        ensures { option_copied result
            ≡ option_and_then (λ entry. text_in entry.call) (slice_get self.now.entries e.0) }
    {
        match self.entries.get(e.0 as usize) {
            Some(entry) => text_of_call(&entry.call),
            None => None,
        }
    }

    /// The entries, oldest first.
    pub fn entries(&self) -> &[Entry]
        ensures { result.now ≡ self.now.entries }
    {
        self.entries.as_slice()
    }

    /// What the journal tells of channel k, none where there is no such channel. Where it is legal the laws of
    /// messaging hold of the channel, with the entry that the report says closed it.
    pub fn port_report(&self, k: ChannelNo) -> Option<PortReport>
        ensures value { result ≡ port_report (reverse self.now.entries) k.0 }
        ensures laws { (world : WorldLists) → IsLegal world self.now.entries
            → IfSome result (λ report. KeepsChannel self.now.entries k.0 (option_map (λ n. n.0) report.closed)) }
        ensures given { (world : WorldLists) → IsLegal world self.now.entries
            → IfSome result (λ report. report.posted ≡ given_on (reverse self.now.entries) k.0) }
        ensures taken { (world : WorldLists) → IsLegal world self.now.entries
            → IfSome result (λ report. report.taken ≡ taken_on (reverse self.now.entries) k.0) }
    {
        port_report(self.entries(), k)
    }

    /// What the journal tells of request r, none where there is no such request. Where it is legal the laws of
    /// messaging hold of the request, with the entry that the report says settled it.
    pub fn request_report(&self, r: RequestNo) -> Option<RequestReport>
        ensures value { result ≡ request_report (reverse self.now.entries) r.0 }
        ensures laws { (world : WorldLists) → IsLegal world self.now.entries → KeepsRequest self.now.entries r.0 }
    {
        request_report(self.entries(), r)
    }

    /// Reads the journal whose text the bytes are. Whether the broker would answer so is not asked.
    pub fn read(alloc: Global, bytes: &[u8]) -> Result<Journal, JournalReadFault>
        ensures found { IfOk result (λ journal. JournalFits journal.entries
            × (bytes.now ≡ journal_text journal.entries)) }
        ensures only { (entries : List Entry) → JournalFits entries → bytes.now ≡ journal_text entries
            → GivesWhole (λ journal. journal.entries) result (Ok entries) }
        ensures fault { IfBad result (IsFault bytes.now) }
    {
        match read(alloc, bytes) {
            Ok(entries) => Ok(Journal { entries }),
            Err(fault) => Err(fault),
        }
    }

    /// The text of the journal: a head line, and a line for each entry. It is the text of no other journal.
    pub fn print(&self, alloc: Global) -> Result<Vec<u8>, NoMemory>
        ensures text { IfOk result (λ text. text.items ≡ journal_text self.now.entries) }
        ensures fits { JournalFits self.now.entries }
        ensures alone { IfOk result (λ text. IsTextOfNoOther text.items self.now.entries) }
    {
        fits::journal(&self.entries);
        different_texts();
        let text = print(alloc, &self.entries)?;
        Ok(text)
    }
}
