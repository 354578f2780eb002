//! The command `report`: what a journal tells of its channels and requests.
ghost use Rattle.std.specs.Prelude.{◌≡◌, ◌++◌, IfOk, OnOk, codes, decimal, length, reverse};
ghost use Rattle.wx_machine.specs.Channels.{channels};
ghost use Rattle.wx_machine.specs.Requests.{requests};
ghost use Rattle.wx_journal_text.specs.Text.{◌␣◌};
ghost use Rattle.wx_reports.specs.Reports.{port_report, request_report};
ghost use Rattle.wx_plain.specs.Answers.{ReportAnswers};
ghost use Rattle.wx_plain.specs.Reporting as reporting;
ghost use Rattle.wx_plain.specs.View.{Says};

use crate::put::{put, put_number};
use crate::verdict::{Output, Refusal};
use std::alloc::{AllocError, Global};
use wx_id::{ChannelNo, EntryNo, RequestNo};
use wx_journal::{Journal, JournalReadFault, PortReport, RequestReport, Settled};
use wx_status::InputKind;
use wx_walks::{channels, requests};

/// A word and a number, and a space behind each.
fn put_count(out: &mut Vec<u8>, word: &[u8], n: u64) -> Result<(), AllocError>
    ensures { OnOk result (out.new.items ≡ out.old.items ++ (word.now ␣ (decimal n ++ codes " "))) }
{
    put(out, word)?;
    put(out, b" ")?;
    put_number(out, n)?;
    put(out, b" ")
}

/// The number of an entry, or a dash where there is none.
fn put_entry(out: &mut Vec<u8>, entry: Option<EntryNo>) -> Result<(), AllocError>
    ensures { OnOk result (out.new.items ≡ out.old.items ++ reporting.entry_or_dash entry) }
{
    match entry {
        Some(entry) => put_number(out, entry.0),
        None => put(out, b"-"),
    }
}

/// The end of a channel's line.
fn put_counts(out: &mut Vec<u8>, posted: u64, taken: u64) -> Result<(), AllocError>
    ensures { OnOk result (out.new.items
        ≡ out.old.items ++ (codes "posted" ␣ decimal posted ␣ codes "taken" ␣ (decimal taken ++ codes "\n"))) }
{
    put_count(out, b"posted", posted)?;
    put(out, b"taken ")?;
    put_number(out, taken)?;
    put(out, b"\n")
}

/// The line of a channel.
fn put_channel(out: &mut Vec<u8>, k: u64, report: PortReport) -> Result<(), AllocError>
    ensures { OnOk result (out.new.items ≡ out.old.items ++ reporting.channel_line k report) }
{
    put_count(out, b"channel", k)?;
    put_count(out, b"opened", report.opened.0)?;
    put(out, b"closed ")?;
    put_entry(out, report.closed)?;
    put(out, b" ")?;
    put_counts(out, report.posted, report.taken)
}

/// The word for how a request is settled.
fn settled_word(settled: Settled) -> &'static [u8]
    ensures { result.now ≡ reporting.settled_word settled }
{
    match settled {
        Settled::First => b"first",
        Settled::Closed => b"closed",
        Settled::Left => b"left",
    }
}

/// The entry that settled a request, and how; or two dashes.
fn put_settlement(out: &mut Vec<u8>, settled: Option<(EntryNo, Settled)>) -> Result<(), AllocError>
    ensures { OnOk result (out.new.items ≡ out.old.items ++ reporting.settlement_text settled) }
{
    match settled {
        Some((entry, settled)) => {
            put_number(out, entry.0)?;
            put(out, b" ")?;
            put(out, settled_word(settled))
        }
        None => put(out, b"- -"),
    }
}

/// The line of a request.
fn put_request(out: &mut Vec<u8>, r: u64, report: RequestReport) -> Result<(), AllocError>
    ensures { OnOk result (out.new.items ≡ out.old.items ++ reporting.request_line r report) }
{
    put_count(out, b"request", r)?;
    put_count(out, b"opened", report.opened.0)?;
    put(out, b"settled ")?;
    put_settlement(out, report.settled)?;
    put(out, b"\n")
}

/// The line of channel k, where there is one.
fn put_channel_no(out: &mut Vec<u8>, journal: &Journal, k: u64) -> Result<(), AllocError>
    ensures { OnOk result (out.new.items
        ≡ out.old.items ++ reporting.channel_lines k (port_report (reverse journal.now.entries) k)) }
{
    match journal.port_report(ChannelNo(k)) {
        Some(report) => put_channel(out, k, report),
        None => Ok(()),
    }
}

/// The line of request r, where there is one.
fn put_request_no(out: &mut Vec<u8>, journal: &Journal, r: u64) -> Result<(), AllocError>
    ensures { OnOk result (out.new.items
        ≡ out.old.items ++ reporting.request_lines r (request_report (reverse journal.now.entries) r)) }
{
    match journal.request_report(RequestNo(r)) {
        Some(report) => put_request(out, r, report),
        None => Ok(()),
    }
}

/// The lines of the channels. Each walks the whole journal.
fn put_channels(out: &mut Vec<u8>, journal: &Journal) -> Result<(), AllocError>
    ensures { OnOk result (out.new.items
        ≡ out.old.items ++ reporting.lines_below (length (channels (reverse journal.now.entries)))
        (λ k. reporting.channel_lines k (port_report (reverse journal.now.entries) k))) }
{
    for k in 0..channels::count(journal.entries()) {
        put_channel_no(out, journal, k)?;
    }
    Ok(())
}

/// The lines of the requests. Each walks the whole journal.
fn put_requests(out: &mut Vec<u8>, journal: &Journal) -> Result<(), AllocError>
    ensures { OnOk result (out.new.items
        ≡ out.old.items ++ reporting.lines_below (length (requests (reverse journal.now.entries)))
        (λ r. reporting.request_lines r (request_report (reverse journal.now.entries) r))) }
{
    for r in 0..requests::count(journal.entries()) {
        put_request_no(out, journal, r)?;
    }
    Ok(())
}

/// What the journal tells of its channels and requests.
fn report(alloc: Global, journal: &Journal) -> Result<Vec<u8>, AllocError>
    ensures { IfOk result (λ text. text.items ≡ reporting.report_text (reverse journal.now.entries)) }
{
    let mut text = Vec::new(alloc);
    put_channels(&mut text, journal)?;
    put_requests(&mut text, journal)?;
    Ok(text)
}

/// What `report` answers of the bytes of its file. Whether the journal is legal is not asked.
pub(crate) fn answer(alloc: Global, bytes: &[u8]) -> Result<Output, Refusal>
    ensures { Says (ReportAnswers bytes.now) result }
{
    let journal = match Journal::read(alloc, bytes) {
        Ok(journal) => journal,
        Err(JournalReadFault::Bad(fault)) => return Err(Refusal::Input(InputKind::Journal(fault))),
        Err(JournalReadFault::NoMemory) => return Err(Refusal::NoMemory),
    };
    match report(alloc, &journal) {
        Ok(text) => Ok(Output { yes: true, text }),
        Err(AllocError) => Err(Refusal::NoMemory),
    }
}
