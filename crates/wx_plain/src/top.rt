//! The call for the commands that make no run.
ghost use Rattle.std.specs.Prelude.{◌≡◌, ◌⊎◌, map, string_bytes, None};
ghost use Rattle.wx_outside.specs.Causes.{Rose};
ghost use Rattle.wx_outside.specs.Shelf.{content};
ghost use Rattle.wx_status.specs.declared.status.Status.TheVariants as status;
ghost use Rattle.wx_words.specs.Words as forms;
ghost use Rattle.wx_plain.specs.About.{text_answer};
ghost use Rattle.wx_plain.specs.Answers.{FileAnswers};
ghost use Rattle.wx_plain.specs.Complete.{IsPlainComplete};
ghost use Rattle.wx_plain.specs.Headline.{Judged, PlainHeadline};
ghost use Rattle.wx_plain.specs.Judging.{BytesAnswers, ComesTo, FileJudged};
ghost use Rattle.wx_plain.specs.Matching as matches;
ghost use Rattle.wx_plain.specs.View.{Says, verdict_in, verdict_view};
ghost use Rattle.wx_status.specs.Changes.{over};

use crate::about::{HELP, VERSION};
use crate::laws::one_plain_answer;
use crate::tell::tell;
use crate::verdict::{Output, Refusal, Verdict};
use crate::{about, frames, matching, report};
use std::alloc::Global;
use wx_id::NoMemory;
use wx_outside::{Found, Shelf, ShelfFault, Sink};
use wx_status::{InputKind, Status};
use wx_words::{PlainCommand, plain_command};

/// An answer as a verdict.
fn verdict_of<'a>(answer: Result<Output, Refusal>) -> Verdict<'a>
    ensures { verdict_view result ≡ verdict_in answer }
{
    match answer {
        Ok(output) => Verdict::Answered(output),
        Err(Refusal::Input(kind)) => Verdict::Refused(kind),
        Err(Refusal::NoMemory) => Verdict::NoMemory,
    }
}

/// What the call answers of a pattern and a URL.
#[tactic(auto, using(crate::proofs::Judgings::comes_to))]
fn judge_match<'a>(alloc: Global, pattern: &str, url: &str) -> Verdict<'a>
    ensures { ComesTo (matches.MatchAnswers (matches.pattern_in pattern.now) (matches.url_in url.now))
        (verdict_view result) }
{
    verdict_of(matching::answer(alloc, pattern, url))
}

/// What the call answers where it prints this text.
#[tactic(auto, using(crate::proofs::Judgings::comes_to))]
fn judge_text<'a>(alloc: Global, text: &str) -> Verdict<'a>
    ensures { ComesTo (λ answer. answer ≡ text_answer text.now) (verdict_view result) }
{
    verdict_of(about::answer(alloc, text))
}

/// What is asked of a file.
#[derive(Clone, Copy)]
enum Asked {
    /// Its frames.
    Frames,
    /// What the journal in it tells.
    Report,
}

/// What a file's bytes answer.
fn bytes_answer(alloc: Global, asked: Asked, bytes: &[u8]) -> Result<Output, Refusal>
    ensures { Says (BytesAnswers asked bytes.now) result }
{
    match asked {
        Asked::Frames => frames::answer(alloc, bytes),
        Asked::Report => report::answer(alloc, bytes),
    }
}

/// What was found under the file's name comes to.
#[tactic(auto, using(crate::proofs::Judgings::comes_to))]
fn judge_found<'a>(alloc: Global, asked: Asked, found: Found) -> Verdict<'a>
    ensures { ComesTo (FileAnswers (BytesAnswers asked) (content found)) (verdict_view result) }
{
    match found {
        Found::Bytes(bytes) => verdict_of(bytes_answer(alloc, asked, &bytes)),
        Found::Missing => Verdict::Refused(InputKind::Missing),
        Found::Large => Verdict::Refused(InputKind::Large),
    }
}

/// What the call answers for a file.
#[tactic(auto, using(crate::proofs::Judgings::file_judged))]
fn judge_file<'a, F: Shelf>(
    alloc: Global,
    asked: Asked,
    file: &'a str,
    shelf: &mut F,
) -> Verdict<'a>
    ensures judged { FileJudged asked file.entry.now
        (over (F.state shelf.old) (F.state shelf.new))
        (verdict_view result) }
    ensures unchanged { (F.state shelf.new).files ≡ (F.state shelf.old).files }
{
    match shelf.read(alloc, file) {
        Ok(found) => judge_found(alloc, asked, found),
        Err(ShelfFault::Failed) => Verdict::ReadFault(file),
        Err(ShelfFault::NoMemory) => Verdict::NoMemory,
    }
}

/// What the call answers before it writes.
fn judge<'a, F: Shelf>(alloc: Global, words: &'a [String], shelf: &mut F) -> Verdict<'a>
    ensures judged { Judged (map string_bytes words.entry.now)
        (over (F.state shelf.old) (F.state shelf.new))
        (verdict_view result) }
    ensures unchanged { (F.state shelf.new).files ≡ (F.state shelf.old).files }
{
    match plain_command(alloc, words) {
        Ok(Some(PlainCommand::Match { pattern, url })) => judge_match(alloc, pattern, url),
        Ok(Some(PlainCommand::Frames { file })) => judge_file(alloc, Asked::Frames, file, shelf),
        Ok(Some(PlainCommand::Report { file })) => judge_file(alloc, Asked::Report, file, shelf),
        Ok(Some(PlainCommand::Help)) => judge_text(alloc, HELP),
        Ok(Some(PlainCommand::Version)) => judge_text(alloc, VERSION),
        Ok(None) => Verdict::Usage,
        Err(NoMemory) => Verdict::NoMemory,
    }
}

/// All that the commands do which make no run: it judges what the words ask for, of their operands or of what the shelf
/// holds, and tells the answer on the two sinks. `words` are those of the command line after the program's name. Of the
/// words of a run it answers `Status::Usage`.
pub fn wx_plain<F: Shelf, O: Sink, E: Sink>(
    alloc: Global,
    words: &[String],
    shelf: &mut F,
    out: &mut O,
    err: &mut E,
) -> Status
    // The call has a verdict, which has its cause, and tells it.
    ensures headline { PlainHeadline (map string_bytes words.now)
        (over (F.state shelf.old) (F.state shelf.new)) (over (O.state out.old) (O.state out.new))
        (over (E.state err.old) (E.state err.new)) result }
    // Where nothing is wrong, the output decides, unless memory was refused.
    ensures complete { IsPlainComplete (map string_bytes words.now)
        (over (F.state shelf.old) (F.state shelf.new)) (over (O.state out.old) (O.state out.new))
        (over (E.state err.old) (E.state err.new)) result }

    // The causes of three answers, as the headline has them.
    ensures usage { result ≡ status.Usage → forms.plain_command_of (map string_bytes words.now) ≡ None }
    ensures read_fault { result ≡ status.ReadFault → Rose (F.state shelf.old).faults (F.state shelf.new).faults }
    ensures write_fault { result ≡ status.WriteFault
        → Rose (O.state out.old).faults (O.state out.new).faults ⊎ Rose (E.state err.old).faults
        (E.state err.new).faults }

    ensures unchanged { (F.state shelf.new).files ≡ (F.state shelf.old).files }
{
    one_plain_answer();
    let verdict = judge(alloc, words, shelf);
    tell(alloc, verdict, out, err)
}
