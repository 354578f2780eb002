//! Answers, by what the tables told: none of these reads a table.
ghost use Rattle.std.specs.Prelude.{◌≡◌, is_some};
ghost use Rattle.wx_machine.specs.Answers.{at_end, is_news, text_or_end, told_or_empty, where_native, where_open};
ghost use Rattle.wx_machine.specs.Answers.{where_short};
ghost use Rattle.wx_broker.specs.Tables.{is_channel, is_done, is_event, is_first, is_request, on_standing, said_at};
ghost use Rattle.wx_broker.specs.Tables.{text_told};
ghost use Rattle.wx_broker.specs.Calm.{is_already, is_empty, is_ignored, is_posted};

use wx_external::{NativeVerdict, Verdict};
use wx_id::{End, EntryNo, Event};
use wx_machine::{Answer, JsonText, LONGEST, Work};
use wx_one_shot::Standing;

/// That answer, where the gate is open.
pub fn where_open(verdict: Verdict, answer: Answer) -> Answer
    ensures { result ≡ where_open verdict answer }
{
    match verdict {
        Verdict::Open { .. } => answer,
        Verdict::BadTarget => Answer::BadTarget,
        Verdict::Forbidden(rule) => Answer::Forbidden(rule),
    }
}

/// That answer, where the native gate is open.
pub fn where_native(verdict: NativeVerdict, answer: Answer) -> Answer
    ensures { result ≡ where_native verdict answer }
{
    match verdict {
        NativeVerdict::Open(_) => answer,
        NativeVerdict::BadTarget => Answer::BadTarget,
        NativeVerdict::NoPermission => Answer::NoPermission,
        NativeVerdict::BadHostName => Answer::BadHostName,
        NativeVerdict::HostNotFound => Answer::HostNotFound,
        NativeVerdict::HostForbidden => Answer::HostForbidden,
    }
}

/// That answer, unless the text is too long.
pub fn where_short(text: &JsonText, answer: Answer) -> Answer
    ensures { result ≡ where_short text.now answer }
{
    if text.len() > LONGEST {
        Answer::TooLong
    } else {
        answer
    }
}

/// The answer on a channel: to one that is no end of it, where it is closed, and where it is open.
pub fn at_end(end: End, closed: bool, on_closed: Answer, on_open: Answer) -> Answer
    ensures { result ≡ at_end end closed on_closed on_open }
{
    match end {
        End::Neither => Answer::NoPort,
        _ => { if closed { on_closed } else { on_open } }
    }
}

/// The answer on a request, by what the caller is to it.
pub fn on_standing(standing: Standing, answer: Answer) -> Answer
    ensures { result ≡ on_standing standing answer }
{
    match standing {
        Standing::Stranger => Answer::NotYours,
        Standing::Late => Answer::Late,
        Standing::Open => answer,
    }
}

/// The event, or that none is pending.
pub fn told_or_empty(first: Option<Event>) -> Answer
    ensures { result ≡ told_or_empty first }
{
    match first {
        Some(event) => Answer::Event(event),
        None => Answer::Empty,
    }
}

/// The next text, or else that none comes any more, or that none is there yet.
pub fn text_or_end(next: Option<EntryNo>, over: bool) -> Answer
    ensures { result ≡ text_or_end next over }
{
    match next {
        Some(n) => Answer::Text(n),
        None => { if over { Answer::End } else { Answer::Empty } }
    }
}

/// The answer to what a host says, by what it works for and whether that is over.
pub fn said_at(over: bool, work: Option<Work>) -> Answer
    ensures { result ≡ said_at over work }
{
    match (work, over) {
        (Some(Work::Channel(_)), true) => Answer::PortClosed,
        (Some(Work::Request(_)), true) => Answer::Ignored,
        (Some(_), false) => Answer::Passed,
        (None, _) => Answer::Gone,
    }
}

/// Whether the answer tells a host a text, or for the first time that none comes any more.
pub fn is_news(answer: Answer, knows: bool) -> bool
    ensures { result ≡ is_news answer knows }
{
    match answer {
        Answer::Text(_) => true,
        Answer::End => !knows,
        _ => false,
    }
}

/// Whether a channel was opened.
pub fn is_channel(answer: Answer) -> bool
    ensures { result ≡ is_channel answer }
{
    matches!(answer, Answer::Channel(_))
}

/// Whether a request was made.
pub fn is_request(answer: Answer) -> bool
    ensures { result ≡ is_request answer }
{
    matches!(answer, Answer::Request(_))
}

/// Whether an event was taken.
pub fn is_event(answer: Answer) -> bool
    ensures { result ≡ is_event answer }
{
    matches!(answer, Answer::Event(_))
}

/// Whether a host took a text.
pub fn is_text(answer: Answer) -> bool
    ensures { result ≡ is_some (text_told answer) }
{
    matches!(answer, Answer::Text(_))
}

/// Whether the call was made.
pub fn is_done(answer: Answer) -> bool
    ensures { result ≡ is_done answer }
{
    matches!(answer, Answer::Done)
}

/// Whether the message goes to the other side.
pub fn is_posted(answer: Answer) -> bool
    ensures { result ≡ is_posted answer }
{
    matches!(answer, Answer::Posted)
}

/// Whether the reply was the first.
pub fn is_first(answer: Answer) -> bool
    ensures { result ≡ is_first answer }
{
    matches!(answer, Answer::First)
}

/// Whether nothing is there yet.
pub fn is_empty(answer: Answer) -> bool
    ensures { result ≡ is_empty answer }
{
    matches!(answer, Answer::Empty)
}

/// Whether a host's request was settled before.
pub fn is_ignored(answer: Answer) -> bool
    ensures { result ≡ is_ignored answer }
{
    matches!(answer, Answer::Ignored)
}

/// Whether a host ended before.
pub fn is_already(answer: Answer) -> bool
    ensures { result ≡ is_already answer }
{
    matches!(answer, Answer::Already)
}
