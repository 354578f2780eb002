//! The contexts of a journal: who lives, what they listen to, and whom a target reaches.
ghost use Rattle.std.specs.Prelude.{◌≡◌, ◌&&◌, reverse, option_copied};
ghost use Rattle.std.specs.Option.{option_or};
ghost use Rattle.wx_machine.specs.Contexts.{is_by, is_there, if_numbered, enters, context_of, has_left, is_live};
ghost use Rattle.wx_machine.specs.Contexts.{is_leave, listens_of, listens_after, extension_of};
ghost use Rattle.wx_machine.specs.Contexts.{is_extension, is_page_of, is_frame, is_script_in, names, is_external};
ghost use Rattle.wx_machine.specs.Contexts.{hears, reaches, reaches_from, is_receiver};

use wx_context::{Context, Listens, Target};
use wx_external::meant;
use wx_id::{ContextNo, ExtensionId, FrameId, TabId};
use wx_machine::{Answer, Call, Entry, Sort, Who};

/// The entry brings context c in.
pub fn brings(e: &Entry, c: ContextNo) -> bool
    ensures { result ≡ is_there (if_numbered c (enters e.now)) }
{
    match (&e.who, &e.call, &e.answer) {
        (Who::Context(_), Call::Enter(_), Answer::Entered(n)) => *n == c,
        _ => false,
    }
}

/// Context c makes the call.
pub fn is_by(who: Who, c: ContextNo) -> bool
    ensures { result ≡ is_by who c }
{
    match who {
        Who::Context(d) => d == c,
        Who::Host(_) => false,
    }
}

/// Context c came in.
#[tactic(auto, using(wx_laws::proofs::Newest::past_at_read, wx_laws::proofs::Newest::came_more))]
pub fn came(entries: &[Entry], c: ContextNo) -> bool
    ensures { result ≡ is_there (context_of (reverse entries.now) c) }
{
    let mut there = false;
    for e in entries {
        if brings(e, c) {
            there = true;
        }
    }
    there
}

/// The entry is a leave of context c.
pub fn leaves(e: &Entry, c: ContextNo) -> bool
    ensures { result ≡ (is_leave e.now.call && is_by e.now.who c) }
{
    match &e.call {
        Call::Leave => is_by(e.who, c),
        _ => false,
    }
}

/// Context c left after it came in.
#[tactic(auto, using(wx_laws::proofs::Newest::past_at_read, wx_laws::proofs::Newest::came_more))]
pub fn has_left(entries: &[Entry], c: ContextNo) -> bool
    ensures { result ≡ has_left (reverse entries.now) c }
{
    let mut there = false;
    let mut left = false;
    for e in entries {
        if there && leaves(e, c) {
            left = true;
        }
        if brings(e, c) {
            there = true;
        }
    }
    left
}

/// Context c came in and did not leave.
pub fn is_live(entries: &[Entry], c: ContextNo) -> bool
    ensures { result ≡ is_live (reverse entries.now) c }
{
    came(entries, c) && !has_left(entries, c)
}

/// What context c listens to.
#[tactic(auto, using(wx_laws::proofs::Newest::past_at_read))]
pub fn listens_of(entries: &[Entry], c: ContextNo) -> Listens
    ensures { result ≡ listens_of (reverse entries.now) c }
{
    let mut last = Listens {
        connect: false,
        message: false,
        external_connect: false,
        external_message: false,
    };
    for e in entries {
        last = listens_after(e, c, last);
    }
    last
}

/// What context c listens to after the entry, given what it listened to before.
fn listens_after(e: &Entry, c: ContextNo, before: Listens) -> Listens
    ensures { result ≡ listens_after e.now.call (is_by e.now.who c) before }
{
    match &e.call {
        Call::Listen(l) => { if is_by(e.who, c) { *l } else { before } }
        _ => before,
    }
}

/// Context c, where the entry brings it in.
fn brought(e: &Entry, c: ContextNo) -> Option<&Context>
    ensures { option_copied result ≡ if_numbered c (enters e.now) }
{
    match (&e.who, &e.call, &e.answer) {
        (Who::Context(_), Call::Enter(x), Answer::Entered(n)) => {
            if *n == c { Some(x) } else { None }
        }
        _ => None,
    }
}

/// Context c, as it was brought in.
#[tactic(auto, using(wx_laws::proofs::Newest::past_at_read))]
pub fn context_of(entries: &[Entry], c: ContextNo) -> Option<&Context>
    ensures { option_copied result ≡ context_of (reverse entries.now) c }
{
    let mut found = None;
    for e in entries {
        found = first_of(found, brought(e, c));
    }
    found
}

/// The first of two that is there.
fn first_of<'a>(a: Option<&'a Context>, b: Option<&'a Context>) -> Option<&'a Context>
    ensures { option_copied result ≡ option_or (option_copied a.entry) (option_copied b.entry) }
{
    match a {
        Some(x) => Some(x),
        None => b,
    }
}

/// The extension of a context.
pub fn extension_of(x: &Context) -> Option<&ExtensionId>
    ensures { option_copied result ≡ extension_of x.now }
{
    match x {
        Context::Page { ext, path: _ } => Some(ext),
        Context::Content { ext, .. } => Some(ext),
        Context::Web { .. } => None,
    }
}

fn is_extension(own: Option<&ExtensionId>, id: &ExtensionId) -> bool
    ensures { result ≡ is_extension (option_copied own.entry) id.now }
{
    match own {
        Some(ext) => ext.is(id),
        None => false,
    }
}

fn is_page_of(own: Option<&ExtensionId>, y: &Context) -> bool
    ensures { result ≡ is_page_of (option_copied own.entry) y.now }
{
    match y {
        Context::Page { ext, path: _ } => is_extension(own, ext),
        _ => false,
    }
}

fn is_frame(given: Option<FrameId>, frame: FrameId) -> bool
    ensures { result ≡ is_frame given frame }
{
    match given {
        Some(f) => f == frame,
        None => true,
    }
}

fn is_script_in(own: Option<&ExtensionId>, t: TabId, f: Option<FrameId>, y: &Context) -> bool
    ensures { result ≡ is_script_in (option_copied own.entry) t f y.now }
{
    match y {
        Context::Content {
            ext,
            tab,
            frame,
            url: _,
        } => { is_extension(own, ext) && t == *tab && is_frame(f, *frame) }
        _ => false,
    }
}

/// Whether a target of a caller from that extension names the context.
pub fn names(own: Option<&ExtensionId>, target: &Target, y: &Context) -> bool
    ensures { result ≡ names (option_copied own.entry) target.now y.now }
{
    match target {
        Target::Own => is_page_of(own, y),
        Target::Other(id) => is_page_of(Some(id), y),
        Target::Tab(t, f) => is_script_in(own, *t, *f, y),
    }
}

/// Whether what is for the target comes to it from outside.
fn is_external(target: &Target) -> bool
    ensures { result ≡ is_external target.now }
{
    matches!(target, Target::Other(_))
}

/// Whether one who listens so hears that sort, from its own extension or from outside.
pub fn hears(sort: Sort, external: bool, l: Listens) -> bool
    ensures { result ≡ hears sort external l }
{
    match (sort, external) {
        (Sort::Connection, true) => l.external_connect,
        (Sort::Connection, false) => l.connect,
        (Sort::Message, true) => l.external_message,
        (Sort::Message, false) => l.message,
    }
}

fn reaches(own: Option<&ExtensionId>, target: &Target, sort: Sort, y: &Context, l: Listens) -> bool
    ensures { result ≡ reaches (option_copied own.entry) target.now sort y.now l }
{
    names(own, target, y) && hears(sort, is_external(target), l)
}

fn reaches_from(
    x: Option<&Context>,
    target: &Target,
    sort: Sort,
    y: Option<&Context>,
    l: Listens,
) -> bool
    ensures { result ≡ reaches_from (option_copied x.entry) target.now sort (option_copied y.entry) l }
{
    match (x, y) {
        (Some(x), Some(y)) => reaches(extension_of(x), &meant(x, target), sort, y, l),
        _ => false,
    }
}

/// Whether context d is a receiver of what c sends to the target.
pub fn is_receiver(
    entries: &[Entry],
    c: ContextNo,
    target: &Target,
    sort: Sort,
    d: ContextNo,
) -> bool
    ensures { result ≡ is_receiver (reverse entries.now) c target.now sort d }
{
    d != c
        && is_live(entries, d)
        && reaches_from(
            context_of(entries, c),
            target,
            sort,
            context_of(entries, d),
            listens_of(entries, d),
        )
}
