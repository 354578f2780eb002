//! Which line a text is, by its words alone.
ghost use Rattle.std.specs.Prelude.{◌≡◌, IfSome, IfNone, option_copied};
ghost use Rattle.std.specs.Option.{option_map};
ghost use Rattle.wx_script.specs.Line as forms;
ghost use Rattle.wx_script.specs.Spelling.{spelling, IsLine};
ghost use Rattle.wx_script.specs.View.{target_and_rest_view, act_view, command_view};
ghost use Rattle.wx_script.specs.View.{document_view, context_view, line_view};

use crate::word::{
    count, frame_id, is_comment, is_given, is_word, name, name_and_rest, path, split_word, tab_id,
    word_text,
};
use wx_context::Listens;
use wx_id::{FrameId, TabId};

/// Whom a command is for, with the name of an extension.
#[derive(Clone, Copy)]
pub(crate) enum NamedTarget<'a> {
    Own,
    Extension(&'a str),
    Tab(TabId, Option<FrameId>),
}

/// What an `await` waits for.
#[derive(Clone, Copy)]
pub(crate) enum Awaited {
    Connect,
    Message,
    Request,
    Reply,
    Close,
}

/// What a command asks for, with the name of its variable.
#[derive(Clone, Copy)]
pub(crate) enum NamedAct<'a> {
    Listen(Listens),
    /// With the port name.
    Connect(&'a str, NamedTarget<'a>, &'a str),
    Post(&'a str, &'a [u8]),
    Disconnect(&'a str),
    Send(&'a str, NamedTarget<'a>, &'a [u8]),
    Reply(&'a str, &'a [u8]),
    ReplySame(&'a str),
    Decline(&'a str),
    /// With the host's name.
    Native(&'a str, &'a str),
    /// With the host's name.
    Ask(&'a str, &'a str, &'a [u8]),
    Take,
    Await(Awaited, &'a str),
    Echo(u32),
}

/// A command as it stands in a script line.
#[derive(Clone, Copy)]
pub(crate) enum NamedCommand<'a> {
    Plain(NamedAct<'a>),
    Repeat(u32, NamedAct<'a>),
}

/// The document in a frame of a tab, by its address.
#[derive(Clone, Copy)]
pub(crate) struct Document<'a> {
    pub(crate) tab: TabId,
    pub(crate) frame: FrameId,
    pub(crate) url: &'a str,
}

/// The context of an endpoint, with the name of its extension.
#[derive(Clone, Copy)]
pub(crate) enum NamedContext<'a> {
    /// With its path.
    Page(&'a str, &'a str),
    Content(&'a str, Document<'a>),
    Web(Document<'a>),
}

/// A line of a scene after its head line.
#[derive(Clone, Copy)]
pub(crate) enum Line<'a> {
    /// An empty line, or one that begins with `#`.
    Comment(&'a [u8]),
    /// With its id, and the file of its manifest.
    Extension(&'a str, &'a [u8], Option<&'a str>),
    /// The file of a host's manifest.
    Host(&'a str),
    Endpoint(&'a str, NamedContext<'a>),
    Script(NamedCommand<'a>),
}

/// The file that stands after an id, if one does.
#[tactic(auto, unfolding(crate::specs::Line::file_at))]
fn file_of(text: Option<&[u8]>) -> Option<Option<&str>>
    ensures { option_map option_copied result ≡ forms.file_at (option_copied text.entry) }
{
    match text {
        Some(text) => Some(Some(word_text(text)?)),
        None => Some(None),
    }
}

#[tactic(auto, unfolding(crate::specs::Line::extension_at))]
fn extension_of(text: &[u8]) -> Option<Line<'_>>
    ensures { option_map line_view result ≡ forms.extension_at text.now }
{
    let (name, rest) = name_and_rest(text)?;
    let (id, file) = split_word(rest);
    let file = file_of(file)?;
    if is_word(id) {
        Some(Line::Extension(name, id, file))
    } else {
        None
    }
}

#[tactic(auto, unfolding(crate::specs::Line::host_at))]
fn host_of(text: &[u8]) -> Option<Line<'_>>
    ensures { option_map line_view result ≡ forms.host_at text.now }
{
    Some(Line::Host(word_text(text)?))
}

#[tactic(auto, unfolding(crate::specs::Line::page_at))]
fn page_of(text: &[u8]) -> Option<NamedContext<'_>>
    ensures { option_map context_view result ≡ forms.page_at text.now }
{
    let (ext, word) = name_and_rest(text)?;
    let path = path(word)?;
    Some(NamedContext::Page(ext, path))
}

#[tactic(auto, unfolding(crate::specs::Line::document_at))]
fn document_of(text: &[u8]) -> Option<Document<'_>>
    ensures { option_map document_view result ≡ forms.document_at text.now }
{
    let (word, rest) = split_word(text);
    let tab = tab_id(word)?;
    let (word, url) = split_word(rest?);
    let frame = frame_id(word)?;
    let url = word_text(url?)?;
    Some(Document { tab, frame, url })
}

#[tactic(auto, unfolding(crate::specs::Line::content_at))]
fn content_of(text: &[u8]) -> Option<NamedContext<'_>>
    ensures { option_map context_view result ≡ forms.content_at text.now }
{
    let (ext, rest) = name_and_rest(text)?;
    let document = document_of(rest)?;
    Some(NamedContext::Content(ext, document))
}

#[tactic(auto, unfolding(crate::specs::Line::web_at))]
fn web_of(text: &[u8]) -> Option<NamedContext<'_>>
    ensures { option_map context_view result ≡ forms.web_at text.now }
{
    Some(NamedContext::Web(document_of(text)?))
}

/// A context, by its word and what stands after the endpoint's name.
#[tactic(auto, unfolding(crate::specs::Line::context_with))]
fn context_of<'a>(word: &[u8], rest: &'a [u8]) -> Option<NamedContext<'a>>
    ensures { option_map context_view result ≡ forms.context_with word.now rest.now }
{
    if word == b"page".as_slice() {
        page_of(rest)
    } else if word == b"content".as_slice() {
        content_of(rest)
    } else if word == b"web".as_slice() {
        web_of(rest)
    } else {
        None
    }
}

#[tactic(auto, unfolding(crate::specs::Line::endpoint_with))]
fn endpoint_of<'a>(word: &[u8], text: &'a [u8]) -> Option<Line<'a>>
    ensures { option_map line_view result ≡ forms.endpoint_with word.now text.now }
{
    let (name, rest) = name_and_rest(text)?;
    let context = context_of(word, rest)?;
    Some(Line::Endpoint(name, context))
}

/// Whether the flag is the first word of what is left, and what is left after it.
#[tactic(auto, unfolding(crate::specs::Line::flag_at))]
fn flag<'a>(flag: &[u8], left: Option<&'a [u8]>) -> (bool, Option<&'a [u8]>)
    ensures { (result.0, option_copied result.1) ≡ forms.flag_at flag.now (option_copied left.entry) }
{
    let Some(text) = left else {
        return (false, None);
    };
    let (word, rest) = split_word(text);
    if word == flag {
        (true, rest)
    } else {
        (false, left)
    }
}

/// What the flags in front listen to, and what is left after them.
#[tactic(auto, unfolding(crate::specs::Line::flags_at))]
fn flags(text: &[u8]) -> (Listens, Option<&[u8]>)
    ensures { (result.0, option_copied result.1) ≡ forms.flags_at text.now }
{
    let (connect, left) = flag(b"connect", Some(text));
    let (message, left) = flag(b"message", left);
    let (external_connect, left) = flag(b"external-connect", left);
    let (external_message, left) = flag(b"external-message", left);
    let listens = Listens {
        connect,
        message,
        external_connect,
        external_message,
    };
    (listens, left)
}

/// What `none` listens to.
const NOTHING: Listens = Listens {
    connect: false,
    message: false,
    external_connect: false,
    external_message: false,
};

#[tactic(auto, unfolding(crate::specs::Line::listen_at))]
fn listen_of(text: &[u8]) -> Option<NamedAct<'_>>
    ensures { option_map act_view result ≡ forms.listen_at text.now }
{
    if text == b"none".as_slice() {
        return Some(NamedAct::Listen(NOTHING));
    }
    match flags(text) {
        (listens, None) => Some(NamedAct::Listen(listens)),
        (_, Some(_)) => None,
    }
}

/// An extension as a target, and what stands after the next space.
#[tactic(auto, unfolding(crate::specs::Line::extension_target_at))]
fn extension_target_of(text: &[u8]) -> Option<(NamedTarget<'_>, Option<&[u8]>)>
    ensures { option_map target_and_rest_view result ≡ forms.extension_target_at text.now }
{
    let (word, rest) = split_word(text);
    let name = name(word)?;
    Some((NamedTarget::Extension(name), rest))
}

/// A frame of a tab, by what stands after `frame`.
#[tactic(auto, unfolding(crate::specs::Line::frame_at))]
fn frame_of(tab: TabId, text: &[u8]) -> Option<(NamedTarget<'_>, Option<&[u8]>)>
    ensures { option_map target_and_rest_view result ≡ forms.frame_at tab text.now }
{
    let (word, rest) = split_word(text);
    let frame = frame_id(word)?;
    Some((NamedTarget::Tab(tab, Some(frame)), rest))
}

/// A tab or a frame of it, by what stands after the tab.
#[tactic(auto, unfolding(crate::specs::Line::tab_with))]
fn tab_or_frame<'a>(
    tab: TabId,
    behind: Option<&'a [u8]>,
) -> Option<(NamedTarget<'a>, Option<&'a [u8]>)>
    ensures { option_map target_and_rest_view result ≡ forms.tab_with tab (option_copied behind.entry) }
{
    let Some(text) = behind else {
        return Some((NamedTarget::Tab(tab, None), None));
    };
    let (word, rest) = split_word(text);
    if word == b"frame".as_slice() {
        frame_of(tab, rest?)
    } else {
        Some((NamedTarget::Tab(tab, None), behind))
    }
}

#[tactic(auto, unfolding(crate::specs::Line::tab_at))]
fn tab_of(text: &[u8]) -> Option<(NamedTarget<'_>, Option<&[u8]>)>
    ensures { option_map target_and_rest_view result ≡ forms.tab_at text.now }
{
    let (word, rest) = split_word(text);
    let tab = tab_id(word)?;
    tab_or_frame(tab, rest)
}

/// A target, and what stands after the next space.
#[tactic(auto, unfolding(crate::specs::Line::target_at))]
fn target_of(text: &[u8]) -> Option<(NamedTarget<'_>, Option<&[u8]>)>
    ensures { option_map target_and_rest_view result ≡ forms.target_at text.now }
{
    let (word, rest) = split_word(text);
    if word == b"own".as_slice() {
        Some((NamedTarget::Own, rest))
    } else if word == b"ext".as_slice() {
        extension_target_of(rest?)
    } else if word == b"tab".as_slice() {
        tab_of(rest?)
    } else {
        None
    }
}

/// The port name after a target, empty where none is given.
#[tactic(auto, unfolding(crate::specs::Line::port_name_at))]
fn port_name_of(text: Option<&[u8]>) -> Option<&str>
    ensures { option_copied result ≡ forms.port_name_at (option_copied text.entry) }
{
    match text {
        Some(text) => word_text(text.strip_prefix(b"name ")?),
        None => Some(""),
    }
}

#[tactic(auto, unfolding(crate::specs::Line::connect_at))]
fn connect_of(text: &[u8]) -> Option<NamedAct<'_>>
    ensures { option_map act_view result ≡ forms.connect_at text.now }
{
    let (var, rest) = name_and_rest(text)?;
    let (target, rest) = target_of(rest)?;
    let name = port_name_of(rest)?;
    Some(NamedAct::Connect(var, target, name))
}

#[tactic(auto, unfolding(crate::specs::Line::post_at))]
fn post_of(text: &[u8]) -> Option<NamedAct<'_>>
    ensures { option_map act_view result ≡ forms.post_at text.now }
{
    let (var, json) = name_and_rest(text)?;
    if is_given(json) {
        Some(NamedAct::Post(var, json))
    } else {
        None
    }
}

#[tactic(auto, unfolding(crate::specs::Line::disconnect_at))]
fn disconnect_of(text: &[u8]) -> Option<NamedAct<'_>>
    ensures { option_map act_view result ≡ forms.disconnect_at text.now }
{
    Some(NamedAct::Disconnect(name(text)?))
}

/// An act on a channel, by its first word and what stands after that.
#[tactic(auto, unfolding(crate::specs::Line::channel_act_with))]
fn channel_act_of<'a>(word: &[u8], rest: &'a [u8]) -> Option<NamedAct<'a>>
    ensures { option_map act_view result ≡ forms.channel_act_with word.now rest.now }
{
    if word == b"connect".as_slice() {
        connect_of(rest)
    } else if word == b"post".as_slice() {
        post_of(rest)
    } else if word == b"disconnect".as_slice() {
        disconnect_of(rest)
    } else {
        None
    }
}

#[tactic(auto, unfolding(crate::specs::Line::native_at))]
fn native_of(text: &[u8]) -> Option<NamedAct<'_>>
    ensures { option_map act_view result ≡ forms.native_at text.now }
{
    let (var, word) = name_and_rest(text)?;
    let host = word_text(word)?;
    Some(NamedAct::Native(var, host))
}

#[tactic(auto, unfolding(crate::specs::Line::ask_at))]
fn ask_of(text: &[u8]) -> Option<NamedAct<'_>>
    ensures { option_map act_view result ≡ forms.ask_at text.now }
{
    let (var, rest) = name_and_rest(text)?;
    let (word, json) = split_word(rest);
    let json = json?;
    let host = word_text(word)?;
    if is_given(json) {
        Some(NamedAct::Ask(var, host, json))
    } else {
        None
    }
}

/// An act that starts a native host, or one on a channel, by its first word and what stands after that.
#[tactic(auto, unfolding(crate::specs::Line::native_act_with))]
fn native_act_of<'a>(word: &[u8], rest: &'a [u8]) -> Option<NamedAct<'a>>
    ensures { option_map act_view result ≡ forms.native_act_with word.now rest.now }
{
    if word == b"native".as_slice() {
        native_of(rest)
    } else if word == b"ask".as_slice() {
        ask_of(rest)
    } else {
        channel_act_of(word, rest)
    }
}

#[tactic(auto, unfolding(crate::specs::Line::send_at))]
fn send_of(text: &[u8]) -> Option<NamedAct<'_>>
    ensures { option_map act_view result ≡ forms.send_at text.now }
{
    let (var, rest) = name_and_rest(text)?;
    let (target, rest) = target_of(rest)?;
    let json = rest?;
    if is_given(json) {
        Some(NamedAct::Send(var, target, json))
    } else {
        None
    }
}

#[tactic(auto, unfolding(crate::specs::Line::reply_at, crate::specs::Line::reply_with))]
fn reply_of(text: &[u8]) -> Option<NamedAct<'_>>
    ensures { option_map act_view result ≡ forms.reply_at text.now }
{
    let (word, rest) = split_word(text);
    let rest = rest?;
    if word == b"same".as_slice() {
        return Some(NamedAct::ReplySame(name(rest)?));
    }
    let var = name(word)?;
    if is_given(rest) {
        Some(NamedAct::Reply(var, rest))
    } else {
        None
    }
}

#[tactic(auto, unfolding(crate::specs::Line::decline_at))]
fn decline_of(text: &[u8]) -> Option<NamedAct<'_>>
    ensures { option_map act_view result ≡ forms.decline_at text.now }
{
    Some(NamedAct::Decline(name(text)?))
}

/// An act on a request or a channel, by its first word and what stands after that.
#[tactic(auto, unfolding(crate::specs::Line::request_act_with))]
fn request_act_of<'a>(word: &[u8], rest: &'a [u8]) -> Option<NamedAct<'a>>
    ensures { option_map act_view result ≡ forms.request_act_with word.now rest.now }
{
    if word == b"send".as_slice() {
        send_of(rest)
    } else if word == b"reply".as_slice() {
        reply_of(rest)
    } else if word == b"decline".as_slice() {
        decline_of(rest)
    } else {
        native_act_of(word, rest)
    }
}

#[tactic(auto, unfolding(crate::specs::Line::awaited_at))]
fn event_of(word: &[u8]) -> Option<Awaited>
    ensures { result ≡ forms.awaited_at word.now }
{
    if word == b"connect".as_slice() {
        Some(Awaited::Connect)
    } else if word == b"message".as_slice() {
        Some(Awaited::Message)
    } else if word == b"request".as_slice() {
        Some(Awaited::Request)
    } else if word == b"reply".as_slice() {
        Some(Awaited::Reply)
    } else if word == b"close".as_slice() {
        Some(Awaited::Close)
    } else {
        None
    }
}

#[tactic(auto, unfolding(crate::specs::Line::await_at))]
fn await_of(text: &[u8]) -> Option<NamedAct<'_>>
    ensures { option_map act_view result ≡ forms.await_at text.now }
{
    let (word, rest) = split_word(text);
    let var = rest?;
    let event = event_of(word)?;
    Some(NamedAct::Await(event, name(var)?))
}

#[tactic(auto, unfolding(crate::specs::Line::echo_at))]
fn echo_of(text: &[u8]) -> Option<NamedAct<'_>>
    ensures { option_map act_view result ≡ forms.echo_at text.now }
{
    Some(NamedAct::Echo(count(text)?))
}

#[tactic(auto, unfolding(crate::specs::Line::act_at, crate::specs::Line::act_with))]
fn act_of(text: &[u8]) -> Option<NamedAct<'_>>
    ensures { option_map act_view result ≡ forms.act_at text.now }
{
    if text == b"take".as_slice() {
        return Some(NamedAct::Take);
    }
    let (word, rest) = split_word(text);
    let rest = rest?;
    if word == b"listen".as_slice() {
        listen_of(rest)
    } else if word == b"await".as_slice() {
        await_of(rest)
    } else if word == b"echo".as_slice() {
        echo_of(rest)
    } else {
        request_act_of(word, rest)
    }
}

#[tactic(auto, unfolding(crate::specs::Line::repeat_at))]
fn repeat_of(text: &[u8]) -> Option<NamedCommand<'_>>
    ensures { option_map command_view result ≡ forms.repeat_at text.now }
{
    let (word, rest) = split_word(text);
    let times = count(word)?;
    let act = act_of(rest?)?;
    Some(NamedCommand::Repeat(times, act))
}

#[tactic(auto, unfolding(crate::specs::Line::command_at))]
fn command_of(text: &[u8]) -> Option<NamedCommand<'_>>
    ensures { option_map command_view result ≡ forms.command_at text.now }
{
    match text.strip_prefix(b"repeat ") {
        Some(repeated) => repeat_of(repeated),
        None => Some(NamedCommand::Plain(act_of(text)?)),
    }
}

#[tactic(auto, unfolding(crate::specs::Line::declaration_at, crate::specs::Line::declaration_with))]
fn declaration_of(text: &[u8]) -> Option<Line<'_>>
    ensures { option_map line_view result ≡ forms.declaration_at text.now }
{
    let (word, rest) = split_word(text);
    let rest = rest?;
    if word == b"extension".as_slice() {
        extension_of(rest)
    } else if word == b"host".as_slice() {
        host_of(rest)
    } else {
        endpoint_of(word, rest)
    }
}

#[tactic(auto, unfolding(crate::specs::Line::line_at))]
fn read_line(text: &[u8]) -> Option<Line<'_>>
    ensures { option_map line_view result ≡ forms.line_at text.now }
{
    if is_comment(text) {
        return Some(Line::Comment(text));
    }
    match text.strip_prefix(b"  ") {
        Some(command) => Some(Line::Script(command_of(command)?)),
        None => declaration_of(text),
    }
}

/// The line that a text is.
pub(crate) fn line_of(text: &[u8]) -> Option<Line<'_>>
    ensures exact { option_map line_view result ≡ forms.line_at text.now }
    // What is read is spelled so,
    ensures found { IfSome result (λ line. IsLine (line_view line) × (text.now ≡ spelling (line_view line))) }
    // and what is spelled so is read.
    ensures none { IfNone result ((line : forms.Line) → IsLine line → text.now ≡ spelling line → ⊥) }
{
    read_line(text)
}
