//! The scene so far: each line is judged against it, and added.
ghost use Rattle.std.specs.Prelude.{◌≡◌, MatchResult, OnOk, IfOk, ◌<◌, length, IsTrue, option_copied};
ghost use Rattle.wx_context.specs.Paths.{is_page_path};
ghost use Rattle.wx_script.specs.Adding.{so_far, MakesDraft, MakesResult, IsIndexed};
ghost use Rattle.wx_script.specs.Draft as rules;
ghost use Rattle.wx_script.specs.Draft.{fresh, extension_added, host_added, declared, web_url, context_of};
ghost use Rattle.wx_script.specs.Draft.{endpoint_added, used, json_of, target_of, await_of, act_of, named_act};
ghost use Rattle.wx_script.specs.Draft.{command_by, with_command, variables_after, command_added, line_added};
ghost use Rattle.wx_script.specs.Names.{has_extension, has_host, has_endpoint, id_under};
ghost use Rattle.wx_script.specs.Spelling.{IsNamedContext, IsLine};
ghost use Rattle.wx_script.specs.View.{target_view, act_view, command_view, context_view, line_view};
ghost use Rattle.wx_script.specs.declared.draft.LineFault.TheVariants as fault;

use crate::line::{Awaited, Line, NamedAct, NamedCommand, NamedContext, NamedTarget};
use crate::names::{Names, VariableNames};
use crate::scene::{SceneEndpoint, SceneExtension, SceneFile, SceneKind};
use crate::script::{Act, Command, Script, Var};
use crate::word::file_name;
use std::alloc::{AllocError, AllocFailed, Global};
use wx_context::{Context, PagePath, Target, UrlFault, WebUrl};
use wx_id::{ExtensionId, NoMemory, Utf8Text};
use wx_machine::JsonText;

/// The scene so far, and the variables that the last script binds. Beside the lists stand the names and ids of
/// what is in them, by which it is found.
#[derive(Drop)]
pub(crate) struct Draft {
    pub(crate) extensions: Vec<SceneExtension>,
    pub(crate) hosts: Vec<Utf8Text>,
    pub(crate) files: Vec<SceneFile>,
    pub(crate) extension_names: Names,
    pub(crate) extension_ids: Names,
    pub(crate) host_names: Names,
    pub(crate) endpoints: Vec<SceneEndpoint>,
    pub(crate) endpoint_names: Names,
    pub(crate) variables: VariableNames,
}

/// Why a line is not taken.
#[derive(Clone, Copy)]
pub(crate) enum LineFault {
    Bad(SceneKind),
    NoMemory,
}

impl From<NoMemory> for LineFault {
    ghost use Rattle.std.specs.Prelude.{◌≡◌};
    ghost use Rattle.wx_script.specs.declared.draft.LineFault.TheVariants.{NoMemory};

    ghost from_gives = { λ _ e. e ≡ NoMemory };

    fn from(_e: NoMemory) -> LineFault {
        LineFault::NoMemory
    }
}

impl From<AllocError> for LineFault {
    ghost use Rattle.std.specs.Prelude.{◌≡◌};
    ghost use Rattle.wx_script.specs.declared.draft.LineFault.TheVariants.{NoMemory};

    ghost from_gives = { λ _ e. e ≡ NoMemory };

    fn from(_e: AllocError) -> LineFault {
        LineFault::NoMemory
    }
}

impl<T: Drop> From<AllocFailed<T>> for LineFault {
    ghost use Rattle.std.specs.Prelude.{◌≡◌};
    ghost use Rattle.wx_script.specs.declared.draft.LineFault.TheVariants.{NoMemory};

    ghost from_gives = { λ _ e. e ≡ NoMemory };

    fn from(_e: AllocFailed<T>) -> LineFault {
        LineFault::NoMemory
    }
}

impl Draft {
    /// Nothing is declared.
    pub(crate) fn new(alloc: Global) -> Draft
        ensures fresh { so_far result ≡ fresh }
        ensures indexed { IsIndexed result }
    {
        Draft {
            extensions: Vec::new(alloc),
            hosts: Vec::new(alloc),
            files: Vec::new(alloc),
            extension_names: Names::new(alloc),
            extension_ids: Names::new(alloc),
            host_names: Names::new(alloc),
            endpoints: Vec::new(alloc),
            endpoint_names: Names::new(alloc),
            variables: VariableNames::new(alloc),
        }
    }

    /// Whether an extension has this name or this id.
    fn has_extension(&self, name: &str, id: &str) -> bool
        requires { IsIndexed self.now }
        ensures { result ≡ has_extension name.now id.now self.now.extensions.items }
    {
        self.extension_names.contains(name) || self.extension_ids.contains(id)
    }

    /// Whether the file of a host's manifest has this file's own name.
    fn has_host(&self, file: &str) -> bool
        requires { IsIndexed self.now }
        ensures { result ≡ has_host file.now self.now.hosts.items }
    {
        self.host_names.contains(file_name(file))
    }

    /// Whether an endpoint has this name.
    fn has_endpoint(&self, name: &str) -> bool
        requires { IsIndexed self.now }
        ensures { result ≡ has_endpoint name.now self.now.endpoints.items }
    {
        self.endpoint_names.contains(name)
    }

    /// The id of the extension with this name.
    #[tactic(auto, using(crate::proofs::NameLemmas::declared))]
    fn id_under(&self, name: &str) -> Option<ExtensionId>
        requires { IsIndexed self.now }
        ensures { result ≡ id_under name.now self.now.extensions.items }
    {
        let place = self.extension_names.place(name)?;
        let extension = self.extensions.get(place)?;
        Some(extension.id)
    }

    /// The id of the extension with this name, or the fault that none is declared above.
    fn declared(&self, name: &str) -> Result<ExtensionId, LineFault>
        requires { IsIndexed self.now }
        ensures { MakesResult result (declared name.now self.now.extensions.items) }
    {
        match self.id_under(name) {
            Some(id) => Ok(id),
            None => Err(LineFault::Bad(SceneKind::Unknown)),
        }
    }

    /// The context that a line declares.
    fn context(&self, alloc: Global, context: NamedContext<'_>) -> Result<Context, LineFault>
        requires spelled { IsNamedContext (context_view context) }
        requires indexed { IsIndexed self.now }
        ensures { MakesResult result (context_of self.now.extensions.items (context_view context.entry)) }
    {
        match context {
            NamedContext::Page(ext, path) => {
                let ext = self.declared(ext)?;
                let path = page_path(alloc, path)?;
                Ok(Context::Page { ext, path })
            }
            NamedContext::Content(ext, document) => {
                let ext = self.declared(ext)?;
                let url = web_url(alloc, document.url)?;
                Ok(Context::Content {
                    ext,
                    tab: document.tab,
                    frame: document.frame,
                    url,
                })
            }
            NamedContext::Web(document) => {
                let url = web_url(alloc, document.url)?;
                Ok(Context::Web {
                    tab: document.tab,
                    frame: document.frame,
                    url,
                })
            }
        }
    }

    /// Whom a command is for.
    fn target(&self, target: NamedTarget<'_>) -> Result<Target, LineFault>
        requires { IsIndexed self.now }
        ensures { MakesResult result (target_of self.now.extensions.items (target_view target.entry)) }
    {
        match target {
            NamedTarget::Own => Ok(Target::Own),
            NamedTarget::Extension(name) => Ok(Target::Other(self.declared(name)?)),
            NamedTarget::Tab(tab, frame) => Ok(Target::Tab(tab, frame)),
        }
    }

    /// An act with its variable's number.
    fn act(&self, alloc: Global, act: NamedAct<'_>) -> Result<Act, LineFault>
        requires { IsIndexed self.now }
        ensures { MakesResult result (act_of self.now.extensions.items self.now.variables (act_view act.entry)) }
    {
        let VariableNames {
            channels,
            asked,
            received,
        } = &self.variables;
        match act {
            NamedAct::Listen(listens) => Ok(Act::Listen(listens)),
            NamedAct::Connect(name, target, port) => {
                let target = self.target(target)?;
                let var = bound(channels, name)?;
                Ok(Act::Connect(var, target, Utf8Text::new(alloc, port)?))
            }
            NamedAct::Post(name, json) => {
                let var = used(channels, name)?;
                Ok(Act::Post(var, json_text(alloc, json)?))
            }
            NamedAct::Disconnect(name) => Ok(Act::Disconnect(used(channels, name)?)),
            NamedAct::Send(name, target, json) => {
                let target = self.target(target)?;
                let var = bound(asked, name)?;
                Ok(Act::Send(var, target, json_text(alloc, json)?))
            }
            NamedAct::Reply(name, json) => {
                let var = used(received, name)?;
                Ok(Act::Reply(var, json_text(alloc, json)?))
            }
            NamedAct::ReplySame(name) => Ok(Act::ReplySame(used(received, name)?)),
            NamedAct::Decline(name) => Ok(Act::Decline(used(received, name)?)),
            NamedAct::Native(name, host) => {
                Ok(Act::Native(bound(channels, name)?, Utf8Text::new(alloc, host)?))
            }
            NamedAct::Ask(name, host, json) => {
                let json = json_text(alloc, json)?;
                Ok(Act::Ask(bound(asked, name)?, Utf8Text::new(alloc, host)?, json))
            }
            NamedAct::Take => Ok(Act::Take),
            NamedAct::Await(event, name) => awaiting(&self.variables, event, name),
            NamedAct::Echo(n) => Ok(Act::Echo(n)),
        }
    }
}

/// The text of a file's name, if there is one.
fn file_text(alloc: Global, file: Option<&str>) -> Result<Option<Utf8Text>, NoMemory>
    ensures { IfOk result (λ text. text ≡ option_copied file.entry) }
{
    match file {
        Some(file) => Ok(Some(Utf8Text::new(alloc, file)?)),
        None => Ok(None),
    }
}

#[tactic(auto, using(crate::proofs::NameLemmas::declared))]
fn add_extension(
    draft: &mut Draft,
    alloc: Global,
    name: &str,
    id: &[u8],
    file: Option<&str>,
) -> Result<(), LineFault>
    requires { IsIndexed draft.old }
    ensures made { MakesDraft (so_far draft.new) result
        (extension_added (so_far draft.old) name.now id.now (option_copied file.entry)) }
    ensures indexed { OnOk result (IsIndexed draft.new) }
{
    let Ok(id) = ExtensionId::read(id) else {
        return Err(LineFault::Bad(SceneKind::Id));
    };
    if draft.has_extension(name, id.text()) {
        return Err(LineFault::Bad(SceneKind::Repeated));
    }
    draft.extension_names.add(alloc, name)?;
    draft.extension_ids.add(alloc, id.text())?;
    if file.is_some() {
        draft
            .files
            .push(SceneFile::Extension(draft.extensions.len() as u64))?;
    }
    let name = Utf8Text::new(alloc, name)?;
    let file = file_text(alloc, file)?;
    draft.extensions.push(SceneExtension { name, id, file })?;
    Ok(())
}

#[tactic(auto, using(crate::proofs::NameLemmas::declared))]
fn add_host(draft: &mut Draft, alloc: Global, file: &str) -> Result<(), LineFault>
    requires { IsIndexed draft.old }
    ensures made { MakesDraft (so_far draft.new) result (host_added (so_far draft.old) file.now) }
    ensures indexed { OnOk result (IsIndexed draft.new) }
{
    if draft.has_host(file) {
        return Err(LineFault::Bad(SceneKind::Repeated));
    }
    draft.host_names.add(alloc, file_name(file))?;
    let file = Utf8Text::new(alloc, file)?;
    draft.files.push(SceneFile::Host(draft.hosts.len() as u64))?;
    draft.hosts.push(file)?;
    Ok(())
}

/// The path of a page.
fn page_path(alloc: Global, path: &str) -> Result<PagePath, LineFault>
    requires { IsTrue (is_page_path path.now) }
    ensures { MatchResult result (λ p. p ≡ path.now) (λ e. e ≡ fault.NoMemory) }
{
    match PagePath::read(alloc, path) {
        Ok(path) => Ok(path),
        Err(_) => Err(LineFault::NoMemory),
    }
}

/// The address of a document that this text is.
fn web_url(alloc: Global, text: &str) -> Result<WebUrl, LineFault>
    ensures { MakesResult result (web_url text.now) }
{
    match WebUrl::read(alloc, text) {
        Ok(url) => Ok(url),
        Err(UrlFault::BadUrl) => Err(LineFault::Bad(SceneKind::Url)),
        Err(UrlFault::NoMemory) => Err(LineFault::NoMemory),
    }
}

#[tactic(auto, using(crate::proofs::NameLemmas::declared))]
fn add_endpoint(
    draft: &mut Draft,
    alloc: Global,
    name: &str,
    context: NamedContext<'_>,
) -> Result<(), LineFault>
    requires spelled { IsNamedContext (context_view context) }
    requires indexed { IsIndexed draft.old }
    ensures made { MakesDraft (so_far draft.new) result
        (endpoint_added (so_far draft.old) name.now (context_view context.entry)) }
    ensures indexed { OnOk result (IsIndexed draft.new) }
{
    if draft.has_endpoint(name) {
        return Err(LineFault::Bad(SceneKind::Repeated));
    }
    let context = draft.context(alloc, context)?;
    if draft.endpoints.len() >= 1024 {
        return Err(LineFault::Bad(SceneKind::Many));
    }
    draft.endpoint_names.add(alloc, name)?;
    let name = Utf8Text::new(alloc, name)?;
    draft.endpoints.push(SceneEndpoint {
        name,
        context,
        script: Script::new(alloc),
    })?;
    draft.variables.clear();
    Ok(())
}

/// The variable with this place. A number of 2^32 or more is memory that cannot be had.
fn numbered(place: usize) -> Result<Var, LineFault>
    ensures { MatchResult result (λ v. v.0 ≡ place) (λ e. e ≡ fault.NoMemory) }
{
    match u32::try_from(place) {
        Ok(n) => Ok(Var(n)),
        Err(_) => Err(LineFault::NoMemory),
    }
}

/// The variable that a command uses.
fn used(variables: &Names, name: &str) -> Result<Var, LineFault>
    ensures { MakesResult result (used name.now variables.now) }
{
    match variables.place(name) {
        Some(place) => numbered(place),
        None => Err(LineFault::Bad(SceneKind::Unbound)),
    }
}

/// The variable that a command binds.
fn bound(variables: &Names, name: &str) -> Result<Var, LineFault>
    ensures { MatchResult result (λ v. v ≡ rules.bound name.now variables.now) (λ e. e ≡ fault.NoMemory) }
{
    match variables.place(name) {
        Some(place) => numbered(place),
        None => numbered(variables.len()),
    }
}

/// The JSON text that the rest of a line is.
fn json_text(alloc: Global, json: &[u8]) -> Result<JsonText, LineFault>
    ensures { MakesResult result (json_of json.now) }
{
    let bytes = Vec::from_slice(alloc, json)?;
    match JsonText::new(bytes) {
        Ok(text) => Ok(text),
        Err(_) => Err(LineFault::Bad(SceneKind::Json)),
    }
}

/// An `await` with its variable's number.
fn awaiting(variables: &VariableNames, event: Awaited, name: &str) -> Result<Act, LineFault>
    ensures { MakesResult result (await_of variables.now event name.now) }
{
    match event {
        Awaited::Connect => Ok(Act::AwaitConnect(bound(&variables.channels, name)?)),
        Awaited::Message => Ok(Act::AwaitMessage(used(&variables.channels, name)?)),
        Awaited::Request => Ok(Act::AwaitRequest(bound(&variables.received, name)?)),
        Awaited::Reply => Ok(Act::AwaitReply(used(&variables.asked, name)?)),
        Awaited::Close => Ok(Act::AwaitClose(used(&variables.channels, name)?)),
    }
}

/// Gives the last endpoint a command.
#[tactic(auto, using(crate::proofs::NameLemmas::declared))]
fn push_command(endpoints: &mut Vec<SceneEndpoint>, command: Command) -> Result<(), AllocError>
    requires { 0 < length endpoints.old.items }
    ensures { OnOk result (endpoints.new.items ≡ with_command command endpoints.old.items) }
{
    let last = endpoints.len() - 1;
    endpoints[last].script.push(command)
}

/// Binds the variable of an act that binds one.
fn bind_by(
    variables: &mut VariableNames,
    alloc: Global,
    act: NamedAct<'_>,
) -> Result<(), AllocError>
    ensures { OnOk result (variables.new ≡ variables_after variables.old (act_view act.entry)) }
{
    match act {
        NamedAct::Connect(name, _, _)
        | NamedAct::Native(name, _)
        | NamedAct::Await(Awaited::Connect, name) => variables.channels.add(alloc, name),
        NamedAct::Send(name, _, _) | NamedAct::Ask(name, _, _) => variables.asked.add(alloc, name),
        NamedAct::Await(Awaited::Request, name) => variables.received.add(alloc, name),
        _ => Ok(()),
    }
}

impl<'a> NamedCommand<'a> {
    /// What the command does, which a repeated one does again and again.
    fn act(self) -> NamedAct<'a>
        ensures { act_view result ≡ named_act (command_view self.entry) }
    {
        match self {
            NamedCommand::Plain(act) => act,
            NamedCommand::Repeat(_, act) => act,
        }
    }

    /// The command with this act.
    fn with_act(self, act: Act) -> Command
        ensures { result ≡ command_by (command_view self.entry) act }
    {
        match self {
            NamedCommand::Plain(_) => Command::Plain(act),
            NamedCommand::Repeat(times, _) => Command::Repeat(times, act),
        }
    }
}

#[tactic(auto, using(crate::proofs::NameLemmas::declared))]
fn add_command(draft: &mut Draft, alloc: Global, command: NamedCommand<'_>) -> Result<(), LineFault>
    requires { IsIndexed draft.old }
    ensures made { MakesDraft (so_far draft.new) result
        (command_added (so_far draft.old) (command_view command.entry)) }
    ensures indexed { OnOk result (IsIndexed draft.new) }
{
    if draft.endpoints.is_empty() {
        return Err(LineFault::Bad(SceneKind::Order));
    }
    let act = draft.act(alloc, command.act())?;
    bind_by(&mut draft.variables, alloc, command.act())?;
    push_command(&mut draft.endpoints, command.with_act(act))?;
    Ok(())
}

/// Takes one more line.
pub(crate) fn add_line(draft: &mut Draft, alloc: Global, line: Line<'_>) -> Result<(), LineFault>
    requires spelled { IsLine (line_view line) }
    requires indexed { IsIndexed draft.old }
    ensures made { MakesDraft (so_far draft.new) result (line_added (so_far draft.old) (line_view line.entry)) }
    ensures indexed { OnOk result (IsIndexed draft.new) }
{
    match line {
        Line::Comment(_) => Ok(()),
        Line::Extension(name, id, file) => add_extension(draft, alloc, name, id, file),
        Line::Host(file) => add_host(draft, alloc, file),
        Line::Endpoint(name, context) => add_endpoint(draft, alloc, name, context),
        Line::Script(command) => add_command(draft, alloc, command),
    }
}
