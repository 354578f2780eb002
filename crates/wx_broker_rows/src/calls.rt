//! Plays: calls of the broker by contexts and hosts, one after another, each with its answer.
use crate::values::{A, B, json, name, page};
use std::alloc::Global;
use std::process::Abort;
use wx_broker::Broker;
use wx_context::{Context, Listens, Target, WebUrl};
use wx_external::World;
use wx_host_manifest::HostManifest;
use wx_id::{
    ChannelNo, ContextNo, EntryNo, Event, EventKind, ExtensionId, FrameId, HostNo, RequestNo, TabId,
};
use wx_machine::{Answer, LONGEST_SAID, Reason};
use wx_manifest::Extension;

/// A call.
#[derive(Clone, Copy)]
pub enum Step {
    /// A page of extension A enters, at that path.
    Enter(&'static str),
    /// A page of extension B enters, at that path.
    EnterOther(&'static str),
    /// A web page enters.
    EnterWeb,
    /// It listens to connections of its own extension.
    Listen,
    /// It listens to messages of its own extension.
    ListenToMessages,
    /// It connects to its own extension.
    Connect,
    /// It posts that text on that channel.
    Post(u64, &'static str),
    /// It disconnects that channel.
    Disconnect(u64),
    /// It sends that text to its own extension.
    Send(&'static str),
    /// It replies to that request with that text.
    Reply(u64, &'static str),
    /// It declines the first request.
    Decline,
    /// It takes an event.
    Take,
    /// It leaves.
    Leave,
    /// It starts the host of that name on a channel.
    ConnectNative(&'static str),
    /// It starts the host of that name for a message.
    SendNative(&'static str, &'static str),
    /// The host takes a text.
    HostTake,
    /// The host says a text.
    HostSaid(&'static str),
    /// The host ends.
    HostEnded(Reason),
}

/// What a call is answered.
#[derive(Clone, Copy)]
pub enum Want {
    /// That answer.
    Is(Answer),
    /// The event of that entry and kind.
    Told(u64, EventKind),
}

/// The number of the context or host that calls, its call, and what it is answered.
pub type Row = (u64, Step, Want);

/// The first channel.
pub const CHANNEL: ChannelNo = ChannelNo(0);

/// The first request.
pub const REQUEST: RequestNo = RequestNo(0);

const TO_NOTHING: Listens = Listens {
    connect: false,
    message: false,
    external_connect: false,
    external_message: false,
};

fn to_connections() -> Listens {
    Listens {
        connect: true,
        ..TO_NOTHING
    }
}

fn to_messages() -> Listens {
    Listens {
        message: true,
        ..TO_NOTHING
    }
}

const NATIVE: &str =
    r#"{"manifest_version":3,"name":"x","version":"1","permissions":["nativeMessaging"]}"#;

const PLAIN: &str = r#"{"manifest_version":3,"name":"x","version":"1"}"#;

const HOST_E: &str =
    r#"{"name":"e","description":"d","path":"/bin/e","type":"stdio","allowed_origins":["chrome-extension://aaaaaaaaaaaaaaaaaaaaaaaaaaaaaaaa/"]}"#;

const HOST_F: &str =
    r#"{"name":"f","description":"d","path":"/bin/f","type":"stdio","allowed_origins":[]}"#;

fn add_extension(world: &mut World, alloc: Global, id: &[u8], manifest: &str) -> Option<()> {
    let id = ExtensionId::read(id).ok()?;
    let manifest = Extension::read(alloc, manifest.as_bytes()).ok()?;
    world.add_extension(id, manifest).ok()
}

fn add_host(world: &mut World, alloc: Global, file: &str, manifest: &str) -> Option<()> {
    let host = HostManifest::read(alloc, file, manifest.as_bytes()).ok()?;
    world.add_host(host).ok()
}

fn fill(world: &mut World, alloc: Global) -> Option<()> {
    for (id, manifest) in [(A, NATIVE), (B, PLAIN)] {
        add_extension(world, alloc, id, manifest)?;
    }
    for (file, manifest) in [("f.json", HOST_F), ("e.json", HOST_E)] {
        add_host(world, alloc, file, manifest)?;
    }
    Some(())
}

/// Extension A may start hosts, extension B may not; host e lets A in, host f no extension.
pub fn world_of_hosts(rt: &impl Abort, alloc: Global) -> World {
    let mut world = World::new(alloc);
    assert!(rt; fill(&mut world, alloc).is_some(), "extensions and hosts");
    world
}

fn web(alloc: Global) -> Option<Context> {
    Some(Context::Web {
        tab: TabId(7),
        frame: FrameId(0),
        url: WebUrl::read(alloc, "https://a.b/").ok()?,
    })
}

fn enter(broker: &mut Broker, x: Context) -> Option<Answer> {
    let c = broker.enter(x).ok()?;
    Some(Answer::Entered(c))
}

/// Makes the call of context c on a target or a host, and gives its answer.
fn make_start(broker: &mut Broker, alloc: Global, c: u64, step: &Step) -> Option<Answer> {
    if c >= broker.contexts() {
        return None;
    }
    let c = ContextNo(c);
    match step {
        Step::Connect => broker.connect(c, Target::Own, name(alloc, "")?).ok(),
        Step::Send(text) => broker.send(c, Target::Own, json(alloc, text)?).ok(),
        Step::ConnectNative(host) => broker.connect_native(c, name(alloc, host)?).ok(),
        Step::SendNative(host, text) => {
            let text = json(alloc, text)?;
            broker.send_native(c, name(alloc, host)?, text).ok()
        }
        _ => None,
    }
}

/// Makes any other call of context c, and gives its answer.
fn make_other(broker: &mut Broker, alloc: Global, c: u64, step: &Step) -> Option<Answer> {
    if c >= broker.contexts() {
        return None;
    }
    let c = ContextNo(c);
    match step {
        Step::Listen => broker.listen(c, to_connections()).ok(),
        Step::ListenToMessages => broker.listen(c, to_messages()).ok(),
        Step::Post(k, text) => broker.post(c, ChannelNo(*k), json(alloc, text)?).ok(),
        Step::Disconnect(k) => broker.disconnect(c, ChannelNo(*k)).ok(),
        Step::Reply(r, text) => broker.reply(c, RequestNo(*r), json(alloc, text)?).ok(),
        Step::Decline => broker.decline(c, REQUEST).ok(),
        Step::Take => broker.take(c).ok(),
        Step::Leave => broker.leave(c).ok(),
        _ => None,
    }
}

/// Host h says a text.
fn say(broker: &mut Broker, alloc: Global, h: u64, text: &str) -> Option<Answer> {
    let text = json(alloc, text)?;
    if h >= broker.hosts() || text.len() > LONGEST_SAID {
        return None;
    }
    broker.host_said(HostNo(h), text).ok()
}

/// Makes the call of host h, and gives its answer.
fn make_of_host(broker: &mut Broker, alloc: Global, h: u64, step: &Step) -> Option<Answer> {
    if let Step::HostSaid(text) = step {
        return say(broker, alloc, h, text);
    }
    if h >= broker.hosts() {
        return None;
    }
    match step {
        Step::HostTake => broker.host_take(HostNo(h)).ok(),
        Step::HostEnded(reason) => broker.host_ended(HostNo(h), *reason).ok(),
        _ => None,
    }
}

/// Makes the call of the context or host with that number, and gives its answer.
pub fn make(broker: &mut Broker, alloc: Global, n: u64, step: &Step) -> Option<Answer> {
    match step {
        Step::Enter(path) => enter(broker, page(alloc, A, path)?),
        Step::EnterOther(path) => enter(broker, page(alloc, B, path)?),
        Step::EnterWeb => enter(broker, web(alloc)?),
        Step::Connect | Step::Send(_) | Step::ConnectNative(_) | Step::SendNative(_, _) => {
            make_start(broker, alloc, n, step)
        }
        Step::HostTake | Step::HostSaid(_) | Step::HostEnded(_) => {
            make_of_host(broker, alloc, n, step)
        }
        _ => make_other(broker, alloc, n, step),
    }
}

/// The answer that is wanted.
pub fn wanted(want: &Want) -> Answer {
    match want {
        Want::Is(answer) => *answer,
        Want::Told(entry, kind) => Answer::Event(Event {
            entry: EntryNo(*entry),
            kind: *kind,
        }),
    }
}

/// Whether an event is pending for context c.
fn is_ready(broker: &Broker, c: u64) -> bool {
    c < broker.contexts() && broker.ready(ContextNo(c))
}

/// The text that the answer tells.
fn told_text(answer: Answer) -> Option<EntryNo> {
    match answer {
        Answer::Text(e) => Some(e),
        _ => None,
    }
}

/// Whether the broker tells what is to be taken before it is taken.
fn tells(broker: &Broker, n: u64, step: &Step, answer: Answer) -> bool {
    match step {
        Step::Take => is_ready(broker, n) == matches!(answer, Answer::Event(_)),
        Step::HostTake => {
            let nothing = matches!(answer, Answer::Empty);
            broker.next_text(HostNo(n)) == told_text(answer)
                && !(nothing && broker.host_ready(HostNo(n)))
        }
        _ => true,
    }
}

/// Makes these calls, one after another, and compares each answer, and what is told before a take.
pub fn play(rt: &impl Abort, alloc: Global, world: World, name: &str, rows: &[Row]) -> Broker {
    let mut broker = Broker::new(alloc, world);
    for (i, (n, step, want)) in rows.iter().enumerate() {
        let answer = wanted(want);
        assert!(rt;
            tells(&broker, *n, step, answer),
            "{name}, before entry {i}"
        );
        let made = make(&mut broker, alloc, *n, step);
        assert_eq!(rt; made, Some(answer), "{name}, entry {i}");
    }
    broker
}

/// Ends the broker as its journal, which is proved with the broker: to drop it here would be to prove the drops of all
/// its parts once more.
pub fn end(broker: Broker) {
    let _ = broker.into_journal();
}
