//! The broker as a library: two pages of one extension talk to each other, without a scene.
#![tactic(auto)]

ghost use Rattle.std.specs.Prelude.{◌≡◌, ◌<◌, codes, reverse, IfSome};
ghost use Rattle.wx_machine.specs.Contexts.{contexts};

use std::alloc::Global;
use std::io::{self, Write};
use wx_broker::Broker;
use wx_context::{Context, Listens, PagePath, Target};
use wx_external::World;
use wx_id::{ContextNo, EntryNo, ExtensionId, Utf8Text};
use wx_journal::Journal;
use wx_machine::{Answer, JsonText};

const CONNECTIONS: Listens = Listens {
    connect: true,
    message: false,
    external_connect: false,
    external_message: false,
};

/// A page of the extension with the id of thirty-two letters `a`; nothing where memory was refused.
fn page(alloc: Global, path: &str) -> Option<Context>
    ensures { IfSome result (λ page. page ≡ Context.Page (codes "aaaaaaaaaaaaaaaaaaaaaaaaaaaaaaaa") path.now) }
{
    let ext = ExtensionId::read(b"aaaaaaaaaaaaaaaaaaaaaaaaaaaaaaaa").ok()?;
    let path = PagePath::read(alloc, path).ok()?;
    Some(Context::Page { ext, path })
}

/// The hub listens, the popup connects to it and posts a text, and the hub takes two events: the entry of the second.
/// None where memory was refused.
fn talk(
    broker: &mut Broker,
    hub: ContextNo,
    popup: ContextNo,
    name: Utf8Text,
    text: JsonText,
) -> Option<EntryNo>
    requires hub { hub.0 < contexts (reverse broker.old.entries) }
    requires popup { popup.0 < contexts (reverse broker.old.entries) }
{
    broker.listen(hub, CONNECTIONS).ok()?;
    let Answer::Channel(channel) = broker.connect(popup, Target::Own, name).ok()? else {
        return None;
    };
    broker.post(popup, channel, text).ok()?;
    broker.take(hub).ok()?;
    match broker.take(hub).ok()? {
        Answer::Event(event) => Some(event.entry),
        _ => None,
    }
}

/// Two pages come in and talk: what the hub took. None where memory was refused.
fn meet(broker: &mut Broker, alloc: Global, text: JsonText) -> Option<JsonText> {
    let hub = broker.enter(page(alloc, "/hub")?).ok()?;
    let popup = broker.enter(page(alloc, "/popup")?).ok()?;
    let name = Utf8Text::new(alloc, "").ok()?;
    let entry = talk(broker, hub, popup, name, text)?;
    broker.journal().text_of(entry)?.try_clone().ok()
}

/// What the hub took, and the journal. None where memory was refused. The broker ends as its journal on each way out,
/// which is proved with the broker: to drop it here would be to prove the drops of all its parts once more.
fn meeting(alloc: Global, text: JsonText) -> Option<(JsonText, Journal)> {
    let mut broker = Broker::new(alloc, World::new(alloc));
    let taken = meet(&mut broker, alloc, text);
    let journal = broker.into_journal();
    Some((taken?, journal))
}

fn main(rt: HostRuntime) -> io::Result<()> {
    let alloc = rt.alloc();
    let text = JsonText::new(Vec::from_slice(alloc, b"{\"from\":\"popup\"}")?);
    let Some((taken, journal)) = text.ok().and_then(|text| meeting(alloc, text)) else {
        return eprintln!(rt; "no memory");
    };
    let mut out = rt.stdout();
    out.write_all(taken.bytes())?;
    out.write_all(b"\n")?;
    match journal.print(alloc) {
        Ok(text) => out.write_all(&text),
        Err(_) => eprintln!(rt; "no memory"),
    }
}
