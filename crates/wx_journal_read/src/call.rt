//! Calls.
ghost use Rattle.std.specs.Prelude.{◌≡◌};
ghost use Rattle.wx_journal_read.specs.Gives.{Gives};
ghost use Rattle.wx_journal_read.specs.Grammar as grammar;

use crate::fault::Fault;
use crate::field::{behind, number, skip};
use crate::part::{context, listens, target};
use crate::reason::reason;
use crate::sort::{json, name};
use std::alloc::Global;
use wx_id::{ChannelNo, RequestNo};
use wx_machine::Call;

/// A connect, after its word.
#[tactic(auto, unfolding(crate::specs::Grammar::connect_at))]
fn connect(alloc: Global, bytes: &[u8]) -> Result<(Call, &[u8]), Fault>
    ensures { Gives (λ x. (x.0, x.1.now)) result (grammar.connect_at bytes.now) }
{
    let (to, rest) = match target(bytes) {
        Ok(found) => found,
        Err(e) => return Err(e),
    };
    let rest = skip(b" ", rest)?;
    let (name, rest) = name(alloc, rest)?;
    Ok((Call::Connect(to, name), rest))
}

/// A post, after its word.
#[tactic(auto, unfolding(crate::specs::Grammar::post_at))]
fn post(alloc: Global, bytes: &[u8]) -> Result<(Call, &[u8]), Fault>
    ensures { Gives (λ x. (x.0, x.1.now)) result (grammar.post_at bytes.now) }
{
    let (k, rest) = number(bytes)?;
    let rest = skip(b" ", rest)?;
    let (text, rest) = json(alloc, rest)?;
    Ok((Call::Post(ChannelNo(k), text), rest))
}

/// A send, after its word.
#[tactic(auto, unfolding(crate::specs::Grammar::send_at))]
fn send(alloc: Global, bytes: &[u8]) -> Result<(Call, &[u8]), Fault>
    ensures { Gives (λ x. (x.0, x.1.now)) result (grammar.send_at bytes.now) }
{
    let (to, rest) = match target(bytes) {
        Ok(found) => found,
        Err(e) => return Err(e),
    };
    let rest = skip(b" ", rest)?;
    let (text, rest) = json(alloc, rest)?;
    Ok((Call::Send(to, text), rest))
}

/// A reply, after its word.
#[tactic(auto, unfolding(crate::specs::Grammar::reply_at))]
fn reply(alloc: Global, bytes: &[u8]) -> Result<(Call, &[u8]), Fault>
    ensures { Gives (λ x. (x.0, x.1.now)) result (grammar.reply_at bytes.now) }
{
    let (r, rest) = number(bytes)?;
    let rest = skip(b" ", rest)?;
    let (text, rest) = json(alloc, rest)?;
    Ok((Call::Reply(RequestNo(r), text), rest))
}

/// A send to a native host, after its word.
#[tactic(auto, unfolding(crate::specs::Grammar::send_native_at))]
fn send_native(alloc: Global, bytes: &[u8]) -> Result<(Call, &[u8]), Fault>
    ensures { Gives (λ x. (x.0, x.1.now)) result (grammar.send_native_at bytes.now) }
{
    let (name, rest) = name(alloc, bytes)?;
    let rest = skip(b" ", rest)?;
    let (text, rest) = json(alloc, rest)?;
    Ok((Call::SendNative(name, text), rest))
}

/// A call.
#[tactic(auto, unfolding(crate::specs::Grammar::call_at))]
pub fn call(alloc: Global, bytes: &[u8]) -> Result<(Call, &[u8]), Fault>
    ensures { Gives (λ x. (x.0, x.1.now)) result (grammar.call_at bytes.now) }
{
    if let Some(rest) = behind(b"enter ", bytes) {
        let (x, rest) = context(alloc, rest)?;
        return Ok((Call::Enter(x), rest));
    }
    if let Some(rest) = behind(b"listen ", bytes) {
        let (l, rest) = listens(rest)?;
        return Ok((Call::Listen(l), rest));
    }
    if let Some(rest) = behind(b"leave", bytes) {
        return Ok((Call::Leave, rest));
    }
    if let Some(rest) = behind(b"take", bytes) {
        return Ok((Call::Take, rest));
    }
    port_call(alloc, bytes)
}

/// A call about a port.
#[tactic(auto, unfolding(crate::specs::Grammar::port_call_at))]
fn port_call(alloc: Global, bytes: &[u8]) -> Result<(Call, &[u8]), Fault>
    ensures { Gives (λ x. (x.0, x.1.now)) result (grammar.port_call_at bytes.now) }
{
    if let Some(rest) = behind(b"connect ", bytes) {
        return connect(alloc, rest);
    }
    if let Some(rest) = behind(b"post ", bytes) {
        return post(alloc, rest);
    }
    if let Some(rest) = behind(b"disconnect ", bytes) {
        let (k, rest) = number(rest)?;
        return Ok((Call::Disconnect(ChannelNo(k)), rest));
    }
    request_call(alloc, bytes)
}

/// A call about a request.
#[tactic(auto, unfolding(crate::specs::Grammar::request_call_at))]
fn request_call(alloc: Global, bytes: &[u8]) -> Result<(Call, &[u8]), Fault>
    ensures { Gives (λ x. (x.0, x.1.now)) result (grammar.request_call_at bytes.now) }
{
    if let Some(rest) = behind(b"send ", bytes) {
        return send(alloc, rest);
    }
    if let Some(rest) = behind(b"reply ", bytes) {
        return reply(alloc, rest);
    }
    if let Some(rest) = behind(b"decline ", bytes) {
        let (r, rest) = number(rest)?;
        return Ok((Call::Decline(RequestNo(r)), rest));
    }
    native_call(alloc, bytes)
}

/// A call for a native host.
#[tactic(auto, unfolding(crate::specs::Grammar::native_call_at))]
fn native_call(alloc: Global, bytes: &[u8]) -> Result<(Call, &[u8]), Fault>
    ensures { Gives (λ x. (x.0, x.1.now)) result (grammar.native_call_at bytes.now) }
{
    if let Some(rest) = behind(b"connect_native ", bytes) {
        let (name, rest) = name(alloc, rest)?;
        return Ok((Call::ConnectNative(name), rest));
    }
    if let Some(rest) = behind(b"send_native ", bytes) {
        return send_native(alloc, rest);
    }
    host_call(alloc, bytes)
}

/// A call of a host.
#[tactic(auto, unfolding(crate::specs::Grammar::host_call_at))]
fn host_call(alloc: Global, bytes: &[u8]) -> Result<(Call, &[u8]), Fault>
    ensures { Gives (λ x. (x.0, x.1.now)) result (grammar.host_call_at bytes.now) }
{
    if let Some(rest) = behind(b"host_take", bytes) {
        return Ok((Call::HostTake, rest));
    }
    if let Some(rest) = behind(b"host_said ", bytes) {
        let (text, rest) = json(alloc, rest)?;
        return Ok((Call::HostSaid(text), rest));
    }
    if let Some(rest) = behind(b"host_ended ", bytes) {
        let (reason, rest) = reason(rest)?;
        return Ok((Call::HostEnded(reason), rest));
    }
    Err(Fault::Bad)
}
