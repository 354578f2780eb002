//! The calls of contexts and hosts at a broker, each as a `Call` that comes back where it was not made.
ghost use Rattle.std.specs.Prelude.{◌≡◌, ◌<◌, reverse, length, IfOk, IfErr, OnErr};
ghost use Rattle.wx_machine.specs.declared.entries.Who.TheVariants as Who;
ghost use Rattle.wx_machine.specs.declared.entries.Call.TheVariants as Call;
ghost use Rattle.wx_machine.specs.Words.{contexts, hosts};
ghost use Rattle.wx_broker.specs.Steps.{Appends, Stays};

use wx_broker::Broker;
use wx_context::Target;
use wx_id::{ContextNo, HostNo, Utf8Text};
use wx_machine::{Answer, Call, JsonText, LONGEST_SAID, Who};

/// A `connect`, as a call.
fn connect_at(
    broker: &mut Broker,
    c: ContextNo,
    target: &Target,
    name: Utf8Text,
) -> Result<Answer, Call>
    requires { c.0 < contexts (reverse broker.old.entries) }
    ensures made { IfOk result (λ a. Appends broker.old broker.new (Who.Context c) (Call.Connect target.now name) a) }
    ensures refused { OnErr result (Stays broker.old broker.new) }
    ensures returned { IfErr result (λ back. back ≡ Call.Connect target.now name) }
{
    match broker.connect(c, *target, name) {
        Ok(answer) => Ok(answer),
        Err(name) => Err(Call::Connect(*target, name)),
    }
}

/// A `send`, as a call.
fn send_at(
    broker: &mut Broker,
    c: ContextNo,
    target: &Target,
    text: JsonText,
) -> Result<Answer, Call>
    requires { c.0 < contexts (reverse broker.old.entries) }
    ensures made { IfOk result (λ a. Appends broker.old broker.new (Who.Context c) (Call.Send target.now text) a) }
    ensures refused { OnErr result (Stays broker.old broker.new) }
    ensures returned { IfErr result (λ back. back ≡ Call.Send target.now text) }
{
    match broker.send(c, *target, text) {
        Ok(answer) => Ok(answer),
        Err(text) => Err(Call::Send(*target, text)),
    }
}

/// A call of a context, by its kind. It comes back where memory was refused, and where it is none that contexts make
/// behind their `enter`.
fn call_of_context(broker: &mut Broker, c: ContextNo, call: Call) -> Result<Answer, Call>
    requires { c.0 < contexts (reverse broker.old.entries) }
    ensures made { IfOk result (λ a. Appends broker.old broker.new (Who.Context c) call a) }
    ensures refused { OnErr result (Stays broker.old broker.new) }
    ensures returned { IfErr result (λ back. back ≡ call) }
{
    match call {
        Call::Listen(l) => match broker.listen(c, l) {
            Ok(answer) => Ok(answer),
            Err(_) => Err(Call::Listen(l)),
        },
        Call::Leave => match broker.leave(c) {
            Ok(answer) => Ok(answer),
            Err(_) => Err(Call::Leave),
        },
        Call::Connect(target, name) => connect_at(broker, c, &target, name),
        Call::Post(k, text) => match broker.post(c, k, text) {
            Ok(answer) => Ok(answer),
            Err(text) => Err(Call::Post(k, text)),
        },
        Call::Disconnect(k) => match broker.disconnect(c, k) {
            Ok(answer) => Ok(answer),
            Err(_) => Err(Call::Disconnect(k)),
        },
        Call::Send(target, text) => send_at(broker, c, &target, text),
        Call::Reply(r, text) => match broker.reply(c, r, text) {
            Ok(answer) => Ok(answer),
            Err(text) => Err(Call::Reply(r, text)),
        },
        Call::Decline(r) => match broker.decline(c, r) {
            Ok(answer) => Ok(answer),
            Err(_) => Err(Call::Decline(r)),
        },
        Call::Take => match broker.take(c) {
            Ok(answer) => Ok(answer),
            Err(_) => Err(Call::Take),
        },
        Call::ConnectNative(name) => match broker.connect_native(c, name) {
            Ok(answer) => Ok(answer),
            Err(name) => Err(Call::ConnectNative(name)),
        },
        Call::SendNative(name, text) => match broker.send_native(c, name, text) {
            Ok(answer) => Ok(answer),
            Err((name, text)) => Err(Call::SendNative(name, text)),
        },
        Call::Enter(x) => Err(Call::Enter(x)),
        Call::HostTake => Err(Call::HostTake),
        Call::HostSaid(text) => Err(Call::HostSaid(text)),
        Call::HostEnded(reason) => Err(Call::HostEnded(reason)),
    }
}

/// A `host_said`, as a call. It comes back where it is longer than a host may say.
fn say_at(broker: &mut Broker, h: HostNo, text: JsonText) -> Result<Answer, Call>
    requires { h.0 < length (hosts (reverse broker.old.entries)) }
    ensures made { IfOk result (λ a. Appends broker.old broker.new (Who.Host h) (Call.HostSaid text) a) }
    ensures refused { OnErr result (Stays broker.old broker.new) }
    ensures returned { IfErr result (λ back. back ≡ Call.HostSaid text) }
{
    if text.len() > LONGEST_SAID {
        return Err(Call::HostSaid(text));
    }
    match broker.host_said(h, text) {
        Ok(answer) => Ok(answer),
        Err(text) => Err(Call::HostSaid(text)),
    }
}

/// A call of a host, by its kind. It comes back where memory was refused, where it says more than a host may, and where
/// it is none that hosts make.
fn call_of_host(broker: &mut Broker, h: HostNo, call: Call) -> Result<Answer, Call>
    requires { h.0 < length (hosts (reverse broker.old.entries)) }
    ensures made { IfOk result (λ a. Appends broker.old broker.new (Who.Host h) call a) }
    ensures refused { OnErr result (Stays broker.old broker.new) }
    ensures returned { IfErr result (λ back. back ≡ call) }
{
    match call {
        Call::HostTake => match broker.host_take(h) {
            Ok(answer) => Ok(answer),
            Err(_) => Err(Call::HostTake),
        },
        Call::HostSaid(text) => say_at(broker, h, text),
        Call::HostEnded(reason) => match broker.host_ended(h, reason) {
            Ok(answer) => Ok(answer),
            Err(_) => Err(Call::HostEnded(reason)),
        },
        Call::Enter(x) => Err(Call::Enter(x)),
        Call::Listen(l) => Err(Call::Listen(l)),
        Call::Leave => Err(Call::Leave),
        Call::Connect(target, name) => Err(Call::Connect(target, name)),
        Call::Post(k, text) => Err(Call::Post(k, text)),
        Call::Disconnect(k) => Err(Call::Disconnect(k)),
        Call::Send(target, text) => Err(Call::Send(target, text)),
        Call::Reply(r, text) => Err(Call::Reply(r, text)),
        Call::Decline(r) => Err(Call::Decline(r)),
        Call::Take => Err(Call::Take),
        Call::ConnectNative(name) => Err(Call::ConnectNative(name)),
        Call::SendNative(name, text) => Err(Call::SendNative(name, text)),
    }
}

/// A call, where its caller came in or was started. It comes back where it was not made.
pub(crate) fn call_at(broker: &mut Broker, who: Who, call: Call) -> Result<Answer, Call>
    ensures made { IfOk result (λ a. Appends broker.old broker.new who call a) }
    ensures refused { OnErr result (Stays broker.old broker.new) }
    ensures returned { IfErr result (λ back. back ≡ call) }
{
    match who {
        Who::Context(c) => {
            if c.0 < broker.contexts() {
                call_of_context(broker, c, call)
            } else {
                Err(call)
            }
        }
        Who::Host(h) => {
            if h.0 < broker.hosts() {
                call_of_host(broker, h, call)
            } else {
                Err(call)
            }
        }
    }
}
