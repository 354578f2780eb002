//! What a step of an endpoint does at its desk.
ghost use Rattle.std.specs.Prelude.{◌≡◌, ◌+◌, ◌<◌, ◌≤◌, IfOk, OnErr, MatchOption};
ghost use Rattle.wx_machine.specs.declared.entries.Call.TheVariants as Call;
ghost use Rattle.wx_script.specs.Places as places;
ghost use Rattle.wx_endpoint.specs.Asked.{whole_call, begun_by};
ghost use Rattle.wx_desk.specs.Desks.{IsSound, MakesNone, MakesOne, past_of};
ghost use Rattle.wx_endpoint.specs.Performed.{MakesNext, WaitsNext, CarriesText, HasText};

use crate::asked::{AskedCall, Begins};
use crate::desk::Desk;
use wx_context::Target;
use wx_id::{ChannelNo, EntryNo, NoMemory, RequestNo, Utf8Text};
use wx_machine::{Answer, JsonText};
use wx_script::Heard;

/// One `connect` with a copy of the name.
fn connect<D: Desk>(desk: &mut D, target: Target, name: &Utf8Text) -> Result<Answer, NoMemory>
    requires sound { IsSound (D.state desk.old) }
    requires step { 0 < D.steps desk.old }
    ensures made { IfOk result (λ answer.
        MakesOne (D.state desk.old) (D.state desk.new) (Call.Connect target name.now) answer) }
    ensures refused { OnErr result (MakesNone (D.state desk.old) (D.state desk.new)) }
    ensures sound { IsSound (D.state desk.new) }
    ensures one_step { D.steps desk.old ≤ D.steps desk.new + 1 }
    ensures same_told { D.told desk.new ≡ D.told desk.old }
    ensures same_key { D.key desk.new ≡ D.key desk.old }
{
    match desk.connect(target, name.try_clone()?) {
        Ok(answer) => Ok(answer),
        Err(_) => Err(NoMemory),
    }
}

/// One `post`. The text is let go where memory was refused.
fn post_text<D: Desk>(desk: &mut D, k: ChannelNo, text: JsonText) -> Result<Answer, NoMemory>
    requires sound { IsSound (D.state desk.old) }
    requires step { 0 < D.steps desk.old }
    ensures made { IfOk result (λ answer. MakesOne (D.state desk.old) (D.state desk.new) (Call.Post k text) answer) }
    ensures refused { OnErr result (MakesNone (D.state desk.old) (D.state desk.new)) }
    ensures sound { IsSound (D.state desk.new) }
    ensures one_step { D.steps desk.old ≤ D.steps desk.new + 1 }
    ensures same_told { D.told desk.new ≡ D.told desk.old }
    ensures same_key { D.key desk.new ≡ D.key desk.old }
{
    match desk.post(k, text) {
        Ok(answer) => Ok(answer),
        Err(_) => Err(NoMemory),
    }
}

/// One `send` with a copy of the text.
fn send<D: Desk>(desk: &mut D, target: Target, text: &JsonText) -> Result<Answer, NoMemory>
    requires sound { IsSound (D.state desk.old) }
    requires step { 0 < D.steps desk.old }
    ensures made { IfOk result (λ answer.
        MakesOne (D.state desk.old) (D.state desk.new) (Call.Send target text.now) answer) }
    ensures refused { OnErr result (MakesNone (D.state desk.old) (D.state desk.new)) }
    ensures sound { IsSound (D.state desk.new) }
    ensures one_step { D.steps desk.old ≤ D.steps desk.new + 1 }
    ensures same_told { D.told desk.new ≡ D.told desk.old }
    ensures same_key { D.key desk.new ≡ D.key desk.old }
{
    match desk.send(target, text.try_clone()?) {
        Ok(answer) => Ok(answer),
        Err(_) => Err(NoMemory),
    }
}

/// One `reply`. The text is let go where memory was refused.
fn reply_text<D: Desk>(desk: &mut D, r: RequestNo, text: JsonText) -> Result<Answer, NoMemory>
    requires sound { IsSound (D.state desk.old) }
    requires step { 0 < D.steps desk.old }
    ensures made { IfOk result (λ answer. MakesOne (D.state desk.old) (D.state desk.new) (Call.Reply r text) answer) }
    ensures refused { OnErr result (MakesNone (D.state desk.old) (D.state desk.new)) }
    ensures sound { IsSound (D.state desk.new) }
    ensures one_step { D.steps desk.old ≤ D.steps desk.new + 1 }
    ensures same_told { D.told desk.new ≡ D.told desk.old }
    ensures same_key { D.key desk.new ≡ D.key desk.old }
{
    match desk.reply(r, text) {
        Ok(answer) => Ok(answer),
        Err(_) => Err(NoMemory),
    }
}

/// One `connect_native` with a copy of the name.
fn connect_native<D: Desk>(desk: &mut D, name: &Utf8Text) -> Result<Answer, NoMemory>
    requires sound { IsSound (D.state desk.old) }
    requires step { 0 < D.steps desk.old }
    ensures made { IfOk result (λ answer.
        MakesOne (D.state desk.old) (D.state desk.new) (Call.ConnectNative name.now) answer) }
    ensures refused { OnErr result (MakesNone (D.state desk.old) (D.state desk.new)) }
    ensures sound { IsSound (D.state desk.new) }
    ensures one_step { D.steps desk.old ≤ D.steps desk.new + 1 }
    ensures same_told { D.told desk.new ≡ D.told desk.old }
    ensures same_key { D.key desk.new ≡ D.key desk.old }
{
    match desk.connect_native(name.try_clone()?) {
        Ok(answer) => Ok(answer),
        Err(_) => Err(NoMemory),
    }
}

/// One `send_native` with copies of the name and the text.
fn send_native<D: Desk>(desk: &mut D, name: &Utf8Text, text: &JsonText) -> Result<Answer, NoMemory>
    requires sound { IsSound (D.state desk.old) }
    requires step { 0 < D.steps desk.old }
    ensures made { IfOk result (λ answer.
        MakesOne (D.state desk.old) (D.state desk.new) (Call.SendNative name.now text.now) answer) }
    ensures refused { OnErr result (MakesNone (D.state desk.old) (D.state desk.new)) }
    ensures sound { IsSound (D.state desk.new) }
    ensures one_step { D.steps desk.old ≤ D.steps desk.new + 1 }
    ensures same_told { D.told desk.new ≡ D.told desk.old }
    ensures same_key { D.key desk.new ≡ D.key desk.old }
{
    let name = name.try_clone()?;
    match desk.send_native(name, text.try_clone()?) {
        Ok(answer) => Ok(answer),
        Err(_) => Err(NoMemory),
    }
}

/// Makes the call.
fn make<D: Desk>(desk: &mut D, call: AskedCall<'_>) -> Result<Answer, NoMemory>
    requires sound { IsSound (D.state desk.old) }
    requires step { 0 < D.steps desk.old }
    ensures made { IfOk result (λ answer.
        MakesOne (D.state desk.old) (D.state desk.new) (whole_call call.entry) answer) }
    ensures refused { OnErr result (MakesNone (D.state desk.old) (D.state desk.new)) }
    ensures sound { IsSound (D.state desk.new) }
    ensures one_step { D.steps desk.old ≤ D.steps desk.new + 1 }
    ensures same_told { D.told desk.new ≡ D.told desk.old }
    ensures same_key { D.key desk.new ≡ D.key desk.old }
{
    match call {
        AskedCall::Listen(l) => desk.listen(l),
        AskedCall::Leave => desk.leave(),
        AskedCall::Connect(target, name) => connect(desk, *target, name),
        AskedCall::Post(k, text) => post_text(desk, k, text.try_clone()?),
        AskedCall::Disconnect(k) => desk.disconnect(k),
        AskedCall::Send(target, text) => send(desk, *target, text),
        AskedCall::Reply(r, text) => reply_text(desk, r, text.try_clone()?),
        AskedCall::Decline(r) => desk.decline(r),
        AskedCall::ConnectNative(name) => connect_native(desk, name),
        AskedCall::SendNative(name, text) => send_native(desk, name, text),
        AskedCall::Take => desk.take(),
    }
}

/// Answers what came by this text.
fn answer_by_text<D: Desk>(desk: &mut D, came: Heard, text: JsonText) -> Result<Answer, NoMemory>
    requires sound { IsSound (D.state desk.old) }
    requires step { 0 < D.steps desk.old }
    ensures made { IfOk result (λ answer.
        MakesOne (D.state desk.old) (D.state desk.new) (places.answer_by came text) answer) }
    ensures refused { OnErr result (MakesNone (D.state desk.old) (D.state desk.new)) }
    ensures sound { IsSound (D.state desk.new) }
    ensures one_step { D.steps desk.old ≤ D.steps desk.new + 1 }
    ensures same_told { D.told desk.new ≡ D.told desk.old }
    ensures same_key { D.key desk.new ≡ D.key desk.old }
{
    match came {
        Heard::Message(k) => post_text(desk, k, text),
        Heard::Request(r) => reply_text(desk, r, text),
    }
}

/// Answers what came by the text that an entry carries.
fn answer_by_entry<D: Desk>(desk: &mut D, came: Heard, e: EntryNo) -> Result<Answer, NoMemory>
    requires sound { IsSound (D.state desk.old) }
    requires steps { 2 ≤ D.steps desk.old }
    requires text { CarriesText (past_of (D.state desk.old)) e }
    ensures made { IfOk result (λ answer.
        MakesNext (D.state desk.old) (D.state desk.new) (places.answers came e) answer) }
    ensures refused { OnErr result (MakesNone (D.state desk.old) (D.state desk.new)) }
    ensures sound { IsSound (D.state desk.new) }
    ensures two_steps { D.steps desk.old ≤ D.steps desk.new + 2 }
    ensures same_told { D.told desk.new ≡ D.told desk.old }
    ensures same_key { D.key desk.new ≡ D.key desk.old }
{
    let copy = desk.copy_of(e)?;
    let Some(text) = copy else {
        unreachable!();
    };
    answer_by_text(desk, came, text)
}

/// Makes the entry that begins so, or none where it waits and nothing is pending.
pub(crate) fn perform<D: Desk>(desk: &mut D, begins: Begins<'_>) -> Result<Option<Answer>, NoMemory>
    requires sound { IsSound (D.state desk.old) }
    requires steps { 2 ≤ D.steps desk.old }
    requires text { HasText (past_of (D.state desk.old)) (begun_by begins) }
    ensures made { IfOk result (λ found. MatchOption found
        (WaitsNext (D.state desk.old) (D.state desk.new) (begun_by begins.entry))
        (λ answer. MakesNext (D.state desk.old) (D.state desk.new) (begun_by begins.entry) answer)) }
    ensures refused { OnErr result (MakesNone (D.state desk.old) (D.state desk.new)) }
    ensures sound { IsSound (D.state desk.new) }
    ensures two_steps { D.steps desk.old ≤ D.steps desk.new + 2 }
    ensures same_told { D.told desk.new ≡ D.told desk.old }
    ensures same_key { D.key desk.new ≡ D.key desk.old }
{
    match begins {
        Begins::Call(call) => Ok(Some(make(desk, call)?)),
        Begins::Wait => desk.take_ready(),
        Begins::Answer(came, e) => Ok(Some(answer_by_entry(desk, came, e)?)),
    }
}
