//! One turn of each of a host's pumps.
ghost use Rattle.std.specs.Prelude.{◌≡◌, ◌<◌, ◌≤◌, true, length, Some};
ghost use Rattle.wx_machine.specs.declared.entries.TheConstants.{LONGEST, LONGEST_SAID};
ghost use Rattle.wx_machine.specs.Carried as carried;
ghost use Rattle.wx_machine.specs.declared.entries.Answer.TheVariants as Answer;
ghost use Rattle.wx_desk.specs.Desks.{HostDeskState, IsSound, past_of};
ghost use Rattle.wx_host_launch.specs.Steps.{TakesNews};
ghost use Rattle.wx_host_launch.specs.Halves.{last_said_closed};
ghost use Rattle.wx_host_launch.specs.Turns.{IsInTurn, IsOutTurn, IsClosedTurn, Says, EndsOrWaits};

use crate::desk::HostDesk;
use crate::pipes::{HostIn, HostOut};
use crate::reading::{Heard, holds_no_frame, read_frame};
use crate::sending::send;
use wx_id::{EntryNo, NoMemory};
use wx_json::JsonText;
use wx_machine::{Answer, Reason};
use wx_native_frame::FrameReader;
use wx_outside::Failed;

/// What a turn of a host's input comes to.
#[derive(Clone, Copy, Debug, PartialEq, Eq)]
pub enum InTurn {
    /// A text was taken and sent.
    Moved,
    /// There was nothing new to take.
    Waits,
    /// No text comes any more, and the input is closed.
    Closed,
    /// A text was taken and could not be sent, and the host ended.
    Ended,
    /// Memory was refused.
    NoMemory,
}

/// What a turn of a host's output comes to.
#[derive(Clone, Copy, Debug, PartialEq, Eq)]
pub enum OutTurn {
    /// A text was said.
    Moved,
    /// The host is to end, and there is a text for it to take first.
    Waits,
    /// The host ended.
    Ended,
    /// Memory was refused.
    NoMemory,
}

/// The text that the last take named.
fn lent_text<'d, D: HostDesk>(desk: &'d D, e: EntryNo) -> &'d JsonText
    requires sound { IsSound (D.state desk.now) }
    requires lent { D.lent desk.now ≡ Some e }
    requires taken { (start : HostDeskState) × TakesNews start (D.state desk.now) (Answer.Text e) }
    ensures carried { carried.text_of (past_of (D.state desk.now)) e ≡ Some result.now }
    ensures short { length result.now ≤ LONGEST }
{
    match desk.text_of(e) {
        Some(text) => text,
        None => unreachable!(),
    }
}

/// Sends the text that the last take named. Where that fails the host ends.
fn pass_on<D: HostDesk, I: HostIn>(desk: &mut D, input: &mut I, e: EntryNo) -> InTurn
    requires sound { IsSound (D.state desk.old) }
    requires step { 0 < D.steps desk.old }
    requires lent { D.lent desk.old ≡ Some e }
    requires taken { (start : HostDeskState) × TakesNews start (D.state desk.old) (Answer.Text e) }
    ensures turn { (start : HostDeskState) → TakesNews start (D.state desk.old) (Answer.Text e) →
        IsInTurn start (D.state desk.new) (I.state input.old) (I.state input.new) result }
    ensures sound { IsSound (D.state desk.new) }
    ensures same_told { D.told desk.new ≡ D.told desk.old }
    ensures same_key { D.key desk.new ≡ D.key desk.old }
    ensures later { (I.state input.old).faults ≤ (I.state input.new).faults }
{
    match send(input, lent_text(desk, e)) {
        Ok(()) => InTurn::Moved,
        Err(Failed) => match desk.host_ended(Reason::WriteFailed) {
            Ok(_) => InTurn::Ended,
            Err(NoMemory) => InTurn::NoMemory,
        },
    }
}

/// One turn of a host's input: the next text for the host is taken and sent, where there is one.
pub fn in_turn<D: HostDesk, I: HostIn>(desk: &mut D, input: &mut I) -> InTurn
    requires sound { IsSound (D.state desk.old) }
    requires steps { 3 ≤ D.steps desk.old }
    ensures turn { IsInTurn (D.state desk.old) (D.state desk.new) (I.state input.old) (I.state input.new) result }
    ensures sound { IsSound (D.state desk.new) }
    ensures same_told { D.told desk.new ≡ D.told desk.old }
    ensures same_key { D.key desk.new ≡ D.key desk.old }
    ensures later { (I.state input.old).faults ≤ (I.state input.new).faults }
{
    match desk.host_next() {
        Ok(Some(Answer::Text(e))) => pass_on(desk, input, e),
        Ok(Some(Answer::End)) => {
            input.close();
            InTurn::Closed
        }
        Ok(Some(_)) => unreachable!(),
        Ok(None) => InTurn::Waits,
        Err(NoMemory) => InTurn::NoMemory,
    }
}

/// The host says a text.
fn say<D: HostDesk>(desk: &mut D, text: JsonText) -> OutTurn
    requires sound { IsSound (D.state desk.old) }
    requires step { 0 < D.steps desk.old }
    requires short { length text ≤ LONGEST_SAID }
    ensures said { Says (D.state desk.old) (D.state desk.new) text result }
    ensures sound { IsSound (D.state desk.new) }
    ensures same_told { D.told desk.new ≡ D.told desk.old }
    ensures same_key { D.key desk.new ≡ D.key desk.old }
{
    match desk.host_said(text) {
        Ok(_) => OutTurn::Moved,
        Err(_) => OutTurn::NoMemory,
    }
}

/// The host ends for this reason, unless there is a text for it to take.
fn end<D: HostDesk>(desk: &mut D, reason: Reason) -> OutTurn
    requires sound { IsSound (D.state desk.old) }
    requires step { 0 < D.steps desk.old }
    ensures ended { EndsOrWaits (D.state desk.old) (D.state desk.new) reason result }
    ensures sound { IsSound (D.state desk.new) }
    ensures same_told { D.told desk.new ≡ D.told desk.old }
    ensures same_key { D.key desk.new ≡ D.key desk.old }
{
    match desk.host_ends(reason) {
        Ok(Some(_)) => OutTurn::Ended,
        Ok(None) => OutTurn::Waits,
        Err(NoMemory) => OutTurn::NoMemory,
    }
}

/// One turn of a host's output: what it writes is read up to the end of a frame, and said; or the host ends, where
/// there is a cause and every text for it was taken.
pub fn out_turn<D: HostDesk, O: HostOut>(
    desk: &mut D,
    reader: &mut FrameReader,
    output: &mut O,
) -> OutTurn
    requires sound { IsSound (D.state desk.old) }
    requires steps { 3 ≤ D.steps desk.old }
    requires limit { reader.old.limit ≡ LONGEST_SAID }
    ensures turn { IsOutTurn (D.state desk.old) (D.state desk.new) reader.old reader.new
        (O.state output.old) (O.state output.new) result }
    ensures closed { last_said_closed (past_of (D.state desk.old)) (D.state desk.old).who ≡ true →
        IsClosedTurn (D.state desk.old) (D.state desk.new) reader.old reader.new
        (O.state output.old) (O.state output.new) result }
    ensures sound { IsSound (D.state desk.new) }
    ensures limit { reader.new.limit ≡ LONGEST_SAID }
    ensures same_told { D.told desk.new ≡ D.told desk.old }
    ensures same_key { D.key desk.new ≡ D.key desk.old }
    ensures later { (O.state output.old).faults ≤ (O.state output.new).faults }
{
    if desk.said_closed() {
        holds_no_frame(reader);
        return end(desk, Reason::Closed);
    }
    match read_frame(reader, output) {
        Heard::Text(text) => say(desk, text),
        Heard::Ends(reason) => end(desk, reason),
        Heard::NoMemory => OutTurn::NoMemory,
    }
}
