//! An endpoint of the rounds, and one turn of it.
ghost use Rattle.std.specs.Prelude.{◌≡◌, ◌<◌, true, IfOk, reverse};
ghost use Rattle.wx_machine.specs.Contexts.{contexts};
ghost use Rattle.wx_script.specs.Places.{is_left, next_at};
ghost use Rattle.wx_script.specs.Ends.{is_idle};
ghost use Rattle.wx_run.specs.Cursors.{cursor_at_start, is_spent_at};
ghost use Rattle.wx_run.specs.Step.{IsReady, IsStep};

use std::alloc::Global;
use std::marker::Model;
use wx_desk::BrokerDesk;
use wx_endpoint::{Cursor, Turned, turn};
use wx_id::NoMemory;
use wx_script::Script;

/// An endpoint of the rounds. Contracts see its cursor.
#[derive(Drop)]
pub struct Endpoint<'a> {
    cursor: Cursor<'a>,
    /// Whether its last turn found nothing to do: then none will, until an event is pending for it.
    rests: bool,
}

impl<'a> Model for Endpoint<'a> {
    ghost use Rattle.std.specs.Prelude.{◌≡◌, true};
    ghost use Rattle.wx_endpoint.specs.Turn.{CursorState};
    ghost use Rattle.wx_run.specs.Step.{IsIdleUnlessPending};

    ghost Value = { CursorState };

    ghost view = { λ endpoint. endpoint.cursor };

    ghost invariant = { λ endpoint. endpoint.rests ≡ true → IsIdleUnlessPending endpoint.cursor };
}

impl<'a> Endpoint<'a> {
    /// The endpoint behind its `enter`.
    pub fn new(alloc: Global, script: &'a Script) -> Result<Endpoint<'a>, NoMemory>
        ensures { IfOk result (λ endpoint. endpoint ≡ cursor_at_start script.now) }
    {
        Ok(Endpoint {
            cursor: Cursor::new(alloc, script)?,
            rests: false,
        })
    }

    /// Whether it stands behind its `leave`.
    pub fn has_ended(&self) -> bool
        ensures { result ≡ is_left self.now.place }
    {
        self.cursor.has_ended()
    }

    /// Whether it has made 65,536 entries, and its script has not ended.
    pub fn is_spent(&self) -> bool
        ensures { result ≡ is_spent_at self.now }
    {
        self.cursor.is_spent()
    }

    /// Whether it rests, and nothing is pending for it: then it can do nothing.
    fn stays_idle(&self, desk: &BrokerDesk) -> bool
        requires { desk.now.context.0 < contexts (reverse desk.now.broker.entries) }
        ensures { result ≡ true → is_idle (reverse desk.now.broker.entries) desk.now.context
            (next_at (reverse desk.now.broker.entries) self.now.place) ≡ true }
    {
        self.rests && !desk.broker.ready(desk.context)
    }
}

/// One turn of the desk's endpoint, which is not spent: whether it made an entry. One that rests is passed over where
/// nothing is pending for it.
pub fn make_turn(endpoint: &mut Endpoint<'_>, desk: &mut BrokerDesk) -> Result<bool, NoMemory>
    requires { IsReady desk.old.broker.world desk.old.context endpoint.old (reverse desk.old.broker.entries) }
    ensures step { IfOk result (λ moved. IsStep desk.old.broker.world desk.old.context endpoint.old endpoint.new
        (reverse desk.old.broker.entries) (reverse desk.new.broker.entries) moved) }
    ensures same_context { desk.new.context ≡ desk.old.context }
    ensures same_world { desk.new.broker.world ≡ desk.old.broker.world }
{
    if endpoint.stays_idle(desk) {
        return Ok(false);
    }
    match turn(&mut endpoint.cursor, desk) {
        Turned::Moved => {
            endpoint.rests = false;
            Ok(true)
        }
        Turned::Waits | Turned::Ended | Turned::Spent => {
            endpoint.rests = true;
            Ok(false)
        }
        Turned::NoMemory => Err(NoMemory),
    }
}
