//! The worker of one endpoint.
ghost use Rattle.std.specs.Prelude.{◌≡◌};
ghost use Rattle.wx_desk.specs.Desks.{IsSound};
ghost use Rattle.wx_endpoint.specs.Turn.{StandsBehind};
ghost use Rattle.wx_work.specs.Work.{IsWorkEnd, IsLater};

use crate::gate::Gate;
use std::sync::Wait;
use wx_bell::Bell;
use wx_endpoint::{Cursor, Desk, Turned, turn};

/// Why the worker of an endpoint stopped.
#[derive(Clone, Copy, Debug, PartialEq, Eq)]
pub enum WorkEnd {
    /// Its script has ended.
    Ended,
    /// It has made 65,536 entries, and its script has not ended.
    Spent,
    /// It was told to stop.
    Stopped,
    /// Memory was refused.
    NoMemory,
}

/// Works for the endpoint at place n of the scene, turn after turn. It passes the gate once, asks ahead of each turn
/// whether to stop, and waits at the bell where nothing is pending.
pub fn work_endpoint<R: Wait, D: Desk, B: Bell, G: Gate>(
    rt: &R,
    n: u64,
    cursor: &mut Cursor<'_>,
    desk: &mut D,
    bell: &B,
    gate: &G,
) -> WorkEnd
    requires sound { IsSound (D.state desk.old) }
    requires behind { StandsBehind cursor.old (D.state desk.old) }
    ensures end { IsWorkEnd cursor.new (D.told desk.new) result }
    ensures behind { StandsBehind cursor.new (D.state desk.new) }
    ensures later { IsLater (D.state desk.old) (D.state desk.new) }
    ensures sound { IsSound (D.state desk.new) }
    ensures same_script { cursor.new.script ≡ cursor.old.script }
    ensures same_key { D.key desk.new ≡ D.key desk.old }
{
    gate.before(n);
    for _ in rt.forever() {
        if desk.stopped() {
            return WorkEnd::Stopped;
        }
        match turn(cursor, desk) {
            Turned::Moved => {}
            Turned::Waits => bell.wait(),
            Turned::Ended => return WorkEnd::Ended,
            Turned::Spent => return WorkEnd::Spent,
            Turned::NoMemory => return WorkEnd::NoMemory,
        }
    }
    unreachable!()
}
