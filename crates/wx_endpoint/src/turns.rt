//! One turn of an endpoint.
ghost use Rattle.std.specs.Prelude.{◌≡◌, ◌+◌, ◌≤◌};
ghost use Rattle.wx_desk.specs.Desks.{IsSound};
ghost use Rattle.wx_endpoint.specs.Turn.{StandsBehind, IsTurn};

use crate::cursor::{Cursor, Turned};
use crate::desk::Desk;
use crate::performing::perform;
use wx_id::NoMemory;

/// One turn of an endpoint: the call that its script asks for, or the take of a wait where an event is pending, or
/// nothing.
pub fn turn<D: Desk>(cursor: &mut Cursor<'_>, desk: &mut D) -> Turned
    requires sound { IsSound (D.state desk.old) }
    requires steps { 3 ≤ D.steps desk.old }
    requires behind { StandsBehind cursor.old (D.state desk.old) }
    ensures turn { IsTurn cursor.old cursor.new (D.state desk.old) (D.state desk.new) result }
    ensures behind { StandsBehind cursor.new (D.state desk.new) }
    ensures sound { IsSound (D.state desk.new) }
    ensures same_script { cursor.new.script ≡ cursor.old.script }
    ensures three_steps { D.steps desk.old ≤ D.steps desk.new + 3 }
    ensures same_told { D.told desk.new ≡ D.told desk.old }
    ensures same_key { D.key desk.new ≡ D.key desk.old }
{
    let Some(step) = cursor.step() else {
        return Turned::Ended;
    };
    if cursor.is_spent() {
        return Turned::Spent;
    }
    match perform(desk, step.begins()) {
        Ok(Some(answer)) => {
            cursor.pass(step, answer);
            Turned::Moved
        }
        Ok(None) => Turned::Waits,
        Err(NoMemory) => Turned::NoMemory,
    }
}
