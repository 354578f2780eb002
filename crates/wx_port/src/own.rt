//! For each context, at the place of its number, the numbers of the channels of which it is an end.
ghost use Rattle.std.specs.Prelude.{◌≡◌, ℕ, ◌<◌, ◌≤◌, [], length, true, IsTrue, OnOk, slice_get};
ghost use Rattle.std.specs.List.Sorted.{IsNonDecreasing};
ghost use Rattle.wx_id.specs.Contexts.{are_distinct, is_among};
ghost use Rattle.wx_id.specs.ByContext.{EachHas, Changed};
ghost use Rattle.wx_port.specs.Numbers.{AreStill, MayFollow, list_in, room_in, with_number};

use crate::numbers::Numbers;
use std::alloc::Global;
use wx_id::{ContextNo, NoMemory};

/// The numbers of context c.
pub fn numbers_of(own: &[Numbers], c: ContextNo) -> &[u64]
    ensures list { result.now ≡ list_in (slice_get own.now c.0) }
    ensures rising { IsNonDecreasing result.now }
{
    match own.get(c.0 as usize) {
        Some(numbers) => numbers.list(),
        None => &[],
    }
}

/// Makes a list for each context up to c.
#[tactic(auto, using(crate::proofs::OwnLater::still_self, crate::proofs::OwnLater::still_push, crate::proofs::OwnLater::still_then))]
fn extend(own: &mut Vec<Numbers>, alloc: Global, c: ContextNo) -> Result<(), NoMemory>
    ensures still { AreStill own.old.items own.new.items }
    ensures ok { OnOk result (c.0 < length own.new.items) }
{
    while own.len() <= c.0 as usize {
        own.reserve(1)?;
        own.push_reserved(Numbers::new(alloc));
    }
    Ok(())
}

/// Makes room for one more number of context c, which has a list.
#[tactic(auto, using(crate::proofs::OwnLater::still_at, crate::proofs::OwnLater::room_at))]
fn make_room_there(own: &mut Vec<Numbers>, c: ContextNo) -> Result<(), NoMemory>
    requires { c.0 < length own.old.items }
    ensures still { AreStill own.old.items own.new.items }
    ensures ok { OnOk result (0 < room_in (slice_get own.new.items c.0)) }
{
    own[c.0 as usize].make_room()
}

/// Makes room for one more number of context c.
#[tactic(auto, using(crate::proofs::OwnLater::still_then))]
pub fn make_room_at(own: &mut Vec<Numbers>, alloc: Global, c: ContextNo) -> Result<(), NoMemory>
    ensures still { AreStill own.old.items own.new.items }
    ensures ok { OnOk result (0 < room_in (slice_get own.new.items c.0)) }
{
    extend(own, alloc, c)?;
    make_room_there(own, c)
}

/// Makes room for one more number of each of these contexts.
pub fn make_room(own: &mut Vec<Numbers>, alloc: Global, of: &[ContextNo]) -> Result<(), NoMemory>
    ensures still { AreStill own.old.items own.new.items }
    ensures ok { OnOk result ((d : ContextNo) → is_among of.now d ≡ true → 0 < room_in (slice_get own.new.items d.0)) }
{
    for c in of {
        make_room_at(own, alloc, *c)?;
    }
    Ok(())
}

/// Each of these contexts has one more number. Takes no memory.
pub fn add(own: &mut Vec<Numbers>, of: &[ContextNo], k: u64)
    requires distinct { IsTrue (are_distinct of.now) }
    requires follows { EachHas (MayFollow k) of.now own.old.items }
    ensures { Changed (with_number k) of.now own.old.items own.new.items }
{
    for c in of {
        own[c.0 as usize].push(k);
    }
}
