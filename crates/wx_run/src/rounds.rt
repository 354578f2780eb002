//! Rounds: the turns of all endpoints and of all hosts, one round after the other.
ghost use Rattle.std.specs.Prelude.{◌≡◌, ℕ, IfOk, OnOk, None, reverse, if◌then◌else◌};
ghost use Rattle.wx_host_slot.specs.Slots.{slots_of};
ghost use Rattle.wx_run.specs.Cursors.{scripts_in, first_spent_in, all_left};
ghost use Rattle.wx_run.specs.Slots.{HostsStand, WereStartedBelow};
ghost use Rattle.wx_run.specs.Round.{AllStand, IsRound, RoundLessens};
ghost use Rattle.wx_run.specs.Running.{AreReady, IsWholeRound, IsNextRound, turns_in};
ghost use Rattle.wx_run.specs.Running.{TurnsLessen, KeepsPlaces, AreRounds};

use crate::hosts::{add_slots, hear_first, serve_hosts};
use crate::outcome::RunEnd;
use crate::step::{Endpoint, make_turn};
use std::alloc::Global;
use wx_desk::BrokerDesk;
use wx_host_launch::Starter;
use wx_host_slot::HostSlot;
use wx_id::{ContextNo, NoMemory};
use wx_script::SpentWho;

/// What a round came to.
#[derive(Clone, Copy, Debug, PartialEq, Eq)]
pub enum Rounded {
    /// Some turn made an entry or started a program, and nobody is spent.
    Moved,
    /// Nobody could do anything.
    Idle,
    /// This endpoint or host is spent by the last entry, and after it the round was cut short.
    Spent(SpentWho),
}

/// How a run ends in which nobody can do anything.
fn end_of(endpoints: &[Endpoint<'_>]) -> RunEnd
    ensures { result ≡ (if all_left endpoints.now then RunEnd.Done else RunEnd.Stalled) }
{
    for endpoint in endpoints {
        if !endpoint.has_ended() {
            return RunEnd::Stalled;
        }
    }
    RunEnd::Done
}

/// The endpoints' part of a round: a turn of each, in rising number, up to the entry by which one is spent.
fn round(endpoints: &mut Vec<Endpoint<'_>>, desk: &mut BrokerDesk) -> Result<Rounded, NoMemory>
    requires stand { AllStand desk.old.broker.world (scripts_in endpoints.old.items) endpoints.old.items
        (reverse desk.old.broker.entries) }
    requires unspent { first_spent_in 0 endpoints.old.items ≡ None }
    ensures stand { OnOk result (AllStand desk.old.broker.world (scripts_in endpoints.old.items) endpoints.new.items
        (reverse desk.new.broker.entries)) }
    ensures round { IfOk result (λ rounded. IsRound (scripts_in endpoints.old.items) endpoints.new.items
        (reverse desk.old.broker.entries) (reverse desk.new.broker.entries) rounded) }
    ensures less { IfOk result (λ rounded. RoundLessens endpoints.old.items endpoints.new.items
        (reverse desk.old.broker.entries) (reverse desk.new.broker.entries) rounded) }
    ensures same_world { OnOk result (desk.new.broker.world ≡ desk.old.broker.world) }
{
    let mut moved = false;
    for i in 0..endpoints.len() {
        desk.context = ContextNo(i as u64);
        let endpoint = &mut endpoints[i];
        if !make_turn(endpoint, desk)? {
            continue;
        }
        if endpoint.is_spent() {
            return Ok(Rounded::Spent(SpentWho::Endpoint(i as u64)));
        }
        moved = true;
    }
    Ok(if moved { Rounded::Moved } else { Rounded::Idle })
}

/// A whole round: the turns of all endpoints, and then of all hosts, those included that were called in it, of which
/// those alone can fail to start that were not started before; or its first turns, up to the entry by which someone is
/// spent.
fn whole_round<P: Starter>(
    alloc: Global,
    endpoints: &mut Vec<Endpoint<'_>>,
    slots: &mut Vec<HostSlot<P>>,
    desk: &mut BrokerDesk,
    starter: &mut P,
) -> Result<Rounded, NoMemory>
    requires { AreReady (P.state starter.old).writing desk.old.broker.world (scripts_in endpoints.old.items)
        endpoints.old.items (slots_of P.state slots.old.items) (reverse desk.old.broker.entries) }
    ensures stand { OnOk result (AllStand desk.old.broker.world (scripts_in endpoints.old.items) endpoints.new.items
        (reverse desk.new.broker.entries)) }
    ensures hosts_stand { OnOk result
        (HostsStand (P.state starter.old).writing desk.old.broker.world (reverse desk.new.broker.entries)
        (slots_of P.state slots.new.items)) }
    ensures round { (known : ℕ) → WereStartedBelow known (slots_of P.state slots.old.items)
        → IfOk result (λ rounded. IsWholeRound known (scripts_in endpoints.old.items) endpoints.new.items
        (slots_of P.state slots.new.items) (reverse desk.old.broker.entries) (reverse desk.new.broker.entries)
        rounded) }
    ensures less { IfOk result (λ rounded. TurnsLessen (turns_in endpoints.old.items (slots_of P.state slots.old.items))
        (turns_in endpoints.new.items (slots_of P.state slots.new.items)) rounded) }
    ensures kept { OnOk result (KeepsPlaces (slots_of P.state slots.old.items) (slots_of P.state slots.new.items)
        (P.state starter.old) (P.state starter.new)) }
    ensures same_world { OnOk result (desk.new.broker.world ≡ desk.old.broker.world) }
{
    let turns = round(endpoints, desk)?;
    if let Rounded::Spent(_) = turns {
        return Ok(turns);
    }
    add_slots(&desk.broker, slots, starter)?;
    match serve_hosts(alloc, desk, slots)? {
        Rounded::Idle => Ok(turns),
        served => Ok(served),
    }
}

/// The next round of a run: a whole round, or its first turns, up to the entry by which someone is spent; or, where
/// nobody can do anything, the turn of the first host that has not ended.
fn next_round<P: Starter>(
    alloc: Global,
    endpoints: &mut Vec<Endpoint<'_>>,
    slots: &mut Vec<HostSlot<P>>,
    desk: &mut BrokerDesk,
    starter: &mut P,
) -> Result<Rounded, NoMemory>
    requires { AreReady (P.state starter.old).writing desk.old.broker.world (scripts_in endpoints.old.items)
        endpoints.old.items (slots_of P.state slots.old.items) (reverse desk.old.broker.entries) }
    ensures stand { OnOk result (AllStand desk.old.broker.world (scripts_in endpoints.old.items) endpoints.new.items
        (reverse desk.new.broker.entries)) }
    ensures hosts_stand { OnOk result
        (HostsStand (P.state starter.old).writing desk.old.broker.world (reverse desk.new.broker.entries)
        (slots_of P.state slots.new.items)) }
    ensures round { (known : ℕ) → WereStartedBelow known (slots_of P.state slots.old.items)
        → IfOk result (λ rounded. IsNextRound known (scripts_in endpoints.old.items) endpoints.new.items
        (slots_of P.state slots.new.items) (reverse desk.old.broker.entries) (reverse desk.new.broker.entries)
        rounded) }
    ensures less { IfOk result (λ rounded. TurnsLessen (turns_in endpoints.old.items (slots_of P.state slots.old.items))
        (turns_in endpoints.new.items (slots_of P.state slots.new.items)) rounded) }
    ensures kept { OnOk result (KeepsPlaces (slots_of P.state slots.old.items) (slots_of P.state slots.new.items)
        (P.state starter.old) (P.state starter.new)) }
    ensures same_world { OnOk result (desk.new.broker.world ≡ desk.old.broker.world) }
{
    match whole_round(alloc, endpoints, slots, desk, starter)? {
        Rounded::Idle => hear_first(desk, slots),
        rounded => Ok(rounded),
    }
}

/// Round after round, until nobody can do anything, or up to the entry by which someone is spent.
pub fn run_rounds<P: Starter>(
    alloc: Global,
    endpoints: &mut Vec<Endpoint<'_>>,
    slots: &mut Vec<HostSlot<P>>,
    desk: &mut BrokerDesk,
    starter: &mut P,
) -> Result<RunEnd, NoMemory>
    requires { AreReady (P.state starter.old).writing desk.old.broker.world (scripts_in endpoints.old.items)
        endpoints.old.items (slots_of P.state slots.old.items) (reverse desk.old.broker.entries) }
    ensures rounds { (known : ℕ) → WereStartedBelow known (slots_of P.state slots.old.items)
        → IfOk result (λ end. AreRounds known (scripts_in endpoints.old.items) (reverse desk.old.broker.entries)
        (reverse desk.new.broker.entries) end) }
    ensures hosts_stand { OnOk result
        (HostsStand (P.state starter.old).writing desk.old.broker.world (reverse desk.new.broker.entries)
        (slots_of P.state slots.new.items)) }
    ensures kept { OnOk result (KeepsPlaces (slots_of P.state slots.old.items) (slots_of P.state slots.new.items)
        (P.state starter.old) (P.state starter.new)) }
    ensures same_world { OnOk result (desk.new.broker.world ≡ desk.old.broker.world) }
{
    loop {
        match next_round(alloc, endpoints, slots, desk, starter)? {
            Rounded::Moved => {}
            Rounded::Idle => return Ok(end_of(endpoints)),
            Rounded::Spent(who) => return Ok(RunEnd::Spent(who)),
        }
    }
}
