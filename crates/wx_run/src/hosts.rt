//! The hosts' part of a round: slots for hosts, their turns in rising number, and their end.
ghost use Rattle.std.specs.Prelude.{◌≡◌, ℕ, ◌+◌, ◌-◌, ◌*◌, ◌<◌, ◌≤◌, length, take, reverse, Option, None, IfOk, OnOk};
ghost use Rattle.wx_machine.specs.Answers.{IsLegal};
ghost use Rattle.wx_machine.specs.Hosts.{hosts};
ghost use Rattle.wx_host_launch.specs.Records.{Writing};
ghost use Rattle.wx_host_slot.specs.Slots.{host_limit, slots_of};
ghost use Rattle.wx_run.specs.Hosts.{NoneReady};
ghost use Rattle.wx_run.specs.Serving.{HostsServed, FirstHeard};
ghost use Rattle.wx_run.specs.Slots.{HostsStand, AllWereStarted, AddsBehind, first_spent_slot, first_unended_slot};
ghost use Rattle.wx_run.specs.Slots.{is_moved, all_turns_left, keeping, absorbing};

use crate::rounds::Rounded;
use std::alloc::Global;
use wx_broker::Broker;
use wx_desk::BrokerDesk;
use wx_host_launch::Starter;
use wx_host_slot::{HostSlot, Served};
use wx_id::{HostNo, NoMemory};
use wx_script::SpentWho;

/// Gives a slot to each host that has none, behind the others.
pub fn add_slots<P: Starter>(
    broker: &Broker,
    slots: &mut Vec<HostSlot<P>>,
    starter: &mut P,
) -> Result<(), NoMemory>
    requires { HostsStand (P.state starter.old).writing broker.now.world (reverse broker.now.entries)
        (slots_of P.state slots.old.items) }
    ensures stand { OnOk result (HostsStand (P.state starter.old).writing broker.now.world (reverse broker.now.entries)
        (slots_of P.state slots.new.items)) }
    ensures all { OnOk result (length slots.new.items ≡ length (hosts (reverse broker.now.entries))) }
    ensures front { OnOk result (AddsBehind (slots_of P.state slots.old.items) (slots_of P.state slots.new.items)) }
    ensures unspent { OnOk result (first_spent_slot 0 (slots_of P.state slots.old.items) ≡ None
        → first_spent_slot 0 (slots_of P.state slots.new.items) ≡ None) }
    ensures left { OnOk result (all_turns_left (slots_of P.state slots.new.items)
        ≡ all_turns_left (slots_of P.state slots.old.items) + (host_limit + 4) *
        (length slots.new.items - length slots.old.items)) }
    ensures kept { OnOk result (P.state starter.new
        ≡ keeping (length slots.new.items - length slots.old.items) (P.state starter.old)) }
{
    while (slots.len() as u64) < broker.hosts() {
        let slot = HostSlot::new(starter.another()?);
        if slots.push(slot).is_err() {
            return Err(NoMemory);
        }
    }
    Ok(())
}

/// Whether the host made an entry or its program was started.
fn has_moved(served: Served) -> bool
    ensures { result ≡ is_moved served }
{
    match served {
        Served::Moved => true,
        Served::Rested => false,
    }
}

/// The turns of all hosts behind those of the endpoints, in rising number, up to the entry by which one is spent.
pub fn serve_hosts<P: Starter>(
    alloc: Global,
    desk: &mut BrokerDesk,
    slots: &mut Vec<HostSlot<P>>,
) -> Result<Rounded, NoMemory>
    requires legal { IsLegal desk.old.broker.world desk.old.broker.entries }
    requires stand { (writing : Option Writing) × HostsStand writing desk.old.broker.world
        (reverse desk.old.broker.entries) (slots_of P.state slots.old.items) }
    requires all { length slots.old.items ≡ length (hosts (reverse desk.old.broker.entries)) }
    requires unspent { first_spent_slot 0 (slots_of P.state slots.old.items) ≡ None }
    ensures stand { (writing : Option Writing) → HostsStand writing desk.old.broker.world
        (reverse desk.old.broker.entries) (slots_of P.state slots.old.items)
        → OnOk result (HostsStand writing desk.old.broker.world (reverse desk.new.broker.entries)
        (slots_of P.state slots.new.items)) }
    ensures served { (known : ℕ) → AllWereStarted (take known (slots_of P.state slots.old.items))
        → IfOk result (HostsServed known (reverse desk.old.broker.entries) (reverse desk.new.broker.entries)
        (slots_of P.state slots.old.items) (slots_of P.state slots.new.items)) }
    ensures same_size { length slots.new.items ≡ length slots.old.items }
    ensures legal { OnOk result (IsLegal desk.old.broker.world desk.new.broker.entries) }
    ensures same_world { OnOk result (desk.new.broker.world ≡ desk.old.broker.world) }
{
    let mut moved = false;
    for i in 0..slots.len() {
        let h = HostNo(i as u64);
        let slot = &mut slots[i];
        let served = slot.serve(alloc, desk, h)?;
        if slot.is_spent() {
            return Ok(Rounded::Spent(SpentWho::Host(h)));
        }
        moved |= has_moved(served);
    }
    Ok(if moved { Rounded::Moved } else { Rounded::Idle })
}

/// The first slot whose host has not ended.
fn first_unended<P: Starter>(slots: &[HostSlot<P>]) -> Option<usize>
    ensures { result ≡ first_unended_slot 0 (slots_of P.state slots.now) }
{
    for (i, slot) in slots.iter().enumerate() {
        if !slot.has_ended() {
            return Some(i);
        }
    }
    None
}

/// The turn of the first host that has not ended, where nobody else can do anything; no turn where there is none.
pub fn hear_first<P: Starter>(
    desk: &mut BrokerDesk,
    slots: &mut Vec<HostSlot<P>>,
) -> Result<Rounded, NoMemory>
    requires legal { IsLegal desk.old.broker.world desk.old.broker.entries }
    requires stand { (writing : Option Writing) × HostsStand writing desk.old.broker.world
        (reverse desk.old.broker.entries) (slots_of P.state slots.old.items) }
    requires all { length slots.old.items ≡ length (hosts (reverse desk.old.broker.entries)) }
    requires unspent { first_spent_slot 0 (slots_of P.state slots.old.items) ≡ None }
    requires started { AllWereStarted (slots_of P.state slots.old.items) }
    requires none_ready { NoneReady (reverse desk.old.broker.entries) }
    ensures stand { (writing : Option Writing) → HostsStand writing desk.old.broker.world
        (reverse desk.old.broker.entries) (slots_of P.state slots.old.items)
        → OnOk result (HostsStand writing desk.old.broker.world (reverse desk.new.broker.entries)
        (slots_of P.state slots.new.items)) }
    ensures heard { IfOk result (FirstHeard (reverse desk.old.broker.entries) (reverse desk.new.broker.entries)
        (slots_of P.state slots.old.items) (slots_of P.state slots.new.items)) }
    ensures same_size { length slots.new.items ≡ length slots.old.items }
    ensures legal { OnOk result (IsLegal desk.old.broker.world desk.new.broker.entries) }
    ensures same_world { OnOk result (desk.new.broker.world ≡ desk.old.broker.world) }
{
    let Some(i) = first_unended(slots) else {
        return Ok(Rounded::Idle);
    };
    let h = HostNo(i as u64);
    let slot = &mut slots[i];
    slot.hear(desk, h)?;
    Ok(if slot.is_spent() {
        Rounded::Spent(SpentWho::Host(h))
    } else {
        Rounded::Moved
    })
}

/// Finishes each started child, and hands the slots' starters over, with the hosts' records, in rising number.
pub fn finish_hosts<P: Starter>(slots: Vec<HostSlot<P>>, starter: &mut P)
    requires { length slots.items ≤ (P.state starter.old).places }
    ensures { P.state starter.new ≡ absorbing (P.state starter.old) (slots_of P.state slots.items) }
{
    for slot in slots {
        starter.absorb(slot.finish());
    }
}
