//! A run of a scene, from its opening to the records of its hosts.
ghost use Rattle.std.specs.Prelude.{◌≡◌, IfOk, reverse};
ghost use Rattle.wx_script.specs.SceneValue.{scripts_of};
ghost use Rattle.wx_run.specs.Rounds.{IsSpent};
ghost use Rattle.wx_run.specs.Hosts.{HaveRecords};
ghost use Rattle.wx_run.specs.Run.{IsRunOf, IsInRounds};

use crate::hosts::{add_slots, finish_hosts};
use crate::opening::open;
use crate::outcome::Outcome;
use crate::rounds::run_rounds;
use std::alloc::Global;
use wx_broker::Broker;
use wx_desk::BrokerDesk;
use wx_external::World;
use wx_host_launch::Starter;
use wx_id::NoMemory;
use wx_script::{How, Scene};

/// A run of the scene: the opening, and round after round, until nobody can do anything, or up to the entry by which
/// someone is spent. The starter starts the hosts' programs, takes over a record for each host, and does nothing else.
pub fn run_scene<P: Starter>(
    alloc: Global,
    scene: &Scene,
    world: World,
    starter: &mut P,
    how: How,
) -> Result<Outcome, NoMemory>
    ensures run { IfOk result (λ outcome. IsRunOf world scene.now outcome.journal.entries outcome.end) }
    // In rounds the entries after the opening fall into rounds.
    ensures rounds { how ≡ How.Rounds → IfOk result (λ outcome. IsInRounds scene.now outcome.journal.entries) }
    ensures records { IfOk result (λ outcome.
        HaveRecords (IsSpent (scripts_of scene.now) (reverse outcome.journal.entries)) world
        (reverse outcome.journal.entries)
        (P.state starter.old) (P.state starter.new)) }
{
    // Until a run has threads, it is made in rounds either way.
    let _ = how;
    let mut desk = BrokerDesk::new(Broker::new(alloc, world));
    let mut endpoints = open(alloc, scene, &mut desk)?;
    let mut slots = Vec::new(alloc);
    let end = run_rounds(alloc, &mut endpoints, &mut slots, &mut desk, starter)?;
    add_slots(&desk.broker, &mut slots, starter)?;
    finish_hosts(slots, starter);
    Ok(Outcome {
        journal: desk.into_broker().into_journal(),
        end,
    })
}
