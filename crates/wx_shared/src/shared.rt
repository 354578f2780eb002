//! The value behind the lock.
ghost use Rattle.std.specs.Prelude.{◌≡◌};
ghost use Rattle.wx_turn.specs.Works.{StandsFor};
ghost use Rattle.wx_turn.specs.Entries.{last_mark};

use wx_broker::Broker;
use wx_external::World;
use wx_machine::Entry;
use wx_turn::Stands;

/// A broker, the number of turns that were made, and whether workers are to stop. It stands for the marks whose entries
/// are its journal, one for each turn. Its fixed part is the world.
#[derive(Drop)]
pub struct Shared {
    pub broker: Broker,
    pub turns: u64,
    pub stop: bool,
}

impl Stands for Shared {
    type Entry = Entry;

    type Fixed = World;

    ghost stands = { λ s h. StandsFor s.broker.entries s.turns h };

    ghost fixed = { λ s. s.broker.world };

    ghost count = { λ s. s.turns };

    fn turns(&self) -> u64 {
        self.turns
    }

    ghost counted = { λ s h p. Prim.search (p.1) };

    ghost last = { λ s h d e p q. last_mark s.broker.entries s.turns h d e p q };
}
