//! The value behind the lock: a count of turns, none of which has an entry.
ghost use Rattle.std.specs.Prelude.{◌≡◌, [], None};
ghost use Rattle.wx_turn.specs.Works.{StandsFor};
ghost use Rattle.wx_turn.specs.Entries.{last_mark};

use wx_turn::{Stands, Work};

/// How many turns were made.
#[derive(Drop)]
pub(crate) struct Tally {
    pub(crate) turns: u64,
}

impl Stands for Tally {
    type Entry = ();

    type Fixed = ();

    ghost stands = { λ s h. StandsFor [] s.turns h };

    ghost fixed = { λ s. tt };

    ghost count = { λ s. s.turns };

    fn turns(&self) -> u64 {
        self.turns
    }

    ghost counted = { λ s h p. Prim.search (p.1) };

    ghost last = { λ s h d e p q. last_mark [] s.turns h d e p q };
}

/// Counts one turn.
#[derive(Drop)]
pub(crate) struct Tick;

impl Work<Tally> for Tick {
    type Answer = ();

    ghost relates = { λ w v f h e a. e ≡ None };

    fn act(&mut self, state: &mut Tally) {
        state.turns += 1;
    }
}
