//! A plain list behind the lock, for the tests, and the two works on it.
ghost use Rattle.std.specs.Prelude.{◌≡◌, ℕ, Option, Some, None, MatchBool};
ghost use Rattle.wx_turn.specs.Works.{StandsFor};
ghost use Rattle.wx_turn.specs.Entries.{last_mark};

use crate::stands::{Stands, Work};

/// A list of numbers and the count of turns; it has no fixed part.
#[derive(Drop)]
pub struct Plain {
    pub items: Vec<u64>,
    pub count: u64,
}

impl Stands for Plain {
    type Entry = u64;

    type Fixed = ();

    ghost stands = { λ s h. StandsFor s.items.items s.count h };

    ghost fixed = { λ s. tt };

    ghost count = { λ s. s.count };

    fn turns(&self) -> u64 {
        self.count
    }

    ghost counted = { λ s h p. Prim.search (p.1) };

    ghost last = { λ s h d e p q. last_mark s.items.items s.count h d e p q };
}

/// Puts a number at the end, and answers whether memory was had for it.
#[derive(Drop)]
pub struct Put {
    pub value: u64,
}

impl Work<Plain> for Put {
    type Answer = bool;

    ghost relates = { λ w v f h e a. MatchBool a (e ≡ Some w.value) (e ≡ None) };

    fn act(&mut self, state: &mut Plain) -> bool {
        state.count += 1;
        match state.items.push(self.value) {
            Ok(()) => true,
            Err(_) => false,
        }
    }
}

/// Whether the number is in the list. It makes no entry.
#[derive(Drop)]
pub struct Find {
    pub value: u64,
}

impl Work<Plain> for Find {
    type Answer = bool;

    ghost relates = { λ w v f h e a. e ≡ None };

    fn act(&mut self, state: &mut Plain) -> bool {
        state.count += 1;
        state.items.contains(&self.value)
    }
}
