//! The value behind the lock, which stands for a history of turns, and what is done to it in one turn.
ghost use Rattle.std.specs.Prelude.{◌≡◌, ℕ, ◌^◌, ◌<◌, List, length, Option};
ghost use Rattle.wx_turn.specs.Works.{SettlesLast, AddsOne};

/// A value that stands for a list of marks, one for each turn: the entry that the turn made, or nothing. Beside them it
/// has a fixed part, which no turn changes.
pub trait Stands {
    /// What a turn adds to the history.
    type Entry;

    /// What no turn changes; `()` where there is nothing.
    type Fixed;

    /// The value stands for these marks.
    ghost stands: { Self → List (Option Self.Entry) → Type 0 };

    /// The value's fixed part.
    ghost fixed: { Self → Self.Fixed };

    /// How many turns were made.
    ghost count: { Self → ℕ };

    /// How many turns were made, those without an entry too.
    fn turns(&self) -> u64
        ensures { result ≡ count self.now };

    /// There is a mark for each turn.
    ghost counted: { (s : Self) (h : List (Option Self.Entry)) → stands s h → count s ≡ length h };

    /// The value and the marks before the last one settle which mark the last is.
    ghost last: { SettlesLast stands };
}

/// What is done in one turn.
pub trait Work<S: Stands> {
    /// What the turn answers.
    type Answer;

    /// What holds of the work before and after, the fixed part, the marks before, the new mark and the answer.
    ghost relates: { Self → Self → S.Fixed → List (Option S.Entry) → Option S.Entry → Self.Answer → Type 0 };

    /// Acts on the value: it then stands for exactly one mark more, and has the same fixed part.
    fn act(&mut self, state: &mut S) -> Self::Answer
        requires { S.count state.old < 2 ^ 63 }
        ensures { AddsOne S.stands S.fixed (λ f h e. relates self.old self.new f h e result) state.old state.new };
}
