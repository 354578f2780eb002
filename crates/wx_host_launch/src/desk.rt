//! The desk of a native host.
use wx_id::{EntryNo, NoMemory};
use wx_machine::{Answer, JsonText, Reason};

/// Where a host makes its calls. A desk tells its host, a legal journal, and which of the entries were made at it;
/// entries of others may come in at every step. Where memory is refused no entry is made at it. A desk has a number of
/// steps, of which each call but `left` and `text_of` takes at most one, and needs one unless it is `stopped`.
pub trait HostDesk: Send {
    ghost use Rattle.std.specs.Prelude.{
      ◌≡◌,
      ◌+◌,
      ◌<◌,
      ◌≤◌,
      ℕ,
      Bool,
      false,
      List,
      Option,
      length,
      Some,
      IsSome,
      IfOk,
      IfErr,
      IfSome,
      OnErr,
      MatchOption,
    };
    ghost use Rattle.wx_id.specs.declared.numbers.EntryNo.{EntryNo};
    ghost use Rattle.wx_id.specs.declared.numbers.HostNo.{HostNo};
    ghost use Rattle.wx_machine.specs.Carried as carried;
    ghost use Rattle.wx_machine.specs.Texts as texts;
    ghost use Rattle.wx_machine.specs.declared.entries.Call.TheVariants as Call;
    ghost use Rattle.wx_machine.specs.declared.entries.Entry.{Entry};
    ghost use Rattle.wx_machine.specs.declared.entries.TheConstants.{LONGEST_SAID};
    ghost use Rattle.wx_desk.specs.Desks.{HostDeskState, IsSound, MakesNone, MakesOne, past_of};
    ghost use Rattle.wx_host_launch.specs.Steps.{TakesNews, FindsNoNews, Ends, FindsText, lent_after};

    /// Whose calls it makes, and what it has seen of the journal.
    ghost state: { Self → HostDeskState };

    /// The entry whose text it lends.
    ghost lent: { Self → Option EntryNo };

    /// How many steps it has left.
    ghost steps: { Self → ℕ };

    /// What it last answered to whether to stop.
    ghost told: { Self → Option Bool };

    /// Which desk it is. No call changes it.
    ghost key: { Self → List ℕ };

    /// What the journal tells of the host where the desk answers that its pump is to go on.
    ghost going: { HostNo → List Entry → Type 0 };

    /// How many steps it has left. It takes no memory and makes no step.
    fn left(&self) -> u64
        ensures { result ≡ steps self.now };

    /// Whether the host's pump is to stop. Where it is not, at least three steps are left.
    fn stopped(&mut self) -> bool
        requires { IsSound (state self.old) }
        ensures no_entry { MakesNone (state self.old) (state self.new) }
        ensures told { told self.new ≡ Some result }
        ensures left { result ≡ false → 3 ≤ steps self.new }
        ensures going { result ≡ false → going (state self.new).who (past_of (state self.new)) }
        ensures one_step { steps self.old ≤ steps self.new + 1 }
        ensures same_lent { lent self.new ≡ lent self.old }
        ensures same_key { key self.new ≡ key self.old }
        ensures sound { IsSound (state self.new) };

    /// Takes, where that has something new to tell: the next text, or for the first time that none comes any more.
    fn host_next(&mut self) -> Result<Option<Answer>, NoMemory>
        requires sound { IsSound (state self.old) }
        requires step { 0 < steps self.old }
        ensures taken { IfOk result (λ found. MatchOption found
            (FindsNoNews (state self.old) (state self.new))
            (λ answer. TakesNews (state self.old) (state self.new) answer)) }
        ensures refused { OnErr result (MakesNone (state self.old) (state self.new)) }
        ensures sound { IsSound (state self.new) }
        ensures one_step { steps self.old ≤ steps self.new + 1 }
        ensures lent { lent self.new ≡ lent_after (lent self.old) result }
        ensures same_told { told self.new ≡ told self.old }
        ensures same_key { key self.new ≡ key self.old };

    /// The text in the entry that the last take named. Of other entries it may know none.
    fn text_of(&self, e: EntryNo) -> Option<&JsonText>
        requires { IsSound (state self.now) }
        ensures carried { IfSome result (λ text. carried.text_of (past_of (state self.now)) e ≡ Some text.now) }
        ensures lent { lent self.now ≡ Some e → IsSome result };

    /// Whether its channel was closed when it said something.
    fn said_closed(&mut self) -> bool
        requires sound { IsSound (state self.old) }
        requires step { 0 < steps self.old }
        ensures told { result ≡ texts.said_closed (past_of (state self.new)) (state self.new).who }
        ensures no_entry { MakesNone (state self.old) (state self.new) }
        ensures sound { IsSound (state self.new) }
        ensures one_step { steps self.old ≤ steps self.new + 1 }
        ensures same_lent { lent self.new ≡ lent self.old }
        ensures same_told { told self.new ≡ told self.old }
        ensures same_key { key self.new ≡ key self.old };

    /// The host says a text. It comes back where memory was refused.
    fn host_said(&mut self, text: JsonText) -> Result<Answer, JsonText>
        requires sound { IsSound (state self.old) }
        requires step { 0 < steps self.old }
        requires short { length text ≤ LONGEST_SAID }
        ensures made { IfOk result (λ answer. MakesOne (state self.old) (state self.new) (Call.HostSaid text) answer) }
        ensures refused { OnErr result (MakesNone (state self.old) (state self.new)) }
        ensures returned { IfErr result (λ back. back ≡ text) }
        ensures sound { IsSound (state self.new) }
        ensures one_step { steps self.old ≤ steps self.new + 1 }
        ensures same_lent { lent self.new ≡ lent self.old }
        ensures same_told { told self.new ≡ told self.old }
        ensures same_key { key self.new ≡ key self.old };

    /// The host ends.
    fn host_ended(&mut self, reason: Reason) -> Result<Answer, NoMemory>
        requires sound { IsSound (state self.old) }
        requires step { 0 < steps self.old }
        ensures made { IfOk result (λ answer.
            MakesOne (state self.old) (state self.new) (Call.HostEnded reason) answer) }
        ensures refused { OnErr result (MakesNone (state self.old) (state self.new)) }
        ensures sound { IsSound (state self.new) }
        ensures one_step { steps self.old ≤ steps self.new + 1 }
        ensures same_lent { lent self.new ≡ lent self.old }
        ensures same_told { told self.new ≡ told self.old }
        ensures same_key { key self.new ≡ key self.old };

    /// The host ends, unless there is a text for it to take at that step.
    fn host_ends(&mut self, reason: Reason) -> Result<Option<Answer>, NoMemory>
        requires sound { IsSound (state self.old) }
        requires step { 0 < steps self.old }
        ensures made { IfOk result (λ found. MatchOption found
            (FindsText (state self.old) (state self.new))
            (λ answer. Ends (state self.old) (state self.new) reason answer)) }
        ensures refused { OnErr result (MakesNone (state self.old) (state self.new)) }
        ensures sound { IsSound (state self.new) }
        ensures one_step { steps self.old ≤ steps self.new + 1 }
        ensures same_lent { lent self.new ≡ lent self.old }
        ensures same_told { told self.new ≡ told self.old }
        ensures same_key { key self.new ≡ key self.old };
}
