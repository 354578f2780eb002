//! The desk of an endpoint.
use wx_context::{Listens, Target};
use wx_id::{ChannelNo, EntryNo, NoMemory, RequestNo, Utf8Text};
use wx_machine::{Answer, JsonText};

/// Where an endpoint makes its own calls. A desk tells its endpoint's context, a legal journal, and which of the
/// entries are the endpoint's own; entries of others may come in at every step. Where memory is refused the endpoint
/// makes no entry. A desk has a number of steps, of which each call but `left` takes at most one, and needs one unless
/// it is `stopped`.
pub trait Desk: Send {
    ghost use Rattle.std.specs.Prelude.{
      ◌≡◌,
      ◌+◌,
      ◌<◌,
      ◌≤◌,
      ℕ,
      Bool,
      false,
      List,
      Option,
      Some,
      IfOk,
      IfErr,
      OnErr,
      MatchOption,
    };
    ghost use Rattle.wx_machine.specs.Carried.{text_of};
    ghost use Rattle.wx_machine.specs.declared.entries.Call.TheVariants as Call;
    ghost use Rattle.wx_desk.specs.Desks.{ContextDeskState, IsSound, MakesNone, MakesOne, past_of};
    ghost use Rattle.wx_endpoint.specs.Steps.{TakesReady, FindsNone};

    /// Whose calls it makes, and what it has seen of the journal.
    ghost state: { Self → ContextDeskState };

    /// How many steps it has left.
    ghost steps: { Self → ℕ };

    /// What it last answered to whether to stop.
    ghost told: { Self → Option Bool };

    /// Which desk it is. No call changes it.
    ghost key: { Self → List ℕ };

    /// How many steps it has left. It takes no memory and makes no step.
    fn left(&self) -> u64
        ensures { result ≡ steps self.now };

    /// Whether the endpoint's worker is to stop. Where it is not, at least three steps are left.
    fn stopped(&mut self) -> bool
        requires { IsSound (state self.old) }
        ensures no_entry { MakesNone (state self.old) (state self.new) }
        ensures told { told self.new ≡ Some result }
        ensures left { result ≡ false → 3 ≤ steps self.new }
        ensures one_step { steps self.old ≤ steps self.new + 1 }
        ensures same_key { key self.new ≡ key self.old }
        ensures sound { IsSound (state self.new) };

    /// The endpoint says what it listens to.
    fn listen(&mut self, l: Listens) -> Result<Answer, NoMemory>
        requires sound { IsSound (state self.old) }
        requires step { 0 < steps self.old }
        ensures made { IfOk result (λ answer. MakesOne (state self.old) (state self.new) (Call.Listen l) answer) }
        ensures refused { OnErr result (MakesNone (state self.old) (state self.new)) }
        ensures sound { IsSound (state self.new) }
        ensures one_step { steps self.old ≤ steps self.new + 1 }
        ensures same_told { told self.new ≡ told self.old }
        ensures same_key { key self.new ≡ key self.old };

    /// The endpoint leaves.
    fn leave(&mut self) -> Result<Answer, NoMemory>
        requires sound { IsSound (state self.old) }
        requires step { 0 < steps self.old }
        ensures made { IfOk result (λ answer. MakesOne (state self.old) (state self.new) Call.Leave answer) }
        ensures refused { OnErr result (MakesNone (state self.old) (state self.new)) }
        ensures sound { IsSound (state self.new) }
        ensures one_step { steps self.old ≤ steps self.new + 1 }
        ensures same_told { told self.new ≡ told self.old }
        ensures same_key { key self.new ≡ key self.old };

    /// The endpoint opens a channel. The name comes back where memory was refused.
    fn connect(&mut self, target: Target, name: Utf8Text) -> Result<Answer, Utf8Text>
        requires sound { IsSound (state self.old) }
        requires step { 0 < steps self.old }
        ensures made { IfOk result (λ answer.
            MakesOne (state self.old) (state self.new) (Call.Connect target name) answer) }
        ensures refused { OnErr result (MakesNone (state self.old) (state self.new)) }
        ensures returned { IfErr result (λ back. back ≡ name) }
        ensures sound { IsSound (state self.new) }
        ensures one_step { steps self.old ≤ steps self.new + 1 }
        ensures same_told { told self.new ≡ told self.old }
        ensures same_key { key self.new ≡ key self.old };

    /// The endpoint posts a message. The text comes back where memory was refused.
    fn post(&mut self, k: ChannelNo, text: JsonText) -> Result<Answer, JsonText>
        requires sound { IsSound (state self.old) }
        requires step { 0 < steps self.old }
        ensures made { IfOk result (λ answer. MakesOne (state self.old) (state self.new) (Call.Post k text) answer) }
        ensures refused { OnErr result (MakesNone (state self.old) (state self.new)) }
        ensures returned { IfErr result (λ back. back ≡ text) }
        ensures sound { IsSound (state self.new) }
        ensures one_step { steps self.old ≤ steps self.new + 1 }
        ensures same_told { told self.new ≡ told self.old }
        ensures same_key { key self.new ≡ key self.old };

    /// The endpoint closes a channel.
    fn disconnect(&mut self, k: ChannelNo) -> Result<Answer, NoMemory>
        requires sound { IsSound (state self.old) }
        requires step { 0 < steps self.old }
        ensures made { IfOk result (λ answer. MakesOne (state self.old) (state self.new) (Call.Disconnect k) answer) }
        ensures refused { OnErr result (MakesNone (state self.old) (state self.new)) }
        ensures sound { IsSound (state self.new) }
        ensures one_step { steps self.old ≤ steps self.new + 1 }
        ensures same_told { told self.new ≡ told self.old }
        ensures same_key { key self.new ≡ key self.old };

    /// The endpoint asks for a reply. The text comes back where memory was refused.
    fn send(&mut self, target: Target, text: JsonText) -> Result<Answer, JsonText>
        requires sound { IsSound (state self.old) }
        requires step { 0 < steps self.old }
        ensures made { IfOk result (λ answer.
            MakesOne (state self.old) (state self.new) (Call.Send target text) answer) }
        ensures refused { OnErr result (MakesNone (state self.old) (state self.new)) }
        ensures returned { IfErr result (λ back. back ≡ text) }
        ensures sound { IsSound (state self.new) }
        ensures one_step { steps self.old ≤ steps self.new + 1 }
        ensures same_told { told self.new ≡ told self.old }
        ensures same_key { key self.new ≡ key self.old };

    /// The endpoint replies to a request. The text comes back where memory was refused.
    fn reply(&mut self, r: RequestNo, text: JsonText) -> Result<Answer, JsonText>
        requires sound { IsSound (state self.old) }
        requires step { 0 < steps self.old }
        ensures made { IfOk result (λ answer. MakesOne (state self.old) (state self.new) (Call.Reply r text) answer) }
        ensures refused { OnErr result (MakesNone (state self.old) (state self.new)) }
        ensures returned { IfErr result (λ back. back ≡ text) }
        ensures sound { IsSound (state self.new) }
        ensures one_step { steps self.old ≤ steps self.new + 1 }
        ensures same_told { told self.new ≡ told self.old }
        ensures same_key { key self.new ≡ key self.old };

    /// The endpoint says that it will not reply to a request.
    fn decline(&mut self, r: RequestNo) -> Result<Answer, NoMemory>
        requires sound { IsSound (state self.old) }
        requires step { 0 < steps self.old }
        ensures made { IfOk result (λ answer. MakesOne (state self.old) (state self.new) (Call.Decline r) answer) }
        ensures refused { OnErr result (MakesNone (state self.old) (state self.new)) }
        ensures sound { IsSound (state self.new) }
        ensures one_step { steps self.old ≤ steps self.new + 1 }
        ensures same_told { told self.new ≡ told self.old }
        ensures same_key { key self.new ≡ key self.old };

    /// The endpoint starts the native host of that name, on a channel. The name comes back where memory was refused.
    fn connect_native(&mut self, name: Utf8Text) -> Result<Answer, Utf8Text>
        requires sound { IsSound (state self.old) }
        requires step { 0 < steps self.old }
        ensures made { IfOk result (λ answer.
            MakesOne (state self.old) (state self.new) (Call.ConnectNative name) answer) }
        ensures refused { OnErr result (MakesNone (state self.old) (state self.new)) }
        ensures returned { IfErr result (λ back. back ≡ name) }
        ensures sound { IsSound (state self.new) }
        ensures one_step { steps self.old ≤ steps self.new + 1 }
        ensures same_told { told self.new ≡ told self.old }
        ensures same_key { key self.new ≡ key self.old };

    /// The endpoint starts the native host of that name, for one message and its reply. The name and the text come back
    /// where memory was refused.
    fn send_native(
        &mut self,
        name: Utf8Text,
        text: JsonText,
    ) -> Result<Answer, (Utf8Text, JsonText)>
        requires sound { IsSound (state self.old) }
        requires step { 0 < steps self.old }
        ensures made { IfOk result (λ answer.
            MakesOne (state self.old) (state self.new) (Call.SendNative name text) answer) }
        ensures refused { OnErr result (MakesNone (state self.old) (state self.new)) }
        ensures returned { IfErr result (λ back. (back.0 ≡ name) × (back.1 ≡ text)) }
        ensures sound { IsSound (state self.new) }
        ensures one_step { steps self.old ≤ steps self.new + 1 }
        ensures same_told { told self.new ≡ told self.old }
        ensures same_key { key self.new ≡ key self.old };

    /// The endpoint takes the first pending event.
    fn take(&mut self) -> Result<Answer, NoMemory>
        requires sound { IsSound (state self.old) }
        requires step { 0 < steps self.old }
        ensures made { IfOk result (λ answer. MakesOne (state self.old) (state self.new) Call.Take answer) }
        ensures refused { OnErr result (MakesNone (state self.old) (state self.new)) }
        ensures sound { IsSound (state self.new) }
        ensures one_step { steps self.old ≤ steps self.new + 1 }
        ensures same_told { told self.new ≡ told self.old }
        ensures same_key { key self.new ≡ key self.old };

    /// Takes the first pending event, or nothing where none is pending at that step.
    fn take_ready(&mut self) -> Result<Option<Answer>, NoMemory>
        requires sound { IsSound (state self.old) }
        requires step { 0 < steps self.old }
        ensures taken { IfOk result (λ found. MatchOption found
            (FindsNone (state self.old) (state self.new))
            (λ answer. TakesReady (state self.old) (state self.new) answer)) }
        ensures refused { OnErr result (MakesNone (state self.old) (state self.new)) }
        ensures sound { IsSound (state self.new) }
        ensures one_step { steps self.old ≤ steps self.new + 1 }
        ensures same_told { told self.new ≡ told self.old }
        ensures same_key { key self.new ≡ key self.old };

    /// A copy of the JSON text that an entry carries, where there is such an entry and it carries one.
    fn copy_of(&mut self, e: EntryNo) -> Result<Option<JsonText>, NoMemory>
        requires sound { IsSound (state self.old) }
        requires step { 0 < steps self.old }
        ensures copied { IfOk result (λ copy. copy ≡ text_of (past_of (state self.new)) e) }
        ensures no_entry { MakesNone (state self.old) (state self.new) }
        ensures sound { IsSound (state self.new) }
        ensures one_step { steps self.old ≤ steps self.new + 1 }
        ensures same_told { told self.new ≡ told self.old }
        ensures same_key { key self.new ≡ key self.old };
}
