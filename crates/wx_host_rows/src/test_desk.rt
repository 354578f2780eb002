//! A desk of tests, for one host and one text.
ghost use Rattle.std.specs.Prelude.{◌≡◌, true};
ghost use Rattle.wx_host_rows.specs.TestDesks.{one};

use wx_host_launch::HostDesk;
use wx_id::{EntryNo, NoMemory};
use wx_machine::{Answer, JsonText, Reason};

/// What stands in the journal after the start of the host, until it ends.
#[derive(Clone, Copy, Debug, PartialEq, Eq)]
pub enum Stage {
    /// Nothing.
    Idle,
    /// A text was posted for the host.
    Posted,
    /// The host took it.
    Taken,
    /// The host said a text.
    Said,
    /// The page closed the channel.
    Closed,
    /// The host was told so.
    Told,
    /// The host said a text after that.
    SaidClosed,
}

/// Whether it is the text that the host of the tests may say.
fn is_one(text: &JsonText) -> bool
    ensures { result ≡ true → text.now ≡ one }
{
    text.bytes() == b"1".as_slice()
}

/// A desk of tests, for one host and one text. Where the journal would be none of those that it knows, memory is
/// refused. It answers at once, since it keeps no entries.
#[derive(Drop)]
pub struct TestDesk {
    pub text: JsonText,
    pub stage: Stage,
    pub ended: Option<Reason>,
    /// What it last answered to whether to stop.
    pub told: Option<bool>,
    ghost posted: { text ≡ one },
}

impl HostDesk for TestDesk {
    ghost use Rattle.std.specs.Prelude.{[], false, is_some, ◌≡◌};
    ghost use Rattle.wx_machine.specs.Texts.{has_ended};
    ghost use Rattle.wx_host_rows.specs.TestDesks.{desk_at, lent_at};

    ghost state = { λ desk. desk_at desk.stage desk.ended };

    ghost lent = { λ desk. lent_at desk.stage };

    ghost steps = { λ desk. 3 };

    ghost told = { λ desk. desk.told };

    ghost key = { λ desk. [] };

    ghost going = { λ h past. has_ended past h ≡ false };

    fn left(&self) -> u64 {
        3
    }

    #[tactic(auto, using(crate::proofs::DeskLemmas::desk_sound, wx_desk::proofs::HistoryLemmas::makes_none, crate::proofs::DeskLemmas::goes_on))]
    fn stopped(&mut self) -> bool {
        let stop = self.ended.is_some();
        self.told = Some(stop);
        stop
    }

    #[tactic(auto, using(crate::proofs::DeskLemmas::takes_text, crate::proofs::DeskLemmas::takes_end, crate::proofs::DeskLemmas::finds_nothing, crate::proofs::DeskLemmas::desk_sound, wx_desk::proofs::HistoryLemmas::makes_none))]
    fn host_next(&mut self) -> Result<Option<Answer>, NoMemory> {
        if self.ended.is_some() {
            return Err(NoMemory);
        }
        match self.stage {
            Stage::Posted => {
                self.stage = Stage::Taken;
                Ok(Some(Answer::Text(EntryNo(2))))
            }
            Stage::Closed => {
                self.stage = Stage::Told;
                Ok(Some(Answer::End))
            }
            Stage::Idle | Stage::Said | Stage::Told | Stage::SaidClosed => Ok(None),
            Stage::Taken => Err(NoMemory),
        }
    }

    fn text_of(&self, e: EntryNo) -> Option<&JsonText> {
        match self.stage {
            Stage::Taken if e.0 == 2 => Some(&self.text),
            _ => None,
        }
    }

    #[tactic(auto, using(crate::proofs::DeskLemmas::desk_sound, wx_desk::proofs::HistoryLemmas::makes_none))]
    fn said_closed(&mut self) -> bool {
        matches!(self.stage, Stage::SaidClosed)
    }

    #[tactic(auto, using(crate::proofs::DeskLemmas::desk_sound, wx_desk::proofs::HistoryLemmas::makes_none, crate::proofs::DeskLemmas::says_idle, crate::proofs::DeskLemmas::says_told))]
    fn host_said(&mut self, text: JsonText) -> Result<Answer, JsonText> {
        if self.ended.is_some() || !is_one(&text) {
            return Err(text);
        }
        match self.stage {
            Stage::Idle => {
                self.stage = Stage::Said;
                Ok(Answer::Passed)
            }
            Stage::Told => {
                self.stage = Stage::SaidClosed;
                Ok(Answer::PortClosed)
            }
            _ => Err(text),
        }
    }

    #[tactic(auto, using(crate::proofs::DeskLemmas::desk_sound, wx_desk::proofs::HistoryLemmas::makes_none, crate::proofs::DeskLemmas::ends_open))]
    fn host_ended(&mut self, reason: Reason) -> Result<Answer, NoMemory> {
        if self.ended.is_some() {
            return Err(NoMemory);
        }
        self.ended = Some(reason);
        Ok(Answer::Done)
    }

    #[tactic(auto, using(crate::proofs::DeskLemmas::desk_sound, wx_desk::proofs::HistoryLemmas::makes_none, crate::proofs::DeskLemmas::ends_quiet))]
    fn host_ends(&mut self, reason: Reason) -> Result<Option<Answer>, NoMemory> {
        if self.ended.is_some() {
            return Err(NoMemory);
        }
        match self.stage {
            Stage::Posted => Ok(None),
            _ => {
                self.ended = Some(reason);
                Ok(Some(Answer::Done))
            }
        }
    }
}
