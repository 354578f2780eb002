//! The desk of a native host over a broker that nobody else has.
ghost use Rattle.std.specs.Prelude.{◌≡◌};
ghost use Rattle.wx_host_launch.specs.Steps.{lent_by};

use crate::desk::HostDesk;
use wx_desk::BrokerDesk;
use wx_id::{EntryNo, NoMemory};
use wx_machine::{Answer, JsonText, Reason};

/// The entry that an answer names as that of the text.
fn lent_by(answer: Answer) -> Option<EntryNo>
    ensures { result ≡ lent_by answer }
{
    match answer {
        Answer::Text(e) => Some(e),
        _ => None,
    }
}

impl HostDesk for BrokerDesk {
    ghost use Rattle.std.specs.Prelude.{[], false, ◌≡◌};
    ghost use Rattle.wx_machine.specs.Texts.{has_ended};
    ghost use Rattle.wx_machine.specs.declared.entries.Who.TheVariants as Who;
    ghost use Rattle.wx_desk.specs.BrokerDesks.{desk_over};

    ghost state = { λ desk. desk_over Who.Host desk.host desk.broker };

    ghost lent = { λ desk. desk.lent };

    ghost steps = { λ desk. 3 };

    ghost told = { λ desk. desk.told };

    ghost key = { λ desk. [] };

    ghost going = { λ h past. has_ended past h ≡ false };

    fn left(&self) -> u64 {
        3
    }

    fn stopped(&mut self) -> bool {
        let ended = self.broker.has_ended(self.host);
        self.told = Some(ended);
        ended
    }

    fn host_next(&mut self) -> Result<Option<Answer>, NoMemory> {
        if !self.broker.host_ready(self.host) {
            self.lent = None;
            return Ok(None);
        }
        let answer = self.broker.host_take(self.host)?;
        self.lent = lent_by(answer);
        Ok(Some(answer))
    }

    fn text_of(&self, e: EntryNo) -> Option<&JsonText> {
        self.broker.journal().text_of(e)
    }

    fn said_closed(&mut self) -> bool {
        self.broker.said_closed(self.host)
    }

    fn host_said(&mut self, text: JsonText) -> Result<Answer, JsonText> {
        self.broker.host_said(self.host, text)
    }

    fn host_ended(&mut self, reason: Reason) -> Result<Answer, NoMemory> {
        self.broker.host_ended(self.host, reason)
    }

    fn host_ends(&mut self, reason: Reason) -> Result<Option<Answer>, NoMemory> {
        if self.broker.next_text(self.host).is_some() {
            return Ok(None);
        }
        Ok(Some(self.broker.host_ended(self.host, reason)?))
    }
}
