//! A desk of tests for a page that does nothing but take.
use wx_context::{Listens, Target};
use wx_endpoint::Desk;
use wx_id::{ChannelNo, EntryNo, NoMemory, RequestNo, Utf8Text};
use wx_machine::{Answer, JsonText};

/// A desk of tests, for one page that does nothing but take. Nothing is ever pending there; any other call is
/// refused memory. It answers at once, since it keeps no more than the count of takes.
#[derive(Drop)]
pub(crate) struct QuietDesk {
    pub(crate) takes: u64,
}

impl Desk for QuietDesk {
    ghost use Rattle.std.specs.Prelude.{Some, false, []};
    ghost use Rattle.wx_script_rows.specs.QuietDesks.{quiet_desk};

    ghost state = { λ desk. quiet_desk desk.takes };

    ghost steps = { λ desk. 3 };

    ghost told = { λ desk. Some false };

    ghost key = { λ desk. [] };

    fn left(&self) -> u64 {
        3
    }

    fn stopped(&mut self) -> bool {
        false
    }

    fn listen(&mut self, _l: Listens) -> Result<Answer, NoMemory> {
        Err(NoMemory)
    }

    fn leave(&mut self) -> Result<Answer, NoMemory> {
        Err(NoMemory)
    }

    fn connect(&mut self, _target: Target, name: Utf8Text) -> Result<Answer, Utf8Text> {
        Err(name)
    }

    fn post(&mut self, _k: ChannelNo, text: JsonText) -> Result<Answer, JsonText> {
        Err(text)
    }

    fn disconnect(&mut self, _k: ChannelNo) -> Result<Answer, NoMemory> {
        Err(NoMemory)
    }

    fn send(&mut self, _target: Target, text: JsonText) -> Result<Answer, JsonText> {
        Err(text)
    }

    fn reply(&mut self, _r: RequestNo, text: JsonText) -> Result<Answer, JsonText> {
        Err(text)
    }

    fn decline(&mut self, _r: RequestNo) -> Result<Answer, NoMemory> {
        Err(NoMemory)
    }

    fn connect_native(&mut self, name: Utf8Text) -> Result<Answer, Utf8Text> {
        Err(name)
    }

    fn send_native(
        &mut self,
        name: Utf8Text,
        text: JsonText,
    ) -> Result<Answer, (Utf8Text, JsonText)> {
        Err((name, text))
    }

    fn take(&mut self) -> Result<Answer, NoMemory> {
        if self.takes == u64::MAX {
            return Err(NoMemory);
        }
        self.takes += 1;
        Ok(Answer::Empty)
    }

    fn take_ready(&mut self) -> Result<Option<Answer>, NoMemory> {
        Ok(None)
    }

    fn copy_of(&mut self, _e: EntryNo) -> Result<Option<JsonText>, NoMemory> {
        Err(NoMemory)
    }
}
