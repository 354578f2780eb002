//! The desk of an endpoint over a broker that nobody else has.
use crate::desk::Desk;
use wx_context::{Listens, Target};
use wx_desk::BrokerDesk;
use wx_id::{ChannelNo, EntryNo, NoMemory, RequestNo, Utf8Text};
use wx_machine::{Answer, JsonText};

impl Desk for BrokerDesk {
    ghost use Rattle.std.specs.Prelude.{Some, false, []};
    ghost use Rattle.wx_machine.specs.declared.entries.Who.TheVariants as Who;
    ghost use Rattle.wx_desk.specs.BrokerDesks.{desk_over};

    ghost state = { λ desk. desk_over Who.Context desk.context desk.broker };

    ghost steps = { λ desk. 3 };

    ghost told = { λ desk. Some false };

    ghost key = { λ desk. [] };

    fn left(&self) -> u64 {
        3
    }

    fn stopped(&mut self) -> bool {
        false
    }

    fn listen(&mut self, l: Listens) -> Result<Answer, NoMemory> {
        self.broker.listen(self.context, l)
    }

    fn leave(&mut self) -> Result<Answer, NoMemory> {
        self.broker.leave(self.context)
    }

    fn connect(&mut self, target: Target, name: Utf8Text) -> Result<Answer, Utf8Text> {
        self.broker.connect(self.context, target, name)
    }

    fn post(&mut self, k: ChannelNo, text: JsonText) -> Result<Answer, JsonText> {
        self.broker.post(self.context, k, text)
    }

    fn disconnect(&mut self, k: ChannelNo) -> Result<Answer, NoMemory> {
        self.broker.disconnect(self.context, k)
    }

    fn send(&mut self, target: Target, text: JsonText) -> Result<Answer, JsonText> {
        self.broker.send(self.context, target, text)
    }

    fn reply(&mut self, r: RequestNo, text: JsonText) -> Result<Answer, JsonText> {
        self.broker.reply(self.context, r, text)
    }

    fn decline(&mut self, r: RequestNo) -> Result<Answer, NoMemory> {
        self.broker.decline(self.context, r)
    }

    fn connect_native(&mut self, name: Utf8Text) -> Result<Answer, Utf8Text> {
        self.broker.connect_native(self.context, name)
    }

    fn send_native(
        &mut self,
        name: Utf8Text,
        text: JsonText,
    ) -> Result<Answer, (Utf8Text, JsonText)> {
        self.broker.send_native(self.context, name, text)
    }

    fn take(&mut self) -> Result<Answer, NoMemory> {
        self.broker.take(self.context)
    }

    fn take_ready(&mut self) -> Result<Option<Answer>, NoMemory> {
        if !self.broker.ready(self.context) {
            return Ok(None);
        }
        Ok(Some(self.broker.take(self.context)?))
    }

    fn copy_of(&mut self, e: EntryNo) -> Result<Option<JsonText>, NoMemory> {
        match self.broker.journal().text_of(e) {
            Some(text) => Ok(Some(text.try_clone()?)),
            None => Ok(None),
        }
    }
}
