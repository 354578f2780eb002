//! What answers a host's messages.
ghost use Rattle.std.specs.Prelude.{Some};

use wx_id::NoMemory;
use wx_json::JsonText;

/// What replies to each message with one text or none. The reply depends on the message alone.
pub trait Handler: Drop {
    ghost use Rattle.std.specs.Prelude.{◌≡◌, IfOk};
    ghost use Rattle.wx_host_kit.specs.Kit.{Reply};

    /// The reply to each text.
    ghost reply: { Self → Reply };

    /// The reply to this text.
    fn answer(&mut self, text: &JsonText) -> Result<Option<JsonText>, NoMemory>
        ensures exact { IfOk result (λ found. found ≡ reply self.old text.now) }
        ensures same { reply self.new ≡ reply self.old };
}

/// The handler that replies to each text with the text itself.
#[derive(Drop)]
pub struct Echo;

impl Handler for Echo {
    ghost reply = { λ echo text. Some text };

    fn answer(&mut self, text: &JsonText) -> Result<Option<JsonText>, NoMemory> {
        Ok(Some(text.try_clone()?))
    }
}
