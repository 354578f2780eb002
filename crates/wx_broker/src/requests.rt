//! The calls of the broker on requests.
ghost use Rattle.std.specs.Prelude.{◌≡◌, ◌+◌, ◌<◌, ◌≤◌, IsOk, IsTrue, reverse, OnErr, IfOk, IfErr};
ghost use Rattle.wx_machine.specs.Contexts.{contexts};
ghost use Rattle.wx_machine.specs.Answers.{answer_of};
ghost use Rattle.wx_broker.specs.Steps.{Appends, KeepsNumbers, Stays};
ghost use Rattle.wx_broker.specs.Tables.{is_request};

use crate::Broker;
use crate::answers::{is_done, is_first, is_request, where_short};
use wx_context::Target;
use wx_id::{ContextNo, EntryNo, NoMemory, RequestNo};
use wx_machine::{Answer, Call, Entry, JsonText, Sort, Who};

impl Broker {
    /// The answer to a send.
    fn send_answer(&self, c: ContextNo, target: &Target, text: &JsonText) -> Answer
        ensures { result
            ≡ answer_of self.now.world self.now.entries (Who.Context c) (Call.Send target.now text.now) }
    {
        let asked = where_short(text, Answer::Request(RequestNo(self.tables.requests())));
        self.to_target(c, target, Sort::Message, asked)
    }

    /// Context c sends a message to a target, and asks for one reply (`runtime.sendMessage`). The message comes
    /// back where memory was refused.
    pub fn send(&mut self, c: ContextNo, target: Target, text: JsonText) -> Result<Answer, JsonText>
        requires { c.0 < contexts (reverse self.old.entries) }
        ensures ok { IfOk result (λ a. Appends self.old self.new (Who.Context c) (Call.Send target text) a) }
        ensures err { OnErr result (Stays self.old self.new) }
        ensures returned { IfErr result (λ back. back ≡ text) }
        ensures room { 0 < self.old.spare
            → OnErr result (IsTrue (is_request
            (answer_of self.old.world self.old.entries (Who.Context c) (Call.Send target text)))) }
        ensures spare { self.old.spare ≤ self.new.spare + 1 }
        ensures numbers { KeepsNumbers self.old.entries self.new.entries }
    {
        if self.journal.reserve(1).is_err() {
            return Err(text);
        }
        let answer = self.send_answer(c, &target, &text);
        if !is_request(answer) {
            self.append(Who::Context(c), Call::Send(target, text), answer);
            return Ok(answer);
        }
        let Ok(found) = self.receivers(c, &target, Sort::Message) else {
            return Err(text);
        };
        let n = EntryNo(self.journal.len());
        if self.tables.ask(c, found, n).is_err() {
            return Err(text);
        }
        self.journal.push_reserved(Entry {
            who: Who::Context(c),
            call: Call::Send(target, text),
            answer,
        });
        Ok(answer)
    }

    /// The answer to a reply.
    fn reply_answer(&self, c: ContextNo, r: RequestNo, text: &JsonText) -> Answer
        ensures { result ≡ answer_of self.now.world self.now.entries (Who.Context c) (Call.Reply r text.now) }
    {
        self.on_request(c, r, where_short(text, Answer::First))
    }

    /// Context c replies to request r. The message comes back where memory was refused.
    pub fn reply(&mut self, c: ContextNo, r: RequestNo, text: JsonText) -> Result<Answer, JsonText>
        requires { c.0 < contexts (reverse self.old.entries) }
        ensures ok { IfOk result (λ a. Appends self.old self.new (Who.Context c) (Call.Reply r text) a) }
        ensures err { OnErr result (Stays self.old self.new) }
        ensures returned { IfErr result (λ back. back ≡ text) }
        ensures room { 0 < self.old.spare → IsOk result }
        ensures spare { self.old.spare ≤ self.new.spare + 1 }
        ensures numbers { KeepsNumbers self.old.entries self.new.entries }
    {
        if self.journal.reserve(1).is_err() {
            return Err(text);
        }
        let answer = self.reply_answer(c, r, &text);
        if !is_first(answer) {
            self.append(Who::Context(c), Call::Reply(r, text), answer);
            return Ok(answer);
        }
        let n = EntryNo(self.journal.len());
        self.tables.reply(r, n);
        self.journal.push_reserved(Entry {
            who: Who::Context(c),
            call: Call::Reply(r, text),
            answer,
        });
        Ok(answer)
    }

    /// The answer to a decline.
    fn decline_answer(&self, c: ContextNo, r: RequestNo) -> Answer
        ensures { result ≡ answer_of self.now.world self.now.entries (Who.Context c) (Call.Decline r) }
    {
        self.on_request(c, r, Answer::Done)
    }

    /// Context c says that it will not reply to request r.
    pub fn decline(&mut self, c: ContextNo, r: RequestNo) -> Result<Answer, NoMemory>
        requires { c.0 < contexts (reverse self.old.entries) }
        ensures ok { IfOk result (λ a. Appends self.old self.new (Who.Context c) (Call.Decline r) a) }
        ensures err { OnErr result (Stays self.old self.new) }
        ensures room { 0 < self.old.spare → IsOk result }
        ensures spare { self.old.spare ≤ self.new.spare + 1 }
        ensures numbers { KeepsNumbers self.old.entries self.new.entries }
    {
        self.journal.reserve(1)?;
        let answer = self.decline_answer(c, r);
        if !is_done(answer) {
            self.append(Who::Context(c), Call::Decline(r), answer);
            return Ok(answer);
        }
        let n = EntryNo(self.journal.len());
        self.tables.decline(r, c, n);
        self.journal.push_reserved(Entry {
            who: Who::Context(c),
            call: Call::Decline(r),
            answer,
        });
        Ok(answer)
    }
}
