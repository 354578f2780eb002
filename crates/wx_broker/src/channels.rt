//! The calls of the broker on channels.
ghost use Rattle.std.specs.Prelude.{◌≡◌, ◌+◌, ◌<◌, ◌≤◌, cond, false, length, true, IsOk, IsTrue, reverse};
ghost use Rattle.std.specs.Prelude.{OnErr, IfOk, IfErr};
ghost use Rattle.wx_id.specs.declared.numbers.HostNo.{HostNo};
ghost use Rattle.wx_machine.specs.Contexts.{context_of, contexts, is_live, receivers_of};
ghost use Rattle.wx_machine.specs.Channels.{channels};
ghost use Rattle.wx_machine.specs.Hosts.{is_for_channel, work_of};
ghost use Rattle.wx_machine.specs.Answers.{answer_of, gate_for, where_heard, where_open};
ghost use Rattle.wx_broker.specs.Steps.{Appends, KeepsNumbers, Stays};
ghost use Rattle.wx_broker.specs.Tables.{is_channel};

use crate::Broker;
use crate::answers::{is_channel, is_done, is_posted, where_short};
use wx_context::Target;
use wx_id::{ChannelNo, ContextNo, EntryNo, HostNo, NoMemory, Utf8Text};
use wx_machine::{Answer, Call, Entry, JsonText, Sort, Who};

impl Broker {
    /// The answer to a connect.
    fn connect_answer(&self, c: ContextNo, target: &Target) -> Answer
        ensures { result ≡ cond (is_live (reverse self.now.entries) c)
            (where_open (gate_for self.now.world (context_of (reverse self.now.entries) c) target.now)
            (where_heard (receivers_of (reverse self.now.entries) c target.now Sort.Connection)
            (Answer.Channel (record { 0 = length (channels (reverse self.now.entries)) }))))
            Answer.Gone }
    {
        let opened = Answer::Channel(ChannelNo(self.tables.channels()));
        self.to_target(c, target, Sort::Connection, opened)
    }

    /// Context c opens a channel to a target (`runtime.connect`). The port name comes back where memory was
    /// refused.
    pub fn connect(
        &mut self,
        c: ContextNo,
        target: Target,
        name: Utf8Text,
    ) -> Result<Answer, Utf8Text>
        requires { c.0 < contexts (reverse self.old.entries) }
        ensures ok { IfOk result (λ a. Appends self.old self.new (Who.Context c) (Call.Connect target name) a) }
        ensures err { OnErr result (Stays self.old self.new) }
        ensures returned { IfErr result (λ back. back ≡ name) }
        ensures room { 0 < self.old.spare
            → OnErr result (IsTrue (is_channel
            (answer_of self.old.world self.old.entries (Who.Context c) (Call.Connect target name)))) }
        ensures spare { self.old.spare ≤ self.new.spare + 1 }
        ensures numbers { KeepsNumbers self.old.entries self.new.entries }
    {
        if self.journal.reserve(1).is_err() {
            return Err(name);
        }
        let answer = self.connect_answer(c, &target);
        if !is_channel(answer) {
            self.append(Who::Context(c), Call::Connect(target, name), answer);
            return Ok(answer);
        }
        let Ok(found) = self.receivers(c, &target, Sort::Connection) else {
            return Err(name);
        };
        let n = EntryNo(self.journal.len());
        if self.tables.connect(c, found, n).is_err() {
            return Err(name);
        }
        self.journal.push_reserved(Entry {
            who: Who::Context(c),
            call: Call::Connect(target, name),
            answer,
        });
        Ok(answer)
    }

    /// The answer to a post.
    fn post_answer(&self, c: ContextNo, k: ChannelNo, text: &JsonText) -> Answer
        ensures { result ≡ answer_of self.now.world self.now.entries (Who.Context c) (Call.Post k text.now) }
    {
        if !self.is_live(c) {
            return Answer::Gone;
        }
        self.on_channel(c, k, Answer::PortClosed, where_short(text, Answer::Posted))
    }

    /// A post on a channel to native host h, which is answered `Posted`: the text comes for the host.
    fn post_to_host(
        &mut self,
        h: HostNo,
        c: ContextNo,
        k: ChannelNo,
        text: JsonText,
    ) -> Result<Answer, JsonText>
        requires known { c.0 < contexts (reverse self.old.entries) }
        requires posted { answer_of self.old.world self.old.entries (Who.Context c) (Call.Post k text)
            ≡ Answer.Posted }
        requires works { is_for_channel k.0 (work_of (reverse self.old.entries) h) ≡ true }
        requires room { 0 < self.old.spare }
        ensures ok { IfOk result (λ a. Appends self.old self.new (Who.Context c) (Call.Post k text) a) }
        ensures err { OnErr result (Stays self.old self.new) }
        ensures returned { IfErr result (λ back. back ≡ text) }
        ensures spare { self.old.spare ≤ self.new.spare + 1 }
        ensures numbers { KeepsNumbers self.old.entries self.new.entries }
    {
        let n = EntryNo(self.journal.len());
        if self.hosts.tell(h, n).is_err() {
            return Err(text);
        }
        self.journal.push_reserved(Entry {
            who: Who::Context(c),
            call: Call::Post(k, text),
            answer: Answer::Posted,
        });
        Ok(Answer::Posted)
    }

    /// A post on a channel that no native host works for, which is answered `Posted`: the other side is told.
    fn post_to_ends(
        &mut self,
        c: ContextNo,
        k: ChannelNo,
        text: JsonText,
    ) -> Result<Answer, JsonText>
        requires known { c.0 < contexts (reverse self.old.entries) }
        requires posted { answer_of self.old.world self.old.entries (Who.Context c) (Call.Post k text)
            ≡ Answer.Posted }
        requires alone { (h : HostNo) → is_for_channel k.0 (work_of (reverse self.old.entries) h) ≡ false }
        requires room { 0 < self.old.spare }
        ensures ok { IfOk result (λ a. Appends self.old self.new (Who.Context c) (Call.Post k text) a) }
        ensures err { OnErr result (Stays self.old self.new) }
        ensures returned { IfErr result (λ back. back ≡ text) }
        ensures spare { self.old.spare ≤ self.new.spare + 1 }
        ensures numbers { KeepsNumbers self.old.entries self.new.entries }
    {
        let n = EntryNo(self.journal.len());
        if self.tables.post(k, c, n).is_err() {
            return Err(text);
        }
        self.journal.push_reserved(Entry {
            who: Who::Context(c),
            call: Call::Post(k, text),
            answer: Answer::Posted,
        });
        Ok(Answer::Posted)
    }

    /// Context c posts a message on channel k (`Port.postMessage`). The message comes back where memory was
    /// refused.
    pub fn post(&mut self, c: ContextNo, k: ChannelNo, text: JsonText) -> Result<Answer, JsonText>
        requires { c.0 < contexts (reverse self.old.entries) }
        ensures ok { IfOk result (λ a. Appends self.old self.new (Who.Context c) (Call.Post k text) a) }
        ensures err { OnErr result (Stays self.old self.new) }
        ensures returned { IfErr result (λ back. back ≡ text) }
        ensures spare { self.old.spare ≤ self.new.spare + 1 }
        ensures numbers { KeepsNumbers self.old.entries self.new.entries }
    {
        if self.journal.reserve(1).is_err() {
            return Err(text);
        }
        let answer = self.post_answer(c, k, &text);
        if !is_posted(answer) {
            self.append(Who::Context(c), Call::Post(k, text), answer);
            return Ok(answer);
        }
        // On a channel to a host only its opener is an end, so nobody else is told.
        match self.hosts.of_channel(k) {
            Some(h) => self.post_to_host(h, c, k, text),
            None => self.post_to_ends(c, k, text),
        }
    }

    /// The answer to a disconnect.
    fn disconnect_answer(&self, c: ContextNo, k: ChannelNo) -> Answer
        ensures { result ≡ answer_of self.now.world self.now.entries (Who.Context c) (Call.Disconnect k) }
    {
        if !self.is_live(c) {
            return Answer::Gone;
        }
        self.on_channel(c, k, Answer::NoEffect, Answer::Done)
    }

    /// Context c closes channel k (`Port.disconnect`).
    pub fn disconnect(&mut self, c: ContextNo, k: ChannelNo) -> Result<Answer, NoMemory>
        requires { c.0 < contexts (reverse self.old.entries) }
        ensures ok { IfOk result (λ a. Appends self.old self.new (Who.Context c) (Call.Disconnect k) a) }
        ensures err { OnErr result (Stays self.old self.new) }
        ensures room { 0 < self.old.spare → IsOk result }
        ensures spare { self.old.spare ≤ self.new.spare + 1 }
        ensures numbers { KeepsNumbers self.old.entries self.new.entries }
    {
        self.journal.reserve(1)?;
        let answer = self.disconnect_answer(c, k);
        if !is_done(answer) {
            self.append(Who::Context(c), Call::Disconnect(k), answer);
            return Ok(answer);
        }
        let n = EntryNo(self.journal.len());
        self.tables.disconnect(k, c, n);
        self.journal.push_reserved(Entry {
            who: Who::Context(c),
            call: Call::Disconnect(k),
            answer,
        });
        Ok(answer)
    }
}
