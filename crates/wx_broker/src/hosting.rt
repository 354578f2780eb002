//! The calls of native hosts, and what the broker tells of them.
ghost use Rattle.std.specs.Prelude.{◌≡◌, ◌↔◌, ◌+◌, ◌<◌, ◌≤◌, false, true, length, reverse};
ghost use Rattle.std.specs.Prelude.{IfErr, IfOk, IsNone, IsOk, OnErr, Some};
ghost use Rattle.wx_machine.specs.Hosts.{hosts, work_of};
ghost use Rattle.wx_machine.specs.Texts.{has_ended, is_over, knows_end, next_text, said_closed};
ghost use Rattle.wx_machine.specs.Answers.{answer_of, is_host_ready};
ghost use Rattle.wx_broker.specs.Steps.{Appends, KeepsNumbers, Stays};
ghost use Rattle.wx_broker.specs.Tables.{text_told};
ghost use Rattle.wx_broker.specs.Views.{host_view};

use crate::answers::{is_already, is_empty, is_ignored, is_news, is_text, said_at, text_or_end};
use crate::{Broker, HostView};
use wx_id::{ChannelNo, EntryNo, HostNo, NoMemory, RequestNo};
use wx_machine::{Answer, Call, Entry, JsonText, LONGEST_SAID, Reason, Who, Work};

impl Broker {
    /// The answer to a host's take.
    fn host_take_answer(&self, h: HostNo) -> Answer
        ensures { result ≡ answer_of self.now.world self.now.entries (Who.Host h) Call.HostTake }
    {
        let over = self.has_ended(h) || self.is_work_over(h);
        text_or_end(self.next_text(h), over)
    }

    /// Host h takes the next text for it.
    pub fn host_take(&mut self, h: HostNo) -> Result<Answer, NoMemory>
        requires { h.0 < length (hosts (reverse self.old.entries)) }
        ensures ok { IfOk result (λ a. Appends self.old self.new (Who.Host h) Call.HostTake a) }
        ensures err { OnErr result (Stays self.old self.new) }
        ensures room { 0 < self.old.spare → IsOk result }
        ensures spare { self.old.spare ≤ self.new.spare + 1 }
        ensures numbers { KeepsNumbers self.old.entries self.new.entries }
    {
        self.journal.reserve(1)?;
        let answer = self.host_take_answer(h);
        if is_empty(answer) {
            self.append(Who::Host(h), Call::HostTake, answer);
            return Ok(answer);
        }
        let e = Entry {
            who: Who::Host(h),
            call: Call::HostTake,
            answer,
        };
        if is_text(answer) {
            self.hosts.take(h);
            self.journal.push_reserved(e);
            return Ok(answer);
        }
        self.hosts.learn_end(h);
        self.journal.push_reserved(e);
        Ok(answer)
    }

    /// The answer to what a host says.
    fn host_said_answer(&self, h: HostNo, text: &JsonText) -> Answer
        ensures { result ≡ answer_of self.now.world self.now.entries (Who.Host h) (Call.HostSaid text.now) }
    {
        let _ = text;
        said_at(self.is_work_over(h), self.work(h))
    }

    /// A message of host h whose channel is closed.
    fn refuse(&mut self, h: HostNo, text: JsonText) -> Answer
        requires host { h.0 < length (hosts (reverse self.old.entries)) }
        requires short { length text ≤ LONGEST_SAID }
        requires refused { answer_of self.old.world self.old.entries (Who.Host h) (Call.HostSaid text)
            ≡ Answer.PortClosed }
        requires room { 0 < self.old.spare }
        ensures appends { Appends self.old self.new (Who.Host h) (Call.HostSaid text) result }
        ensures spare { self.old.spare ≤ self.new.spare + 1 }
        ensures numbers { KeepsNumbers self.old.entries self.new.entries }
    {
        self.hosts.refuse(h);
        self.journal.push_reserved(Entry {
            who: Who::Host(h),
            call: Call::HostSaid(text),
            answer: Answer::PortClosed,
        });
        Answer::PortClosed
    }

    /// A message of host h goes to the opener of its open channel. It comes back where memory was refused.
    fn said_on_channel(
        &mut self,
        h: HostNo,
        k: ChannelNo,
        text: JsonText,
    ) -> Result<Answer, JsonText>
        requires host { h.0 < length (hosts (reverse self.old.entries)) }
        requires short { length text ≤ LONGEST_SAID }
        requires works { work_of (reverse self.old.entries) h ≡ Some (Work.Channel k) }
        requires passed { answer_of self.old.world self.old.entries (Who.Host h) (Call.HostSaid text)
            ≡ Answer.Passed }
        requires room { 0 < self.old.spare }
        ensures ok { IfOk result (λ a. Appends self.old self.new (Who.Host h) (Call.HostSaid text) a) }
        ensures err { OnErr result (Stays self.old self.new) }
        ensures returned { IfErr result (λ back. back ≡ text) }
        ensures spare { self.old.spare ≤ self.new.spare + 1 }
        ensures numbers { KeepsNumbers self.old.entries self.new.entries }
    {
        let n = EntryNo(self.journal.len());
        if self.tables.hear(k, n).is_err() {
            return Err(text);
        }
        self.journal.push_reserved(Entry {
            who: Who::Host(h),
            call: Call::HostSaid(text),
            answer: Answer::Passed,
        });
        Ok(Answer::Passed)
    }

    /// A message of host h is the reply to its request, which is not settled.
    fn said_on_request(&mut self, h: HostNo, r: RequestNo, text: JsonText) -> Answer
        requires host { h.0 < length (hosts (reverse self.old.entries)) }
        requires short { length text ≤ LONGEST_SAID }
        requires works { work_of (reverse self.old.entries) h ≡ Some (Work.Request r) }
        requires passed { answer_of self.old.world self.old.entries (Who.Host h) (Call.HostSaid text)
            ≡ Answer.Passed }
        requires room { 0 < self.old.spare }
        ensures appends { Appends self.old self.new (Who.Host h) (Call.HostSaid text) result }
        ensures spare { self.old.spare ≤ self.new.spare + 1 }
        ensures numbers { KeepsNumbers self.old.entries self.new.entries }
    {
        let n = EntryNo(self.journal.len());
        self.tables.reply(r, n);
        self.journal.push_reserved(Entry {
            who: Who::Host(h),
            call: Call::HostSaid(text),
            answer: Answer::Passed,
        });
        Answer::Passed
    }

    /// Host h wrote a message. The message comes back where memory was refused.
    pub fn host_said(&mut self, h: HostNo, text: JsonText) -> Result<Answer, JsonText>
        requires host { h.0 < length (hosts (reverse self.old.entries)) }
        requires short { length text ≤ LONGEST_SAID }
        ensures ok { IfOk result (λ a. Appends self.old self.new (Who.Host h) (Call.HostSaid text) a) }
        ensures err { OnErr result (Stays self.old self.new) }
        ensures returned { IfErr result (λ back. back ≡ text) }
        ensures spare { self.old.spare ≤ self.new.spare + 1 }
        ensures numbers { KeepsNumbers self.old.entries self.new.entries }
    {
        if self.journal.reserve(1).is_err() {
            return Err(text);
        }
        let answer = self.host_said_answer(h, &text);
        if is_ignored(answer) {
            self.append(Who::Host(h), Call::HostSaid(text), answer);
            return Ok(answer);
        }
        match (answer, self.work(h)) {
            (Answer::PortClosed, _) => Ok(self.refuse(h, text)),
            (_, Some(Work::Channel(k))) => self.said_on_channel(h, k, text),
            (_, Some(Work::Request(r))) => Ok(self.said_on_request(h, r, text)),
            (_, None) => unreachable!(),
        }
    }

    /// The answer to a host's end.
    fn host_ended_answer(&self, h: HostNo, reason: Reason) -> Answer
        ensures { result ≡ answer_of self.now.world self.now.entries (Who.Host h) (Call.HostEnded reason) }
    {
        let _ = reason;
        if self.has_ended(h) {
            Answer::Already
        } else {
            Answer::Done
        }
    }

    /// Host h ends, when what it worked for is over.
    fn end_idle(&mut self, h: HostNo, reason: Reason) -> Answer
        requires host { h.0 < length (hosts (reverse self.old.entries)) }
        requires over { is_over (reverse self.old.entries) (work_of (reverse self.old.entries) h) ≡ true }
        requires runs { has_ended (reverse self.old.entries) h ≡ false }
        requires room { 0 < self.old.spare }
        ensures appends { Appends self.old self.new (Who.Host h) (Call.HostEnded reason) result }
        ensures spare { self.old.spare ≤ self.new.spare + 1 }
        ensures numbers { KeepsNumbers self.old.entries self.new.entries }
    {
        self.hosts.end(h);
        self.journal.push_reserved(Entry {
            who: Who::Host(h),
            call: Call::HostEnded(reason),
            answer: Answer::Done,
        });
        Answer::Done
    }

    /// Host h ends, which closes its open channel.
    fn end_on_channel(&mut self, h: HostNo, k: ChannelNo, reason: Reason) -> Answer
        requires host { h.0 < length (hosts (reverse self.old.entries)) }
        requires works { work_of (reverse self.old.entries) h ≡ Some (Work.Channel k) }
        requires goes_on { is_over (reverse self.old.entries) (Some (Work.Channel k)) ≡ false }
        requires runs { has_ended (reverse self.old.entries) h ≡ false }
        requires room { 0 < self.old.spare }
        ensures appends { Appends self.old self.new (Who.Host h) (Call.HostEnded reason) result }
        ensures spare { self.old.spare ≤ self.new.spare + 1 }
        ensures numbers { KeepsNumbers self.old.entries self.new.entries }
    {
        let n = EntryNo(self.journal.len());
        self.tables.end_native(k, n);
        self.hosts.end(h);
        self.journal.push_reserved(Entry {
            who: Who::Host(h),
            call: Call::HostEnded(reason),
            answer: Answer::Done,
        });
        Answer::Done
    }

    /// Host h ends, which closes its request without a reply.
    fn end_on_request(&mut self, h: HostNo, r: RequestNo, reason: Reason) -> Answer
        requires host { h.0 < length (hosts (reverse self.old.entries)) }
        requires works { work_of (reverse self.old.entries) h ≡ Some (Work.Request r) }
        requires goes_on { is_over (reverse self.old.entries) (Some (Work.Request r)) ≡ false }
        requires runs { has_ended (reverse self.old.entries) h ≡ false }
        requires room { 0 < self.old.spare }
        ensures appends { Appends self.old self.new (Who.Host h) (Call.HostEnded reason) result }
        ensures spare { self.old.spare ≤ self.new.spare + 1 }
        ensures numbers { KeepsNumbers self.old.entries self.new.entries }
    {
        let n = EntryNo(self.journal.len());
        self.tables.fail_native(r, n);
        self.hosts.end(h);
        self.journal.push_reserved(Entry {
            who: Who::Host(h),
            call: Call::HostEnded(reason),
            answer: Answer::Done,
        });
        Answer::Done
    }

    /// Host h ended.
    pub fn host_ended(&mut self, h: HostNo, reason: Reason) -> Result<Answer, NoMemory>
        requires { h.0 < length (hosts (reverse self.old.entries)) }
        ensures ok { IfOk result (λ a. Appends self.old self.new (Who.Host h) (Call.HostEnded reason) a) }
        ensures err { OnErr result (Stays self.old self.new) }
        ensures room { 0 < self.old.spare → IsOk result }
        ensures spare { self.old.spare ≤ self.new.spare + 1 }
        ensures numbers { KeepsNumbers self.old.entries self.new.entries }
    {
        self.journal.reserve(1)?;
        let answer = self.host_ended_answer(h, reason);
        if is_already(answer) {
            self.append(Who::Host(h), Call::HostEnded(reason), answer);
            return Ok(answer);
        }
        if self.is_work_over(h) {
            return Ok(self.end_idle(h, reason));
        }
        match self.work(h) {
            Some(Work::Channel(k)) => Ok(self.end_on_channel(h, k, reason)),
            Some(Work::Request(r)) => Ok(self.end_on_request(h, r, reason)),
            None => unreachable!(),
        }
    }

    /// Whether host h was told that no text comes any more.
    fn knows_end(&self, h: HostNo) -> bool
        ensures { result ≡ knows_end (reverse self.now.entries) h }
    {
        self.hosts.knows_end(h)
    }

    /// Whether a take of host h, which did not end, would now be answered with a text, or for the first time that none
    /// comes any more.
    pub fn host_ready(&self, h: HostNo) -> bool
        ensures { result ≡ is_host_ready (reverse self.now.entries) h }
    {
        !self.has_ended(h) && is_news(self.host_take_answer(h), self.knows_end(h))
    }

    /// How many native hosts were started.
    pub fn hosts(&self) -> u64
        ensures { result ≡ length (hosts (reverse self.now.entries)) }
    {
        self.hosts.count()
    }

    /// Host h: the place of its manifest among the world's hosts, and the extension that started it.
    pub fn host(&self, h: HostNo) -> Option<HostView>
        ensures value { result ≡ host_view self.now.world (reverse self.now.entries) h.0 }
        ensures none { IsNone result ↔ (length (hosts (reverse self.now.entries)) ≤ h.0) }
    {
        match self.hosts.start_of(h) {
            Some(start) => Some(HostView {
                manifest: start.manifest,
                caller: start.caller,
            }),
            None => None,
        }
    }

    /// The entry with the text that a take of host h would now be answered with.
    pub fn next_text(&self, h: HostNo) -> Option<EntryNo>
        ensures value { result ≡ next_text (reverse self.now.entries) h }
        ensures told { result ≡ text_told (answer_of self.now.world self.now.entries (Who.Host h) Call.HostTake) }
    {
        self.hosts.next_text(h)
    }

    /// Whether a message of host h was answered that its channel is closed.
    pub fn said_closed(&self, h: HostNo) -> bool
        ensures { result ≡ said_closed (reverse self.now.entries) h }
    {
        self.hosts.said_closed(h)
    }

    /// Whether host h ended.
    pub fn has_ended(&self, h: HostNo) -> bool
        ensures { result ≡ has_ended (reverse self.now.entries) h }
    {
        self.hosts.has_ended(h)
    }
}
