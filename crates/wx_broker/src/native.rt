//! The calls of the broker that start native hosts.
ghost use Rattle.std.specs.Prelude.{◌≡◌, ◌+◌, ◌<◌, ◌≤◌, is_some, IsTrue, option_to_list, reverse, Some};
ghost use Rattle.std.specs.Prelude.{OnErr, IfOk, IfErr};
ghost use Rattle.wx_machine.specs.Contexts.{context_of, contexts};
ghost use Rattle.wx_machine.specs.Answers.{answer_of};
ghost use Rattle.wx_native_hosts.specs.Hosts.{started};
ghost use Rattle.wx_broker.specs.Steps.{Appends, KeepsNumbers, Stays};
ghost use Rattle.wx_broker.specs.Tables.{is_channel, is_request};
ghost use Rattle.wx_broker.specs.Views.{view_for};
ghost use Rattle.wx_broker.specs.Told.{start_for};

use crate::Broker;
use crate::answers::{is_channel, is_request, where_short};
use wx_id::{ChannelNo, ContextNo, EntryNo, NoMemory, RequestNo, Utf8Text};
use wx_machine::{Answer, Call, Entry, JsonText, Who, Work};
use wx_native_hosts::{Host, Start};

impl Broker {
    /// What the host of that name is started for, where context c may start it.
    fn start_for(&self, c: ContextNo, name: &Utf8Text, work: Work) -> Option<Start>
        ensures { result
            ≡ start_for work (view_for self.now.world (context_of (reverse self.now.entries) c) name.now) }
    {
        match self.view_for(c, name) {
            Some(view) => Some(Start {
                work,
                manifest: view.manifest,
                caller: view.caller,
            }),
            None => None,
        }
    }

    /// The host of that name, which context c may start, with its first text if it begins with one.
    fn new_host(
        &self,
        c: ContextNo,
        name: &Utf8Text,
        work: Work,
        text: Option<EntryNo>,
    ) -> Result<Host, NoMemory>
        requires { IsTrue (is_some (view_for self.now.world (context_of (reverse self.now.entries) c) name.now)) }
        ensures start { IfOk result (λ host. start_for work
            (view_for self.now.world (context_of (reverse self.now.entries) c) name.now) ≡ Some host.start) }
        ensures new { IfOk result (λ host. host ≡ started host.start (option_to_list text)) }
    {
        match self.start_for(c, name, work) {
            Some(start) => Host::new(self.alloc, start, text),
            None => unreachable!(),
        }
    }

    /// The answer to a native connect.
    fn connect_native_answer(&self, c: ContextNo, name: &Utf8Text) -> Answer
        ensures { result
            ≡ answer_of self.now.world self.now.entries (Who.Context c) (Call.ConnectNative name.now) }
    {
        let opened = Answer::Channel(ChannelNo(self.tables.channels()));
        self.to_host(c, name, opened)
    }

    /// Context c starts the native host of that name, on a channel (`runtime.connectNative`). The name comes back
    /// where memory was refused.
    pub fn connect_native(&mut self, c: ContextNo, name: Utf8Text) -> Result<Answer, Utf8Text>
        requires { c.0 < contexts (reverse self.old.entries) }
        ensures ok { IfOk result (λ a. Appends self.old self.new (Who.Context c) (Call.ConnectNative name) a) }
        ensures err { OnErr result (Stays self.old self.new) }
        ensures returned { IfErr result (λ back. back ≡ name) }
        ensures room { 0 < self.old.spare
            → OnErr result (IsTrue (is_channel
            (answer_of self.old.world self.old.entries (Who.Context c) (Call.ConnectNative name)))) }
        ensures spare { self.old.spare ≤ self.new.spare + 1 }
        ensures numbers { KeepsNumbers self.old.entries self.new.entries }
    {
        if self.journal.reserve(1).is_err() {
            return Err(name);
        }
        let answer = self.connect_native_answer(c, &name);
        if !is_channel(answer) {
            self.append(Who::Context(c), Call::ConnectNative(name), answer);
            return Ok(answer);
        }
        let work = Work::Channel(ChannelNo(self.tables.channels()));
        let Ok(host) = self.new_host(c, &name, work, None) else {
            return Err(name);
        };
        if self.hosts.reserve().is_err() {
            return Err(name);
        }
        if self.tables.connect_native(c).is_err() {
            return Err(name);
        }
        self.hosts.start(host);
        self.journal.push_reserved(Entry {
            who: Who::Context(c),
            call: Call::ConnectNative(name),
            answer,
        });
        Ok(answer)
    }

    /// The answer to a native send.
    fn send_native_answer(&self, c: ContextNo, name: &Utf8Text, text: &JsonText) -> Answer
        ensures { result
            ≡ answer_of self.now.world self.now.entries (Who.Context c) (Call.SendNative name.now text.now) }
    {
        let asked = where_short(text, Answer::Request(RequestNo(self.tables.requests())));
        self.to_host(c, name, asked)
    }

    /// Context c starts the native host of that name, for one message and its reply (`runtime.sendNativeMessage`). The
    /// name and the message come back where memory was refused.
    pub fn send_native(
        &mut self,
        c: ContextNo,
        name: Utf8Text,
        text: JsonText,
    ) -> Result<Answer, (Utf8Text, JsonText)>
        requires { c.0 < contexts (reverse self.old.entries) }
        ensures ok { IfOk result (λ a. Appends self.old self.new (Who.Context c) (Call.SendNative name text) a) }
        ensures err { OnErr result (Stays self.old self.new) }
        ensures returned { IfErr result (λ back. (back.0 ≡ name) × (back.1 ≡ text)) }
        ensures room { 0 < self.old.spare
            → OnErr result (IsTrue (is_request
            (answer_of self.old.world self.old.entries (Who.Context c) (Call.SendNative name text)))) }
        ensures spare { self.old.spare ≤ self.new.spare + 1 }
        ensures numbers { KeepsNumbers self.old.entries self.new.entries }
    {
        if self.journal.reserve(1).is_err() {
            return Err((name, text));
        }
        let answer = self.send_native_answer(c, &name, &text);
        if !is_request(answer) {
            self.append(Who::Context(c), Call::SendNative(name, text), answer);
            return Ok(answer);
        }
        let n = EntryNo(self.journal.len());
        let work = Work::Request(RequestNo(self.tables.requests()));
        let Ok(host) = self.new_host(c, &name, work, Some(n)) else {
            return Err((name, text));
        };
        if self.hosts.reserve().is_err() {
            return Err((name, text));
        }
        if self.tables.ask_native(c).is_err() {
            return Err((name, text));
        }
        self.hosts.start(host);
        self.journal.push_reserved(Entry {
            who: Who::Context(c),
            call: Call::SendNative(name, text),
            answer,
        });
        Ok(answer)
    }
}
