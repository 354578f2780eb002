//! What the tables say, in the machine's words.
ghost use Rattle.std.specs.Prelude.{◌≡◌, cond, length, option_copied, reverse, IfOk};
ghost use Rattle.wx_machine.specs.Answers.{at_end, gate_for, is_late, native_gate_for, on_request, where_heard};
ghost use Rattle.wx_machine.specs.Answers.{where_native, where_open};
ghost use Rattle.wx_machine.specs.Channels.{channel, end_in};
ghost use Rattle.wx_machine.specs.Closing.{is_closed};
ghost use Rattle.wx_machine.specs.Contexts.{context_of, is_live, receivers_of};
ghost use Rattle.wx_machine.specs.Hosts.{work_of};
ghost use Rattle.wx_machine.specs.Requests.{is_asked, request};
ghost use Rattle.wx_machine.specs.Texts.{is_over};
ghost use Rattle.wx_broker.specs.Tables.{is_over_at, IsWithin};
ghost use Rattle.wx_broker.specs.Views.{view_at, view_for};

use crate::answers::{at_end, on_standing, where_native, where_open};
use crate::{Broker, HostView};
use wx_context::{Context, Target};
use wx_external::{NativeVerdict, Verdict, gate, native_gate};
use wx_id::{ChannelNo, ContextNo, ExtensionId, HostNo, NoMemory, RequestNo, Utf8Text};
use wx_machine::{Answer, Sort, Work};
use wx_roster::extension_of;
use wx_tables::Tables;

/// Where the gate is open, the host's place among the world's hosts, and the caller's extension.
fn view_at(verdict: NativeVerdict, ext: Option<&ExtensionId>) -> Option<HostView>
    ensures { result ≡ view_at verdict (option_copied ext.entry) }
{
    match (verdict, ext) {
        (NativeVerdict::Open(place), Some(ext)) => {
            Some(HostView {
                manifest: place,
                caller: *ext,
            })
        }
        _ => None,
    }
}

/// Whether no text comes any more for what a host works for.
fn is_over(tables: &Tables, work: Option<Work>) -> bool
    requires { IsWithin (length tables.now.ports) (length tables.now.requests) work }
    ensures { result ≡ is_over_at tables.now.ports tables.now.requests work }
{
    match work {
        Some(Work::Channel(k)) => !tables.is_open(k),
        Some(Work::Request(r)) => tables.is_settled(r),
        None => false,
    }
}

impl Broker {
    /// Whether context c came in and did not leave.
    pub(crate) fn is_live(&self, c: ContextNo) -> bool
        ensures { result ≡ is_live (reverse self.now.entries) c }
    {
        self.roster.is_live(c)
    }

    /// Context c, as it came in.
    pub(crate) fn context(&self, c: ContextNo) -> Option<&Context>
        ensures { option_copied result ≡ context_of (reverse self.now.entries) c }
    {
        self.roster.context(c)
    }

    /// The answer to a call that needs only a live caller.
    pub(crate) fn done_if_live(&self, c: ContextNo) -> Answer
        ensures { result ≡ cond (is_live (reverse self.now.entries) c) Answer.Done Answer.Gone }
    {
        if self.is_live(c) {
            Answer::Done
        } else {
            Answer::Gone
        }
    }

    /// Whether context c may reach the target; one that never came in may not.
    fn gate_for(&self, c: ContextNo, target: &Target) -> Verdict
        ensures { result ≡ gate_for self.now.world (context_of (reverse self.now.entries) c) target.now }
    {
        match self.context(c) {
            Some(x) => gate(&self.world, x, target),
            None => Verdict::BadTarget,
        }
    }

    /// That answer, where the target has a receiver.
    fn where_heard(&self, c: ContextNo, target: &Target, sort: Sort, answer: Answer) -> Answer
        ensures { result ≡ where_heard (receivers_of (reverse self.now.entries) c target.now sort) answer }
    {
        if self.roster.has_receiver(c, target, sort) {
            answer
        } else {
            Answer::NoReceiver
        }
    }

    /// The receivers of what context c sends to the target, in rising number.
    pub(crate) fn receivers(
        &self,
        c: ContextNo,
        target: &Target,
        sort: Sort,
    ) -> Result<Vec<ContextNo>, NoMemory>
        ensures { IfOk result (λ found. found.items ≡ receivers_of (reverse self.now.entries) c target.now sort) }
    {
        self.roster.receivers(self.alloc, c, target, sort)
    }

    /// That answer to a live caller who may reach the target, where it has a receiver.
    pub(crate) fn to_target(
        &self,
        c: ContextNo,
        target: &Target,
        sort: Sort,
        answer: Answer,
    ) -> Answer
        ensures { result ≡ cond (is_live (reverse self.now.entries) c)
            (where_open (gate_for self.now.world (context_of (reverse self.now.entries) c) target.now)
            (where_heard (receivers_of (reverse self.now.entries) c target.now sort) answer))
            Answer.Gone }
    {
        if !self.is_live(c) {
            return Answer::Gone;
        }
        where_open(
            self.gate_for(c, target),
            self.where_heard(c, target, sort, answer),
        )
    }

    /// Whether context c may start the host of that name; one that never came in may not.
    fn native_gate_for(&self, c: ContextNo, name: &Utf8Text) -> NativeVerdict
        ensures { result ≡ native_gate_for self.now.world (context_of (reverse self.now.entries) c) name.now }
    {
        match self.context(c) {
            Some(x) => native_gate(&self.world, x, name.as_str()),
            None => NativeVerdict::BadTarget,
        }
    }

    /// That answer to a live caller who may start the host of that name.
    pub(crate) fn to_host(&self, c: ContextNo, name: &Utf8Text, answer: Answer) -> Answer
        ensures { result ≡ cond (is_live (reverse self.now.entries) c)
            (where_native (native_gate_for self.now.world (context_of (reverse self.now.entries) c) name.now) answer)
            Answer.Gone }
    {
        if !self.is_live(c) {
            return Answer::Gone;
        }
        where_native(self.native_gate_for(c, name), answer)
    }

    /// The host of that name, as context c may start it.
    pub(crate) fn view_for(&self, c: ContextNo, name: &Utf8Text) -> Option<HostView>
        ensures { result ≡ view_for self.now.world (context_of (reverse self.now.entries) c) name.now }
    {
        match self.context(c) {
            Some(x) => view_at(native_gate(&self.world, x, name.as_str()), extension_of(x)),
            None => None,
        }
    }

    /// The answer on channel k: to one that is no end of it, where it is closed, and where it is open.
    pub(crate) fn on_channel(
        &self,
        c: ContextNo,
        k: ChannelNo,
        on_closed: Answer,
        on_open: Answer,
    ) -> Answer
        ensures { result ≡ at_end (end_in (channel (reverse self.now.entries) k.0) c)
            (is_closed (reverse self.now.entries) k.0) on_closed on_open }
    {
        at_end(
            self.tables.end(k, c),
            !self.tables.is_open(k),
            on_closed,
            on_open,
        )
    }

    /// The answer on request r to a live caller: to one whom it was not sent to, where it is too late, and else.
    pub(crate) fn on_request(&self, c: ContextNo, r: RequestNo, answer: Answer) -> Answer
        ensures { result ≡ cond (is_live (reverse self.now.entries) c)
            (on_request (is_asked (request (reverse self.now.entries) r.0) c)
            (is_late (reverse self.now.entries) r.0 c) answer)
            Answer.Gone }
    {
        if !self.is_live(c) {
            return Answer::Gone;
        }
        on_standing(self.tables.standing(r, c), answer)
    }

    /// What host h works for.
    pub(crate) fn work(&self, h: HostNo) -> Option<Work>
        ensures { result ≡ work_of (reverse self.now.entries) h }
    {
        self.hosts.work(h)
    }

    /// Whether no text comes any more for what host h works for.
    pub(crate) fn is_work_over(&self, h: HostNo) -> bool
        ensures { result ≡ is_over (reverse self.now.entries) (work_of (reverse self.now.entries) h) }
    {
        is_over(&self.tables, self.work(h))
    }
}
