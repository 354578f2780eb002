//! The broker, and the calls by which contexts come in, listen, leave and take what waits for them.
ghost use Rattle.std.specs.Prelude.{◌≡◌, ◌+◌, ◌<◌, ◌≤◌, IsOk, IsTrue, reverse, [], ◌∷◌, ◌++◌, ◌==◌, cond, length};
ghost use Rattle.std.specs.Prelude.{OnErr, OnOk, IfOk, IfErr};
ghost use Rattle.wx_machine.specs.Contexts.{contexts};
ghost use Rattle.wx_machine.specs.Answers.{answer_of, FollowsMachine, IsLegal};
ghost use Rattle.wx_machine.specs.Events.{has_pending};
ghost use Rattle.wx_broker.specs.Steps.{Appends, KeepsNumbers, Stays};
ghost use Rattle.wx_broker.specs.Tables.{is_event};
ghost use Rattle.wx_broker.specs.Calm.{is_calm};
ghost use Rattle.wx_laws.specs.Keeping.{KeepsLaws};

use crate::answers::{is_done, is_event, told_or_empty};
use std::alloc::Global;
use std::marker::Model;
use wx_context::{Context, Listens};
use wx_external::World;
use wx_id::{ContextNo, EntryNo, NoMemory};
use wx_journal::Journal;
use wx_machine::{Answer, Call, Entry, Who};
use wx_native_hosts::Hosts;
use wx_roster::Roster;
use wx_tables::Tables;

/// The broker. It keeps the journal, and tables of its contexts, channels, requests and native hosts, with what waits
/// for each. Contracts see the world that it was made with, the journal's entries, and how many more have room; the
/// journal is always legal, and the tables tell it.
#[derive(Drop)]
pub struct Broker {
    pub(crate) world: World,
    pub(crate) journal: Journal,
    pub(crate) roster: Roster,
    pub(crate) tables: Tables,
    pub(crate) hosts: Hosts,
    pub(crate) alloc: Global,
}

impl Model for Broker {
    ghost use Rattle.wx_broker.specs.State.{BrokerState};
    ghost use Rattle.wx_broker.specs.Told.{IsTold};

    ghost Value = { BrokerState };

    ghost view = { λ broker. record {
      world = broker.world;
      entries = broker.journal.entries;
      spare =
          broker.journal.spare;
    } };

    ghost invariant = { λ broker.
        IsTold broker.world broker.journal.entries broker.roster broker.tables broker.hosts.hosts };
}

/// A queue for context c, where there is none: one may be left of a context for whom the roster had no memory.
fn make_queue(tables: &mut Tables, c: ContextNo) -> Result<(), NoMemory>
    ensures ports { tables.new.ports ≡ tables.old.ports }
    ensures requests { tables.new.requests ≡ tables.old.requests }
    ensures ok { OnOk result (tables.new.queues
        ≡ cond (length tables.old.queues == c.0) (tables.old.queues ++ [] ∷ []) tables.old.queues) }
    ensures err { OnErr result (tables.new ≡ tables.old) }
{
    if tables.contexts() == c.0 {
        return tables.enter();
    }
    Ok(())
}

impl Broker {
    /// The broker with no entry, in this world.
    pub fn new(alloc: Global, world: World) -> Broker
        ensures empty { result.entries ≡ [] }
        ensures world { result.world ≡ world }
    {
        Broker {
            world,
            journal: Journal::new(alloc),
            roster: Roster::new(alloc),
            tables: Tables::new(alloc),
            hosts: Hosts::new(alloc),
            alloc,
        }
    }

    /// Appends a call with its answer that changes no table, and that there is room for.
    pub(crate) fn append(&mut self, who: Who, call: Call, answer: Answer)
        requires follows { FollowsMachine self.old.world (reverse self.old.entries)
            (record { who = who; call = call; answer = answer }) }
        requires calm { IsTrue (is_calm call answer) }
        requires room { 0 < self.old.spare }
        ensures grown { self.new.entries
            ≡ self.old.entries ++ record { who = who; call = call; answer = answer } ∷ [] }
        ensures world { self.new.world ≡ self.old.world }
        ensures spare { self.old.spare ≤ self.new.spare + 1 }
        ensures numbers { KeepsNumbers self.old.entries self.new.entries }
    {
        self.journal.push_reserved(Entry { who, call, answer });
    }

    /// A context enters, and is given the next number. It comes back where memory was refused.
    pub fn enter(&mut self, x: Context) -> Result<ContextNo, Context>
        ensures ok { IfOk result (λ c. Appends self.old self.new (Who.Context c) (Call.Enter x) (Answer.Entered c)) }
        ensures err { OnErr result (Stays self.old self.new) }
        ensures returned { IfErr result (λ back. back ≡ x) }
        ensures spare { self.old.spare ≤ self.new.spare + 1 }
        ensures numbers { KeepsNumbers self.old.entries self.new.entries }
        ensures given { IfOk result (λ c. c.0 < contexts (reverse self.new.entries)) }
    {
        if self.journal.reserve(1).is_err() {
            return Err(x);
        }
        let c = ContextNo(self.roster.count());
        if make_queue(&mut self.tables, c).is_err() {
            return Err(x);
        }
        if self.roster.enter(&x).is_err() {
            return Err(x);
        }
        self.journal.push_reserved(Entry {
            who: Who::Context(c),
            call: Call::Enter(x),
            answer: Answer::Entered(c),
        });
        Ok(c)
    }

    /// Context c says what it listens to.
    pub fn listen(&mut self, c: ContextNo, l: Listens) -> Result<Answer, NoMemory>
        requires { c.0 < contexts (reverse self.old.entries) }
        ensures ok { IfOk result (λ a. Appends self.old self.new (Who.Context c) (Call.Listen l) a) }
        ensures err { OnErr result (Stays self.old self.new) }
        ensures room { 0 < self.old.spare → IsOk result }
        ensures spare { self.old.spare ≤ self.new.spare + 1 }
        ensures numbers { KeepsNumbers self.old.entries self.new.entries }
    {
        self.journal.reserve(1)?;
        let answer = self.done_if_live(c);
        if !is_done(answer) {
            self.append(Who::Context(c), Call::Listen(l), answer);
            return Ok(answer);
        }
        self.roster.listen(c, l);
        self.journal.push_reserved(Entry {
            who: Who::Context(c),
            call: Call::Listen(l),
            answer,
        });
        Ok(answer)
    }

    /// Context c leaves.
    pub fn leave(&mut self, c: ContextNo) -> Result<Answer, NoMemory>
        requires { c.0 < contexts (reverse self.old.entries) }
        ensures ok { IfOk result (λ a. Appends self.old self.new (Who.Context c) Call.Leave a) }
        ensures err { OnErr result (Stays self.old self.new) }
        ensures room { 0 < self.old.spare → IsOk result }
        ensures spare { self.old.spare ≤ self.new.spare + 1 }
        ensures numbers { KeepsNumbers self.old.entries self.new.entries }
    {
        self.journal.reserve(1)?;
        let answer = self.done_if_live(c);
        if !is_done(answer) {
            self.append(Who::Context(c), Call::Leave, answer);
            return Ok(answer);
        }
        let n = EntryNo(self.journal.len());
        self.tables.leave(c, n);
        self.roster.leave(c);
        self.journal.push_reserved(Entry {
            who: Who::Context(c),
            call: Call::Leave,
            answer,
        });
        Ok(answer)
    }

    /// The answer to a take.
    fn take_answer(&self, c: ContextNo) -> Answer
        ensures { result ≡ answer_of self.now.world self.now.entries (Who.Context c) Call.Take }
    {
        if !self.is_live(c) {
            return Answer::Gone;
        }
        told_or_empty(self.tables.first(c))
    }

    /// Context c takes the first event that is pending for it.
    pub fn take(&mut self, c: ContextNo) -> Result<Answer, NoMemory>
        requires { c.0 < contexts (reverse self.old.entries) }
        ensures ok { IfOk result (λ a. Appends self.old self.new (Who.Context c) Call.Take a) }
        ensures err { OnErr result (Stays self.old self.new) }
        ensures room { 0 < self.old.spare → IsOk result }
        ensures spare { self.old.spare ≤ self.new.spare + 1 }
        ensures numbers { KeepsNumbers self.old.entries self.new.entries }
    {
        self.journal.reserve(1)?;
        let answer = self.take_answer(c);
        if !is_event(answer) {
            self.append(Who::Context(c), Call::Take, answer);
            return Ok(answer);
        }
        let _ = self.tables.take(c);
        self.journal.push_reserved(Entry {
            who: Who::Context(c),
            call: Call::Take,
            answer,
        });
        Ok(answer)
    }

    /// Whether a take of context c would now be answered with an event.
    pub fn ready(&self, c: ContextNo) -> bool
        requires { c.0 < contexts (reverse self.now.entries) }
        ensures event { result ≡ is_event (answer_of self.now.world self.now.entries (Who.Context c) Call.Take) }
        ensures pending { result ≡ has_pending (reverse self.now.entries) c }
    {
        self.tables.first(c).is_some() && self.is_live(c)
    }

    /// How many contexts entered.
    pub fn contexts(&self) -> u64
        ensures { result ≡ contexts (reverse self.now.entries) }
    {
        self.roster.count()
    }

    /// Makes room for so many more entries; nothing else is changed.
    pub fn reserve(&mut self, n: u64) -> Result<(), NoMemory>
        ensures same { Stays self.old self.new }
        ensures ok { OnOk result (n ≤ self.new.spare) }
        ensures room { n ≤ self.old.spare → IsOk result }
    {
        self.journal.reserve(n)
    }

    /// How many more entries have room.
    pub fn spare(&self) -> u64
        ensures { result ≡ self.now.spare }
    {
        self.journal.spare()
    }

    /// The journal: each entry has the machine's answer after those before it.
    pub fn journal(&self) -> &Journal
        ensures entries { result.now.entries ≡ self.now.entries }
        ensures legal { IsLegal self.now.world self.now.entries }
    {
        &self.journal
    }

    /// The journal, which keeps the laws of messaging; the broker ends.
    pub fn into_journal(self) -> Journal
        ensures entries { result.entries ≡ self.entries }
        ensures legal { IsLegal self.world self.entries }
        ensures laws { KeepsLaws self.world self.entries }
    {
        let Broker { journal, .. } = self;
        journal
    }

    /// The world that it was made with.
    pub fn world(&self) -> &World
        ensures { result.now ≡ self.now.world }
    {
        &self.world
    }
}
