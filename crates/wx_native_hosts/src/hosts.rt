//! The native hosts by number: what each was started for, which texts wait for it, and how far it has come.
ghost use Rattle.std.specs.Prelude.{◌≡◌, ℕ, ◌<◌, length, [], ◌∷◌, ◌++◌, None, false, cond, slice_get, option_to_list, ◌==◌, OnOk, OnErr, IfOk, IfSome, IsTrue, Some, nat_eq};
ghost use Rattle.std.specs.Option.{option_map};
ghost use Rattle.wx_id.specs.declared.numbers.HostNo.{HostNo};
ghost use Rattle.wx_machine.specs.Words.{is_for_channel};
ghost use Rattle.indexmap.specs.IndexMap as map;
ghost use Rattle.wx_native_hosts.specs.Hosts as spec;

use indexmap::IndexMap;
use std::alloc::Global;
use std::collections::VecDeque;
use std::marker::Model;
use wx_id::{ChannelNo, EntryNo, ExtensionId, HostNo, NoMemory};
use wx_machine::Work;

/// What a host was started for.
#[derive(Clone, Copy, Debug, PartialEq, Eq)]
pub struct Start {
    pub work: Work,
    /// The place of its manifest among the world's hosts.
    pub manifest: usize,
    /// The extension that started it.
    pub caller: ExtensionId,
}

/// A native host, and the entries with the texts that wait for it.
#[derive(Drop)]
pub struct Host {
    start: Start,
    texts: VecDeque<EntryNo>,
    has_ended: bool,
    knows_end: bool,
    said_closed: bool,
}

impl Model for Host {
    ghost use Rattle.wx_native_hosts.specs.Hosts.{HostState};

    ghost Value = { HostState };

    ghost view = { λ a. record {
      start = a.start;
      texts = a.texts.items;
      has_ended = a.has_ended;
      knows_end = a.knows_end;
      said_closed = a.said_closed;
    } };
}

impl Host {
    /// A host that was just started, with its first text if it begins with one.
    pub fn new(alloc: Global, start: Start, text: Option<EntryNo>) -> Result<Host, NoMemory>
        ensures { IfOk result (λ host. host ≡ spec.started start (option_to_list text)) }
    {
        let mut texts = VecDeque::new(alloc);
        if let Some(n) = text {
            texts.push_back(n)?;
        }
        Ok(Host {
            start,
            texts,
            has_ended: false,
            knows_end: false,
            said_closed: false,
        })
    }

    fn tell(&mut self, n: EntryNo) -> Result<(), NoMemory>
        ensures ok { OnOk result (self.new ≡ spec.told n self.old) }
        ensures err { OnErr result (self.new ≡ self.old) }
    {
        self.texts.push_back(n)?;
        Ok(())
    }

    fn take(&mut self)
        ensures { self.new ≡ spec.took self.old }
    {
        self.texts.pop_front();
    }

    fn end(&mut self)
        ensures { self.new ≡ spec.ended self.old }
    {
        self.has_ended = true;
    }

    fn learn_end(&mut self)
        ensures { self.new ≡ spec.knowing self.old }
    {
        self.knows_end = true;
    }

    fn refuse(&mut self)
        ensures { self.new ≡ spec.refused self.old }
    {
        self.said_closed = true;
    }
}

/// The native hosts that were started, each at the place of its number. Contracts see them as a list, with the number
/// of those that `start` is sure to take.
#[derive(Drop)]
pub struct Hosts {
    rows: Vec<Host>,
    by_channel: IndexMap<u64, HostNo>,
}

impl Model for Hosts {
    ghost use Rattle.std.specs.Prelude.{◌-◌, min, nat_eq, vec_len, vec_capacity};
    ghost use Rattle.indexmap.specs.IndexMap.{spare, get};
    ghost use Rattle.wx_native_hosts.specs.Hosts.{HostsState, AreFound};

    ghost Value = { HostsState };

    ghost view = { λ a. record {
      hosts = a.rows.items;
      spare = min (vec_capacity a.rows - vec_len a.rows) (spare a.by_channel);
    } };

    ghost invariant = { λ a. AreFound a.rows.items (get nat_eq a.by_channel) };
}

/// Notes host h at the channel that it works for, if that is what it works for.
fn note_channel(by_channel: &mut IndexMap<u64, HostNo>, work: Work, h: HostNo)
    requires { 0 < map.spare by_channel.old }
    ensures { (k : ℕ) → map.get nat_eq by_channel.new k
        ≡ cond (is_for_channel k (Some work)) (Some h) (map.get nat_eq by_channel.old k) }
{
    if let Work::Channel(k) = work {
        by_channel.insert(k.0, h).unwrap();
    }
}

impl Hosts {
    /// No host was started. Takes no memory.
    pub fn new(alloc: Global) -> Hosts
        ensures { result.hosts ≡ [] }
    {
        Hosts {
            rows: Vec::new(alloc),
            by_channel: IndexMap::new(alloc),
        }
    }

    /// Makes room for one more host.
    pub fn reserve(&mut self) -> Result<(), NoMemory>
        ensures hosts { self.new.hosts ≡ self.old.hosts }
        ensures ok { OnOk result (0 < self.new.spare) }
    {
        self.rows.reserve(1)?;
        self.by_channel.reserve(1)?;
        Ok(())
    }

    /// A host gets the next number. No earlier one works for its channel. Takes no memory.
    #[tactic(auto, using(crate::proofs::FoundLater::found_more))]
    pub fn start(&mut self, host: Host)
        requires room { 0 < self.old.spare }
        requires new { (k : ℕ) (h : HostNo) → IsTrue (is_for_channel k (spec.work_in (Some host)))
            → is_for_channel k (spec.work_in (slice_get self.old.hosts h.0)) ≡ false }
        ensures { self.new.hosts ≡ self.old.hosts ++ host ∷ [] }
    {
        let h = HostNo(self.rows.len() as u64);
        note_channel(&mut self.by_channel, host.start.work, h);
        self.rows.push_reserved(host);
    }

    /// How many hosts were started.
    pub fn count(&self) -> u64
        ensures { result ≡ length self.now.hosts }
    {
        self.rows.len() as u64
    }

    /// What host h was started for.
    pub fn start_of(&self, h: HostNo) -> Option<Start>
        ensures { result ≡ option_map (λ host. host.start) (slice_get self.now.hosts h.0) }
    {
        let host = self.rows.get(h.0 as usize)?;
        Some(host.start)
    }

    /// What host h works for.
    pub fn work(&self, h: HostNo) -> Option<Work>
        ensures { result ≡ spec.work_in (slice_get self.now.hosts h.0) }
    {
        let start = self.start_of(h)?;
        Some(start.work)
    }

    /// The host that works for channel k.
    pub fn of_channel(&self, k: ChannelNo) -> Option<HostNo>
        ensures host { (h : HostNo) → is_for_channel k.0 (spec.work_in (slice_get self.now.hosts h.0))
            ≡ spec.is_the result h }
        ensures there { IfSome result (λ h. h.0 < length self.now.hosts) }
    {
        if self.by_channel.is_empty() {
            return None;
        }
        self.by_channel.get(&k.0).copied()
    }

    /// The entry with the next text for host h, unless it ended.
    pub fn next_text(&self, h: HostNo) -> Option<EntryNo>
        ensures { result ≡ cond (spec.has_ended_in (slice_get self.now.hosts h.0)) None
            (spec.first_text_in (slice_get self.now.hosts h.0)) }
    {
        let host = self.rows.get(h.0 as usize)?;
        if host.has_ended {
            return None;
        }
        host.texts.front().copied()
    }

    /// Whether host h ended.
    pub fn has_ended(&self, h: HostNo) -> bool
        ensures { result ≡ spec.has_ended_in (slice_get self.now.hosts h.0) }
    {
        match self.rows.get(h.0 as usize) {
            Some(host) => host.has_ended,
            None => false,
        }
    }

    /// Whether host h was told that no text comes any more.
    pub fn knows_end(&self, h: HostNo) -> bool
        ensures { result ≡ spec.knows_end_in (slice_get self.now.hosts h.0) }
    {
        match self.rows.get(h.0 as usize) {
            Some(host) => host.knows_end,
            None => false,
        }
    }

    /// Whether a message of host h was answered that its channel is closed.
    pub fn said_closed(&self, h: HostNo) -> bool
        ensures { result ≡ spec.said_closed_in (slice_get self.now.hosts h.0) }
    {
        match self.rows.get(h.0 as usize) {
            Some(host) => host.said_closed,
            None => false,
        }
    }

    /// The text in entry n comes for host h.
    pub fn tell(&mut self, h: HostNo, n: EntryNo) -> Result<(), NoMemory>
        requires { h.0 < length self.old.hosts }
        ensures ok { OnOk result ((g : HostNo) → slice_get self.new.hosts g.0
            ≡ option_map (λ host. cond (h.0 == g.0) (spec.told n host) host) (slice_get self.old.hosts g.0)) }
        ensures err { OnErr result (self.new.hosts ≡ self.old.hosts) }
        ensures count { length self.new.hosts ≡ length self.old.hosts }
    {
        self.rows[h.0 as usize].tell(n)
    }

    /// Host h takes its first text. Takes no memory.
    pub fn take(&mut self, h: HostNo)
        requires { h.0 < length self.old.hosts }
        ensures hosts { (g : HostNo) → slice_get self.new.hosts g.0
            ≡ option_map (λ host. cond (h.0 == g.0) (spec.took host) host) (slice_get self.old.hosts g.0) }
        ensures count { length self.new.hosts ≡ length self.old.hosts }
    {
        self.rows[h.0 as usize].take();
    }

    /// Host h ends.
    pub fn end(&mut self, h: HostNo)
        requires { h.0 < length self.old.hosts }
        ensures hosts { (g : HostNo) → slice_get self.new.hosts g.0
            ≡ option_map (λ host. cond (h.0 == g.0) (spec.ended host) host) (slice_get self.old.hosts g.0) }
        ensures count { length self.new.hosts ≡ length self.old.hosts }
    {
        self.rows[h.0 as usize].end();
    }

    /// Host h is told that no text comes any more.
    pub fn learn_end(&mut self, h: HostNo)
        requires { h.0 < length self.old.hosts }
        ensures hosts { (g : HostNo) → slice_get self.new.hosts g.0
            ≡ option_map (λ host. cond (h.0 == g.0) (spec.knowing host) host) (slice_get self.old.hosts g.0) }
        ensures count { length self.new.hosts ≡ length self.old.hosts }
    {
        self.rows[h.0 as usize].learn_end();
    }

    /// A message of host h is answered that its channel is closed.
    pub fn refuse(&mut self, h: HostNo)
        requires { h.0 < length self.old.hosts }
        ensures hosts { (g : HostNo) → slice_get self.new.hosts g.0
            ≡ option_map (λ host. cond (h.0 == g.0) (spec.refused host) host) (slice_get self.old.hosts g.0) }
        ensures count { length self.new.hosts ≡ length self.old.hosts }
    {
        self.rows[h.0 as usize].refuse();
    }
}
