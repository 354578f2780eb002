//! The roster: the contexts that came in, by number.
ghost use Rattle.std.specs.Prelude.{◌≡◌, ◌<◌, [], ◌∷◌, ◌++◌, cond, filter, true, length, option_copied, slice_get};
ghost use Rattle.std.specs.Prelude.{IfOk, OnOk, OnErr};
ghost use Rattle.std.specs.Option.{option_map};
ghost use Rattle.std.specs.List.{list_any};
ghost use Rattle.wx_id.specs.declared.numbers.ContextNo.{ContextNo};
ghost use Rattle.wx_id.specs.Contexts.{same_context};
ghost use Rattle.wx_machine.specs.declared.sorts.Sort.{Sort};
ghost use Rattle.wx_roster.specs.Members.{newcomer, listening, gone, is_live_in, context_in, receivers_in};
ghost use Rattle.wx_roster.specs.Places.{is_wanted};

use crate::places::{Places, place_in};
use crate::reach::{extension_of, hears, in_frame, is_external};
use std::alloc::Global;
use std::marker::Model;
use wx_context::{Context, Listens, Target};
use wx_external::meant;
use wx_id::{ContextNo, NoMemory};
use wx_machine::Sort;

/// A context that came in.
#[derive(Debug, Drop)]
pub struct Member {
    pub context: Context,
    pub listens: Listens,
    pub is_live: bool,
}

/// The contexts that came in, each at the place of its number. Contracts see them as a list.
#[derive(Drop)]
pub struct Roster {
    members: Vec<Member>,
    places: Places,
}

impl Model for Roster {
    ghost use Rattle.std.specs.Prelude.{List};
    ghost use Rattle.wx_roster.specs.declared.roster.Member.{Member};
    ghost use Rattle.wx_roster.specs.Places.{AreInPlace};

    ghost Value = { List Member };

    ghost view = { λ a. a.members.items };

    ghost invariant = { λ a. AreInPlace a.members.items a.places };
}

impl Roster {
    /// Nobody came in.
    pub fn new(alloc: Global) -> Roster
        ensures { result ≡ [] }
    {
        Roster {
            members: Vec::new(alloc),
            places: Places::new(alloc),
        }
    }

    /// A context comes in, with the next number; it listens to nothing. Where memory is refused nothing changes.
    /// Amortized O(1).
    pub fn enter(&mut self, x: &Context) -> Result<(), NoMemory>
        ensures ok { OnOk result (self.new ≡ self.old ++ newcomer x.now ∷ []) }
        ensures err { OnErr result (self.new ≡ self.old) }
    {
        let member = Member {
            context: x.try_clone()?,
            listens: Listens {
                connect: false,
                message: false,
                external_connect: false,
                external_message: false,
            },
            is_live: true,
        };
        self.members.reserve(1)?;
        let c = ContextNo(self.members.len() as u64);
        self.places.come(&self.members, x, c)?;
        self.members.push_reserved(member);
        Ok(())
    }

    /// Context c listens so.
    pub fn listen(&mut self, c: ContextNo, l: Listens)
        requires { c.0 < length self.old }
        ensures members { (d : ContextNo) → slice_get self.new d.0
            ≡ option_map (λ m. cond (same_context c d) (listening l m) m) (slice_get self.old d.0) }
        ensures count { length self.new ≡ length self.old }
    {
        self.members[c.0 as usize].listens = l;
    }

    /// Context c lives no more.
    pub fn leave(&mut self, c: ContextNo)
        requires { c.0 < length self.old }
        ensures members { (d : ContextNo) → slice_get self.new d.0
            ≡ option_map (λ m. cond (same_context c d) (gone m) m) (slice_get self.old d.0) }
        ensures count { length self.new ≡ length self.old }
    {
        self.members[c.0 as usize].is_live = false;
    }

    /// How many came in.
    pub fn count(&self) -> u64
        ensures { result ≡ length self.now }
    {
        self.members.len() as u64
    }

    /// Whether context c came in and did not leave.
    pub fn is_live(&self, c: ContextNo) -> bool
        ensures { result ≡ is_live_in (slice_get self.now c.0) }
    {
        match self.members.get(c.0 as usize) {
            Some(member) => member.is_live,
            None => false,
        }
    }

    /// Context c, as it came in.
    pub fn context(&self, c: ContextNo) -> Option<&Context>
        ensures { option_copied result ≡ context_in self.now c }
    {
        match self.members.get(c.0 as usize) {
            Some(member) => Some(&member.context),
            None => None,
        }
    }

    /// Whether context d, which came to the place that the target names, is a receiver of what c sends.
    fn is_wanted(&self, c: ContextNo, target: &Target, sort: Sort, d: ContextNo) -> bool
        ensures { result ≡ is_wanted self.now c target.now sort d }
    {
        match self.members.get(d.0 as usize) {
            Some(member) => {
                d != c
                    && member.is_live
                    && in_frame(target, &member.context)
                    && hears(sort, is_external(target), member.listens)
            }
            None => false,
        }
    }

    /// The target that context c means, and those that came to the place that it names.
    fn named(&self, c: ContextNo, target: &Target) -> (Target, &[ContextNo])
        ensures { (sort : Sort) →
            filter (is_wanted self.now c result.0 sort) result.1.now ≡ receivers_in self.now c target.now sort }
    {
        let Some(x) = self.context(c) else {
            return (*target, &[]);
        };
        let target = meant(x, target);
        match place_in(extension_of(x), &target) {
            Some(place) => (target, self.places.at(&place)),
            None => (target, &[]),
        }
    }

    /// The receivers of what context c sends to the target, in rising number. O(those that came to what the target
    /// names).
    pub fn receivers(
        &self,
        alloc: Global,
        c: ContextNo,
        target: &Target,
        sort: Sort,
    ) -> Result<Vec<ContextNo>, NoMemory>
        ensures { IfOk result (λ found. found.items ≡ receivers_in self.now c target.now sort) }
    {
        let (whom, named) = self.named(c, target);
        let mut found = Vec::new(alloc);
        for d in named {
            if self.is_wanted(c, &whom, sort, *d) {
                found.push(*d)?;
            }
        }
        Ok(found)
    }

    /// Whether one of those that came to the place that the target names is a receiver of what c sends.
    fn some_wanted(&self, c: ContextNo, target: &Target, sort: Sort, named: &[ContextNo]) -> bool
        ensures { result ≡ list_any (is_wanted self.now c target.now sort) named.now }
    {
        named.iter().any(|d| self.is_wanted(c, target, sort, *d))
    }

    /// Whether what context c sends to the target has a receiver.
    pub fn has_receiver(&self, c: ContextNo, target: &Target, sort: Sort) -> bool
        ensures { result ≡ list_any (λ _. true) (receivers_in self.now c target.now sort) }
    {
        let (whom, named) = self.named(c, target);
        self.some_wanted(c, &whom, sort, named)
    }
}
