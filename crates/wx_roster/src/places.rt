//! Places: what targets name together, and the contexts that came to each.
ghost use Rattle.std.specs.Prelude.{◌≡◌, [], ◌∷◌, ◌++◌, Some, filter, OnOk, OnErr, option_copied};
ghost use Rattle.wx_roster.specs.Places as spec;
ghost use Rattle.wx_roster.specs.Places.{comers_at, with_comer, place_of, stays_in, staying_at};
ghost use Rattle.wx_roster.specs.declared.places.Place.{Place};

use crate::roster::Member;
use indexmap::IndexMap;
use std::alloc::Global;
use std::marker::Model;
use wx_context::{Context, Target};
use wx_id::{ContextNo, ExtensionId, NoMemory, TabId};

/// The pages of an extension, or its content scripts in a tab.
#[derive(Clone, Copy, Debug, PartialEq, Eq, Hash)]
pub struct Place {
    pub ext: ExtensionId,
    pub tab: Option<TabId>,
}

/// The place that a context comes to; a web page comes to none.
pub fn place_of(x: &Context) -> Option<Place>
    ensures { result ≡ spec.place_of x.now }
{
    match x {
        Context::Page { ext, path: _ } => Some(Place {
            ext: *ext,
            tab: None,
        }),
        Context::Content { ext, tab, .. } => Some(Place {
            ext: *ext,
            tab: Some(*tab),
        }),
        Context::Web { .. } => None,
    }
}

/// The place that a target of a caller from that extension names.
pub fn place_in(own: Option<&ExtensionId>, target: &Target) -> Option<Place>
    ensures { result ≡ spec.place_in (option_copied own.entry) target.now }
{
    match (own, target) {
        (_, Target::Other(id)) => Some(Place {
            ext: *id,
            tab: None,
        }),
        (Some(ext), Target::Own) => Some(Place {
            ext: *ext,
            tab: None,
        }),
        (Some(ext), Target::Tab(t, _)) => Some(Place {
            ext: *ext,
            tab: Some(*t),
        }),
        (None, _) => None,
    }
}

/// Whether context d lives, or did not come in yet.
fn stays(members: &[Member], d: ContextNo) -> bool
    ensures { result ≡ stays_in members.now d }
{
    match members.get(d.0 as usize) {
        Some(member) => member.is_live,
        None => true,
    }
}

/// The contexts that came to one place, in the order of their coming, but for some that left.
#[derive(Drop)]
struct Comers {
    numbers: Vec<ContextNo>,
}

impl Model for Comers {
    ghost use Rattle.std.specs.Prelude.{List};
    ghost use Rattle.wx_id.specs.declared.numbers.ContextNo.{ContextNo};

    ghost Value = { List ContextNo };

    ghost view = { λ a. a.numbers.items };
}

impl Comers {
    fn new(alloc: Global) -> Comers
        ensures { result ≡ [] }
    {
        Comers {
            numbers: Vec::new(alloc),
        }
    }

    fn as_slice(&self) -> &[ContextNo]
        ensures { result.now ≡ self.now }
    {
        self.numbers.as_slice()
    }

    /// Where the list is full, drops those that left, and where it stays more than half full, makes room for as many
    /// more. So one who comes and goes makes no long list, and each comer costs O(1), amortized.
    fn make_room(&mut self, members: &[Member]) -> Result<(), NoMemory>
        ensures { filter (stays_in members.now) self.new ≡ filter (stays_in members.now) self.old }
    {
        let capacity = self.numbers.capacity();
        if self.numbers.len() < capacity {
            return Ok(());
        }
        self.numbers.retain(|d| stays(members, *d));
        let count = self.numbers.len();
        if capacity / 2 < count {
            self.numbers.reserve(count)?;
        }
        Ok(())
    }

    /// Context c comes after the others. Those that left may be dropped.
    fn add(&mut self, members: &[Member], c: ContextNo) -> Result<(), NoMemory>
        ensures ok { OnOk result (filter (stays_in members.now) self.new
            ≡ filter (stays_in members.now) (self.old ++ c ∷ [])) }
        ensures err { OnErr result (filter (stays_in members.now) self.new
            ≡ filter (stays_in members.now) self.old) }
    {
        self.make_room(members)?;
        self.numbers.push(c)?;
        Ok(())
    }
}

/// The contexts that came to each place, in the order of their coming, but for some that left.
#[derive(Drop)]
pub struct Places {
    comers: IndexMap<Place, Comers>,
    alloc: Global,
}

impl Model for Places {
    ghost use Rattle.std.specs.Prelude.{List};
    ghost use Rattle.wx_id.specs.declared.numbers.ContextNo.{ContextNo};
    ghost use Rattle.wx_roster.specs.declared.places.Place.{Place};

    ghost Value = { List (Place × List ContextNo) };

    ghost view = { λ a. a.comers.entries };
}

impl Places {
    /// Nobody came.
    pub fn new(alloc: Global) -> Places
        ensures { (p : Place) → comers_at result p ≡ [] }
    {
        Places {
            comers: IndexMap::new(alloc),
            alloc,
        }
    }

    /// Context c came to the place. Those that left may be dropped.
    fn add(&mut self, members: &[Member], place: Place, c: ContextNo) -> Result<(), NoMemory>
        ensures ok { OnOk result ((p : Place) → staying_at members.now self.new p
            ≡ filter (stays_in members.now) (with_comer (comers_at self.old p) (Some place) c p)) }
        ensures err { OnErr result ((p : Place) →
            staying_at members.now self.new p ≡ staying_at members.now self.old p) }
    {
        if let Some(comers) = self.comers.get_mut(&place) {
            comers.add(members, c)?;
            return Ok(());
        }
        let mut comers = Comers::new(self.alloc);
        comers.add(members, c)?;
        self.comers.insert(place, comers)?;
        Ok(())
    }

    /// Context c came in, as x, after these. Those that left may be dropped. Where memory is refused nobody came.
    pub fn come(&mut self, members: &[Member], x: &Context, c: ContextNo) -> Result<(), NoMemory>
        ensures ok { OnOk result ((p : Place) → staying_at members.now self.new p
            ≡ filter (stays_in members.now) (with_comer (comers_at self.old p) (place_of x.now) c p)) }
        ensures err { OnErr result ((p : Place) →
            staying_at members.now self.new p ≡ staying_at members.now self.old p) }
    {
        match place_of(x) {
            Some(place) => self.add(members, place, c),
            None => Ok(()),
        }
    }

    /// Those that came to the place.
    pub fn at(&self, place: &Place) -> &[ContextNo]
        ensures { result.now ≡ comers_at self.now place.now }
    {
        match self.comers.get(place) {
            Some(comers) => comers.as_slice(),
            None => &[],
        }
    }
}
