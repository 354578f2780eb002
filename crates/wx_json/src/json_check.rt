//! The check of a JSON text that comes in pieces.
ghost use Rattle.std.specs.Prelude.{◌≡◌, ℕ, ◌+◌, ◌*◌, ◌-◌, ◌^◌, ◌<◌, ◌≤◌, ◌++◌, Bool, true};
ghost use Rattle.std.specs.Prelude.{length, List, [], MatchResult, take, drop, get_or};
ghost use Rattle.wx_json.specs.Text.{IsJsonText, IsPrefixOfJson, IsFault, IsEndFault};
ghost use Rattle.wx_json.specs.States.{is_state, is_end, CommaLeads, coding_of, entered, went};
ghost use Rattle.wx_json.specs.States.{opened, closed_empty, closed, separated, refused};
ghost use Rattle.wx_json.specs.Levels.{kinds_of};
ghost use Rattle.wx_json.specs.Coding.{whole};
ghost use Rattle.wx_json.specs.Check.{Stands, taken, advance, advances, IsRunning, failed};

use crate::levels::{kind_at, put_kind};
use crate::transitions::{
    BAD_UTF8, CLOSE_ARRAY, CLOSE_EMPTY, CLOSE_OBJECT, COMMA, NAME, OPEN_ARRAY, OPEN_OBJECT, RUN,
    STRING, Stop, travel,
};
use crate::{JsonFault, JsonKind};
use std::marker::Model;

/// How deep a text may nest.
const LEVELS: usize = 1024;

/// A check of a JSON text that comes in pieces. It takes no memory, and a fault is kept: each later call answers it,
/// until the check is restarted.
#[derive(Drop)]
pub struct JsonCheck {
    taken: u64,
    state: u8,
    depth: usize,
    kinds: [u64; 16],
    fault: Option<JsonFault>,
}

impl Model for JsonCheck {
    ghost use Rattle.wx_json.specs.Check.{Progress};

    ghost Value = { Progress };

    ghost use Rattle.wx_json.specs.View.{progress_of, IsSound};

    ghost view = { progress_of };

    ghost invariant = { IsSound };
}

impl JsonCheck {
    /// A check that was given nothing.
    #[tactic(auto, unfolding(crate::specs::States::is_state))]
    pub fn new() -> JsonCheck
        ensures stands { Stands result [] }
        ensures count { taken result ≡ 0 }
    {
        JsonCheck {
            taken: 0,
            state: b'W',
            depth: 0,
            kinds: [0; 16],
            fault: None,
        }
    }

    /// Begins again, as a check that was given nothing. The words of the levels stay: with none open they tell nothing.
    #[tactic(auto, unfolding(crate::specs::States::is_state))]
    pub fn restart(&mut self)
        ensures stands { Stands self.new [] }
        ensures count { taken self.new ≡ 0 }
    {
        self.taken = 0;
        self.state = b'W';
        self.depth = 0;
        self.fault = None;
    }

    /// Takes the next piece of the text: whether all bytes so far are the start of a JSON text.
    pub fn step(&mut self, piece: &[u8]) -> Result<(), JsonFault>
        requires { taken self.old + length piece.now < 2 ^ 63 }
        ensures stands { (b : List ℕ) → Stands self.old b → Stands self.new (b ++ piece.now) }
        ensures answer { (b : List ℕ) → Stands self.old b →
            MatchResult result (λ _. IsPrefixOfJson (b ++ piece.now)) (IsFault (b ++ piece.now)) }
        ensures count { taken self.new ≤ taken self.old + length piece.now }
    {
        self.run(piece);
        self.answer()
    }

    /// Whether all bytes that were given are a JSON text.
    pub fn finish(&self) -> Result<(), JsonFault>
        ensures { (b : List ℕ) → Stands self.now b → MatchResult result (λ _. IsJsonText b) (IsEndFault b) }
    {
        match self.fault {
            Some(fault) => Err(fault),
            None => {
                if self.depth == 0 && can_end(self.state) {
                    Ok(())
                } else {
                    Err(JsonFault {
                        place: self.taken,
                        kind: JsonKind::Ends,
                    })
                }
            }
        }
    }

    /// How many bytes were taken: all that were given, up to a fault.
    pub fn taken(&self) -> u64
        ensures { result ≡ taken self.now }
    {
        match self.fault {
            Some(fault) => fault.place,
            None => self.taken,
        }
    }

    fn answer(&self) -> Result<(), JsonFault>
        ensures { MatchResult result (λ _. IsRunning self.now) (λ f. self.now ≡ failed f) }
    {
        match self.fault {
            Some(fault) => Err(fault),
            None => Ok(()),
        }
    }

    fn run(&mut self, piece: &[u8])
        requires { taken self.old + length piece.now < 2 ^ 63 }
        ensures value { self.new ≡ advances self.old piece.now }
        ensures count { taken self.new ≤ taken self.old + length piece.now }
    {
        let mut at = 0;
        while at < piece.len() {
            at = self.part(piece, at);
        }
    }

    /// Takes bytes up to and with the next that asks for more than a state; all that are left, after a fault.
    #[inline(always)]
    fn part(&mut self, piece: &[u8], from: usize) -> usize
        requires room { taken self.old + length piece.now < 2 ^ 63 + from }
        requires within { from < length piece.now }
        ensures moves { (from < result) × (result ≤ length piece.now) }
        ensures value { self.new ≡ advances self.old (take (result - from) (drop from piece.now)) }
        ensures count { taken self.new + from ≤ taken self.old + result }
    {
        match self.answer() {
            Err(_) => piece.len(),
            Ok(()) => {
                let stop = self.glide(piece, from);
                if stop.at < piece.len() {
                    self.perform(stop.entry);
                    stop.at + 1
                } else {
                    stop.at
                }
            }
        }
    }

    /// Goes on as `travel` does.
    #[inline(always)]
    fn glide(&mut self, piece: &[u8], from: usize) -> Stop
        requires running { IsRunning self.old }
        requires room { taken self.old + length piece.now < 2 ^ 63 + from }
        requires within { from ≤ length piece.now }
        ensures bounds { (from ≤ result.at) × (result.at ≤ length piece.now) }
        ensures value { self.new ≡ advances self.old (take (result.at - from) (drop from piece.now)) }
        ensures running { IsRunning self.new }
        ensures count { taken self.new + from ≡ taken self.old + result.at }
        ensures entry { result.entry < 64 }
        ensures next { result.at < length piece.now
            → entered result.entry self.new ≡ advance self.new (get_or piece.now result.at 0) }
    {
        let after_comma = after_comma(&self.kinds, self.depth);
        let stop = travel(self.state, after_comma, piece, from);
        self.state = stop.state;
        self.taken += (stop.at - from) as u64;
        stop
    }

    /// Does what an entry asks that is no state.
    #[tactic(auto, unfolding(crate::specs::States::is_state, crate::specs::States::mode_of, crate::specs::States::coding_of, crate::specs::States::entered))]
    #[inline(always)]
    fn perform(&mut self, entry: u8)
        requires running { IsRunning self.old }
        requires entry { entry < 64 }
        requires room { taken self.old < 2 ^ 63 }
        ensures { self.new ≡ entered entry self.old }
    {
        match entry {
            STRING => self.enter(b's'),
            NAME => self.enter(b'S'),
            RUN => self.enter(self.state),
            COMMA => self.separate(),
            OPEN_ARRAY => self.open(b'A', false),
            OPEN_OBJECT => self.open(b'O', true),
            CLOSE_EMPTY => self.close_empty(),
            CLOSE_ARRAY => self.close(false),
            CLOSE_OBJECT => self.close(true),
            BAD_UTF8 => self.refuse(JsonKind::Utf8),
            _ => self.refuse(JsonKind::Syntax),
        }
    }

    #[inline(always)]
    fn enter(&mut self, state: u8)
        requires running { IsRunning self.old }
        requires state { is_state state ≡ true }
        requires room { taken self.old < 2 ^ 63 }
        ensures { self.new ≡ went state self.old }
    {
        self.state = state;
        self.taken += 1;
    }

    #[inline(always)]
    fn refuse(&mut self, kind: JsonKind)
        requires running { IsRunning self.old }
        ensures { self.new ≡ refused kind self.old }
    {
        let place = self.taken;
        self.fault = Some(JsonFault { place, kind });
    }

    #[inline(always)]
    fn open(&mut self, state: u8, object: bool)
        requires running { IsRunning self.old }
        requires state { is_state state ≡ true }
        requires coding { coding_of state ≡ whole }
        requires room { taken self.old < 2 ^ 63 }
        ensures { self.new ≡ opened state object self.old }
    {
        if self.depth == LEVELS {
            self.refuse(JsonKind::TooDeep);
        } else {
            put_kind(&mut self.kinds, self.depth, object);
            self.depth += 1;
            self.state = state;
            self.taken += 1;
        }
    }

    #[tactic(auto, unfolding(crate::specs::States::is_state))]
    #[inline(always)]
    fn close_empty(&mut self)
        requires running { IsRunning self.old }
        requires room { taken self.old < 2 ^ 63 }
        ensures { self.new ≡ closed_empty self.old }
    {
        if self.depth == 0 {
            self.refuse(JsonKind::Syntax);
        } else {
            self.depth -= 1;
            self.state = b'Z';
            self.taken += 1;
        }
    }

    #[tactic(auto, unfolding(crate::specs::States::is_state))]
    #[inline(always)]
    fn close(&mut self, object: bool)
        requires running { IsRunning self.old }
        requires room { taken self.old < 2 ^ 63 }
        ensures { self.new ≡ closed object self.old }
    {
        if self.depth > 0 && kind_at(&self.kinds, self.depth - 1) == object {
            self.depth -= 1;
            self.state = b'Z';
            self.taken += 1;
        } else {
            self.refuse(JsonKind::Syntax);
        }
    }

    #[tactic(auto, unfolding(crate::specs::States::is_state))]
    #[inline(always)]
    fn separate(&mut self)
        requires running { IsRunning self.old }
        requires room { taken self.old < 2 ^ 63 }
        ensures { self.new ≡ separated self.old }
    {
        if self.depth == 0 {
            self.refuse(JsonKind::Syntax);
        } else if kind_at(&self.kinds, self.depth - 1) {
            self.enter(b'N');
        } else {
            self.enter(b'W');
        }
    }
}

/// The state after a comma in the innermost container, or 0 where none is open.
#[tactic(auto, unfolding(crate::specs::States::is_state))]
#[inline(always)]
fn after_comma(kinds: &[u64], depth: usize) -> u8
    requires { depth ≤ 64 * length kinds.now }
    ensures state { 64 ≤ result → is_state result ≡ true }
    ensures leads { CommaLeads result (kinds_of kinds.now depth) }
{
    if depth == 0 {
        0
    } else if kind_at(kinds, depth - 1) {
        b'N'
    } else {
        b'W'
    }
}

/// Whether a text may end at the state, outside of all containers.
#[inline(always)]
fn can_end(state: u8) -> bool
    ensures { result ≡ is_end state }
{
    state == b'Z' || state == b'z' || state == b'n' || state == b'c' || state == b'w'
}
