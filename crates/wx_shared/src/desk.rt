//! The desk of an endpoint over a seat of the lock.
ghost use Rattle.std.specs.Prelude.{◌≡◌, ◌+◌, ◌<◌, ◌≤◌, length, [], None, IfOk, IfErr, OnErr};
ghost use Rattle.wx_turn.specs.Seats.{lock_of, id, history, joins};
ghost use Rattle.wx_desk.specs.Desks.{IsSound, MakesNone, MakesOne};
ghost use Rattle.wx_shared.specs.Seats.{context_desk, steps_left, key_of};

use crate::making::Making;
use crate::shared::Shared;
use crate::taking::{Taken, TakingReady};
use crate::telling::{Asking, Copying};
use std::sync::Wait;
use wx_context::{Listens, Target};
use wx_endpoint::Desk;
use wx_id::{ChannelNo, ContextNo, EntryNo, NoMemory, RequestNo, Utf8Text};
use wx_machine::{Answer, Call, JsonText, Who};
use wx_turn::{Seat, Turn};

/// The desk of an endpoint over a seat of the lock that the broker stands behind. Each call is one turn at most. Its
/// own entries are those of its context in the opening, so many turns, and behind them those of its seat.
#[derive(Drop)]
pub struct SeatDesk<'a, R: Wait> {
    rt: &'a R,
    lock: &'a Turn<Shared>,
    seat: Seat<Shared>,
    context: ContextNo,
    opening: u64,
    told: Option<bool>,
    ghost same_lock: { lock_of seat ≡ id lock.now },
    ghost opened: { opening ≤ length (history seat) },
    ghost bare: { joins seat ≡ [] },
}

impl<'a, R: Wait> SeatDesk<'a, R> {
    /// The desk of a context over this seat, behind an opening of so many turns.
    pub fn new(
        rt: &'a R,
        lock: &'a Turn<Shared>,
        seat: Seat<Shared>,
        context: ContextNo,
        opening: u64,
    ) -> SeatDesk<'a, R>
        requires lock { lock_of seat ≡ id lock.now }
        requires opening { opening ≤ length (history seat) }
        requires bare { joins seat ≡ [] }
        ensures seat { result.seat ≡ seat }
        ensures context { result.context ≡ context }
        ensures opening { result.opening ≡ opening }
        ensures told { result.told ≡ None }
    {
        SeatDesk {
            rt,
            lock,
            seat,
            context,
            opening,
            told: None,
        }
    }

    /// The seat; the desk ends.
    pub fn into_seat(self) -> Seat<Shared>
        ensures seat { result ≡ self.entry.seat }
        ensures bare { joins result ≡ [] }
        ensures opened { self.entry.opening ≤ length (history result) }
    {
        let SeatDesk {
            rt: _,
            lock: _,
            seat,
            context: _,
            opening: _,
            told: _,
        } = self;
        seat
    }

    /// Whether workers are told to stop, in one turn.
    fn is_told_to_stop(&mut self) -> bool
        requires step { 0 < steps_left self.old.seat }
        requires sound { IsSound (context_desk self.old.opening self.old.context self.old.seat) }
        ensures none { MakesNone (context_desk self.old.opening self.old.context self.old.seat)
            (context_desk self.new.opening self.new.context self.new.seat) }
        ensures sound { IsSound (context_desk self.new.opening self.new.context self.new.seat) }
        ensures one_step { steps_left self.old.seat ≤ steps_left self.new.seat + 1 }
        ensures same_told { self.new.told ≡ self.old.told }
        ensures same_key { key_of self.new.opening self.new.context.0 self.new.seat
            ≡ key_of self.old.opening self.old.context.0 self.old.seat }
    {
        let mut work = Asking { host: None };
        match self.lock.with_turn(self.rt, &mut self.seat, &mut work) {
            Ok(stop) => stop,
            Err(_) => true,
        }
    }

    /// One call in one turn. It comes back where no entry was made.
    fn make(&mut self, call: Call) -> Result<Answer, Call>
        requires sound { IsSound (context_desk self.old.opening self.old.context self.old.seat) }
        requires step { 0 < steps_left self.old.seat }
        ensures made { IfOk result (λ answer. MakesOne (context_desk self.old.opening self.old.context self.old.seat)
            (context_desk self.new.opening self.new.context self.new.seat) call answer) }
        ensures refused { OnErr result (MakesNone (context_desk self.old.opening self.old.context self.old.seat)
            (context_desk self.new.opening self.new.context self.new.seat)) }
        ensures returned { IfErr result (λ back. back ≡ call) }
        ensures sound { IsSound (context_desk self.new.opening self.new.context self.new.seat) }
        ensures one_step { steps_left self.old.seat ≤ steps_left self.new.seat + 1 }
        ensures same_told { self.new.told ≡ self.old.told }
        ensures same_key { key_of self.new.opening self.new.context.0 self.new.seat
            ≡ key_of self.old.opening self.old.context.0 self.old.seat }
    {
        let mut work = Making {
            who: Who::Context(self.context),
            call: Some(call),
        };
        match self.lock.with_turn(self.rt, &mut self.seat, &mut work) {
            Ok(Some(answer)) => Ok(answer),
            Ok(None) => Err(work.into_call()),
            Err(_) => Err(work.into_call()),
        }
    }
}

impl<'a, R: Wait + Sync> Desk for SeatDesk<'a, R> {
    ghost use Rattle.wx_shared.specs.Seats.{context_desk, steps_left, key_of};

    ghost state = { λ desk. context_desk desk.opening desk.context desk.seat };

    ghost steps = { λ desk. steps_left desk.seat };

    ghost told = { λ desk. desk.told };

    ghost key = { λ desk. key_of desk.opening desk.context.0 desk.seat };

    fn left(&self) -> u64 {
        self.seat.left()
    }

    fn stopped(&mut self) -> bool {
        let stop = self.seat.left() < 4 || self.is_told_to_stop();
        self.told = Some(stop);
        stop
    }

    fn listen(&mut self, l: Listens) -> Result<Answer, NoMemory> {
        match self.make(Call::Listen(l)) {
            Ok(answer) => Ok(answer),
            Err(_) => Err(NoMemory),
        }
    }

    fn leave(&mut self) -> Result<Answer, NoMemory> {
        match self.make(Call::Leave) {
            Ok(answer) => Ok(answer),
            Err(_) => Err(NoMemory),
        }
    }

    fn connect(&mut self, target: Target, name: Utf8Text) -> Result<Answer, Utf8Text> {
        match self.make(Call::Connect(target, name)) {
            Ok(answer) => Ok(answer),
            Err(Call::Connect(_, name)) => Err(name),
            Err(_) => unreachable!(),
        }
    }

    fn post(&mut self, k: ChannelNo, text: JsonText) -> Result<Answer, JsonText> {
        match self.make(Call::Post(k, text)) {
            Ok(answer) => Ok(answer),
            Err(Call::Post(_, text)) => Err(text),
            Err(_) => unreachable!(),
        }
    }

    fn disconnect(&mut self, k: ChannelNo) -> Result<Answer, NoMemory> {
        match self.make(Call::Disconnect(k)) {
            Ok(answer) => Ok(answer),
            Err(_) => Err(NoMemory),
        }
    }

    fn send(&mut self, target: Target, text: JsonText) -> Result<Answer, JsonText> {
        match self.make(Call::Send(target, text)) {
            Ok(answer) => Ok(answer),
            Err(Call::Send(_, text)) => Err(text),
            Err(_) => unreachable!(),
        }
    }

    fn reply(&mut self, r: RequestNo, text: JsonText) -> Result<Answer, JsonText> {
        match self.make(Call::Reply(r, text)) {
            Ok(answer) => Ok(answer),
            Err(Call::Reply(_, text)) => Err(text),
            Err(_) => unreachable!(),
        }
    }

    fn decline(&mut self, r: RequestNo) -> Result<Answer, NoMemory> {
        match self.make(Call::Decline(r)) {
            Ok(answer) => Ok(answer),
            Err(_) => Err(NoMemory),
        }
    }

    fn connect_native(&mut self, name: Utf8Text) -> Result<Answer, Utf8Text> {
        match self.make(Call::ConnectNative(name)) {
            Ok(answer) => Ok(answer),
            Err(Call::ConnectNative(name)) => Err(name),
            Err(_) => unreachable!(),
        }
    }

    fn send_native(
        &mut self,
        name: Utf8Text,
        text: JsonText,
    ) -> Result<Answer, (Utf8Text, JsonText)> {
        match self.make(Call::SendNative(name, text)) {
            Ok(answer) => Ok(answer),
            Err(Call::SendNative(name, text)) => Err((name, text)),
            Err(_) => unreachable!(),
        }
    }

    fn take(&mut self) -> Result<Answer, NoMemory> {
        match self.make(Call::Take) {
            Ok(answer) => Ok(answer),
            Err(_) => Err(NoMemory),
        }
    }

    fn take_ready(&mut self) -> Result<Option<Answer>, NoMemory> {
        let mut work = TakingReady {
            context: self.context,
        };
        match self.lock.with_turn(self.rt, &mut self.seat, &mut work) {
            Ok(Taken::Nothing) => Ok(None),
            Ok(Taken::Took(answer)) => Ok(Some(answer)),
            Ok(Taken::Refused) => Err(NoMemory),
            Err(_) => Err(NoMemory),
        }
    }

    fn copy_of(&mut self, e: EntryNo) -> Result<Option<JsonText>, NoMemory> {
        let mut work = Copying { entry: e };
        match self.lock.with_turn(self.rt, &mut self.seat, &mut work) {
            Ok(copy) => copy,
            Err(_) => Err(NoMemory),
        }
    }
}
