//! The slot of one native host of a run.
ghost use Rattle.std.specs.Prelude.{◌≡◌, ◌<◌, true, false, length, reverse, Option, Some, None, IsSome, IfOk, OnOk};
ghost use Rattle.wx_machine.specs.declared.entries.TheConstants.{LONGEST_SAID};
ghost use Rattle.wx_machine.specs.Answers.{IsLegal, is_host_ready};
ghost use Rattle.wx_machine.specs.Hosts.{hosts};
ghost use Rattle.wx_host_launch.specs.Records.{Program, Starts, AreFresh};
ghost use Rattle.wx_host_launch.specs.Turns.{IsInTurn, IsOutTurn};
ghost use Rattle.wx_machine.specs.declared.entries.Who.TheVariants as Who;
ghost use Rattle.wx_desk.specs.BrokerDesks.{desk_over};
ghost use Rattle.wx_host_slot.specs.Journals.{program_of};
ghost use Rattle.wx_host_slot.specs.Slots.{
  slot_of,
  waiting_slot,
  closing_starter,
  host_limit,
  Stands,
  WasStarted,
  is_spent_at,
  turns_left,
  CameTo,
  IsServed,
  IsStarted,
  HasSaidOrEnded,
};
ghost use Rattle.wx_host_slot.specs.Turns.{HostTurn, SaysOrEnds};

use std::alloc::Global;
use std::marker::Model;
use wx_broker::Broker;
use wx_desk::BrokerDesk;
use wx_host_launch::{
    HostDesk, HostIn, HostOut, InTurn, OutTurn, StartFault, Starter, in_turn, out_turn,
};
use wx_id::{HostNo, NoMemory};
use wx_machine::{LONGEST_SAID, Reason};
use wx_native_frame::FrameReader;

/// A started child: the two ends of its pipe, and the reader of what it writes.
#[derive(Drop)]
pub struct Child<I: HostIn, O: HostOut> {
    input: I,
    output: O,
    reader: FrameReader,
}

/// The slot of one native host of a run: its starter, and its child once that was started.
#[derive(Drop)]
pub struct HostSlot<P: Starter> {
    starter: P,
    child: Option<Child<P::In, P::Out>>,
    /// Whether its program could not be started.
    failed: bool,
    /// How many entries its host has made.
    made: u64,
    ended: bool,
}

/// What a host's turn after those of the endpoints came to.
#[derive(Clone, Copy, Debug, PartialEq, Eq)]
pub enum Served {
    /// It made an entry, or its program was started.
    Moved,
    /// It did nothing, as there was nothing to take.
    Rested,
}

impl<I: HostIn, O: HostOut> Model for Child<I, O> {
    ghost use Rattle.wx_host_slot.specs.Slots.{ChildState};

    ghost Value = { ChildState };

    ghost view = { λ child. record {
      input = I.state child.input;
      output = O.state child.output;
      reader = child.reader;
    } };
}

impl<P: Starter> Model for HostSlot<P> {
    ghost use Rattle.wx_host_slot.specs.Slots.{SlotView};

    ghost Value = { SlotView P };

    ghost view = { λ slot. record {
      starter = slot.starter;
      child = slot.child;
      failed = slot.failed;
      made = slot.made;
      ended = slot.ended;
    } };
}

/// Starts the program of host h with the origin of its caller.
fn launch<P: Starter>(
    starter: &mut P,
    alloc: Global,
    broker: &Broker,
    h: HostNo,
) -> Result<(P::In, P::Out), StartFault>
    requires legal { IsLegal broker.now.world broker.now.entries }
    requires host { h.0 < length (hosts (reverse broker.now.entries)) }
    ensures known { IsSome (program_of broker.now.world (reverse broker.now.entries) h) }
    ensures slot { (p : Program) → program_of broker.now.world (reverse broker.now.entries) h ≡ Some p
        → Starts (P.state starter.old) (P.state starter.new) p.path p.arguments result }
    ensures ends { (p : Program) → program_of broker.now.world (reverse broker.now.entries) h ≡ Some p
        → IfOk result (λ ends. AreFresh (P.state starter.old).writing p.path (P.In.state ends.0) (P.Out.state ends.1)) }
{
    let Some(view) = broker.host(h) else {
        unreachable!()
    };
    let Some(manifest) = broker.world().host(view.manifest) else {
        unreachable!()
    };
    match manifest.arguments(alloc, &view.caller) {
        Ok(arguments) => starter.start(manifest.path(), &arguments),
        Err(NoMemory) => Err(StartFault::NoMemory),
    }
}

/// One turn of a child's input.
fn take_next<I: HostIn, O: HostOut>(
    child: Child<I, O>,
    desk: &mut BrokerDesk,
    h: HostNo,
) -> (Child<I, O>, InTurn)
    requires legal { IsLegal desk.old.broker.world desk.old.broker.entries }
    requires host { h.0 < length (hosts (reverse desk.old.broker.entries)) }
    ensures turn { IsInTurn (desk_over Who.Host h desk.old.broker) (desk_over Who.Host h desk.new.broker)
        child.input result.0.input result.1 }
    ensures same { result.0 ≡ record child { input = result.0.input } }
    ensures legal { IsLegal desk.old.broker.world desk.new.broker.entries }
    ensures same_world { desk.new.broker.world ≡ desk.old.broker.world }
{
    desk.host = h;
    let Child {
        mut input,
        output,
        reader,
    } = child;
    let came = in_turn(desk, &mut input);
    let child = Child {
        input,
        output,
        reader,
    };
    (child, came)
}

/// One turn of a child's output.
fn hear_next<I: HostIn, O: HostOut>(
    child: Child<I, O>,
    desk: &mut BrokerDesk,
    h: HostNo,
) -> (Child<I, O>, OutTurn)
    requires legal { IsLegal desk.old.broker.world desk.old.broker.entries }
    requires host { h.0 < length (hosts (reverse desk.old.broker.entries)) }
    requires limit { child.reader.limit ≡ LONGEST_SAID }
    ensures turn { IsOutTurn (desk_over Who.Host h desk.old.broker) (desk_over Who.Host h desk.new.broker)
        child.reader result.0.reader child.output result.0.output result.1 }
    ensures same { result.0 ≡ record child { output = result.0.output; reader = result.0.reader } }
    ensures limit { result.0.reader.limit ≡ LONGEST_SAID }
    ensures legal { IsLegal desk.old.broker.world desk.new.broker.entries }
    ensures same_world { desk.new.broker.world ≡ desk.old.broker.world }
{
    desk.host = h;
    let Child {
        input,
        mut output,
        mut reader,
    } = child;
    let came = out_turn(desk, &mut reader, &mut output);
    let child = Child {
        input,
        output,
        reader,
    };
    (child, came)
}

impl<P: Starter> HostSlot<P> {
    /// The slot of a host that was not started yet.
    pub fn new(starter: P) -> Self
        ensures { slot_of P.state result ≡ waiting_slot (P.state starter) }
    {
        HostSlot {
            starter,
            child: None,
            failed: false,
            made: 0,
            ended: false,
        }
    }

    /// Whether the host has ended.
    pub fn has_ended(&self) -> bool
        ensures { result ≡ self.now.ended }
    {
        self.ended
    }

    /// Whether the host has made as many entries as it may, and has not ended.
    pub fn is_spent(&self) -> bool
        ensures { result ≡ is_spent_at (slot_of P.state self.now) }
    {
        self.made >= 65_536 && !self.ended
    }

    /// The turn of host h after those of the endpoints: where nothing was started yet its program is started; then it
    /// takes, where that has something new to tell.
    pub fn serve(
        &mut self,
        alloc: Global,
        desk: &mut BrokerDesk,
        h: HostNo,
    ) -> Result<Served, NoMemory>
        requires legal { IsLegal desk.old.broker.world desk.old.broker.entries }
        requires host { h.0 < length (hosts (reverse desk.old.broker.entries)) }
        requires stands { Stands (P.state self.old.starter).writing desk.old.broker.world
            (reverse desk.old.broker.entries) h (slot_of P.state self.old) }
        requires unspent { is_spent_at (slot_of P.state self.old) ≡ false }
        ensures turn { OnOk result (HostTurn (¬ WasStarted (slot_of P.state self.old)) h
            (reverse desk.old.broker.entries) (reverse desk.new.broker.entries)) }
        ensures stands { OnOk result (Stands (P.state self.old.starter).writing desk.old.broker.world
            (reverse desk.new.broker.entries) h (slot_of P.state self.new)) }
        ensures started { OnOk result (WasStarted (slot_of P.state self.new)) }
        ensures came { IfOk result (CameTo h (reverse desk.old.broker.entries) (reverse desk.new.broker.entries)
            (slot_of P.state self.old) (slot_of P.state self.new)) }
        ensures legal { OnOk result (IsLegal desk.old.broker.world desk.new.broker.entries) }
        ensures same_world { OnOk result (desk.new.broker.world ≡ desk.old.broker.world) }
    {
        if self.ended {
            return Ok(Served::Rested);
        }
        if self.child.is_none() {
            self.start_and_take(alloc, desk, h)
        } else {
            self.take(desk, h)
        }
    }

    /// Starts the program of host h, or ends the host where that fails.
    fn start(&mut self, alloc: Global, desk: &mut BrokerDesk, h: HostNo) -> Result<(), NoMemory>
        requires legal { IsLegal desk.old.broker.world desk.old.broker.entries }
        requires host { h.0 < length (hosts (reverse desk.old.broker.entries)) }
        requires stands { Stands (P.state self.old.starter).writing desk.old.broker.world
            (reverse desk.old.broker.entries) h (slot_of P.state self.old) }
        requires unended { self.old.ended ≡ false }
        requires none { self.old.child ≡ None }
        ensures started { OnOk result (IsStarted (P.state self.old.starter).writing desk.old.broker.world h
            (reverse desk.old.broker.entries) (reverse desk.new.broker.entries) (slot_of P.state self.old)
            (slot_of P.state self.new)) }
        ensures legal { OnOk result (IsLegal desk.old.broker.world desk.new.broker.entries) }
        ensures same_world { OnOk result (desk.new.broker.world ≡ desk.old.broker.world) }
    {
        if self.failed {
            return self.tell_failed(desk, h);
        }
        match launch(&mut self.starter, alloc, &desk.broker, h) {
            Ok((input, output)) => {
                self.child = Some(Child {
                    input,
                    output,
                    reader: FrameReader::new(alloc, LONGEST_SAID as u32),
                });
                Ok(())
            }
            Err(StartFault::Failed) => {
                self.failed = true;
                self.tell_failed(desk, h)
            }
            Err(StartFault::NoMemory) => Err(NoMemory),
        }
    }

    /// Host h ends, as its program could not be started.
    fn tell_failed(&mut self, desk: &mut BrokerDesk, h: HostNo) -> Result<(), NoMemory>
        requires legal { IsLegal desk.old.broker.world desk.old.broker.entries }
        requires host { h.0 < length (hosts (reverse desk.old.broker.entries)) }
        requires stands { Stands (P.state self.old.starter).writing desk.old.broker.world
            (reverse desk.old.broker.entries) h (slot_of P.state self.old) }
        requires unended { self.old.ended ≡ false }
        requires none { self.old.child ≡ None }
        requires failed { self.old.failed ≡ true }
        ensures started { OnOk result (IsStarted (P.state self.old.starter).writing desk.old.broker.world h
            (reverse desk.old.broker.entries) (reverse desk.new.broker.entries) (slot_of P.state self.old)
            (slot_of P.state self.new)) }
        ensures legal { OnOk result (IsLegal desk.old.broker.world desk.new.broker.entries) }
        ensures same_world { OnOk result (desk.new.broker.world ≡ desk.old.broker.world) }
    {
        desk.host = h;
        desk.host_ended(Reason::StartFailed)?;
        self.made = 1;
        self.ended = true;
        Ok(())
    }

    /// Starts the program of host h; then it takes, where that has something new to tell.
    fn start_and_take(
        &mut self,
        alloc: Global,
        desk: &mut BrokerDesk,
        h: HostNo,
    ) -> Result<Served, NoMemory>
        requires legal { IsLegal desk.old.broker.world desk.old.broker.entries }
        requires host { h.0 < length (hosts (reverse desk.old.broker.entries)) }
        requires stands { Stands (P.state self.old.starter).writing desk.old.broker.world
            (reverse desk.old.broker.entries) h (slot_of P.state self.old) }
        requires unended { self.old.ended ≡ false }
        requires none { self.old.child ≡ None }
        ensures served { IfOk result (λ served. IsServed (P.state self.old.starter).writing desk.old.broker.world h
            (reverse desk.old.broker.entries) (reverse desk.new.broker.entries) (slot_of P.state self.old)
            (slot_of P.state self.new) served) }
        ensures legal { OnOk result (IsLegal desk.old.broker.world desk.new.broker.entries) }
        ensures same_world { OnOk result (desk.new.broker.world ≡ desk.old.broker.world) }
    {
        self.start(alloc, desk, h)?;
        if !self.ended {
            self.take(desk, h)?;
        }
        Ok(Served::Moved)
    }

    /// Host h, whose child runs, takes, where that has something new to tell.
    fn take(&mut self, desk: &mut BrokerDesk, h: HostNo) -> Result<Served, NoMemory>
        requires legal { IsLegal desk.old.broker.world desk.old.broker.entries }
        requires host { h.0 < length (hosts (reverse desk.old.broker.entries)) }
        requires stands { Stands (P.state self.old.starter).writing desk.old.broker.world
            (reverse desk.old.broker.entries) h (slot_of P.state self.old) }
        requires unended { self.old.ended ≡ false }
        requires started { IsSome self.old.child }
        requires room { self.old.made < host_limit }
        ensures served { IfOk result (λ served. IsServed (P.state self.old.starter).writing desk.old.broker.world h
            (reverse desk.old.broker.entries) (reverse desk.new.broker.entries) (slot_of P.state self.old)
            (slot_of P.state self.new) served) }
        ensures legal { OnOk result (IsLegal desk.old.broker.world desk.new.broker.entries) }
        ensures same_world { OnOk result (desk.new.broker.world ≡ desk.old.broker.world) }
    {
        let Some(child) = self.child.take() else {
            unreachable!()
        };
        let (child, came) = take_next(child, desk, h);
        self.child = Some(child);
        match came {
            InTurn::Moved | InTurn::Closed => {
                self.made += 1;
                Ok(Served::Moved)
            }
            InTurn::Waits => Ok(Served::Rested),
            InTurn::Ended => {
                self.made += 2;
                self.ended = true;
                Ok(Served::Moved)
            }
            InTurn::NoMemory => Err(NoMemory),
        }
    }

    /// The turn of host h where nobody else can do anything: what its child writes is read up to the end of a frame,
    /// and said; or the host ends.
    pub fn hear(&mut self, desk: &mut BrokerDesk, h: HostNo) -> Result<(), NoMemory>
        requires legal { IsLegal desk.old.broker.world desk.old.broker.entries }
        requires host { h.0 < length (hosts (reverse desk.old.broker.entries)) }
        requires stands { Stands (P.state self.old.starter).writing desk.old.broker.world
            (reverse desk.old.broker.entries) h (slot_of P.state self.old) }
        requires unspent { is_spent_at (slot_of P.state self.old) ≡ false }
        requires unended { self.old.ended ≡ false }
        requires started { WasStarted (slot_of P.state self.old) }
        requires none_to_take { is_host_ready (reverse desk.old.broker.entries) h ≡ false }
        ensures turn { OnOk result (SaysOrEnds h (reverse desk.old.broker.entries) (reverse desk.new.broker.entries)) }
        ensures stands { OnOk result (Stands (P.state self.old.starter).writing desk.old.broker.world
            (reverse desk.new.broker.entries) h (slot_of P.state self.new)) }
        ensures started { OnOk result (WasStarted (slot_of P.state self.new)) }
        ensures less { OnOk result (turns_left (slot_of P.state self.new) < turns_left (slot_of P.state self.old)) }
        ensures legal { OnOk result (IsLegal desk.old.broker.world desk.new.broker.entries) }
        ensures same_world { OnOk result (desk.new.broker.world ≡ desk.old.broker.world) }
    {
        let Some(child) = self.child.take() else {
            unreachable!()
        };
        let (child, came) = hear_next(child, desk, h);
        self.child = Some(child);
        match came {
            OutTurn::Moved => {
                self.made += 1;
                Ok(())
            }
            OutTurn::Waits => unreachable!(),
            OutTurn::Ended => {
                self.made += 1;
                self.ended = true;
                Ok(())
            }
            OutTurn::NoMemory => Err(NoMemory),
        }
    }

    /// Finishes the child, where one was started: the slot's starter, with the host's record.
    pub fn finish(self) -> P
        ensures { P.state result ≡ closing_starter (slot_of P.state self) }
    {
        let HostSlot {
            mut starter,
            child,
            failed: _,
            made: _,
            ended: _,
        } = self;
        if let Some(child) = child {
            let Child {
                input,
                output,
                reader: _,
            } = child;
            starter.finish(input, output);
        }
        starter
    }
}
