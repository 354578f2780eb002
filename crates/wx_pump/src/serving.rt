//! The service of a host: its start, and both of its pumps side by side.
ghost use Rattle.std.specs.Prelude.{◌≡◌};
ghost use Rattle.wx_machine.specs.declared.entries.TheConstants.{LONGEST_SAID};
ghost use Rattle.wx_desk.specs.Desks.{IsSound};
ghost use Rattle.wx_host_launch.specs.Records.{Starts};
ghost use Rattle.wx_pump.specs.Pumps.{IsInPump, IsOutPump};
ghost use Rattle.wx_pump.specs.Serving.{TellsNotStarted, start_came, told_by, IsServed};

use crate::pumps::{PumpEnd, pump_in, pump_out};
use std::alloc::Global;
use std::sync::Wait;
use std::thread::{Threads, join_mut};
use wx_bell::Bell;
use wx_host_launch::{Arguments, HostDesk, HostIn, HostOut, StartFault, Starter};
use wx_machine::{LONGEST_SAID, Reason};
use wx_native_frame::FrameReader;

/// What serving a host came to.
#[derive(Drop)]
pub enum Served<I: Drop, O: Drop> {
    /// Its program could not be started. Where that was told the host ended for it.
    NotStarted {
        told: bool,
    },
    /// Memory was refused to the start.
    NoMemory,
    /// Its pumps ran, and stopped for these causes.
    Ran {
        input: I,
        output: O,
        reader: FrameReader,
        sent: PumpEnd,
        said: PumpEnd,
    },
}

/// Both pumps of a host, each at a desk and with a bell of its own, side by side.
pub fn pump_both<R: Threads + Wait + Sync, D: HostDesk, I: HostIn, O: HostOut, B: Bell>(
    rt: &R,
    first: &mut D,
    second: &mut D,
    input: &mut I,
    reader: &mut FrameReader,
    output: &mut O,
    in_bell: &B,
    out_bell: &B,
) -> (PumpEnd, PumpEnd)
    requires first { IsSound (D.state first.old) }
    requires second { IsSound (D.state second.old) }
    requires limit { reader.old.limit ≡ LONGEST_SAID }
    ensures sent { IsInPump D.going (D.state first.old) (D.state first.new) (I.state input.old) (I.state input.new)
        (D.told first.new) result.0 }
    ensures said { IsOutPump D.going (D.state second.old) (D.state second.new) reader.old reader.new
        (O.state output.old) (O.state output.new) (D.told second.new) result.1 }
    ensures sound_first { IsSound (D.state first.new) }
    ensures sound_second { IsSound (D.state second.new) }
    ensures limit { reader.new.limit ≡ LONGEST_SAID }
    ensures same_first { D.key first.new ≡ D.key first.old }
    ensures same_second { D.key second.new ≡ D.key second.old }
{
    join_mut(
        rt,
        &mut || -> PumpEnd
            requires { IsSound (D.state first.now) }
            ensures pump { IsInPump D.going (D.state first.entry.now) (D.state first.exit.now)
                (I.state input.entry.now) (I.state input.exit.now) (D.told first.exit.now) result }
            ensures sound { IsSound (D.state first.exit.now) }
            ensures same_key { D.key first.exit.now ≡ D.key first.entry.now }
        { pump_in(rt, first, input, in_bell) },
        &mut || -> PumpEnd
            requires sound { IsSound (D.state second.now) }
            requires limit { reader.now.limit ≡ LONGEST_SAID }
            ensures pump { IsOutPump D.going (D.state second.entry.now) (D.state second.exit.now)
                reader.entry.now reader.exit.now (O.state output.entry.now) (O.state output.exit.now)
                (D.told second.exit.now) result }
            ensures sound { IsSound (D.state second.exit.now) }
            ensures limit { reader.exit.now.limit ≡ LONGEST_SAID }
            ensures same_key { D.key second.exit.now ≡ D.key second.entry.now }
        { pump_out(rt, second, reader, output, out_bell) },
    )
}

/// Tells that the host could not be started, where a step is left for that.
fn tell_not_started<D: HostDesk>(desk: &mut D) -> bool
    requires { IsSound (D.state desk.old) }
    ensures told { TellsNotStarted (D.state desk.old) (D.state desk.new) result }
    ensures sound { IsSound (D.state desk.new) }
    ensures same_told { D.told desk.new ≡ D.told desk.old }
    ensures same_key { D.key desk.new ≡ D.key desk.old }
{
    if desk.left() == 0 {
        return false;
    }
    desk.host_ended(Reason::StartFailed).is_ok()
}

/// Starts a host's program, once, and pumps until both pumps stopped: that of the input at the first desk, that of the
/// output at the second. Both count from the ends of that start and from a new reader, and these come back.
pub fn serve_host<R: Threads + Wait + Sync, P: Starter, D: HostDesk, B: Bell>(
    rt: &R,
    alloc: Global,
    starter: &mut P,
    path: &str,
    arguments: &Arguments,
    first: &mut D,
    second: &mut D,
    in_bell: &B,
    out_bell: &B,
) -> Served<P::In, P::Out>
    requires first { IsSound (D.state first.old) }
    requires second { IsSound (D.state second.old) }
    ensures start { Starts (P.state starter.old) (P.state starter.new) path.now arguments.now (start_came result) }
    ensures served { IsServed P.In.state P.Out.state D.going (P.state starter.old).writing path.now
        (told_by D.state D.told D.key first.old) (told_by D.state D.told D.key first.new)
        (told_by D.state D.told D.key second.old) (told_by D.state D.told D.key second.new) result }
    ensures sound_first { IsSound (D.state first.new) }
    ensures sound_second { IsSound (D.state second.new) }
    ensures same_first { D.key first.new ≡ D.key first.old }
    ensures same_second { D.key second.new ≡ D.key second.old }
{
    match starter.start(path, arguments) {
        Ok((mut input, mut output)) => {
            let mut reader = FrameReader::new(alloc, LONGEST_SAID as u32);
            let (sent, said) = pump_both(
                rt,
                first,
                second,
                &mut input,
                &mut reader,
                &mut output,
                in_bell,
                out_bell,
            );
            Served::Ran {
                input,
                output,
                reader,
                sent,
                said,
            }
        }
        Err(StartFault::Failed) => Served::NotStarted {
            told: tell_not_started(first),
        },
        Err(StartFault::NoMemory) => Served::NoMemory,
    }
}
