//! The pump of a host's input, and that of its output.
ghost use Rattle.std.specs.Prelude.{◌≡◌};
ghost use Rattle.wx_machine.specs.declared.entries.TheConstants.{LONGEST_SAID};
ghost use Rattle.wx_desk.specs.Desks.{IsSound};
ghost use Rattle.wx_pump.specs.Pumps.{IsInPump, IsOutPump};

use std::sync::Wait;
use wx_bell::Bell;
use wx_host_launch::{HostDesk, HostIn, HostOut, InTurn, OutTurn, in_turn, out_turn};
use wx_native_frame::FrameReader;

/// Why a pump stopped.
#[derive(Clone, Copy, Debug, PartialEq, Eq)]
pub enum PumpEnd {
    /// The last entry that it made is the host's end, or says that no text comes any more.
    Ended,
    /// It was told to stop.
    Stopped,
    /// Memory was refused.
    NoMemory,
}

/// The pump of a host's input: turn after turn, until no text comes any more, the host ends, or it is to stop. It asks
/// before each turn whether to stop, and waits at the bell where there is nothing new to take.
pub fn pump_in<R: Wait, D: HostDesk, I: HostIn, B: Bell>(
    rt: &R,
    desk: &mut D,
    input: &mut I,
    bell: &B,
) -> PumpEnd
    requires { IsSound (D.state desk.old) }
    ensures pump { IsInPump D.going (D.state desk.old) (D.state desk.new) (I.state input.old) (I.state input.new)
        (D.told desk.new) result }
    ensures sound { IsSound (D.state desk.new) }
    ensures same_key { D.key desk.new ≡ D.key desk.old }
{
    for _ in rt.forever() {
        if desk.stopped() {
            return PumpEnd::Stopped;
        }
        match in_turn(desk, input) {
            InTurn::Moved => {}
            InTurn::Waits => bell.wait(),
            InTurn::Closed => return PumpEnd::Ended,
            InTurn::Ended => return PumpEnd::Ended,
            InTurn::NoMemory => return PumpEnd::NoMemory,
        }
    }
    unreachable!()
}

/// The pump of a host's output: turn after turn, until the host ends or it is to stop. It asks before each turn whether
/// to stop, and waits at the bell where the host is to end and has a text to take first.
pub fn pump_out<R: Wait, D: HostDesk, O: HostOut, B: Bell>(
    rt: &R,
    desk: &mut D,
    reader: &mut FrameReader,
    output: &mut O,
    bell: &B,
) -> PumpEnd
    requires sound { IsSound (D.state desk.old) }
    requires limit { reader.old.limit ≡ LONGEST_SAID }
    ensures pump { IsOutPump D.going (D.state desk.old) (D.state desk.new) reader.old reader.new
        (O.state output.old) (O.state output.new) (D.told desk.new) result }
    ensures sound { IsSound (D.state desk.new) }
    ensures limit { reader.new.limit ≡ LONGEST_SAID }
    ensures same_key { D.key desk.new ≡ D.key desk.old }
{
    let _wanted = reader.wanted();
    for _ in rt.forever() {
        if desk.stopped() {
            return PumpEnd::Stopped;
        }
        match out_turn(desk, reader, output) {
            OutTurn::Moved => {}
            OutTurn::Waits => bell.wait(),
            OutTurn::Ended => return PumpEnd::Ended,
            OutTurn::NoMemory => return PumpEnd::NoMemory,
        }
    }
    unreachable!()
}
