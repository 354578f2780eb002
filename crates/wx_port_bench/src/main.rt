//! Opens channels of contexts that stay, and then three for each of some contexts that leave, so that a leave can be
//! timed from outside: `wx_port_bench STAY LEAVE how`, where `how` is `leave`, or `open` for the same without leaves.
//! Prints how many channels were opened, and the number of the first that is open at a context that stays.
#![tactic(auto)]

ghost use Rattle.std.specs.Prelude.{◌≡◌, ◌==◌, false};

use std::alloc::{AllocError, Global};
use std::{env, io};
use wx_id::{ChannelNo, ContextNo};
use wx_port::Ports;

/// The context that opens the channels of those who stay, and the one that receives all.
const OPENER: ContextNo = ContextNo(0);

const RECEIVER: ContextNo = ContextNo(1);

/// Opens a channel from this context to the receiver of all.
fn open_one(alloc: Global, ports: &mut Ports, opener: u64) -> Result<(), AllocError>
    requires other { (1 == opener) ≡ false }
{
    let mut receivers = Vec::new(alloc);
    receivers.push(RECEIVER)?;
    match ports.open(ContextNo(opener), receivers) {
        Ok(_) => Ok(()),
        Err(_) => Err(AllocError),
    }
}

/// A context opens three channels, and leaves or stays.
fn come_and_go(
    alloc: Global,
    ports: &mut Ports,
    context: u64,
    leaves: bool,
) -> Result<(), AllocError>
    requires other { (1 == context) ≡ false }
{
    for _ in 0..3 {
        open_one(alloc, ports, context)?;
    }
    if leaves {
        ports.leave(ContextNo(context));
    }
    Ok(())
}

/// So many channels of contexts that stay, and then so many contexts that come and go.
fn fill(alloc: Global, stay: u32, leave: u32, leaves: bool) -> Result<Ports, AllocError> {
    let mut ports = Ports::new(alloc);
    for _ in 0..stay {
        open_one(alloc, &mut ports, OPENER.0)?;
    }
    for i in 0..leave {
        come_and_go(alloc, &mut ports, 2 + u64::from(i), leaves)?;
    }
    Ok(ports)
}

fn main(rt: HostRuntime) -> io::Result<()> {
    let mut words = env::args(&rt)?.skip(1);
    let (Some(stay), Some(leave), Some(how)) = (words.next(), words.next(), words.next()) else {
        return println!(rt; "wx_port_bench STAY LEAVE open|leave");
    };
    let (Ok(stay), Ok(leave)) = (stay.parse::<u32>(), leave.parse::<u32>()) else {
        return println!(rt; "STAY and LEAVE are numbers");
    };
    match fill(rt.alloc(), stay, leave, how.as_str() == "leave") {
        Err(_) => println!(rt; "no memory"),
        Ok(ports) => match ports.next_of(RECEIVER, ChannelNo(stay.into())) {
            None => println!(rt; "{} channels, none open of those who came", ports.count()),
            Some(channel) => println!(rt; "{} channels, {} is open", ports.count(), channel.0),
        },
    }
}
