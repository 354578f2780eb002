//! Child programs by the starter that `main` hands in: programs that each Debian system has, and paths that have none.
#![tactic(auto)]

use std::alloc::Global;
use std::io;
use wx_children::ChildStarter;
use wx_host_launch::{Arguments, HostIn, HostOut, Starter};
use wx_host_manifest::HostManifest;
use wx_id::ExtensionId;

const MANIFEST: &[u8] =
    b"{\"name\":\"e\",\"description\":\"d\",\"path\":\"/e\",\"type\":\"stdio\",\"allowed_origins\":[\"chrome-extension://aaaaaaaaaaaaaaaaaaaaaaaaaaaaaaaa/\"]}";

/// What hosts are started with: the origin of their caller.
fn arguments(alloc: Global) -> Option<Arguments> {
    let manifest = HostManifest::read(alloc, "e.json", MANIFEST).ok()?;
    let caller = ExtensionId::read(b"aaaaaaaaaaaaaaaaaaaaaaaaaaaaaaaa").ok()?;
    manifest.arguments(alloc, &caller).ok()
}

/// Reads until the room is full, the output has ended or a read has failed: how many bytes came.
fn read_full<O: HostOut>(output: &mut O, room: &mut [u8]) -> usize {
    let mut came = 0;
    for _ in 0..64u64 {
        if came >= room.len() {
            break;
        }
        match output.read(&mut room[came..]) {
            Ok(count) if count > 0 => came = came.saturating_add(count),
            _ => break,
        }
    }
    came
}

/// What a program comes to.
#[derive(Drop)]
struct Outcome {
    started: bool,
    /// How many bytes came.
    came: usize,
}

/// Starts a program, sends it these bytes, and reads as many as there is room for.
fn play<S: Starter>(
    mut starter: S,
    path: &str,
    arguments: &Arguments,
    bytes: &[u8],
    room: &mut [u8],
) -> Outcome {
    match starter.start(path, arguments) {
        Ok((mut input, mut output)) => {
            // One that has ended already may or may not take them.
            let _ = input.write(bytes);
            let came = read_full(&mut output, room);
            starter.finish(input, output);
            Outcome {
                started: true,
                came,
            }
        }
        Err(_) => Outcome {
            started: false,
            came: 0,
        },
    }
}

fn main(rt: HostRuntime) -> io::Result<()> {
    let Some(arguments) = arguments(rt.alloc()) else {
        return println!(rt; "no arguments");
    };
    // The programs echo, write without end, exit at once, are missing, and are a folder.
    let rows: [(&str, usize); 5] = [
        ("/usr/bin/tee", 5),
        ("/usr/bin/yes", 19),
        ("/bin/true", 0),
        ("/nowhere/host", 0),
        ("/usr", 0),
    ];
    for (path, wanted) in &rows {
        let starter = ChildStarter::new(rt, rt.alloc(), 20);
        let mut room = [0u8; 19];
        let outcome = play(
            starter,
            path,
            &arguments,
            b"\x01\x00\x00\x001",
            &mut room[..(*wanted).min(19)],
        );
        println!(rt;
            "{path}: started {}, came {} of {wanted}",
            outcome.started, outcome.came
        )?;
    }
    Ok(())
}
