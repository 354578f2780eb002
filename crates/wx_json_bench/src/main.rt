//! Checks a file's bytes a number of times, so that the check can be timed from outside:
//! `wx_json_bench FILE TIMES PIECE` gives the bytes in pieces of so many and prints a line each time.
#![tactic(auto)]

ghost use Rattle.std.specs.Prelude.{◌<◌, MatchResult};
ghost use Rattle.wx_json.specs.Text.{IsJsonText, IsEndFault};

use std::{env, fs, io};
use wx_json::{JsonCheck, JsonFault};

/// Whether the bytes are a JSON text, as `wx_json::check`, given piece by piece.
fn check_in_pieces(bytes: &[u8], piece: usize) -> Result<(), JsonFault>
    requires { 0 < piece }
    ensures { MatchResult result (λ _. IsJsonText bytes.now) (IsEndFault bytes.now) }
{
    let mut check = JsonCheck::new();
    let mut at = 0;
    while at < bytes.len() {
        let end = at + piece.min(bytes.len() - at);
        let _ = check.step(&bytes[at..end]);
        at = end;
    }
    check.finish()
}

fn main(rt: HostRuntime) -> io::Result<()> {
    let mut words = env::args(&rt)?.skip(1);
    let (Some(file), Some(times), Some(piece)) = (words.next(), words.next(), words.next()) else {
        return println!(rt; "wx_json_bench FILE TIMES PIECE");
    };
    let (Ok(times), Ok(piece)) = (times.parse::<u32>(), piece.parse::<u32>()) else {
        return println!(rt; "TIMES and PIECE are numbers");
    };
    let bytes = fs::read(&rt, file.as_str())?;
    for _ in 0..times {
        match check_in_pieces(&bytes, piece.max(1) as usize) {
            Ok(()) => println!(rt; "ok")?,
            Err(fault) => println!(rt; "{:?} at {}", fault.kind, fault.place)?,
        }
    }
    Ok(())
}
