//! Makes turns in threads, so that they can be timed from outside: `wx_turn_bench WAY THREADS TURNS ROUNDS` makes TURNS
//! turns in each of THREADS threads, and that ROUNDS times. WAY is `lock`, or `mutex` for std's lock, which has neither
//! tickets nor seats. Each round prints how many turns were made.
#![tactic(auto)]

mod plain;
mod tally;
mod ticketed;

use std::{env, io};

fn main(rt: HostRuntime) -> io::Result<()> {
    let mut words = env::args(&rt)?.skip(1);
    let (Some(way), Some(threads), Some(turns), Some(rounds)) = (
        words.next(),
        words.next(),
        words.next(),
        words.next(),
    ) else {
        return println!(rt; "wx_turn_bench WAY THREADS TURNS ROUNDS");
    };
    let (Ok(threads), Ok(turns), Ok(rounds)) = (
        threads.parse::<u64>(),
        turns.parse::<u64>(),
        rounds.parse::<u64>(),
    ) else {
        return println!(rt; "THREADS, TURNS and ROUNDS are numbers");
    };
    for _ in 0..rounds {
        let made = if way.as_str() == "lock" {
            ticketed::run(&rt, rt.alloc(), threads, turns)
        } else {
            plain::run(&rt, threads, turns)
        };
        println!(rt; "{made} turns")?;
    }
    Ok(())
}
