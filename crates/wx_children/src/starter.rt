//! The starter of child programs.
ghost use Rattle.std.specs.Prelude.{◌≡◌, ◌+◌, ◌≤◌, [], None, IfOk, IfSome, map};
ghost use Rattle.std.specs.Vec.{vec_len, vec_capacity};
ghost use Rattle.wx_children.specs.Counts.{record_of, fresh_starter};
ghost use Rattle.wx_children.specs.Ends.{IsNew};
ghost use Rattle.wx_host_launch.specs.Records.{faults_in};

use crate::command::{command_of, folder_of};
use crate::ends::{ChildIn, ChildOut};
use crate::line::{Line, WAITS, wait_or_kill};
use crate::pipes::{PipeFeed, PipeSource};
use std::alloc::{Alloc, AllocError, Global};
use std::env;
use std::io::ErrorKind;
use std::os::fd::AsRawFd;
use std::process::{Child, Command, Processes, SystemProcess};
use std::rt::Env;
use std::sync::{Arc, Mutex, Wait};
use wx_host_launch::{Arguments, HostIn, HostOut, StartFault, Starter};
use wx_id::NoMemory;

/// After how many seconds a silent child is ended, unless another number is set.
const SECONDS: u64 = 60;

/// The most seconds that may be set: a day.
const MOST_SECONDS: u64 = 86_400;

/// After how many seconds a silent child is ended: what `WX_HOST_SECONDS` sets, a whole number from 1 to 86,400, or
/// else 60.
pub fn host_seconds<R: Env + Alloc>(rt: &R) -> u64
    ensures most { result ≤ 86400 }
{
    match env::var(rt, "WX_HOST_SECONDS") {
        Ok(text) => match text.as_str().parse::<u64>() {
            Ok(seconds) if seconds > 0 && seconds <= MOST_SECONDS => seconds,
            _ => SECONDS,
        },
        Err(_) => SECONDS,
    }
}

/// How often a slot was started, and how many of its starts, reads and writes have failed.
#[derive(Clone, Copy, Drop)]
pub struct Counts {
    pub starts: u64,
    pub failed_starts: u64,
    pub failed_reads: u64,
    pub failed_writes: u64,
}

impl Counts {
    /// How many of its starts, reads and writes have failed.
    pub fn faults(&self) -> u64
        ensures { result ≡ faults_in (record_of self.now) }
    {
        self.failed_starts
            .saturating_add(self.failed_reads)
            .saturating_add(self.failed_writes)
    }
}

/// Nothing was started, and nothing has failed.
const NONE: Counts = Counts {
    starts: 0,
    failed_starts: 0,
    failed_reads: 0,
    failed_writes: 0,
};

/// Starts child programs, each in its own folder and with our environment. What a child writes on its standard error
/// goes to ours.
#[derive(Drop)]
pub struct ChildStarter<R> {
    runtime: R,
    alloc: Global,
    /// After how many seconds a silent child is ended.
    seconds: u64,
    slot: Counts,
    records: Vec<Counts>,
    places: usize,
    taken_over: u64,
    ghost kept: { vec_len records + places ≤ vec_capacity records },
}

impl<R: Processes<Started = SystemProcess> + Wait + Copy + Send + Drop> ChildStarter<R> {
    /// A starter over these processes, which ends a child that is silent for so many seconds. Nothing was started.
    pub fn new(runtime: R, alloc: Global, seconds: u64) -> Self
        ensures { ⟦<ChildStarter<R> as Starter>⟧.state result ≡ fresh_starter }
    {
        ChildStarter {
            runtime,
            alloc,
            seconds,
            slot: NONE,
            records: Vec::new(alloc),
            places: 0,
            taken_over: 0,
        }
    }
}

impl<R: Processes<Started = SystemProcess> + Wait + Copy + Drop> ChildStarter<R> {
    /// A line without a child.
    fn empty_line(&self) -> Result<(Arc<Mutex<Line>>, Arc<Mutex<Line>>), AllocError> {
        let line = Line {
            child: None,
            output: None,
            held: Vec::new(self.alloc),
            at: 0,
        };
        let one = Arc::new(self.alloc, Mutex::new(line))?;
        let other = one.clone()?;
        Ok((one, other))
    }

    /// Runs this command, and hands out the ends of the child's pipe.
    fn run(&self, command: &mut Command) -> Result<Ends<R>, StartFault>
        ensures { IfOk result (λ ends.
            IsNew ends.input.closed ends.input.faults ends.output.source.over ends.output.faults) }
    {
        let Ok((near, far)) = self.empty_line() else {
            return Err(StartFault::NoMemory);
        };
        match command.spawn(&self.runtime) {
            Ok(child) => match self.ends_of(child, near, far) {
                Some(ends) => Ok(ends),
                None => Err(StartFault::Failed),
            },
            Err(e) if e.kind() == ErrorKind::OutOfMemory => Err(StartFault::NoMemory),
            Err(_) => Err(StartFault::Failed),
        }
    }

    /// The ends of a child's pipe, where it has both; else the child is ended.
    fn ends_of(
        &self,
        mut child: Child,
        near: Arc<Mutex<Line>>,
        far: Arc<Mutex<Line>>,
    ) -> Option<Ends<R>>
        ensures { IfSome result (λ ends.
            IsNew ends.input.closed ends.input.faults ends.output.source.over ends.output.faults) }
    {
        let waits = self.seconds.saturating_mul(WAITS);
        if let (Some(input), Some(output)) = (child.stdin.take(), child.stdout.take()) {
            let number = output.as_raw_fd();
            near.lock(&self.runtime).hold(child, output);
            let feed = PipeFeed {
                runtime: self.runtime,
                input: Some(input),
                line: near,
                output: number,
                waits,
            };
            let source = PipeSource {
                runtime: self.runtime,
                line: far,
                output: number,
                over: false,
                waits,
            };
            return Some(Ends {
                input: ChildIn {
                    feed,
                    closed: false,
                    faults: 0,
                },
                output: ChildOut { source, faults: 0 },
            });
        }
        wait_or_kill(&mut child);
        None
    }

    /// Starts a program in its own folder. A path that is not absolute names none.
    fn launch(&self, path: &str, arguments: &Arguments) -> Result<Ends<R>, StartFault>
        ensures { IfOk result (λ ends.
            IsNew ends.input.closed ends.input.faults ends.output.source.over ends.output.faults) }
    {
        if !path.starts_with('/') {
            return Err(StartFault::Failed);
        }
        match command_of(self.alloc, path, folder_of(path), arguments) {
            Ok(mut command) => self.run(&mut command),
            Err(AllocError) => Err(StartFault::NoMemory),
        }
    }
}

/// The two ends of a child's pipe.
#[derive(Drop)]
struct Ends<R> {
    input: ChildIn<PipeFeed<R>>,
    output: ChildOut<PipeSource<R>>,
}

impl<R: Processes<Started = SystemProcess> + Wait + Copy + Send + Drop> Starter
    for ChildStarter<R> {
    type In = ChildIn<PipeFeed<R>>;

    type Out = ChildOut<PipeSource<R>>;

    ghost state = { λ starter. record {
      writing = None;
      slot = record_of starter.slot;
      records = map record_of starter.records.items;
      places = starter.places;
      taken_over = starter.taken_over;
    } };

    fn faults(&self) -> u64 {
        self.taken_over.saturating_add(self.slot.faults())
    }

    fn start(
        &mut self,
        path: &str,
        arguments: &Arguments,
    ) -> Result<(ChildIn<PipeFeed<R>>, ChildOut<PipeSource<R>>), StartFault> {
        match self.launch(path, arguments) {
            Ok(ends) => {
                self.slot.starts = self.slot.starts.saturating_add(1);
                Ok((ends.input, ends.output))
            }
            Err(StartFault::Failed) => {
                self.slot.starts = self.slot.starts.saturating_add(1);
                self.slot.failed_starts = self.slot.failed_starts.saturating_add(1);
                Err(StartFault::Failed)
            }
            Err(StartFault::NoMemory) => Err(StartFault::NoMemory),
        }
    }

    fn another(&mut self) -> Result<Self, NoMemory> {
        if self.records.reserve(self.places + 1).is_err() {
            return Err(NoMemory);
        }
        self.places += 1;
        Ok(ChildStarter {
            runtime: self.runtime,
            alloc: self.alloc,
            seconds: self.seconds,
            slot: NONE,
            records: Vec::new(self.alloc),
            places: 0,
            taken_over: 0,
        })
    }

    fn finish(&mut self, mut input: ChildIn<PipeFeed<R>>, output: ChildOut<PipeSource<R>>) {
        input.close();
        self.slot.failed_reads = self.slot.failed_reads.saturating_add(output.faults());
        self.slot.failed_writes = self.slot.failed_writes.saturating_add(input.faults());
        output.source.line.lock(&self.runtime).finish();
    }

    fn absorb(&mut self, other: Self) {
        self.taken_over = self.taken_over.saturating_add(other.faults());
        self.places -= 1;
        let _ = self.records.push(other.slot);
    }
}
