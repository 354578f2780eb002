//! The near side of a child's pipes: what is read ahead of its output, and the child itself.
ghost use Rattle.std.specs.Prelude.{◌≡◌, ◌≤◌, length};
ghost use Rattle.wx_children.specs.Lines.{IsWithin};

use libc::net::{POLLIN, poll};
use libc::types::pollfd;
use std::io::{ErrorKind, Read};
use std::os::fd::AsRawFd;
use std::process::{Child, ChildStdout};

/// How many milliseconds one wait takes at most.
pub(crate) const SLICE: i32 = 100;

/// How many such waits a second has.
pub(crate) const WAITS: u64 = 10;

/// How many bytes are read ahead of the reader at most: as many as the longest text has.
const AHEAD: usize = 67_108_864;

/// How many bytes are read ahead at once.
const PIECE: usize = 65_536;

/// How often an ending child is asked for its status before it is killed, and the milliseconds in between: 2 seconds.
const ASKED: u32 = 400;

const PAUSE: i32 = 5;

/// What waits for a descriptor. A negative one is passed over.
pub(crate) fn asking(fd: i32, events: i16) -> pollfd {
    pollfd {
        fd,
        events,
        revents: 0,
    }
}

/// Whether a read of this descriptor will not wait. It is waited for at most so many milliseconds.
pub(crate) fn is_readable(fd: i32, millis: i32) -> bool {
    let mut asked = [asking(fd, POLLIN)];
    poll(&mut asked, millis) != 0 && asked[0].revents != 0
}

/// Waits so many milliseconds.
fn pause(millis: i32) {
    let _ = is_readable(-1, millis);
}

/// A child and its output, of which bytes may be read ahead.
#[derive(Drop)]
pub(crate) struct Line {
    pub child: Option<Child>,
    pub output: Option<ChildStdout>,
    pub held: Vec<u8>,
    pub at: usize,
}

/// What a child's output has at once.
#[derive(Clone, Copy)]
pub(crate) enum Now {
    /// So many bytes; none at its end.
    Came(usize),
    /// Nothing yet.
    Nothing,
    /// A read failed.
    Failed,
}

/// Reads once, where that does not wait.
fn read_now(output: &mut ChildStdout, buf: &mut [u8]) -> Now
    ensures size { length buf.new ≡ length buf.old }
    ensures room { IsWithin result (length buf.new) }
{
    if !is_readable(output.as_raw_fd(), 0) {
        return Now::Nothing;
    }
    match output.read(buf) {
        Ok(count) => Now::Came(count),
        Err(e) if e.kind() == ErrorKind::Interrupted => Now::Nothing,
        Err(_) => Now::Failed,
    }
}

/// Moves bytes into the room, as many as it has places for, and says how many.
fn put_front(room: &mut [u8], bytes: &[u8]) -> usize
    ensures size { length room.new ≡ length room.old }
    ensures room { result ≤ length room.new }
{
    let count = room.len().min(bytes.len());
    room[..count].copy_from_slice(&bytes[..count]);
    count
}

impl Line {
    /// Takes this child, and its output.
    pub fn hold(&mut self, child: Child, output: ChildStdout) {
        self.child = Some(child);
        self.output = Some(output);
    }

    /// What comes next at once: what was read ahead, and then what the output has.
    pub fn take(&mut self, buf: &mut [u8]) -> Now
        ensures size { length buf.new ≡ length buf.old }
        ensures room { IsWithin result (length buf.new) }
    {
        let at = self.at.min(self.held.len());
        let count = put_front(buf, &self.held[at..]);
        if count > 0 {
            self.at = at + count;
            return Now::Came(count);
        }
        self.held.clear();
        self.at = 0;
        match &mut self.output {
            Some(output) => {
                let now = read_now(output, buf);
                if let Now::Came(0) = now {
                    self.output = None;
                }
                now
            }
            None => Now::Came(0),
        }
    }

    /// Reads ahead once, and says whether more may be read ahead.
    pub fn read_ahead(&mut self) -> bool {
        if self.held.len() >= AHEAD || self.held.reserve(PIECE).is_err() {
            return false;
        }
        let Some(output) = &mut self.output else {
            return false;
        };
        let mut piece = [0u8; PIECE];
        match read_now(output, &mut piece) {
            Now::Came(0) => {
                self.output = None;
                false
            }
            // Room for them was taken before.
            Now::Came(count) => self.held.extend_from_slice(&piece[..count]).is_ok(),
            Now::Nothing => true,
            Now::Failed => false,
        }
    }

    /// Ends the child by force, where it has not ended. It is still to be waited for.
    pub fn kill(&mut self) {
        if let Some(child) = &mut self.child {
            let _ = child.kill();
        }
    }

    /// Lets the output go, and waits for the child, which is killed where it does not end soon.
    pub fn finish(&mut self) {
        self.output = None;
        if let Some(mut child) = self.child.take() {
            wait_or_kill(&mut child);
        }
    }
}

/// Waits for a child whose pipes are closed; where it has not ended after 2 seconds it is killed.
pub(crate) fn wait_or_kill(child: &mut Child) {
    for _ in 0..ASKED {
        match child.try_wait() {
            Ok(None) => pause(PAUSE),
            _ => return,
        }
    }
    let _ = child.kill();
    let _ = child.wait();
}
