//! A feed and a source over the pipes of a child. Neither tells its bytes.
ghost use Rattle.std.specs.Prelude.{◌≡◌, ◌≤◌, None, length, IfSome};
ghost use Rattle.wx_children.specs.Lines.{IsWithin};
ghost use Rattle.wx_children.specs.Puts.{IsWithinPiece};

use crate::ends::{Feed, Source};
use crate::line::{Line, Now, SLICE, asking, is_readable};
use libc::net::{POLLIN, POLLOUT, poll};
use std::io::{ErrorKind, Write};
use std::os::fd::AsRawFd;
use std::process::ChildStdin;
use std::sync::{Arc, Mutex, Wait};
use wx_host_launch::Failed;

/// How many bytes are written at once: a pipe with room takes so many whole, without a wait.
const PIECE: usize = 4_096;

/// How many waits a child that was ended for its silence has to close its output: 2 seconds.
const LAST_WAITS: u64 = 20;

/// What a child reads. While it does not, what it writes is read ahead, so that neither waits for the other.
#[derive(Drop)]
pub struct PipeFeed<R> {
    pub(crate) runtime: R,
    pub(crate) input: Option<ChildStdin>,
    pub(crate) line: Arc<Mutex<Line>>,
    /// The descriptor of its output.
    pub(crate) output: i32,
    /// After how many waits without a byte the child is ended.
    pub(crate) waits: u64,
}

/// What a wait at a child's two pipes came to.
#[derive(Clone, Copy)]
struct Ready {
    writable: bool,
    readable: bool,
}

/// Waits until the one takes bytes or the other has some, for at most a slice.
fn wait_at(input: i32, output: i32) -> Ready {
    let mut asked = [asking(input, POLLOUT), asking(output, POLLIN)];
    if poll(&mut asked, SLICE) <= 0 {
        return Ready {
            writable: false,
            readable: false,
        };
    }
    Ready {
        writable: asked[0].revents != 0,
        readable: asked[1].revents != 0,
    }
}

/// What a write came to.
#[derive(Clone, Copy)]
enum Put {
    /// So many bytes were taken.
    Taken(usize),
    /// A signal came in between.
    Again,
    /// The child has gone.
    Gone,
}

/// Writes some of the first bytes.
fn put_some(input: &mut ChildStdin, bytes: &[u8]) -> Put
    ensures { IsWithinPiece result (length bytes.now) }
{
    match input.write(&bytes[..bytes.len().min(PIECE)]) {
        Ok(0) => Put::Gone,
        Ok(count) => Put::Taken(count),
        Err(e) if e.kind() == ErrorKind::Interrupted => Put::Again,
        Err(_) => Put::Gone,
    }
}

impl<R: Wait> Feed for PipeFeed<R> {
    ghost sent = { λ feed. None };

    fn feed(&mut self, bytes: &[u8]) -> Option<usize> {
        let input = self.input.as_mut()?;
        let mut output = self.output;
        let mut waited = 0;
        for _ in 0..u64::MAX {
            let ready = wait_at(input.as_raw_fd(), output);
            if ready.writable {
                match put_some(input, bytes) {
                    Put::Taken(count) => return Some(count),
                    Put::Again => {}
                    Put::Gone => return None,
                }
            }
            if ready.readable {
                if !self.line.lock(&self.runtime).read_ahead() {
                    output = -1;
                }
                waited = 0;
            } else if waited < self.waits {
                waited += 1;
            } else {
                self.line.lock(&self.runtime).kill();
                return None;
            }
        }
        None
    }

    fn shut(&mut self) {
        self.input = None;
    }
}

/// What a child writes.
#[derive(Drop)]
pub struct PipeSource<R> {
    pub(crate) runtime: R,
    pub(crate) line: Arc<Mutex<Line>>,
    /// The descriptor of its output.
    pub(crate) output: i32,
    pub(crate) over: bool,
    /// After how many waits without a byte the child is ended.
    pub(crate) waits: u64,
}

impl<R: Wait> PipeSource<R> {
    /// What comes within so many waits.
    fn next_within(&self, buf: &mut [u8], waits: u64) -> Now
        ensures size { length buf.new ≡ length buf.old }
        ensures room { IsWithin result (length buf.new) }
    {
        for _ in 0..waits {
            match self.line.lock(&self.runtime).take(buf) {
                Now::Nothing => {
                    let _ = is_readable(self.output, SLICE);
                }
                now => return now,
            }
        }
        Now::Nothing
    }

    /// What comes; a child from which nothing comes for too long is ended, and then what it left.
    fn next_or_end(&self, buf: &mut [u8]) -> Now
        ensures size { length buf.new ≡ length buf.old }
        ensures room { IsWithin result (length buf.new) }
    {
        match self.next_within(buf, self.waits) {
            Now::Nothing => {}
            now => return now,
        }
        self.line.lock(&self.runtime).kill();
        self.next_within(buf, LAST_WAITS)
    }
}

impl<R: Wait> Source for PipeSource<R> {
    ghost over = { λ source. source.over };

    ghost stream = { λ source. None };

    fn next(&mut self, buf: &mut [u8]) -> Result<usize, Failed> {
        if self.over {
            return Ok(0);
        }
        match self.next_or_end(buf) {
            Now::Came(count) => {
                self.over = count == 0;
                Ok(count)
            }
            // Its output is held open by others, although it was ended.
            Now::Nothing => {
                self.over = true;
                Ok(0)
            }
            Now::Failed => Err(Failed),
        }
    }
}
