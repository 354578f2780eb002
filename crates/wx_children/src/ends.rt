//! The two ends of a child's pipe, over a feed that sends what it can and a source that gives what came.
ghost use Rattle.std.specs.Prelude.{◌≡◌, IsTrue, IsFalse};
ghost use Rattle.wx_outside.specs.Sink.{added, AddsFront};

use wx_host_launch::{Failed, HostIn, HostOut};

/// Where the bytes for a child go. A feed may tell what it was given.
pub trait Feed {
    ghost use Rattle.std.specs.Prelude.{◌≡◌, List, ℕ, Option};
    ghost use Rattle.wx_children.specs.Ends.{Feeds};

    ghost sent: { Self → Option (List ℕ) };

    /// Sends some of the first of these bytes, and says how many; None where the child has gone or will not read.
    fn feed(&mut self, bytes: &[u8]) -> Option<usize>
        ensures { Feeds (sent self.old) (sent self.new) bytes.now result };

    /// Sends no more: the child finds the end of its input.
    fn shut(&mut self)
        ensures { sent self.new ≡ sent self.old };
}

/// Where the bytes of a child come from. It tells whether it is over, that is, whether what it gave last was nothing; a
/// source may tell the bytes.
pub trait Source {
    ghost use Rattle.std.specs.Prelude.{
      ◌≡◌,
      ◌<◌,
      ◌≤◌,
      ◌==◌,
      Bool,
      true,
      length,
      take,
      Option,
      IfOk,
      OnErr,
    };
    ghost use Rattle.wx_host_launch.specs.Pipes.{Stream, Gives, NoneComes};

    ghost over: { Self → Bool };

    ghost stream: { Self → Option Stream };

    /// The next bytes, at most as many as there is room for; none at their end.
    fn next(&mut self, buf: &mut [u8]) -> Result<usize, Failed>
        requires { 0 < length buf.old }
        ensures room { IfOk result (λ n. n ≤ length buf.new) }
        ensures given { IfOk result (λ n. Gives (stream self.old) (stream self.new) (take n buf.new)) }
        ensures over { IfOk result (λ n. over self.new ≡ (n == 0)) }
        ensures behind_end { over self.old ≡ true → IfOk result (λ n. n ≡ 0) }
        ensures failed { OnErr result (stream self.new ≡ stream self.old) }
        ensures failed_end { OnErr result (over self.new ≡ over self.old) }
        ensures none_comes { over self.new ≡ true → NoneComes (stream self.new) };
}

/// What a child writes, up to its end.
#[derive(Drop)]
pub struct ChildOut<S> {
    pub(crate) source: S,
    pub(crate) faults: u64,
}

impl<S: Source + Send + Drop> HostOut for ChildOut<S> {
    ghost state = { λ output. record {
      ended = S.over output.source;
      stream = S.stream output.source;
      faults = output.faults;
    } };

    fn faults(&self) -> u64 {
        self.faults
    }

    fn read(&mut self, buf: &mut [u8]) -> Result<usize, Failed> {
        match self.source.next(buf) {
            Ok(count) => Ok(count),
            Err(Failed) => {
                self.faults = self.faults.saturating_add(1);
                Err(Failed)
            }
        }
    }
}

/// What a child reads, until it is closed.
#[derive(Drop)]
pub struct ChildIn<F> {
    pub(crate) feed: F,
    pub(crate) closed: bool,
    pub(crate) faults: u64,
}

/// Sends all of the bytes, and says whether it did; else a front of them may have gone.
#[tactic(auto, using(crate::proofs::FeedLemmas::stops))]
fn feed_whole<F: Feed>(feed: &mut F, bytes: &[u8]) -> bool
    ensures whole { IsTrue result → F.sent feed.new ≡ added (F.sent feed.old) bytes.now }
    ensures front { IsFalse result → AddsFront (F.sent feed.old) (F.sent feed.new) bytes.now }
{
    let mut at = 0;
    while at < bytes.len() {
        match feed.feed(&bytes[at..]) {
            Some(count) if count > 0 => at += count,
            _ => return false,
        }
    }
    true
}

impl<F: Feed + Send + Drop> HostIn for ChildIn<F> {
    ghost state = { λ input. record { closed = input.closed; sent = F.sent input.feed; faults = input.faults } };

    fn faults(&self) -> u64 {
        self.faults
    }

    fn write(&mut self, bytes: &[u8]) -> Result<(), Failed> {
        if !self.closed && feed_whole(&mut self.feed, bytes) {
            return Ok(());
        }
        self.faults = self.faults.saturating_add(1);
        Err(Failed)
    }

    fn close(&mut self) {
        self.feed.shut();
        self.closed = true;
    }
}
