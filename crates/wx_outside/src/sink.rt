//! What texts are written to.
/// A piece was not written whole.
#[derive(Clone, Copy, Debug, PartialEq, Eq)]
pub struct Failed;

/// Where texts are written to. Some sinks tell what they were written; what a stream passes on is not known.
pub trait Sink {
    ghost use Rattle.std.specs.Prelude.{◌≡◌, OnOk, OnErr};
    ghost use Rattle.wx_outside.specs.Sink.{SinkState, added, AddsFront, HasCause};

    /// What was written, where it tells, and how many writes have failed.
    ghost state: { Self → SinkState };

    /// How many writes have failed. The count never falls.
    fn faults(&self) -> u64
        ensures { result ≡ (state self.now).faults };

    /// Writes these bytes after the others; where that fails, a front of them may have been written.
    fn write(&mut self, bytes: &[u8]) -> Result<(), Failed>
        ensures ok { OnOk result ((state self.new).written ≡ added (state self.old).written bytes.now) }
        ensures err { OnErr result (AddsFront (state self.old).written (state self.new).written bytes.now) }
        ensures cause { HasCause (state self.old).faults (state self.new).faults result };
}
