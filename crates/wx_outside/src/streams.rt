//! A sink over a stream.
ghost use Rattle.std.specs.Prelude.{◌≡◌, None};

use crate::sink::{Failed, Sink};
use std::io::{ErrorKind, Write};

/// A stream that is written to. It does not tell what it passed on.
#[derive(Drop)]
pub struct StreamSink<W> {
    inner: W,
    faults: u64,
}

impl<W: Write> StreamSink<W> {
    /// A sink over this stream; no write has failed.
    pub fn new(inner: W) -> Self
        ensures { Self.faults result ≡ 0 }
    {
        StreamSink { inner, faults: 0 }
    }
}

/// Writes all of the bytes and flushes, and says whether it did. A write that a signal interrupted is tried again.
fn write_whole<W: Write>(inner: &mut W, bytes: &[u8]) -> bool {
    let mut rest = bytes;
    for _ in 0..u64::MAX {
        if rest.is_empty() {
            return inner.flush().is_ok();
        }
        match inner.write(rest) {
            Ok(0) => return false,
            Ok(count) => rest = &rest[count..],
            Err(e) if e.kind() == ErrorKind::Interrupted => {}
            Err(_) => return false,
        }
    }
    false
}

impl<W: Write> Sink for StreamSink<W> {
    ghost state = { λ s. record { written = None; faults = s.faults } };

    fn faults(&self) -> u64 {
        self.faults
    }

    fn write(&mut self, bytes: &[u8]) -> Result<(), Failed> {
        if write_whole(&mut self.inner, bytes) {
            return Ok(());
        }
        self.faults = self.faults.saturating_add(1);
        Err(Failed)
    }
}
