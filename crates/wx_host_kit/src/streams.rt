//! The host's two ends over streams, as over standard input and output. They do not tell their bytes.
ghost use Rattle.std.specs.Prelude.{◌≡◌, ◌<◌, ◌≤◌, None, length, IfOk};

use std::io::{ErrorKind, Read, Write};
use wx_host_launch::{Failed, HostIn, HostOut};
use wx_outside::{Sink, StreamSink};

/// What a host reads, from a stream.
#[derive(Drop)]
pub struct StreamInput<S> {
    inner: S,
    over: bool,
    faults: u64,
}

impl<S: Read> StreamInput<S> {
    /// The input from this stream; it has not ended, and no read has failed.
    pub fn new(inner: S) -> Self
        ensures { Self.faults result ≡ 0 }
    {
        StreamInput {
            inner,
            over: false,
            faults: 0,
        }
    }
}

/// Reads once; where a signal interrupted that, once more.
fn read_some<S: Read>(inner: &mut S, buf: &mut [u8]) -> Result<usize, Failed>
    ensures { IfOk result (λ n. n ≤ length buf.new) }
{
    for _ in 0..u64::MAX {
        match inner.read(buf) {
            Ok(count) => return Ok(count),
            Err(e) if e.kind() == ErrorKind::Interrupted => {}
            Err(_) => return Err(Failed),
        }
    }
    Err(Failed)
}

impl<S: Read + Send + Drop> HostOut for StreamInput<S> {
    ghost state = { λ input. record { ended = input.over; stream = None; faults = input.faults } };

    fn faults(&self) -> u64 {
        self.faults
    }

    fn read(&mut self, buf: &mut [u8]) -> Result<usize, Failed> {
        if self.over {
            return Ok(0);
        }
        match read_some(&mut self.inner, buf) {
            Ok(count) => {
                self.over = count == 0;
                Ok(count)
            }
            Err(Failed) => {
                self.faults = self.faults.saturating_add(1);
                Err(Failed)
            }
        }
    }
}

/// What a host writes, to a stream. Each write is passed on at once.
#[derive(Drop)]
pub struct StreamOutput<W> {
    sink: StreamSink<W>,
    closed: bool,
    faults: u64,
}

impl<W: Write> StreamOutput<W> {
    /// The output to this stream; it is not closed, and no write has failed.
    pub fn new(inner: W) -> Self
        ensures { Self.faults result ≡ 0 }
    {
        StreamOutput {
            sink: StreamSink::new(inner),
            closed: false,
            faults: 0,
        }
    }
}

impl<W: Write + Send + Drop> HostIn for StreamOutput<W> {
    ghost state = { λ output. record { closed = output.closed; sent = None; faults = output.faults } };

    fn faults(&self) -> u64 {
        self.faults
    }

    fn write(&mut self, bytes: &[u8]) -> Result<(), Failed> {
        if !self.closed && self.sink.write(bytes).is_ok() {
            return Ok(());
        }
        self.faults = self.faults.saturating_add(1);
        Err(Failed)
    }

    fn close(&mut self) {
        self.closed = true;
    }
}
