//! Rows of the echo: what comes in, and what goes out, byte for byte.
use crate::{Echo, Handler, KitEnd, serve_kit};
use std::alloc::{AllocError, Global};
use std::test::Fail;
use wx_host_launch::{MemoryIn, MemoryOut};
use wx_json::{JsonFault, JsonKind};

/// The input of these bytes, of which the reads with these numbers fail.
fn input_of<'a>(bytes: &'a [u8], fails_at: &'a [u64]) -> MemoryOut<'a> {
    MemoryOut {
        bytes,
        at: 0,
        ended: false,
        fails_at,
        reads: 0,
        faults: 0,
    }
}

/// An empty output with room enough, of which the writes with these numbers fail.
fn output_of<'a>(alloc: Global, fails_at: &'a [u64]) -> MemoryIn<'a> {
    MemoryIn {
        sent: Vec::new(alloc),
        room: 2_097_152,
        closed: false,
        fails_at,
        writes: 0,
        faults: 0,
    }
}

/// What is read, and which reads and writes fail; what is written, and the end.
struct Row {
    read: &'static [u8],
    failing_reads: &'static [u64],
    failing_writes: &'static [u64],
    written: &'static [u8],
    end: KitEnd,
}

const NONE: &[u64] = &[];

const PING: &[u8] = b"\x0d\0\0\0{\"op\":\"ping\"}";

const ROWS: [Row; 8] = [
    Row {
        read: PING,
        failing_reads: NONE,
        failing_writes: NONE,
        written: PING,
        end: KitEnd::Exited,
    },
    Row {
        read: b"\x02\0\0\0{}\x01",
        failing_reads: NONE,
        failing_writes: NONE,
        written: b"\x02\0\0\0{}",
        end: KitEnd::Cut { have: 1 },
    },
    Row {
        read: b"\x01\0\0\0\xff",
        failing_reads: NONE,
        failing_writes: NONE,
        written: b"",
        end: KitEnd::BadJson(JsonFault {
            place: 0,
            kind: JsonKind::Utf8,
        }),
    },
    Row {
        read: b"\x01\0\0\x001\x01\0\0\x042",
        failing_reads: NONE,
        failing_writes: NONE,
        written: b"\x01\0\0\x001",
        end: KitEnd::TooLong { len: 67_108_865 },
    },
    Row {
        read: b"\x01\0\0\x001\x01\0\0\x002",
        failing_reads: NONE,
        failing_writes: NONE,
        written: b"\x01\0\0\x001\x01\0\0\x002",
        end: KitEnd::Exited,
    },
    Row {
        read: PING,
        failing_reads: &[1],
        failing_writes: NONE,
        written: PING,
        end: KitEnd::ReadFailed,
    },
    Row {
        read: b"\x01\0\0\x001\x01\0\0\x002",
        failing_reads: NONE,
        failing_writes: &[1],
        written: b"\x01\0\0\x001",
        end: KitEnd::WriteFailed,
    },
    Row {
        read: b"",
        failing_reads: NONE,
        failing_writes: NONE,
        written: b"",
        end: KitEnd::Exited,
    },
];

#[test]
fn the_echo_answers_each_frame_and_says_why_it_ends(rt: HostRuntime) -> Result<(), Fail> {
    let alloc = rt.alloc();
    for row in &ROWS {
        let mut echo: Box<dyn Handler> = Box::new(alloc, Echo)?;
        let mut input = input_of(row.read, row.failing_reads);
        let mut output = output_of(alloc, row.failing_writes);
        let end = serve_kit(&rt, alloc, &mut echo, &mut input, &mut output);
        assert_eq!(rt; end, row.end);
        assert_eq!(rt; output.sent.as_slice(), row.written);
    }
    Ok(())
}

/// The frame of a string of so many bytes with its quotes.
fn long_string(alloc: Global, len: u32) -> Result<Vec<u8>, AllocError> {
    let mut bytes = Vec::new(alloc);
    bytes.extend_from_slice(&len.to_le_bytes())?;
    bytes.push(b'"')?;
    for _ in 0..len.saturating_sub(2) {
        bytes.push(b'x')?;
    }
    bytes.push(b'"')?;
    Ok(bytes)
}

#[test]
fn the_longest_reply_has_a_mebibyte(rt: HostRuntime) -> Result<(), Fail> {
    let alloc = rt.alloc();
    let over = long_string(alloc, 1_048_577)?;
    let mut echo: Box<dyn Handler> = Box::new(alloc, Echo)?;
    let mut output = output_of(alloc, NONE);
    let end = serve_kit(
        &rt,
        alloc,
        &mut echo,
        &mut input_of(&over, NONE),
        &mut output,
    );
    assert_eq!(rt; end, KitEnd::ReplyTooLong { len: 1_048_577 });
    assert_eq!(rt; output.sent.len(), 0);
    let most = long_string(alloc, 1_048_576)?;
    let end = serve_kit(
        &rt,
        alloc,
        &mut echo,
        &mut input_of(&most, NONE),
        &mut output,
    );
    assert_eq!(rt; end, KitEnd::Exited);
    assert_eq!(rt; output.sent.as_slice(), most.as_slice());
    Ok(())
}
