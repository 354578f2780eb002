//! The turns of both pumps of a host, at the desk of tests.
ghost use Rattle.std.specs.Prelude.{IfSome};
ghost use Rattle.wx_desk.specs.Desks.{IsSound};
ghost use Rattle.wx_host_rows.specs.TestDesks.{desk_at as state_at};

use crate::test_desk::{Stage, TestDesk};
use crate::{FIRST, NONE};
use std::alloc::Global;
use std::test::Fail;
use wx_host_launch::{InTurn, MemoryIn, MemoryOut, OutTurn, in_turn, out_turn};
use wx_json::{JsonKind, JsonText};
use wx_machine::{LONGEST_SAID, Reason};
use wx_native_frame::FrameReader;

/// A desk at this stage.
fn desk_at(alloc: Global, stage: Stage) -> Option<TestDesk>
    ensures { IfSome result (λ desk. IsSound (state_at desk.stage desk.ended)) }
{
    let text = JsonText::new(Vec::from_slice(alloc, b"1").ok()?).ok()?;
    Some(TestDesk {
        text,
        stage,
        ended: None,
        told: None,
    })
}

fn output_of<'a>(bytes: &'a [u8], fails_at: &'a [u64]) -> MemoryOut<'a> {
    MemoryOut {
        bytes,
        at: 0,
        ended: false,
        fails_at,
        reads: 0,
        faults: 0,
    }
}

fn input_of<'a>(alloc: Global, fails_at: &'a [u64]) -> MemoryIn<'a> {
    MemoryIn {
        sent: Vec::new(alloc),
        room: 100,
        closed: false,
        fails_at,
        writes: 0,
        faults: 0,
    }
}

/// What the turns of a host's output come to whose child writes these bytes, and why the host ended.
fn two_turns(
    alloc: Global,
    bytes: &[u8],
    fails_at: &[u64],
) -> Option<(OutTurn, OutTurn, Option<Reason>)> {
    let mut desk = desk_at(alloc, Stage::Idle)?;
    let mut reader = FrameReader::new(alloc, LONGEST_SAID as u32);
    let mut output = output_of(bytes, fails_at);
    let first = out_turn(&mut desk, &mut reader, &mut output);
    let second = out_turn(&mut desk, &mut reader, &mut output);
    Some((first, second, desk.ended))
}

/// What a child writes; how often it then writes `[`; which reads fail; what the two turns come to, and why the host
/// ended. The desk of tests refuses memory behind the end.
type HostileRow = (&'static [u8], u32, &'static [u64], OutTurn, OutTurn, Reason);

const HOSTILE: [HostileRow; 10] = [
    (
        b"",
        0,
        NONE,
        OutTurn::Ended,
        OutTurn::NoMemory,
        Reason::Exited,
    ),
    (
        b"\x02\0",
        0,
        NONE,
        OutTurn::Ended,
        OutTurn::NoMemory,
        Reason::Cut { have: 2 },
    ),
    (
        b"\x02\0\0\0{",
        0,
        NONE,
        OutTurn::Ended,
        OutTurn::NoMemory,
        Reason::Cut { have: 5 },
    ),
    (
        b"\0\0\0\0",
        0,
        NONE,
        OutTurn::Ended,
        OutTurn::NoMemory,
        Reason::BadJson {
            place: 0,
            kind: JsonKind::Ends,
        },
    ),
    (
        b"\x01\0\x10\0",
        0,
        NONE,
        OutTurn::Ended,
        OutTurn::NoMemory,
        Reason::TooLong { len: 1_048_577 },
    ),
    (
        b"\x01\0\0\0\xff",
        0,
        NONE,
        OutTurn::Ended,
        OutTurn::NoMemory,
        Reason::BadJson {
            place: 0,
            kind: JsonKind::Utf8,
        },
    ),
    (
        b"\x03\0\0\0{}}",
        0,
        NONE,
        OutTurn::Ended,
        OutTurn::NoMemory,
        Reason::BadJson {
            place: 2,
            kind: JsonKind::Syntax,
        },
    ),
    (
        b"\x01\x04\0\0",
        1025,
        NONE,
        OutTurn::Ended,
        OutTurn::NoMemory,
        Reason::BadJson {
            place: 1024,
            kind: JsonKind::TooDeep,
        },
    ),
    (
        b"\x01\0\0\01",
        0,
        FIRST,
        OutTurn::Ended,
        OutTurn::NoMemory,
        Reason::ReadFailed,
    ),
    (
        b"\x01\0\0\01\0\0",
        0,
        NONE,
        OutTurn::Moved,
        OutTurn::Ended,
        Reason::Cut { have: 2 },
    ),
];

#[test]
fn hostile_children(rt: HostRuntime) -> Result<(), Fail> {
    for (front, brackets, fails_at, first, second, reason) in HOSTILE {
        let mut bytes = Vec::from_slice(rt.alloc(), front)?;
        for _ in 0..brackets {
            bytes.push(b'[')?;
        }
        assert_eq!(rt;
            two_turns(rt.alloc(), &bytes, fails_at),
            Some((first, second, Some(reason)))
        );
    }
    Ok(())
}

/// What turns of both pumps come to: of the output, of the input, of the output twice.
fn both_pumps(
    alloc: Global,
    stage: Stage,
    bytes: &[u8],
    input: &mut MemoryIn<'_>,
) -> Option<(OutTurn, InTurn, OutTurn, OutTurn, Option<Reason>)> {
    let mut desk = desk_at(alloc, stage)?;
    let mut reader = FrameReader::new(alloc, LONGEST_SAID as u32);
    let mut output = output_of(bytes, NONE);
    let before = match stage {
        Stage::Posted => out_turn(&mut desk, &mut reader, &mut output),
        _ => OutTurn::Moved,
    };
    let taken = in_turn(&mut desk, input);
    let first = out_turn(&mut desk, &mut reader, &mut output);
    let second = out_turn(&mut desk, &mut reader, &mut output);
    Some((before, taken, first, second, desk.ended))
}

/// The stage at first; what the child writes; which writes fail; what the turns come to, in their order; why the host
/// ended; what the child was sent; whether its input was closed.
type PumpsRow = (
    Stage,
    &'static [u8],
    &'static [u64],
    (OutTurn, InTurn, OutTurn, OutTurn),
    Reason,
    &'static [u8],
    bool,
);

const BOTH: [PumpsRow; 4] = [
    (
        Stage::Posted,
        b"",
        NONE,
        (
            OutTurn::Waits,
            InTurn::Moved,
            OutTurn::Ended,
            OutTurn::NoMemory,
        ),
        Reason::Exited,
        b"\x01\0\0\01",
        false,
    ),
    (
        Stage::Posted,
        b"",
        FIRST,
        (
            OutTurn::Waits,
            InTurn::Ended,
            OutTurn::NoMemory,
            OutTurn::NoMemory,
        ),
        Reason::WriteFailed,
        b"",
        false,
    ),
    (
        Stage::Closed,
        b"\x01\0\0\01",
        NONE,
        (
            OutTurn::Moved,
            InTurn::Closed,
            OutTurn::Moved,
            OutTurn::Ended,
        ),
        Reason::Closed,
        b"",
        true,
    ),
    (
        Stage::Idle,
        b"",
        NONE,
        (
            OutTurn::Moved,
            InTurn::Waits,
            OutTurn::Ended,
            OutTurn::NoMemory,
        ),
        Reason::Exited,
        b"",
        false,
    ),
];

#[test]
fn turns_of_both_pumps(rt: HostRuntime) {
    for (stage, bytes, fails_at, (before, taken, first, second), reason, sent, closed) in BOTH {
        let mut input = input_of(rt.alloc(), fails_at);
        assert_eq!(rt;
            both_pumps(rt.alloc(), stage, bytes, &mut input),
            Some((before, taken, first, second, Some(reason)))
        );
        assert_eq!(rt; input.sent.as_slice(), sent);
        assert_eq!(rt; input.closed, closed);
    }
}
