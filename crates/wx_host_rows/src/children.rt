//! Children in memory: calls that fail, and the records that a starter takes over.
use crate::{FIRST, NONE};
use std::alloc::Global;
use std::test::Fail;
use wx_host_launch::{
    Arguments, HostIn, HostOut, MemoryChild, MemoryIn, MemoryOut, MemoryStarter, Starter,
};
use wx_host_manifest::HostManifest;
use wx_id::ExtensionId;

fn crosses_threads<T: Send>() {}

#[test]
fn types_cross_threads(_rt: HostRuntime) {
    crosses_threads::<MemoryStarter<'static>>();
    crosses_threads::<MemoryIn<'static>>();
    crosses_threads::<MemoryOut<'static>>();
}

/// The words for a host that the extension of 32 letters `a` starts.
fn arguments(alloc: Global) -> Option<Arguments> {
    let bytes =
        br#"{"name":"e","description":"d","path":"/bin/e","type":"stdio","allowed_origins":[]}"#;
    let manifest = HostManifest::read(alloc, "e.json", bytes).ok()?;
    let caller = ExtensionId::read(b"aaaaaaaaaaaaaaaaaaaaaaaaaaaaaaaa").ok()?;
    manifest.arguments(alloc, &caller).ok()
}

/// A child that writes five bytes; the calls with this number fail.
fn child(alloc: Global, starts: &[u64], reads: &[u64], writes: &[u64]) -> Option<MemoryChild> {
    Some(MemoryChild {
        path: String::from_str(alloc, "/bin/e").ok()?,
        writes: Vec::from_slice(alloc, b"\x01\0\0\01").ok()?,
        failing_starts: Vec::from_slice(alloc, starts).ok()?,
        failing_reads: Vec::from_slice(alloc, reads).ok()?,
        failing_writes: Vec::from_slice(alloc, writes).ok()?,
    })
}

/// What a slot's record counts and holds after a start, three reads of at most three bytes, and two writes of `ab`.
fn work<S: Starter>(starter: &mut S, path: &str, arguments: &Arguments) -> (bool, u64, u64) {
    let Ok((mut input, mut output)) = starter.start(path, arguments) else {
        return (false, 0, 0);
    };
    let mut buffer = [0u8; 3];
    let mut read = 0;
    for _ in 0..3 {
        if let Ok(count) = output.read(&mut buffer) {
            read = count as u64;
        }
    }
    let _ = input.write(b"ab");
    let _ = input.write(b"ab");
    input.close();
    let faults = output.faults().saturating_add(input.faults());
    starter.finish(input, output);
    (true, read, faults)
}

/// The path; the starts, reads and writes of its slot that fail; the bytes read and sent, and the counts of failed
/// starts, reads and writes.
type FailingRow = (
    &'static str,
    &'static [u64],
    &'static [u64],
    &'static [u64],
    &'static [u8],
    &'static [u8],
    [u64; 3],
);

const FAILING: [FailingRow; 5] = [
    ("/bin/e", NONE, NONE, NONE, b"\x01\0\0\01", b"ab", [0, 0, 1]),
    ("/bin/e", FIRST, NONE, NONE, b"", b"", [1, 0, 0]),
    (
        "/bin/e",
        NONE,
        FIRST,
        NONE,
        b"\x01\0\0\01",
        b"ab",
        [0, 1, 1],
    ),
    (
        "/bin/e",
        NONE,
        NONE,
        FIRST,
        b"\x01\0\0\01",
        b"ab",
        [0, 0, 1],
    ),
    ("/bin/f", NONE, NONE, NONE, b"", b"", [1, 0, 0]),
];

#[test]
fn failing_calls(rt: HostRuntime) -> Result<(), Fail> {
    let alloc = rt.alloc();
    let Some(arguments) = arguments(alloc) else {
        panic!(rt; "no such value");
    };
    for (path, starts, reads, writes, read, sent, counts) in FAILING {
        let Some(child) = child(alloc, starts, reads, writes) else {
            panic!(rt; "no such value");
        };
        let children = vec![in alloc; child]?;
        let mut starter = MemoryStarter::new(alloc, &children, 3);
        let _ = work(&mut starter, path, &arguments);
        let slot = starter.slot();
        assert_eq!(rt; slot.read, read, "{path}");
        assert_eq!(rt; slot.sent.as_slice(), sent, "{path}");
        assert_eq!(rt;
            [slot.failed_starts, slot.failed_reads, slot.failed_writes],
            counts,
            "{path}"
        );
        assert_eq!(rt;
            Starter::faults(&starter),
            counts[0]
                .saturating_add(counts[1])
                .saturating_add(counts[2]),
            "{path}"
        );
    }
    Ok(())
}

#[test]
fn records_taken_over(rt: HostRuntime) -> Result<(), Fail> {
    let alloc = rt.alloc();
    let (Some(arguments), Some(child)) = (arguments(alloc), child(alloc, NONE, NONE, NONE)) else {
        panic!(rt; "no such value");
    };
    let children = vec![in alloc; child]?;
    let mut starter = MemoryStarter::new(alloc, &children, 3);
    let mut slot = starter.another()?;
    let idle = starter.another()?;
    let _ = work(&mut slot, "/bin/e", &arguments);
    starter.absorb(slot);
    starter.absorb(idle);
    assert_eq!(rt; Starter::faults(&starter), 1);
    let records = starter.records();
    assert_eq!(rt; records.len(), 2);
    assert!(rt; starter.slot().program.is_none());
    assert!(rt; records[1].program.is_none());
    let Some(program) = &records[0].program else {
        panic!(rt; "no such value");
    };
    assert_eq!(rt; program.path.as_str(), "/bin/e");
    assert_eq!(rt; program.arguments.len(), 1);
    assert_eq!(rt;
        program.arguments[0].as_str(),
        "chrome-extension://aaaaaaaaaaaaaaaaaaaaaaaaaaaaaaaa/"
    );
    Ok(())
}
