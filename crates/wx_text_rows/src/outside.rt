//! Files and sinks, in memory and of the system.
use std::alloc::Global;
use std::test::Fail;
use std::{fs, io};
use wx_outside::{
    Failed, FileShelf, Found, MemoryFile, MemoryShelf, MemorySink, Shelf, ShelfFault, Sink,
    StreamSink,
};

/// What a read answers, without the bytes' place in memory: the first byte and the length, or the word for it.
fn told<F: Shelf>(alloc: Global, shelf: &mut F, name: &str) -> (&'static str, usize) {
    match shelf.read(alloc, name) {
        Ok(Found::Bytes(bytes)) => ("bytes", bytes.len()),
        Ok(Found::Missing) => ("missing", 0),
        Ok(Found::Large) => ("large", 0),
        Err(ShelfFault::Failed) => ("failed", 0),
        Err(ShelfFault::NoMemory) => ("no memory", 0),
    }
}

/// A name, what a read of it answers, how many bytes, and how many reads have failed then.
const MEMORY: &[(&str, &str, usize, u64)] = &[
    ("s", "bytes", 3, 0),
    ("t", "missing", 0, 0),
    ("s", "failed", 0, 1),
    ("s", "bytes", 3, 1),
];

#[test]
fn files_in_memory(rt: HostRuntime) -> Result<(), Fail> {
    let alloc = rt.alloc();
    let mut shelf = MemoryShelf {
        files: Vec::new(alloc),
        fails_at: vec![in alloc; 2u64]?,
        reads: 0,
        faults: 0,
    };
    for text in ["abc", "second"] {
        shelf.files.push(MemoryFile {
            name: String::from_str(alloc, "s")?,
            bytes: Vec::from_slice(alloc, text.as_bytes())?,
        })?;
    }
    for &(name, answer, length, faults) in MEMORY {
        assert_eq!(rt; told(alloc, &mut shelf, name), (answer, length), "{name}");
        assert_eq!(rt; Shelf::faults(&shelf), faults, "{name}");
    }
    Ok(())
}

/// A name, what a read of it answers, how many bytes, and how many reads have failed then.
const DISK: &[(&str, &str, usize, u64)] = &[
    ("five", "bytes", 5, 0),
    ("none", "missing", 0, 0),
    ("", "missing", 0, 0),
    ("limit", "bytes", 67108864, 0),
    ("more", "large", 0, 0),
    ("folder", "failed", 0, 1),
    ("five/x", "failed", 0, 2),
];

#[test]
fn files_on_disk(rt: HostRuntime) -> Result<(), Fail> {
    let alloc = rt.alloc();
    fs::write(&rt, "five", "12345")?;
    fs::create_dir(&rt, "folder")?;
    let limit: Vec<u8> = vec![in alloc; 120u8; 67108864]?;
    fs::write(&rt, "limit", &limit)?;
    let mut more = limit;
    more.push(120)?;
    fs::write(&rt, "more", &more)?;
    let mut shelf = FileShelf::new(&rt);
    for &(name, answer, length, faults) in DISK {
        assert_eq!(rt; told(alloc, &mut shelf, name), (answer, length), "{name}");
        assert_eq!(rt; Shelf::faults(&shelf), faults, "{name}");
    }
    Ok(())
}

/// A piece, whether it is written, what the sink holds then, and how many writes have failed.
const WRITES: &[(&str, bool, &str, u64)] = &[
    ("abc", true, "abc", 0),
    ("def", false, "abc", 1),
    ("defg", false, "abcdef", 2),
    ("", true, "abcdef", 2),
];

#[test]
fn sinks(rt: HostRuntime) -> Result<(), Fail> {
    let alloc = rt.alloc();
    let mut sink = MemorySink {
        bytes: Vec::new(alloc),
        room: 6,
        fails_at: vec![in alloc; 1u64]?,
        writes: 0,
        faults: 0,
    };
    for &(piece, is_written, bytes, faults) in WRITES {
        assert_eq!(rt; sink.write(piece.as_bytes()).is_ok(), is_written, "{piece}");
        assert_eq!(rt; sink.bytes.as_slice(), bytes.as_bytes(), "{piece}");
        assert_eq!(rt; Sink::faults(&sink), faults, "{piece}");
    }
    Ok(())
}

#[test]
fn streams(rt: HostRuntime) -> Result<(), Fail> {
    let mut room = [0u8; 5];
    let mut sink = StreamSink::new(&mut room[..]);
    assert_eq!(rt; sink.write(b"abc"), Ok(()));
    assert_eq!(rt; Sink::faults(&sink), 0);
    assert_eq!(rt; sink.write(b"def"), Err(Failed));
    assert_eq!(rt; Sink::faults(&sink), 1);
    assert_eq!(rt; room.as_slice(), b"abcde".as_slice());
    Ok(())
}
