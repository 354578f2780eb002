//! A scene's host answers by the kit, and the scene's journal tells that the pipe was good.
use std::alloc::{AllocError, Global};
use std::sync::Wait;
use std::test::Fail;
use wx_cmd::wx;
use wx_host_kit::{Echo, Handler, KitEnd, is_host_call, serve_kit};
use wx_host_launch::{MemoryChild, MemoryIn, MemoryOut, MemoryStarter};
use wx_id::ChannelNo;
use wx_journal::Journal;
use wx_outside::{MemoryFile, MemoryShelf, MemorySink};
use wx_pipe::pipe_check;
use wx_status::Status;

/// A scene, the files that it names, and the path of its host's program.
struct Play {
    files: &'static [(&'static str, &'static str)],
    path: &'static str,
}

/// A helper extension sends its program a message and awaits one. Others ask it in between.
const HELPER: Play = Play {
    files: &[
        (
            "s",
            r#"wx scene 1 chrome
extension helper aaaaaaaaaaaaaaaaaaaaaaaaaaaaaaaa helper.json
host com.example.echo.json
page worker helper /sw.js
  listen connect message external-message
  echo 2
  native n com.example.echo
  post n {"op":"ping"}
  await message n
content main helper 7 0 https://www.example.com/
  send r own {"from":"main"}
  await reply r
content frame helper 7 3 https://www.example.com/frame
  listen message
  await request r
  reply r "here"
page popup helper /popup.html
  send r tab 7 frame 3 "where"
  await reply r
web site 7 0 https://www.example.com/
  send r ext helper {"from":"site"}
  await reply r
"#,
        ),
        (
            "helper.json",
            r#"{"manifest_version":3,"name":"Helper","version":"1.2.0",
 "permissions":["nativeMessaging","tabs","storage"],
 "background":{"service_worker":"sw.js"},
 "action":{"default_popup":"popup.html"},
 "content_scripts":[{"matches":["https://*.example.com/*"],"js":["c.js"],"all_frames":true}],
 "externally_connectable":{"matches":["https://*.example.com/*"]}}"#,
        ),
        (
            "com.example.echo.json",
            r#"{"name":"com.example.echo","description":"Echo host","path":"/opt/example/echo",
 "type":"stdio","allowed_origins":["chrome-extension://aaaaaaaaaaaaaaaaaaaaaaaaaaaaaaaa/"]}"#,
        ),
    ],
    path: "/opt/example/echo",
};

/// A page opens a pipe to a host, and awaits that it closes.
const LISTENER: Play = Play {
    files: &[
        (
            "s",
            "wx scene 1 chrome
extension x aaaaaaaaaaaaaaaaaaaaaaaaaaaaaaaa x.json
host e.json
page p x /p
  native n e
  await close n
",
        ),
        (
            "x.json",
            r#"{"manifest_version":3,"name":"x","version":"1","permissions":["nativeMessaging"]}"#,
        ),
        (
            "e.json",
            r#"{"name":"e","description":"d","path":"/bin/echo","type":"stdio",
 "allowed_origins":["chrome-extension://aaaaaaaaaaaaaaaaaaaaaaaaaaaaaaaa/"]}"#,
        ),
    ],
    path: "/bin/echo",
};

/// The frame of `{"op":"ping"}`.
const PING: &[u8] = b"\x0d\0\0\0{\"op\":\"ping\"}";

/// The frame of 1, and two bytes of another frame.
const UNASKED: &[u8] = b"\x01\0\0\x001\0\0";

/// What a run came to: its status, the journal that it printed, and what its host was sent.
#[derive(Drop)]
struct Came {
    status: Status,
    journal: Vec<u8>,
    sent: Vec<u8>,
}

/// A shelf of the play's files.
fn shelf_of(alloc: Global, play: &Play) -> Result<MemoryShelf, AllocError> {
    let mut files = Vec::new(alloc);
    for (name, text) in play.files {
        files.push(MemoryFile {
            name: String::from_str(alloc, name)?,
            bytes: Vec::from_slice(alloc, text.as_bytes())?,
        })?;
    }
    Ok(MemoryShelf {
        files,
        fails_at: Vec::new(alloc),
        reads: 0,
        faults: 0,
    })
}

/// An empty sink with room for a journal.
fn sink(alloc: Global) -> MemorySink {
    MemorySink {
        bytes: Vec::new(alloc),
        room: 65_536,
        fails_at: Vec::new(alloc),
        writes: 0,
        faults: 0,
    }
}

/// Runs the play in rounds through the top call, where its host writes these bytes.
fn run(alloc: Global, play: &Play, writes: &[u8]) -> Result<Came, AllocError> {
    let mut words = Vec::new(alloc);
    for word in ["run", "--rounds", "s"] {
        words.push(String::from_str(alloc, word)?)?;
    }
    let mut children = Vec::new(alloc);
    children.push(MemoryChild {
        path: String::from_str(alloc, play.path)?,
        writes: Vec::from_slice(alloc, writes)?,
        failing_starts: Vec::new(alloc),
        failing_reads: Vec::new(alloc),
        failing_writes: Vec::new(alloc),
    })?;
    let mut shelf = shelf_of(alloc, play)?;
    let mut starter = MemoryStarter::new(alloc, &children, 64);
    let mut out = sink(alloc);
    let mut err = sink(alloc);
    let status = wx(alloc, &words, &mut shelf, &mut starter, &mut out, &mut err);
    let mut sent = Vec::new(alloc);
    for record in starter.records() {
        sent.extend_from_slice(&record.sent)?;
    }
    Ok(Came {
        status,
        journal: out.bytes,
        sent,
    })
}

/// What the kit writes with the echo over these bytes, and how it ends.
fn echoed<R: Wait>(rt: &R, alloc: Global, read: &[u8]) -> Result<(Vec<u8>, KitEnd), AllocError> {
    let mut echo: Box<dyn Handler> = Box::new(alloc, Echo)?;
    let mut input = MemoryOut {
        bytes: read,
        at: 0,
        ended: false,
        fails_at: &[],
        reads: 0,
        faults: 0,
    };
    let mut output = MemoryIn {
        sent: Vec::new(alloc),
        room: 65_536,
        closed: false,
        fails_at: &[],
        writes: 0,
        faults: 0,
    };
    let end = serve_kit(rt, alloc, &mut echo, &mut input, &mut output);
    Ok((output.sent, end))
}

/// What the check says of channel 0 of the journal in this text.
fn pipe_of(alloc: Global, text: &[u8]) -> Result<Option<bool>, Fail> {
    match Journal::read(alloc, text) {
        Ok(journal) => Ok(pipe_check(&journal, ChannelNo(0))),
        Err(_) => Err(Fail::new("no journal")),
    }
}

/// What the scene sent to a host that says nothing is given to the kit; what the kit wrote is what the host of a second
/// run writes. That run sends the same, and its pipe is good.
#[test]
fn the_kits_echo_is_a_good_pipe(rt: HostRuntime) -> Result<(), Fail> {
    let alloc = rt.alloc();
    let silent = run(alloc, &HELPER, b"")?;
    assert_eq!(rt; silent.sent.as_slice(), PING);
    let (written, end) = echoed(&rt, alloc, &silent.sent)?;
    assert_eq!(rt; end, KitEnd::Exited);
    assert_eq!(rt; written.as_slice(), PING);
    let answered = run(alloc, &HELPER, &written)?;
    assert_eq!(rt; answered.status, Status::Done);
    assert_eq!(rt; answered.sent, silent.sent);
    assert_eq!(rt; pipe_of(alloc, &answered.journal)?, Some(true));
    Ok(())
}

/// A host that writes what it was not sent is no good pipe.
#[test]
fn what_was_never_posted_is_no_good_pipe(rt: HostRuntime) -> Result<(), Fail> {
    let alloc = rt.alloc();
    let came = run(alloc, &LISTENER, UNASKED)?;
    assert_eq!(rt; came.status, Status::Done);
    assert!(rt; came.sent.is_empty());
    assert_eq!(rt; pipe_of(alloc, &came.journal)?, Some(false));
    Ok(())
}

const USAGE: &[u8] = b"wx: usage\n";

/// The words by which a browser starts a host are for the program's `main`: the top call has no such command.
#[test]
fn a_hosts_words_are_no_command(rt: HostRuntime) -> Result<(), Fail> {
    let alloc = rt.alloc();
    let mut words = Vec::new(alloc);
    words.push(String::from_str(
        alloc,
        "chrome-extension://aaaaaaaaaaaaaaaaaaaaaaaaaaaaaaaa/",
    )?)?;
    assert!(rt; is_host_call(&words));
    let mut shelf = shelf_of(alloc, &LISTENER)?;
    let mut starter = MemoryStarter::new(alloc, &[], 0);
    let mut out = sink(alloc);
    let mut err = sink(alloc);
    let status = wx(alloc, &words, &mut shelf, &mut starter, &mut out, &mut err);
    assert_eq!(rt; status, Status::Usage);
    assert!(rt; out.bytes.is_empty());
    assert_eq!(rt; err.bytes.as_slice(), USAGE);
    Ok(())
}
