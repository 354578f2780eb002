//! Rows of the check: journals as text, and what it says of a channel.
use crate::pipe_check;
use std::alloc::Global;
use std::test::Fail;
use wx_id::ChannelNo;
use wx_journal::Journal;

/// A journal behind its head, and what is said of channels 0 and 1.
type Row = (&'static str, Option<bool>, Option<bool>);

const OPENED: &str = "wx journal 1 chrome
c0 enter page aaaaaaaaaaaaaaaaaaaaaaaaaaaaaaaa 2:/w -> context 0
c0 connect_native 1:e -> channel 0
";

const ROWS: [Row; 6] = [
    ("", Some(true), None),
    (
        "c0 post 0 1:1 -> posted\nh0 host_take -> text 2\nh0 host_said 1:1 -> passed\nc0 take -> message 0 4\n",
        Some(true),
        None,
    ),
    (
        "c0 post 0 1:1 -> posted\nh0 host_take -> text 2\nh0 host_said 1:2 -> passed\nc0 take -> message 0 4\n",
        Some(false),
        None,
    ),
    (
        "h0 host_said 1:1 -> passed\nc0 take -> message 0 2\n",
        Some(false),
        None,
    ),
    (
        "h0 host_said 1:1 -> passed
c0 take -> message 0 2
h0 host_ended cut 2 -> done
c0 take -> disconnected 0 4
c0 leave -> done
",
        Some(false),
        None,
    ),
    (
        "c0 post 0 1:1 -> posted\nc0 post 0 1:2 -> posted\nh0 host_said 1:1 -> passed\nc0 take -> message 0 4\n",
        Some(true),
        None,
    ),
];

/// A helper extension sends its program a message, which comes back. Others ask it in between.
const HELPER: &str = r#"wx journal 1 chrome
c0 enter page aaaaaaaaaaaaaaaaaaaaaaaaaaaaaaaa 6:/sw.js -> context 0
c0 listen cm-M -> done
c1 enter content aaaaaaaaaaaaaaaaaaaaaaaaaaaaaaaa 7 0 24:https://www.example.com/ -> context 1
c2 enter content aaaaaaaaaaaaaaaaaaaaaaaaaaaaaaaa 7 3 29:https://www.example.com/frame -> context 2
c2 listen -m-- -> done
c3 enter page aaaaaaaaaaaaaaaaaaaaaaaaaaaaaaaa 11:/popup.html -> context 3
c4 enter web 7 0 24:https://www.example.com/ -> context 4
c1 send own 15:{"from":"main"} -> request 0
c3 send tab 7 3 7:"where" -> request 1
c4 send ext aaaaaaaaaaaaaaaaaaaaaaaaaaaaaaaa 15:{"from":"site"} -> request 2
c0 take -> asked 0 7
c2 take -> asked 1 8
c0 reply 0 15:{"from":"main"} -> first
c1 take -> replied 0 12
c2 reply 1 6:"here" -> first
c3 take -> replied 1 14
c0 take -> asked 2 9
c1 leave -> done
c2 leave -> done
c3 leave -> done
c0 reply 2 15:{"from":"site"} -> first
c4 take -> replied 2 20
c0 connect_native 16:com.example.echo -> channel 0
c4 leave -> done
c0 post 0 13:{"op":"ping"} -> posted
h0 host_take -> text 24
h0 host_said 13:{"op":"ping"} -> passed
c0 take -> message 0 26
c0 leave -> done
h0 host_take -> end
h0 host_ended exited -> done
"#;

/// What is said of channels 0 and 1 of this journal.
fn said_of(alloc: Global, text: &[u8]) -> Result<(Option<bool>, Option<bool>), Fail> {
    let Ok(journal) = Journal::read(alloc, text) else {
        return Err(Fail::new("no journal"));
    };
    Ok((
        pipe_check(&journal, ChannelNo(0)),
        pipe_check(&journal, ChannelNo(1)),
    ))
}

#[test]
fn a_pipe_is_good_where_what_came_was_posted(rt: HostRuntime) -> Result<(), Fail> {
    let alloc = rt.alloc();
    for (text, first, second) in &ROWS {
        let mut bytes = Vec::from_slice(alloc, OPENED.as_bytes())?;
        bytes.extend_from_slice(text.as_bytes())?;
        let said = said_of(alloc, &bytes)?;
        assert_eq!(rt; said, (*first, *second));
    }
    let said = said_of(alloc, HELPER.as_bytes())?;
    assert_eq!(rt; said, (Some(true), None));
    Ok(())
}
