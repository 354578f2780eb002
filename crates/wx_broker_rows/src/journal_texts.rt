//! Journals that are read: texts that read and print back, and the first fault of others.
use std::alloc::Global;
use std::process::Abort;
use wx_journal::{Journal, JournalFault, JournalKind, JournalReadFault};

/// The texts of worked examples.
const WORKED: &[&[u8]] = &[
    b"wx journal 1 chrome\nc0 enter page aaaaaaaaaaaaaaaaaaaaaaaaaaaaaaaa 2:/q -> context 0\nc1 enter page aaaaaaaaaaaaaaaaaaaaaaaaaaaaaaaa 2:/p -> context 1\nc1 listen c--- -> done\nc0 connect own 0: -> channel 0\nc1 take -> connected 0 3\nc0 post 0 1:1 -> posted\nc1 take -> message 0 5\nc0 disconnect 0 -> done\nc1 take -> disconnected 0 7\nc0 leave -> done\nc1 leave -> done\n",
    b"wx journal 1 chrome\nc0 enter page aaaaaaaaaaaaaaaaaaaaaaaaaaaaaaaa 2:/s -> context 0\nc1 enter page aaaaaaaaaaaaaaaaaaaaaaaaaaaaaaaa 2:/p -> context 1\nc1 listen -m-- -> done\nc2 enter page aaaaaaaaaaaaaaaaaaaaaaaaaaaaaaaa 2:/q -> context 2\nc2 listen -m-- -> done\nc0 send own 4:\"hi\" -> request 0\nc1 take -> asked 0 5\nc2 take -> asked 0 5\nc1 reply 0 1:1 -> first\nc2 reply 0 1:2 -> late\nc0 take -> replied 0 8\nc1 leave -> done\nc2 decline 0 -> late\nc0 leave -> done\nc2 leave -> done\n",
    b"wx journal 1 chrome\nc0 enter content aaaaaaaaaaaaaaaaaaaaaaaaaaaaaaaa 7 0 12:https://a.b/ -> context 0\nc0 listen c--- -> done\nc1 enter content aaaaaaaaaaaaaaaaaaaaaaaaaaaaaaaa 7 3 13:https://a.b/f -> context 1\nc1 listen c--- -> done\nc2 enter page aaaaaaaaaaaaaaaaaaaaaaaaaaaaaaaa 2:/p -> context 2\nc2 connect tab 7 5 0: -> no_receiver\nc2 connect tab 7 3 0: -> channel 0\nc1 take -> connected 0 6\nc2 connect tab 7 * 0: -> channel 1\nc0 take -> connected 1 8\nc1 take -> connected 1 8\n",
    b"wx journal 1 chrome\nc0 enter page aaaaaaaaaaaaaaaaaaaaaaaaaaaaaaaa 2:/p -> context 0\nc0 listen --C- -> done\nc1 enter page bbbbbbbbbbbbbbbbbbbbbbbbbbbbbbbb 2:/q -> context 1\nc2 enter web 7 0 12:https://a.b/ -> context 2\nc1 connect ext aaaaaaaaaaaaaaaaaaaaaaaaaaaaaaaa 0: -> channel 0\nc2 connect ext aaaaaaaaaaaaaaaaaaaaaaaaaaaaaaaa 0: -> forbidden url\nc0 take -> connected 0 4\nc1 leave -> done\nc2 connect own 0: -> bad_target\n",
    b"wx journal 1 chrome\nc0 enter page aaaaaaaaaaaaaaaaaaaaaaaaaaaaaaaa 2:/p -> context 0\nc0 send_native 1:e 1:0 -> request 0\nh0 host_take -> text 1\nh0 host_said 1:1 -> passed\nc0 take -> replied 0 3\nh0 host_take -> end\nc0 leave -> done\nh0 host_said 1:2 -> ignored\nh0 host_ended exited -> done\n",
    b"wx journal 1 chrome\nc0 enter page aaaaaaaaaaaaaaaaaaaaaaaaaaaaaaaa 2:/p -> context 0\nc0 connect_native 1:e -> channel 0\nh0 host_ended too_long 1869768803 -> done\nc0 take -> disconnected 0 2\nc0 leave -> done\n",
];

/// Each call, context, target and answer to a context.
const CALLS: &[u8] =
    b"wx journal 1 chrome\nc0 enter page aaaaaaaaaaaaaaaaaaaaaaaaaaaaaaaa 2:/p -> context 0\nc1 enter content abcdefghijklmnopabcdefghijklmnop 7 0 12:https://a.b/ -> context 1\nc2 enter web 4294967295 4294967295 13:http://a.b/?q -> context 18446744073709551615\nc0 listen cmCM -> done\nc0 listen ---- -> gone\nc0 listen c-C- -> done\nc0 connect own 3:a\nb -> channel 0\nc0 connect ext abcdefghijklmnopabcdefghijklmnop 0: -> forbidden id\nc0 connect tab 7 5 0: -> forbidden url\nc0 connect tab 7 * 2:\xc3\xa9 -> no_receiver\nc0 post 0 6:[1,\n2] -> posted\nc0 post 1 2:10 -> no_port\nc0 post 1 2:10 -> port_closed\nc0 post 1 2:10 -> too_long\nc0 disconnect 18446744073709551615 -> no_effect\nc0 send own 1:1 -> bad_target\nc0 send tab 7 * 3:\"-\" -> request 0\nc0 reply 0 4:10.5 -> first\nc0 reply 0 4:null -> late\nc0 reply 0 2:{} -> not_yours\nc0 decline 0 -> late\nc0 leave -> done\n";

/// Each event.
const EVENTS: &[u8] =
    b"wx journal 1 chrome\nc0 take -> connected 0 3\nc0 take -> message 0 4\nc0 take -> disconnected 0 5\nc0 take -> asked 0 6\nc0 take -> replied 0 7\nc0 take -> closed 0 18446744073709551615\nc0 take -> empty\n";

/// Each call for a native host and of one, and each reason of its end.
const NATIVE_CALLS: &[u8] =
    b"wx journal 1 chrome\nc0 connect_native 1:e -> no_permission\nc0 connect_native 2:.. -> bad_host_name\nc0 connect_native 0: -> host_not_found\nc0 send_native 3:a b 2:[] -> host_forbidden\nh0 host_take -> text 1\nh0 host_take -> empty\nh0 host_take -> end\nh0 host_said 1:1 -> passed\nh0 host_said 1:1 -> ignored\nh18446744073709551615 host_ended start_failed -> done\nh0 host_ended read_failed -> already\nh0 host_ended write_failed -> already\nh0 host_ended too_long 4294967295 -> already\nh0 host_ended bad_json 2 syntax -> already\nh0 host_ended bad_json 0 utf8 -> already\nh0 host_ended bad_json 1024 too_deep -> already\nh0 host_ended bad_json 18446744073709551615 ends -> already\nh0 host_ended cut 5 -> already\nh0 host_ended exited -> already\nh0 host_ended closed -> already\n";

/// What follows the head line and is no run of entry lines, and the place after the longest run.
const BAD_LINES: &[(&[u8], u64)] = &[
    (b"c0 take -> empty", 20),
    (b"c00 take -> empty\n", 20),
    (b"c0 take -> empty\nc1 take -> empty", 37),
    (b"c0 take -> empty\n\n", 37),
    (b"c18446744073709551616 take -> empty\n", 20),
    (b"c take -> empty\n", 20),
    (b"c0  take -> empty\n", 20),
    (b"c0 take -> empty 1\n", 20),
    (b"c0 connect tab 4294967296 0 0: -> no_receiver\n", 20),
    (b"c0 connect tab 7 ** 0: -> no_receiver\n", 20),
    (b"c0 connect tab 7 0: -> no_receiver\n", 20),
    (
        b"c0 connect ext aaaaaaaaaaaaaaaaaaaaaaaaaaaaaaa 0: -> no_receiver\n",
        20,
    ),
    (b"c0 connect own 1:\xff -> no_receiver\n", 20),
    (b"c0 post 0 99:1 -> posted\n", 20),
    (b"c0 post 0 18446744073709551615:1 -> posted\n", 20),
    (b"c0 post 0 0: -> posted\n", 20),
    (b"c0 post 0 1:{ -> posted\n", 20),
    (
        b"c0 enter page aaaaaaaaaaaaaaaaaaaaaaaaaaaaaaaa 1:p -> context 0\n",
        20,
    ),
    (
        b"c0 enter page aaaaaaaaaaaaaaaaaaaaaaaaaaaaaaaa 2:/\xff -> context 0\n",
        20,
    ),
    (b"c0 enter web 7 0 11:https://a.b -> context 0\n", 20),
    (b"c0 enter web 7 0 9:file:///x -> context 0\n", 20),
    (b"h0 host_ended cut -> done\n", 20),
];

fn text_again(alloc: Global, text: &[u8]) -> Option<Vec<u8>> {
    Journal::read(alloc, text).ok()?.print(alloc).ok()
}

fn reads_and_prints_back(rt: &impl Abort, alloc: Global, text: &[u8]) {
    match text_again(alloc, text) {
        Some(again) => assert_eq!(rt; again.as_slice(), text),
        None => assert!(rt; false),
    }
}

fn is_bad(alloc: Global, text: &[u8], place: u64, kind: JournalKind) -> bool {
    match Journal::read(alloc, text) {
        Err(JournalReadFault::Bad(fault)) => fault == JournalFault { place, kind },
        _ => false,
    }
}

fn after_head(alloc: Global, lines: &[u8]) -> Option<Vec<u8>> {
    let mut text = Vec::from_slice(alloc, b"wx journal 1 chrome\n").ok()?;
    text.extend_from_slice(lines).ok()?;
    Some(text)
}

/// A journal without entries.
const NO_ENTRY: &[u8] = b"wx journal 1 chrome\n";

#[test]
fn texts_read_and_print_back(rt: HostRuntime) {
    for text in WORKED {
        reads_and_prints_back(&rt, rt.alloc(), text);
    }
    for text in [NO_ENTRY, CALLS, EVENTS, NATIVE_CALLS] {
        reads_and_prints_back(&rt, rt.alloc(), text);
    }
}

/// Texts whose head line is none.
const NO_HEADS: [&[u8]; 4] = [
    b"",
    b"c0 take -> empty\n",
    b"wx journal 1 chrome",
    b"wx journal 2 chrome\n",
];

#[test]
fn texts_without_the_head_line(rt: HostRuntime) {
    for text in NO_HEADS {
        assert!(rt; is_bad(rt.alloc(), text, 0, JournalKind::Head));
    }
}

#[test]
fn texts_with_a_bad_line(rt: HostRuntime) {
    for (lines, place) in BAD_LINES {
        match after_head(rt.alloc(), lines) {
            Some(text) => assert!(rt; is_bad(rt.alloc(), &text, *place, JournalKind::Line)),
            None => assert!(rt; false),
        }
    }
}
