//! Faulty scenes: the first faulty line, and what is wrong with it.
use crate::{end, pages};
use std::alloc::{AllocError, Global};
use std::test::Fail;
use wx_script::{Scene, SceneFault, SceneKind, SceneReadFault};

/// What stands above the lines of a case.
#[derive(Clone, Copy)]
enum Above {
    Nothing,
    /// The head line.
    Head,
    /// An extension `x` in line 2.
    Extension,
    /// Its page `p` in line 3.
    Page,
    /// In line 4 a `connect` of the page, which binds the channel `ch`.
    Channel,
    /// In line 4 a `send` of the page, which binds the request `r`.
    Asked,
    /// In line 4 an `await request` of the page, which binds the request `r`.
    Received,
    /// In line 4 a `native` of the page, which binds the channel `ch`.
    Started,
    /// In line 4 an `ask` of the page, which binds the request `r`.
    AskedHost,
    /// The extension, and 1,024 of its pages in lines 3 to 1,026.
    Pages,
}

use Above::{Asked, AskedHost, Channel, Extension, Head, Nothing, Page, Pages, Received, Started};
use SceneKind::{Form, Id, Json, Many, Order, Repeated, Unbound, Unknown, Url};

const EXTENSION: &str = "wx scene 1 chrome\nextension x aaaaaaaaaaaaaaaaaaaaaaaaaaaaaaaa\n";

/// The text of a scene whose last lines these are.
fn scene_text(alloc: Global, above: Above, below: &str) -> Result<String, AllocError> {
    match above {
        Nothing => String::from_str(alloc, below),
        Head => format!(in alloc; "wx scene 1 chrome\n{below}"),
        Extension => format!(in alloc; "{EXTENSION}{below}"),
        Page => format!(in alloc; "{EXTENSION}page p x /p\n{below}"),
        Channel => format!(in alloc; "{EXTENSION}page p x /p\n  connect ch own\n{below}"),
        Asked => format!(in alloc; "{EXTENSION}page p x /p\n  send r own 1\n{below}"),
        Received => format!(in alloc; "{EXTENSION}page p x /p\n  await request r\n{below}"),
        Started => format!(in alloc; "{EXTENSION}page p x /p\n  native ch e\n{below}"),
        AskedHost => format!(in alloc; "{EXTENSION}page p x /p\n  ask r e 1\n{below}"),
        Pages => {
            let mut text = pages(alloc, 1024)?;
            text.push_str(below)?;
            Ok(text)
        }
    }
}

/// What stands above, the lines of the case, the first faulty line, and what is wrong with it.
type Case = (Above, &'static str, u64, SceneKind);

/// What is wrong with the text of a scene.
fn fault_of(alloc: Global, text: &str) -> Option<SceneReadFault> {
    match Scene::read(alloc, text.as_bytes()) {
        Ok(scene) => {
            end(scene);
            None
        }
        Err(fault) => Some(fault),
    }
}

/// The first line is not the head line.
fn head_lines() -> &'static [Case] {
    &[
        (Nothing, "", 1, SceneKind::Head),
        (Nothing, "\n", 1, SceneKind::Head),
        (Nothing, "\nwx scene 1 chrome\n", 1, SceneKind::Head),
        (
            Nothing,
            "# a scene\nwx scene 1 chrome\n",
            1,
            SceneKind::Head,
        ),
        (Nothing, "wx scene 1 mdn\n", 1, SceneKind::Head),
        (Nothing, "wx scene 1 chrome\r\n", 1, SceneKind::Head),
        (Nothing, "wx scene 1 chrome \n", 1, SceneKind::Head),
        (Nothing, " wx scene 1 chrome\n", 1, SceneKind::Head),
        (Nothing, "wx  scene 1 chrome\n", 1, SceneKind::Head),
        (Nothing, "wx scene 01 chrome\n", 1, SceneKind::Head),
        (
            Nothing,
            "wx scene 1 chromewx scene 1 chrome",
            1,
            SceneKind::Head,
        ),
        (Nothing, "extension x abc\n  take\n", 1, SceneKind::Head),
    ]
}

/// Lines of no form, but for declarations and commands.
fn lines() -> &'static [Case] {
    &[
        (Head, "wx scene 1 chrome", 2, Form),
        (Head, "wx scene 1 chrome\n", 2, Form),
        (Head, "\nwx scene 1 chrome\n", 3, Form),
        (Head, " \n", 2, Form),
        (Head, "  \n", 2, Form),
        (Head, "\r\n", 2, Form),
        (Head, "\n\n\t\n", 4, Form),
        (Head, " # a scene\n", 2, Form),
        (Head, "  # take\n", 2, Form),
        (Head, "  web w 7 0 ftp://a.b/\n", 2, Form),
    ]
}

/// Declarations of extensions, hosts and pages that have no form.
fn declarations() -> &'static [Case] {
    &[
        (Head, "page  p x /p\n", 2, Form),
        (Head, "page p x /p \n", 2, Form),
        (Head, "page p x /p\r\n", 2, Form),
        (Head, "page p x p\n", 2, Form),
        (Head, "page p x\n", 2, Form),
        (Head, "page\tp x /p\n", 2, Form),
        (Head, "page same x /p\n", 2, Form),
        (Head, "Page p x /p\n", 2, Form),
        (Head, "extension X abc\n", 2, Form),
        (Head, "extension 1x abc\n", 2, Form),
        (Head, "extension same abc\n", 2, Form),
        (Head, "extension x \n", 2, Form),
        (Head, "extension x\n", 2, Form),
        (Head, "extension x abc \n", 2, Form),
        (Head, "extension x abc  x.json\n", 2, Form),
        (Head, "extension x abc x.json \n", 2, Form),
        (Head, "extension x abc x.json y.json\n", 2, Form),
        (
            Head,
            "extension a23456789012345678901234567890123 abc\n",
            2,
            Form,
        ),
        (Head, "host\n", 2, Form),
        (Head, "host \n", 2, Form),
        (Head, "host e.json \n", 2, Form),
        (Head, "host e.json f.json\n", 2, Form),
        (Head, "host e.json\r\n", 2, Form),
    ]
}

/// Content scripts and web pages of no form.
fn documents() -> &'static [Case] {
    &[
        (Head, "content c x 7 0\n", 2, Form),
        (Head, "content c x 7 0 \n", 2, Form),
        (Head, "content c x 07 0 http://a/\n", 2, Form),
        (Head, "content c x 4294967296 0 http://a/\n", 2, Form),
        (Head, "content c x 7 4294967296 http://a/\n", 2, Form),
        (Head, "content c x 7 0 http://a/ \n", 2, Form),
        (Head, "content same x 7 0 http://a/\n", 2, Form),
        (Head, "content c same 7 0 http://a/\n", 2, Form),
        (Head, "web w 7 http://a/\n", 2, Form),
        (Head, "web w 7 0 http://a/ b\n", 2, Form),
        (Head, "web w +7 0 http://a/\n", 2, Form),
        (Head, "web w x 7 0 http://a/\n", 2, Form),
        (Head, "web w 7 0 http://a/\t\n", 2, Form),
    ]
}

/// Commands of no form, but for those on requests.
fn commands() -> &'static [Case] {
    &[
        (Page, "take\n", 4, Form),
        (Page, " take\n", 4, Form),
        (Page, "   take\n", 4, Form),
        (Page, "\t\ttake\n", 4, Form),
        (Page, "  take \n", 4, Form),
        (Page, "  take\r\n", 4, Form),
        (Page, "  take 1\n", 4, Form),
        (Page, "  connect ch\n", 4, Form),
        (Page, "  connect same own\n", 4, Form),
        (Page, "  connect ch own name\n", 4, Form),
        (Page, "  connect ch own name \n", 4, Form),
        (Page, "  connect ch own name a b\n", 4, Form),
        (Page, "  connect ch own  name a\n", 4, Form),
        (Page, "  connect ch own name a\r\n", 4, Form),
        (Page, "  await\n", 4, Form),
        (Page, "  await connect\n", 4, Form),
        (Page, "  await connect same\n", 4, Form),
        (Page, "  await  connect ch\n", 4, Form),
        (Page, "  await take ch\n", 4, Form),
        (Page, "  await message Ch\n", 4, Form),
        (Channel, "  post ch\n", 5, Form),
        (Channel, "  post ch \n", 5, Form),
        (Channel, "  post  ch 1\n", 5, Form),
        (Channel, "  post CH 1\n", 5, Form),
        (Channel, "  disconnect ch \n", 5, Form),
        (Channel, "  await close ch ch\n", 5, Form),
    ]
}

/// Flags and targets of no form.
fn flags_and_targets() -> &'static [Case] {
    &[
        (Page, "  listen\n", 4, Form),
        (Page, "  listen \n", 4, Form),
        (Page, "  listen connect \n", 4, Form),
        (Page, "  listen connect  message\n", 4, Form),
        (Page, "  listen connect none\n", 4, Form),
        (Page, "  listen none connect\n", 4, Form),
        (Page, "  listen message connect\n", 4, Form),
        (Page, "  listen connect connect\n", 4, Form),
        (
            Page,
            "  listen external-message external-connect\n",
            4,
            Form,
        ),
        (Page, "  listen external\n", 4, Form),
        (Page, "  connect c any\n", 4, Form),
        (Page, "  connect c ext\n", 4, Form),
        (Page, "  connect c ext same\n", 4, Form),
        (Page, "  connect c ext x y\n", 4, Form),
        (Page, "  connect c tab\n", 4, Form),
        (Page, "  connect c tab 07\n", 4, Form),
        (Page, "  connect c tab 4294967296\n", 4, Form),
        (Page, "  connect c tab 7 \n", 4, Form),
        (Page, "  connect c tab 7 frame\n", 4, Form),
        (Page, "  connect c tab 7 frame 0 n\n", 4, Form),
        (Page, "  connect c tab 7 frame name n\n", 4, Form),
    ]
}

/// Commands on requests that have no form.
fn requests() -> &'static [Case] {
    &[
        (Page, "  send r own\n", 4, Form),
        (Page, "  send r own \n", 4, Form),
        (Page, "  send r 1\n", 4, Form),
        (Page, "  send same own 1\n", 4, Form),
        (Page, "  send r ext x\n", 4, Form),
        (Page, "  send r tab 7\n", 4, Form),
        (Page, "  send r tab 7 frame\n", 4, Form),
        (Page, "  send r tab 7 frame 1\n", 4, Form),
        (Page, "  send r tab 7 frame x 1\n", 4, Form),
        (Received, "  reply r\n", 5, Form),
        (Received, "  reply r \n", 5, Form),
        (Received, "  reply same\n", 5, Form),
        (Received, "  reply same \n", 5, Form),
        (Received, "  reply same same\n", 5, Form),
        (Received, "  reply same r 1\n", 5, Form),
        (Received, "  decline\n", 5, Form),
        (Received, "  decline r \n", 5, Form),
        (Received, "  decline same\n", 5, Form),
        (Page, "  await request\n", 4, Form),
        (Asked, "  await reply r r\n", 5, Form),
    ]
}

/// Commands that start a native host, of no form.
fn natives() -> &'static [Case] {
    &[
        (Page, "native n e\n", 4, Form),
        (Page, "  native\n", 4, Form),
        (Page, "  native n\n", 4, Form),
        (Page, "  native n \n", 4, Form),
        (Page, "  native e.f g\n", 4, Form),
        (Page, "  native same e\n", 4, Form),
        (Page, "  native  n e\n", 4, Form),
        (Page, "  native n  e\n", 4, Form),
        (Page, "  native n e \n", 4, Form),
        (Page, "  native n e 1\n", 4, Form),
        (Page, "  native n e\r\n", 4, Form),
        (Page, "  native n e\x7f\n", 4, Form),
        (Page, "  native n \u{e9}\n", 4, Form),
        (Page, "  repeat 2 native n\n", 4, Form),
        (Page, "  ask\n", 4, Form),
        (Page, "  ask r\n", 4, Form),
        (Page, "  ask r e\n", 4, Form),
        (Page, "  ask r e \n", 4, Form),
        (Page, "  ask same e 1\n", 4, Form),
        (Page, "  ask  r e 1\n", 4, Form),
        (Page, "  ask r  e 1\n", 4, Form),
        (Page, "  ask r e\t 1\n", 4, Form),
        (Page, "  await native n\n", 4, Form),
    ]
}

/// Counts, and what is repeated.
fn counts() -> &'static [Case] {
    &[
        (Page, "  echo\n", 4, Form),
        (Page, "  echo 0\n", 4, Form),
        (Page, "  echo 01\n", 4, Form),
        (Page, "  echo +1\n", 4, Form),
        (Page, "  echo 1 \n", 4, Form),
        (Page, "  echo 1000001\n", 4, Form),
        (Page, "  echo 99999999999999999999\n", 4, Form),
        (Page, "  repeat take\n", 4, Form),
        (Page, "  repeat 2\n", 4, Form),
        (Page, "  repeat 2 \n", 4, Form),
        (Page, "  repeat 0 take\n", 4, Form),
        (Page, "  repeat 01 take\n", 4, Form),
        (Page, "  repeat 2  take\n", 4, Form),
        (Page, "  repeat 1000001 take\n", 4, Form),
        (Page, "  repeat 4294967297 take\n", 4, Form),
        (Page, "  repeat 2 repeat 2 take\n", 4, Form),
        (Page, "  repeat 2 page q x /q\n", 4, Form),
        (Channel, "# a comment\n\n  echo 1x", 7, Form),
    ]
}

/// Script lines above every endpoint, and texts that are no id of an extension.
fn order_and_ids() -> &'static [Case] {
    &[
        (Head, "  take\n", 2, Order),
        (Head, "  take", 2, Order),
        (Extension, "  listen none\n", 3, Order),
        (Head, "\n  echo 1\n", 3, Order),
        (Head, "# a comment\n\n  post ch {\n", 4, Order),
        (Head, "  repeat 3 disconnect ch\n", 2, Order),
        (Head, "  connect c ext nobody\n", 2, Order),
        (Head, "  send r own {\n", 2, Order),
        (Head, "  native n e\n", 2, Order),
        (Extension, "  ask r e {\n", 3, Order),
        (Head, "extension x abc\n", 2, Id),
        (
            Head,
            "extension a2345678901234567890123456789012 abc\n",
            2,
            Id,
        ),
        (
            Head,
            "extension x aaaaaaaaaaaaaaaaaaaaaaaaaaaaaaaq\n",
            2,
            Id,
        ),
        (Head, "extension x aaaaaaaaaaaaaaaaaaaaaaaaaaaaaaa\n", 2, Id),
        (
            Head,
            "extension x aaaaaaaaaaaaaaaaaaaaaaaaaaaaaaaaa\n",
            2,
            Id,
        ),
        (
            Head,
            "extension x Aaaaaaaaaaaaaaaaaaaaaaaaaaaaaaaa\n",
            2,
            Id,
        ),
        (Head, "extension x abc x.json\n", 2, Id),
        (Extension, "extension x abc\n", 3, Id),
        (Extension, "# again\nextension x abc", 4, Id),
    ]
}

/// Names, ids and files that stood in an earlier line.
fn repeated() -> &'static [Case] {
    &[
        (
            Extension,
            "extension y aaaaaaaaaaaaaaaaaaaaaaaaaaaaaaaa\n",
            3,
            Repeated,
        ),
        (
            Extension,
            "extension x aaaaaaaaaaaaaaaaaaaaaaaaaaaaaaab x.json\n",
            3,
            Repeated,
        ),
        (
            Extension,
            "\n\nextension x aaaaaaaaaaaaaaaaaaaaaaaaaaaaaaaa\n",
            5,
            Repeated,
        ),
        (Page, "page p x /q\n", 4, Repeated),
        (Page, "page p nobody /p\n", 4, Repeated),
        (Page, "content p nobody 7 0 ftp://a.b/\n", 4, Repeated),
        (Page, "web p 7 0 ftp://a.b/\n", 4, Repeated),
        (Pages, "page p0 x /p\n", 1027, Repeated),
        (Head, "host e.json\nhost e.json\n", 3, Repeated),
        (Head, "host a/e.json\nhost b/e.json\n", 3, Repeated),
        (Head, "host e.json\nhost a/b/e.json\n", 3, Repeated),
        (Head, "host a/\nhost b/\n", 3, Repeated),
    ]
}

/// Extensions that are not declared above, and texts that are no address of a document.
fn unknown_and_urls() -> &'static [Case] {
    &[
        (Head, "page p x /p\n", 2, Unknown),
        (
            Head,
            "page p x /p\nextension x aaaaaaaaaaaaaaaaaaaaaaaaaaaaaaaa\n",
            2,
            Unknown,
        ),
        (
            Head,
            "#extension x aaaaaaaaaaaaaaaaaaaaaaaaaaaaaaaa\npage p x /p\n",
            3,
            Unknown,
        ),
        (Page, "page q p /q\n", 4, Unknown),
        (Page, "content z nobody 7 0 ftp://a/\n", 4, Unknown),
        (Page, "  connect c ext nobody\n", 4, Unknown),
        (Page, "  connect c ext p name n\n", 4, Unknown),
        (Page, "  send r ext nobody {\n", 4, Unknown),
        (Pages, "page q nobody /q\n", 1027, Unknown),
        (Head, "web w 7 0 ftp://a.b/\n", 2, Url),
        (Head, "web w 7 0 file:///x\n", 2, Url),
        (Head, "web w 7 0 http://\n", 2, Url),
        (Head, "web w 7 0 /f\n", 2, Url),
        (Extension, "content c x 7 0 ftp://a.b/\n", 3, Url),
        (Pages, "web w 7 0 ftp://a.b/\n", 1027, Url),
    ]
}

/// Variables that no earlier command of the script binds in the sort that is used.
fn unbound() -> &'static [Case] {
    &[
        (Page, "  post ch 1\n", 4, Unbound),
        (Page, "  post ch {\n", 4, Unbound),
        (Page, "  disconnect ch\n  connect ch own\n", 4, Unbound),
        (Page, "  await message ch\n", 4, Unbound),
        (Page, "  await close ch\n  await connect ch\n", 4, Unbound),
        (Page, "  repeat 2 post c 1\n", 4, Unbound),
        (Page, "#   connect ch own\n  post ch 1\n", 5, Unbound),
        (Channel, "  post c 1\n", 5, Unbound),
        (Channel, "page q x /q\n  post ch 1\n", 6, Unbound),
        (Received, "page q x /q\n  decline r\n", 6, Unbound),
        (Page, "  reply nope {\n", 4, Unbound),
        (Page, "  await reply r\n  send r own 1\n", 4, Unbound),
        (Asked, "  reply r 1\n", 5, Unbound),
        (Asked, "  reply same r\n", 5, Unbound),
        (Asked, "  decline r\n", 5, Unbound),
        (Asked, "  post r 1\n", 5, Unbound),
        (Received, "  await reply r\n", 5, Unbound),
        (Received, "  await close r\n", 5, Unbound),
        (Channel, "  await reply ch\n", 5, Unbound),
        (Channel, "  reply ch 1\n", 5, Unbound),
    ]
}

/// Variables that are bound by the start of a native host, in another sort than is used.
fn unbound_by_natives() -> &'static [Case] {
    &[
        (Page, "  post n 1\n  native n e\n", 4, Unbound),
        (Page, "  await reply r\n  ask r e 1\n", 4, Unbound),
        (Started, "  await reply ch\n", 5, Unbound),
        (Started, "  reply ch 1\n", 5, Unbound),
        (Started, "  decline ch\n", 5, Unbound),
        (Started, "  post n 1\n", 5, Unbound),
        (Started, "page q x /q\n  post ch 1\n", 6, Unbound),
        (AskedHost, "  post r {\n", 5, Unbound),
        (AskedHost, "  disconnect r\n", 5, Unbound),
        (AskedHost, "  await message r\n", 5, Unbound),
        (AskedHost, "  await close r\n", 5, Unbound),
        (AskedHost, "  reply r 1\n", 5, Unbound),
        (AskedHost, "  reply same r\n", 5, Unbound),
        (AskedHost, "page q x /q\n  await reply r\n", 6, Unbound),
    ]
}

/// Messages that are no JSON text, and endpoints that are one too many.
fn json_and_many() -> &'static [Case] {
    &[
        (Channel, "  post ch {\n", 5, Json),
        (Channel, "  post ch 01\n", 5, Json),
        (Channel, "  post ch [1,]\n", 5, Json),
        (Channel, "  post ch 1 2\n", 5, Json),
        (Channel, "  post ch nul", 5, Json),
        (Channel, "\n# a comment\n  repeat 2 post ch }\n", 7, Json),
        (Page, "  await connect c\n  post c tru\n", 5, Json),
        (Page, "  send r own {\n", 4, Json),
        (Page, "  send r own name n\n", 4, Json),
        (Page, "  send r tab 7 framex\n", 4, Json),
        (Page, "  send r tab 7  frame 1\n", 4, Json),
        (Page, "  send r tab 7 frame 1 x\n", 4, Json),
        (Received, "  reply r {\n", 5, Json),
        (Started, "  post ch {\n", 5, Json),
        (Page, "  ask r e {\n", 4, Json),
        (Page, "  ask r e f 1\n", 4, Json),
        (Page, "  ask r e 1 2\n", 4, Json),
        (Page, "  repeat 2 ask r e tru", 4, Json),
        (Pages, "page p x /p\n", 1027, Many),
        (Pages, "page p x /p", 1027, Many),
        (
            Pages,
            "# a comment\n\npage p x /p\n  post ch {\n",
            1029,
            Many,
        ),
        (Pages, "content c x 7 0 http://a/\n", 1027, Many),
        (Pages, "web w 7 0 http://a/\n", 1027, Many),
    ]
}

#[test]
fn first_faulty_lines(rt: HostRuntime) -> Result<(), Fail> {
    let table = [
        head_lines(),
        lines(),
        declarations(),
        documents(),
        commands(),
        flags_and_targets(),
        requests(),
        natives(),
        counts(),
        order_and_ids(),
        repeated(),
        unknown_and_urls(),
        unbound(),
        unbound_by_natives(),
        json_and_many(),
    ];
    for cases in table {
        for (above, below, line, kind) in cases {
            let text = scene_text(rt.alloc(), *above, below)?;
            let fault = fault_of(rt.alloc(), text.as_str());
            let expected = SceneFault {
                line: *line,
                kind: *kind,
            };
            assert_eq!(rt; fault, Some(SceneReadFault::Bad(expected)), "{below}");
        }
    }
    Ok(())
}
