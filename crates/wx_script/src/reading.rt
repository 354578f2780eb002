//! Reading a scene line by line.
ghost use Rattle.std.specs.Prelude.{◌≡◌, ◌<◌, ◌^◌, length, OnOk, IfErr};
ghost use Rattle.wx_script.specs.Adding.{so_far, IsIndexed, MakesDraft};
ghost use Rattle.wx_script.specs.Draft.{fresh};
ghost use Rattle.wx_script.specs.Reading.{first_line, behind_line, ReadsDraft, ReadsResult, NamesALine};
ghost use Rattle.wx_script.specs.declared.scene.SceneReadFault.TheVariants as fault;
ghost use Rattle.wx_script.specs.Scene.{lines_of, text_added, lines_added, fault_at, scene_from, scene_of};

use crate::draft::{Draft, LineFault, add_line};
use crate::line::line_of;
use crate::scene::{Scene, SceneFault, SceneKind, SceneReadFault};
use std::alloc::Global;

/// The first line of every scene.
const HEAD: &[u8; 17] = b"wx scene 1 chrome";

/// The bytes up to the first line feed, and what stands after it.
fn split_line(text: &[u8]) -> (&[u8], &[u8])
    ensures line { result.0.now ≡ first_line text.now }
    ensures rest { result.1.now ≡ behind_line text.now }
{
    for (i, byte) in text.iter().enumerate() {
        if *byte == b'\n' {
            return (&text[..i], &text[i + 1..]);
        }
    }
    (text, &text[text.len()..])
}

fn add_text(draft: &mut Draft, alloc: Global, text: &[u8]) -> Result<(), LineFault>
    requires { IsIndexed draft.old }
    ensures made { MakesDraft (so_far draft.new) result (text_added (so_far draft.old) text.now) }
    ensures indexed { OnOk result (IsIndexed draft.new) }
{
    match line_of(text) {
        Some(line) => add_line(draft, alloc, line),
        None => Err(LineFault::Bad(SceneKind::Form)),
    }
}

fn bad(line: u64, kind: SceneKind) -> SceneReadFault
    ensures { result ≡ fault.Bad (fault_at line kind) }
{
    SceneReadFault::Bad(SceneFault { line, kind })
}

/// Takes the lines after the head line.
#[tactic(auto, using(crate::proofs::ReadingLemmas::lines))]
fn add_lines(draft: &mut Draft, alloc: Global, text: &[u8]) -> Result<(), SceneReadFault>
    requires numbers { length text.now < 2 ^ 63 }
    requires indexed { IsIndexed draft.old }
    ensures { ReadsDraft (so_far draft.new) result (lines_added 2 (so_far draft.old) (lines_of text.now)) }
{
    let mut left = text;
    let mut number = 2u64;
    while !left.is_empty() {
        let (line, rest) = split_line(left);
        match add_text(draft, alloc, line) {
            Ok(()) => {}
            Err(LineFault::Bad(kind)) => return Err(bad(number, kind)),
            Err(LineFault::NoMemory) => return Err(SceneReadFault::NoMemory),
        }
        number += 1;
        left = rest;
    }
    Ok(())
}

/// The scene of the lines after the head line.
fn read_body(alloc: Global, text: &[u8]) -> Result<Scene, SceneReadFault>
    requires { length text.now < 2 ^ 63 }
    ensures { ReadsResult result (scene_from (lines_added 2 fresh (lines_of text.now))) }
{
    let mut draft = Draft::new(alloc);
    match add_lines(&mut draft, alloc, text) {
        Ok(()) => {
            let Draft {
                extensions,
                hosts,
                files,
                endpoints,
                ..
            } = draft;
            Ok(Scene::new(extensions, hosts, files, endpoints))
        }
        Err(fault) => Err(fault),
    }
}

impl Scene {
    /// Reads the scene that bytes spell, or names the first faulty line. On one line the tests are made in the
    /// order `Head`, `Form`, `Order`, `Id`, `Repeated`, `Unknown`, `Url`, `Unbound`, `Json`, `Many`.
    #[tactic(auto, using(crate::proofs::ReadingLemmas::lines, crate::proofs::FaultLemmas::names_a_line))]
    pub fn read(alloc: Global, bytes: &[u8]) -> Result<Scene, SceneReadFault>
        ensures exact { ReadsResult result (scene_of bytes.now) }
        // `Missing` and `Large` are for the caller, who opens the file.
        ensures fault { IfErr result NamesALine }
    {
        let (head, rest) = split_line(bytes);
        if head == HEAD.as_slice() {
            read_body(alloc, rest)
        } else {
            Err(bad(1, SceneKind::Head))
        }
    }
}
