//! The lines of a run's end, which only a spent run of 65,536 entries would show through the top call.
use crate::endings::lines_of_end;
use std::test::Fail;
use wx_id::HostNo;
use wx_journal::Journal;
use wx_run::{RunEnd, SpentWho};
use wx_script::Scene;

const SCENE: &[u8] = b"wx scene 1 chrome
extension x aaaaaaaaaaaaaaaaaaaaaaaaaaaaaaaa
page p x /p
  await connect ch
page q x /q
page r x /r
  listen connect
  await connect ch
  await message ch
page s x /s
  connect ch own
  await close ch
";

/// How a run of the scene ends, and its lines.
const ENDS: [(RunEnd, &str); 4] = [
    (RunEnd::Done, ""),
    (RunEnd::Spent(SpentWho::Endpoint(0)), "wx: spent: p\n"),
    (RunEnd::Spent(SpentWho::Endpoint(2)), "wx: spent: r\n"),
    (
        RunEnd::Spent(SpentWho::Host(HostNo(12))),
        "wx: spent: host 12\n",
    ),
];

/// The line of an endpoint that is spent names it; where the run is done there is none.
#[test]
fn lines_of_ends(rt: HostRuntime) -> Result<(), Fail> {
    let alloc = rt.alloc();
    let scene = Scene::read(alloc, SCENE)?;
    let journal = Journal::new(alloc);
    for (end, expected) in ENDS.iter() {
        let lines = lines_of_end(alloc, &scene, &journal, *end)?;
        assert_eq!(rt; str::from_utf8(&lines), Ok(*expected));
    }
    Ok(())
}
