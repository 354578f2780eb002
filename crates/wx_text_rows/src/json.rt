//! A fault of JSON, and a restart after it.
use std::test::Fail;
use wx_json::{JsonCheck, JsonFault, JsonKind};

fn at(place: u64, kind: JsonKind) -> Result<(), JsonFault> {
    Err(JsonFault { place, kind })
}

#[test]
fn a_fault_stays_until_a_restart(rt: HostRuntime) -> Result<(), Fail> {
    let mut check = JsonCheck::new();
    assert!(&rt; check.step(b"[0") == Ok(()));
    assert!(&rt; check.step(b"1") == at(2, JsonKind::Syntax));
    assert!(&rt; check.step(b"]") == at(2, JsonKind::Syntax));
    assert!(&rt; check.finish() == at(2, JsonKind::Syntax));
    assert!(&rt; check.taken() == 2);
    check.restart();
    assert!(&rt; check.step(b"{}") == Ok(()));
    assert!(&rt; check.finish() == Ok(()));
    assert!(&rt; check.taken() == 2);
    Ok(())
}
