//! The texts of `wx_id`.
use std::test::Fail;
use wx_id::Utf8Text;

#[test]
fn texts(rt: HostRuntime) -> Result<(), Fail> {
    match Utf8Text::new(rt.alloc(), "naïve") {
        Ok(text) => {
            assert_eq!(rt; text.as_str(), "naïve");
            match text.try_clone() {
                Ok(copy) => assert_eq!(rt; copy.as_str(), "naïve"),
                Err(_) => assert!(rt; false),
            }
        }
        Err(_) => assert!(rt; false),
    }
    Ok(())
}
