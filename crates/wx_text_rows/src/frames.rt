//! The steps of a reader of native frames.
use wx_native_frame::FrameReader;

/// A piece, how much of it is used, the text that it ends, and how many bytes are wanted next.
const PIECES: &[(&[u8], usize, Option<&[u8]>, u32)] = &[
    (b"\x02\x00\x00\x00{}\x01\x00\x00\x001", 6, Some(b"{}"), 4),
    (b"\x01\x00", 2, None, 2),
    (b"\x00\x00", 2, None, 1),
    (b"1", 1, Some(b"1"), 4),
];

#[test]
fn bytes_after_a_frame_stay(rt: HostRuntime) {
    let mut reader = FrameReader::new(rt.alloc(), 1_048_576);
    for &(piece, used, text, wanted) in PIECES {
        match reader.step(piece) {
            Ok(step) => {
                assert!(rt; step.used == used);
                match (&step.frame, text) {
                    (Some(frame), Some(text)) => assert!(rt; frame.bytes() == text),
                    (None, None) => {}
                    _ => assert!(rt; false),
                }
            }
            Err(_) => assert!(rt; false),
        }
        assert!(rt; reader.wanted() == wanted);
    }
}
