//! Runs of bytes that leave the check where it is, taken many at a time: the plain bytes of a string, white space
//! between two tokens, and digits.
ghost use Rattle.std.specs.Prelude.{◌≡◌, ℕ, ◌+◌, ◌<◌, ◌≤◌, Bool, not, length, take, drop, map};
ghost use Rattle.std.specs.List.{prefix_len};
ghost use Rattle.std.specs.Simd.Lanes.{mask_l};
ghost use Rattle.wx_json.specs.Json.{is_white, is_digit};
ghost use Rattle.wx_json.specs.Plain.{is_plain};

use std::simd::prelude::*;

/// The bytes of a run, and a block of bytes held against them at once.
trait Run {
    // the bytes of which a run is
    ghost passes: { ℕ → Bool };

    // how many bytes a block has
    ghost size: { ℕ };

    /// How many bytes a block has.
    fn size() -> usize
        ensures size { result ≡ size }
        ensures bounds { (0 < result) × (result ≤ 64) };

    /// Whether the byte belongs to a run.
    fn passes(c: u8) -> bool
        ensures { result ≡ passes c };

    /// Which bytes of the block in front belong to no run, the first in the lowest bit.
    fn stops(block: &[u8]) -> u64
        requires { size ≤ length block.now }
        ensures { result ≡ mask_l (map (λ c. not (passes c)) (take size block.now)) };
}

/// The plain bytes of a string.
struct Plain;

impl Run for Plain {
    ghost passes = { is_plain };

    ghost size = { 32 };

    #[inline(always)]
    fn size() -> usize {
        32
    }

    #[inline(always)]
    fn passes(c: u8) -> bool {
        c != b'"' && c != b'\\' && c >= 0x20 && c < 0x80
    }

    #[inline(always)]
    fn stops(block: &[u8]) -> u64 {
        let v = u8x32::from_slice(block);
        (v.simd_eq(u8x32::splat(b'"'))
            | v.simd_eq(u8x32::splat(b'\\'))
            | v.simd_lt(u8x32::splat(0x20))
            | v.simd_ge(u8x32::splat(0x80))).to_bitmask()
    }
}

/// White space.
struct White;

impl Run for White {
    ghost passes = { is_white };

    ghost size = { 16 };

    #[inline(always)]
    fn size() -> usize {
        16
    }

    #[inline(always)]
    fn passes(c: u8) -> bool {
        c == b' ' || c == b'\t' || c == b'\n' || c == b'\r'
    }

    #[inline(always)]
    fn stops(block: &[u8]) -> u64 {
        let v = u8x16::from_slice(block);
        (v.simd_ne(u8x16::splat(b' '))
            & v.simd_ne(u8x16::splat(b'\t'))
            & v.simd_ne(u8x16::splat(b'\n'))
            & v.simd_ne(u8x16::splat(b'\r'))).to_bitmask()
    }
}

/// Digits.
struct Digits;

impl Run for Digits {
    ghost passes = { is_digit };

    ghost size = { 16 };

    #[inline(always)]
    fn size() -> usize {
        16
    }

    #[inline(always)]
    fn passes(c: u8) -> bool {
        c >= b'0' && c <= b'9'
    }

    #[inline(always)]
    fn stops(block: &[u8]) -> u64 {
        let v = u8x16::from_slice(block);
        (v - u8x16::splat(b'0'))
            .simd_ge(u8x16::splat(10))
            .to_bitmask()
    }
}

/// As `end`, a byte at a time: for the last bytes, fewer than a block.
#[cold]
#[inline(never)]
fn end_slowly<R: Run>(text: &[u8], from: usize) -> usize
    requires { from ≤ length text.now }
    ensures { result ≡ from + prefix_len R.passes (drop from text.now) }
{
    let mut i = from;
    while i < text.len() && R::passes(text[i]) {
        i += 1;
    }
    i
}

/// The first byte from `from` on that belongs to no run, or the length.
#[inline(always)]
fn end<R: Run>(text: &[u8], from: usize) -> usize
    requires { from ≤ length text.now }
    ensures value { result ≡ from + prefix_len R.passes (drop from text.now) }
    ensures bound { result ≤ length text.now }
{
    let mut i = from;
    while text.len() - i >= R::size() {
        let found = R::stops(&text[i..]);
        if found != 0 {
            return i + found.trailing_zeros() as usize;
        }
        i += R::size();
    }
    end_slowly::<R>(text, i)
}

/// The first byte from `from` on that is not plain, or the length.
#[inline(always)]
pub(crate) fn plain_end(text: &[u8], from: usize) -> usize
    requires { from ≤ length text.now }
    ensures value { result ≡ from + prefix_len is_plain (drop from text.now) }
    ensures bound { result ≤ length text.now }
{
    end::<Plain>(text, from)
}

/// The first byte from `from` on that is no white space, or the length. Mostly that is the byte at `from`.
#[inline(always)]
pub(crate) fn white_end(text: &[u8], from: usize) -> usize
    requires { from ≤ length text.now }
    ensures value { result ≡ from + prefix_len is_white (drop from text.now) }
    ensures bound { result ≤ length text.now }
{
    if from == text.len() || text[from] > b' ' {
        from
    } else {
        end::<White>(text, from)
    }
}

/// The first byte from `from` on that is no digit, or the length.
#[inline(always)]
pub(crate) fn digits_end(text: &[u8], from: usize) -> usize
    requires { from ≤ length text.now }
    ensures value { result ≡ from + prefix_len is_digit (drop from text.now) }
    ensures bound { result ≤ length text.now }
{
    end::<Digits>(text, from)
}
