//! Words, numbers and sized texts at the front of bytes.
ghost use Rattle.std.specs.Prelude.{◌≡◌, ◌^◌, true, nat_lt};
ghost use Rattle.std.specs.Str.{all_ascii_digits};
ghost use Rattle.std.specs.Str.Parse.{digits_value};
ghost use Rattle.std.specs.Option.{option_map};
ghost use Rattle.wx_journal_read.specs.Gives.{Gives};
ghost use Rattle.wx_journal_read.specs.Reading as reading;

use crate::fault::Fault;

/// What stands after this word.
#[tactic(auto, using(crate::proofs::Behind::behind_is))]
pub fn behind<'a>(word: &[u8], bytes: &'a [u8]) -> Option<&'a [u8]>
    ensures { option_map (λ r. r.now) result ≡ reading.behind word.now bytes.now }
{
    if bytes.starts_with(word) {
        let (_, rest) = bytes.split_at(word.len());
        Some(rest)
    } else {
        None
    }
}

/// What stands after this word, which must stand there.
pub fn skip<'a>(word: &[u8], bytes: &'a [u8]) -> Result<&'a [u8], Fault>
    ensures { Gives (λ r. r.now) result (reading.behind word.now bytes.now) }
{
    match behind(word, bytes) {
        Some(rest) => Ok(rest),
        None => Err(Fault::Bad),
    }
}

/// The digits in front, and what stands after them.
#[tactic(auto, unfolding(crate::specs::Reading::digits_of, crate::specs::Reading::after_digits))]
fn split_digits(bytes: &[u8]) -> (&[u8], &[u8])
    ensures digits { result.0.now ≡ reading.digits_of bytes.now }
    ensures rest { result.1.now ≡ reading.after_digits bytes.now }
{
    for (i, byte) in bytes.iter().enumerate() {
        if !byte.is_ascii_digit() {
            return bytes.split_at(i);
        }
    }
    (bytes, &[])
}

/// Whether there is a digit, and no leading zero.
fn is_plain(digits: &[u8]) -> bool
    ensures { result ≡ reading.is_plain digits.now }
{
    match digits.split_first() {
        Some((first, others)) => *first != b'0' || others.is_empty(),
        None => false,
    }
}

/// The number that digits write, where it fits.
fn parse(digits: &[u8]) -> Option<u64>
    requires digits { all_ascii_digits digits.now ≡ true }
    requires some { reading.is_plain digits.now ≡ true }
    ensures { result ≡ reading.where_so (nat_lt (digits_value 10 digits.now) (2 ^ 64)) (digits_value 10 digits.now) }
{
    let Ok(text) = str::from_utf8(digits) else {
        return None;
    };
    text.parse::<u64>().ok()
}

/// A number.
#[tactic(auto, unfolding(crate::specs::Reading::number_at), using(crate::proofs::Numbers::digits_all))]
pub fn number(bytes: &[u8]) -> Result<(u64, &[u8]), Fault>
    ensures { Gives (λ x. (x.0, x.1.now)) result (reading.number_at (2 ^ 64) bytes.now) }
{
    let (digits, rest) = split_digits(bytes);
    if !is_plain(digits) {
        return Err(Fault::Bad);
    }
    match parse(digits) {
        Some(n) => Ok((n, rest)),
        None => Err(Fault::Bad),
    }
}

/// A number of 32 bits.
#[tactic(auto, using(crate::proofs::Numbers::narrow))]
pub fn number32(bytes: &[u8]) -> Result<(u32, &[u8]), Fault>
    ensures { Gives (λ x. (x.0, x.1.now)) result (reading.number_at (2 ^ 32) bytes.now) }
{
    let (n, rest) = number(bytes)?;
    if n < 0x1_0000_0000 {
        Ok((n as u32, rest))
    } else {
        Err(Fault::Bad)
    }
}

/// A text after its length.
#[tactic(auto, unfolding(crate::specs::Reading::text_at))]
pub fn text(bytes: &[u8]) -> Result<(&[u8], &[u8]), Fault>
    ensures { Gives (λ x. (x.0.now, x.1.now)) result (reading.text_at bytes.now) }
{
    let (len, rest) = number(bytes)?;
    let rest = skip(b":", rest)?;
    if len <= rest.len() as u64 {
        Ok(rest.split_at(len as usize))
    } else {
        Err(Fault::Bad)
    }
}
