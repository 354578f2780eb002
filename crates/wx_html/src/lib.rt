//! Texts in a page of HTML.
#![tactic(auto)]

ghost use Rattle.std.specs.List.{list_all};
ghost use Rattle.std.specs.Prelude.{◌≡◌, ◌++◌, ℕ, List, true, OnOk};
ghost use Rattle.wx_html.specs.Escape.{entity, escaped, is_tame, read_back};

use std::alloc::AllocError;

/// Adds what stands for one byte.
fn put(page: &mut Vec<u8>, byte: u8) -> Result<(), AllocError>
    ensures { OnOk result (page.new.items ≡ page.old.items ++ entity byte) }
{
    match byte {
        b'&' => page.extend_from_slice(b"&amp;"),
        b'<' => page.extend_from_slice(b"&lt;"),
        b'>' => page.extend_from_slice(b"&gt;"),
        b'"' => page.extend_from_slice(b"&quot;"),
        b'\'' => page.extend_from_slice(b"&#39;"),
        b'\r' => page.extend_from_slice(b"&#13;"),
        0 => page.extend_from_slice(b"&#9216;"),
        _ => page.extend_from_slice(&[byte]),
    }
}

/// Adds a text as it stands in a page, between tags or within the quotes of an attribute.
pub fn escape(page: &mut Vec<u8>, text: &[u8]) -> Result<(), AllocError>
    ensures { OnOk result (page.new.items ≡ page.old.items ++ escaped text.now) }
{
    for byte in text {
        put(page, *byte)?;
    }
    Ok(())
}

/// No byte of what stands for a text opens or closes a tag or quotes, or is changed by a reader of pages.
#[tactic(auto, using(crate::proofs::Tame::tame))]
pub fn escaped_is_tame()
    ensures { (text : List ℕ) → list_all is_tame (escaped text) ≡ true }
{}

/// What stands for a text is read as that text.
#[tactic(auto, using(crate::proofs::Back::back))]
pub fn escaped_reads_back()
    ensures { (text : List ℕ) → read_back (escaped text) ≡ text }
{}
