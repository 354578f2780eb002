//! Texts of each sort at the front of bytes.
ghost use Rattle.std.specs.Prelude.{◌≡◌, bytes_eq};
ghost use Rattle.std.specs.Str.{is_utf8};
ghost use Rattle.wx_json.specs.Test.{is_json_text};
ghost use Rattle.wx_context.specs.Paths.{is_page_path};
ghost use Rattle.wx_context.specs.WebUrls.{is_web_url};
ghost use Rattle.wx_journal_read.specs.Fits.{is_url};
ghost use Rattle.wx_journal_read.specs.Grammar.{id_at};
ghost use Rattle.wx_journal_read.specs.Gives.{Gives};
ghost use Rattle.wx_journal_read.specs.Reading as reading;

use crate::fault::Fault;
use crate::field::text;
use std::alloc::Global;
use wx_context::{PagePath, PathFault, UrlFault, WebUrl};
use wx_id::{ExtensionId, Utf8Text};
use wx_json::JsonText;

/// The bytes as a text, where they are UTF-8.
fn utf8_text(alloc: Global, bytes: &[u8]) -> Result<Utf8Text, Fault>
    ensures { Gives (λ x. x) result (reading.where_so (is_utf8 bytes.now) bytes.now) }
{
    match str::from_utf8(bytes) {
        Ok(text) => Ok(Utf8Text::new(alloc, text)?),
        Err(_) => Err(Fault::Bad),
    }
}

/// A UTF-8 text after its length.
#[tactic(auto, unfolding(crate::specs::Reading::sized_at))]
pub fn name(alloc: Global, bytes: &[u8]) -> Result<(Utf8Text, &[u8]), Fault>
    ensures { Gives (λ x. (x.0, x.1.now)) result (reading.sized_at is_utf8 bytes.now) }
{
    let (bytes, rest) = text(bytes)?;
    let name = utf8_text(alloc, bytes)?;
    Ok((name, rest))
}

/// The bytes as a JSON text, where they are one.
fn json_text(alloc: Global, bytes: &[u8]) -> Result<JsonText, Fault>
    ensures { Gives (λ x. x) result (reading.where_so (is_json_text bytes.now) bytes.now) }
{
    match JsonText::new(Vec::from_slice(alloc, bytes)?) {
        Ok(text) => Ok(text),
        Err(_) => Err(Fault::Bad),
    }
}

/// A JSON text after its length.
#[tactic(auto, unfolding(crate::specs::Reading::sized_at))]
pub fn json(alloc: Global, bytes: &[u8]) -> Result<(JsonText, &[u8]), Fault>
    ensures { Gives (λ x. (x.0, x.1.now)) result (reading.sized_at is_json_text bytes.now) }
{
    let (bytes, rest) = text(bytes)?;
    let text = json_text(alloc, bytes)?;
    Ok((text, rest))
}

/// The bytes as the path of a page, where they are one.
fn path_text(alloc: Global, bytes: &[u8]) -> Result<PagePath, Fault>
    ensures { Gives (λ x. x) result (reading.where_so (is_page_path bytes.now) bytes.now) }
{
    match str::from_utf8(bytes) {
        Ok(text) => match PagePath::read(alloc, text) {
            Ok(path) => Ok(path),
            Err(PathFault::BadPath) => Err(Fault::Bad),
            Err(PathFault::NoMemory) => Err(Fault::NoMemory),
        },
        Err(_) => Err(Fault::Bad),
    }
}

/// The path of a page after its length.
#[tactic(auto, unfolding(crate::specs::Reading::sized_at))]
pub fn path(alloc: Global, bytes: &[u8]) -> Result<(PagePath, &[u8]), Fault>
    ensures { Gives (λ x. (x.0, x.1.now)) result (reading.sized_at is_page_path bytes.now) }
{
    let (bytes, rest) = text(bytes)?;
    let path = path_text(alloc, bytes)?;
    Ok((path, rest))
}

/// Whether the text is the URL's own.
fn is_own(url: &WebUrl, text: &str) -> bool
    ensures { result ≡ bytes_eq text.now url.now }
{
    text.as_bytes() == url.url().as_str().as_bytes()
}

/// The text as a web URL, where it is its own.
#[tactic(auto, using(crate::proofs::Sorts::own_is, crate::proofs::Sorts::own_differs, crate::proofs::Sorts::no_url))]
fn own_url(alloc: Global, text: &str) -> Result<WebUrl, Fault>
    ensures { Gives (λ x. x) result (reading.where_so (is_web_url text.now) text.now) }
{
    match WebUrl::read(alloc, text) {
        Ok(url) => {
            if is_own(&url, text) {
                Ok(url)
            } else {
                Err(Fault::Bad)
            }
        }
        Err(UrlFault::BadUrl) => Err(Fault::Bad),
        Err(UrlFault::NoMemory) => Err(Fault::NoMemory),
    }
}

/// The bytes as a web URL, where they are its own text.
fn url_text(alloc: Global, bytes: &[u8]) -> Result<WebUrl, Fault>
    ensures { Gives (λ x. x) result (reading.where_so (is_url bytes.now) bytes.now) }
{
    match str::from_utf8(bytes) {
        Ok(text) => own_url(alloc, text),
        Err(_) => Err(Fault::Bad),
    }
}

/// A web URL's own text after its length.
#[tactic(auto, unfolding(crate::specs::Reading::sized_at))]
pub fn url(alloc: Global, bytes: &[u8]) -> Result<(WebUrl, &[u8]), Fault>
    ensures { Gives (λ x. (x.0, x.1.now)) result (reading.sized_at is_url bytes.now) }
{
    let (bytes, rest) = text(bytes)?;
    let url = url_text(alloc, bytes)?;
    Ok((url, rest))
}

/// An extension's id.
#[tactic(auto, unfolding(crate::specs::Grammar::id_at))]
pub fn extension_id(bytes: &[u8]) -> Result<(ExtensionId, &[u8]), Fault>
    ensures { Gives (λ x. (x.0, x.1.now)) result (id_at bytes.now) }
{
    if bytes.len() < 32 {
        return Err(Fault::Bad);
    }
    let (front, rest) = bytes.split_at(32);
    match ExtensionId::read(front) {
        Ok(id) => Ok((id, rest)),
        Err(_) => Err(Fault::Bad),
    }
}
