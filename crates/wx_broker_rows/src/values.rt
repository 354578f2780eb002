//! Values that the tests pass: a page, a JSON text, an entry.
use std::alloc::Global;
use wx_context::{Context, PagePath};
use wx_id::{ExtensionId, Utf8Text};
use wx_machine::{Answer, Call, Entry, JsonText, Who};

/// The id of extension A.
pub const A: &[u8] = b"aaaaaaaaaaaaaaaaaaaaaaaaaaaaaaaa";

/// The id of extension B.
pub const B: &[u8] = b"bbbbbbbbbbbbbbbbbbbbbbbbbbbbbbbb";

/// The page of that extension at that path.
pub fn page(alloc: Global, ext: &[u8], path: &str) -> Option<Context> {
    let ext = ExtensionId::read(ext).ok()?;
    let path = PagePath::read(alloc, path).ok()?;
    Some(Context::Page { ext, path })
}

/// A copy of the text, which is a JSON text.
pub fn json(alloc: Global, text: &str) -> Option<JsonText> {
    JsonText::new(Vec::from_slice(alloc, text.as_bytes()).ok()?).ok()
}

/// A copy of the name.
pub fn name(alloc: Global, text: &str) -> Option<Utf8Text> {
    Utf8Text::new(alloc, text).ok()
}

/// Appends an entry.
pub fn push(entries: &mut Vec<Entry>, who: Who, call: Call, answer: Answer) -> Option<()> {
    entries.push(Entry { who, call, answer }).ok()
}
