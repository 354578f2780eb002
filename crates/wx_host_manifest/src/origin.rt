//! The origin of an extension, read and written.
ghost use Rattle.std.specs.Prelude.{◌≡◌, IfOk, string_bytes};
ghost use Rattle.wx_host_manifest.specs.Origins.{origin_of, caller_of};

use std::alloc::Global;
use wx_id::{ExtensionId, NoMemory};

const SCHEME: &str = "chrome-extension://";

/// Whose origin this text is.
pub(crate) fn read_origin(text: &str) -> Option<ExtensionId>
    ensures { result ≡ caller_of text.now }
{
    let Some(rest) = text.as_bytes().strip_prefix(SCHEME.as_bytes()) else {
        return None;
    };
    let Some(id) = rest.strip_suffix(b"/") else {
        return None;
    };
    match ExtensionId::read(id) {
        Ok(id) => Some(id),
        Err(_) => None,
    }
}

/// The origin of an extension: `chrome-extension://ID/`.
pub(crate) fn write_origin(alloc: Global, id: &ExtensionId) -> Result<String, NoMemory>
    ensures { IfOk result (λ text. string_bytes text ≡ origin_of id.now) }
{
    let mut text = String::from_str(alloc, SCHEME)?;
    text.push_str(id.text())?;
    text.push_str("/")?;
    Ok(text)
}
