//! The paths of pages.
ghost use Rattle.std.specs.Prelude.{◌≡◌, IsTrue, IfOk, false};
ghost use Rattle.wx_context.specs.Paths as paths;

use std::alloc::Global;
use std::marker::Model;
use wx_id::{NoMemory, Utf8Text};

/// The path of a page of an extension: `/`, and printable ASCII bytes but the space. Contracts see its bytes.
#[derive(Debug, Drop)]
pub struct PagePath {
    text: Utf8Text,
}

impl Model for PagePath {
    ghost use Rattle.std.specs.Prelude.{List, ℕ, IsTrue};
    ghost use Rattle.wx_context.specs.Paths.{is_page_path};

    ghost Value = { List ℕ };

    ghost view = { λ path. path.text };

    ghost invariant = { λ path. IsTrue (is_page_path path.text) };
}

/// Why a text is not read as a path.
#[derive(Clone, Copy, Debug, PartialEq, Eq)]
pub enum PathFault {
    /// It is no path.
    BadPath,
    /// Memory was refused.
    NoMemory,
}

/// Whether each byte is printable ASCII other than the space.
pub fn are_printable(bytes: &[u8]) -> bool
    ensures { result ≡ paths.is_printable bytes.now }
{
    bytes.iter().all(|byte| byte.is_ascii_graphic())
}

/// Whether bytes are the path of a page: `/`, and printable ASCII bytes but the space.
pub fn is_page_path(bytes: &[u8]) -> bool
    ensures { result ≡ paths.is_page_path bytes.now }
{
    match bytes.split_first() {
        Some((first, others)) => *first == b'/' && are_printable(others),
        None => false,
    }
}

impl PagePath {
    /// Reads a path.
    pub fn read(alloc: Global, text: &str) -> Result<PagePath, PathFault>
        ensures ok { IfOk result (λ path. (path ≡ text.now) × IsTrue (paths.is_page_path text.now)) }
        ensures bad { result ≡ Err PathFault.BadPath → paths.is_page_path text.now ≡ false }
        ensures memory { result ≡ Err PathFault.NoMemory → IsTrue (paths.is_page_path text.now) }
    {
        if !is_page_path(text.as_bytes()) {
            return Err(PathFault::BadPath);
        }
        match Utf8Text::new(alloc, text) {
            Ok(text) => Ok(PagePath { text }),
            Err(NoMemory) => Err(PathFault::NoMemory),
        }
    }

    /// Its text.
    pub fn text(&self) -> &str
        ensures value { result.now ≡ self.now }
        ensures sort { IsTrue (paths.is_page_path self.now) }
    {
        self.text.as_str()
    }

    /// An equal path.
    pub fn try_clone(&self) -> Result<PagePath, NoMemory>
        ensures { IfOk result (λ copy. copy ≡ self.now) }
    {
        match self.text.try_clone() {
            Ok(text) => Ok(PagePath { text }),
            Err(NoMemory) => Err(NoMemory),
        }
    }
}
