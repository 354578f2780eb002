//! The addresses of documents on the web.
ghost use Rattle.std.specs.Prelude.{◌≡◌, ◌≤◌, IfOk, IsTrue, None, Some, Ok, length};
ghost use Rattle.url.specs.Parser.{parse_url};
ghost use Rattle.url.specs.Parts.{serialize};
ghost use Rattle.wx_context.specs.WebUrls as urls;

use std::alloc::Global;
use std::marker::Model;
use url::{ParseError, Url};
use wx_id::NoMemory;

/// How many bytes a text and the URL's own text may have.
const LIMIT: usize = 67_108_864;

/// The address of a document on the web: an http or https URL (the URL Standard). Contracts see its own text, from
/// which the standard's parser reads the same URL again.
#[derive(Debug, Drop)]
pub struct WebUrl {
    url: Box<Url>,
}

impl Model for WebUrl {
    ghost use Rattle.std.specs.Prelude.{List, ℕ, IsTrue};
    ghost use Rattle.url.specs.Parts.{serialize};
    ghost use Rattle.wx_context.specs.WebUrls.{is_web};

    ghost Value = { List ℕ };

    ghost view = { λ w. serialize w.url.value };

    ghost invariant = { λ w. IsTrue (is_web w.url.value) };
}

/// Why a text is not read as the address of a document on the web.
#[derive(Clone, Copy, Debug, PartialEq, Eq)]
pub enum UrlFault {
    /// It is no URL, none of http or https, or too long: more than 67,108,864 bytes, as it stands or as the URL's own
    /// text.
    BadUrl,
    /// Memory was refused.
    NoMemory,
}

/// Whether the URL is one of http or https, and its own text not too long.
#[tactic(auto, unfolding(crate::specs::WebUrls::is_web))]
fn is_web(url: &Url) -> bool
    ensures { result ≡ urls.is_web url.now }
{
    (url.scheme() == "http" || url.scheme() == "https") && url.as_str().len() <= LIMIT
}

impl WebUrl {
    /// Reads the address that this text is.
    #[tactic(auto, unfolding(crate::specs::WebUrls::web_url_of))]
    pub fn read(alloc: Global, text: &str) -> Result<WebUrl, UrlFault>
        ensures ok { IfOk result (λ url. urls.web_url_of text.now ≡ Some url) }
        ensures bad { result ≡ Err UrlFault.BadUrl → urls.web_url_of text.now ≡ None }
        ensures memory { result ≡ Err UrlFault.NoMemory → length text.now ≤ urls.url_limit }
    {
        if text.len() > LIMIT {
            return Err(UrlFault::BadUrl);
        }
        match Url::parse(alloc, text) {
            Ok(url) => {
                if !is_web(&url) {
                    return Err(UrlFault::BadUrl);
                }
                match Box::new(alloc, url) {
                    Ok(url) => Ok(WebUrl { url }),
                    Err(_) => Err(UrlFault::NoMemory),
                }
            }
            Err(ParseError::OutOfMemory | ParseError::Overflow) => Err(UrlFault::NoMemory),
            Err(_) => Err(UrlFault::BadUrl),
        }
    }

    /// The URL.
    pub fn url(&self) -> &Url
        ensures text { serialize result.now ≡ self.now }
        ensures parsed { parse_url None self.now ≡ Ok result.now }
        ensures sort { IsTrue (urls.is_web_url self.now) }
    {
        let url = self.url.as_ref();
        let _own_text = url.as_str();
        url
    }

    /// An equal address.
    pub fn try_clone(&self) -> Result<WebUrl, NoMemory>
        ensures { IfOk result (λ copy. copy ≡ self.now) }
    {
        let url = self.url.as_ref().clone()?;
        let alloc = *Box::allocator(&self.url);
        Ok(WebUrl {
            url: Box::new(alloc, url)?,
        })
    }
}
