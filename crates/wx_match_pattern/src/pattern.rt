//! Patterns, and the URLs that they match.
ghost use Rattle.std.specs.Prelude.{◌≡◌, ◌↔◌, IsTrue, Ok, Err, IfOk, IfErr, List, ℕ};
ghost use Rattle.wx_match_pattern.specs.Answers.{BadIs, Gives};
ghost use Rattle.wx_match_pattern.specs.Faults.{IsFault};
ghost use Rattle.wx_match_pattern.specs.Meets as meets;
ghost use Rattle.wx_match_pattern.specs.Meets.{Meets};
ghost use Rattle.wx_match_pattern.specs.Pattern.{IsTextOf, IsTooBroad};
ghost use Rattle.wx_match_pattern.specs.Reading.{pattern_of};

use crate::fault::PatternReadFault;
use crate::glob;
use crate::parts::{Form, is_web_scheme};
use crate::reading::read_form;
use std::alloc::Global;
use std::marker::Model;
use url::{Position, Url};

/// A match pattern. Contracts see its parts.
#[derive(Debug, Drop)]
pub struct Pattern {
    form: Form,
}

impl Model for Pattern {
    ghost use Rattle.wx_match_pattern.specs.Pattern.{PatternParts, IsWellFormed};

    ghost Value = { PatternParts };

    ghost use Rattle.wx_match_pattern.specs.View.{form_view};

    ghost view = { λ p. form_view p.form };

    ghost invariant = { λ p. IsWellFormed (form_view p.form) };
}

impl Pattern {
    /// Reads the pattern that this text is.
    pub fn read(alloc: Global, text: &str) -> Result<Pattern, PatternReadFault>
        ensures ok { IfOk result (λ pattern. IsTextOf pattern text.now) }
        ensures bad { IfErr result (BadIs (IsFault text.now)) }
        ensures value { Gives result (pattern_of text.now) }
    {
        let form = read_form(alloc, text.as_bytes())?;
        Ok(Pattern { form })
    }

    /// Whether the pattern matches the URL.
    ///
    /// The work is at most the pattern's length, and the length of the URL's path and query times that of the longest
    /// run between two `*`.
    pub fn matches(&self, url: &Url) -> bool
        ensures { IsTrue result ↔ Meets self.now url.now }
    {
        match &self.form {
            Form::AllUrls => is_web_scheme(url.scheme()) || url.scheme() == "file",
            Form::Parts(scheme, host, path) => {
                scheme.agrees(url.scheme())
                    && host.agrees(url.host_str())
                    && glob::matches(path, path_and_query(url))
            }
        }
    }

    /// Whether the pattern covers a whole top-level domain or more: its host is `*`, or `*.` and a name of one label.
    /// `<all_urls>` does not count as that.
    pub fn too_broad(&self) -> bool
        ensures { IsTrue result ↔ IsTooBroad self.now }
    {
        match &self.form {
            Form::AllUrls => false,
            Form::Parts(_, host, _) => host.is_broad(),
        }
    }
}

/// What a pattern's path is compared with.
fn path_and_query(url: &Url) -> &[u8]
    ensures { result.now ≡ meets.path_and_query url.now }
{
    url.slice(Position::BeforePath, Position::AfterQuery)
        .as_bytes()
}
