//! The parts of a pattern, and what each meets.
ghost use Rattle.std.specs.Prelude.{◌≡◌, ◌↔◌, IsTrue, option_copied};
ghost use Rattle.wx_match_pattern.specs.Meets.{SchemeAgrees, HostAgrees, IsBelow, IsWebScheme};
ghost use Rattle.wx_match_pattern.specs.Pattern.{scheme_head, IsBroadHost};
ghost use Rattle.wx_match_pattern.specs.View.{host_view, IsStored};

use crate::slices::behind;

/// The scheme of a pattern.
#[derive(Clone, Copy, Debug, PartialEq, Eq)]
pub(crate) enum SchemePart {
    /// `*`: http and https.
    Any,
    Http,
    Https,
    File,
}

/// The host of a pattern, with its name as the pattern writes it.
#[derive(Debug, Drop)]
pub(crate) enum HostForm {
    /// No host, as `file` patterns have it.
    Empty,
    /// `*`.
    AnyHost,
    /// `*.` and the name.
    Below(Vec<u8>),
    /// The name.
    Named(Vec<u8>),
}

/// A pattern by its parts; the path begins with its `/`.
#[derive(Debug, Drop)]
pub(crate) enum Form {
    AllUrls,
    Parts(SchemePart, HostForm, Vec<u8>),
}

/// Whether a URL's scheme is http or https.
pub(crate) fn is_web_scheme(scheme: &str) -> bool
    ensures { IsTrue result ↔ IsWebScheme scheme.now }
{
    scheme == "http" || scheme == "https"
}

impl SchemePart {
    /// `scheme://`.
    pub(crate) fn head(self) -> &'static [u8]
        ensures { result.now ≡ scheme_head self }
    {
        match self {
            SchemePart::Any => b"*://",
            SchemePart::Http => b"http://",
            SchemePart::Https => b"https://",
            SchemePart::File => b"file://",
        }
    }

    /// Whether a URL with this scheme may match.
    pub(crate) fn agrees(self, scheme: &str) -> bool
        ensures { IsTrue result ↔ SchemeAgrees self scheme.now }
    {
        match self {
            SchemePart::Any => is_web_scheme(scheme),
            SchemePart::Http => scheme == "http",
            SchemePart::Https => scheme == "https",
            SchemePart::File => scheme == "file",
        }
    }
}

/// Whether the host ends in `.` and the name, whatever the case of the letters.
fn is_below(name: &[u8], host: &[u8]) -> bool
    ensures { IsTrue result ↔ IsBelow name.now host.now }
{
    if host.len() <= name.len() {
        return false;
    }
    let dot = host.len() - name.len() - 1;
    host[dot] == b'.' && behind(host, dot + 1).eq_ignore_ascii_case(name)
}

impl HostForm {
    /// Whether a URL with this host may match; `None` is a host that is missing or empty.
    pub(crate) fn agrees(&self, host: Option<&str>) -> bool
        ensures { IsTrue result ↔ HostAgrees (host_view self.now) (option_copied host.entry) }
    {
        let Some(host) = host else {
            return matches!(self, HostForm::Empty | HostForm::AnyHost);
        };
        match self {
            HostForm::Empty => false,
            HostForm::AnyHost => true,
            HostForm::Below(name) => {
                host.as_bytes().eq_ignore_ascii_case(name) || is_below(name, host.as_bytes())
            }
            HostForm::Named(name) => host.as_bytes().eq_ignore_ascii_case(name),
        }
    }

    /// Whether it covers a whole top-level domain or more.
    pub(crate) fn is_broad(&self) -> bool
        requires { IsStored (host_view self.now) }
        ensures { IsTrue result ↔ IsBroadHost (host_view self.now) }
    {
        match self {
            HostForm::Empty | HostForm::Named(_) => false,
            HostForm::AnyHost => true,
            HostForm::Below(name) => !name.contains(&b'.'),
        }
    }
}
