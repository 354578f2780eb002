//! Worked examples of a journal's text, each the contract of a function that does nothing.
ghost use Rattle.wx_journal_text.specs.Rows.{OneConnectionOnePostText, FirstReplyWinsText, TabsAndFramesText};
ghost use Rattle.wx_journal_text.specs.Rows.{FromOutsideText, HostRepliesText, HostEndsText};

/// The text of two pages, one connection and one posted number.
pub fn one_connection_one_post_text()
    ensures { OneConnectionOnePostText }
{}

/// The text of a request to two pages, of which the first to reply wins.
pub fn first_reply_wins_text()
    ensures { FirstReplyWinsText }
{}

/// The text of connects to a tab and to frames of it.
pub fn tabs_and_frames_text()
    ensures { TabsAndFramesText }
{}

/// The text of calls from another extension and from a web page.
pub fn from_outside_text()
    ensures { FromOutsideText }
{}

/// The text of a host that replies to a request.
pub fn host_replies_text()
    ensures { HostRepliesText }
{}

/// The text of a host that ends its channel by a frame that is too long.
pub fn host_ends_text()
    ensures { HostEndsText }
{}
