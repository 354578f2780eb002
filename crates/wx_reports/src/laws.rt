//! Worked examples of the reports, each the contract of a function that does nothing.
ghost use Rattle.wx_reports.specs.Rows.{OneConnection, PostsOutliveTheOpener, DisconnectDropsWhatWaits};
ghost use Rattle.wx_reports.specs.Rows.{HostsTakeTheirOwn, FirstReply, ClosedWithoutReply, AskerLeaves};
ghost use Rattle.wx_reports.specs.Rows.{NotSettled, HostReplies, HostFailsToStart};

/// One channel, and no other.
pub fn one_connection()
    ensures { OneConnection }
{}

/// What is taken after the opener's leave counts.
pub fn posts_outlive_the_opener()
    ensures { PostsOutliveTheOpener }
{}

/// What waits when its receiver disconnects is posted, and never taken.
pub fn disconnect_drops_what_waits()
    ensures { DisconnectDropsWhatWaits }
{}

/// The texts that a host takes, and what it says before its channel is closed, count on its own channel.
pub fn hosts_take_their_own()
    ensures { HostsTakeTheirOwn }
{}

/// The first reply settles the request.
pub fn first_reply()
    ensures { FirstReply }
{}

/// The receivers declined or left.
pub fn closed_without_reply()
    ensures { ClosedWithoutReply }
{}

/// The asker left.
pub fn asker_leaves()
    ensures { AskerLeaves }
{}

/// A request that nobody settled yet.
pub fn not_settled()
    ensures { NotSettled }
{}

/// What a host says settles its request.
pub fn host_replies()
    ensures { HostReplies }
{}

/// A host that does not start settles its request without a reply.
pub fn host_fails_to_start()
    ensures { HostFailsToStart }
{}
