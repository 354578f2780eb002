//! Worked examples of the definitions, each the contract of a function that does nothing.
ghost use Rattle.wx_machine.specs.Rows.{OneConnectionOnePost, ConnectReachesNobody, ReceiverDisconnects};
ghost use Rattle.wx_machine.specs.Rows.{ReceiverLeaves, PostsOutliveTheOpener, DisconnectDropsWhatWaits};
ghost use Rattle.wx_machine.specs.Rows.{FirstReplyWins, ClosedWithoutReply, AskerLeaves, EarlyDecline};
ghost use Rattle.wx_machine.specs.Rows.{TabsAndFrames, FromOutside, OwnFlagsServeOwnCalls, HostEnds};
ghost use Rattle.wx_machine.specs.Rows.{EndedHostTakesNothing, HostReplies, HostFailsToStart, HostsTakeTheirOwn};
ghost use Rattle.wx_machine.specs.Rows.{NativeGateInOrder};

/// Two pages, one connection, one posted number.
pub fn one_connection_one_post()
    ensures { OneConnectionOnePost }
{}

/// A page that listens does not reach itself.
pub fn connect_reaches_nobody()
    ensures { ConnectReachesNobody }
{}

/// A receiver's disconnect closes the channel to the other receiver too, and the opener alone is told.
pub fn receiver_disconnects()
    ensures { ReceiverDisconnects }
{}

/// A receiver's leave closes the channel only where no receiver is left.
pub fn receiver_leaves()
    ensures { ReceiverLeaves }
{}

/// What was posted before the opener left stays to be taken.
pub fn posts_outlive_the_opener()
    ensures { PostsOutliveTheOpener }
{}

/// One who disconnects a channel takes nothing more of it.
pub fn disconnect_drops_what_waits()
    ensures { DisconnectDropsWhatWaits }
{}

/// The first reply wins; later ones come late.
pub fn first_reply_wins()
    ensures { FirstReplyWins }
{}

/// A request is closed without a reply once every receiver declined or left.
pub fn closed_without_reply()
    ensures { ClosedWithoutReply }
{}

/// An asker that leaves settles its request.
pub fn asker_leaves()
    ensures { AskerLeaves }
{}

/// A decline before the request is made does not count.
pub fn early_decline()
    ensures { EarlyDecline }
{}

/// A page reaches the content scripts of its extension in a tab, or in a frame of it.
pub fn tabs_and_frames()
    ensures { TabsAndFrames }
{}

/// What comes from outside passes the gate, and is heard by those who listen to the outside.
pub fn from_outside()
    ensures heard { FromOutside }
    ensures not_heard { OwnFlagsServeOwnCalls }
{}

/// A host that ends closes its channel.
pub fn host_ends()
    ensures { HostEnds }
{}

/// A host that ended takes nothing more.
pub fn ended_host_takes_nothing()
    ensures { EndedHostTakesNothing }
{}

/// A host's first message is the reply to its request, and a second one is ignored.
pub fn host_replies()
    ensures { HostReplies }
{}

/// A host that does not start settles its request without a reply.
pub fn host_fails_to_start()
    ensures { HostFailsToStart }
{}

/// Two hosts of one name have channels and texts of their own, and what was posted on a closed channel is taken before
/// the end.
pub fn hosts_take_their_own()
    ensures { HostsTakeTheirOwn }
{}

/// Who may start a host: the tests in their order.
pub fn native_gate_in_order()
    ensures { NativeGateInOrder }
{}
