//! The laws of messaging, each the contract of a function that does nothing. They stand on the definitions of the
//! machine alone, and hold of every legal journal, whatever made it.
ghost use Rattle.wx_laws.specs.Earlier.{EarlierIsLegal};
ghost use Rattle.wx_laws.specs.RefusalLaw.{RefusesConnects, RefusesNativeConnects};
ghost use Rattle.wx_laws.specs.SettlementLaw.{AnswersOnce, TellsOneOutcome, TellsTheAsker};
ghost use Rattle.wx_laws.specs.ClosingLaw.{TellsTheOtherSide, TellsNoMore, StaysPending, StaysBehindClosing};
ghost use Rattle.wx_laws.specs.PrefixLaw.{TakesInOrder, TakesTextsInOrder, HostsTakeInOrder, HostsTakeTextsInOrder};
ghost use Rattle.wx_laws.specs.Keeping.{LegalKeepsLaws};

/// What stands before an entry of a legal journal is legal, so the laws hold at each of its entries.
pub fn earlier_is_legal()
    ensures { EarlierIsLegal }
{}

/// A connect is refused exactly where its gate refuses it, or nobody hears it.
pub fn refuses_connects()
    ensures { RefusesConnects }
{}

/// A native connect is refused exactly where its gate refuses it.
pub fn refuses_native_connects()
    ensures { RefusesNativeConnects }
{}

/// At most one entry answers a request, the one that settles it.
pub fn answers_once()
    ensures { AnswersOnce }
{}

/// At most one outcome of a request is delivered, by the entry that settles it.
pub fn tells_one_outcome()
    ensures { TellsOneOutcome }
{}

/// Which outcome of a request an entry tells, and that it tells the asker alone.
pub fn tells_the_asker()
    ensures { TellsTheAsker }
{}

/// The entry that closes a channel tells each live end on the other side of it, once, and nobody else.
pub fn tells_the_other_side()
    ensures { TellsTheOtherSide }
{}

/// Nothing is told of a channel that is closed.
pub fn tells_no_more()
    ensures { TellsNoMore }
{}

/// What was delivered on a channel and not taken is pending for each context that did not itself disconnect it.
pub fn stays_pending()
    ensures { StaysPending }
{}

/// Behind the closing of a channel only a take removes what is pending of it.
pub fn stays_behind_closing()
    ensures { StaysBehindClosing }
{}

/// The messages that an end took of a channel are the first of those that the other side gave, in their order, and so
/// are their texts.
pub fn takes_in_order()
    ensures entries { TakesInOrder }
    ensures texts { TakesTextsInOrder }
{}

/// The texts that a host took are the first of those for it, in their order.
pub fn hosts_take_in_order()
    ensures entries { HostsTakeInOrder }
    ensures texts { HostsTakeTextsInOrder }
{}

/// Every legal journal keeps the laws, each said by the places of its entries.
pub fn keeps_laws()
    ensures { LegalKeepsLaws }
{}
