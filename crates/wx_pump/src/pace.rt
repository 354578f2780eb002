//! The law of how many entries a host makes, as the contract of a function that does nothing.
ghost use Rattle.wx_pump.specs.Paces.{EntriesAreFew};

/// A host whose two pumps ask in time makes 65,538 entries at most.
pub fn entries_are_few()
    ensures { EntriesAreFew }
{}
