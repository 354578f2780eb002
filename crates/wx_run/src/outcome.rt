//! What a run leaves, and how it ends.
use wx_journal::Journal;
use wx_script::SpentWho;

/// How a run ended.
#[derive(Clone, Copy, Debug, PartialEq, Eq)]
pub enum RunEnd {
    /// Every script and every host has ended.
    Done,
    /// Some script has not ended, no endpoint is spent, each script that has not ended waits with nothing pending, and
    /// every host has ended.
    Stalled,
    /// It stopped after the entry with which this endpoint or host had made as many as it may, and had not ended.
    Spent(SpentWho),
}

/// What a run leaves.
#[derive(Drop)]
pub struct Outcome {
    pub journal: Journal,
    pub end: RunEnd,
}
