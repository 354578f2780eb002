//! Where and why a text is no pattern.
/// The part of a pattern in which a fault lies.
#[derive(Clone, Copy, Debug, PartialEq, Eq)]
pub enum PatternKind {
    /// The bytes before the fault do not hold `://`.
    Scheme,
    /// Behind `://`, where neither of the others applies.
    Host,
    /// The text ends after a whole host, and the path is missing.
    Path,
}

/// The place and the kind of the first fault of a text that is no pattern.
#[derive(Clone, Copy, Debug, PartialEq, Eq)]
pub struct PatternFault {
    /// The least p, counted in bytes from 0, such that the first p + 1 bytes are a prefix of no pattern; the length of
    /// a text that is such a prefix and no pattern.
    pub place: u64,
    pub kind: PatternKind,
}

/// Why a text was not read as a pattern.
#[derive(Clone, Copy, Debug, PartialEq, Eq)]
pub enum PatternReadFault {
    /// The text is no pattern.
    Bad(PatternFault),
    /// Memory was refused.
    NoMemory,
}
