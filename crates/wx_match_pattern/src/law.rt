//! The law of reading.
ghost use Rattle.std.specs.Prelude.{◌≡◌, List, ℕ, Ok, Err, MatchResult};
ghost use Rattle.wx_match_pattern.specs.declared.fault.PatternFault.{PatternFault};
ghost use Rattle.wx_match_pattern.specs.Faults.{IsFault};
ghost use Rattle.wx_match_pattern.specs.Pattern.{PatternParts, IsTextOf};
ghost use Rattle.wx_match_pattern.specs.Reading.{pattern_of};

/// The law of reading: each text either is one pattern and has no fault, or is none and has one fault, and `pattern_of`
/// computes which. It does nothing when it runs.
pub fn one_pattern_or_fault()
    ensures exact { (text : List ℕ) → MatchResult (pattern_of text) (λ pattern. IsTextOf pattern text) (IsFault text) }
    ensures one_pattern { (text : List ℕ) (pattern : PatternParts) →
        IsTextOf pattern text → pattern_of text ≡ Ok pattern }
    ensures one_fault { (text : List ℕ) (fault : PatternFault) → IsFault text fault → pattern_of text ≡ Err fault }
{}
